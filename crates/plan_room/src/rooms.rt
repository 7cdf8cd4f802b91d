//! How early something can have finished.

use std::hash::{Hash, Hasher};

/// A line, by its number, and the gap from which on it may start.
#[derive(Clone, Copy)]
pub struct Question {
    pub line: usize,
    pub gap: usize,
}

impl PartialEq for Question {
    ghost use Rattle.plan_room.specs.Questions.{question_eq, question_eq-partial};

    ghost eq = { question_eq };

    ghost laws = { question_eq-partial };

    fn eq(&self, other: &Question) -> bool {
        self.line == other.line && self.gap == other.gap
    }
}

impl Eq for Question {
    ghost use Rattle.plan_room.specs.Questions.{question_eq-laws};

    ghost laws = { question_eq-laws };
}

impl Hash for Question {
    ghost use Rattle.plan_room.specs.Questions.{question_hash, question_hash-Alike};

    ghost hash_input = { question_hash };

    ghost respects_eq = { question_hash-Alike.fed };

    fn hash<H: Hasher>(&self, state: &mut H) {
        self.line.hash(state);
        self.gap.hash(state);
    }
}

/// How early something can have finished.
#[derive(Clone, Copy)]
pub enum Finish {
    /// It isn't known before that of this line is.
    Unknown(Question),
    /// It cannot have finished by the last gap.
    Never,
    At(usize),
}
