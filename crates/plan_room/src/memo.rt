//! What is known of how early lines can have finished.
ghost use Rattle.std.specs.Prelude.{◌≡◌, None, OnErr, OnOk, Some, cond};
ghost use Rattle.indexmap.specs.IndexMap.{IsUnchanged};

use crate::rooms::{Finish, Question};
use indexmap::IndexMap;
use std::alloc::{AllocError, Global};

/// How early lines can have finished that may start at given gaps, as far as it is known: none where
/// they cannot by the last gap.
pub(crate) struct Memo {
    ends: IndexMap<Question, Option<usize>>,
}

// `Drop` is written by hand: a derived one is expanded, and proved, at each way out of each owner.
impl Drop for Memo {
    fn drop(self) {
        let Memo { ends: _ } = self;
    }
}

impl Memo {
    ghost use Rattle.plan_room.specs.Memo.{answer, known};
    ghost use Rattle.plan_room.specs.Questions.{question_eq};
    ghost use Rattle.plan_room.specs.declared.rooms.Question.{Question as Asked};

    /// Nothing is known.
    pub(crate) fn new(alloc: Global) -> Memo
        ensures { (q : Asked) → known result q ≡ None }
    {
        Memo {
            ends: IndexMap::new(alloc),
        }
    }

    /// What is known of a question.
    pub(crate) fn finish(&self, question: Question) -> Finish
        ensures { result ≡ answer question (known self.now question) }
    {
        match self.ends.get(&question) {
            None => Finish::Unknown(question),
            Some(None) => Finish::Never,
            Some(Some(end)) => Finish::At(*end),
        }
    }

    /// Notes the answer to a question. Where memory is refused all stays as it was.
    pub(crate) fn note(&mut self, question: Question, end: Option<usize>) -> Result<(), AllocError>
        ensures noted { OnOk result ((q : Asked) → known self.new q ≡ cond (question_eq question q) (Some end) (known self.old q)) }
        ensures err { OnErr result (IsUnchanged self.old.ends self.new.ends) }
    {
        self.ends.insert(question, end)?;
        Ok(())
    }
}
