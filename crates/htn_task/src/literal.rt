//! Ground literals and conjunctions of them.
ghost use Rattle.std.specs.Prelude.{◌≡◌, ◌↔◌, List, IfOk, IsTrue};
ghost use Rattle.htn_task.specs.Literals.{literals_of};

use crate::atom::Atom;
use std::alloc::{AllocError, Global};
use std::hash::{Hash, Hasher};
use std::marker::Model;

/// A ground literal of a precondition or a goal: an atom or an equality of two objects, plain or negated.
#[derive(Drop)]
pub enum Literal {
    /// The atom is true.
    Positive(Atom),
    /// The atom is false.
    Negative(Atom),
    /// Two objects are equal.
    Same(u16, u16),
    /// Two objects are different.
    Different(u16, u16),
}

impl Clone for Literal {
    ghost is_clone = { λ a b. b ≡ a };

    ghost is_infallible = { λ a. ⊥ };

    fn clone(&self) -> Result<Self, AllocError> {
        match self {
            Literal::Positive(atom) => Ok(Literal::Positive(atom.clone()?)),
            Literal::Negative(atom) => Ok(Literal::Negative(atom.clone()?)),
            Literal::Same(x, y) => Ok(Literal::Same(*x, *y)),
            Literal::Different(x, y) => Ok(Literal::Different(*x, *y)),
        }
    }
}

impl PartialEq for Literal {
    ghost use Rattle.htn_model.specs.Literal.{literal_eq};
    ghost use Rattle.htn_model.specs.Equality.{literal_eq-laws};
    ghost use Rattle.std.specs.Cmp.{on_equiv, partial_equiv_from_equiv};
    ghost use Rattle.std.specs.Ordering.{on};
    ghost use Rattle.htn_task.specs.Literals.{literal_of};

    ghost eq = { on literal_of literal_eq };

    ghost laws = { partial_equiv_from_equiv (on_equiv literal_of literal_eq-laws) };

    fn eq(&self, other: &Literal) -> bool {
        match (self, other) {
            (Literal::Positive(a), Literal::Positive(b)) => a == b,
            (Literal::Negative(a), Literal::Negative(b)) => a == b,
            (Literal::Same(x, y), Literal::Same(v, w)) => x == v && y == w,
            (Literal::Different(x, y), Literal::Different(v, w)) => x == v && y == w,
            _ => false,
        }
    }
}

impl Eq for Literal {
    ghost use Rattle.htn_model.specs.Equality.{literal_eq-laws};
    ghost use Rattle.std.specs.Cmp.{on_equiv};
    ghost use Rattle.htn_task.specs.Literals.{literal_of};

    ghost laws = { on_equiv literal_of literal_eq-laws };
}

impl Hash for Literal {
    ghost use Rattle.std.specs.Hash.{on_Alike};
    ghost use Rattle.htn_task.specs.Literals.{literal_of, literal_hash, literal_hash-Alike};

    ghost hash_input = { λ l. literal_hash (literal_of l) };

    ghost respects_eq = { (on_Alike literal_of literal_hash-Alike).fed };

    fn hash<H: Hasher>(&self, state: &mut H) {
        match self {
            Literal::Positive(atom) => {
                true.hash(state);
                true.hash(state);
                atom.hash(state);
            }
            Literal::Negative(atom) => {
                true.hash(state);
                false.hash(state);
                atom.hash(state);
            }
            Literal::Same(x, y) => {
                false.hash(state);
                true.hash(state);
                x.hash(state);
                y.hash(state);
            }
            Literal::Different(x, y) => {
                false.hash(state);
                false.hash(state);
                x.hash(state);
                y.hash(state);
            }
        }
    }
}

/// A conjunction of ground literals, in the order of the text.
#[derive(Drop)]
pub struct LiteralList {
    literals: Vec<Literal>,
}

impl Model for LiteralList {
    ghost use Rattle.std.specs.Prelude.{List};
    ghost use Rattle.std.specs.Coded.{coded_list};
    ghost use Rattle.htn_model.specs.Literal as model;
    ghost use Rattle.htn_task.specs.Literals.{literals_of};

    ghost Value = { List model.Literal };

    ghost coded = { coded_list model.literal_code };

    ghost view = { λ l. literals_of l.literals.items };
}

impl LiteralList {
    /// The conjunction of these literals.
    pub fn of(literals: Vec<Literal>) -> Self
        ensures { result ≡ literals_of literals.items }
    {
        LiteralList { literals }
    }

    /// The literals in their order.
    pub fn as_slice(&self) -> &[Literal]
        ensures { literals_of result.now ≡ self.now }
    {
        &self.literals
    }
}

impl Clone for LiteralList {
    ghost is_clone = { λ a b. b ≡ a };

    ghost is_infallible = { λ a. ⊥ };

    fn clone(&self) -> Result<Self, AllocError> {
        Ok(LiteralList {
            literals: Vec::from_clones(*self.literals.allocator(), &self.literals)?,
        })
    }
}

impl PartialEq for LiteralList {
    ghost use Rattle.htn_task.specs.Literals.{literals_eq, literals_eq-partial};

    ghost eq = { literals_eq };

    ghost laws = { literals_eq-partial };

    fn eq(&self, other: &LiteralList) -> bool
        ensures value { result ≡ literals_eq self.now other.now }
        ensures same { IsTrue result ↔ (self.now ≡ other.now) }
    {
        self.literals == other.literals
    }
}

impl Eq for LiteralList {
    ghost use Rattle.htn_task.specs.Literals.{literals_eq-laws};

    ghost laws = { literals_eq-laws };
}

impl Hash for LiteralList {
    ghost use Rattle.htn_task.specs.Literals.{literals_hash, literals_hash-Alike};

    ghost hash_input = { literals_hash };

    ghost respects_eq = { literals_hash-Alike.fed };

    fn hash<H: Hasher>(&self, state: &mut H) {
        self.literals.hash(state);
    }
}
