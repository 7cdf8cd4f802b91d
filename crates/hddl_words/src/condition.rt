//! Conditions, effects and constraints. Each is a conjunction: a list of its parts in the order of the text. `()` is
//! the empty one, and a nested `and` adds its parts in its place.

use crate::items::Items;
use crate::term::{AtomText, Term, VariableGroup};

/// An atom, or one under `not`.
#[derive(Debug, Drop)]
pub struct LiteralText {
    pub is_positive: bool,
    pub atom: AtomText,
}

/// `(= left right)`, or one under `not`.
#[derive(Debug, Drop)]
pub struct EqualityText {
    pub is_positive: bool,
    pub left: Term,
    pub right: Term,
}

/// A part of a precondition or a goal.
#[derive(Drop)]
pub enum Condition {
    Literal(LiteralText),
    Equality(EqualityText),
    /// `(forall (parameters) body)`; the body is a conjunction too.
    Forall(Items<VariableGroup>, Items<Condition>),
}
