//! Literals that are false where they have to hold.

use crate::standing::Standing;
/// The sign of a literal.
#[derive(Clone, Copy, Debug, PartialEq, Eq)]
pub enum Sign {
    /// An atom is true.
    Positive,
    /// An atom is false.
    Negative,
    /// Two objects are equal.
    Same,
    /// Two objects are different.
    Different,
}

/// A literal that is false where it has to hold.
pub struct FalseLiteral {
    /// As it is written at objects: `(at truck junction)`, `(not (full box))`.
    pub text: Vec<u8>,
    /// The text without `not`.
    pub atom: Vec<u8>,
    pub sign: Sign,
    /// Since when it is false.
    pub standing: Standing,
    /// Where the domain or the problem has it.
    pub place: usize,
    /// Where `:init` has its atom, if it does and the atom is true since then.
    pub initial: Option<usize>,
    /// The name of its predicate, where no action changes that.
    pub unchanged: Option<Vec<u8>>,
}

impl Drop for FalseLiteral {
    fn drop(self) {
        let FalseLiteral {
            text: _,
            atom: _,
            sign: _,
            standing: _,
            place: _,
            initial: _,
            unchanged: _,
        } = self;
    }
}
