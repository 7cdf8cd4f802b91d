//! The outcome of one piece of a level.
ghost use Rattle.std.specs.Prelude.{◌<◌};

use crate::in_order::Expanded;

/// A piece that was skipped, since a rank before it had been reported.
#[derive(Drop)]
pub struct Skip {
    /// The rank that was seen.
    pub seen: u64,
    /// The first rank of the piece.
    pub first: u64,
    pub ghost above: { seen < first },
}

/// A piece was expanded, up to the first of its ranks with a done successor, or skipped.
#[derive(Drop)]
pub enum Outcome<S, F> {
    Ran(Expanded<S, F>),
    Skipped(Skip),
}

/// The number of a piece, and its outcome.
#[derive(Drop)]
pub struct Piece<S, F> {
    pub number: u64,
    pub outcome: Outcome<S, F>,
}
