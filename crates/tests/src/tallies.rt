//! Tallies, and their numbers.

/// Tasks that are open, and the value so far.
#[derive(Clone, Copy, PartialEq, Eq, Hash)]
pub struct Tally {
    pub tasks: u64,
    pub value: u64,
    pub stuck: bool,
}

/// The number of a tally.
#[derive(Clone, Copy, PartialEq, Eq, Hash)]
pub struct Numbered {
    pub number: usize,
}

/// A tally that was reached: by its number, if it has one, and else written out.
#[derive(Drop)]
pub enum Reached {
    Known(Numbered),
    New(Tally),
}
