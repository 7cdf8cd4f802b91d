//! What is proposed.

use call_table::{CallTable, Site};
use indexmap::IndexMap;

/// A word that may be the least finishing one, and what should show it by calls in whole states.
#[derive(Drop)]
pub struct Proposal {
    /// Calls of nodes in states, by number.
    pub table: CallTable,
    /// How many steps are left at least of lists of nodes in states, by number.
    pub values: IndexMap<Site, u32>,
    /// The rank of an initial network, and then a rank for each step.
    pub word: Vec<u64>,
}

/// A word that may be the least finishing one, and what should show it by calls in frames.
#[derive(Drop)]
pub struct FramedProposal {
    /// Calls of nodes in parts of states, by number.
    pub table: CallTable,
    /// Calls of nodes in whole states, which are lifted from those, values by them, and the word.
    pub whole: Proposal,
}
