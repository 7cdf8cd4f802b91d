//! What is found.

use call_proof::Frames;
use call_table::{CallTable, Site};
use indexmap::IndexMap;

/// A word that finishes, and what should show that no other precedes it.
#[derive(Drop)]
pub struct Found {
    /// The atoms that nodes, or anything below them, read or write.
    pub frames: Frames,
    /// What calls in parts of states can do in fewer steps than a word of one step more leaves them.
    pub table: CallTable,
    /// The calls in whole states on which values and the word rest.
    pub whole: CallTable,
    /// How many steps are left at least, of lists of nodes in states: at most `OUT_OF_REACH`.
    pub values: IndexMap<Site, u32>,
    /// The rank of a list of the start, and then a rank for each step.
    pub word: Vec<u64>,
}

/// More steps than any word may have.
pub const OUT_OF_REACH: u32 = 10_001;
