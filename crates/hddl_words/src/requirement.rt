//! Requirements, which say nothing to a planner that reads the whole grammar.

use crate::items::Items;

/// A keyword of `:requirements`, as it is written, its `:` included.
#[derive(Debug, Drop)]
pub struct Requirement {
    /// The byte offset of its first byte in the text.
    pub place: usize,
    pub text: Items<u8>,
}
