//! Configurations by numbers.

use state_table::BitState;

/// The number of a state, and that of a task network.
#[derive(Clone, Copy, Debug, PartialEq, Eq, Hash)]
pub struct Configuration {
    pub state: u32,
    pub network: u32,
}

/// A configuration that a worker reached.
#[derive(Drop)]
pub enum Reached {
    /// The numbers of its state and of its network. (As one `Configuration` the merge reads them as one word, which
    /// took a twentieth of a small puzzle's time.)
    Known(u32, u32),
    /// Its state, which has no number yet, and the number of its network. (Boxed, so that lists of what was reached,
    /// most of which has numbers, stay small.)
    New(Box<BitState>, u32),
}
