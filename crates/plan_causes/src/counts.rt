//! How many nodes the solution of a valid plan file has.

/// How many nodes of each kind a solution has.
#[derive(Clone, Copy, Debug, PartialEq, Eq)]
pub struct Counts {
    pub actions: usize,
    /// Compound tasks that are decomposed.
    pub tasks: usize,
    /// Preconditions of methods that have to hold in states.
    pub steps: usize,
}
