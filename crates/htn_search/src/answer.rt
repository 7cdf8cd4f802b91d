//! The answers of a search.

use htn_ground::Solution;

/// The answer of a search with a bound on the nodes.
#[derive(Drop)]
pub enum Answer {
    /// The solution of fewest nodes and then of least code.
    Plan(Solution),
    /// No solution is within the bound. Whether a larger one exists is not known.
    None,
    /// There is no solution.
    Unsolvable,
}

/// The result of a watched search of a task with a bound on the nodes.
#[derive(Drop)]
pub enum Known {
    /// The answer.
    Answer(Answer),
    /// The watch stopped the search: no solution has at most this number of nodes, if there is one.
    Unknown { none_within: Option<u64> },
}
