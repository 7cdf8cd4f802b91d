//! The verdict on a plan file.

/// The verdict on a plan file for a task: the first of these conditions that holds.
#[derive(Debug, Clone, Copy, PartialEq, Eq)]
pub enum Verdict {
    /// Its lines are no forest: an id is defined twice, listed twice, listed but not defined, or not reached from the
    /// root line.
    Structure,
    /// The first line that is no instance has this id; none for the root line.
    NoInstance(Option<u64>),
    /// The first action line whose precondition doesn't hold when it comes has this id.
    NotExecutable(u64),
    /// The goal doesn't hold after all action lines.
    GoalFails,
    /// The lines can't be arranged in the action lines' order as the methods want them.
    NoArrangement,
    /// It is the file of a solution.
    Valid,
}
