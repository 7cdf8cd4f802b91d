//! Why a plan file has its verdict.

use crate::literals::FalseLiteral;
use crate::structure::WrongIds;
/// An action that can't be carried out when it comes.
pub struct FailedAction {
    /// The number of its line among the action lines.
    pub number: usize,
    /// As it is written: `(pick-up truck junction grain)`.
    pub text: Vec<u8>,
    /// The literals of its precondition that are false there.
    pub literals: Vec<FalseLiteral>,
    /// The number of the next action line that makes the first of them true, if there is one.
    pub next: Option<usize>,
}

impl Drop for FailedAction {
    fn drop(self) {
        let FailedAction {
            number: _,
            text: _,
            literals: _,
            next: _,
        } = self;
    }
}

/// Why a plan file has its verdict.
#[derive(Drop)]
pub enum Cause {
    /// Numbers of lines with which something is wrong, and, if there are none, of a line that no root reaches.
    Structure(WrongIds, Option<u64>),
    /// The line of this number has no instance; without a number the root line.
    NoInstance(Option<u64>),
    NotExecutable(FailedAction),
    /// The literals of the goal that are false at the end.
    GoalFails(Vec<FalseLiteral>),
    NoArrangement,
    Valid,
}
