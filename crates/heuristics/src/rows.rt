//! What nodes want and give, by rows.
ghost use Rattle.std.specs.Prelude.{◌≡◌, []};

use htn_ground::Child;
use htn_task::Literal;
use indexmap::IndexSet;
use std::alloc::Global;

/// Of a node: the literals that it wants, and which of the numbered ones it gives.
pub(crate) struct Row {
    pub(crate) wants: Vec<Literal>,
    /// As the bits of words, by the numbers of literals.
    pub(crate) gives: Vec<u64>,
    /// Nothing ever ends it.
    pub(crate) is_blocked: bool,
}

impl Drop for Row {
    fn drop(self) {
        let Row {
            wants: _,
            gives: _,
            is_blocked: _,
        } = self;
    }
}

/// The rows of compound tasks by their numbers, and of steps and actions.
pub(crate) struct Rows {
    pub(crate) literals: IndexSet<Literal>,
    pub(crate) task_rows: Vec<Row>,
    pub(crate) leaves: IndexSet<Child>,
    pub(crate) leaf_rows: Vec<Row>,
}

// `Drop` is written by hand: a derived one is expanded, and proved, at each way out of each owner.
impl Drop for Rows {
    fn drop(self) {
        let Rows {
            literals: _,
            task_rows: _,
            leaves: _,
            leaf_rows: _,
        } = self;
    }
}

impl Rows {
    /// No node has a row.
    pub(crate) fn none(alloc: Global) -> Rows
        ensures tasks { result.task_rows.items ≡ [] }
        ensures leaves { result.leaf_rows.items ≡ [] }
    {
        Rows {
            literals: IndexSet::new(alloc),
            task_rows: Vec::new(alloc),
            leaves: IndexSet::new(alloc),
            leaf_rows: Vec::new(alloc),
        }
    }
}
