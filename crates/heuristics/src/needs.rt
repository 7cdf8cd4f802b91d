//! The literals that nodes want and give.
ghost use Rattle.std.specs.Prelude.{◌≡◌};
ghost use Rattle.std.specs.Option.{option_map};
ghost use Rattle.htn_ground.specs.Views.{child_view};
ghost use Rattle.htn_task.specs.Literals.{literal_of, literals_of};
ghost use Rattle.heuristics.specs.Rows.{leaf_row, outlook_of, row_of, task_row};

use crate::marks::is_marked;
use crate::rows::{Row, Rows};
use htn_ground::{Child, GroundTask};
use htn_task::Literal;
use indexmap::IndexSet;

/// The literals that the nodes of networks want and give. A node without a row wants none and gives all.
pub struct Needs {
    /// Compound tasks by number, of which the first have rows.
    pub(crate) tasks: IndexSet<GroundTask>,
    /// Actions that are never carried out.
    pub(crate) barred: IndexSet<GroundTask>,
    pub(crate) rows: Rows,
}

// `Drop` is written by hand: a derived one is expanded, and proved, at each way out of each owner.
impl Drop for Needs {
    fn drop(self) {
        let Needs {
            tasks: _,
            barred: _,
            rows: _,
        } = self;
    }
}

impl Needs {
    /// The row of a compound task.
    pub(crate) fn task_row(&self, goal: &GroundTask) -> Option<&Row>
        ensures { option_map (λ r. r.now) result ≡ task_row self.now goal.now }
    {
        let number = self.tasks.get_index_of(goal)?;
        self.rows.task_rows.get(number)
    }

    /// The row of a step or an action.
    fn leaf_row(&self, leaf: &Child) -> Option<&Row>
        ensures { option_map (λ r. r.now) result ≡ leaf_row self.now (child_view leaf.now) }
    {
        let number = self.rows.leaves.get_index_of(leaf)?;
        self.rows.leaf_rows.get(number)
    }

    /// The row of a node.
    pub(crate) fn row(&self, child: &Child) -> Option<&Row>
        ensures { option_map (λ r. r.now) result ≡ row_of self.now (child_view child.now) }
    {
        match child {
            Child::Task(goal) => self.task_row(goal),
            Child::Precondition(_) | Child::Action(_) => self.leaf_row(child),
        }
    }

    /// The literals that a node wants.
    pub fn wants(&self, child: &Child) -> &[Literal]
        ensures { literals_of result.now ≡ (outlook_of self.now).wants (child_view child.now) }
    {
        match self.row(child) {
            Some(row) => row.wants.as_slice(),
            None => &[],
        }
    }

    /// Whether a literal may become true through a node.
    pub fn gives(&self, child: &Child, literal: &Literal) -> bool
        ensures { result ≡ (outlook_of self.now).gives (child_view child.now) (literal_of literal.now) }
    {
        let Some(row) = self.row(child) else {
            return true;
        };
        match self.rows.literals.get_index_of(literal) {
            Some(number) => is_marked(row.gives.as_slice(), number),
            None => false,
        }
    }

    /// Whether a node is known never to end.
    pub fn is_blocked(&self, child: &Child) -> bool
        ensures { result ≡ (outlook_of self.now).is_blocked (child_view child.now) }
    {
        match child {
            Child::Precondition(_) => false,
            Child::Action(goal) => self.barred.contains(goal),
            Child::Task(goal) => match self.task_row(goal) {
                Some(row) => row.is_blocked,
                None => false,
            },
        }
    }
}
