//! The places of rows.
ghost use Rattle.std.specs.Prelude.{◌≡◌};
ghost use Rattle.std.specs.Option.{option_map};
ghost use Rattle.htn_ground.specs.Views.{child_view};
ghost use Rattle.htn_task.specs.Literals.{literal_of, literals_of};
ghost use Rattle.heuristics.specs.Places.{row_at};
ghost use Rattle.heuristics.specs.Rows.{blocks, gives_by, leaf_row, literal_number, row_of, task_row, wants_by};

use crate::marks::is_marked;
use crate::needs::Needs;
use crate::rows::Row;
use htn_ground::{Child, GroundTask};
use htn_task::Literal;

/// The place of a node's row, if it has one.
#[derive(Clone, Copy, Drop)]
pub(crate) enum Spot {
    Nowhere,
    /// The row of the compound task of this number.
    Task(usize),
    /// The row of the step or action of this number.
    Leaf(usize),
}

/// The place of a node's row and whether the node never ends, so that each is looked up once.
#[derive(Clone, Copy, Drop)]
pub struct Place {
    /// The place of its row.
    pub(crate) spot: Spot,
    /// It is known never to end.
    pub(crate) is_blocked: bool,
}

impl Needs {
    /// The place of a compound task's row.
    fn task_spot(&self, goal: &GroundTask) -> Spot
        ensures { row_at self.now result ≡ task_row self.now goal.now }
    {
        match self.tasks.get_index_of(goal) {
            Some(number) => Spot::Task(number),
            None => Spot::Nowhere,
        }
    }

    /// The place of a step's or an action's row.
    fn leaf_spot(&self, leaf: &Child) -> Spot
        ensures { row_at self.now result ≡ leaf_row self.now (child_view leaf.now) }
    {
        match self.rows.leaves.get_index_of(leaf) {
            Some(number) => Spot::Leaf(number),
            None => Spot::Nowhere,
        }
    }

    /// The place of a node's row.
    fn spot(&self, child: &Child) -> Spot
        ensures { row_at self.now result ≡ row_of self.now (child_view child.now) }
    {
        match child {
            Child::Task(goal) => self.task_spot(goal),
            Child::Precondition(_) | Child::Action(_) => self.leaf_spot(child),
        }
    }

    /// What is known of a node.
    pub fn place(&self, child: &Child) -> Place
        ensures row { row_at self.now result.spot ≡ row_of self.now (child_view child.now) }
        ensures blocked { result.is_blocked ≡ blocks self.now (child_view child.now) }
    {
        Place {
            spot: self.spot(child),
            is_blocked: self.is_blocked(child),
        }
    }

    /// The row at a place.
    pub(crate) fn row_at(&self, place: Place) -> Option<&Row>
        ensures { option_map (λ r. r.now) result ≡ row_at self.now place.spot }
    {
        match place.spot {
            Spot::Nowhere => None,
            Spot::Task(number) => self.rows.task_rows.get(number),
            Spot::Leaf(number) => self.rows.leaf_rows.get(number),
        }
    }

    /// The literals that the node of a place wants.
    pub fn wants_at(&self, place: Place) -> &[Literal]
        ensures { literals_of result.now ≡ wants_by (row_at self.now place.spot) }
    {
        match self.row_at(place) {
            Some(row) => row.wants.as_slice(),
            None => &[],
        }
    }

    /// The number of a literal.
    pub fn number_of(&self, literal: &Literal) -> Option<usize>
        ensures { result ≡ literal_number self.now (literal_of literal.now) }
    {
        self.rows.literals.get_index_of(literal)
    }

    /// Whether the literal of a number may become true through the node of a place.
    pub fn gives_at(&self, place: Place, number: Option<usize>) -> bool
        ensures { result ≡ gives_by (row_at self.now place.spot) number }
    {
        let Some(row) = self.row_at(place) else {
            return true;
        };
        match number {
            Some(number) => is_marked(row.gives.as_slice(), number),
            None => false,
        }
    }
}
