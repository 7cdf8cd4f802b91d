//! The check that rows are an outlook.
ghost use Rattle.std.specs.Prelude.{◌≡◌, ◌<◌, ℕ, true, false, Some, All, Contains, IfOk, IsTrue, length};
ghost use Rattle.std.specs.List.{list_any};
ghost use Rattle.std.specs.Option.{option_map};
ghost use Rattle.htn_model.specs.Literal as model;
ghost use Rattle.htn_model.specs.Literal.{literal_eq};
ghost use Rattle.htn_model.specs.State.{contains};
ghost use Rattle.htn_ground.specs.Views.{child_view, children_of};
ghost use Rattle.htn_task.specs.Literals.{literal_of, literals_of};
ghost use Rattle.htn_model.specs.Task as tasks;
ghost use Rattle.task_graph.specs.Graph.{IsGraph};
ghost use Rattle.heuristics.specs.CheckedNeeds.{AreAllowed, AreLeavesRight, GivesWithin};
ghost use Rattle.heuristics.specs.CheckedNeeds.{IsActionRight, IsAllowed, IsLeafRight};
ghost use Rattle.heuristics.specs.Needs.{IsNeededAt, is_ungiven, may_give};
ghost use Rattle.heuristics.specs.Rows.{is_marked, literal_number, outlook_of};

use crate::marks::{are_marked_too, is_marked};
use crate::needs::Needs;
use crate::rows::Row;
use htn_ground::{Child, GroundTask};
use htn_order::Order;
use htn_task::{Action, Atom, Literal};
use std::alloc::AllocError;
use task_graph::TaskGraph;

/// Whether a literal is among others.
fn is_among(literal: &Literal, others: &[Literal]) -> bool
    ensures { result ≡ list_any (literal_eq (literal_of literal.now)) (literals_of others.now) }
{
    for other in others {
        if literal == other {
            return true;
        }
    }
    false
}

/// Whether each of some literals is among others.
fn are_among(literals: &[Literal], others: &[Literal]) -> bool
    ensures { IsTrue result → All (λ l. Contains (literals_of others.now) (literal_of l)) literals.now }
{
    for literal in literals {
        if !is_among(literal, others) {
            return false;
        }
    }
    true
}

impl Needs {
    /// Whether the node at a position may make a literal true for another one: it is not after that node, and gives the
    /// literal.
    fn may_give(
        &self,
        children: &[Child],
        order: &Order,
        literal: &Literal,
        at: usize,
        position: usize,
    ) -> bool
        requires { position < length children.now }
        ensures { result ≡ may_give (outlook_of self.now)
            (record { children = children_of children.now; order = order.now }) (literal_of literal.now) at position }
    {
        at != position && !order.is_before(at, position) && self.gives(&children[position], literal)
    }

    /// Whether no other node may make a literal true for the node at a position.
    fn is_ungiven(&self, children: &[Child], order: &Order, at: usize, literal: &Literal) -> bool
        ensures { result ≡ is_ungiven (outlook_of self.now)
            (record { children = children_of children.now; order = order.now }) at (literal_of literal.now) }
    {
        for position in 0..children.len() {
            if self.may_give(children, order, literal, at, position) {
                return false;
            }
        }
        true
    }

    /// Whether a network needs a literal for the node at a position.
    fn is_needed_at(&self, children: &[Child], order: &Order, at: usize, literal: &Literal) -> bool
        requires { at < length children.now }
        ensures { IsTrue result → IsNeededAt (outlook_of self.now)
            (record { children = children_of children.now; order = order.now }) (literal_of literal.now) at }
    {
        if !is_among(literal, self.wants(&children[at])) {
            return false;
        }
        self.is_ungiven(children, order, at, literal)
    }

    /// Whether a network needs a literal.
    fn is_needed(&self, children: &[Child], order: &Order, literal: &Literal) -> bool
        ensures { IsTrue result → (i : ℕ) × IsNeededAt (outlook_of self.now)
            (record { children = children_of children.now; order = order.now }) (literal_of literal.now) i }
    {
        for at in 0..children.len() {
            if self.is_needed_at(children, order, at, literal) {
                return true;
            }
        }
        false
    }

    /// Whether a network needs each of some literals.
    fn are_needed(&self, children: &[Child], order: &Order, literals: &[Literal]) -> bool
        ensures { IsTrue result → All (λ l. (i : ℕ) × IsNeededAt (outlook_of self.now)
            (record { children = children_of children.now; order = order.now }) (literal_of l) i) literals.now }
    {
        for literal in literals {
            if !self.is_needed(children, order, literal) {
                return false;
            }
        }
        true
    }

    /// Whether one of some nodes never ends.
    pub fn has_blocked(&self, children: &[Child]) -> bool
        ensures { result ≡ list_any (outlook_of self.now).is_blocked (children_of children.now) }
    {
        for child in children {
            if self.is_blocked(child) {
                return true;
            }
        }
        false
    }

    /// Whether a node gives only literals that a row gives.
    fn gives_within(&self, child: &Child, row: &Row) -> bool
        ensures { IsTrue result → GivesWithin self.now (child_view child.now) row.now }
    {
        let Some(inner) = self.row(child) else {
            return false;
        };
        are_marked_too(inner.gives.as_slice(), row.gives.as_slice())
    }

    /// Whether nodes give only literals that a row gives.
    fn give_within(&self, children: &[Child], row: &Row) -> bool
        ensures { IsTrue result → All (λ x. GivesWithin self.now (child_view x) row.now) children.now }
    {
        for child in children {
            if !self.gives_within(child, row) {
                return false;
            }
        }
        true
    }

    /// Whether a compound task is within an instance of it, or a node of the instance never ends.
    fn is_allowed(&self, goal: &GroundTask, children: &[Child], order: &Order) -> bool
        ensures { IsTrue result → IsAllowed self.now goal.now
            (record { children = children_of children.now; order = order.now }) }
    {
        if self.has_blocked(children) {
            return true;
        }
        let Some(row) = self.task_row(goal) else {
            return true;
        };
        if row.is_blocked || !self.are_needed(children, order, row.wants.as_slice()) {
            return false;
        }
        self.give_within(children, row)
    }

    /// Whether each compound task that has a row is within all its decompositions.
    pub(crate) fn are_allowed(&self, graph: &TaskGraph) -> bool
        ensures { IsTrue result → AreAllowed self.now graph.now }
    {
        for decomposition in graph.decompositions() {
            let Some(goal) = graph.task(decomposition.task) else {
                continue;
            };
            if !self.is_allowed(
                goal,
                decomposition.children.as_slice(),
                &decomposition.order,
            ) {
                return false;
            }
        }
        true
    }

    /// Whether a row gives an atom, as true or as false.
    fn row_gives(&self, row: &Row, atom: &Atom, is_positive: bool) -> Result<bool, AllocError>
        ensures { IfOk result (λ b. b
            ≡ is_marked row.now.gives.items (literal_number self.now (model.atom is_positive atom.now))) }
    {
        let literal = if is_positive {
            Literal::Positive(atom.clone()?)
        } else {
            Literal::Negative(atom.clone()?)
        };
        match self.rows.literals.get_index_of(&literal) {
            Some(number) => Ok(is_marked(row.gives.as_slice(), number)),
            None => Ok(false),
        }
    }

    /// Whether a row gives some atoms, as true or as false.
    fn row_gives_all(
        &self,
        row: &Row,
        atoms: &[Atom],
        is_positive: bool,
    ) -> Result<bool, AllocError>
        ensures { IfOk result (λ b. IsTrue b → All
            (λ a. is_marked row.now.gives.items (literal_number self.now (model.atom is_positive a)) ≡ true)
            atoms.now) }
    {
        for atom in atoms {
            let gives = self.row_gives(row, atom, is_positive)?;
            if !gives {
                return Ok(false);
            }
        }
        Ok(true)
    }

    /// Whether the row of an action is right.
    fn is_action_right(&self, action: &Action, row: &Row) -> Result<bool, AllocError>
        ensures { IfOk result (λ b. IsTrue b → IsActionRight self.now action.now row.now) }
    {
        if !are_among(row.wants.as_slice(), action.precondition.as_slice()) {
            return Ok(false);
        }
        let adds = self.row_gives_all(row, action.adds.atoms(), true)?;
        let deletes = self.row_gives_all(row, action.deletes.atoms(), false)?;
        Ok(adds && deletes)
    }

    /// Whether the row of an action is right; every row is for an action that has no instance.
    fn is_ground_right(&self, action: Option<&Action>, row: &Row) -> Result<bool, AllocError>
        ensures { IfOk result (λ b. IsTrue b
            → (a : model.Action) → option_map (λ x. x.now) action.entry ≡ Some a → IsActionRight self.now a row.now) }
    {
        match action {
            Some(action) => self.is_action_right(action, row),
            None => Ok(true),
        }
    }

    /// Whether the row of a step or an action is right, by the actions' groundings in the graph.
    fn is_leaf_right(&self, graph: &TaskGraph, leaf: &Child, row: &Row) -> Result<bool, AllocError>
        ensures { IfOk result (λ b. IsTrue b → (t : tasks.Task) → IsGraph t graph.now
            → IsLeafRight t self.now (child_view leaf.now) row.now) }
    {
        match leaf {
            Child::Precondition(literals) => Ok(are_among(
                row.wants.as_slice(),
                literals.as_slice(),
            )),
            Child::Action(_) => match graph.id_of(leaf) {
                Some(id) => {
                    let is_right = self.is_ground_right(graph.action(id), row)?;
                    Ok(is_right)
                }
                None => Ok(false),
            },
            Child::Task(_) => Ok(true),
        }
    }

    /// Whether the rows of all steps and actions are right.
    pub(crate) fn are_leaves_right(&self, graph: &TaskGraph) -> Result<bool, AllocError>
        ensures { IfOk result (λ b. IsTrue b → (t : tasks.Task) → IsGraph t graph.now → AreLeavesRight t self.now) }
    {
        let leaves = self.rows.leaves.as_slice();
        for (number, row) in self.rows.leaf_rows.iter().enumerate() {
            let Some(leaf) = leaves.get(number) else {
                return Ok(false);
            };
            let is_right = self.is_leaf_right(graph, leaf, row)?;
            if !is_right {
                return Ok(false);
            }
        }
        Ok(true)
    }
}
