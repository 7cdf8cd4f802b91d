//! What is reached from the initial state.
ghost use Rattle.std.specs.Prelude.{◌≡◌, []};
ghost use Rattle.std.specs.List.{list_all, list_any};
ghost use Rattle.htn_ground.specs.Views.{child_view, children_of};
ghost use Rattle.heuristics.specs.Reach.{bars, is_lost_node};
ghost use Rattle.heuristics.specs.ReachTables.{reach_of};

use crate::facts::FactSets;
use htn_ground::{Child, GroundTask};
use indexmap::IndexSet;
use std::alloc::Global;

/// Ground tasks that are known, and those that never end.
pub(crate) struct Marks {
    pub(crate) known: IndexSet<GroundTask>,
    pub(crate) blocked: IndexSet<GroundTask>,
}

// `Drop` is written by hand: a derived one is expanded, and proved, at each way out of each owner.
impl Drop for Marks {
    fn drop(self) {
        let Marks {
            known: _,
            blocked: _,
        } = self;
    }
}

impl Marks {
    /// None is known.
    pub(crate) fn none(alloc: Global) -> Marks
        ensures known { result.known.keys ≡ [] }
        ensures blocked { result.blocked.keys ≡ [] }
    {
        Marks {
            known: IndexSet::new(alloc),
            blocked: IndexSet::new(alloc),
        }
    }
}

/// What is reached from the initial state by the nodes of enumerated instances. A node is known where all that may
/// become of it was enumerated.
pub struct RelaxedReach {
    pub(crate) facts: FactSets,
    pub(crate) actions: Marks,
    pub(crate) tasks: Marks,
    /// Actions that are never carried out.
    pub(crate) barred: IndexSet<GroundTask>,
}

// `Drop` is written by hand: a derived one is expanded, and proved, at each way out of each owner.
impl Drop for RelaxedReach {
    fn drop(self) {
        let RelaxedReach {
            facts: _,
            actions: _,
            tasks: _,
            barred: _,
        } = self;
    }
}

impl RelaxedReach {
    /// Whether all that may become of a node is known.
    fn is_known(&self, child: &Child) -> bool
        ensures { result ≡ (reach_of self.now).is_known (child_view child.now) }
    {
        match child {
            Child::Precondition(_) => true,
            Child::Action(goal) => self.actions.known.contains(goal),
            Child::Task(goal) => self.tasks.known.contains(goal),
        }
    }

    /// Whether nothing ever ends a node.
    fn is_blocked(&self, child: &Child) -> bool
        ensures { result ≡ (reach_of self.now).is_blocked (child_view child.now) }
    {
        match child {
            Child::Precondition(literals) => !self.facts.are_possible(literals.as_slice()),
            Child::Action(goal) => self.actions.blocked.contains(goal),
            Child::Task(goal) => self.tasks.blocked.contains(goal),
        }
    }

    /// Whether a node is an action that is never carried out, whatever is reached.
    fn is_barred(&self, child: &Child) -> bool
        ensures { result ≡ bars (reach_of self.now) (child_view child.now) }
    {
        match child {
            Child::Action(goal) => self.barred.contains(goal),
            Child::Precondition(_) | Child::Task(_) => false,
        }
    }

    /// Whether all of some nodes are known.
    pub(crate) fn are_known(&self, children: &[Child]) -> bool
        ensures { result ≡ list_all (reach_of self.now).is_known (children_of children.now) }
    {
        for child in children {
            if !self.is_known(child) {
                return false;
            }
        }
        true
    }

    /// Whether nothing ever ends one of some nodes.
    pub(crate) fn has_blocked(&self, children: &[Child]) -> bool
        ensures { result ≡ list_any (reach_of self.now).is_blocked (children_of children.now) }
    {
        for child in children {
            if self.is_blocked(child) {
                return true;
            }
        }
        false
    }

    /// Whether one of some nodes is an action that is never carried out, whatever is reached.
    pub(crate) fn has_barred(&self, children: &[Child]) -> bool
        ensures { result ≡ list_any (bars (reach_of self.now)) (children_of children.now) }
    {
        for child in children {
            if self.is_barred(child) {
                return true;
            }
        }
        false
    }

    /// Whether a node of a configuration that may be reached never ends.
    pub fn is_lost_node(&self, child: &Child) -> bool
        ensures { result ≡ is_lost_node (reach_of self.now) (child_view child.now) }
    {
        self.is_blocked(child) || self.is_barred(child)
    }
}
