//! Nodes that a plan may have.
ghost use Rattle.std.specs.Prelude.{◌≡◌, true, IfOk};
ghost use Rattle.std.specs.List.{list_all};
ghost use Rattle.htn_ground.specs.Views.{child_view, children_of};
ghost use Rattle.never_applied.specs.Fine.{is_barred_node, is_fine, is_known_fine};

use crate::facts::Facts;
use htn_ground::{Child, GroundTask};
use htn_task::State;
use indexmap::IndexSet;
use std::alloc::{AllocError, Global};

/// The nodes that a plan may have, as far as is known.
pub(crate) struct Fine {
    /// Whether nothing is known yet, so that each node is fine, barred actions apart.
    pub(crate) is_open: bool,
    /// The facts by which steps are judged.
    pub(crate) facts: Facts,
    pub(crate) actions: IndexSet<GroundTask>,
    /// The compound tasks.
    pub(crate) tasks: IndexSet<GroundTask>,
    /// Actions that are never carried out, which are not fine where nothing else is known.
    pub(crate) barred: IndexSet<GroundTask>,
}

// `Drop` is written by hand: a derived one is expanded, and proved, at each way out of each owner.
impl Drop for Fine {
    fn drop(self) {
        let Fine {
            is_open: _,
            facts: _,
            actions: _,
            tasks: _,
            barred: _,
        } = self;
    }
}

impl Fine {
    /// All nodes are fine, but for these actions.
    pub(crate) fn open(alloc: Global, barred: IndexSet<GroundTask>) -> Result<Fine, AllocError>
        ensures open { IfOk result (λ f. f.is_open ≡ true) }
        ensures barred { IfOk result (λ f. f.barred.keys ≡ barred.keys) }
    {
        Ok(Fine {
            is_open: true,
            facts: Facts {
                possible: State::of(alloc, &[])?,
                lasting: State::of(alloc, &[])?,
            },
            actions: IndexSet::new(alloc),
            tasks: IndexSet::new(alloc),
            barred,
        })
    }

    /// Whether a node is an action that is never carried out.
    fn is_barred(&self, node: &Child) -> bool
        ensures { result ≡ is_barred_node self.now (child_view node.now) }
    {
        match node {
            Child::Action(goal) => self.barred.contains(goal),
            Child::Precondition(_) | Child::Task(_) => false,
        }
    }

    /// Whether a node is fine by what is known.
    fn is_known_fine(&self, node: &Child) -> bool
        ensures { result ≡ is_known_fine self.now (child_view node.now) }
    {
        match node {
            Child::Precondition(literals) => self.facts.are_possible(literals.as_slice()),
            Child::Action(goal) => self.actions.contains(goal),
            Child::Task(goal) => self.tasks.contains(goal),
        }
    }

    /// Whether a node is fine.
    pub(crate) fn is_fine(&self, node: &Child) -> bool
        ensures { result ≡ is_fine self.now (child_view node.now) }
    {
        if self.is_open {
            !self.is_barred(node)
        } else {
            self.is_known_fine(node)
        }
    }

    /// Whether all of some nodes are fine.
    pub(crate) fn are_fine(&self, nodes: &[Child]) -> bool
        ensures { result ≡ list_all (is_fine self.now) (children_of nodes.now) }
    {
        for node in nodes {
            if !self.is_fine(node) {
                return false;
            }
        }
        true
    }
}
