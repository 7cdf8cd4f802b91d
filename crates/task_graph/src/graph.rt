//! The graph, and what it says of its nodes.
ghost use Rattle.std.specs.Prelude.{◌≡◌, IfOk, nat_lt, option_and_then, slice_get};
ghost use Rattle.std.specs.Option.{option_map};
ghost use Rattle.htn_ground.specs.Views.{child_view};
ghost use Rattle.htn_model.specs.Problem.{action};
ghost use Rattle.task_graph.specs.Graph.{AreBarredActions, barred_action_at, id_of, is_barred_at, is_task_listed, nodes_of, task_at};

use crate::decomposition::Decomposition;
use crate::grounding::Grounding;
use crate::node_id::NodeId;
use htn_ground::{Child, GroundTask};
use htn_task::Action;
use indexmap::IndexSet;
use std::alloc::{AllocError, Global};

/// A part of the task decomposition graph of a task.
pub struct TaskGraph {
    pub(crate) nodes: IndexSet<Child>,
    /// By node.
    pub(crate) groundings: Vec<Grounding>,
    /// In the order of their tasks' ids.
    pub(crate) decompositions: Vec<Decomposition>,
    /// The compound tasks with ids below this one have all their decompositions listed, the others none.
    pub(crate) listed: usize,
    /// The cost of the listed tasks together.
    pub(crate) cost: u64,
}

// `Drop` is written by hand: a derived one is expanded, and proved, at each way out of each owner.
impl Drop for TaskGraph {
    fn drop(self) {
        let TaskGraph {
            nodes: _,
            groundings: _,
            decompositions: _,
            listed: _,
            cost: _,
        } = self;
    }
}

impl TaskGraph {
    /// The nodes, in the order of their ids.
    pub fn nodes(&self) -> &[Child]
        ensures { result.now ≡ self.now.nodes.keys }
    {
        self.nodes.as_slice()
    }

    /// The node with an id.
    pub fn node(&self, id: NodeId) -> Option<&Child>
        ensures { option_map (λ x. child_view x.now) result ≡ slice_get (nodes_of self.now) id.index }
    {
        self.nodes.get_index(id.index as usize)
    }

    /// The id of a node, if it has one.
    pub fn id_of(&self, node: &Child) -> Option<NodeId>
        ensures { option_map (λ i. i.index) result ≡ id_of (nodes_of self.now) (child_view node.now) }
    {
        match self.nodes.get_index_of(node) {
            Some(place) => NodeId::at(place),
            None => None,
        }
    }

    /// The compound task with an id; none where another node has it.
    pub fn task(&self, id: NodeId) -> Option<&GroundTask>
        ensures { option_map (λ g. g.now) result ≡ task_at self.now id.index }
    {
        match self.nodes.get_index(id.index as usize) {
            Some(Child::Task(goal)) => Some(goal),
            _ => None,
        }
    }

    /// The id of an action, if it has one.
    pub fn id_of_action(&self, goal: &GroundTask) -> Result<Option<NodeId>, AllocError>
        ensures { IfOk result (λ o. option_map (λ i. i.index) o ≡ id_of (nodes_of self.now) (action goal.now)) }
    {
        let node = Child::Action(goal.clone()?);
        Ok(self.id_of(&node))
    }

    /// Whether the decompositions of a compound task are listed.
    pub fn is_task_listed(&self, goal: &GroundTask) -> Result<bool, AllocError>
        ensures { IfOk result (λ b. b ≡ is_task_listed self.now goal.now) }
    {
        let node = Child::Task(goal.clone()?);
        match self.id_of(&node) {
            Some(id) => Ok(self.is_listed(id)),
            None => Ok(false),
        }
    }

    /// Whether the node with an id is listed: if it is a compound task, with all its decompositions.
    pub fn is_listed(&self, id: NodeId) -> bool
        ensures { result ≡ nat_lt id.index self.now.listed }
    {
        (id.index as usize) < self.listed
    }

    /// The number of listed nodes: those with ids below it.
    pub fn listed(&self) -> usize
        ensures { result ≡ self.now.listed }
    {
        self.listed
    }

    /// The decompositions, in the order of their tasks.
    pub fn decompositions(&self) -> &[Decomposition]
        ensures { result.now ≡ self.now.decompositions.items }
    {
        self.decompositions.as_slice()
    }

    /// The grounding of an action; None for another node, and where no objects satisfy the action's schema.
    pub fn action(&self, id: NodeId) -> Option<&Action>
        ensures { option_map (λ a. a.now) result ≡ option_and_then (λ g. g.action) (slice_get self.now.groundings.items id.index) }
    {
        let grounding = self.groundings.get(id.index as usize)?;
        grounding.action.as_ref()
    }

    /// Whether a node is an action that is never carried out.
    pub fn is_barred(&self, id: NodeId) -> bool
        ensures { result ≡ is_barred_at self.now id.index }
    {
        match self.groundings.get(id.index as usize) {
            Some(grounding) => grounding.is_barred,
            None => false,
        }
    }

    /// The action with an id, if it is never carried out.
    fn barred_action(&self, place: usize) -> Option<&GroundTask>
        ensures { option_map (λ g. g.now) result ≡ barred_action_at self.now place }
    {
        let grounding = self.groundings.get(place)?;
        match self.nodes.get_index(place) {
            Some(Child::Action(goal)) if grounding.is_barred => Some(goal),
            _ => None,
        }
    }

    /// The actions that are never carried out.
    pub fn barred_actions(&self, alloc: Global) -> Result<IndexSet<GroundTask>, AllocError>
        ensures { IfOk result (λ s. AreBarredActions self.now s.keys) }
    {
        let mut barred = IndexSet::new(alloc);
        for place in 0..self.nodes.len() {
            if let Some(goal) = self.barred_action(place) {
                let _ = barred.insert(goal.clone()?)?;
            }
        }
        Ok(barred)
    }
}
