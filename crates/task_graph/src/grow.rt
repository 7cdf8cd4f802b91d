//! How nodes and decompositions are added.
ghost use Rattle.std.specs.Prelude.{◌≡◌, ◌∷◌, [], Some, IfOk, IsTrue, OnOk, map, true};
ghost use Rattle.std.specs.List.{list_any};
ghost use Rattle.htn_ground.specs.Views.{child_view, children_of};
ghost use Rattle.htn_model.specs.Grounding.{problem_of};
ghost use Rattle.task_graph.specs.Barred.{is_barred_node};
ghost use Rattle.task_graph.specs.Graph.{AreIds, IsGrounded, id_of, is_known_barred, nodes_of};
ghost use Rattle.task_graph.specs.Growth.{HasNetworks, HasNodes};

use crate::decomposition::Decomposition;
use crate::graph::TaskGraph;
use crate::grounding::Grounding;
use crate::node_id::NodeId;
use htn_ground::{Child, Instance};
use htn_task::Task;
use std::alloc::{AllocError, Global};

impl TaskGraph {
    /// The id of a node, which is added if it has none yet.
    fn add_node(&mut self, alloc: Global, task: &Task, node: &Child) -> Result<NodeId, AllocError>
        requires { IsGrounded task.now self.old }
        ensures nodes { OnOk result (HasNodes task.now self.old self.new) }
        ensures id { IfOk result (λ i. id_of (nodes_of self.new) (child_view node.now) ≡ Some i.index) }
    {
        let (place, is_new) = self.nodes.insert_full(node.clone()?)?;
        if is_new {
            self.groundings.push(Grounding::of(alloc, task, node)?)?;
        }
        // This never fails: an `IndexSet` takes at most 9 * 2^28 values, and answers past them as if memory had been
        // refused. So many nodes take more than 25 GB.
        let Ok(index) = u32::try_from(place) else {
            return Err(AllocError);
        };
        Ok(NodeId { index })
    }

    /// Whether a node is an action that is never carried out. An action is added for that.
    fn is_barred_node(
        &mut self,
        alloc: Global,
        task: &Task,
        node: &Child,
    ) -> Result<bool, AllocError>
        requires { IsGrounded task.now self.old }
        ensures nodes { OnOk result (HasNodes task.now self.old self.new) }
        ensures barred { IfOk result (λ b. b ≡ is_barred_node (problem_of task.now) (child_view node.now)) }
        ensures there { IfOk result (λ b. IsTrue b → is_known_barred task.now (nodes_of self.new) (child_view node.now) ≡ true) }
    {
        match node {
            Child::Action(_) => {
                let id = self.add_node(alloc, task, node)?;
                Ok(self.is_barred(id))
            }
            Child::Precondition(_) | Child::Task(_) => Ok(false),
        }
    }

    /// Whether one of the nodes is an action that is never carried out. Actions are added for that, up to the first
    /// such one.
    fn has_barred(
        &mut self,
        alloc: Global,
        task: &Task,
        nodes: &[Child],
    ) -> Result<bool, AllocError>
        requires { IsGrounded task.now self.old }
        ensures nodes { OnOk result (HasNodes task.now self.old self.new) }
        ensures barred { IfOk result (λ b. b ≡ list_any (is_barred_node (problem_of task.now)) (children_of nodes.now)) }
        ensures there { IfOk result (λ b. IsTrue b
            → list_any (is_known_barred task.now (nodes_of self.new)) (children_of nodes.now) ≡ true) }
    {
        for node in nodes {
            let is_barred = self.is_barred_node(alloc, task, node)?;
            if is_barred {
                return Ok(true);
            }
        }
        Ok(false)
    }

    /// The ids of the nodes of a network. Those that have none yet are added.
    pub(crate) fn add_nodes(
        &mut self,
        alloc: Global,
        task: &Task,
        nodes: &[Child],
    ) -> Result<Vec<NodeId>, AllocError>
        requires { IsGrounded task.now self.old }
        ensures nodes { OnOk result (HasNodes task.now self.old self.new) }
        ensures ids { IfOk result (λ v. AreIds (nodes_of self.new) v.items (children_of nodes.now)) }
    {
        let mut ids = Vec::new(alloc);
        for node in nodes {
            let id = self.add_node(alloc, task, node)?;
            ids.push(id)?;
        }
        Ok(ids)
    }

    /// Adds the network of an instance of a compound task, unless one of its actions is never carried out.
    fn add_network(
        &mut self,
        alloc: Global,
        task: &Task,
        id: NodeId,
        instance: &Instance,
    ) -> Result<(), AllocError>
        requires { IsGrounded task.now self.old }
        ensures { OnOk result (HasNetworks task.now id.index (instance.now.network ∷ []) self.old self.new) }
    {
        let children = instance.children();
        let has_barred = self.has_barred(alloc, task, children.as_slice())?;
        if has_barred {
            return Ok(());
        }
        let nodes = self.add_nodes(alloc, task, children.as_slice())?;
        self.decompositions.push(Decomposition {
            task: id,
            nodes,
            children: children.clone()?,
            order: instance.order().clone()?,
        })?;
        Ok(())
    }

    /// Adds the networks of instances of a compound task, apart from those with an action that is never carried out.
    pub(crate) fn add_networks(
        &mut self,
        alloc: Global,
        task: &Task,
        id: NodeId,
        instances: &[Instance],
    ) -> Result<(), AllocError>
        requires { IsGrounded task.now self.old }
        ensures { OnOk result (HasNetworks task.now id.index (map (λ i. i.network) instances.now) self.old self.new) }
    {
        for instance in instances {
            self.add_network(alloc, task, id, instance)?;
        }
        Ok(())
    }
}
