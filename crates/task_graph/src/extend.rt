//! Which compound tasks are listed.
ghost use Rattle.std.specs.Prelude.{◌≡◌, ◌+◌, ◌-◌, ◌^◌, ◌≤◌, IfOk, OnOk, length, max, min};
ghost use Rattle.std.specs.List.{sum_by};
ghost use Rattle.htn_ground.specs.Views.{child_view};
ghost use Rattle.task_graph.specs.Graph.{IsCut, IsGraph, IsLater, is_leaf};

use crate::graph::TaskGraph;
use crate::node_id::NodeId;
use htn_ground::{Child, GroundTask, Instance, distinct_initials, distinct_live_methods_of};
use htn_task::{MethodSchema, Task, Term};
use indexmap::IndexSet;
use std::alloc::{AllocError, Global};

/// The most combinations of objects that a method may leave open for the instances of its task to be listed.
const MOST_COMBINATIONS: u64 = 1_000_000;

/// Whether the parameter at a place is among the arguments of a method's task.
fn is_given(method: &MethodSchema, place: usize) -> bool {
    for argument in method.task().arguments() {
        if let Term::Parameter(given) = argument {
            if *given as usize == place {
                return true;
            }
        }
    }
    false
}

/// The number of combinations of objects for the parameters of a method that its task doesn't give, as far as 64 bits
/// hold it.
fn combinations_of(task: &Task, method: &MethodSchema) -> u64 {
    let mut count = 1u64;
    for (place, type_number) in method.parameters().iter().enumerate() {
        if !is_given(method, place) {
            count = count.saturating_mul(task.objects_of(*type_number).len() as u64);
        }
    }
    count
}

/// Whether the instances of a ground task may be listed: none of its methods leaves too many combinations open.
fn may_be_listed(task: &Task, goal: &GroundTask) -> bool {
    for method in task.methods() {
        if method.task().name() == goal.name()
            && combinations_of(task, method) > MOST_COMBINATIONS
        {
            return false;
        }
    }
    true
}

/// The cost of listing a compound task with these instances, as far as 64 bits hold it: one for the task, one for each
/// instance, and one for each of their nodes.
fn cost_of(instances: &[Instance]) -> u64
    ensures { result ≡ min (1 + sum_by (λ i. 1 + length i.network.children) instances.now) (2 ^ 64 - 1) }
{
    let mut cost = 1u64;
    for instance in instances {
        cost = cost
            .saturating_add(1)
            .saturating_add(instance.children().len() as u64);
    }
    cost
}

/// Whether a node is no compound task.
fn is_leaf(node: &Child) -> bool
    ensures { result ≡ is_leaf (child_view node.now) }
{
    match node {
        Child::Precondition(_) | Child::Action(_) => true,
        Child::Task(_) => false,
    }
}

impl TaskGraph {
    /// The graph of the nodes of the initial networks. No decomposition is listed.
    pub fn new(alloc: Global, task: &Task) -> Result<TaskGraph, AllocError>
        ensures { IfOk result (IsGraph task.now) }
    {
        let mut graph = TaskGraph {
            nodes: IndexSet::new(alloc),
            groundings: Vec::new(alloc),
            decompositions: Vec::new(alloc),
            listed: 0,
            cost: 0,
        };
        let initials = distinct_initials(alloc, task)?;
        for instance in &initials {
            let _ = graph.add_nodes(alloc, task, instance.children().as_slice())?;
        }
        Ok(graph)
    }

    /// Passes over the nodes that are no compound tasks, up to the next compound task that is not listed.
    fn skip_leaves(&mut self, task: &Task)
        requires { IsGraph task.now self.old }
        ensures graph { IsGraph task.now self.new }
        ensures later { IsLater self.old self.new }
        ensures cut { IsCut self.new }
        ensures cost { self.new.cost ≡ self.old.cost }
    {
        while let Some(node) = self.nodes.get_index(self.listed) {
            if !is_leaf(node) {
                break;
            }
            self.listed += 1;
        }
    }

    /// Lists the decompositions of further compound tasks, in the order of their ids, as long as all that is listed
    /// costs no more than the limit: one for each compound task, each of its instances, and each of their nodes. It
    /// stops for good at a task that may have too many instances, of more than a million combinations of objects.
    pub fn extend(&mut self, alloc: Global, task: &Task, limit: u64) -> Result<(), AllocError>
        requires { IsGraph task.now self.old }
        ensures graph { OnOk result (IsGraph task.now self.new) }
        ensures later { OnOk result (IsLater self.old self.new) }
        ensures cut { OnOk result (IsCut self.new) }
        ensures limit { OnOk result (self.new.cost ≤ max self.old.cost limit) }
    {
        self.skip_leaves(task);
        // A task costs one at least, so nothing is found in vain where nothing is left.
        'tasks: while self.cost < limit {
            let Some(node) = self.nodes.get_index(self.listed) else {
                break;
            };
            let Child::Task(goal) = node else {
                break;
            };
            if !may_be_listed(task, goal) {
                break;
            }
            let instances = distinct_live_methods_of(alloc, task, goal)?;
            let cost = cost_of(&instances);
            // A node past 2^32 has no id.
            let Ok(index) = u32::try_from(self.listed) else {
                break;
            };
            // A cost past 64 bits is past each limit.
            if cost == u64::MAX {
                break;
            }
            if cost > limit - self.cost {
                break;
            }
            self.cost += cost;
            self.add_networks(alloc, task, NodeId { index }, &instances)?;
            self.listed += 1;
            self.skip_leaves(task);
        }
        Ok(())
    }

    /// After a call of [`TaskGraph::extend`], whether a greater limit would list more.
    pub fn is_cut(&self, task: &Task) -> bool {
        match self.nodes.get_index(self.listed) {
            Some(Child::Task(goal)) => may_be_listed(task, goal),
            _ => false,
        }
    }
}

/// The graph of a task with what is listed within a limit.
pub fn enumerate(alloc: Global, task: &Task, limit: u64) -> Result<TaskGraph, AllocError>
    ensures { IfOk result (IsGraph task.now) }
{
    let mut graph = TaskGraph::new(alloc, task)?;
    graph.extend(alloc, task, limit)?;
    Ok(graph)
}
