//! Which compound tasks may end: a worklist over the decompositions of a graph. The result has no contract, since it is
//! checked.

use crate::fine::Fine;
use htn_ground::{Child, GroundTask};
use indexmap::IndexSet;
use std::alloc::{AllocError, Global};
use std::mem;
use task_graph::{Decomposition, NodeId, TaskGraph};

/// What is known of a node. That of a step or an action is not used.
#[derive(Drop)]
struct Entry {
    /// Some decomposition tree of the task ends, as far as is found.
    ends: bool,
    /// The places of the decompositions that have the task as a node.
    uses: Vec<u32>,
}

/// A decomposition.
#[derive(Drop)]
struct Pending {
    task: NodeId,
    /// The number of its nodes that are not yet found to end.
    missing: u32,
}

/// The worklist.
struct Ends {
    /// By node.
    entries: Vec<Entry>,
    /// By place of the decomposition.
    pending: Vec<Pending>,
    /// Tasks that end, whose uses are not yet visited.
    ended: Vec<NodeId>,
}

impl Drop for Ends {
    fn drop(self) {
        let Ends {
            entries: _,
            pending: _,
            ended: _,
        } = self;
    }
}

impl Ends {
    /// No task of this many nodes ends.
    fn new(alloc: Global, nodes: usize) -> Result<Ends, AllocError> {
        let mut entries = Vec::with_capacity(alloc, nodes)?;
        for _ in 0..nodes {
            entries.push(Entry {
                ends: false,
                uses: Vec::new(alloc),
            })?;
        }
        Ok(Ends {
            entries,
            pending: Vec::new(alloc),
            ended: Vec::new(alloc),
        })
    }

    /// Marks a task as one that ends.
    fn end(&mut self, task: NodeId) -> Result<(), AllocError> {
        let Some(entry) = self.entries.get_mut(task.index as usize) else {
            return Ok(());
        };
        if entry.ends {
            return Ok(());
        }
        entry.ends = true;
        self.ended.push(task)?;
        Ok(())
    }

    /// Adds a decomposition to those that wait for a task.
    fn wait_for(&mut self, task: NodeId, place: u32) -> Result<(), AllocError> {
        if let Some(entry) = self.entries.get_mut(task.index as usize) {
            entry.uses.push(place)?;
        }
        Ok(())
    }

    /// Adds a decomposition, whose steps and actions are judged by the facts.
    fn add(&mut self, fine: &Fine, decomposition: &Decomposition) -> Result<(), AllocError> {
        let Ok(place) = u32::try_from(self.pending.len()) else {
            return Err(AllocError);
        };
        let task = decomposition.task;
        let mut missing = 0u32;
        let nodes = decomposition.children.as_slice();
        for (position, node) in nodes.iter().enumerate() {
            let is_missing = match node {
                Child::Precondition(_) | Child::Action(_) => !fine.is_fine(node),
                Child::Task(_) => true,
            };
            if is_missing {
                missing = missing.saturating_add(1);
            }
            if let (Child::Task(_), Some(id)) = (node, decomposition.nodes.get(position)) {
                self.wait_for(*id, place)?;
            }
        }
        self.pending.push(Pending { task, missing })?;
        if missing == 0 {
            self.end(task)?;
        }
        Ok(())
    }

    /// Counts one node of a decomposition as one that ends.
    fn lessen(&mut self, place: u32) -> Result<(), AllocError> {
        let Some(pending) = self.pending.get_mut(place as usize) else {
            return Ok(());
        };
        pending.missing = pending.missing.saturating_sub(1);
        let (task, missing) = (pending.task, pending.missing);
        if missing == 0 {
            self.end(task)?;
        }
        Ok(())
    }

    /// Marks each task as one that ends that has a decomposition whose nodes all end. Each enters the list at most
    /// once.
    fn end_all(&mut self, alloc: Global) -> Result<(), AllocError> {
        for _ in 0..self.entries.len() {
            let Some(task) = self.ended.pop() else {
                break;
            };
            let Some(entry) = self.entries.get_mut(task.index as usize) else {
                continue;
            };
            let uses = mem::replace(&mut entry.uses, Vec::new(alloc));
            for place in &uses {
                self.lessen(*place)?;
            }
        }
        Ok(())
    }

    /// The tasks of the graph that end.
    fn tasks(&self, alloc: Global, graph: &TaskGraph) -> Result<IndexSet<GroundTask>, AllocError> {
        let mut tasks = IndexSet::new(alloc);
        for (index, node) in graph.nodes().iter().enumerate() {
            let Child::Task(goal) = node else {
                continue;
            };
            if self.entries.get(index).is_some_and(|entry| entry.ends) {
                let _ = tasks.insert(goal.clone()?)?;
            }
        }
        Ok(tasks)
    }
}

/// The compound tasks of the graph that may end.
pub(crate) fn ending_tasks(
    alloc: Global,
    graph: &TaskGraph,
    fine: &Fine,
) -> Result<IndexSet<GroundTask>, AllocError> {
    let mut ends = Ends::new(alloc, graph.nodes().len())?;
    for decomposition in graph.decompositions() {
        ends.add(fine, decomposition)?;
    }
    ends.end_all(alloc)?;
    ends.tasks(alloc, graph)
}
