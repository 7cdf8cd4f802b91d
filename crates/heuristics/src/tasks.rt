//! Which compound tasks are known, and which of them never end: two worklists over the decompositions of a graph. The
//! marks have no contract, since [`RelaxedReach::of`] checks them.

use crate::facts::FactSets;
use crate::find_reach::{Actions, insert_copy};
use crate::reach::Marks;
use htn_ground::{Child, GroundTask};
use std::alloc::{AllocError, Global};
use std::mem;
use task_graph::{Decomposition, NodeId, TaskGraph};

/// Adds a task to those that are known, or that never end.
fn mark(marks: &mut Marks, goal: &GroundTask, entry: &Entry) -> Result<(), AllocError> {
    if entry.is_known {
        insert_copy(&mut marks.known, goal)?;
    }
    if !entry.ends {
        insert_copy(&mut marks.blocked, goal)?;
    }
    Ok(())
}

/// What is known of a listed node. That of a step or an action is not used.
struct Entry {
    /// All nodes below the task are in the graph, as far as is found.
    is_known: bool,
    /// Some decomposition tree of the task ends, as far as is found.
    ends: bool,
    /// The tasks that have the task in a decomposition.
    parents: Vec<NodeId>,
    /// The places of the decompositions that have the task as a node.
    uses: Vec<u32>,
}

impl Drop for Entry {
    fn drop(self) {
        let Entry {
            is_known: _,
            ends: _,
            parents: _,
            uses: _,
        } = self;
    }
}

/// A decomposition.
#[derive(Drop)]
struct Pending {
    task: NodeId,
    /// The number of its nodes that are not yet found to end.
    missing: u32,
}

/// The worklists.
struct Tasks {
    /// By listed node.
    entries: Vec<Entry>,
    /// By place of the decomposition.
    pending: Vec<Pending>,
    /// Tasks that are not known, whose parents are not yet visited.
    unknown: Vec<NodeId>,
    /// Tasks that end, whose uses are not yet visited.
    ended: Vec<NodeId>,
}

impl Drop for Tasks {
    fn drop(self) {
        let Tasks {
            entries: _,
            pending: _,
            unknown: _,
            ended: _,
        } = self;
    }
}

impl Tasks {
    /// Worklists for this many listed nodes. All tasks are known and none ends.
    fn new(alloc: Global, listed: usize) -> Result<Tasks, AllocError> {
        let mut entries = Vec::with_capacity(alloc, listed)?;
        for _ in 0..listed {
            entries.push(Entry {
                is_known: true,
                ends: false,
                parents: Vec::new(alloc),
                uses: Vec::new(alloc),
            })?;
        }
        Ok(Tasks {
            entries,
            pending: Vec::new(alloc),
            unknown: Vec::new(alloc),
            ended: Vec::new(alloc),
        })
    }

    /// Marks a task as not known.
    fn forget(&mut self, task: NodeId) -> Result<(), AllocError> {
        let Some(entry) = self.entries.get_mut(task.index as usize) else {
            return Ok(());
        };
        if !entry.is_known {
            return Ok(());
        }
        entry.is_known = false;
        self.unknown.push(task)?;
        Ok(())
    }

    /// Marks a task as one that ends.
    fn end(&mut self, task: NodeId) -> Result<(), AllocError> {
        let Some(entry) = self.entries.get_mut(task.index as usize) else {
            return Ok(());
        };
        if entry.ends {
            return Ok(());
        }
        entry.ends = true;
        self.ended.push(task)?;
        Ok(())
    }

    /// Adds a use of a compound task by a decomposition of another one. Whether the decomposition has to wait until the
    /// task ends: one that is not listed may end, but is not known.
    fn add_use(&mut self, place: u32, parent: NodeId, task: NodeId) -> Result<bool, AllocError> {
        let Some(entry) = self.entries.get_mut(task.index as usize) else {
            self.forget(parent)?;
            return Ok(false);
        };
        entry.parents.push(parent)?;
        entry.uses.push(place)?;
        Ok(true)
    }

    /// Adds a decomposition.
    fn add(
        &mut self,
        actions: &Actions,
        facts: &FactSets,
        decomposition: &Decomposition,
    ) -> Result<(), AllocError> {
        let Ok(place) = u32::try_from(self.pending.len()) else {
            return Err(AllocError);
        };
        let task = decomposition.task;
        let mut missing = 0u32;
        let nodes = decomposition.children.as_slice();
        for (node, id) in nodes.iter().zip(&decomposition.nodes) {
            let is_missing = match node {
                Child::Precondition(literals) => !facts.are_possible(literals.as_slice()),
                Child::Action(goal) => !actions.is_possible(goal),
                Child::Task(_) => self.add_use(place, task, *id)?,
            };
            if is_missing {
                missing = missing.saturating_add(1);
            }
        }
        self.pending.push(Pending { task, missing })?;
        if missing == 0 {
            self.end(task)?;
        }
        Ok(())
    }

    /// Counts one node of a decomposition as one that ends.
    fn lessen(&mut self, place: u32) -> Result<(), AllocError> {
        let Some(pending) = self.pending.get_mut(place as usize) else {
            return Ok(());
        };
        pending.missing = pending.missing.saturating_sub(1);
        let (task, missing) = (pending.task, pending.missing);
        if missing == 0 {
            self.end(task)?;
        }
        Ok(())
    }

    /// Marks each task as not known that has a decomposition with a node that is not known. Each enters the list at
    /// most once.
    fn forget_parents(&mut self, alloc: Global) -> Result<(), AllocError> {
        for _ in 0..self.entries.len() {
            let Some(task) = self.unknown.pop() else {
                break;
            };
            let Some(entry) = self.entries.get_mut(task.index as usize) else {
                continue;
            };
            let parents = mem::replace(&mut entry.parents, Vec::new(alloc));
            for parent in &parents {
                self.forget(*parent)?;
            }
        }
        Ok(())
    }

    /// Marks each task as one that ends that has a decomposition whose nodes all end. Each enters the list at most
    /// once.
    fn end_all(&mut self, alloc: Global) -> Result<(), AllocError> {
        for _ in 0..self.entries.len() {
            let Some(task) = self.ended.pop() else {
                break;
            };
            let Some(entry) = self.entries.get_mut(task.index as usize) else {
                continue;
            };
            let uses = mem::replace(&mut entry.uses, Vec::new(alloc));
            for place in &uses {
                self.lessen(*place)?;
            }
        }
        Ok(())
    }

    /// The tasks that are known, and those that never end.
    fn marks(&self, alloc: Global, graph: &TaskGraph) -> Result<Marks, AllocError> {
        let mut marks = Marks::none(alloc);
        for number in 0..self.entries.len() {
            if let Some(entry) = self.entries.get(number)
                && let Some(Child::Task(goal)) = graph.nodes().get(number)
            {
                mark(&mut marks, goal, entry)?;
            }
        }
        Ok(marks)
    }
}

/// The compound tasks that are known, and those that never end.
pub(crate) fn task_marks(
    alloc: Global,
    graph: &TaskGraph,
    actions: &Actions,
    facts: &FactSets,
) -> Result<Marks, AllocError> {
    let mut tasks = Tasks::new(alloc, graph.listed())?;
    for decomposition in graph.decompositions() {
        tasks.add(actions, facts, decomposition)?;
    }
    tasks.forget_parents(alloc)?;
    tasks.end_all(alloc)?;
    tasks.marks(alloc, graph)
}
