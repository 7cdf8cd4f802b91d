//! Minimum decomposition sizes, found as Knuth found least derivations of a grammar (A generalization of Dijkstra's
//! algorithm, 1977): of the tasks that have no size yet, the one with the least decomposition, all of whose nodes have
//! sizes, gets its size. They have no contract, since [`TreeSizes::of`] checks them.

use crate::sizes_check::{OUT_OF_REACH, size_at};
use htn_ground::Child;
use std::alloc::{AllocError, Global};
use std::mem;
use task_graph::{Decomposition, NodeId, TaskGraph};

/// A decomposition: its size so far, and the number of its nodes that have none yet.
#[derive(Drop)]
struct Pending {
    task: NodeId,
    size: u32,
    missing: u32,
}

/// The sizes so far.
#[derive(Drop)]
struct Search {
    /// By node.
    sizes: Vec<u32>,
    pending: Vec<Pending>,
    /// By node, the places of the decompositions that wait for its size.
    uses: Vec<Vec<u32>>,
    /// By size, the tasks with a decomposition of it, up to the greatest size so far.
    reached: Vec<Vec<NodeId>>,
}

/// The size of a node before any decomposition is counted. What a compound task takes is not known where its
/// decompositions are not listed.
fn first_size(graph: &TaskGraph, id: NodeId, node: &Child) -> u32 {
    match node {
        Child::Precondition(_) => 1,
        Child::Action(_) if graph.is_barred(id) => OUT_OF_REACH,
        Child::Task(_) if graph.is_listed(id) => OUT_OF_REACH,
        Child::Action(_) | Child::Task(_) => 1,
    }
}

/// Whether a node gets its size by decompositions.
fn is_sought(graph: &TaskGraph, id: NodeId) -> bool {
    match graph.node(id) {
        Some(Child::Task(_)) => graph.is_listed(id),
        _ => false,
    }
}

impl Search {
    /// No decomposition is counted.
    fn new(alloc: Global, graph: &TaskGraph) -> Result<Search, AllocError> {
        let count = graph.nodes().len();
        let mut sizes = Vec::with_capacity(alloc, count)?;
        let mut uses = Vec::with_capacity(alloc, count)?;
        for (place, node) in graph.nodes().iter().enumerate() {
            let index = u32::try_from(place).unwrap_or(u32::MAX);
            sizes.push(first_size(graph, NodeId { index }, node))?;
            uses.push(Vec::new(alloc))?;
        }
        Ok(Search {
            sizes,
            pending: Vec::new(alloc),
            uses,
            reached: Vec::new(alloc),
        })
    }

    /// Notes that a decomposition of a task has a size, unless that is out of reach.
    fn reach(&mut self, alloc: Global, task: NodeId, size: u32) -> Result<(), AllocError> {
        if size >= OUT_OF_REACH {
            return Ok(());
        }
        for _ in self.reached.len()..=size as usize {
            self.reached.push(Vec::new(alloc))?;
        }
        if let Some(tasks) = self.reached.get_mut(size as usize) {
            tasks.push(task)?;
        }
        Ok(())
    }

    /// Counts the nodes of a decomposition that have sizes, and lets it wait for the others.
    fn add(
        &mut self,
        alloc: Global,
        graph: &TaskGraph,
        decomposition: &Decomposition,
    ) -> Result<(), AllocError> {
        // At most 2^32 decompositions have places. Past them the answer is as if memory had been refused: so many take
        // more than 50 GB in this list alone. A search lists far fewer.
        let Ok(place) = u32::try_from(self.pending.len()) else {
            return Err(AllocError);
        };
        let mut size = 1u32;
        let mut missing = 0u32;
        for node in &decomposition.nodes {
            if !is_sought(graph, *node) {
                size = size.saturating_add(size_at(&self.sizes, *node));
            } else if let Some(places) = self.uses.get_mut(node.index as usize) {
                places.push(place)?;
                missing = missing.saturating_add(1);
            }
        }
        let task = decomposition.task;
        self.pending.push(Pending {
            task,
            size,
            missing,
        })?;
        if missing == 0 {
            self.reach(alloc, task, size)?;
        }
        Ok(())
    }

    /// Adds the size of a node to the decomposition at a place, which waited for it.
    fn lengthen(&mut self, alloc: Global, place: u32, size: u32) -> Result<(), AllocError> {
        let Some(pending) = self.pending.get_mut(place as usize) else {
            return Ok(());
        };
        pending.size = pending.size.saturating_add(size);
        pending.missing = pending.missing.saturating_sub(1);
        let (task, sum, missing) = (pending.task, pending.size, pending.missing);
        if missing == 0 {
            self.reach(alloc, task, sum)?;
        }
        Ok(())
    }

    /// Gives a task a size, unless it has one.
    fn settle(&mut self, alloc: Global, task: NodeId, size: u32) -> Result<(), AllocError> {
        let Some(known) = self.sizes.get_mut(task.index as usize) else {
            return Ok(());
        };
        if *known <= size {
            return Ok(());
        }
        *known = size;
        let Some(uses) = self.uses.get_mut(task.index as usize) else {
            return Ok(());
        };
        let places = mem::replace(uses, Vec::new(alloc));
        for place in &places {
            self.lengthen(alloc, *place, size)?;
        }
        Ok(())
    }

    /// Settles the tasks with a decomposition of a size.
    fn settle_reached(&mut self, alloc: Global, size: u32) -> Result<(), AllocError> {
        let Some(reached) = self.reached.get_mut(size as usize) else {
            return Ok(());
        };
        let tasks = mem::replace(reached, Vec::new(alloc));
        for task in &tasks {
            self.settle(alloc, *task, size)?;
        }
        Ok(())
    }
}

/// The sizes of all nodes of a graph.
pub(crate) fn least_sizes(alloc: Global, graph: &TaskGraph) -> Result<Vec<u32>, AllocError> {
    let mut search = Search::new(alloc, graph)?;
    for decomposition in graph.decompositions() {
        search.add(alloc, graph, decomposition)?;
    }
    for size in 1..OUT_OF_REACH {
        if size as usize >= search.reached.len() {
            break;
        }
        search.settle_reached(alloc, size)?;
    }
    Ok(search.sizes)
}
