//! Whether sizes are lower bounds.
ghost use Rattle.std.specs.Prelude.{◌≡◌, ◌≤◌, ◌-◌, ◌^◌, All, IsTrue, min};
ghost use Rattle.htn_ground.specs.Views.{child_view};
ghost use Rattle.heuristics.specs.Sizes.{AreLower, AreSizes, IsSize, size_at, size_by};

use htn_ground::Child;
use task_graph::{Decomposition, NodeId, TaskGraph};

/// The size of what is never ended: past the greatest bound, which is 10,000 nodes.
pub(crate) const OUT_OF_REACH: u32 = 10_001;

/// The size of the node with an id; 1 where none is known.
pub(crate) fn size_at(sizes: &[u32], id: NodeId) -> u32
    ensures { result ≡ size_at sizes.now id.index }
{
    match sizes.get(id.index as usize) {
        Some(size) => *size,
        None => 1,
    }
}

/// The size of a tree whose root is decomposed so, as far as a word holds it.
fn size_by(sizes: &[u32], decomposition: &Decomposition) -> u64
    ensures { result ≡ min (size_by sizes.now decomposition.now) (2 ^ 64 - 1) }
{
    let mut size = 1u64;
    for node in &decomposition.nodes {
        size = size.saturating_add(u64::from(size_at(sizes, *node)));
    }
    size
}

/// Whether a decomposition gives no less than the size of its task.
fn is_within(sizes: &[u32], decomposition: &Decomposition) -> bool
    ensures { IsTrue result → size_at sizes.now decomposition.now.task.index ≤ size_by sizes.now decomposition.now }
{
    u64::from(size_at(sizes, decomposition.task)) <= size_by(sizes, decomposition)
}

/// Whether all decompositions give no less than the sizes of their tasks.
fn are_within(sizes: &[u32], decompositions: &[Decomposition]) -> bool
    ensures { IsTrue result → All (λ d. size_at sizes.now d.task.index ≤ size_by sizes.now d) decompositions.now }
{
    for decomposition in decompositions {
        if !is_within(sizes, decomposition) {
            return false;
        }
    }
    true
}

/// Whether a node may have a size, by itself.
fn is_size(graph: &TaskGraph, id: NodeId, node: &Child, size: u32) -> bool
    ensures { IsTrue result → IsSize graph.now id.index (child_view node.now) size }
{
    match node {
        Child::Precondition(_) => size == 1,
        Child::Action(_) if graph.is_barred(id) => size == OUT_OF_REACH,
        Child::Action(_) => size == 1,
        Child::Task(_) if graph.is_listed(id) => 1 <= size && size <= OUT_OF_REACH,
        Child::Task(_) => size == 1,
    }
}

/// Whether all nodes may have their sizes, by themselves.
fn are_sizes(graph: &TaskGraph, sizes: &[u32]) -> bool
    ensures { IsTrue result → AreSizes graph.now sizes.now }
{
    let nodes = graph.nodes();
    for place in 0..nodes.len() {
        // An index that doesn't fit is no node's id.
        let Ok(index) = u32::try_from(place) else {
            return false;
        };
        let id = NodeId { index };
        if !is_size(graph, id, &nodes[place], size_at(sizes, id)) {
            return false;
        }
    }
    true
}

/// Whether sizes are lower bounds.
pub(crate) fn are_lower(graph: &TaskGraph, sizes: &[u32]) -> bool
    ensures { IsTrue result → AreLower graph.now sizes.now }
{
    are_sizes(graph, sizes) && are_within(sizes, graph.decompositions())
}
