//! How large the tree below a node is at least.
ghost use Rattle.std.specs.Prelude.{◌≡◌, IfOk};
ghost use Rattle.htn_model.specs.Grounding.{problem_of};
ghost use Rattle.htn_model.specs.Task as model;
ghost use Rattle.htn_ground.specs.Views.{child_view};
ghost use Rattle.task_graph.specs.Graph.{IsGraph};
ghost use Rattle.heuristics.specs.Measure.{IsLowerMeasure};
ghost use Rattle.heuristics.specs.Sizes.{size_of};

use crate::least_sizes::least_sizes;
use crate::sizes_check::{are_lower, size_at};
use htn_ground::Child;
use std::alloc::{AllocError, Global};
use task_graph::TaskGraph;

/// A measure on nodes: 1 of a precondition step and of an action, of a compound task at most the nodes of its least
/// decomposition tree; past the greatest bound for a task that no tree ends, and for an action that is never carried
/// out.
pub struct TreeSizes {
    graph: TaskGraph,
    /// By node.
    sizes: Vec<u32>,
}

impl Drop for TreeSizes {
    fn drop(self) {
        let TreeSizes { graph: _, sizes: _ } = self;
    }
}

impl TreeSizes {
    /// The sizes of the nodes of a graph. A compound task whose decompositions are not listed has the size 1; one that
    /// no tree ends is larger than any plan may be.
    pub fn of(alloc: Global, graph: TaskGraph) -> Result<TreeSizes, AllocError>
        ensures { IfOk result (λ s. (t : model.Task) → IsGraph t graph → IsLowerMeasure (problem_of t) (size_of s)) }
    {
        let least = least_sizes(alloc, &graph)?;
        let sizes = if are_lower(&graph, &least) {
            least
        } else {
            Vec::new(alloc)
        };
        Ok(TreeSizes { graph, sizes })
    }

    /// The graph of which the sizes are.
    pub fn graph(&self) -> &TaskGraph
        ensures { result.now ≡ self.now.graph }
    {
        &self.graph
    }

    /// The size of a node; 1 of a node that has no id in the graph.
    pub fn size(&self, node: &Child) -> u32
        ensures { result ≡ size_of self.now (child_view node.now) }
    {
        if let Child::Precondition(_) = node {
            return 1;
        }
        match self.graph.id_of(node) {
            Some(id) => size_at(&self.sizes, id),
            None => 1,
        }
    }
}
