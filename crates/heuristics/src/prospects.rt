//! Prospects: facts about nodes, found before a search, that show which configurations may end.
ghost use Rattle.std.specs.Prelude.{◌≡◌, IfOk, map};
ghost use Rattle.htn_ground.specs.Distinct.{distinct};
ghost use Rattle.htn_ground.specs.Views.{child_view};
ghost use Rattle.htn_model.specs.Grounding.{problem_of};
ghost use Rattle.htn_model.specs.Instances.{initials};
ghost use Rattle.htn_model.specs.Machine.{start};
ghost use Rattle.task_graph.specs.Graph.{IsGraph};
ghost use Rattle.heuristics.specs.Prospects.{AreProspects, is_lost, is_unreached};

use crate::needs::Needs;
use crate::reach::RelaxedReach;
use htn_ground::Child;
use htn_task::Task;
use std::alloc::{AllocError, Global};
use task_graph::TaskGraph;

/// Facts about nodes that are found before a search: the literals that they want and give, and what is reached in the
/// delete relaxation, if that was computed.
pub struct Prospects {
    pub needs: Needs,
    pub reach: Option<RelaxedReach>,
}

impl Drop for Prospects {
    fn drop(self) {
        let Prospects { needs: _, reach: _ } = self;
    }
}

/// Whether a node never ends by relaxed reachability; false where that was not computed.
fn is_unreached(reach: &Option<RelaxedReach>, child: &Child) -> bool
    ensures { result ≡ is_unreached reach.now (child_view child.now) }
{
    match reach {
        Some(reach) => reach.is_lost_node(child),
        None => false,
    }
}

impl Prospects {
    /// The prospects by a part of a task's decomposition graph.
    pub fn of(alloc: Global, task: &Task, graph: &TaskGraph) -> Result<Prospects, AllocError>
        ensures { IfOk result (λ p. IsGraph task.now graph.now → AreProspects (problem_of task.now)
            (map (λ i. start (problem_of task.now) i.network) (distinct (initials task.now))) p) }
    {
        let needs = Needs::of(alloc, task, graph)?;
        let reach = RelaxedReach::of(alloc, task, graph)?;
        Ok(Prospects { needs, reach })
    }

    /// Whether nothing ever ends a node.
    pub(crate) fn is_lost(&self, child: &Child) -> bool
        ensures { result ≡ is_lost self.now (child_view child.now) }
    {
        self.needs.is_blocked(child) || is_unreached(&self.reach, child)
    }
}
