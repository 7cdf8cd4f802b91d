//! What a task's networks reach.
ghost use Rattle.std.specs.Prelude.{◌≡◌, All, IfOk, IfSome, IsTrue, map, true};
ghost use Rattle.htn_model.specs.Grounding.{problem_of};
ghost use Rattle.htn_model.specs.Instances.{initials};
ghost use Rattle.htn_model.specs.Machine.{start};
ghost use Rattle.htn_ground.specs.Distinct.{distinct};
ghost use Rattle.task_graph.specs.Graph.{AreBarredActions, IsGraph};
ghost use Rattle.heuristics.specs.CheckedReach.{AreTasksRight, IsChecked};
ghost use Rattle.heuristics.specs.Reach.{IsRelaxedReach, is_reached};
ghost use Rattle.heuristics.specs.ReachTables.{reach_of};

use crate::find_reach::{Actions, find_actions};
use crate::reach::{Marks, RelaxedReach};
use crate::reach_check::are_listed;
use crate::tasks::task_marks;
use htn_task::Task;
use std::alloc::{AllocError, Global};
use task_graph::TaskGraph;

/// The facts of a worklist that has ended, and the barred actions, without marks.
fn facts_of(
    alloc: Global,
    task: &Task,
    graph: &TaskGraph,
    search: &Actions,
) -> Result<RelaxedReach, AllocError>
    ensures { IfOk result (λ r. AreBarredActions graph.now r.barred.keys) }
{
    let facts = search.facts(alloc, task)?;
    let barred = graph.barred_actions(alloc)?;
    Ok(RelaxedReach {
        facts,
        actions: Marks::none(alloc),
        tasks: Marks::none(alloc),
        barred,
    })
}

/// The facts and marks of a worklist that has ended. They are not promised to be right.
fn reach_by(
    alloc: Global,
    task: &Task,
    graph: &TaskGraph,
    search: &Actions,
) -> Result<RelaxedReach, AllocError>
    ensures { IfOk result (λ r. AreBarredActions graph.now r.barred.keys) }
{
    let mut reach = facts_of(alloc, task, graph, search)?;
    reach.mark(alloc, graph, search)?;
    Ok(reach)
}

/// The facts and marks that a worklist finds. They are not promised to be right.
fn find_reach(alloc: Global, task: &Task, graph: &TaskGraph) -> Result<RelaxedReach, AllocError>
    ensures { IfOk result (λ r. AreBarredActions graph.now r.barred.keys) }
{
    let search = find_actions(alloc, task, graph)?;
    reach_by(alloc, task, graph, &search)
}

impl RelaxedReach {
    /// Marks actions and compound tasks as a worklist found them.
    fn mark(&mut self, alloc: Global, graph: &TaskGraph, search: &Actions) -> Result<(), AllocError>
        ensures { self.new.barred ≡ self.old.barred }
    {
        let tasks = task_marks(alloc, graph, search, &self.facts)?;
        self.tasks = tasks;
        let actions = search.marks(alloc)?;
        self.actions = actions;
        Ok(())
    }

    /// Whether the marks of compound tasks are right.
    fn are_tasks_right(&self, graph: &TaskGraph) -> Result<bool, AllocError>
        ensures { IfOk result (λ b. IsTrue b → AreTasksRight self.now graph.now) }
    {
        let are_known = are_listed(graph, self.tasks.known.as_slice())?;
        if !are_known {
            return Ok(false);
        }
        let are_blocked = are_listed(graph, self.tasks.blocked.as_slice())?;
        if !are_blocked {
            return Ok(false);
        }
        Ok(self.are_instances_right(graph))
    }

    /// Whether all marks and facts are right, those of barred actions apart.
    fn is_right(&self, alloc: Global, task: &Task, graph: &TaskGraph) -> Result<bool, AllocError>
        ensures { IfOk result (λ b. IsTrue b → IsChecked task.now self.now graph.now) }
    {
        if !self.facts.is_within(task.initial_atoms()) {
            return Ok(false);
        }
        let are_tasks_right = self.are_tasks_right(graph)?;
        if !are_tasks_right {
            return Ok(false);
        }
        let are_starts_known = self.are_starts_known(alloc, task)?;
        if !are_starts_known {
            return Ok(false);
        }
        let known = self.actions.known.as_slice();
        let are_effects_right = self.are_all_effects_right(graph, known)?;
        if !are_effects_right {
            return Ok(false);
        }
        let are_blocked_right = self.are_blocked_right(graph, self.actions.blocked.as_slice())?;
        Ok(are_blocked_right)
    }

    /// What is reached from a task's initial state by the nodes of the graph. A compound task is not known if it is not
    /// listed, nor if a decomposition of it has a node that is not known. The answer is none where an initial network
    /// has a node that is not known, and no barred one.
    pub fn of(
        alloc: Global,
        task: &Task,
        graph: &TaskGraph,
    ) -> Result<Option<RelaxedReach>, AllocError>
        ensures reach { IfOk result (λ o. IfSome o (λ r. IsGraph task.now graph.now
            → IsRelaxedReach (problem_of task.now) (reach_of r))) }
        ensures starts { IfOk result (λ o. IfSome o (λ r. All (λ c. is_reached (reach_of r) c ≡ true)
            (map (λ i. start (problem_of task.now) i.network) (distinct (initials task.now))))) }
    {
        let reach = find_reach(alloc, task, graph)?;
        let is_right = reach.is_right(alloc, task, graph)?;
        if is_right {
            return Ok(Some(reach));
        }
        Ok(None)
    }
}
