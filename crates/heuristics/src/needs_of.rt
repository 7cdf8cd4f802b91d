//! The needs of a task's networks.
ghost use Rattle.std.specs.Prelude.{◌≡◌, [], All, IfOk, IsTrue, true};
ghost use Rattle.htn_model.specs.Grounding.{problem_of};
ghost use Rattle.task_graph.specs.Graph.{AreBarredActions, IsGraph, is_task_listed};
ghost use Rattle.heuristics.specs.CheckedNeeds.{AreRowsRight};
ghost use Rattle.heuristics.specs.Needs.{IsOutlook};
ghost use Rattle.heuristics.specs.Rows.{outlook_of};

use crate::find_needs::find_rows;
use crate::needs::Needs;
use crate::rows::Rows;
use htn_ground::{Child, GroundTask};
use htn_task::Task;
use indexmap::IndexSet;
use std::alloc::{AllocError, Global};
use task_graph::TaskGraph;

/// The compound tasks whose decompositions are listed.
fn listed_tasks(alloc: Global, graph: &TaskGraph) -> Result<IndexSet<GroundTask>, AllocError> {
    let mut tasks = IndexSet::new(alloc);
    for node in graph.nodes().iter().take(graph.listed()) {
        if let Child::Task(goal) = node {
            let _ = tasks.insert(goal.clone()?)?;
        }
    }
    Ok(tasks)
}

/// Whether the decompositions of all of the compound tasks are listed.
fn are_listed(graph: &TaskGraph, goals: &[GroundTask]) -> Result<bool, AllocError>
    ensures { IfOk result (λ b. IsTrue b → All (λ h. is_task_listed graph.now h ≡ true) goals.now) }
{
    for goal in goals {
        let is_listed = graph.is_task_listed(goal)?;
        if !is_listed {
            return Ok(false);
        }
    }
    Ok(true)
}

impl Needs {
    /// Whether all rows are right.
    fn are_rows_right(&self, graph: &TaskGraph) -> Result<bool, AllocError>
        ensures { IfOk result (λ b. IsTrue b → AreRowsRight self.now graph.now) }
    {
        let are_listed = are_listed(graph, self.tasks.as_slice())?;
        if !are_listed {
            return Ok(false);
        }
        if !self.are_allowed(graph) {
            return Ok(false);
        }
        let are_leaves_right = self.are_leaves_right(graph)?;
        Ok(are_leaves_right)
    }

    /// The rows that are found for the nodes of a graph, which may be wrong.
    fn found(alloc: Global, task: &Task, graph: &TaskGraph) -> Result<Needs, AllocError>
        ensures { IfOk result (λ n. AreBarredActions graph.now n.barred.keys) }
    {
        let tasks = listed_tasks(alloc, graph)?;
        let rows = find_rows(alloc, task, graph, &tasks)?;
        let barred = graph.barred_actions(alloc)?;
        Ok(Needs {
            tasks,
            barred,
            rows,
        })
    }

    /// No node has a row.
    fn without_rows(alloc: Global, graph: &TaskGraph) -> Result<Needs, AllocError>
        ensures barred { IfOk result (λ n. AreBarredActions graph.now n.barred.keys) }
        ensures tasks { IfOk result (λ n. n.tasks.keys ≡ []) }
        ensures leaves { IfOk result (λ n. n.rows.leaf_rows.items ≡ []) }
    {
        let barred = graph.barred_actions(alloc)?;
        Ok(Needs {
            tasks: IndexSet::new(alloc),
            barred,
            rows: Rows::none(alloc),
        })
    }

    /// The needs of the nodes of a graph. Where rows would be too large, or fail their check, no node has one, and only
    /// actions that are never carried out are known never to end.
    pub fn of(alloc: Global, task: &Task, graph: &TaskGraph) -> Result<Needs, AllocError>
        ensures { IfOk result (λ n. IsGraph task.now graph.now → IsOutlook (problem_of task.now) (outlook_of n)) }
    {
        let needs = Needs::found(alloc, task, graph)?;
        let are_right = needs.are_rows_right(graph)?;
        if are_right {
            return Ok(needs);
        }
        let bare = Needs::without_rows(alloc, graph)?;
        Ok(bare)
    }
}
