//! What nodes are ground to.
ghost use Rattle.std.specs.Prelude.{◌≡◌, IfOk};
ghost use Rattle.htn_ground.specs.Views.{child_view};
ghost use Rattle.htn_model.specs.Grounding.{problem_of};
ghost use Rattle.task_graph.specs.Barred.{is_barred_by};
ghost use Rattle.task_graph.specs.Graph.{grounding_of};

use htn_ground::{Child, action_of};
use htn_task::{Action, Task};
use std::alloc::{AllocError, Global};

/// What is known of a node by itself.
#[derive(Drop)]
pub(crate) struct Grounding {
    /// The action that the node is ground to; none where it is no action, or no objects satisfy its schema.
    pub(crate) action: Option<Action>,
    /// Whether the node is an action that is never carried out: it is ground to none, or its precondition has a dead
    /// literal.
    pub(crate) is_barred: bool,
}

fn is_barred(task: &Task, action: &Option<Action>) -> bool
    ensures { result ≡ is_barred_by (problem_of task.now) action.now }
{
    match action {
        Some(action) => task.has_dead_literal(action.precondition.as_slice()),
        None => true,
    }
}

impl Grounding {
    /// The grounding of a node.
    pub(crate) fn of(alloc: Global, task: &Task, node: &Child) -> Result<Grounding, AllocError>
        ensures { IfOk result (λ g. g ≡ grounding_of task.now (child_view node.now)) }
    {
        match node {
            Child::Action(goal) => {
                let action = action_of(alloc, task, goal)?;
                let is_barred = is_barred(task, &action);
                Ok(Grounding { action, is_barred })
            }
            Child::Precondition(_) | Child::Task(_) => Ok(Grounding {
                action: None,
                is_barred: false,
            }),
        }
    }
}
