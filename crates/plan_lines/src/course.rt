//! The run of actions from the initial state.
ghost use Rattle.std.specs.Prelude.{IfOk};
ghost use Rattle.htn_model.specs.Grounding.{problem_of};
ghost use Rattle.plan_lines.specs.Run.{IsOutcome};

use crate::history::Turns;
use htn_ground::{GroundTask, action_of};
use htn_task::Task;
use std::alloc::{AllocError, Global};

/// The outcome of a run.
#[derive(Drop)]
pub enum Outcome<'a> {
    /// The number of the first task that is no action, or an action whose literals don't hold when it comes.
    Fails(usize),
    /// What is true in the gaps before, between and after the actions.
    Runs(Turns<'a>),
}

/// Carries out ground tasks from a task's initial state.
pub fn run<'a>(
    alloc: Global,
    task: &'a Task,
    tasks: &[GroundTask],
) -> Result<Outcome<'a>, AllocError>
    ensures { IfOk result (IsOutcome (problem_of task.now) tasks.now) }
{
    let mut turns = Turns::new(alloc, task.initial_atoms())?;
    for (line, goal) in tasks.iter().enumerate() {
        let Some(action) = action_of(alloc, task, goal)? else {
            return Ok(Outcome::Fails(line));
        };
        if !turns.holds(action.precondition.as_slice(), line) {
            return Ok(Outcome::Fails(line));
        }
        turns.apply(alloc, &action)?;
    }
    Ok(Outcome::Runs(turns))
}
