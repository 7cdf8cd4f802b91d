//! Why a run fails.

ghost use Rattle.std.specs.Prelude.{◌≡◌, length, take, slice_get, Some, IfOk};
ghost use Rattle.htn_model.specs.Grounding.{problem_of};
ghost use Rattle.plan_causes.specs.Causes.{IsRunCause, StandFor, StandsIn};
ghost use Rattle.plan_lines.specs.Run.{IsFailing, IsHistoryOf};
ghost use Rattle.plan_lines.specs.Turns.{IsHistory};

use crate::standing::{Standing, standings_in};
use htn_ground::{GroundTask, action_of, goal_literals};
use htn_task::Task;
use plan_lines::{Outcome, Turns, run};
use std::alloc::{AllocError, Global};

/// Why the run of ground tasks fails, or that it doesn't.
#[derive(Drop)]
pub enum RunCause {
    /// The number of the first task that can't be carried out when it comes, and how each literal of its precondition
    /// stands there; none where it is no action.
    Fails(usize, Vec<Standing>),
    /// The truth of each literal of the goal at the end; not all hold.
    GoalFails(Vec<Standing>),
    /// All are carried out, and the goal holds at the end.
    Holds,
}

/// The truth of the literals of a task's precondition in a gap; None where it is no action.
fn precondition_in(
    alloc: Global,
    task: &Task,
    goal: &GroundTask,
    turns: &Turns<'_>,
    gap: usize,
) -> Result<Vec<Standing>, AllocError>
    requires { IsHistory turns.now }
    ensures { IfOk result (λ v. StandFor (problem_of task.now) (StandsIn turns.now gap) goal.now v.items) }
{
    let found = action_of(alloc, task, goal)?;
    let Some(action) = found else {
        return Ok(Vec::new(alloc));
    };
    standings_in(alloc, turns, action.precondition.as_slice(), gap)
}

/// What is true in the gaps of a run up to a task that can't be carried out.
fn run_up_to<'a>(
    alloc: Global,
    task: &'a Task,
    tasks: &[GroundTask],
    number: usize,
) -> Result<Turns<'a>, AllocError>
    requires { IsFailing (problem_of task.now) tasks.now number }
    ensures { IfOk result (IsHistoryOf (problem_of task.now) (take number tasks.now)) }
{
    match run(alloc, task, &tasks[..number])? {
        Outcome::Runs(turns) => Ok(turns),
        // All tasks before the first that can't be carried out can be.
        Outcome::Fails(_) => unreachable!(),
    }
}

/// The cause where a task can't be carried out.
fn task_fails(
    alloc: Global,
    task: &Task,
    tasks: &[GroundTask],
    number: usize,
) -> Result<RunCause, AllocError>
    requires { IsFailing (problem_of task.now) tasks.now number }
    ensures { IfOk result (IsRunCause (problem_of task.now) tasks.now) }
{
    let turns = run_up_to(alloc, task, tasks, number)?;
    let standings = precondition_in(alloc, task, &tasks[number], &turns, number)?;
    Ok(RunCause::Fails(number, standings))
}

/// The cause where all tasks can be carried out.
fn at_end(
    alloc: Global,
    task: &Task,
    tasks: &[GroundTask],
    turns: &Turns<'_>,
) -> Result<RunCause, AllocError>
    requires { IsHistoryOf (problem_of task.now) tasks.now turns.now }
    ensures { IfOk result (IsRunCause (problem_of task.now) tasks.now) }
{
    let goal = goal_literals(alloc, task)?;
    let last = tasks.len();
    if turns.holds(goal.as_slice(), last) {
        return Ok(RunCause::Holds);
    }
    let standings = standings_in(alloc, turns, goal.as_slice(), last)?;
    Ok(RunCause::GoalFails(standings))
}

/// Why the run of ground tasks from a task's initial state fails, or that it doesn't. An error where memory was
/// refused.
pub fn run_cause(alloc: Global, task: &Task, tasks: &[GroundTask]) -> Result<RunCause, AllocError>
    ensures { IfOk result (IsRunCause (problem_of task.now) tasks.now) }
{
    match run(alloc, task, tasks)? {
        Outcome::Fails(number) => task_fails(alloc, task, tasks, number),
        Outcome::Runs(turns) => at_end(alloc, task, tasks, &turns),
    }
}
