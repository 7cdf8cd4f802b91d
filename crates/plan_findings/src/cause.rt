//! What is found of a plan file's verdict.

ghost use Rattle.std.specs.Prelude.{◌≡◌, IfOk, Some, option_and_then, slice_get};
ghost use Rattle.htn_model.specs.Grounding.{problem_of};
ghost use Rattle.htn_model.specs.Literal as model;
ghost use Rattle.plan_causes.specs.Reasons.{AreOnce};
ghost use Rattle.plan_findings.specs.Causes as spec;
ghost use Rattle.plan_findings.specs.Causes.{IsRunReason, IsCauseOf, IsStructureReason};
ghost use Rattle.plan_findings.specs.Falsities.{AreFalsities};
ghost use Rattle.plan_causes.specs.declared.cause.RunCause.TheVariants as run;

use crate::atoms::action_text;
use crate::case::PlanCase;
use crate::conditions::{goal_places, precondition_places};
use crate::literals::{Written, false_literals, initial_for, is_false};
use crate::reached::unreached_id;
use crate::tasks::action_tasks;
use htn_ground::{GroundTask, action_of, goal_literals};
use htn_task::{Action, Literal, Task};
use plan_causes::{
    Cause, FailedAction, FalseLiteral, RunCause, Standing, WrongIds, next_setter, run_cause,
    wrong_ids,
};
use plan_text::PlanFile;
use std::alloc::{AllocError, Global};

/// Whether something is wrong with a number.
fn has_wrong_ids(wrong: &WrongIds) -> bool {
    !(wrong.defined_twice.is_empty()
        && wrong.listed_twice.is_empty()
        && wrong.undefined.is_empty()
        && wrong.unlisted.is_empty())
}

/// The number of a line that no root reaches, where nothing is wrong with other numbers.
fn unreached_unless(
    alloc: Global,
    file: &PlanFile,
    has_wrong: bool,
) -> Result<Option<u64>, AllocError> {
    if has_wrong {
        return Ok(None);
    }
    unreached_id(alloc, file)
}

/// Why the lines are no forest, as the cause of the verdict `Structure`. An error where memory was refused.
pub fn structure_reason(alloc: Global, case: &PlanCase<'_>) -> Result<Cause, AllocError>
    ensures reason { IfOk result (IsStructureReason case.now.file.now) }
    ensures once { IfOk result AreOnce }
{
    let wrong = wrong_ids(alloc, case.file)?;
    let unreached = unreached_unless(alloc, case.file, has_wrong_ids(&wrong))?;
    Ok(Cause::Structure(wrong, unreached))
}

/// Where the literals of an action's precondition are written.
fn written_in_action(
    alloc: Global,
    case: &PlanCase<'_>,
    goal: &GroundTask,
    literals: &[Literal],
    standings: &[Standing],
) -> Result<Written, AllocError> {
    let initial = initial_for(alloc, case.problem, literals, standings)?;
    let number = (goal.name() as usize).saturating_sub(case.task.tasks().len());
    match case.domain.actions.as_slice().get(number) {
        Some(action) => Ok(Written {
            literals: precondition_places(alloc, case.task, action.precondition.as_slice())?,
            other: action.name.place(),
            initial,
        }),
        None => Ok(Written {
            literals: Vec::new(alloc),
            other: case.domain.name.place(),
            initial,
        }),
    }
}

/// The first literal that is false, if one is.
fn first_false<'a>(literals: &'a [Literal], standings: &[Standing]) -> Option<&'a Literal> {
    let number = standings.iter().position(|standing| is_false(*standing))?;
    literals.get(number)
}

/// The next task after one that makes the first false literal true.
fn next_of(
    alloc: Global,
    case: &PlanCase<'_>,
    tasks: &[GroundTask],
    number: usize,
    first: Option<&Literal>,
) -> Result<Option<usize>, AllocError> {
    match first {
        Some(literal) => next_setter(alloc, case.task, tasks, literal, number.saturating_add(1)),
        None => Ok(None),
    }
}

/// The words of the action line of a number.
fn line_text(alloc: Global, file: &PlanFile, number: usize) -> Result<Vec<u8>, AllocError>
    ensures { IfOk result (λ v. v.items ≡ spec.line_text (slice_get file.now.actions number)) }
{
    match file.actions().get(number) {
        Some(line) => action_text(alloc, line),
        None => Ok(Vec::new(alloc)),
    }
}

/// The action of a number of some tasks, if there is one.
fn action_in(
    alloc: Global,
    task: &Task,
    tasks: &[GroundTask],
    number: usize,
) -> Result<Option<Action>, AllocError>
    ensures { IfOk result (λ o. o ≡ option_and_then (problem_of task.now).action_of (slice_get tasks.now number)) }
{
    let Some(goal) = tasks.get(number) else {
        return Ok(None);
    };
    let action = action_of(alloc, task, goal)?;
    Ok(action)
}

/// The literals of the precondition of a task that are false, if it is an action.
fn false_preconditions(
    alloc: Global,
    case: &PlanCase<'_>,
    tasks: &[GroundTask],
    number: usize,
    standings: &[Standing],
) -> Result<(Vec<FalseLiteral>, Option<usize>), AllocError>
    ensures { IfOk result (λ r. (action : model.Action) → option_and_then (problem_of case.now.task.now).action_of (slice_get tasks.now number) ≡ Some action
        → AreFalsities case.now.task.now action.precondition standings.now r.0.items) }
{
    let found = action_in(alloc, case.task, tasks, number)?;
    let Some(action) = found else {
        return Ok((Vec::new(alloc), None));
    };
    let literals = action.precondition.as_slice();
    let next = next_of(alloc, case, tasks, number, first_false(literals, standings))?;
    let written = written_in_action(alloc, case, &tasks[number], literals, standings)?;
    let falsities = false_literals(alloc, case.task, &written, literals, standings)?;
    Ok((falsities, next))
}

/// The cause where an action can't be carried out.
fn action_fails(
    alloc: Global,
    case: &PlanCase<'_>,
    tasks: &[GroundTask],
    number: usize,
    standings: Vec<Standing>,
) -> Result<Cause, AllocError>
    ensures said { IfOk result (IsCauseOf case.now.task.now case.now.file.now tasks.now (run.Fails number standings)) }
    ensures once { IfOk result AreOnce }
{
    let (literals, next) = false_preconditions(alloc, case, tasks, number, standings.as_slice())?;
    let text = line_text(alloc, case.file, number)?;
    Ok(Cause::NotExecutable(FailedAction {
        number,
        text,
        literals,
        next,
    }))
}

/// The cause where the goal fails.
fn goal_fails(
    alloc: Global,
    case: &PlanCase<'_>,
    tasks: &[GroundTask],
    standings: Vec<Standing>,
) -> Result<Cause, AllocError>
    ensures said { IfOk result (IsCauseOf case.now.task.now case.now.file.now tasks.now (run.GoalFails standings)) }
    ensures once { IfOk result AreOnce }
{
    let goal = goal_literals(alloc, case.task)?;
    let literals = goal.as_slice();
    let written = Written {
        literals: goal_places(alloc, case.task, case.problem.goal.as_slice())?,
        other: case.problem.name.place(),
        initial: initial_for(alloc, case.problem, literals, standings.as_slice())?,
    };
    let falsities = false_literals(alloc, case.task, &written, literals, standings.as_slice())?;
    Ok(Cause::GoalFails(falsities))
}

/// The cause that a run of tasks gives: a task that can't be carried out, literals of the goal that are false at the
/// end, or none.
fn reason_of(
    alloc: Global,
    case: &PlanCase<'_>,
    tasks: &[GroundTask],
    found: RunCause,
) -> Result<Cause, AllocError>
    ensures said { IfOk result (IsCauseOf case.now.task.now case.now.file.now tasks.now found) }
    ensures once { IfOk result AreOnce }
{
    match found {
        RunCause::Fails(number, standings) => action_fails(alloc, case, tasks, number, standings),
        RunCause::GoalFails(standings) => goal_fails(alloc, case, tasks, standings),
        RunCause::Holds => Ok(Cause::Valid),
    }
}

/// Why the run of the action lines fails, as the cause of the verdicts `NotExecutable` and `GoalFails`; `Valid` where it
/// doesn't fail. An error where memory was refused.
pub fn run_reason(alloc: Global, case: &PlanCase<'_>) -> Result<Cause, AllocError>
    ensures reason { IfOk result (IsRunReason case.now.task.now case.now.file.now) }
    ensures once { IfOk result AreOnce }
{
    let tasks = action_tasks(alloc, case.task, case.file)?;
    let found = run_cause(alloc, case.task, tasks.as_slice())?;
    let cause = reason_of(alloc, case, tasks.as_slice(), found)?;
    Ok(cause)
}
