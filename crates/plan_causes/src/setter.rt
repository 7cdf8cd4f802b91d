//! What makes a literal true.

ghost use Rattle.std.specs.Prelude.{◌≡◌, IfOk};
ghost use Rattle.htn_model.specs.Grounding.{problem_of};
ghost use Rattle.htn_task.specs.Literals.{literal_of};
ghost use Rattle.plan_causes.specs.Causes as spec;
ghost use Rattle.plan_causes.specs.Causes.{is_setter, IsNextSetter};

use htn_ground::{GroundTask, action_of};
use htn_task::{Action, Literal, Task};
use std::alloc::{AllocError, Global};

/// Whether an action makes a literal true.
fn makes(literal: &Literal, action: &Action) -> bool
    ensures { result ≡ spec.makes (literal_of literal.now) action.now }
{
    match literal {
        Literal::Positive(atom) => action.adds.contains(atom),
        Literal::Negative(atom) => { action.deletes.contains(atom) && !action.adds.contains(atom) }
        Literal::Same(_, _) | Literal::Different(_, _) => false,
    }
}

/// Whether a task of some is an action that makes a literal true.
fn is_made_at(
    alloc: Global,
    task: &Task,
    tasks: &[GroundTask],
    literal: &Literal,
    number: usize,
) -> Result<bool, AllocError>
    ensures { IfOk result (λ b. b ≡ is_setter (problem_of task.now) tasks.now (literal_of literal.now) number) }
{
    let Some(goal) = tasks.get(number) else {
        return Ok(false);
    };
    match action_of(alloc, task, goal)? {
        Some(action) => Ok(makes(literal, &action)),
        None => Ok(false),
    }
}

/// The number of the first task from one on that is an action which makes a literal true: it adds the atom, or, of a
/// negated one, deletes it and doesn't add it. None where there is none, as for equalities. An error where memory was
/// refused.
pub fn next_setter(
    alloc: Global,
    task: &Task,
    tasks: &[GroundTask],
    literal: &Literal,
    from: usize,
) -> Result<Option<usize>, AllocError>
    ensures { IfOk result (IsNextSetter (problem_of task.now) tasks.now (literal_of literal.now) from) }
{
    for number in from..tasks.len() {
        if is_made_at(alloc, task, tasks, literal, number)? {
            return Ok(Some(number));
        }
    }
    Ok(None)
}
