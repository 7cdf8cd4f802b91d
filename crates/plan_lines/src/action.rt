//! Why an action line has no instance.
ghost use Rattle.std.specs.Prelude.{◌≡◌, ◌↔◌, IfOk, IsTrue, MatchOption};
ghost use Rattle.htn_ground.specs.Naming.{naming_of};
ghost use Rattle.htn_model.specs.Grounding.{problem_of};
ghost use Rattle.htn_model.specs.Instances as model;
ghost use Rattle.htn_model.specs.PlanFile.{PlanFile};
ghost use Rattle.htn_model.specs.Verdict.{HasInstance, action_line};
ghost use Rattle.htn_task.specs.Formulas.{formula_of};
ghost use Rattle.htn_task.specs.Views.{term_of};
ghost use Rattle.plan_lines.specs.First.{IsFirstOrNone};
ghost use Rattle.plan_lines.specs.Words.{Fails, IsActionCause, is_failing};

use crate::cause::WordsCause;
use crate::names::{Names, task_named};
use crate::words::typed_task;
use htn_ground::action_of;
use htn_task::{EqualitySchema, Formula, FormulaList, Task, Term};
use plan_text::ActionLine;
use std::alloc::{AllocError, Global};

/// The object that a term stands for.
fn value_of(values: &[u16], term: Term) -> u16
    ensures { result ≡ model.value_of values.now (term_of term) }
{
    match term {
        Term::Parameter(place) => match values.get(place as usize) {
            Some(value) => *value,
            None => 0,
        },
        Term::Object(object) => object,
    }
}

/// Whether an equality holds of values.
fn equality_holds(equality: &EqualitySchema, values: &[u16]) -> bool
    ensures { result ≡ model.equality_holds values.now equality.now }
{
    let left = value_of(values, equality.left());
    let right = value_of(values, equality.right());
    equality.is_positive() == (left == right)
}

/// Whether a formula is an equality that fails.
fn fails(formula: &Formula, values: &[u16]) -> bool
    ensures { result ≡ is_failing values.now (formula_of formula.now) }
{
    match formula {
        Formula::Equation(equality) => !equality_holds(equality, values),
        Formula::Literal(_, _) | Formula::ForAll(_, _) => false,
    }
}

/// The number of the first part of a conjunction that is an equality which fails.
fn first_failing(formulas: &FormulaList, values: &[u16]) -> Option<usize>
    ensures { IsFirstOrNone (Fails values.now) formulas.now result }
{
    let parts = formulas.as_slice();
    for (number, formula) in parts.iter().enumerate() {
        if fails(formula, values) {
            return Some(number);
        }
    }
    None
}

/// Whether an action line names an action at objects that are an instance of it.
fn names_action(alloc: Global, names: &Names<'_>, line: &ActionLine) -> Result<bool, AllocError>
    ensures { IfOk result (λ b. (file : PlanFile) → IsTrue b ↔ HasInstance (naming_of names.now) (problem_of names.now) file (action_line line.now)) }
{
    let Some(goal) = task_named(alloc, names, line.name(), line.arguments())? else {
        return Ok(false);
    };
    let action = action_of(alloc, names.task(), &goal)?;
    Ok(action.is_some())
}

/// The cause of an action line that has no instance.
fn cause_of(alloc: Global, names: &Names<'_>, line: &ActionLine) -> Result<WordsCause, AllocError>
    requires { (file : PlanFile) → HasInstance (naming_of names.now) (problem_of names.now) file (action_line line.now) → ⊥ }
    ensures { IfOk result (IsActionCause names.now line.now.name line.now.arguments) }
{
    let goal = match typed_task(alloc, names, false, line.name(), line.arguments())? {
        Ok(goal) => goal,
        Err(cause) => return Ok(cause),
    };
    let Some(action) = names.task().action_at(goal.name()) else {
        // The task is an action.
        unreachable!()
    };
    match first_failing(action.precondition(), goal.arguments()) {
        Some(number) => Ok(WordsCause::Equality { number }),
        None => Ok(WordsCause::AtomType),
    }
}

/// Why an action line has no instance; none where it has one. An error where memory was refused.
pub fn action_cause(
    alloc: Global,
    task: &Task,
    line: &ActionLine,
) -> Result<Option<WordsCause>, AllocError>
    ensures { IfOk result (λ r. (file : PlanFile) → MatchOption r
        (HasInstance (naming_of task.now) (problem_of task.now) file (action_line line.now))
        (λ cause. (HasInstance (naming_of task.now) (problem_of task.now) file (action_line line.now) → ⊥)
        × IsActionCause task.now line.now.name line.now.arguments cause)) }
{
    let names = Names::new(task);
    if names_action(alloc, &names, line)? {
        return Ok(None);
    }
    let cause = cause_of(alloc, &names, line)?;
    Ok(Some(cause))
}
