//! Why a plan file has its verdict, as diagnostics.

ghost use Rattle.std.specs.Prelude.{◌≡◌, ◌∷◌, [], IfOk};
ghost use Rattle.plan_messages.specs.Explanation.{Explains};
ghost use Rattle.plan_causes.specs.Reasons.{AreOnce};

use crate::run_errors::{action_error, goal_errors};
use crate::single::{arrangement_error, instance_error};
use crate::structure::structure_errors;
use crate::texts::PlanTexts;
use diagnostics::Diagnostic;
use plan_causes::Cause;
use std::alloc::{AllocError, Global};

/// An error alone.
fn alone<'a>(alloc: Global, error: Diagnostic<'a>) -> Result<Vec<Diagnostic<'a>>, AllocError>
    ensures { IfOk result (λ ds. ds.items ≡ error.entry ∷ []) }
{
    let mut errors = Vec::new(alloc);
    errors.push(error)?;
    Ok(errors)
}

/// The errors that say why a plan file has its verdict; none of a valid file. An error where memory was refused.
pub fn explanation<'a>(
    alloc: Global,
    texts: &PlanTexts<'a>,
    cause: &'a Cause,
) -> Result<Vec<Diagnostic<'a>>, AllocError>
    requires { AreOnce cause.now }
    ensures { IfOk result (λ ds. Explains texts.now cause.now ds.items) }
{
    match cause {
        Cause::Structure(wrong, unreached) => {
            let errors = structure_errors(alloc, &texts.plan, wrong, *unreached)?;
            Ok(errors)
        }
        Cause::NoInstance(line) => {
            let error = instance_error(alloc, &texts.plan, *line)?;
            let errors = alone(alloc, error)?;
            Ok(errors)
        }
        Cause::NotExecutable(failed) => {
            let error = action_error(alloc, texts, failed)?;
            let errors = alone(alloc, error)?;
            Ok(errors)
        }
        Cause::GoalFails(literals) => {
            let errors = goal_errors(alloc, texts, literals.as_slice())?;
            Ok(errors)
        }
        Cause::NoArrangement => {
            let error = arrangement_error(alloc, &texts.plan)?;
            let errors = alone(alloc, error)?;
            Ok(errors)
        }
        Cause::Valid => Ok(Vec::new(alloc)),
    }
}
