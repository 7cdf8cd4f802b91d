//! Errors of lines that have no instance, and of lines that can't be arranged.

ghost use Rattle.std.specs.Prelude.{IfOk, None, Some};
ghost use Rattle.plan_messages.specs.Explanation.{IsArrangementError, IsInstanceError};

use crate::errors::plain_error;
use crate::numbers::number_place;
use crate::placed_plan::PlacedPlan;
use crate::texts::{root_place, word_or_whole, words_or_whole};
use diagnostics::Diagnostic;
use std::alloc::{AllocError, Global};

/// The error of a line that has no instance; without a number of the root line.
pub(crate) fn instance_error<'a>(
    alloc: Global,
    plan: &PlacedPlan<'a>,
    line: Option<u64>,
) -> Result<Diagnostic<'a>, AllocError>
    ensures { IfOk result (IsInstanceError plan.now line) }
{
    match line {
        Some(id) => line_error(alloc, plan, id),
        None => root_error(alloc, plan),
    }
}

/// The error of a line other than the root line.
fn line_error<'a>(
    alloc: Global,
    plan: &PlacedPlan<'a>,
    id: u64,
) -> Result<Diagnostic<'a>, AllocError>
    ensures { IfOk result (IsInstanceError plan.now (Some id)) }
{
    let place = number_place(alloc, plan, id)?;
    let about = words_or_whole(plan, place);
    let words = "this line is no instance of anything that the domain allows";
    let error = plain_error(alloc, "NoInstance", about, words)?;
    Ok(error)
}

/// The error of the root line.
fn root_error<'a>(alloc: Global, plan: &PlacedPlan<'a>) -> Result<Diagnostic<'a>, AllocError>
    ensures { IfOk result (IsInstanceError plan.now None) }
{
    let about = word_or_whole(plan, root_place(plan));
    let words = "the lines that this one lists are not the tasks of `:htn`";
    let error = plain_error(alloc, "NoInstance", about, words)?;
    Ok(error)
}

/// The error of lines that can't be arranged.
pub(crate) fn arrangement_error<'a>(
    alloc: Global,
    plan: &PlacedPlan<'a>,
) -> Result<Diagnostic<'a>, AllocError>
    ensures { IfOk result (IsArrangementError plan.now) }
{
    let about = word_or_whole(plan, root_place(plan));
    let words = "the actions don't come in an order that the tasks below this line allow";
    let error = plain_error(alloc, "NoArrangement", about, words)?;
    Ok(error)
}
