//! Errors of runs: an action that can't be carried out, and a goal that fails.

ghost use Rattle.std.specs.Prelude.{◌≡◌, ◌∷◌, [], ◌++◌, List, IfOk, OnOk, drop, take};
ghost use Rattle.std.specs.List.{AllZip};
ghost use Rattle.diagnostics.specs.declared.diagnostic.Remark as spec;
ghost use Rattle.diagnostics.specs.Offers.{named};
ghost use Rattle.plan_messages.specs.Explanation.{IsActionError, IsGoalError, named_in, texts_of};

use crate::errors::error;
use crate::saying::Saying;
use crate::since::{say_next, say_since};
use crate::texts::{PlanTexts, action_place, in_domain, in_problem, words_or_whole};
use diagnostics::{Diagnostic, Part, Where};
use plan_causes::{FailedAction, FalseLiteral};
use std::alloc::{AllocError, Global};

/// How many actions were carried out before.
fn count_label<'a>(alloc: Global, number: usize) -> Result<Vec<Part<'a>>, AllocError> {
    if number == 0 {
        let parts = vec![in alloc; Part::Words("the first action")]?;
        return Ok(parts);
    }
    let after = if number == 1 { " action" } else { " actions" };
    let parts = vec![in alloc;
        Part::Words("after "),
        Part::Number(number as u64),
        Part::Words(after),
    ]?;
    Ok(parts)
}

/// That an action can't be carried out, and the first literal that is false.
fn failed_message<'a>(alloc: Global, failed: &'a FailedAction) -> Result<Vec<Part<'a>>, AllocError>
    ensures { IfOk result (λ m. named m.items ≡ failed.now.text.items ∷ texts_of (take 1 failed.now.literals.items)) }
{
    match failed.literals.as_slice() {
        [first, ..] => {
            let parts = vec![in alloc;
                Part::Name(failed.text.as_slice()),
                Part::Words(" can't be carried out: "),
                Part::Name(first.text.as_slice()),
                Part::Words(" is false"),
            ]?;
            Ok(parts)
        }
        [] => {
            let parts = vec![in alloc;
                Part::Name(failed.text.as_slice()),
                Part::Words(" can't be carried out"),
            ]?;
            Ok(parts)
        }
    }
}

/// That a literal is false beside another.
fn other_message<'a>(alloc: Global, other: &'a FalseLiteral) -> Result<Vec<Part<'a>>, AllocError>
    ensures { IfOk result (λ m. named m.items ≡ other.now.text.items ∷ []) }
{
    let parts = vec![in alloc;
        Part::Name(other.text.as_slice()),
        Part::Words(" is false here too"),
    ]?;
    Ok(parts)
}

/// Says of each literal that it is false too.
fn say_others<'a>(
    alloc: Global,
    saying: &mut Saying<'a>,
    others: &'a [FalseLiteral],
) -> Result<(), AllocError>
    ensures { OnOk result ((more : List spec.Remark) × (saying.new.remarks.items ≡ saying.old.remarks.items ++ more) × (named_in more ≡ texts_of others.now)) }
{
    for other in others {
        let message = other_message(alloc, other)?;
        saying.remark(message)?;
    }
    Ok(())
}

/// Says why the first literal of a precondition is false.
fn say_first<'a>(
    alloc: Global,
    texts: &PlanTexts<'a>,
    saying: &mut Saying<'a>,
    first: &'a FalseLiteral,
    next: Option<usize>,
) -> Result<(), AllocError> {
    say_since(alloc, texts, saying, first)?;
    say_next(alloc, texts, saying, first, next)?;
    let message = vec![in alloc; Part::Words("it needs this")]?;
    saying.note(Some(in_domain(&texts.pair, first.place)), message)
}

/// Says why literals of a precondition are false.
fn say_literals<'a>(
    alloc: Global,
    texts: &PlanTexts<'a>,
    saying: &mut Saying<'a>,
    failed: &'a FailedAction,
) -> Result<(), AllocError>
    ensures { OnOk result ((before : List spec.Remark) × (others : List spec.Remark)
        × (saying.new.remarks.items ≡ before ++ others) × (named_in others ≡ texts_of (drop 1 failed.now.literals.items))) }
{
    match failed.literals.as_slice() {
        [first, others @ ..] => {
            say_first(alloc, texts, saying, first, failed.next)?;
            say_others(alloc, saying, others)
        }
        [] => Ok(()),
    }
}

/// The error of an action that can't be carried out.
pub(crate) fn action_error<'a>(
    alloc: Global,
    texts: &PlanTexts<'a>,
    failed: &'a FailedAction,
) -> Result<Diagnostic<'a>, AllocError>
    ensures { IfOk result (IsActionError texts.now.plan failed.now) }
{
    let mut saying = Saying::new(alloc);
    say_literals(alloc, texts, &mut saying, failed)?;
    let about = words_or_whole(&texts.plan, action_place(&texts.plan, failed.number));
    let message = failed_message(alloc, failed)?;
    let mut found = error(alloc, "NotExecutable", about, message);
    found.label = count_label(alloc, failed.number)?;
    found.remarks = saying.remarks;
    found.notes = saying.notes;
    Ok(found)
}

/// That a literal of the goal is false.
fn goal_message<'a>(alloc: Global, literal: &'a FalseLiteral) -> Result<Vec<Part<'a>>, AllocError>
    ensures { IfOk result (λ m. named m.items ≡ literal.now.text.items ∷ []) }
{
    let parts = vec![in alloc;
        Part::Words("the goal fails: "),
        Part::Name(literal.text.as_slice()),
        Part::Words(" is false at the end"),
    ]?;
    Ok(parts)
}

/// The error of a literal of the goal.
fn goal_error<'a>(
    alloc: Global,
    texts: &PlanTexts<'a>,
    literal: &'a FalseLiteral,
) -> Result<Diagnostic<'a>, AllocError>
    ensures { IfOk result (IsGoalError texts.now literal.now) }
{
    let mut saying = Saying::new(alloc);
    say_since(alloc, texts, &mut saying, literal)?;
    let about = Where::Place(in_problem(&texts.pair, literal.place));
    let message = goal_message(alloc, literal)?;
    let mut found = error(alloc, "GoalFails", about, message);
    found.remarks = saying.remarks;
    found.notes = saying.notes;
    Ok(found)
}

/// The errors of literals of the goal.
pub(crate) fn goal_errors<'a>(
    alloc: Global,
    texts: &PlanTexts<'a>,
    literals: &'a [FalseLiteral],
) -> Result<Vec<Diagnostic<'a>>, AllocError>
    ensures { IfOk result (λ ds. AllZip (IsGoalError texts.now) literals.now ds.items) }
{
    let mut errors = Vec::new(alloc);
    for literal in literals {
        errors.push(goal_error(alloc, texts, literal)?)?;
    }
    Ok(errors)
}
