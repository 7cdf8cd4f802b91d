//! Errors of a plan's lines that are no forest.

ghost use Rattle.std.specs.Prelude.{◌≡◌, ◌∷◌, [], List, ℕ, IfOk, length};
ghost use Rattle.std.specs.List.{AllZip};
ghost use Rattle.std.specs.Option.{option_to_list};
ghost use Rattle.htn_model.specs.PlanFile.{IsWithoutRepeats};
ghost use Rattle.pair_messages.specs.Counts.{numbers_of};
ghost use Rattle.plan_messages.specs.Explanation.{ExplainsStructure, IsNumberError};
ghost use Rattle.plan_messages.specs.Numbers.{HasSightings, IsSightingOf};
ghost use Rattle.plan_messages.specs.Places.{IsPlaceOf};
ghost use Rattle.plan_messages.specs.Mentions.{defined_at, listed_at};
ghost use Rattle.plan_messages.specs.declared.placed_plan.PlacedPlan as spec;

use crate::errors::error;
use crate::numbers::{defined, listed};
use crate::placed_plan::PlacedPlan;
use crate::sighting::Sighting;
use crate::texts::word_or_whole;
use crate::words::word_from;
use diagnostics::{Diagnostic, Note, Part};
use plan_causes::WrongIds;
use std::alloc::{AllocError, Global};

/// What is wrong with the number of a line.
#[derive(Clone, Copy)]
enum Wrong {
    DefinedTwice,
    ListedTwice,
    Undefined,
    Unlisted,
    Unreached,
}

impl Wrong {
    /// Whether a number stands twice where it may stand once.
    fn is_twice(self) -> bool {
        matches!(self, Wrong::DefinedTwice | Wrong::ListedTwice)
    }
}

/// The words before the number in the message.
fn words_before<'a>(wrong: Wrong) -> &'a str {
    match wrong {
        Wrong::DefinedTwice => "two lines have the number ",
        Wrong::Undefined => "no line has the number ",
        Wrong::ListedTwice | Wrong::Unlisted | Wrong::Unreached => "line ",
    }
}

/// The words after the number in the message.
fn words_after<'a>(wrong: Wrong) -> &'a str {
    match wrong {
        Wrong::DefinedTwice | Wrong::Undefined => "",
        Wrong::ListedTwice => " is listed twice",
        Wrong::Unlisted => " is listed nowhere",
        Wrong::Unreached => " is not below a root",
    }
}

/// The label beside the carets; empty where there is none.
fn label_words<'a>(wrong: Wrong) -> &'a str {
    match wrong {
        Wrong::Unlisted => "neither a root nor a child",
        Wrong::Unreached => "only lines below it list it",
        Wrong::DefinedTwice | Wrong::ListedTwice | Wrong::Undefined => "",
    }
}

/// The words of the note on the first place, where the error is at the second.
fn note_words<'a>(wrong: Wrong) -> &'a str {
    match wrong {
        Wrong::DefinedTwice => "the first one",
        Wrong::ListedTwice | Wrong::Undefined | Wrong::Unlisted | Wrong::Unreached => "here first",
    }
}

/// The message of a number.
fn message<'a>(alloc: Global, wrong: Wrong, id: u64) -> Result<Vec<Part<'a>>, AllocError>
    ensures { IfOk result (λ m. numbers_of m.items ≡ id ∷ []) }
{
    let mut parts = Vec::new(alloc);
    parts.push(Part::Words(words_before(wrong)))?;
    parts.push(Part::Number(id))?;
    parts.push(Part::Words(words_after(wrong)))?;
    Ok(parts)
}

/// The place of a number that is shown: where it stands the second time, if that is what is wrong.
fn shown_place(wrong: Wrong, seen: Option<Sighting>) -> Option<usize>
    ensures { (p : spec.PlacedPlan) (lines : List (ℕ × ℕ)) (id : ℕ) → IsSightingOf p lines id seen → IsPlaceOf p lines id result }
{
    let sighting = seen?;
    if wrong.is_twice() && sighting.second.is_some() {
        return sighting.second;
    }
    Some(sighting.first)
}

/// A message of the program's words alone; none where there are no words.
fn words_alone<'a>(alloc: Global, words: &'a str) -> Result<Vec<Part<'a>>, AllocError> {
    let mut parts = Vec::new(alloc);
    if !words.is_empty() {
        parts.push(Part::Words(words))?;
    }
    Ok(parts)
}

/// The first place, where the second is shown.
fn notes_of<'a>(
    alloc: Global,
    plan: &PlacedPlan<'a>,
    wrong: Wrong,
    seen: Option<Sighting>,
) -> Result<Vec<Note<'a>>, AllocError> {
    let mut notes = Vec::new(alloc);
    let Some(sighting) = seen else {
        return Ok(notes);
    };
    if wrong.is_twice() && sighting.second.is_some() {
        let message = words_alone(alloc, note_words(wrong))?;
        let spot = word_from(plan.text, sighting.first);
        notes.push(Note { spot, message })?;
    }
    Ok(notes)
}

/// The error of a number.
fn number_error<'a>(
    alloc: Global,
    plan: &PlacedPlan<'a>,
    wrong: Wrong,
    id: u64,
    seen: Option<Sighting>,
) -> Result<Diagnostic<'a>, AllocError>
    ensures { IfOk result (λ d. (lines : List (ℕ × ℕ)) → IsSightingOf plan.now lines id seen → IsNumberError plan.now lines id d) }
{
    let about = word_or_whole(plan, shown_place(wrong, seen));
    let message = message(alloc, wrong, id)?;
    let mut found = error(alloc, "Structure", about, message);
    found.label = words_alone(alloc, label_words(wrong))?;
    found.notes = notes_of(alloc, plan, wrong, seen)?;
    Ok(found)
}

/// The errors of numbers.
fn number_errors<'a>(
    alloc: Global,
    plan: &PlacedPlan<'a>,
    wrong: Wrong,
    ids: &[u64],
    seen: &[Option<Sighting>],
) -> Result<Vec<Diagnostic<'a>>, AllocError>
    requires { length seen.now ≡ length ids.now }
    ensures { IfOk result (λ ds. (lines : List (ℕ × ℕ)) → HasSightings plan.now lines ids.now seen.now → AllZip (IsNumberError plan.now lines) ids.now ds.items) }
{
    let mut errors = Vec::new(alloc);
    for (number, id) in ids.iter().enumerate() {
        errors.push(number_error(alloc, plan, wrong, *id, seen[number])?)?;
    }
    Ok(errors)
}

/// The errors of numbers, at lines that have them.
fn defined_errors<'a>(
    alloc: Global,
    plan: &PlacedPlan<'a>,
    wrong: Wrong,
    ids: &[u64],
) -> Result<Vec<Diagnostic<'a>>, AllocError>
    requires { IsWithoutRepeats ids.now }
    ensures { IfOk result (λ ds. AllZip (IsNumberError plan.now (defined_at plan.now)) ids.now ds.items) }
{
    let seen = defined(alloc, plan, ids)?;
    let errors = number_errors(alloc, plan, wrong, ids, seen.as_slice())?;
    Ok(errors)
}

/// The errors of numbers, at lines that list them.
fn listed_errors<'a>(
    alloc: Global,
    plan: &PlacedPlan<'a>,
    wrong: Wrong,
    ids: &[u64],
) -> Result<Vec<Diagnostic<'a>>, AllocError>
    requires { IsWithoutRepeats ids.now }
    ensures { IfOk result (λ ds. AllZip (IsNumberError plan.now (listed_at plan.now)) ids.now ds.items) }
{
    let seen = listed(alloc, plan, ids)?;
    let errors = number_errors(alloc, plan, wrong, ids, seen.as_slice())?;
    Ok(errors)
}

/// The error of a line that no root reaches, if there is one.
fn unreached_errors<'a>(
    alloc: Global,
    plan: &PlacedPlan<'a>,
    unreached: Option<u64>,
) -> Result<Vec<Diagnostic<'a>>, AllocError>
    ensures { IfOk result (λ ds. AllZip (IsNumberError plan.now (defined_at plan.now)) (option_to_list unreached) ds.items) }
{
    match unreached {
        Some(id) => {
            let errors = defined_errors(alloc, plan, Wrong::Unreached, &[id])?;
            Ok(errors)
        }
        None => Ok(Vec::new(alloc)),
    }
}

/// The errors of a plan's lines that are no forest.
pub(crate) fn structure_errors<'a>(
    alloc: Global,
    plan: &PlacedPlan<'a>,
    ids: &WrongIds,
    unreached: Option<u64>,
) -> Result<Vec<Diagnostic<'a>>, AllocError>
    requires defined_twice { IsWithoutRepeats ids.now.defined_twice.items }
    requires listed_twice { IsWithoutRepeats ids.now.listed_twice.items }
    requires undefined { IsWithoutRepeats ids.now.undefined.items }
    requires unlisted { IsWithoutRepeats ids.now.unlisted.items }
    ensures { IfOk result (λ ds. ExplainsStructure plan.now ids.now unreached ds.items) }
{
    let mut errors = defined_errors(
        alloc,
        plan,
        Wrong::DefinedTwice,
        ids.defined_twice.as_slice(),
    )?;
    let mut listed = listed_errors(alloc, plan, Wrong::ListedTwice, ids.listed_twice.as_slice())?;
    let mut undefined = listed_errors(alloc, plan, Wrong::Undefined, ids.undefined.as_slice())?;
    let mut unlisted = defined_errors(alloc, plan, Wrong::Unlisted, ids.unlisted.as_slice())?;
    let mut last = unreached_errors(alloc, plan, unreached)?;
    errors.append(&mut listed)?;
    errors.append(&mut undefined)?;
    errors.append(&mut unlisted)?;
    errors.append(&mut last)?;
    Ok(errors)
}
