//! The places of numbers in a plan's text.

ghost use Rattle.std.specs.Prelude.{◌≡◌, ◌++◌, List, ℕ, IfOk, OnOk, slice_get};
ghost use Rattle.std.specs.List.{AllZip, zip};
ghost use Rattle.htn_model.specs.PlanFile.{action_ids, decomposition_ids};
ghost use Rattle.plan_messages.specs.Mentions.{IsMention, defined_at, listed_at, listed_by, listed_by_lines, listed_by_root, listed_if, placed};
ghost use Rattle.plan_messages.specs.Spots.{IsOnLine};

use crate::placed_plan::PlacedPlan;
use crate::words::{word_end, word_start};
use plan_text::{ActionLine, DecompositionLine};
use std::alloc::{AllocError, Global};

/// The number of a line where a plan's text has it.
#[derive(Clone, Copy, Debug, PartialEq, Eq)]
pub struct Mention {
    pub id: u64,
    /// The offset of its first byte.
    pub place: usize,
}

/// The place at an index, if there is one.
fn place_at(places: &[usize], number: usize) -> Option<usize>
    ensures { result ≡ slice_get places.now number }
{
    places.get(number).copied()
}

/// Adds the number of a line, where the line has a place.
fn add_number(
    text: &[u8],
    id: u64,
    line: Option<usize>,
    mentions: &mut Vec<Mention>,
) -> Result<(), AllocError>
    ensures { OnOk result ((before : List (ℕ × ℕ)) → AllZip (IsMention text.now) before mentions.old.items
        → AllZip (IsMention text.now) (before ++ placed id line) mentions.new.items) }
{
    match line {
        Some(line) => {
            let place = word_start(text, line);
            mentions.push(Mention { id, place })?;
            Ok(())
        }
        None => Ok(()),
    }
}

/// Adds where action lines begin with their numbers.
fn add_actions(
    text: &[u8],
    lines: &[ActionLine],
    places: &[usize],
    mentions: &mut Vec<Mention>,
) -> Result<(), AllocError>
    ensures { OnOk result ((before : List (ℕ × ℕ)) → AllZip (IsMention text.now) before mentions.old.items
        → AllZip (IsMention text.now) (before ++ zip (action_ids lines.now) places.now) mentions.new.items) }
{
    for (number, line) in lines.iter().enumerate() {
        add_number(text, line.id(), place_at(places, number), mentions)?;
    }
    Ok(())
}

/// Adds where decomposition lines begin with their numbers.
fn add_decompositions(
    text: &[u8],
    lines: &[DecompositionLine],
    places: &[usize],
    mentions: &mut Vec<Mention>,
) -> Result<(), AllocError>
    ensures { OnOk result ((before : List (ℕ × ℕ)) → AllZip (IsMention text.now) before mentions.old.items
        → AllZip (IsMention text.now) (before ++ zip (decomposition_ids lines.now) places.now) mentions.new.items) }
{
    for (number, line) in lines.iter().enumerate() {
        add_number(text, line.id(), place_at(places, number), mentions)?;
    }
    Ok(())
}

/// Where each line begins with its number. An error where memory was refused.
pub fn definitions(alloc: Global, plan: &PlacedPlan<'_>) -> Result<Vec<Mention>, AllocError>
    ensures { IfOk result (λ v. AllZip (IsMention plan.now.text.now.lines) (defined_at plan.now) v.items) }
{
    let text = plan.text.lines.text();
    let mut mentions = Vec::new(alloc);
    add_actions(
        text,
        plan.file.actions(),
        plan.places.actions.as_slice(),
        &mut mentions,
    )?;
    add_decompositions(
        text,
        plan.file.decompositions(),
        plan.places.decompositions.as_slice(),
        &mut mentions,
    )?;
    Ok(mentions)
}

/// The place on a line after its first `count` words.
fn after_words(text: &[u8], line: usize, count: usize) -> usize
    ensures { IsOnLine text.now line result }
{
    let mut at = word_start(text, line);
    for _ in 0..count {
        at = word_end(text, word_start(text, at));
    }
    at
}

/// Adds the numbers that a line lists after some of its words.
fn add_listed(
    text: &[u8],
    line: usize,
    words: usize,
    listed: &[u64],
    mentions: &mut Vec<Mention>,
) -> Result<(), AllocError>
    ensures { OnOk result ((before : List (ℕ × ℕ)) → AllZip (IsMention text.now) before mentions.old.items
        → AllZip (IsMention text.now) (before ++ listed_by listed.now line) mentions.new.items) }
{
    let mut at = after_words(text, line, words);
    for id in listed {
        let place = word_start(text, at);
        mentions.push(Mention { id: *id, place })?;
        at = word_end(text, place);
    }
    Ok(())
}

/// Adds the numbers that the root line lists.
fn add_roots(
    text: &[u8],
    roots: &[u64],
    places: &[usize],
    mentions: &mut Vec<Mention>,
) -> Result<(), AllocError>
    ensures { OnOk result ((before : List (ℕ × ℕ)) → AllZip (IsMention text.now) before mentions.old.items
        → AllZip (IsMention text.now) (before ++ listed_by_root roots.now places.now) mentions.new.items) }
{
    match places {
        [place, ..] => add_listed(text, *place, 1, roots, mentions),
        [] => Ok(()),
    }
}

/// Adds the numbers that a decomposition line lists, where the line has a place.
fn add_line(
    text: &[u8],
    line: &DecompositionLine,
    place: Option<usize>,
    mentions: &mut Vec<Mention>,
) -> Result<(), AllocError>
    ensures { OnOk result ((before : List (ℕ × ℕ)) → AllZip (IsMention text.now) before mentions.old.items
        → AllZip (IsMention text.now) (before ++ listed_if line.now.children place) mentions.new.items) }
{
    match place {
        Some(place) => {
            // Before its children a line has its number, its task, the arrow and the method.
            let words = line.arguments().len().saturating_add(4);
            add_listed(text, place, words, line.children(), mentions)
        }
        None => Ok(()),
    }
}

/// Adds the numbers that decomposition lines list.
fn add_children(
    text: &[u8],
    lines: &[DecompositionLine],
    places: &[usize],
    mentions: &mut Vec<Mention>,
) -> Result<(), AllocError>
    ensures { OnOk result ((before : List (ℕ × ℕ)) → AllZip (IsMention text.now) before mentions.old.items
        → AllZip (IsMention text.now) (before ++ listed_by_lines lines.now places.now) mentions.new.items) }
{
    for (number, line) in lines.iter().enumerate() {
        add_line(text, line, place_at(places, number), mentions)?;
    }
    Ok(())
}

/// Where the root line and the decomposition lines list numbers. An error where memory was refused.
pub fn listings(alloc: Global, plan: &PlacedPlan<'_>) -> Result<Vec<Mention>, AllocError>
    ensures { IfOk result (λ v. AllZip (IsMention plan.now.text.now.lines) (listed_at plan.now) v.items) }
{
    let text = plan.text.lines.text();
    let mut mentions = Vec::new(alloc);
    add_roots(
        text,
        plan.file.roots(),
        plan.places.roots.as_slice(),
        &mut mentions,
    )?;
    add_children(
        text,
        plan.file.decompositions(),
        plan.places.decompositions.as_slice(),
        &mut mentions,
    )?;
    Ok(mentions)
}
