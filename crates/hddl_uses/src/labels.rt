//! The names of a network's subtasks.
ghost use Rattle.std.specs.Prelude.{◌≡◌, ◌++◌, cond, is_some, IfOk, OnOk, Some, None};
ghost use Rattle.std.specs.List.{flat_map, position};
ghost use Rattle.hddl_meaning.specs.Mentions.{Text};
ghost use Rattle.hddl_meaning.specs.Names.{optional_mention};
ghost use Rattle.hddl_meaning.specs.Networks.{is_text};
ghost use Rattle.hddl_uses.specs.Labels.{pairs_of};
ghost use Rattle.hddl_scope.specs.Numbers.{number_at};

use hddl_names::fold;
use hddl_scope::{Mention, Numbers};
use hddl_words::{Name, OrderingText, SubtaskText};
use std::alloc::{AllocError, Global};

fn push_label<'a>(
    alloc: Global,
    mentions: &mut Vec<Mention<'a>>,
    label: &'a Option<Name>,
) -> Result<(), AllocError>
    ensures { OnOk result (mentions.new.items ≡ mentions.old.items ++ optional_mention label.now) }
{
    if let Some(name) = label {
        mentions.push(Mention::of_name(alloc, name)?)?;
    }
    Ok(())
}

/// The names of subtasks.
pub(crate) fn labels_in(
    alloc: Global,
    subtasks: &[SubtaskText],
) -> Result<Vec<Mention<'_>>, AllocError>
    ensures { IfOk result (λ mentions. mentions.items ≡ flat_map (λ s. optional_mention s.label) subtasks.now) }
{
    let mut mentions = Vec::new(alloc);
    for subtask in subtasks {
        push_label(alloc, &mut mentions, &subtask.label)?;
    }
    Ok(mentions)
}

/// Gives a number to a subtask's name, unless it has one.
fn number_label(
    alloc: Global,
    numbers: &mut Numbers,
    label: &Option<Name>,
    number: usize,
) -> Result<(), AllocError>
    ensures { OnOk result ((t : Text) → number_at numbers.new t ≡ cond (is_some (number_at numbers.old t)) (number_at numbers.old t) (cond (is_text t label.now) (Some number) None)) }
{
    if let Some(name) = label {
        let text = fold(alloc, name.text())?;
        if numbers.get(text.as_slice()).is_none() {
            numbers.add(alloc, text.as_slice(), number)?;
        }
    }
    Ok(())
}

/// The positions of the subtasks that have names.
pub(crate) fn label_numbers(alloc: Global, subtasks: &[SubtaskText]) -> Result<Numbers, AllocError>
    ensures { IfOk result (λ numbers. (t : Text) → number_at numbers t ≡ position (λ s. is_text t s.label) subtasks.now) }
{
    let mut numbers = Numbers::with_capacity(alloc, subtasks.len())?;
    for (index, subtask) in subtasks.iter().enumerate() {
        number_label(alloc, &mut numbers, &subtask.label, index)?;
    }
    Ok(numbers)
}

/// Adds the pair of positions of an ordering, if subtasks have both names.
fn push_pair(
    alloc: Global,
    numbers: &Numbers,
    pairs: &mut Vec<(usize, usize)>,
    ordering: &OrderingText,
) -> Result<(), AllocError>
    ensures { OnOk result (pairs.new.items ≡ pairs.old.items ++ pairs_of numbers.now ordering.now) }
{
    let before = fold(alloc, ordering.before.text())?;
    let after = fold(alloc, ordering.after.text())?;
    if let (Some(first), Some(second)) = (
        numbers.get(before.as_slice()),
        numbers.get(after.as_slice()),
    ) {
        pairs.push((first, second))?;
    }
    Ok(())
}

/// The pairs of positions of orderings.
pub(crate) fn pairs_in(
    alloc: Global,
    numbers: &Numbers,
    orderings: &[OrderingText],
) -> Result<Vec<(usize, usize)>, AllocError>
    ensures { IfOk result (λ pairs. pairs.items ≡ flat_map (pairs_of numbers.now) orderings.now) }
{
    let mut pairs = Vec::new(alloc);
    for ordering in orderings {
        push_pair(alloc, numbers, &mut pairs, ordering)?;
    }
    Ok(pairs)
}
