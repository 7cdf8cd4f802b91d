//! The pairs of the orders of networks, and cycles of them.

ghost use Rattle.std.specs.Prelude.{◌≡◌, ℕ, cond, is_some, Some, None, true, IfOk, IfSome, OnOk};
ghost use Rattle.std.specs.List.{All, position};
ghost use Rattle.hddl_words.specs.declared.network.NetworkText.{NetworkText as NetworkTree};
ghost use Rattle.hddl_meaning.specs.Mentions.{IsIn, Text};
ghost use Rattle.hddl_meaning.specs.Networks.{is_text};
ghost use Rattle.hddl_scope.specs.Numbers.{number_at};
ghost use Rattle.pair_messages.specs.Notes.{IsAsked, IsCycle, Leads};
ghost use Rattle.pair_messages.specs.Orders.{AreNumbers};

use crate::cycle::shortest_cycle;
use hddl_names::fold;
use hddl_scope::Numbers;
use hddl_words::{Name, NetworkText, OrderingText, SubtaskText};
use std::alloc::{AllocError, Global};

/// A pair of the order, by positions, with the ordering that asks for it; none where the list does.
#[derive(Clone, Copy, Drop)]
pub(crate) struct Asked<'a> {
    pub(crate) before: usize,
    pub(crate) after: usize,
    pub(crate) ordering: Option<&'a OrderingText>,
}

/// Gives a label its position, if it is the first of its name.
fn number_label(
    alloc: Global,
    numbers: &mut Numbers,
    label: &Option<Name>,
    number: usize,
) -> Result<(), AllocError>
    ensures { OnOk result ((t : Text) → number_at numbers.new t ≡ cond (is_some (number_at numbers.old t)) (number_at numbers.old t) (cond (is_text t label.now) (Some number) None)) }
{
    if let Some(name) = label {
        let text = fold(alloc, name.text())?;
        if numbers.get(text.as_slice()).is_none() {
            numbers.add(alloc, text.as_slice(), number)?;
        }
    }
    Ok(())
}

/// The position of the subtask of each label.
fn label_numbers(alloc: Global, subtasks: &[SubtaskText]) -> Result<Numbers, AllocError>
    ensures { IfOk result (λ numbers. (t : Text) → number_at numbers t ≡ position (λ s. is_text t s.label) subtasks.now) }
{
    let mut numbers = Numbers::with_capacity(alloc, subtasks.len())?;
    for (index, subtask) in subtasks.iter().enumerate() {
        number_label(alloc, &mut numbers, &subtask.label, index)?;
    }
    Ok(numbers)
}

/// The pair of an ordering, if both labels are there.
fn asked_by<'a>(
    alloc: Global,
    numbers: &Numbers,
    ordering: &'a OrderingText,
) -> Result<Option<Asked<'a>>, AllocError>
    ensures { IfOk result (λ found. (n : NetworkTree) → AreNumbers n numbers.now → IsIn ordering.now n.orderings → IfSome found (IsAsked n)) }
{
    let before = fold(alloc, ordering.before.text())?;
    let after = fold(alloc, ordering.after.text())?;
    match (
        numbers.get(before.as_slice()),
        numbers.get(after.as_slice()),
    ) {
        (Some(before), Some(after)) => Ok(Some(Asked {
            before,
            after,
            ordering: Some(ordering),
        })),
        _ => Ok(None),
    }
}

/// Adds the pair of an ordering, if both labels are there.
fn add_asked<'a>(
    alloc: Global,
    numbers: &Numbers,
    pairs: &mut Vec<Asked<'a>>,
    ordering: &'a OrderingText,
) -> Result<(), AllocError>
    ensures { OnOk result ((n : NetworkTree) → AreNumbers n numbers.now → IsIn ordering.now n.orderings → All (IsAsked n) pairs.old.items → All (IsAsked n) pairs.new.items) }
{
    let found = asked_by(alloc, numbers, ordering)?;
    if let Some(pair) = found {
        pairs.push(pair)?;
    }
    Ok(())
}

/// Adds the pairs of `:ordering`.
fn add_written<'a>(
    alloc: Global,
    numbers: &Numbers,
    network: &'a NetworkText,
    pairs: &mut Vec<Asked<'a>>,
) -> Result<(), AllocError>
    ensures { OnOk result (AreNumbers network.now numbers.now → All (IsAsked network.now) pairs.old.items → All (IsAsked network.now) pairs.new.items) }
{
    for ordering in network.orderings.as_slice() {
        add_asked(alloc, numbers, pairs, ordering)?;
    }
    Ok(())
}

/// The pairs of neighbours, where the list is ordered.
fn listed_pairs<'a>(alloc: Global, network: &'a NetworkText) -> Result<Vec<Asked<'a>>, AllocError>
    ensures { IfOk result (λ pairs. All (IsAsked network.now) pairs.items) }
{
    let mut pairs = Vec::new(alloc);
    if network.is_ordered {
        for after in 1..network.subtasks.len() {
            pairs.push(Asked {
                before: after - 1,
                after,
                ordering: None,
            })?;
        }
    }
    Ok(pairs)
}

/// The pairs of an order.
fn pairs_of<'a>(alloc: Global, network: &'a NetworkText) -> Result<Vec<Asked<'a>>, AllocError>
    ensures { IfOk result (λ pairs. All (IsAsked network.now) pairs.items) }
{
    let numbers = label_numbers(alloc, network.subtasks.as_slice())?;
    let mut pairs = listed_pairs(alloc, network)?;
    add_written(alloc, &numbers, network, &mut pairs)?;
    Ok(pairs)
}

/// The pairs by their positions alone.
fn positions_of(alloc: Global, pairs: &[Asked<'_>]) -> Result<Vec<(usize, usize)>, AllocError> {
    let mut positions = Vec::with_capacity(alloc, pairs.len())?;
    for pair in pairs {
        positions.push((pair.before, pair.after))?;
    }
    Ok(positions)
}

/// The numbers of the pairs of a cycle.
fn cycle_in(
    alloc: Global,
    network: &NetworkText,
    pairs: &[Asked<'_>],
) -> Result<Vec<usize>, AllocError> {
    let positions = positions_of(alloc, pairs)?;
    shortest_cycle(alloc, network.subtasks.len(), positions.as_slice())
}

/// Some of the pairs, by their numbers.
fn picked<'a>(
    alloc: Global,
    pairs: &[Asked<'a>],
    numbers: &[usize],
) -> Result<Vec<Asked<'a>>, AllocError>
    ensures { IfOk result (λ found. (n : NetworkTree) → All (IsAsked n) pairs.now → All (IsAsked n) found.items) }
{
    let mut found = Vec::new(alloc);
    for number in numbers {
        if let Some(pair) = pairs.get(*number) {
            found.push(*pair)?;
        }
    }
    Ok(found)
}

/// Where pairs lead from a position, if each begins where the one before it ends.
fn end_of(first: usize, pairs: &[Asked<'_>]) -> Option<usize>
    ensures { IfSome result (Leads first pairs.now) }
{
    let mut last = first;
    for pair in pairs {
        if pair.before != last {
            return None;
        }
        last = pair.after;
    }
    Some(last)
}

/// Whether pairs lead from a position back to it.
fn is_closed(pairs: &[Asked<'_>]) -> bool
    ensures { result ≡ true → (first : ℕ) × Leads first pairs.now first }
{
    let Some(first) = pairs.first() else {
        return false;
    };
    match end_of(first.before, pairs) {
        Some(last) => last == first.before,
        None => false,
    }
}

/// The pairs, if they are a cycle, which they are as they were found; else none.
fn checked<'a>(alloc: Global, pairs: Vec<Asked<'a>>) -> Vec<Asked<'a>>
    ensures { (n : NetworkTree) → All (IsAsked n) pairs.entry.items → IsCycle n result.items }
{
    if is_closed(pairs.as_slice()) {
        return pairs;
    }
    Vec::new(alloc)
}

/// The pairs of a cycle of an order.
pub(crate) fn cycle_of<'a>(
    alloc: Global,
    network: &'a NetworkText,
) -> Result<Vec<Asked<'a>>, AllocError>
    ensures { IfOk result (λ cycle. IsCycle network.now cycle.items) }
{
    let pairs = pairs_of(alloc, network)?;
    let cycle = cycle_in(alloc, network, pairs.as_slice())?;
    let found = picked(alloc, pairs.as_slice(), cycle.as_slice())?;
    Ok(checked(alloc, found))
}
