//! The declared names that are nearest to one that isn't declared.

ghost use Rattle.std.specs.Prelude.{◌≡◌, ◌++◌, IfOk, OnOk, filter_map, map, slice_get, true};
ghost use Rattle.diagnostics.specs.Near.{names_of};
ghost use Rattle.std.specs.List.{All};
ghost use Rattle.hddl_meaning.specs.Mentions.{folded};
ghost use Rattle.pair_messages.specs.Offers.{declared_of_kind, names_of_kind, nearest_in, IsNearest};

use crate::stands::Kind;
use diagnostics::nearest;
use hddl_names::fold;
use hddl_words::{ActionText, DomainText, PredicateText, TaskText};
use std::alloc::{AllocError, Global};

/// The most work that is spent on near names: the bytes of a word times those of the names that it is compared with,
/// for each fault so far.
const MOST_WORK: usize = 100_000_000;

/// The most faults for which near names are looked for.
const MOST_OFFERED: usize = 200;

/// Whether near names of a word are looked for among names with this many bytes in all, for the fault with this many
/// faults before it. Fewer are looked for where a text has many faults and many names, so that the time stays bounded.
pub(crate) fn may_offer(rank: usize, word: &[u8], names_len: usize) -> bool {
    let work = names_len.saturating_mul(word.len());
    rank < MOST_OFFERED && work.saturating_mul(rank.saturating_add(1)) <= MOST_WORK
}

/// How many bytes some names have in all.
fn total_len(names: &[&[u8]]) -> usize {
    let mut total: usize = 0;
    for name in names {
        total = total.saturating_add(name.len());
    }
    total
}

/// The nearest of some names to a word, three at most, or none where too much would have to be compared.
pub(crate) fn nearest_within<'a>(
    alloc: Global,
    rank: usize,
    word: &[u8],
    names: &[&'a [u8]],
) -> Result<Vec<&'a [u8]>, AllocError>
    ensures { IfOk result (λ near. All (IsNearest word.now (map folded (names_of names.now))) (names_of near.items)) }
{
    if !may_offer(rank, word, total_len(names)) {
        return Ok(Vec::new(alloc));
    }
    let near = nearest_among(alloc, word, names)?;
    Ok(near)
}

/// Some of the names, by their numbers; a number past the end has none.
fn picked<'a>(
    alloc: Global,
    names: &[&'a [u8]],
    numbers: &[usize],
) -> Result<Vec<&'a [u8]>, AllocError>
    ensures { IfOk result (λ found. names_of found.items ≡ filter_map (slice_get (names_of names.now)) numbers.now) }
{
    let mut found = Vec::new(alloc);
    for number in numbers {
        if let Some(name) = names.get(*number) {
            found.push(*name)?;
        }
    }
    Ok(found)
}

/// The nearest of some names to a word, three at most.
pub(crate) fn nearest_among<'a>(
    alloc: Global,
    word: &[u8],
    names: &[&'a [u8]],
) -> Result<Vec<&'a [u8]>, AllocError>
    ensures { IfOk result (λ near. names_of near.items ≡ nearest_in word.now (names_of names.now)) }
{
    let numbers = nearest(alloc, word, names)?;
    let near = picked(alloc, names, numbers.as_slice())?;
    Ok(near)
}

/// Whether a name is this text in lower case.
pub(crate) fn folds_to(alloc: Global, name: &[u8], text: &[u8]) -> Result<bool, AllocError>
    ensures { IfOk result (λ same. same ≡ true → folded name.now ≡ text.now) }
{
    let folded = fold(alloc, name)?;
    Ok(folded.as_slice() == text)
}

/// Adds the names of predicates.
fn push_predicates<'a>(
    names: &mut Vec<&'a [u8]>,
    predicates: &'a [PredicateText],
) -> Result<(), AllocError>
    ensures { OnOk result (names_of names.new.items ≡ names_of names.old.items ++ map (λ x. x.name.text) predicates.now) }
{
    for predicate in predicates {
        names.push(predicate.name.text())?;
    }
    Ok(())
}

/// Adds the names of compound tasks.
fn push_tasks<'a>(names: &mut Vec<&'a [u8]>, tasks: &'a [TaskText]) -> Result<(), AllocError>
    ensures { OnOk result (names_of names.new.items ≡ names_of names.old.items ++ map (λ x. x.name.text) tasks.now) }
{
    for task in tasks {
        names.push(task.name.text())?;
    }
    Ok(())
}

/// Adds the names of actions.
fn push_actions<'a>(names: &mut Vec<&'a [u8]>, actions: &'a [ActionText]) -> Result<(), AllocError>
    ensures { OnOk result (names_of names.new.items ≡ names_of names.old.items ++ map (λ x. x.name.text) actions.now) }
{
    for action in actions {
        names.push(action.name.text())?;
    }
    Ok(())
}

/// What a domain declares of a kind.
fn declared_of<'a>(
    alloc: Global,
    domain: &'a DomainText,
    kind: Kind,
) -> Result<Vec<&'a [u8]>, AllocError>
    ensures { IfOk result (λ names. names_of names.items ≡ names_of_kind domain.now kind) }
{
    let mut names = Vec::new(alloc);
    match kind {
        Kind::Predicate => {
            push_predicates(&mut names, domain.predicates.as_slice())?;
            Ok(names)
        }
        Kind::Compound => {
            push_tasks(&mut names, domain.tasks.as_slice())?;
            Ok(names)
        }
        Kind::Task => {
            push_tasks(&mut names, domain.tasks.as_slice())?;
            push_actions(&mut names, domain.actions.as_slice())?;
            Ok(names)
        }
    }
}

/// The names of a kind that are nearest to a word, as they are written.
pub(crate) fn near_of_kind<'a>(
    alloc: Global,
    domain: &'a DomainText,
    kind: Kind,
    word: &[u8],
) -> Result<Vec<&'a [u8]>, AllocError>
    ensures { IfOk result (λ near. All (IsNearest word.now (declared_of_kind domain.now kind)) (names_of near.items)) }
{
    let names = declared_of(alloc, domain, kind)?;
    let near = nearest_among(alloc, word, names.as_slice())?;
    Ok(near)
}
