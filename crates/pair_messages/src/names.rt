//! Predicates, tasks and actions that aren't declared.

ghost use Rattle.std.specs.Prelude.{◌≡◌, [], IfOk, IfSome};
ghost use Rattle.std.specs.List.{All};
ghost use Rattle.diagnostics.specs.Near.{names_of};
ghost use Rattle.diagnostics.specs.Offers.{offered, offered_by};
ghost use Rattle.pair_messages.specs.Offers.{declared_of_kind, IsNearest};

use crate::firsts::first_method;
use crate::index::PairIndex;
use crate::near::{may_offer, near_of_kind};
use crate::phrases::plain;
use crate::remarks::{ask, help};
use crate::stands::Kind;
use diagnostics::{Part, Remark};
use hddl_names::fold;
use hddl_words::MethodText;
use std::alloc::{AllocError, Global};

/// The message for a name of a kind that isn't declared.
pub(crate) fn name_message<'a>(
    alloc: Global,
    kind: Kind,
    word: &'a [u8],
) -> Result<Vec<Part<'a>>, AllocError> {
    let words = match kind {
        Kind::Predicate => "no predicate is named ",
        Kind::Compound => "no compound task is named ",
        Kind::Task => "no task or action is named ",
    };
    Vec::from_slice(alloc, &[Part::Words(words), Part::Name(word)])
}

/// What a word is instead of a predicate.
fn no_predicate<'a>(index: &PairIndex<'a>, text: &[u8]) -> Option<&'a str> {
    if index.first_called.tasks.get(text).is_some() {
        return Some(" is a task");
    }
    if index.first_called.actions.get(text).is_some() {
        return Some(" is an action");
    }
    None
}

/// What a word is instead of a thing of a kind.
fn other_words<'a>(index: &PairIndex<'a>, kind: Kind, text: &[u8]) -> Option<&'a str> {
    match kind {
        Kind::Predicate => no_predicate(index, text),
        Kind::Compound if index.first_called.actions.get(text).is_some() => {
            Some(" is an action, and only compound tasks are decomposed")
        }
        Kind::Task if index.first_called.predicates.get(text).is_some() => Some(" is a predicate"),
        _ => None,
    }
}

/// The method that a word names in place of a task.
fn method_meant<'a>(index: &PairIndex<'a>, kind: Kind, text: &[u8]) -> Option<&'a MethodText> {
    match kind {
        Kind::Predicate => None,
        Kind::Compound if index.first_called.actions.get(text).is_some() => None,
        _ => first_method(index, text),
    }
}

/// That a word is something else.
fn is_other<'a>(alloc: Global, word: &'a [u8], is: &'a str) -> Result<Vec<Part<'a>>, AllocError>
    ensures { IfOk result (λ parts. offered_by parts.items ≡ []) }
{
    let parts = vec![in alloc; Part::Name(word), Part::Words(is)]?;
    Ok(parts)
}

/// That a word is a method of a task.
fn is_method<'a>(alloc: Global, word: &'a [u8], task: &'a [u8]) -> Result<Vec<Part<'a>>, AllocError>
    ensures { IfOk result (λ parts. offered_by parts.items ≡ []) }
{
    let parts = vec![in alloc;
        Part::Name(word),
        Part::Words(" is a method: write its task, "),
        Part::Name(task),
    ]?;
    Ok(parts)
}

/// What a word names in place of a thing of the kind that is required there.
fn other_kind<'a>(
    alloc: Global,
    index: &PairIndex<'a>,
    kind: Kind,
    word: &'a [u8],
) -> Result<Option<Vec<Part<'a>>>, AllocError>
    ensures { IfOk result (λ parts. IfSome parts (λ parts. offered_by parts.items ≡ [])) }
{
    let text = fold(alloc, word)?;
    if let Some(method) = method_meant(index, kind, text.as_slice()) {
        let parts = is_method(alloc, word, method.task.name.text())?;
        return Ok(Some(parts));
    }
    match other_words(index, kind, text.as_slice()) {
        Some(is) => {
            let parts = is_other(alloc, word, is)?;
            Ok(Some(parts))
        }
        None => Ok(None),
    }
}

/// Where a name of a kind is declared.
fn declare_it<'a>(alloc: Global, kind: Kind, word: &'a [u8]) -> Result<Vec<Part<'a>>, AllocError>
    ensures { IfOk result (λ parts. offered_by parts.items ≡ []) }
{
    if kind == Kind::Predicate {
        return Ok(vec![in alloc; Part::Words("declare it in `:predicates`")]?);
    }
    Ok(vec![in alloc;
        Part::Words("declare it by `(:task "),
        plain(word),
        Part::Words(" ..)`"),
    ]?)
}

/// A question for the nearest names of a kind, or where such a name is declared.
fn near_remarks<'a>(
    alloc: Global,
    index: &PairIndex<'a>,
    kind: Kind,
    word: &'a [u8],
) -> Result<Vec<Remark<'a>>, AllocError>
    ensures { IfOk result (λ remarks. All (IsNearest word.now (declared_of_kind index.now.texts.now.domain_tree.now kind)) (offered remarks.items)) }
{
    let near = near_of_kind(alloc, index.texts.domain_tree, kind, word)?;
    if near.is_empty() {
        let how = declare_it(alloc, kind, word)?;
        let remarks = help(alloc, how)?;
        return Ok(remarks);
    }
    let remarks = ask(alloc, near.as_slice())?;
    Ok(remarks)
}

/// What is remarked of a name of a predicate, a task or an action that isn't declared. The rank is the number of faults
/// before it.
pub(crate) fn name_remarks<'a>(
    alloc: Global,
    index: &PairIndex<'a>,
    rank: usize,
    kind: Kind,
    word: &'a [u8],
) -> Result<Vec<Remark<'a>>, AllocError>
    ensures { IfOk result (λ remarks. All (IsNearest word.now (declared_of_kind index.now.texts.now.domain_tree.now kind)) (offered remarks.items)) }
{
    let found = other_kind(alloc, index, kind, word)?;
    if let Some(other) = found {
        let remarks = help(alloc, other)?;
        return Ok(remarks);
    }
    if !may_offer(rank, word, index.names_len) {
        return Ok(Vec::new(alloc));
    }
    let remarks = near_remarks(alloc, index, kind, word)?;
    Ok(remarks)
}
