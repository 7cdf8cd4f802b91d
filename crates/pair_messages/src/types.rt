//! Types that aren't declared, and types that are below themselves.

ghost use Rattle.std.specs.Prelude.{◌≡◌, List, [], IfOk, OnOk, false};
ghost use Rattle.std.specs.List.{All};
ghost use Rattle.hddl_meaning.specs.Mentions.{IsIn, Text};
ghost use Rattle.hddl_meaning.specs.Names.{type_names};
ghost use Rattle.diagnostics.specs.Near.{names_of};
ghost use Rattle.diagnostics.specs.Offers.{begins_question, offered, offered_by};
ghost use Rattle.pair_messages.specs.Offers.{AreNearest, AreWritten, IsNearest};

use crate::index::PairIndex;
use crate::known::texts_in;
use crate::near::{folds_to, may_offer, nearest_among};
use crate::phrases::plain;
use crate::remarks::{ask, help};
use crate::walks::cycle_through;
use diagnostics::{Part, Remark, push_names};
use std::alloc::{AllocError, Global};

/// The most types that are listed.
const MOST_LISTED: usize = 8;

/// The types that are nearest to a word, in lower case; `object` comes after the others.
fn near_types<'i>(
    alloc: Global,
    index: &'i PairIndex<'_>,
    word: &[u8],
) -> Result<Vec<&'i [u8]>, AllocError>
    ensures { IfOk result (λ near. AreNearest word.now (type_names index.now.texts.now.domain_tree.now) (names_of near.items)) }
{
    let names = texts_in(alloc, &index.known.types)?;
    let near = nearest_among(alloc, word, names.as_slice())?;
    Ok(near)
}

/// Adds a type as it is written where it is named first, and `object` where it isn't. Nothing where that is another text.
fn push_type<'a>(
    alloc: Global,
    index: &PairIndex<'a>,
    names: &mut Vec<&'a [u8]>,
    text: &[u8],
) -> Result<(), AllocError>
    ensures { OnOk result ((all : List Text) → IsIn text.now all → AreWritten all (names_of names.old.items) → AreWritten all (names_of names.new.items)) }
{
    let name: &'a [u8] = match index.typed.types.get(text) {
        Some(known) => known.name.text(),
        None => b"object",
    };
    let is_same = folds_to(alloc, name, text)?;
    if !is_same {
        return Ok(());
    }
    names.push(name)?;
    Ok(())
}

/// Types as they are written.
fn written_types<'a>(
    alloc: Global,
    index: &PairIndex<'a>,
    near: &[&[u8]],
) -> Result<Vec<&'a [u8]>, AllocError>
    ensures { IfOk result (λ names. AreWritten (names_of near.now) (names_of names.items)) }
{
    let mut names: Vec<&'a [u8]> = Vec::new(alloc);
    for text in near {
        push_type(alloc, index, &mut names, *text)?;
    }
    Ok(names)
}

/// A question for types in lower case.
fn ask_types<'a>(
    alloc: Global,
    index: &PairIndex<'a>,
    near: &[&[u8]],
) -> Result<Vec<Remark<'a>>, AllocError>
    ensures { IfOk result (λ remarks. AreWritten (names_of near.now) (offered remarks.items)) }
{
    let names = written_types(alloc, index, near)?;
    let remarks = ask(alloc, names.as_slice())?;
    Ok(remarks)
}

/// The words before a list of types.
fn type_words<'a>(count: usize) -> &'a str
    ensures { begins_question result.now ≡ false }
{
    if count == 1 {
        "the type is "
    } else {
        "the types are "
    }
}

/// A list of types.
fn types_listed<'a>(alloc: Global, names: &[&'a [u8]]) -> Result<Vec<Part<'a>>, AllocError>
    ensures { IfOk result (λ parts. offered_by parts.items ≡ []) }
{
    let mut parts = vec![in alloc; Part::Words(type_words(names.len()))]?;
    push_names(&mut parts, names, " and ")?;
    Ok(parts)
}

/// All types as they are written where they are named first.
fn all_types<'a>(alloc: Global, index: &PairIndex<'a>) -> Result<Vec<&'a [u8]>, AllocError> {
    let mut names = Vec::new(alloc);
    for known in index.typed.types.values() {
        names.push(known.name.text())?;
    }
    Ok(names)
}

/// All types, if there are eight at most.
fn few_types<'a>(alloc: Global, index: &PairIndex<'a>) -> Result<Vec<Remark<'a>>, AllocError>
    ensures { IfOk result (λ remarks. offered remarks.items ≡ []) }
{
    let count = index.typed.types.len();
    if count == 0 || count > MOST_LISTED {
        return Ok(Vec::new(alloc));
    }
    let names = all_types(alloc, index)?;
    let list = types_listed(alloc, names.as_slice())?;
    let remarks = help(alloc, list)?;
    Ok(remarks)
}

/// The message for a type that isn't declared.
pub(crate) fn type_message<'a>(alloc: Global, word: &'a [u8]) -> Result<Vec<Part<'a>>, AllocError> {
    Vec::from_slice(alloc, &[Part::Words("no type is named "), Part::Name(word)])
}

/// What is remarked of a type that isn't declared: the nearest types, or all.
pub(crate) fn type_remarks<'a>(
    alloc: Global,
    index: &PairIndex<'a>,
    rank: usize,
    word: &[u8],
) -> Result<Vec<Remark<'a>>, AllocError>
    ensures { IfOk result (λ remarks. All (IsNearest word.now (type_names index.now.texts.now.domain_tree.now)) (offered remarks.items)) }
{
    if !may_offer(rank, word, index.names_len) {
        return Ok(Vec::new(alloc));
    }
    let near = near_types(alloc, index, word)?;
    if near.is_empty() {
        let remarks = few_types(alloc, index)?;
        return Ok(remarks);
    }
    let remarks = ask_types(alloc, index, near.as_slice())?;
    Ok(remarks)
}

/// The message for a type that is below itself.
pub(crate) fn cycle_message<'a>(
    alloc: Global,
    word: &'a [u8],
) -> Result<Vec<Part<'a>>, AllocError> {
    let parts = [
        Part::Words("the type "),
        Part::Name(word),
        Part::Words(" is below itself"),
    ];
    Vec::from_slice(alloc, &parts)
}

/// The types of a cycle, from the type of this name up to itself.
fn way_label<'a>(
    alloc: Global,
    word: &'a [u8],
    way: &[&'a [u8]],
) -> Result<Vec<Part<'a>>, AllocError> {
    let mut label = Vec::new(alloc);
    for name in way.iter().rev() {
        label.extend_from_slice(&[plain(name), Part::Words(" - ")])?;
    }
    if !way.is_empty() {
        label.push(plain(word))?;
    }
    Ok(label)
}

/// What stands beside the carets below a type that is below itself: its cycle, for the first faults.
pub(crate) fn cycle_label<'a>(
    alloc: Global,
    index: &PairIndex<'a>,
    rank: usize,
    word: &'a [u8],
) -> Result<Vec<Part<'a>>, AllocError> {
    if !may_offer(rank, word, 0) {
        return Ok(Vec::new(alloc));
    }
    let way = cycle_through(alloc, index, word)?;
    way_label(alloc, word, way.as_slice())
}
