//! Notes at the first declarations of names.

ghost use Rattle.std.specs.Prelude.{◌≡◌, ◌++◌, ℕ, List, IfOk, IfSome, OnOk};
ghost use Rattle.std.specs.List.{All};
ghost use Rattle.hddl_meaning.specs.Mentions.{folded, IsIn};
ghost use Rattle.diagnostics.specs.Near.{names_of};
ghost use Rattle.diagnostics.specs.Offers.{name_in, named, offered, offered_by};
ghost use Rattle.pair_messages.specs.declared.firsts.Sort.TheVariants as sort_of;
ghost use Rattle.pair_messages.specs.Firsts.{listed as listed_note, IsFirstNote, IsNoteAt, StandsOn};
ghost use Rattle.pair_messages.specs.Notes.{IsFirst, IsTwin};

use crate::duplicates::is_declared_twice;
use crate::firsts::{Sort, declaration_of, first_at};
use crate::index::PairIndex;
use crate::phrases::{declared_here, declared_with};
use crate::stands::Use;
use crate::texts::{spot_of, word_of};
use crate::twins::first_twin;
use diagnostics::{Note, Part, Remark, is_question};
use hddl_meaning::At;
use hddl_names::fold;
use std::alloc::{AllocError, Global};

/// A note at a place of a pair.
pub(crate) fn note_at<'a>(index: &PairIndex<'a>, at: At, message: Vec<Part<'a>>) -> Note<'a>
    ensures { StandsOn index.now.texts.now at result }
{
    Note {
        spot: spot_of(index.texts, at),
        message,
    }
}

/// A note, if there is one.
pub(crate) fn listed<'a>(alloc: Global, note: Option<Note<'a>>) -> Result<Vec<Note<'a>>, AllocError>
    ensures { IfOk result (λ notes. notes.items ≡ listed_note note.entry) }
{
    let mut notes = Vec::new(alloc);
    if let Some(note) = note {
        notes.push(note)?;
    }
    Ok(notes)
}

/// Adds a name of a text, if a part is one.
fn push_name<'a>(names: &mut Vec<&'a [u8]>, part: &Part<'a>) -> Result<(), AllocError>
    ensures { OnOk result (names_of names.new.items ≡ names_of names.old.items ++ name_in part.now) }
{
    if let Part::Name(name) = part {
        names.push(*name)?;
    }
    Ok(())
}

/// Adds the names of texts in a message.
fn push_named<'a>(names: &mut Vec<&'a [u8]>, parts: &[Part<'a>]) -> Result<(), AllocError>
    ensures { OnOk result (names_of names.new.items ≡ names_of names.old.items ++ named parts.now) }
{
    for part in parts {
        push_name(names, part)?;
    }
    Ok(())
}

/// Adds the names that a message asks for.
fn push_offered<'a>(names: &mut Vec<&'a [u8]>, message: &[Part<'a>]) -> Result<(), AllocError>
    ensures { OnOk result (names_of names.new.items ≡ names_of names.old.items ++ offered_by message.now) }
{
    if is_question(message) {
        push_named(names, message)?;
    }
    Ok(())
}

/// The names that remarks offer.
fn offered_names<'a>(alloc: Global, remarks: &[Remark<'a>]) -> Result<Vec<&'a [u8]>, AllocError>
    ensures { IfOk result (λ names. names_of names.items ≡ offered remarks.now) }
{
    let mut names = Vec::new(alloc);
    for remark in remarks {
        push_offered(&mut names, remark.message.as_slice())?;
    }
    Ok(names)
}

/// What is said where a name is first declared.
fn first_message<'a>(
    alloc: Global,
    index: &PairIndex<'a>,
    sort: Sort,
    text: &[u8],
    at: At,
) -> Result<Vec<Part<'a>>, AllocError> {
    if let Sort::Called(kind) = sort
        && let Some(declaration) = declaration_of(index, kind, text)
    {
        return declared_with(alloc, declaration.name, declaration.parameters);
    }
    declared_here(alloc, word_of(index.texts, at))
}

/// A note at the first declaration of a name.
fn first_note<'a>(
    alloc: Global,
    index: &PairIndex<'a>,
    sort: Sort,
    name: &[u8],
) -> Result<Option<Note<'a>>, AllocError>
    ensures { IfOk result (λ found. IfSome found (IsNoteAt index.now.texts.now (IsFirst index.now.texts.now.domain_tree.now index.now.texts.now.problem_tree.now sort (folded name.now)))) }
{
    let text = fold(alloc, name)?;
    let Some(at) = first_at(index, sort, text.as_slice()) else {
        return Ok(None);
    };
    let message = first_message(alloc, index, sort, text.as_slice(), at)?;
    Ok(Some(note_at(index, at, message)))
}

/// Adds a note at the first declaration of a name.
fn add_first_note<'a>(
    alloc: Global,
    index: &PairIndex<'a>,
    sort: Sort,
    notes: &mut Vec<Note<'a>>,
    name: &[u8],
) -> Result<(), AllocError>
    ensures { OnOk result ((names : List (List ℕ)) → IsIn name.now names → All (IsFirstNote index.now.texts.now sort names) notes.old.items → All (IsFirstNote index.now.texts.now sort names) notes.new.items) }
{
    let found = first_note(alloc, index, sort, name)?;
    if let Some(note) = found {
        notes.push(note)?;
    }
    Ok(())
}

/// Notes at the first declarations of names.
fn first_notes<'a>(
    alloc: Global,
    index: &PairIndex<'a>,
    sort: Sort,
    names: &[&[u8]],
) -> Result<Vec<Note<'a>>, AllocError>
    ensures { IfOk result (λ notes. All (IsFirstNote index.now.texts.now sort (names_of names.now)) notes.items) }
{
    let mut notes = Vec::new(alloc);
    for name in names {
        add_first_note(alloc, index, sort, &mut notes, *name)?;
    }
    Ok(notes)
}

/// Notes at the first declarations of the names that are offered.
pub(crate) fn offered_notes<'a>(
    alloc: Global,
    index: &PairIndex<'a>,
    sort: Sort,
    remarks: &[Remark<'a>],
) -> Result<Vec<Note<'a>>, AllocError>
    ensures { IfOk result (λ notes. All (IsFirstNote index.now.texts.now sort (offered remarks.now)) notes.items) }
{
    let names = offered_names(alloc, remarks)?;
    let notes = first_notes(alloc, index, sort, names.as_slice())?;
    Ok(notes)
}

/// A note at the first declaration of what a use names.
pub(crate) fn use_notes<'a>(
    alloc: Global,
    index: &PairIndex<'a>,
    used: &Use<'a>,
) -> Result<Vec<Note<'a>>, AllocError>
    ensures { IfOk result (λ notes. All (IsNoteAt index.now.texts.now (IsFirst index.now.texts.now.domain_tree.now index.now.texts.now.problem_tree.now (sort_of.Called used.now.kind) (folded used.now.atom.now.name.text))) notes.items) }
{
    let note = first_note(alloc, index, Sort::Called(used.kind), used.atom.name.text())?;
    let notes = listed(alloc, note)?;
    Ok(notes)
}

/// Where the first of the name at a place is, among those that it must differ from.
fn twin_at(alloc: Global, index: &PairIndex<'_>, at: At) -> Result<Option<At>, AllocError>
    ensures { IfOk result (λ found. IfSome found (IsTwin index.now.texts.now at)) }
{
    let word = word_of(index.texts, at);
    let text = fold(alloc, word)?;
    let first = first_twin(alloc, index, at, text.as_slice())?;
    match first {
        Some(place) => Ok(Some(At {
            source: at.source,
            place,
        })),
        None => Ok(None),
    }
}

/// A note where the name at a place stands first.
fn twin_note<'a>(
    alloc: Global,
    index: &PairIndex<'a>,
    at: At,
) -> Result<Option<Note<'a>>, AllocError>
    ensures { IfOk result (λ found. IfSome found (IsNoteAt index.now.texts.now (IsTwin index.now.texts.now at))) }
{
    let found = twin_at(alloc, index, at)?;
    let Some(first) = found else {
        return Ok(None);
    };
    let words = if is_declared_twice(index, at) {
        "first declared here"
    } else {
        "the first one"
    };
    let parts: [Part<'a>; 1] = [Part::Words(words)];
    let message = Vec::from_slice(alloc, &parts)?;
    Ok(Some(note_at(index, first, message)))
}

/// A note where the name at a place stands first, if that is known.
pub(crate) fn twin_notes<'a>(
    alloc: Global,
    index: &PairIndex<'a>,
    at: At,
) -> Result<Vec<Note<'a>>, AllocError>
    ensures { IfOk result (λ notes. All (IsNoteAt index.now.texts.now (IsTwin index.now.texts.now at)) notes.items) }
{
    let note = twin_note(alloc, index, at)?;
    let notes = listed(alloc, note)?;
    Ok(notes)
}
