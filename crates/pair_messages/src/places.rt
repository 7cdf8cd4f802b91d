//! The notes of each fault.

ghost use Rattle.std.specs.Prelude.{IfOk};
ghost use Rattle.std.specs.List.{All};
ghost use Rattle.hddl_meaning.specs.declared.fault.CheckFault.TheVariants as fault_of;
ghost use Rattle.pair_messages.specs.Notes.{AreNotes, IsNote};
ghost use Rattle.pair_messages.specs.Stands.{StandsAt};

use crate::around::{cycle_notes, section_notes};
use crate::compared::clash_notes;
use crate::firsts::Sort;
use crate::index::PairIndex;
use crate::notes::{offered_notes, twin_notes, use_notes};
use crate::stands::{Stand, Use, stand_of};
use diagnostics::{Note, Remark};
use hddl_meaning::{At, CheckFault};
use hddl_words::Term;
use std::alloc::{AllocError, Global};

/// The notes for a term that isn't declared.
fn term_notes<'a>(
    alloc: Global,
    index: &PairIndex<'a>,
    at: At,
    term: &Term,
    remarks: &[Remark<'a>],
) -> Result<Vec<Note<'a>>, AllocError>
    ensures { IfOk result (λ notes. All (IsNote index.now.texts.now (fault_of.UnknownName at) remarks.now) notes.items) }
{
    match term {
        Term::Variable(_) => {
            let around = section_notes(alloc, index, at)?;
            Ok(around)
        }
        Term::Object(_) => {
            let objects = offered_notes(alloc, index, Sort::Object, remarks)?;
            Ok(objects)
        }
    }
}

/// The notes for an argument of a use that isn't declared.
fn used_notes<'a>(
    alloc: Global,
    index: &PairIndex<'a>,
    at: At,
    used: &Use<'a>,
    position: usize,
    remarks: &[Remark<'a>],
) -> Result<Vec<Note<'a>>, AllocError>
    ensures { IfOk result (λ notes. All (IsNote index.now.texts.now (fault_of.UnknownName at) remarks.now) notes.items) }
{
    let Some(term) = used.atom.terms.as_slice().get(position) else {
        return Ok(Vec::new(alloc));
    };
    let notes = term_notes(alloc, index, at, term, remarks)?;
    Ok(notes)
}

/// The notes for an item that isn't declared.
fn stand_notes<'a>(
    alloc: Global,
    index: &PairIndex<'a>,
    at: At,
    stand: &Stand<'a>,
    remarks: &[Remark<'a>],
) -> Result<Vec<Note<'a>>, AllocError>
    ensures { IfOk result (λ notes. StandsAt index.now.texts.now.domain_tree.now index.now.texts.now.problem_tree.now at stand.now
        → All (IsNote index.now.texts.now (fault_of.UnknownName at) remarks.now) notes.items) }
{
    match stand {
        Stand::Name(used) => {
            let names = offered_notes(alloc, index, Sort::Called(used.kind), remarks)?;
            Ok(names)
        }
        Stand::Argument(used, position) => {
            let of_argument = used_notes(alloc, index, at, used, *position, remarks)?;
            Ok(of_argument)
        }
        Stand::Side(_, term) => {
            let of_side = term_notes(alloc, index, at, *term, remarks)?;
            Ok(of_side)
        }
    }
}

/// The notes for a name that isn't declared.
fn unknown_notes<'a>(
    alloc: Global,
    index: &PairIndex<'a>,
    at: At,
    remarks: &[Remark<'a>],
) -> Result<Vec<Note<'a>>, AllocError>
    ensures { IfOk result (λ notes. All (IsNote index.now.texts.now (fault_of.UnknownName at) remarks.now) notes.items) }
{
    let found = stand_of(alloc, index, at)?;
    let Some(stand) = found else {
        return Ok(Vec::new(alloc));
    };
    let notes = stand_notes(alloc, index, at, &stand, remarks)?;
    Ok(notes)
}

/// The notes for an item that is a use with a wrong number of arguments.
fn named_notes<'a>(
    alloc: Global,
    index: &PairIndex<'a>,
    at: At,
    stand: &Stand<'a>,
    remarks: &[Remark<'a>],
) -> Result<Vec<Note<'a>>, AllocError>
    ensures { IfOk result (λ notes. StandsAt index.now.texts.now.domain_tree.now index.now.texts.now.problem_tree.now at stand.now
        → All (IsNote index.now.texts.now (fault_of.Arity at) remarks.now) notes.items) }
{
    match stand {
        Stand::Name(used) => {
            let named = use_notes(alloc, index, used)?;
            Ok(named)
        }
        _ => Ok(Vec::new(alloc)),
    }
}

/// The notes for a use with a wrong number of arguments.
fn arity_notes<'a>(
    alloc: Global,
    index: &PairIndex<'a>,
    at: At,
    remarks: &[Remark<'a>],
) -> Result<Vec<Note<'a>>, AllocError>
    ensures { IfOk result (λ notes. All (IsNote index.now.texts.now (fault_of.Arity at) remarks.now) notes.items) }
{
    let found = stand_of(alloc, index, at)?;
    let Some(stand) = found else {
        return Ok(Vec::new(alloc));
    };
    let notes = named_notes(alloc, index, at, &stand, remarks)?;
    Ok(notes)
}

/// The notes for an item that is an argument of another type than its place.
fn placed_notes<'a>(
    alloc: Global,
    index: &PairIndex<'a>,
    at: At,
    stand: &Stand<'a>,
    remarks: &[Remark<'a>],
) -> Result<Vec<Note<'a>>, AllocError>
    ensures { IfOk result (λ notes. StandsAt index.now.texts.now.domain_tree.now index.now.texts.now.problem_tree.now at stand.now
        → All (IsNote index.now.texts.now (fault_of.TypeClash at) remarks.now) notes.items) }
{
    match stand {
        Stand::Argument(used, position) => {
            let placed = clash_notes(alloc, index, at.source, used, *position)?;
            Ok(placed)
        }
        _ => Ok(Vec::new(alloc)),
    }
}

/// The notes for an argument that can't have the type of its place.
fn argument_notes<'a>(
    alloc: Global,
    index: &PairIndex<'a>,
    at: At,
    remarks: &[Remark<'a>],
) -> Result<Vec<Note<'a>>, AllocError>
    ensures { IfOk result (λ notes. All (IsNote index.now.texts.now (fault_of.TypeClash at) remarks.now) notes.items) }
{
    let found = stand_of(alloc, index, at)?;
    let Some(stand) = found else {
        return Ok(Vec::new(alloc));
    };
    let notes = placed_notes(alloc, index, at, &stand, remarks)?;
    Ok(notes)
}

/// The notes of a fault, of which this is remarked.
pub(crate) fn notes_of<'a>(
    alloc: Global,
    index: &PairIndex<'a>,
    fault: CheckFault,
    remarks: &[Remark<'a>],
) -> Result<Vec<Note<'a>>, AllocError>
    ensures { IfOk result (λ notes. AreNotes index.now.texts.now fault remarks.now notes.items) }
{
    match fault {
        CheckFault::Duplicate(at) => twin_notes(alloc, index, at),
        CheckFault::UnknownType(_) => offered_notes(alloc, index, Sort::Type, remarks),
        CheckFault::UnknownName(at) => unknown_notes(alloc, index, at, remarks),
        CheckFault::Arity(at) => arity_notes(alloc, index, at, remarks),
        CheckFault::TypeClash(at) => argument_notes(alloc, index, at, remarks),
        CheckFault::OrderCycle(at) => cycle_notes(alloc, index, at),
        _ => Ok(Vec::new(alloc)),
    }
}
