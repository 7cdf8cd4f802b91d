//! The message of each fault, and what stands beside its carets.

use crate::arguments::arity_message;
use crate::clashes::{clash_label, clash_message};
use crate::duplicates::{twice_label, twice_message};
use crate::index::PairIndex;
use crate::limits::limit_message;
use crate::names::name_message;
use crate::objects::{object_message, variable_message};
use crate::orders::{order_label, order_message, subtask_message};
use crate::stands::{InForce, Stand, stand_of};
use crate::texts::word_of;
use crate::types::{cycle_label, cycle_message, type_message};
use diagnostics::Part;
use hddl_meaning::{At, CheckFault};
use hddl_words::Term;
use std::alloc::{AllocError, Global};

/// A message of two parts.
fn short_message<'a>(
    alloc: Global,
    words: &'a str,
    word: &'a [u8],
) -> Result<Vec<Part<'a>>, AllocError> {
    Vec::from_slice(alloc, &[Part::Words(words), Part::Name(word)])
}

/// The message for a term that isn't declared.
fn term_message<'a>(
    alloc: Global,
    scope: &InForce<'a>,
    term: &'a Term,
) -> Result<Vec<Part<'a>>, AllocError> {
    match term {
        Term::Variable(variable) => variable_message(alloc, scope.section, variable.text()),
        Term::Object(name) => object_message(alloc, name.text()),
    }
}

/// The message for an item that isn't declared.
fn stand_message<'a>(
    alloc: Global,
    stand: &Stand<'a>,
    word: &'a [u8],
) -> Result<Vec<Part<'a>>, AllocError> {
    match stand {
        Stand::Name(used) => name_message(alloc, used.kind, used.atom.name.text()),
        Stand::Argument(used, position) => match used.atom.terms.as_slice().get(*position) {
            Some(term) => term_message(alloc, &used.scope, term),
            None => short_message(alloc, "nothing is named ", word),
        },
        Stand::Side(scope, term) => term_message(alloc, scope, term),
    }
}

/// The message for a name that isn't declared.
fn unknown_message<'a>(
    alloc: Global,
    index: &PairIndex<'a>,
    at: At,
) -> Result<Vec<Part<'a>>, AllocError> {
    let word = word_of(index.texts, at);
    match &stand_of(alloc, index, at)? {
        Some(stand) => stand_message(alloc, stand, word),
        None => short_message(alloc, "nothing is named ", word),
    }
}

/// The message for a use with a wrong number of arguments.
fn number_message<'a>(
    alloc: Global,
    index: &PairIndex<'a>,
    at: At,
) -> Result<Vec<Part<'a>>, AllocError> {
    match &stand_of(alloc, index, at)? {
        Some(Stand::Name(used)) => arity_message(alloc, index, used),
        _ => {
            let word = word_of(index.texts, at);
            short_message(alloc, "a wrong number of arguments of ", word)
        }
    }
}

/// The message for an argument that can't have the type of its place.
fn argument_message<'a>(
    alloc: Global,
    index: &PairIndex<'a>,
    at: At,
) -> Result<Vec<Part<'a>>, AllocError> {
    match &stand_of(alloc, index, at)? {
        Some(Stand::Argument(used, position)) => clash_message(alloc, index, used, *position),
        _ => {
            let word = word_of(index.texts, at);
            short_message(alloc, "another type is wanted than that of ", word)
        }
    }
}

/// The message of a fault.
pub(crate) fn message_of<'a>(
    alloc: Global,
    index: &PairIndex<'a>,
    fault: CheckFault,
) -> Result<Vec<Part<'a>>, AllocError> {
    match fault {
        CheckFault::Duplicate(at) => twice_message(alloc, index, at),
        CheckFault::UnknownType(at) => type_message(alloc, word_of(index.texts, at)),
        CheckFault::TypeCycle(at) => cycle_message(alloc, word_of(index.texts, at)),
        CheckFault::UnknownName(at) => unknown_message(alloc, index, at),
        CheckFault::Arity(at) => number_message(alloc, index, at),
        CheckFault::TypeClash(at) => argument_message(alloc, index, at),
        CheckFault::OrderCycle(at) => order_message(alloc, index, at),
        CheckFault::UnknownSubtask(at) => subtask_message(alloc, index, at),
        CheckFault::TooMany(at) => limit_message(alloc, index, at),
        CheckFault::OutOfMemory => {
            let parts: [Part<'a>; 1] = [Part::Words("memory was refused")];
            Vec::from_slice(alloc, &parts)
        }
    }
}

/// What stands beside the carets below an argument that can't have the type of its place.
fn argument_label<'a>(
    alloc: Global,
    index: &PairIndex<'a>,
    at: At,
) -> Result<Vec<Part<'a>>, AllocError> {
    match &stand_of(alloc, index, at)? {
        Some(Stand::Argument(used, position)) => clash_label(alloc, index, used, *position),
        _ => Ok(Vec::new(alloc)),
    }
}

/// What stands beside the carets below a fault.
pub(crate) fn label_of<'a>(
    alloc: Global,
    index: &PairIndex<'a>,
    rank: usize,
    fault: CheckFault,
) -> Result<Vec<Part<'a>>, AllocError> {
    match fault {
        CheckFault::Duplicate(at) => twice_label(alloc, index, at),
        CheckFault::TypeCycle(at) => cycle_label(alloc, index, rank, word_of(index.texts, at)),
        CheckFault::TypeClash(at) => argument_label(alloc, index, at),
        CheckFault::OrderCycle(at) => order_label(alloc, index, at),
        _ => Ok(Vec::new(alloc)),
    }
}
