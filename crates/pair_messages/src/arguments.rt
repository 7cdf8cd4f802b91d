//! Wrong numbers of arguments.

use crate::firsts::declaration_of;
use crate::index::PairIndex;
use crate::phrases::count_variables;
use crate::stands::Use;
use diagnostics::Part;
use hddl_names::fold;
use std::alloc::{AllocError, Global};

/// How many arguments a use takes: a number, if the declaration is there and is not too long to be counted, and words.
fn taken<'a>(
    alloc: Global,
    index: &PairIndex<'a>,
    used: &Use<'a>,
) -> Result<(Part<'a>, Part<'a>), AllocError> {
    let text = fold(alloc, used.atom.name.text())?;
    let count = match declaration_of(index, used.kind, text.as_slice()) {
        Some(declaration) => count_variables(declaration.parameters),
        None => None,
    };
    match count {
        Some(1) => Ok((Part::Number(1), Part::Words(" argument"))),
        Some(count) => Ok((Part::Number(count as u64), Part::Words(" arguments"))),
        None => Ok((Part::Words("another number of arguments"), Part::Words(""))),
    }
}

/// The message for a use with a wrong number of arguments.
pub(crate) fn arity_message<'a>(
    alloc: Global,
    index: &PairIndex<'a>,
    used: &Use<'a>,
) -> Result<Vec<Part<'a>>, AllocError> {
    let (count, words) = taken(alloc, index, used)?;
    let stand = used.atom.terms.len();
    let here = if stand == 1 {
        " stands here"
    } else {
        " stand here"
    };
    let parts = [
        Part::Name(used.atom.name.text()),
        Part::Words(" takes "),
        count,
        words,
        Part::Words(", and "),
        Part::Number(stand as u64),
        Part::Words(here),
    ];
    Vec::from_slice(alloc, &parts)
}
