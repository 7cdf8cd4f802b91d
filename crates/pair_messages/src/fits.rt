//! Whether an argument fits a type, as far as a help says it.

use crate::index::PairIndex;
use crate::phrases::written_type;
use crate::variables::{Binding, binding_in};
use crate::walks::is_below;
use hddl_names::fold;
use hddl_words::{Name, Term};
use std::alloc::{AllocError, Global};

/// The most declarations of an object that are looked at.
const MOST_TYPES: usize = 8;

/// Whether a variable in force has a type below another.
fn variable_fits<'a>(
    alloc: Global,
    index: &PairIndex<'a>,
    bindings: &[Binding<'a>],
    text: &[u8],
    of_type: &'a Option<Name>,
) -> Result<bool, AllocError> {
    match binding_in(bindings, text) {
        Some(binding) => is_below(
            alloc,
            index,
            written_type(binding.of_type),
            written_type(of_type),
        ),
        None => Ok(false),
    }
}

/// Whether an object has a type below another.
fn object_fits<'a>(
    alloc: Global,
    index: &PairIndex<'a>,
    text: &[u8],
    of_type: &'a Option<Name>,
) -> Result<bool, AllocError> {
    let key = fold(alloc, text)?;
    let Some(object) = index.typed.objects.get(key.as_slice()) else {
        return Ok(false);
    };
    for one in object.types.iter().take(MOST_TYPES) {
        let one: &'a Option<Name> = one;
        if is_below(alloc, index, written_type(one), written_type(of_type))? {
            return Ok(true);
        }
    }
    Ok(false)
}

/// Whether an argument has a type below another.
pub(crate) fn fits<'a>(
    alloc: Global,
    index: &PairIndex<'a>,
    bindings: &[Binding<'a>],
    term: &Term,
    of_type: &'a Option<Name>,
) -> Result<bool, AllocError> {
    match term {
        Term::Variable(variable) => {
            variable_fits(alloc, index, bindings, variable.text(), of_type)
        }
        Term::Object(name) => object_fits(alloc, index, name.text(), of_type),
    }
}
