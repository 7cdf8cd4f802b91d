//! Arguments that can't have the type of their place.

ghost use Rattle.std.specs.Prelude.{◌≡◌, [], IfOk};
ghost use Rattle.diagnostics.specs.Offers.{offered, offered_by};

use crate::firsts::declaration_of;
use crate::fits::fits;
use crate::index::PairIndex;
use crate::phrases::written_type;
use crate::remarks::help;
use crate::stands::Use;
use crate::variables::{Binding, binding_in, bindings_of, places_of};
use diagnostics::{Part, Remark, push_names};
use hddl_names::fold;
use hddl_words::{Name, Term};
use std::alloc::{AllocError, Global};

/// The most declared types of an object that are listed.
const MOST_LISTED: usize = 8;

/// The most arguments among which two are looked for that fit exchanged.
const MOST_EXCHANGED: usize = 32;

/// An argument with the place that it stands in.
#[derive(Clone, Copy, Drop)]
pub(crate) struct Slot<'a> {
    /// What is used.
    name: &'a [u8],
    /// The position of the argument.
    position: usize,
    term: &'a Term,
    /// The type that is written for the place.
    wanted: &'a Option<Name>,
}

/// A number that counts from 1.
pub(crate) fn ordinal<'a>(position: usize) -> Part<'a> {
    Part::Number((position as u64).saturating_add(1))
}

/// The places of what a use names, as its first declaration has them.
fn places_for<'a>(
    alloc: Global,
    index: &PairIndex<'a>,
    used: &Use<'a>,
) -> Result<Vec<Binding<'a>>, AllocError> {
    let text = fold(alloc, used.atom.name.text())?;
    match declaration_of(index, used.kind, text.as_slice()) {
        Some(declaration) => places_of(alloc, declaration.parameters),
        None => Ok(Vec::new(alloc)),
    }
}

/// An argument with its place, if the place is among those that are looked at.
fn slot_in<'a>(used: &Use<'a>, places: &[Binding<'a>], position: usize) -> Option<Slot<'a>> {
    let term = used.atom.terms.as_slice().get(position)?;
    let place = places.get(position)?;
    Some(Slot {
        name: used.atom.name.text(),
        position,
        term,
        wanted: place.of_type,
    })
}

/// An argument with its place.
fn slot_of<'a>(
    alloc: Global,
    index: &PairIndex<'a>,
    used: &Use<'a>,
    position: usize,
) -> Result<Option<Slot<'a>>, AllocError> {
    let places = places_for(alloc, index, used)?;
    Ok(slot_in(used, places.as_slice(), position))
}

/// The variable in force that an argument is.
fn binding_of<'a>(
    alloc: Global,
    used: &Use<'a>,
    term: &Term,
) -> Result<Option<Binding<'a>>, AllocError> {
    let Term::Variable(variable) = term else {
        return Ok(None);
    };
    let bindings = bindings_of(alloc, &used.scope)?;
    Ok(binding_in(bindings.as_slice(), variable.text()))
}

/// The types that an object is declared with.
fn object_types<'a>(
    alloc: Global,
    index: &PairIndex<'a>,
    name: &[u8],
) -> Result<Vec<&'a [u8]>, AllocError> {
    let key = fold(alloc, name)?;
    let mut types = Vec::new(alloc);
    if let Some(object) = index.typed.objects.get(key.as_slice()) {
        for one in object.types.iter().take(MOST_LISTED) {
            types.push(written_type(one))?;
        }
    }
    Ok(types)
}

/// The types that an argument has.
fn types_of<'a>(
    alloc: Global,
    index: &PairIndex<'a>,
    used: &Use<'a>,
    term: &'a Term,
) -> Result<Vec<&'a [u8]>, AllocError> {
    match term {
        Term::Variable(_) => match binding_of(alloc, used, term)? {
            Some(binding) => Vec::from_slice(alloc, &[written_type(binding.of_type)]),
            None => Ok(Vec::new(alloc)),
        },
        Term::Object(name) => object_types(alloc, index, name.text()),
    }
}

/// An argument as it is written.
fn written<'a>(term: &'a Term) -> &'a [u8] {
    match term {
        Term::Variable(variable) => variable.text(),
        Term::Object(name) => name.text(),
    }
}

/// The message for an argument with these types in its place.
fn types_message<'a>(
    alloc: Global,
    slot: Slot<'a>,
    types: &[&'a [u8]],
) -> Result<Vec<Part<'a>>, AllocError> {
    let has = if types.is_empty() {
        " has another type"
    } else {
        " has the type "
    };
    let mut parts = Vec::from_slice(alloc, &[Part::Name(written(slot.term)), Part::Words(has)])?;
    push_names(&mut parts, types, " and ")?;
    let wants = [
        Part::Words(", and place "),
        ordinal(slot.position),
        Part::Words(" of "),
        Part::Name(slot.name),
        Part::Words(" wants "),
        Part::Name(written_type(slot.wanted)),
    ];
    parts.extend_from_slice(&wants)?;
    Ok(parts)
}

/// The message for an argument in its place.
fn slot_message<'a>(
    alloc: Global,
    index: &PairIndex<'a>,
    used: &Use<'a>,
    slot: Slot<'a>,
) -> Result<Vec<Part<'a>>, AllocError> {
    let types = types_of(alloc, index, used, slot.term)?;
    types_message(alloc, slot, types.as_slice())
}

/// The message for an argument that can't have the type of its place.
pub(crate) fn clash_message<'a>(
    alloc: Global,
    index: &PairIndex<'a>,
    used: &Use<'a>,
    position: usize,
) -> Result<Vec<Part<'a>>, AllocError> {
    if let Some(slot) = slot_of(alloc, index, used, position)? {
        return slot_message(alloc, index, used, slot);
    }
    let parts = [
        Part::Words("this argument of "),
        Part::Name(used.atom.name.text()),
        Part::Words(" hasn't the type of its place"),
    ];
    Vec::from_slice(alloc, &parts)
}

/// What stands beside the carets below a variable of one type in a place of another.
fn type_label<'a>(
    alloc: Global,
    binding: Binding<'a>,
    wanted: &'a Option<Name>,
) -> Result<Vec<Part<'a>>, AllocError> {
    if !binding.is_quantified {
        let parts: [Part<'a>; 1] = [Part::Words("no type is below both")];
        return Vec::from_slice(alloc, &parts);
    }
    let parts = [
        Part::Name(written_type(binding.of_type)),
        Part::Words(" isn't below "),
        Part::Name(written_type(wanted)),
    ];
    Vec::from_slice(alloc, &parts)
}

/// What stands beside the carets below an argument that can't have the type of its place.
pub(crate) fn clash_label<'a>(
    alloc: Global,
    index: &PairIndex<'a>,
    used: &Use<'a>,
    position: usize,
) -> Result<Vec<Part<'a>>, AllocError> {
    let Some(slot) = slot_of(alloc, index, used, position)? else {
        return Ok(Vec::new(alloc));
    };
    match binding_of(alloc, used, slot.term)? {
        Some(binding) => type_label(alloc, binding, slot.wanted),
        None => Ok(Vec::new(alloc)),
    }
}

/// Which other argument fits in exchange, if one does.
fn exchanged_in<'a>(
    alloc: Global,
    index: &PairIndex<'a>,
    used: &'a [Term],
    bindings: &[Binding<'a>],
    places: &[Binding<'a>],
    position: usize,
) -> Result<Option<usize>, AllocError> {
    let (Some(term), Some(place)) = (used.get(position), places.get(position)) else {
        return Ok(None);
    };
    let mut other: usize = 0;
    for one in used.iter().take(MOST_EXCHANGED) {
        if let Some(at) = places.get(other)
            && other != position
            && fits(alloc, index, bindings, one, place.of_type)?
            && fits(alloc, index, bindings, term, at.of_type)?
        {
            return Ok(Some(other));
        }
        other = other.saturating_add(1);
    }
    Ok(None)
}

/// Which other argument of a use fits in exchange, if one does.
fn exchanged_with<'a>(
    alloc: Global,
    index: &PairIndex<'a>,
    used: &Use<'a>,
    position: usize,
) -> Result<Option<usize>, AllocError> {
    let places = places_for(alloc, index, used)?;
    let bindings = bindings_of(alloc, &used.scope)?;
    let terms = used.atom.terms.as_slice();
    exchanged_in(
        alloc,
        index,
        terms,
        bindings.as_slice(),
        places.as_slice(),
        position,
    )
}

/// That two arguments fit in exchange.
fn fit_exchanged<'a>(alloc: Global, one: usize, other: usize) -> Result<Vec<Part<'a>>, AllocError>
    ensures { IfOk result (λ parts. offered_by parts.items ≡ []) }
{
    Ok(vec![in alloc;
        Part::Words("arguments "),
        ordinal(one.min(other)),
        Part::Words(" and "),
        ordinal(one.max(other)),
        Part::Words(" fit exchanged"),
    ]?)
}

/// What is remarked of an argument that can't have the type of its place: which other one fits in exchange.
pub(crate) fn clash_remarks<'a>(
    alloc: Global,
    index: &PairIndex<'a>,
    used: &Use<'a>,
    position: usize,
) -> Result<Vec<Remark<'a>>, AllocError>
    ensures { IfOk result (λ remarks. offered remarks.items ≡ []) }
{
    let found = exchanged_with(alloc, index, used, position)?;
    let Some(other) = found else {
        return Ok(Vec::new(alloc));
    };
    let parts = fit_exchanged(alloc, position, other)?;
    let remarks = help(alloc, parts)?;
    Ok(remarks)
}
