//! Notes at the declarations of an argument and of its place.

ghost use Rattle.std.specs.Prelude.{◌≡◌, IfOk, IfSome, Some, option_map, slice_get};
ghost use Rattle.std.specs.List.{All};
ghost use Rattle.hddl_meaning.specs.Items.{variable_mentions};
ghost use Rattle.hddl_meaning.specs.Mentions.{folded};
ghost use Rattle.pair_messages.specs.Firsts.{IsNoteAt};
ghost use Rattle.pair_messages.specs.Notes.{first_place, IsArgument, IsFirstObject, IsInDomain, IsOfArgument, IsParameter};
ghost use Rattle.pair_messages.specs.Stands.{in_force, use_of};

use crate::clashes::ordinal;
use crate::firsts::{declaration_of, first_object};
use crate::index::PairIndex;
use crate::listed::{few_variables, first_in_force};
use crate::notes::{listed, note_at};
use crate::phrases::declared_here;
use crate::stands::{InForce, Use};
use crate::texts::word_of;
use diagnostics::{Note, Part};
use hddl_meaning::{At, Source as Side};
use hddl_names::fold;
use hddl_scope::Mention;
use hddl_words::{Name, Term, Variable};
use std::alloc::{AllocError, Global};

/// Where the first variable in force of a name is declared.
fn variable_at(
    alloc: Global,
    side: Side,
    scope: &InForce<'_>,
    variable: &Variable,
) -> Result<Option<At>, AllocError>
    ensures { IfOk result (λ found. IfSome found (λ at. (at.source ≡ side) × (first_place (variable_mentions (in_force scope.now)) (folded variable.now.text) ≡ Some at.place))) }
{
    let text = fold(alloc, variable.text())?;
    let first = first_in_force(alloc, scope, text.as_slice())?;
    match first {
        Some(place) => Ok(Some(At {
            source: side,
            place,
        })),
        None => Ok(None),
    }
}

/// Where the first constant or object of a name is declared.
fn object_at(alloc: Global, index: &PairIndex<'_>, name: &Name) -> Result<Option<At>, AllocError>
    ensures { IfOk result (λ found. IfSome found (IsFirstObject index.now.texts.now.domain_tree.now index.now.texts.now.problem_tree.now (folded name.now.text))) }
{
    let text = fold(alloc, name.text())?;
    Ok(first_object(index, text.as_slice()))
}

/// Where an argument is first declared.
fn argument_at(
    alloc: Global,
    index: &PairIndex<'_>,
    side: Side,
    scope: &InForce<'_>,
    term: &Term,
) -> Result<Option<At>, AllocError>
    ensures { IfOk result (λ found. IfSome found (IsArgument index.now.texts.now.domain_tree.now index.now.texts.now.problem_tree.now side (in_force scope.now) term.now)) }
{
    match term {
        Term::Variable(variable) => {
            let of_variable = variable_at(alloc, side, scope, variable)?;
            Ok(of_variable)
        }
        Term::Object(name) => {
            let of_object = object_at(alloc, index, name)?;
            Ok(of_object)
        }
    }
}

/// A note at the first declaration of the argument at a position.
fn argument_note<'a>(
    alloc: Global,
    index: &PairIndex<'a>,
    side: Side,
    used: &Use<'a>,
    position: usize,
) -> Result<Option<Note<'a>>, AllocError>
    ensures { IfOk result (λ found. IfSome found (IsNoteAt index.now.texts.now (IsOfArgument index.now.texts.now.domain_tree.now index.now.texts.now.problem_tree.now side used.now.kind (use_of used.now) position))) }
{
    let Some(term) = used.atom.terms.as_slice().get(position) else {
        return Ok(None);
    };
    let found = argument_at(alloc, index, side, &used.scope, term)?;
    let Some(at) = found else {
        return Ok(None);
    };
    let message = declared_here(alloc, word_of(index.texts, at))?;
    Ok(Some(note_at(index, at, message)))
}

/// Where the variable at a position of a list of the domain is.
fn at_position(mentions: &[Mention<'_>], position: usize) -> Option<At>
    ensures { IfSome result (IsInDomain (option_map (λ m. m.place) (slice_get mentions.now position))) }
{
    let Some(mention) = mentions.get(position) else {
        return None;
    };
    Some(At {
        source: Side::Domain,
        place: mention.place(),
    })
}

/// Where the parameter at a position is, in the first declaration of what a use names.
fn parameter_at(
    alloc: Global,
    index: &PairIndex<'_>,
    used: &Use<'_>,
    position: usize,
) -> Result<Option<At>, AllocError>
    ensures { IfOk result (λ found. IfSome found (IsParameter index.now.texts.now.domain_tree.now used.now.kind (folded used.now.atom.now.name.text) position)) }
{
    let text = fold(alloc, used.atom.name.text())?;
    let Some(declaration) = declaration_of(index, used.kind, text.as_slice()) else {
        return Ok(None);
    };
    let few = few_variables(alloc, declaration.parameters)?;
    match few {
        Some(mentions) => Ok(at_position(mentions.as_slice(), position)),
        None => Ok(None),
    }
}

/// What is said where a parameter is declared.
fn parameter_message<'a>(
    alloc: Global,
    name: &'a [u8],
    position: usize,
) -> Result<Vec<Part<'a>>, AllocError> {
    let parts = [
        Part::Words("place "),
        ordinal(position),
        Part::Words(" of "),
        Part::Name(name),
        Part::Words(" is declared here"),
    ];
    Vec::from_slice(alloc, &parts)
}

/// A note at the parameter at a position.
fn parameter_note<'a>(
    alloc: Global,
    index: &PairIndex<'a>,
    side: Side,
    used: &Use<'a>,
    position: usize,
) -> Result<Option<Note<'a>>, AllocError>
    ensures { IfOk result (λ found. IfSome found (IsNoteAt index.now.texts.now (IsOfArgument index.now.texts.now.domain_tree.now index.now.texts.now.problem_tree.now side used.now.kind (use_of used.now) position))) }
{
    let Some(_term) = used.atom.terms.as_slice().get(position) else {
        return Ok(None);
    };
    let found = parameter_at(alloc, index, used, position)?;
    let Some(at) = found else {
        return Ok(None);
    };
    let message = parameter_message(alloc, used.atom.name.text(), position)?;
    Ok(Some(note_at(index, at, message)))
}

/// Notes at the declarations of an argument and of its place.
pub(crate) fn clash_notes<'a>(
    alloc: Global,
    index: &PairIndex<'a>,
    side: Side,
    used: &Use<'a>,
    position: usize,
) -> Result<Vec<Note<'a>>, AllocError>
    ensures { IfOk result (λ notes. All (IsNoteAt index.now.texts.now (IsOfArgument index.now.texts.now.domain_tree.now index.now.texts.now.problem_tree.now side used.now.kind (use_of used.now) position)) notes.items) }
{
    let found = parameter_note(alloc, index, side, used, position)?;
    let Some(parameter) = found else {
        return Ok(Vec::new(alloc));
    };
    let own = argument_note(alloc, index, side, used, position)?;
    let mut notes = listed(alloc, own)?;
    notes.push(parameter)?;
    Ok(notes)
}
