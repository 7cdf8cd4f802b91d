//! Terms where they are used.
ghost use Rattle.std.specs.Prelude.{◌≡◌, ◌↔◌, List, Some, IfOk, IsTrue, OnOk};
ghost use Rattle.std.specs.List.{position};
ghost use Rattle.hddl_words.specs.declared.term.Term.TheVariants as term;
ghost use Rattle.hddl_meaning.specs.Mentions.{IsIn, Text};
ghost use Rattle.hddl_meaning.specs.Names.{is_same_text, object_names, type_names};
ghost use Rattle.hddl_meaning.specs.Types.{text_or_object, HasType};
ghost use Rattle.hddl_meaning.specs.Items.{MayStand};
ghost use Rattle.hddl_meaning.specs.Uses.{Variable as VariableInForce};
ghost use Rattle.hddl_uses.specs.Contexts.{AnyArgumentFails, ArgumentFails, Fails, IsUnknownObject};
ghost use Rattle.hddl_scope.specs.Findings.{Adds};
ghost use Rattle.hddl_uses.specs.Known.{AreKnown, IsTyped};
ghost use Rattle.hddl_uses.specs.Parts.{Side};

use crate::context::Context;
use hddl_meaning::CheckFault;
use hddl_names::fold;
use hddl_scope::{Declared, Findings, Scope};
use hddl_words::{Name, Term, Variable};
use std::alloc::AllocError;

/// A variable that isn't in force.
fn check_variable(
    context: &Context<'_, '_>,
    scope: &Scope<'_>,
    variable: &Variable,
    found: &mut Findings,
) -> Result<(), AllocError>
    ensures { OnOk result (Adds (λ _. ⊥) (Fails context.now (Side (record { variables = scope.now; term = term.Variable variable.now }))) found.old found.new) }
{
    let text = fold(context.alloc, variable.text())?;
    if scope.get(text.as_slice()).is_some() {
        return Ok(());
    }
    found.push(CheckFault::UnknownName(context.at(variable.place())))?;
    Ok(())
}

/// A constant or object that isn't declared.
fn check_object(
    context: &Context<'_, '_>,
    name: &Name,
    found: &mut Findings,
) -> Result<(), AllocError>
    ensures { OnOk result (Adds (λ _. ⊥) (IsUnknownObject context.now name.now) found.old found.new) }
{
    let text = fold(context.alloc, name.text())?;
    if context
        .vocabulary
        .objects()
        .number_of(text.as_slice())
        .is_some()
    {
        return Ok(());
    }
    found.push(CheckFault::UnknownName(context.at(name.place())))?;
    Ok(())
}

/// A variable that isn't in force, or a constant or object that isn't declared.
pub(crate) fn check_term(
    context: &Context<'_, '_>,
    scope: &Scope<'_>,
    term: &Term,
    found: &mut Findings,
) -> Result<(), AllocError>
    ensures { OnOk result (Adds (λ _. ⊥) (Fails context.now (Side (record { variables = scope.now; term = term.now }))) found.old found.new) }
{
    match term {
        Term::Variable(variable) => check_variable(context, scope, variable, found),
        Term::Object(name) => check_object(context, name, found),
    }
}

/// The number of the type of a variable or a place, if it is declared.
fn type_number(context: &Context<'_, '_>, declared: &Declared<'_>) -> Option<usize>
    ensures { result ≡ position (is_same_text (text_or_object declared.now.typed.of_type)) (type_names context.now.domain.now) }
{
    let types = context.vocabulary.types();
    match declared.of_type() {
        Some(mention) => types.number_of(mention.text()),
        None => types.number_of(b"object"),
    }
}

/// Whether two texts are the same. Most are short, so they are looked through byte by byte.
fn are_same(a: &[u8], b: &[u8]) -> bool
    ensures { IsTrue result → a.now ≡ b.now }
{
    if a.len() != b.len() {
        return false;
    }
    for (index, byte) in a.iter().enumerate() {
        if b[index] != *byte {
            return false;
        }
    }
    true
}

/// Whether the same type is written for two variables or places.
fn have_same_type(a: &Declared<'_>, b: &Declared<'_>) -> bool
    ensures { IsTrue result → text_or_object a.now.typed.of_type ≡ text_or_object b.now.typed.of_type }
{
    match (a.of_type(), b.of_type()) {
        (Some(own), Some(wanted)) => are_same(own.text(), wanted.text()),
        (None, None) => true,
        _ => false,
    }
}

/// Whether a variable can't stand in a place. Not, where one of the types isn't declared.
fn is_barred(
    context: &Context<'_, '_>,
    variable: &Declared<'_>,
    place: &Declared<'_>,
) -> Result<bool, AllocError>
    ensures { IfOk result (λ barred. IsTrue barred ↔ (IsTyped context.now.domain.now variable.now.typed × IsTyped context.now.domain.now place.now.typed
        × (MayStand context.now.domain.now variable.now (text_or_object place.now.typed.of_type) → ⊥))) }
{
    if have_same_type(variable, place) {
        return Ok(false);
    }
    match (type_number(context, variable), type_number(context, place)) {
        (Some(own), Some(wanted)) => {
            let types = context.types;
            let stands = if variable.is_quantified() {
                types.is_below(context.alloc, own, wanted)?
            } else {
                types.share_subtype(context.alloc, own, wanted)?
            };
            Ok(!stands)
        }
        _ => Ok(false),
    }
}

/// Whether the constant or object of a number does not have the type of a place. No, where types aren't declared.
fn lacks_type(
    context: &Context<'_, '_>,
    object: usize,
    place: &Declared<'_>,
) -> Result<bool, AllocError>
    ensures { (text : Text) → position (is_same_text text) (object_names context.now.domain.now context.now.problem.now) ≡ Some object
        → IfOk result (λ lacks. IsTrue lacks ↔ (∥ AreKnown context.now.domain.now context.now.problem.now ∥₁ × IsTyped context.now.domain.now place.now.typed
        × IsIn text (object_names context.now.domain.now context.now.problem.now)
        × (HasType context.now.domain.now context.now.problem.now text (text_or_object place.now.typed.of_type) → ⊥))) }
{
    match (context.objects, type_number(context, place)) {
        (Some(objects), Some(wanted)) => {
            let has = objects.has_type(context.alloc, context.types, wanted, object)?;
            Ok(!has)
        }
        _ => Ok(false),
    }
}

/// A variable that isn't in force, or can't have the type of its place.
fn check_variable_argument(
    context: &Context<'_, '_>,
    scope: &Scope<'_>,
    variable: &Variable,
    place: &Declared<'_>,
    found: &mut Findings,
) -> Result<(), AllocError>
    ensures { OnOk result (Adds (λ _. ⊥) (ArgumentFails context.now scope.now (term.Variable variable.now, place.now)) found.old found.new) }
{
    let text = fold(context.alloc, variable.text())?;
    let Some(declared) = scope.get(text.as_slice()) else {
        found.push(CheckFault::UnknownName(context.at(variable.place())))?;
        return Ok(());
    };
    if is_barred(context, declared, place)? {
        found.push(CheckFault::TypeClash(context.at(variable.place())))?;
        return Ok(());
    }
    Ok(())
}

/// Adds the fault of a constant or object that isn't declared, or does not have the type of its place.
fn check_object_argument(
    context: &Context<'_, '_>,
    name: &Name,
    place: &Declared<'_>,
    found: &mut Findings,
) -> Result<(), AllocError>
    ensures { (variables : List VariableInForce)
        → OnOk result (Adds (λ _. ⊥) (ArgumentFails context.now variables (term.Object name.now, place.now)) found.old found.new) }
{
    let text = fold(context.alloc, name.text())?;
    let Some(object) = context.vocabulary.objects().number_of(text.as_slice()) else {
        found.push(CheckFault::UnknownName(context.at(name.place())))?;
        return Ok(());
    };
    if lacks_type(context, object, place)? {
        found.push(CheckFault::TypeClash(context.at(name.place())))?;
        return Ok(());
    }
    Ok(())
}

/// An argument that isn't known, or can't have the type of its place.
fn check_argument(
    context: &Context<'_, '_>,
    scope: &Scope<'_>,
    argument: &Term,
    place: &Declared<'_>,
    found: &mut Findings,
) -> Result<(), AllocError>
    ensures { OnOk result (Adds (λ _. ⊥) (ArgumentFails context.now scope.now (argument.now, place.now)) found.old found.new) }
{
    match argument {
        Term::Variable(variable) => {
            check_variable_argument(context, scope, variable, place, found)
        }
        Term::Object(name) => check_object_argument(context, name, place, found),
    }
}

/// Faults of arguments: of each whether it is known, and, as far as there are places, whether it can have the type of
/// its place.
pub(crate) fn check_arguments(
    context: &Context<'_, '_>,
    scope: &Scope<'_>,
    arguments: &[Term],
    places: &[Declared<'_>],
    found: &mut Findings,
) -> Result<(), AllocError>
    ensures { OnOk result (Adds (λ _. ⊥) (AnyArgumentFails context.now scope.now arguments.now places.now) found.old found.new) }
{
    for (index, argument) in arguments.iter().enumerate() {
        match places.get(index) {
            Some(place) => check_argument(context, scope, argument, place, found)?,
            None => check_term(context, scope, argument, found)?,
        }
    }
    Ok(())
}
