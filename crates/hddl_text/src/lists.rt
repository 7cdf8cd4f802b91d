//! Reads typed lists of names and of variables.

ghost use Rattle.std.specs.Prelude.{◌≡◌, ◌≤◌, length, IfOk, OnOk};
ghost use Rattle.hddl_words.specs.Class.{class_of as class};
ghost use Rattle.hddl_words.specs.Reading.{Reads, Leaves, run, until};
ghost use Rattle.hddl_words.specs.Words.{word_of};
ghost use Rattle.hddl_text.specs.Drafts as drafts;
ghost use Rattle.hddl_text.specs.Readers as spec;

use crate::parts::{NameParts, VariableParts, no_name_parts, no_variable_parts};
use crate::words::{is_close, opening};
use hddl_words::{
    Class, Cursor, Items, Name, NameGroup, Stop, Token, Variable, VariableGroup, class_of,
};
use std::alloc::{AllocError, Global};

/// A type's name.
#[tactic(auto, unfolding(crate::specs::Readers::type_name))]
fn type_name(alloc: Global, cursor: &mut Cursor<'_>) -> Result<Name, Stop>
    ensures reads { Reads (spec.type_name cursor.old) result cursor.new }
    ensures shorter { OnOk result (length cursor.new ≤ length cursor.old) }
{
    let word = cursor.next()?;
    match class_of(&word) {
        Class::Name => Ok(Name::new(alloc, &word)?),
        Class::Open | Class::Forall | Class::Reserved => Err(cursor.refuse_unsupported()),
        _ => Err(cursor.refuse()),
    }
}

/// A type for the names before it, if there are any.
fn names_type(alloc: Global, cursor: &mut Cursor<'_>, parts: &mut NameParts) -> Result<(), Stop>
    ensures reads { Leaves (run (spec.names_type parts.old.groups parts.old.names) cursor.old) result parts.new cursor.new }
    ensures shorter { OnOk result (length cursor.new ≤ length cursor.old) }
{
    if parts.names.is_empty() {
        return Err(cursor.refuse());
    }
    let of_type = type_name(alloc, cursor)?;
    let names = std::mem::replace(&mut parts.names, Items::new(alloc));
    parts.groups.push(NameGroup {
        names,
        of_type: Some(of_type),
    })?;
    Ok(())
}

/// A name, or a type for those before it.
fn name_item(
    alloc: Global,
    cursor: &mut Cursor<'_>,
    word: &Token<'_>,
    are_types: bool,
    parts: &mut NameParts,
) -> Result<(), Stop>
    ensures reads { Leaves (run (spec.name_item are_types parts.old (class (word_of word.now)) (word_of word.now)) cursor.old) result parts.new cursor.new }
    ensures shorter { OnOk result (length cursor.new ≤ length cursor.old) }
{
    match class_of(word) {
        Class::Name => {
            let name = Name::new(alloc, word)?;
            parts.names.push(name)?;
            Ok(())
        }
        Class::Minus => names_type(alloc, cursor, parts),
        Class::Open => {
            if are_types {
                Err(cursor.refuse_unsupported())
            } else {
                Err(cursor.refuse())
            }
        }
        Class::Forall | Class::Reserved => Err(cursor.refuse_unsupported()),
        _ => Err(cursor.refuse()),
    }
}

/// Names up to the closing bracket.
#[tactic(auto, using(crate::proofs::Turns::name_turns))]
fn name_parts(alloc: Global, cursor: &mut Cursor<'_>, are_types: bool) -> Result<NameParts, Stop>
    ensures reads { Reads (until (spec.name_item are_types) drafts.no_name_parts cursor.old) result cursor.new }
    ensures shorter { OnOk result (length cursor.new ≤ length cursor.old) }
{
    let mut parts = no_name_parts(alloc);
    'parts: loop {
        let word = cursor.next()?;
        if is_close(&word) {
            return Ok(parts);
        }
        name_item(alloc, cursor, &word, are_types, &mut parts)?;
    }
}

fn grouped_names(parts: NameParts) -> Result<Items<NameGroup>, AllocError>
    ensures { IfOk result (λ groups. groups ≡ drafts.grouped_names parts.groups parts.names) }
{
    let NameParts { mut groups, names } = parts;
    if !names.is_empty() {
        groups.push(NameGroup {
            names,
            of_type: None,
        })?;
    }
    Ok(groups)
}

/// Names in groups up to the closing bracket.
#[tactic(auto, unfolding(crate::specs::Readers::names))]
pub fn names(
    alloc: Global,
    cursor: &mut Cursor<'_>,
    are_types: bool,
) -> Result<Items<NameGroup>, Stop>
    ensures reads { Reads (spec.names are_types cursor.old) result cursor.new }
    ensures shorter { OnOk result (length cursor.new ≤ length cursor.old) }
{
    let parts = name_parts(alloc, cursor, are_types)?;
    Ok(grouped_names(parts)?)
}

/// A type for the variables before it, if there are any.
fn variables_type(
    alloc: Global,
    cursor: &mut Cursor<'_>,
    parts: &mut VariableParts,
) -> Result<(), Stop>
    ensures reads { Leaves (run (spec.variables_type parts.old.groups parts.old.variables) cursor.old) result parts.new cursor.new }
    ensures shorter { OnOk result (length cursor.new ≤ length cursor.old) }
{
    if parts.variables.is_empty() {
        return Err(cursor.refuse());
    }
    let of_type = type_name(alloc, cursor)?;
    let variables = std::mem::replace(&mut parts.variables, Items::new(alloc));
    parts.groups.push(VariableGroup {
        variables,
        of_type: Some(of_type),
    })?;
    Ok(())
}

/// A variable, or a type for those before it.
fn variable_item(
    alloc: Global,
    cursor: &mut Cursor<'_>,
    word: &Token<'_>,
    parts: &mut VariableParts,
) -> Result<(), Stop>
    ensures reads { Leaves (run (spec.variable_item parts.old (class (word_of word.now)) (word_of word.now)) cursor.old) result parts.new cursor.new }
    ensures shorter { OnOk result (length cursor.new ≤ length cursor.old) }
{
    match class_of(word) {
        Class::Variable => {
            let variable = Variable::new(alloc, word)?;
            parts.variables.push(variable)?;
            Ok(())
        }
        Class::Minus => variables_type(alloc, cursor, parts),
        _ => Err(cursor.refuse()),
    }
}

/// Variables up to the closing bracket.
#[tactic(auto, using(crate::proofs::Turns::variable_turns))]
fn variable_parts(alloc: Global, cursor: &mut Cursor<'_>) -> Result<VariableParts, Stop>
    ensures reads { Reads (until spec.variable_item drafts.no_variable_parts cursor.old) result cursor.new }
    ensures shorter { OnOk result (length cursor.new ≤ length cursor.old) }
{
    let mut parts = no_variable_parts(alloc);
    'parts: loop {
        let word = cursor.next()?;
        if is_close(&word) {
            return Ok(parts);
        }
        variable_item(alloc, cursor, &word, &mut parts)?;
    }
}

fn grouped_variables(parts: VariableParts) -> Result<Items<VariableGroup>, AllocError>
    ensures { IfOk result (λ groups. groups ≡ drafts.grouped_variables parts.groups parts.variables) }
{
    let VariableParts {
        mut groups,
        variables,
    } = parts;
    if !variables.is_empty() {
        groups.push(VariableGroup {
            variables,
            of_type: None,
        })?;
    }
    Ok(groups)
}

/// Variables in groups up to the closing bracket.
#[tactic(auto, unfolding(crate::specs::Readers::variables))]
pub fn variables(alloc: Global, cursor: &mut Cursor<'_>) -> Result<Items<VariableGroup>, Stop>
    ensures reads { Reads (spec.variables cursor.old) result cursor.new }
    ensures shorter { OnOk result (length cursor.new ≤ length cursor.old) }
{
    let parts = variable_parts(alloc, cursor)?;
    Ok(grouped_variables(parts)?)
}

/// Variables in brackets.
#[tactic(auto, unfolding(crate::specs::Readers::parameters))]
pub fn parameters(alloc: Global, cursor: &mut Cursor<'_>) -> Result<Items<VariableGroup>, Stop>
    ensures reads { Reads (spec.parameters cursor.old) result cursor.new }
    ensures shorter { OnOk result (length cursor.new ≤ length cursor.old) }
{
    opening(cursor)?;
    variables(alloc, cursor)
}
