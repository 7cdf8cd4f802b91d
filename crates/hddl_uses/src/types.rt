//! Types that are named.
ghost use Rattle.std.specs.Prelude.{◌↔◌, IfOk, IsTrue, OnOk, map};
ghost use Rattle.hddl_meaning.specs.Items.{IsDeclaredType};
ghost use Rattle.hddl_meaning.specs.Mentions.{folded, typed_names, typed_variables};
ghost use Rattle.hddl_meaning.specs.Names.{optional_mention};
ghost use Rattle.hddl_scope.specs.Findings.{AddsAny};
ghost use Rattle.hddl_uses.specs.Contexts.{Fails, PassedOver};
ghost use Rattle.hddl_uses.specs.Parts.{TypeName, type_parts, name_group_parts, variable_group_parts};

use crate::context::Context;
use hddl_meaning::CheckFault;
use hddl_names::fold;
use hddl_scope::Findings;
use hddl_words::{Name, NameGroup, VariableGroup};
use std::alloc::AllocError;

/// Whether `:types` names the type, or it is `object`.
fn is_declared(context: &Context<'_, '_>, name: &Name) -> Result<bool, AllocError>
    ensures { IfOk result (λ b. IsTrue b ↔ IsDeclaredType context.now.domain.now (folded name.now.text)) }
{
    let text = fold(context.alloc, name.text())?;
    let types = context.vocabulary.types();
    Ok(types.number_of(text.as_slice()).is_some())
}

/// A type that isn't declared.
fn check_type(
    context: &Context<'_, '_>,
    of_type: &Option<Name>,
    found: &mut Findings,
) -> Result<(), AllocError>
    ensures { OnOk result (AddsAny (PassedOver context.now) (Fails context.now) (map TypeName (optional_mention of_type.now)) found.old found.new) }
{
    let Some(name) = of_type else {
        return Ok(());
    };
    if is_declared(context, name)? {
        return Ok(());
    }
    found.push(CheckFault::UnknownType(context.at(name.place())))?;
    Ok(())
}

fn check_variable_group(
    context: &Context<'_, '_>,
    group: &VariableGroup,
    found: &mut Findings,
) -> Result<(), AllocError>
    ensures { OnOk result (AddsAny (PassedOver context.now) (Fails context.now) (variable_group_parts group.now) found.old found.new) }
{
    if group.variables.is_empty() {
        return Ok(());
    }
    check_type(context, &group.of_type, found)?;
    Ok(())
}

fn check_name_group(
    context: &Context<'_, '_>,
    group: &NameGroup,
    found: &mut Findings,
) -> Result<(), AllocError>
    ensures { OnOk result (AddsAny (PassedOver context.now) (Fails context.now) (name_group_parts group.now) found.old found.new) }
{
    if group.names.is_empty() {
        return Ok(());
    }
    check_type(context, &group.of_type, found)?;
    Ok(())
}

/// Types of parameters or variables that aren't declared.
pub fn check_variable_types(
    context: &Context<'_, '_>,
    groups: &[VariableGroup],
    found: &mut Findings,
) -> Result<(), AllocError>
    ensures { OnOk result (AddsAny (PassedOver context.now) (Fails context.now) (type_parts (typed_variables groups.now)) found.old found.new) }
{
    for group in groups {
        check_variable_group(context, group, found)?;
    }
    Ok(())
}

/// Types of constants or objects that aren't declared.
pub fn check_name_types(
    context: &Context<'_, '_>,
    groups: &[NameGroup],
    found: &mut Findings,
) -> Result<(), AllocError>
    ensures { OnOk result (AddsAny (PassedOver context.now) (Fails context.now) (type_parts (typed_names groups.now)) found.old found.new) }
{
    for group in groups {
        check_name_group(context, group, found)?;
    }
    Ok(())
}
