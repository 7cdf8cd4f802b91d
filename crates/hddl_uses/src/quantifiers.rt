//! The variables that a `forall` declares.
ghost use Rattle.std.specs.Prelude.{◌≡◌, ◌++◌, List, OnErr, OnOk, length};
ghost use Rattle.hddl_meaning.specs.Items.{variable_mentions};
ghost use Rattle.hddl_meaning.specs.Uses.{Variable, quantified_of};
ghost use Rattle.hddl_scope.specs.Findings.{Adds, AddsAny};
ghost use Rattle.hddl_uses.specs.Contexts.{Fails, PassedInside, PassedOver, RepeatsBefore};
ghost use Rattle.hddl_uses.specs.Parts.{Different, Limited, quantifier_parts};

use crate::context::Context;
use crate::mentions::{check_limit, push_repeats};
use crate::types::check_variable_types;
use hddl_meaning::CheckFault;
use hddl_scope::{Findings, MOST_DECLARATIONS, MOST_PARAMETERS, Scope, variables_in};
use hddl_words::VariableGroup;
use std::alloc::AllocError;

/// Variables in force whose texts stood before: those past the first `start`, and the one that comes first of all.
pub fn check_repeats(
    context: &Context<'_, '_>,
    scope: &Scope<'_>,
    start: usize,
    found: &mut Findings,
) -> Result<(), AllocError>
    ensures { OnOk result (Adds (RepeatsBefore context.now start scope.now) (Fails context.now (Different (variable_mentions scope.now))) found.old found.new) }
{
    let Some(place) = scope.repeat() else {
        return Ok(());
    };
    found.push(CheckFault::Duplicate(context.at(place)))?;
    let places = scope.repeats(context.alloc, start)?;
    push_repeats(context, &places, found)?;
    Ok(())
}

/// The first variable in force past a limit.
pub fn check_count(
    context: &Context<'_, '_>,
    limit: usize,
    scope: &Scope<'_>,
    found: &mut Findings,
) -> Result<(), AllocError>
    ensures { OnOk result (Adds (PassedOver context.now (Limited limit (variable_mentions scope.now))) (Fails context.now (Limited limit (variable_mentions scope.now))) found.old found.new) }
{
    if let Some(place) = scope.first_past(limit) {
        found.push(CheckFault::TooMany(context.at(place)))?;
    }
    Ok(())
}

/// Faults of the variables that a `forall` declares, which are those in force past the first `start`.
fn check_quantifier(
    context: &Context<'_, '_>,
    scope: &Scope<'_>,
    start: usize,
    groups: &[VariableGroup],
    found: &mut Findings,
) -> Result<(), AllocError>
    ensures { (around : List Variable) → scope.now ≡ around ++ quantified_of groups.now → start ≡ length around
        → OnOk result (AddsAny (PassedInside context.now around) (Fails context.now) (quantifier_parts (record { around = around; own = groups.now })) found.old found.new) }
{
    let own = variables_in(context.alloc, groups)?;
    check_repeats(context, scope, start, found)?;
    check_limit(context, MOST_PARAMETERS, &own, found)?;
    check_count(context, MOST_DECLARATIONS, scope, found)?;
    check_variable_types(context, groups, found)?;
    Ok(())
}

/// Puts the variables of a `forall` in force, and looks for faults of theirs. Where memory is refused, none of them is
/// in force.
pub(crate) fn enter<'a>(
    context: &Context<'_, '_>,
    scope: &mut Scope<'a>,
    groups: &'a [VariableGroup],
    found: &mut Findings,
) -> Result<(), AllocError>
    ensures found { OnOk result (AddsAny (PassedInside context.now scope.old) (Fails context.now) (quantifier_parts (record { around = scope.old; own = groups.now })) found.old found.new) }
    ensures ok { OnOk result (scope.new ≡ scope.old ++ quantified_of groups.now) }
    ensures err { OnErr result (scope.new ≡ scope.old) }
{
    let around = scope.len();
    scope.push_quantified(context.alloc, groups)?;
    match check_quantifier(context, scope, around, groups, found) {
        Ok(()) => Ok(()),
        Err(error) => {
            scope.truncate(around);
            Err(error)
        }
    }
}
