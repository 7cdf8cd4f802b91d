//! Conditions: the atoms and equalities that they use, and the variables that they declare.
ghost use Rattle.std.specs.Prelude.{◌≡◌, OnOk};
ghost use Rattle.hddl_scope.specs.Findings.{AddsAny};
ghost use Rattle.hddl_uses.specs.Contexts.{Fails, PassedInside};
ghost use Rattle.hddl_uses.specs.Parts.{conditions_parts};
ghost use Rattle.hddl_uses.specs.Conditions.{condition_parts};

use crate::context::Context;
use crate::quantifiers::enter;
use crate::uses::{check_atom, check_equality};
use hddl_scope::{Findings, Scope};
use hddl_words::Condition;
use std::alloc::AllocError;

/// Faults of a condition. The variables in force afterwards are those before.
fn check_condition<'a>(
    context: &Context<'_, '_>,
    scope: &mut Scope<'a>,
    condition: &'a Condition,
    found: &mut Findings,
) -> Result<(), AllocError>
    ensures found { OnOk result (AddsAny (PassedInside context.now scope.old) (Fails context.now) (condition_parts scope.old condition.now) found.old found.new) }
    ensures kept { scope.new ≡ scope.old }
{
    match condition {
        Condition::Literal(literal) => check_atom(context, scope, &literal.atom, found),
        Condition::Equality(equality) => check_equality(context, scope, equality, found),
        Condition::Forall(groups, body) => {
            let around = scope.len();
            enter(context, scope, groups.as_slice(), found)?;
            for part in body.as_slice() {
                match check_condition(context, scope, part, found) {
                    Ok(()) => {}
                    Err(error) => {
                        scope.truncate(around);
                        return Err(error);
                    }
                }
            }
            scope.truncate(around);
            Ok(())
        }
    }
}

/// Faults of conditions. The variables in force afterwards are those before.
pub fn check_conditions<'a>(
    context: &Context<'_, '_>,
    scope: &mut Scope<'a>,
    conditions: &'a [Condition],
    found: &mut Findings,
) -> Result<(), AllocError>
    ensures found { OnOk result (AddsAny (PassedInside context.now scope.old) (Fails context.now) (conditions_parts scope.old conditions.now) found.old found.new) }
    ensures kept { scope.new ≡ scope.old }
{
    for condition in conditions {
        check_condition(context, scope, condition, found)?;
    }
    Ok(())
}
