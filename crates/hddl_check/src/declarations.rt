//! Declarations of predicates, tasks, methods and actions.
ghost use Rattle.std.specs.Prelude.{◌≡◌, ◌++◌, OnOk, map};
ghost use Rattle.std.specs.List.{flat_map};
ghost use Rattle.hddl_uses.specs.Contexts.{Fails, PassedOver};
ghost use Rattle.hddl_uses.specs.Parts.{Different, Limited};
ghost use Rattle.hddl_meaning.specs.Items.{most_declarations};
ghost use Rattle.hddl_meaning.specs.Mentions.{mention_of};
ghost use Rattle.hddl_scope.specs.Findings.{Adds, AddsAny};
ghost use Rattle.hddl_check.specs.TextParts.{name_parts, predicate_parts, task_name_parts, task_parts};

use hddl_scope::{Findings, MOST_DECLARATIONS, MOST_PARAMETERS, Mention, task_names, variables_in};
use hddl_uses::{Context, check_different, check_limit, check_variable_types};
use hddl_words::{DomainText, PredicateText, TaskText};
use std::alloc::AllocError;

/// Faults of the names of declarations of one kind.
pub(crate) fn check_names(
    context: &Context<'_, '_>,
    mentions: &[Mention<'_>],
    found: &mut Findings,
) -> Result<(), AllocError>
    ensures { OnOk result (AddsAny (PassedOver context.now) (Fails context.now) (name_parts mentions.now) found.old found.new) }
{
    check_different(context, mentions, found)?;
    check_limit(context, MOST_DECLARATIONS, mentions, found)?;
    Ok(())
}

/// Faults of the names of compound tasks and actions together.
fn check_all_task_names(
    context: &Context<'_, '_>,
    domain: &DomainText,
    found: &mut Findings,
) -> Result<(), AllocError>
    ensures { OnOk result (Adds (PassedOver context.now (Different (map (λ x. mention_of x.name) domain.now.tasks ++ map (λ x. mention_of x.name) domain.now.actions)))
        (Fails context.now (Different (map (λ x. mention_of x.name) domain.now.tasks ++ map (λ x. mention_of x.name) domain.now.actions))) found.old found.new) }
{
    let names = task_names(
        context.alloc,
        domain.tasks.as_slice(),
        domain.actions.as_slice(),
    )?;
    check_different(context, &names, found)?;
    Ok(())
}

/// Too many compound tasks.
fn check_task_count(
    context: &Context<'_, '_>,
    domain: &DomainText,
    found: &mut Findings,
) -> Result<(), AllocError>
    ensures { OnOk result (Adds (PassedOver context.now (Limited most_declarations (map (λ x. mention_of x.name) domain.now.tasks)))
        (Fails context.now (Limited most_declarations (map (λ x. mention_of x.name) domain.now.tasks))) found.old found.new) }
{
    let tasks = task_names(context.alloc, domain.tasks.as_slice(), &[])?;
    check_limit(context, MOST_DECLARATIONS, &tasks, found)?;
    Ok(())
}

/// Faults of the names of compound tasks and of actions, which are given.
fn check_task_names_with(
    context: &Context<'_, '_>,
    domain: &DomainText,
    actions: &[Mention<'_>],
    found: &mut Findings,
) -> Result<(), AllocError>
    requires { actions.now ≡ map (λ x. mention_of x.name) domain.now.actions }
    ensures { OnOk result (AddsAny (PassedOver context.now) (Fails context.now) (task_name_parts domain.now) found.old found.new) }
{
    check_different(context, actions, found)?;
    check_all_task_names(context, domain, found)?;
    check_task_count(context, domain, found)?;
    check_limit(context, MOST_DECLARATIONS, actions, found)?;
    Ok(())
}

/// Faults of the names of compound tasks and actions. In the text an action may stand before a task, so of a name that
/// stands three times the second may be that of an action.
pub(crate) fn check_task_names(
    context: &Context<'_, '_>,
    domain: &DomainText,
    found: &mut Findings,
) -> Result<(), AllocError>
    ensures { OnOk result (AddsAny (PassedOver context.now) (Fails context.now) (task_name_parts domain.now) found.old found.new) }
{
    let actions = task_names(context.alloc, &[], domain.actions.as_slice())?;
    check_task_names_with(context, domain, &actions, found)?;
    Ok(())
}

/// Faults of a predicate's parameters.
fn check_predicate(
    context: &Context<'_, '_>,
    predicate: &PredicateText,
    found: &mut Findings,
) -> Result<(), AllocError>
    ensures { OnOk result (AddsAny (PassedOver context.now) (Fails context.now) (predicate_parts predicate.now) found.old found.new) }
{
    let mentions = variables_in(context.alloc, predicate.parameters.as_slice())?;
    check_limit(context, MOST_PARAMETERS, &mentions, found)?;
    check_variable_types(context, predicate.parameters.as_slice(), found)?;
    Ok(())
}

/// Faults of the parameters of predicates.
pub(crate) fn check_predicates(
    context: &Context<'_, '_>,
    predicates: &[PredicateText],
    found: &mut Findings,
) -> Result<(), AllocError>
    ensures { OnOk result (AddsAny (PassedOver context.now) (Fails context.now) (flat_map predicate_parts predicates.now) found.old found.new) }
{
    for predicate in predicates {
        check_predicate(context, predicate, found)?;
    }
    Ok(())
}

/// Faults of the parameters of compound tasks.
pub(crate) fn check_tasks(
    context: &Context<'_, '_>,
    tasks: &[TaskText],
    found: &mut Findings,
) -> Result<(), AllocError>
    ensures { OnOk result (AddsAny (PassedOver context.now) (Fails context.now) (flat_map task_parts tasks.now) found.old found.new) }
{
    for task in tasks {
        check_variable_types(context, task.parameters.as_slice(), found)?;
    }
    Ok(())
}
