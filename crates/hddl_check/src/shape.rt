//! What a domain and a problem say, part by part.
ghost use Rattle.std.specs.Prelude.{◌≡◌, OnOk, map};
ghost use Rattle.hddl_meaning.specs.Mentions.{mention_of};
ghost use Rattle.hddl_meaning.specs.declared.fault.Source.TheVariants as source;
ghost use Rattle.hddl_uses.specs.Contexts.{Fails, PassedOver};
ghost use Rattle.hddl_scope.specs.Findings.{Adds, AddsAny};
ghost use Rattle.hddl_uses.specs.Parts.{Objects, Types};
ghost use Rattle.hddl_check.specs.TextParts.{body_parts, declared_parts, domain_parts, name_parts, problem_parts};

use crate::declarations::{check_names, check_predicates, check_task_names, check_tasks};
use crate::schemas::{
    check_actions, check_initial, check_method_networks, check_methods, check_states,
};
use hddl_meaning::CheckFault;
use hddl_scope::{Findings, method_names, names_in, past_distinct, predicate_names, types_in};
use hddl_uses::{Context, check_name_types, check_network};
use hddl_words::DomainText;
use std::alloc::AllocError;

/// Too many types.
fn check_types(context: &Context<'_, '_>, found: &mut Findings) -> Result<(), AllocError>
    ensures { OnOk result (Adds (λ _. ⊥) (Fails context.now Types) found.old found.new) }
{
    let types = types_in(context.alloc, context.domain.types.as_slice())?;
    let past = past_distinct(context.alloc, &[], &types)?;
    let Some(place) = past else {
        return Ok(());
    };
    found.push(CheckFault::TooMany(context.at(place)))?;
    Ok(())
}

/// Too many constants.
fn check_constants(context: &Context<'_, '_>, found: &mut Findings) -> Result<(), AllocError>
    requires { context.now.source ≡ source.Domain }
    ensures { OnOk result (Adds (λ _. ⊥) (Fails context.now Objects) found.old found.new) }
{
    let constants = names_in(context.alloc, context.domain.constants.as_slice())?;
    let past = past_distinct(context.alloc, &[], &constants)?;
    let Some(place) = past else {
        return Ok(());
    };
    found.push(CheckFault::TooMany(context.at(place)))?;
    Ok(())
}

/// Too many constants and objects.
fn check_objects(context: &Context<'_, '_>, found: &mut Findings) -> Result<(), AllocError>
    requires { context.now.source ≡ source.Problem }
    ensures { OnOk result (Adds (λ _. ⊥) (Fails context.now Objects) found.old found.new) }
{
    let constants = names_in(context.alloc, context.domain.constants.as_slice())?;
    let objects = names_in(context.alloc, context.problem.objects.as_slice())?;
    let past = past_distinct(context.alloc, &constants, &objects)?;
    let Some(place) = past else {
        return Ok(());
    };
    found.push(CheckFault::TooMany(context.at(place)))?;
    Ok(())
}

/// Faults of the names of predicates.
fn check_predicate_names(
    context: &Context<'_, '_>,
    domain: &DomainText,
    found: &mut Findings,
) -> Result<(), AllocError>
    ensures { OnOk result (AddsAny (PassedOver context.now) (Fails context.now) (name_parts (map (λ x. mention_of x.name) domain.now.predicates)) found.old found.new) }
{
    let predicates = predicate_names(context.alloc, domain.predicates.as_slice())?;
    check_names(context, &predicates, found)?;
    Ok(())
}

/// Faults of the names of methods.
fn check_method_names(
    context: &Context<'_, '_>,
    domain: &DomainText,
    found: &mut Findings,
) -> Result<(), AllocError>
    ensures { OnOk result (AddsAny (PassedOver context.now) (Fails context.now) (name_parts (map (λ x. mention_of x.name) domain.now.methods)) found.old found.new) }
{
    let methods = method_names(context.alloc, domain.methods.as_slice())?;
    check_names(context, &methods, found)?;
    Ok(())
}

/// Faults of the names that a domain declares.
fn check_declared(context: &Context<'_, '_>, found: &mut Findings) -> Result<(), AllocError>
    requires { context.now.source ≡ source.Domain }
    ensures { OnOk result (AddsAny (PassedOver context.now) (Fails context.now) (declared_parts context.now.domain.now) found.old found.new) }
{
    let domain = context.domain;
    check_types(context, found)?;
    check_constants(context, found)?;
    check_name_types(context, domain.constants.as_slice(), found)?;
    check_predicate_names(context, domain, found)?;
    check_method_names(context, domain, found)?;
    check_task_names(context, domain, found)?;
    Ok(())
}

/// Faults in what a domain declares, and what that uses.
fn check_bodies(context: &Context<'_, '_>, found: &mut Findings) -> Result<(), AllocError>
    ensures { OnOk result (AddsAny (PassedOver context.now) (Fails context.now) (body_parts context.now.domain.now) found.old found.new) }
{
    let domain = context.domain;
    check_predicates(context, domain.predicates.as_slice(), found)?;
    check_tasks(context, domain.tasks.as_slice(), found)?;
    check_methods(context, domain.methods.as_slice(), found)?;
    check_method_networks(context, domain.methods.as_slice(), found)?;
    check_actions(context, domain.actions.as_slice(), found)?;
    Ok(())
}

/// Faults of a domain.
pub(crate) fn check_domain(
    context: &Context<'_, '_>,
    found: &mut Findings,
) -> Result<(), AllocError>
    requires { context.now.source ≡ source.Domain }
    ensures { OnOk result (AddsAny (PassedOver context.now) (Fails context.now) (domain_parts context.now.domain.now) found.old found.new) }
{
    check_declared(context, found)?;
    check_bodies(context, found)?;
    Ok(())
}

/// Faults of a problem.
pub(crate) fn check_problem(
    context: &Context<'_, '_>,
    found: &mut Findings,
) -> Result<(), AllocError>
    requires { context.now.source ≡ source.Problem }
    ensures { OnOk result (AddsAny (PassedOver context.now) (Fails context.now) (problem_parts context.now.problem.now) found.old found.new) }
{
    let problem = context.problem;
    check_objects(context, found)?;
    check_name_types(context, problem.objects.as_slice(), found)?;
    check_initial(context, problem, found)?;
    check_network(context, problem.htn.place, &problem.htn.network, found)?;
    check_states(context, problem, found)?;
    Ok(())
}
