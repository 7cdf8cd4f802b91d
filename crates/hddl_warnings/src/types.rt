//! Warnings of types.
ghost use Rattle.std.specs.Prelude.{◌≡◌, ◌∷◌, ◌++◌, [], IfOk, OnOk, map};
ghost use Rattle.hddl_meaning.specs.Names.{object};
ghost use Rattle.hddl_warnings.specs.Known.{Knows};
ghost use Rattle.std.specs.List.{flat_map};
ghost use Rattle.hddl_warnings.specs.Used as used;
ghost use Rattle.hddl_warnings.specs.Tells.{Tells};
ghost use Rattle.hddl_warnings.specs.Warnings.{IsUnusedType};

use crate::known::{known_names, learn};
use crate::tell::tell_unlisted;
use crate::warning::{Warning, WarningKind};
use hddl_scope::{Numbers, names_in};
use hddl_words::{DomainText, Name, NameGroup, ProblemText, VariableGroup};
use std::alloc::{AllocError, Global};

/// Adds the type of a group, if one is written.
fn push_type<'a>(names: &mut Vec<&'a Name>, of_type: &'a Option<Name>) -> Result<(), AllocError>
    ensures { OnOk result (map (λ x. x.now) names.new.items ≡ map (λ x. x.now) names.old.items ++ used.written of_type.now) }
{
    if let Some(name) = of_type {
        names.push(name)?;
    }
    Ok(())
}

/// Adds the types of groups of names.
fn push_name_types<'a>(names: &mut Vec<&'a Name>, groups: &'a [NameGroup]) -> Result<(), AllocError>
    ensures { OnOk result (map (λ x. x.now) names.new.items ≡ map (λ x. x.now) names.old.items ++ used.name_types groups.now) }
{
    for group in groups {
        push_type(names, &group.of_type)?;
    }
    Ok(())
}

/// Adds the types of groups of variables.
fn push_variable_types<'a>(
    names: &mut Vec<&'a Name>,
    groups: &'a [VariableGroup],
) -> Result<(), AllocError>
    ensures { OnOk result (map (λ x. x.now) names.new.items ≡ map (λ x. x.now) names.old.items ++ used.variable_types groups.now) }
{
    for group in groups {
        push_type(names, &group.of_type)?;
    }
    Ok(())
}

/// Adds the types of the variables of `forall`s.
fn push_quantified_types<'a>(
    names: &mut Vec<&'a Name>,
    groups: &[&'a VariableGroup],
) -> Result<(), AllocError>
    ensures { OnOk result (map (λ x. x.now) names.new.items ≡ map (λ x. x.now) names.old.items ++ used.variable_types (map (λ x. x.now) groups.now)) }
{
    for group in groups {
        push_type(names, &group.of_type)?;
    }
    Ok(())
}

/// Adds the types of parameters of predicates and tasks.
fn push_declared_types<'a>(
    names: &mut Vec<&'a Name>,
    domain: &'a DomainText,
) -> Result<(), AllocError>
    ensures { OnOk result (map (λ x. x.now) names.new.items ≡ map (λ x. x.now) names.old.items ++ used.declared_types domain.now) }
{
    for predicate in domain.predicates.as_slice() {
        push_variable_types(names, predicate.parameters.as_slice())?;
    }
    for task in domain.tasks.as_slice() {
        push_variable_types(names, task.parameters.as_slice())?;
    }
    Ok(())
}

/// Adds the types of parameters of methods, of actions and of the initial network.
fn push_parameter_types<'a>(
    names: &mut Vec<&'a Name>,
    domain: &'a DomainText,
    problem: &'a ProblemText,
) -> Result<(), AllocError>
    ensures { OnOk result (map (λ x. x.now) names.new.items ≡ map (λ x. x.now) names.old.items ++ used.parameter_types domain.now problem.now) }
{
    for method in domain.methods.as_slice() {
        push_variable_types(names, method.parameters.as_slice())?;
    }
    for action in domain.actions.as_slice() {
        push_variable_types(names, action.parameters.as_slice())?;
    }
    push_variable_types(names, problem.htn.parameters.as_slice())?;
    Ok(())
}

/// The types that something has, and those that are written above others.
fn used_types<'a>(
    alloc: Global,
    domain: &'a DomainText,
    problem: &'a ProblemText,
    quantified: &[&'a VariableGroup],
) -> Result<Vec<&'a Name>, AllocError>
    requires { map (λ x. x.now) quantified.now ≡ used.quantified_groups domain.now problem.now }
    ensures { IfOk result (λ names. map (λ x. x.now) names.items ≡ used.used_types domain.now problem.now) }
{
    let mut names = Vec::new(alloc);
    push_name_types(&mut names, domain.types.as_slice())?;
    push_name_types(&mut names, domain.constants.as_slice())?;
    push_name_types(&mut names, problem.objects.as_slice())?;
    push_declared_types(&mut names, domain)?;
    push_parameter_types(&mut names, domain, problem)?;
    push_quantified_types(&mut names, quantified)?;
    Ok(names)
}

/// The names of the types that something has, and `object`, as they are compared.
fn known_types(
    alloc: Global,
    domain: &DomainText,
    problem: &ProblemText,
    quantified: &[&VariableGroup],
) -> Result<Numbers, AllocError>
    requires { map (λ x. x.now) quantified.now ≡ used.quantified_groups domain.now problem.now }
    ensures { IfOk result (λ known. Knows known (used.name_texts (used.used_types domain.now problem.now) ++ object ∷ [])) }
{
    let names = used_types(alloc, domain, problem, quantified)?;
    let mut known = known_names(alloc, &names)?;
    learn(alloc, &mut known, b"object")?;
    Ok(known)
}

/// Warns of types that nothing has and that aren't above another one.
pub(crate) fn tell_types(
    alloc: Global,
    out: &mut Vec<Warning>,
    domain: &DomainText,
    problem: &ProblemText,
    quantified: &[&VariableGroup],
) -> Result<(), AllocError>
    requires { map (λ x. x.now) quantified.now ≡ used.quantified_groups domain.now problem.now }
    ensures { OnOk result (Tells out.old.items out.new.items (IsUnusedType domain.now problem.now)) }
{
    let known = known_types(alloc, domain, problem, quantified)?;
    let declared = names_in(alloc, domain.types.as_slice())?;
    tell_unlisted(out, WarningKind::UnusedType, &declared, &known)?;
    Ok(())
}
