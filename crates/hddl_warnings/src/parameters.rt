//! Warnings of parameters.
ghost use Rattle.std.specs.Prelude.{◌≡◌, ◌++◌, IfOk, OnOk, map};
ghost use Rattle.std.specs.List.{flat_map};
ghost use Rattle.hddl_meaning.specs.Mentions.{mentions_of, typed_variables};
ghost use Rattle.hddl_meaning.specs.Uses.{Schema, schema_of_action, schema_of_method};
ghost use Rattle.hddl_warnings.specs.declared.warning.WarningKind.TheVariants as kind;
ghost use Rattle.hddl_warnings.specs.Known.{Knows};
ghost use Rattle.hddl_warnings.specs.Parts.{IsOfSchema};
ghost use Rattle.hddl_warnings.specs.Used as used;
ghost use Rattle.hddl_warnings.specs.Tells.{Tells};
ghost use Rattle.hddl_warnings.specs.Warnings.{IsUnused, IsUnusedParameter};

use crate::known::known_terms;
use crate::parts::{Parts, parts_of};
use crate::predicates::push_effects;
use crate::tell::tell_unlisted;
use crate::warning::{Warning, WarningKind};
use hddl_scope::{Numbers, variables_in};
use hddl_words::{
    ActionText, AtomText, DomainText, EqualityText, MethodText, SubtaskText, Term, VariableGroup,
};
use std::alloc::{AllocError, Global};

/// Adds the tasks of subtasks.
fn push_subtasks<'a>(
    atoms: &mut Vec<&'a AtomText>,
    subtasks: &'a [SubtaskText],
) -> Result<(), AllocError>
    ensures { OnOk result (map (λ x. x.now) atoms.new.items ≡ map (λ x. x.now) atoms.old.items ++ map (λ s. s.task) subtasks.now) }
{
    for subtask in subtasks {
        atoms.push(&subtask.task)?;
    }
    Ok(())
}

/// Adds both sides of each constraint.
fn push_constraints<'a>(
    sides: &mut Vec<&'a Term>,
    constraints: &'a [EqualityText],
) -> Result<(), AllocError>
    ensures { OnOk result (map (λ x. x.now) sides.new.items ≡ map (λ x. x.now) sides.old.items ++ flat_map used.sides_of constraints.now) }
{
    for constraint in constraints {
        sides.push(&constraint.left)?;
        sides.push(&constraint.right)?;
    }
    Ok(())
}

/// What a method uses: atoms with its task and its subtasks, and sides of equalities.
fn method_parts(alloc: Global, method: &MethodText) -> Result<Parts<'_>, AllocError>
    ensures { IfOk result (λ parts. IsOfSchema parts (schema_of_method method.now)) }
{
    let mut parts = parts_of(alloc, method.precondition.as_slice())?;
    parts.atoms.push(&method.task)?;
    push_subtasks(&mut parts.atoms, method.network.subtasks.as_slice())?;
    push_constraints(&mut parts.sides, method.network.constraints.as_slice())?;
    Ok(parts)
}

/// What an action uses: atoms, and sides of equalities.
fn action_parts(alloc: Global, action: &ActionText) -> Result<Parts<'_>, AllocError>
    ensures { IfOk result (λ parts. IsOfSchema parts (schema_of_action action.now)) }
{
    let mut parts = parts_of(alloc, action.precondition.as_slice())?;
    push_effects(&mut parts.atoms, action)?;
    Ok(parts)
}

/// Adds the terms of atoms.
fn push_terms<'a>(terms: &mut Vec<&'a Term>, atoms: &[&'a AtomText]) -> Result<(), AllocError>
    ensures { OnOk result (map (λ x. x.now) terms.new.items ≡ map (λ x. x.now) terms.old.items ++ flat_map (λ a. a.terms) (map (λ x. x.now) atoms.now)) }
{
    for atom in atoms {
        push_atom_terms(terms, atom)?;
    }
    Ok(())
}

/// Adds sides of equalities.
fn push_sides<'a>(terms: &mut Vec<&'a Term>, sides: &[&'a Term]) -> Result<(), AllocError>
    ensures { OnOk result (map (λ x. x.now) terms.new.items ≡ map (λ x. x.now) terms.old.items ++ map (λ x. x.now) sides.now) }
{
    for side in sides {
        terms.push(side)?;
    }
    Ok(())
}

/// Adds the terms of an atom.
fn push_atom_terms<'a>(terms: &mut Vec<&'a Term>, atom: &'a AtomText) -> Result<(), AllocError>
    ensures { OnOk result (map (λ x. x.now) terms.new.items ≡ map (λ x. x.now) terms.old.items ++ atom.now.terms) }
{
    for term in atom.terms.as_slice() {
        terms.push(term)?;
    }
    Ok(())
}

/// The terms of parts, as they are compared.
fn known_in(alloc: Global, parts: &Parts<'_>) -> Result<Numbers, AllocError>
    ensures { IfOk result (λ known. (s : Schema) → IsOfSchema parts.now s → Knows known (used.term_texts s)) }
{
    let mut terms = Vec::new(alloc);
    push_terms(&mut terms, &parts.atoms)?;
    push_sides(&mut terms, &parts.sides)?;
    let known = known_terms(alloc, &terms)?;
    Ok(known)
}

/// Warns of parameters that stand nowhere among the parts.
fn tell_parameters(
    alloc: Global,
    out: &mut Vec<Warning>,
    parameters: &[VariableGroup],
    parts: &Parts<'_>,
) -> Result<(), AllocError>
    ensures { OnOk result ((s : Schema) → IsOfSchema parts.now s → s.parameters ≡ parameters.now
        → Tells out.old.items out.new.items (IsUnused kind.UnusedParameter (mentions_of (typed_variables s.parameters)) (used.term_texts s))) }
{
    let known = known_in(alloc, parts)?;
    let declared = variables_in(alloc, parameters)?;
    tell_unlisted(out, WarningKind::UnusedParameter, &declared, &known)?;
    Ok(())
}

/// Warns of parameters of methods and actions that stand nowhere else in them.
pub(crate) fn tell_schemas(
    alloc: Global,
    out: &mut Vec<Warning>,
    domain: &DomainText,
) -> Result<(), AllocError>
    ensures { OnOk result (Tells out.old.items out.new.items (IsUnusedParameter domain.now)) }
{
    for method in domain.methods.as_slice() {
        let parts = method_parts(alloc, method)?;
        tell_parameters(alloc, out, method.parameters.as_slice(), &parts)?;
    }
    for action in domain.actions.as_slice() {
        let parts = action_parts(alloc, action)?;
        tell_parameters(alloc, out, action.parameters.as_slice(), &parts)?;
    }
    Ok(())
}
