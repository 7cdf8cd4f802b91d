//! Atoms, tasks and equalities where they are used.
ghost use Rattle.std.specs.Prelude.{List, OnOk, map, take};
ghost use Rattle.std.specs.List.{flat_map};
ghost use Rattle.hddl_meaning.specs.Items.{Signature};
ghost use Rattle.hddl_meaning.specs.Uses.{sides};
ghost use Rattle.hddl_meaning.specs.declared.fault.CheckFault.TheVariants.{Arity};
ghost use Rattle.hddl_scope.specs.Findings.{Adds, AddsAny, Faulted};
ghost use Rattle.hddl_uses.specs.Contexts.{Fails, IsMiscounted, PassedOver, PlacesFail};
ghost use Rattle.hddl_uses.specs.Parts.{Atom, Decomposed, Side, Subtask, UseFails};
ghost use Rattle.hddl_uses.specs.Tables.{IsTableOf};

use crate::arguments::{check_arguments, check_term};
use crate::context::Context;
use crate::signatures::Signatures;
use hddl_meaning::CheckFault;
use hddl_names::fold;
use hddl_scope::{Declared, Findings, Scope};
use hddl_words::{AtomText, EqualityText, LiteralText, SubtaskText};
use std::alloc::AllocError;

/// A number of arguments other than the number of places.
fn check_count(
    context: &Context<'_, '_>,
    atom: &AtomText,
    places: usize,
    found: &mut Findings,
) -> Result<(), AllocError>
    ensures { OnOk result (Adds (λ _. ⊥) (Faulted Arity context.now.source (IsMiscounted atom.now places)) found.old found.new) }
{
    if atom.terms.len() == places {
        return Ok(());
    }
    found.push(CheckFault::Arity(context.at(atom.name.place())))?;
    Ok(())
}

/// Faults of the arguments of an atom or a task whose declaration has these places.
fn check_places(
    context: &Context<'_, '_>,
    scope: &Scope<'_>,
    atom: &AtomText,
    places: &[Declared<'_>],
    found: &mut Findings,
) -> Result<(), AllocError>
    ensures { OnOk result (Adds (λ _. ⊥) (PlacesFail context.now scope.now atom.now places.now) found.old found.new) }
{
    check_count(context, atom, places.len(), found)?;
    check_arguments(context, scope, atom.terms.as_slice(), places, found)?;
    Ok(())
}

/// Faults of an atom or a task, of which the name has to be that of one of the first `count` declarations.
fn check_use(
    context: &Context<'_, '_>,
    declared: &Signatures<'_>,
    count: usize,
    scope: &Scope<'_>,
    atom: &AtomText,
    found: &mut Findings,
) -> Result<(), AllocError>
    ensures { (signatures : List Signature) → IsTableOf signatures declared.now
        → OnOk result (Adds (λ _. ⊥) (UseFails context.now.domain.now context.now.problem.now context.now.source (map (λ s. s.name) (take count signatures)) signatures
        (record { variables = scope.now; atom = atom.now })) found.old found.new) }
{
    let text = fold(context.alloc, atom.name.text())?;
    if let Some(places) = declared.get(count, text.as_slice()) {
        check_places(context, scope, atom, places, found)?;
        return Ok(());
    }
    found.push(CheckFault::UnknownName(context.at(atom.name.place())))?;
    if let Some(places) = declared.get(declared.len(), text.as_slice()) {
        check_places(context, scope, atom, places, found)?;
        return Ok(());
    }
    check_arguments(context, scope, atom.terms.as_slice(), &[], found)?;
    Ok(())
}

/// Faults of an atom.
pub(crate) fn check_atom(
    context: &Context<'_, '_>,
    scope: &Scope<'_>,
    atom: &AtomText,
    found: &mut Findings,
) -> Result<(), AllocError>
    ensures { OnOk result (Adds (λ _. ⊥) (Fails context.now (Atom (record { variables = scope.now; atom = atom.now }))) found.old found.new) }
{
    let predicates = &context.declared.predicates;
    check_use(context, predicates, predicates.len(), scope, atom, found)?;
    Ok(())
}

/// Faults of the task that a method decomposes: it has to be a compound one.
pub fn check_decomposed(
    context: &Context<'_, '_>,
    scope: &Scope<'_>,
    task: &AtomText,
    found: &mut Findings,
) -> Result<(), AllocError>
    ensures { OnOk result (Adds (λ _. ⊥) (Fails context.now (Decomposed (record { variables = scope.now; atom = task.now }))) found.old found.new) }
{
    let compound = context.domain.tasks.len();
    check_use(
        context,
        &context.declared.tasks,
        compound,
        scope,
        task,
        found,
    )?;
    Ok(())
}

/// Faults of a subtask.
fn check_subtask(
    context: &Context<'_, '_>,
    scope: &Scope<'_>,
    task: &AtomText,
    found: &mut Findings,
) -> Result<(), AllocError>
    ensures { OnOk result (Adds (λ _. ⊥) (Fails context.now (Subtask (record { variables = scope.now; atom = task.now }))) found.old found.new) }
{
    let tasks = &context.declared.tasks;
    check_use(context, tasks, tasks.len(), scope, task, found)?;
    Ok(())
}

/// Sides of an equality that aren't known.
pub(crate) fn check_equality(
    context: &Context<'_, '_>,
    scope: &Scope<'_>,
    equality: &EqualityText,
    found: &mut Findings,
) -> Result<(), AllocError>
    ensures { OnOk result (AddsAny (PassedOver context.now) (Fails context.now) (map Side (sides scope.now equality.now)) found.old found.new) }
{
    check_term(context, scope, &equality.left, found)?;
    check_term(context, scope, &equality.right, found)?;
    Ok(())
}

/// Faults of atoms.
pub fn check_atoms(
    context: &Context<'_, '_>,
    scope: &Scope<'_>,
    atoms: &[AtomText],
    found: &mut Findings,
) -> Result<(), AllocError>
    ensures { OnOk result (AddsAny (PassedOver context.now) (Fails context.now) (map Atom (map (λ a. record { variables = scope.now; atom = a }) atoms.now)) found.old found.new) }
{
    for atom in atoms {
        check_atom(context, scope, atom, found)?;
    }
    Ok(())
}

/// Faults of the atoms of effects.
pub fn check_effects(
    context: &Context<'_, '_>,
    scope: &Scope<'_>,
    effects: &[LiteralText],
    found: &mut Findings,
) -> Result<(), AllocError>
    ensures { OnOk result (AddsAny (PassedOver context.now) (Fails context.now) (map Atom (map (λ l. record { variables = scope.now; atom = l.atom }) effects.now)) found.old found.new) }
{
    for effect in effects {
        check_atom(context, scope, &effect.atom, found)?;
    }
    Ok(())
}

/// Faults of the tasks of a network.
pub fn check_tasks_used(
    context: &Context<'_, '_>,
    scope: &Scope<'_>,
    subtasks: &[SubtaskText],
    found: &mut Findings,
) -> Result<(), AllocError>
    ensures { OnOk result (AddsAny (PassedOver context.now) (Fails context.now) (map Subtask (map (λ s. record { variables = scope.now; atom = s.task }) subtasks.now)) found.old found.new) }
{
    for subtask in subtasks {
        check_subtask(context, scope, &subtask.task, found)?;
    }
    Ok(())
}

/// Sides of constraints that aren't known.
pub fn check_constraints(
    context: &Context<'_, '_>,
    scope: &Scope<'_>,
    constraints: &[EqualityText],
    found: &mut Findings,
) -> Result<(), AllocError>
    ensures { OnOk result (AddsAny (PassedOver context.now) (Fails context.now) (map Side (flat_map (sides scope.now) constraints.now)) found.old found.new) }
{
    for constraint in constraints {
        check_equality(context, scope, constraint, found)?;
    }
    Ok(())
}
