//! Warnings of predicates.
ghost use Rattle.std.specs.Prelude.{◌≡◌, ◌⊎◌, ◌++◌, IfOk, List, OnOk, map};
ghost use Rattle.hddl_meaning.specs.Mentions.{Text, mention_of};
ghost use Rattle.hddl_warnings.specs.declared.warning.WarningKind.TheVariants as kind;
ghost use Rattle.hddl_warnings.specs.Known.{Knows};
ghost use Rattle.hddl_warnings.specs.Used as used;
ghost use Rattle.hddl_warnings.specs.Tells.{Tells};
ghost use Rattle.hddl_warnings.specs.Warnings.{IsUnused, IsUnusedPredicate, IsUntestedPredicate, IsUsedBut};

use crate::known::known_predicates;
use crate::parts::{Parts, push_conditions};
use crate::tell::{tell_listed_but, tell_unlisted};
use crate::warning::{Warning, WarningKind};
use hddl_scope::{Numbers, predicate_names};
use hddl_words::{ActionText, AtomText, DomainText, ProblemText};
use std::alloc::{AllocError, Global};

/// The parts of all preconditions and of the goal.
pub(crate) fn all_parts<'a>(
    alloc: Global,
    domain: &'a DomainText,
    problem: &'a ProblemText,
) -> Result<Parts<'a>, AllocError>
    ensures atoms { IfOk result (λ parts. map (λ x. x.now) parts.atoms.items ≡ used.tested_atoms domain.now problem.now) }
    ensures groups { IfOk result (λ parts. map (λ x. x.now) parts.groups.items ≡ used.quantified_groups domain.now problem.now) }
{
    let mut parts = Parts::new(alloc);
    for method in domain.methods.as_slice() {
        push_conditions(&mut parts, method.precondition.as_slice())?;
    }
    for action in domain.actions.as_slice() {
        push_conditions(&mut parts, action.precondition.as_slice())?;
    }
    push_conditions(&mut parts, problem.goal.as_slice())?;
    Ok(parts)
}

/// Adds the atoms of an action's effect.
pub(crate) fn push_effects<'a>(
    atoms: &mut Vec<&'a AtomText>,
    action: &'a ActionText,
) -> Result<(), AllocError>
    ensures { OnOk result (map (λ x. x.now) atoms.new.items ≡ map (λ x. x.now) atoms.old.items ++ map (λ l. l.atom) action.now.effect) }
{
    for literal in action.effect.as_slice() {
        atoms.push(&literal.atom)?;
    }
    Ok(())
}

/// Adds the atoms of all effects and of the initial state.
fn push_set_atoms<'a>(
    atoms: &mut Vec<&'a AtomText>,
    domain: &'a DomainText,
    problem: &'a ProblemText,
) -> Result<(), AllocError>
    ensures { OnOk result (map (λ x. x.now) atoms.new.items ≡ map (λ x. x.now) atoms.old.items ++ used.set_atoms domain.now problem.now) }
{
    for action in domain.actions.as_slice() {
        push_effects(atoms, action)?;
    }
    for atom in problem.init.as_slice() {
        atoms.push(atom)?;
    }
    Ok(())
}

/// The names of the predicates of all atoms.
fn known_in_all<'a>(
    alloc: Global,
    domain: &'a DomainText,
    problem: &'a ProblemText,
    tested: &[&'a AtomText],
) -> Result<Numbers, AllocError>
    requires { map (λ x. x.now) tested.now ≡ used.tested_atoms domain.now problem.now }
    ensures { IfOk result (λ known. Knows known (used.predicates_of (used.tested_atoms domain.now problem.now ++ used.set_atoms domain.now problem.now))) }
{
    let mut atoms = Vec::from_slice(alloc, tested)?;
    push_set_atoms(&mut atoms, domain, problem)?;
    let known = known_predicates(alloc, &atoms)?;
    Ok(known)
}

/// Warns of predicates that aren't known to all atoms, and of those that aren't known to the tested ones.
fn tell_unknown(
    alloc: Global,
    out: &mut Vec<Warning>,
    domain: &DomainText,
    all: &Numbers,
    tests: &Numbers,
) -> Result<(), AllocError>
    ensures { OnOk result ((named tested : List Text) → Knows all.now named → Knows tests.now tested
        → Tells out.old.items out.new.items (λ w. IsUnused kind.UnusedPredicate (map (λ x. mention_of x.name) domain.now.predicates) named w
        ⊎ IsUsedBut kind.UntestedPredicate (map (λ x. mention_of x.name) domain.now.predicates) named tested w)) }
{
    let declared = predicate_names(alloc, domain.predicates.as_slice())?;
    tell_unlisted(out, WarningKind::UnusedPredicate, &declared, all)?;
    tell_listed_but(out, WarningKind::UntestedPredicate, &declared, all, tests)?;
    Ok(())
}

/// Warns of predicates that no atom names, and of those that no precondition and no goal names.
pub(crate) fn tell_predicates<'a>(
    alloc: Global,
    out: &mut Vec<Warning>,
    domain: &'a DomainText,
    problem: &'a ProblemText,
    tested: &[&'a AtomText],
) -> Result<(), AllocError>
    requires { map (λ x. x.now) tested.now ≡ used.tested_atoms domain.now problem.now }
    ensures { OnOk result (Tells out.old.items out.new.items (λ w. IsUnusedPredicate domain.now problem.now w ⊎ IsUntestedPredicate domain.now problem.now w)) }
{
    let tests = known_predicates(alloc, tested)?;
    let all = known_in_all(alloc, domain, problem, tested)?;
    tell_unknown(alloc, out, domain, &all, &tests)?;
    Ok(())
}
