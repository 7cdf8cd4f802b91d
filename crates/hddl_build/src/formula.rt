//! Preconditions, goals and effects.
ghost use Rattle.std.specs.Prelude.{◌≡◌, [], true, not, length, IfOk};
ghost use Rattle.hddl_meaning.specs.Building as building;
ghost use Rattle.hddl_build.specs.InForce.{all_fit, fits};
ghost use Rattle.hddl_build.specs.Vocabularies.{IsNumbered};
ghost use Rattle.htn_task.specs.Formulas as formulas;

use crate::scope::Scope;
use crate::term::{atom_of, equality_of};
use crate::types::types_of;
use hddl_names::Vocabulary;
use hddl_words::{Condition, LiteralText};
use htn_task::{AtomSchema, Formula, FormulaList};
use std::alloc::{AllocError, Global};

/// A part of a condition under the variables in force. These are in force afterwards too.
fn formula_of<'a>(
    alloc: Global,
    vocabulary: &Vocabulary,
    scope: &mut Scope<'a>,
    condition: &'a Condition,
) -> Result<Formula, AllocError>
    requires numbered { IsNumbered vocabulary.now }
    requires in_force { fits (length scope.old) condition.now ≡ true }
    ensures value { IfOk result (λ f. formulas.formula_of f ≡ building.formula_of vocabulary.now condition.now scope.old) }
    ensures kept { scope.new ≡ scope.old }
{
    match condition {
        Condition::Literal(literal) => {
            let atom = atom_of(alloc, vocabulary, scope, &literal.atom)?;
            Ok(Formula::Literal(literal.is_positive, atom))
        }
        Condition::Equality(equality) => {
            let equation = equality_of(alloc, vocabulary, scope, equality)?;
            Ok(Formula::Equation(equation))
        }
        Condition::Forall(groups, body) => {
            let types = types_of(alloc, vocabulary, groups.as_slice())?;
            let around = scope.len();
            scope.push(alloc, groups.as_slice())?;
            let mut formulas = Vec::new(alloc);
            for part in body.as_slice() {
                match formula_of(alloc, vocabulary, scope, part) {
                    Ok(formula) => {
                        if formulas.push(formula).is_err() {
                            scope.truncate(around);
                            return Err(AllocError);
                        }
                    }
                    Err(error) => {
                        scope.truncate(around);
                        return Err(error);
                    }
                }
            }
            scope.truncate(around);
            Ok(Formula::ForAll(types, formulas))
        }
    }
}

/// A conjunction. The variables in force afterwards are those before.
pub(crate) fn formulas_of<'a>(
    alloc: Global,
    vocabulary: &Vocabulary,
    scope: &mut Scope<'a>,
    conditions: &'a [Condition],
) -> Result<FormulaList, AllocError>
    requires numbered { IsNumbered vocabulary.now }
    requires in_force { all_fit (length scope.old) conditions.now ≡ true }
    ensures value { IfOk result (λ l. l ≡ building.formulas_of vocabulary.now scope.old conditions.now) }
    ensures kept { scope.new ≡ scope.old }
{
    let mut formulas = Vec::with_capacity(alloc, conditions.len())?;
    for condition in conditions {
        formulas.push(formula_of(alloc, vocabulary, scope, condition)?)?;
    }
    Ok(FormulaList::of(formulas))
}

/// The goal: a conjunction with no variables in force.
pub(crate) fn goal_of(
    alloc: Global,
    vocabulary: &Vocabulary,
    conditions: &[Condition],
) -> Result<FormulaList, AllocError>
    requires numbered { IsNumbered vocabulary.now }
    requires in_force { all_fit 0 conditions.now ≡ true }
    ensures { IfOk result (λ l. l ≡ building.formulas_of vocabulary.now [] conditions.now) }
{
    let mut scope = Scope::empty(alloc);
    let goal = formulas_of(alloc, vocabulary, &mut scope, conditions)?;
    Ok(goal)
}

/// The atoms under `not` of an effect.
pub(crate) fn deletes_of(
    alloc: Global,
    vocabulary: &Vocabulary,
    scope: &Scope<'_>,
    effect: &[LiteralText],
) -> Result<Vec<AtomSchema>, AllocError>
    requires { IsNumbered vocabulary.now }
    ensures { IfOk result (λ atoms. atoms.items ≡ building.effects_of vocabulary.now scope.now not effect.now) }
{
    let mut atoms = Vec::new(alloc);
    for literal in effect {
        if !literal.is_positive {
            atoms.push(atom_of(alloc, vocabulary, scope, &literal.atom)?)?;
        }
    }
    Ok(atoms)
}

/// The atoms of an effect that aren't under `not`.
pub(crate) fn adds_of(
    alloc: Global,
    vocabulary: &Vocabulary,
    scope: &Scope<'_>,
    effect: &[LiteralText],
) -> Result<Vec<AtomSchema>, AllocError>
    requires { IsNumbered vocabulary.now }
    ensures { IfOk result (λ atoms. atoms.items ≡ building.effects_of vocabulary.now scope.now (λ b. b) effect.now) }
{
    let mut atoms = Vec::new(alloc);
    for literal in effect {
        if literal.is_positive {
            atoms.push(atom_of(alloc, vocabulary, scope, &literal.atom)?)?;
        }
    }
    Ok(atoms)
}
