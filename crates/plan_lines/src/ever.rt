//! What the atoms of a method's step, each of which has to be true in some gap, rule out.
ghost use Rattle.std.specs.Prelude.{◌≡◌, ◌↔◌, ℕ, List, IfOk, IsTrue, false, map, true};
ghost use Rattle.htn_model.specs.PlanFile.{IsIn};
ghost use Rattle.htn_model.specs.Schema as model;
ghost use Rattle.plan_lines.specs.Found.{AreEverTrue, MayFit};
ghost use Rattle.plan_lines.specs.Given.{Extends};

use crate::completion::meets_so_far;
use crate::ever_true::EverTrue;
use crate::given::atom_of;
use htn_ground::Conditions;
use htn_task::{AtomSchema, Formula, FormulaList, Task};
use std::alloc::{AllocError, Global};

/// What is asked of the values of an instance, beside its subtasks.
#[derive(Drop)]
pub(crate) struct Search<'a, 'e> {
    pub(crate) task: &'a Task,
    pub(crate) conditions: &'a Conditions,
    /// The atoms of the step that have to be true.
    pub(crate) atoms: &'a [&'a AtomSchema],
    /// For each parameter whether it stands in the step or in a subtask.
    pub(crate) shown: &'a [bool],
    pub(crate) ever: &'a EverTrue<'e>,
}

/// The atoms of a precondition, outside every `forall`, that have to be true.
pub(crate) fn positive_atoms(
    alloc: Global,
    precondition: &FormulaList,
) -> Result<Vec<&AtomSchema>, AllocError>
    ensures { IfOk result (λ v. (a : model.AtomSchema) → IsIn a (map (λ s. s.now) v.items) → IsIn (model.literal true a) precondition.now) }
{
    let mut atoms = Vec::new(alloc);
    for formula in precondition.as_slice() {
        if let Formula::Literal(is_positive, atom) = formula {
            if *is_positive {
                atoms.push(atom)?;
            }
        }
    }
    Ok(atoms)
}

/// Whether no atom, so far as all its arguments have objects, is false in every gap.
pub(crate) fn may_be_true(
    alloc: Global,
    ever: &EverTrue<'_>,
    atoms: &[&AtomSchema],
    given: &[Option<u16>],
) -> Result<bool, AllocError>
    ensures { IfOk result (λ b. b ≡ false → (values : List ℕ) → Extends values given.now → AreEverTrue ever.now (map (λ a. a.now) atoms.now) values → ⊥) }
{
    for schema in atoms {
        if let Some(atom) = atom_of(alloc, given, schema)? {
            if !ever.has(&atom) {
                return Ok(false);
            }
        }
    }
    Ok(true)
}

/// Whether the given values rule out every instance that may fit; false is possible although none fits.
pub(crate) fn is_ruled_out(
    alloc: Global,
    search: &Search<'_, '_>,
    given: &[Option<u16>],
) -> Result<bool, AllocError>
    ensures { IfOk result (λ b. b ≡ true → (values : List ℕ)
        → MayFit search.now.task.now search.now.conditions.now search.now.ever.now (map (λ a. a.now) search.now.atoms.now) given.now values → ⊥) }
{
    if !meets_so_far(search.task, search.conditions, given) {
        return Ok(true);
    }
    let may_be = may_be_true(alloc, search.ever, search.atoms, given)?;
    Ok(!may_be)
}
