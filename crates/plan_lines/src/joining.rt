//! The instances at which each atom of a step is one that is true in some gap: a join, atom by atom.
ghost use Rattle.std.specs.Prelude.{◌≡◌, ◌≤◌, ◌<◌, ℕ, List, IfOk, OnOk, length, map};
ghost use Rattle.htn_model.specs.Instances as model;
ghost use Rattle.htn_model.specs.PlanFile.{IsIn};
ghost use Rattle.htn_model.specs.Schema.{AtomSchema as Wanted};
ghost use Rattle.plan_lines.specs.Turns.{IsEverTrue};
ghost use Rattle.plan_lines.specs.Allowed.{IsInstanceWith};
ghost use Rattle.plan_lines.specs.Found.{AreAlike, AreFound, MayFit};
ghost use Rattle.plan_lines.specs.Given.{Extends};

use crate::completing::push_completions;
use crate::completion::meets_so_far;
use crate::ever::{Search, may_be_true};
use crate::ever_true::EverTrue;
use crate::given::{bind_all, object_of};
use htn_ground::ObjectList;
use htn_task::{Atom, AtomSchema, Term};
use std::alloc::{AllocError, Global};

/// Whether a term has no object yet. No promise rests on this but that of speed.
fn is_open(given: &[Option<u16>], terms: &[Term]) -> bool {
    for term in terms {
        if object_of(given, *term).is_none() {
            return true;
        }
    }
    false
}

/// The atoms that have open arguments, of some atoms of a step.
fn open_atoms<'a>(
    alloc: Global,
    schemas: &[&'a AtomSchema],
    given: &[Option<u16>],
) -> Result<Vec<&'a AtomSchema>, AllocError>
    ensures kept { IfOk result (λ v. (a : Wanted) → IsIn a (map (λ s. s.now) v.items) → IsIn a (map (λ s. s.now) schemas.now)) }
    ensures fewer { IfOk result (λ v. length v.items ≤ length schemas.now) }
{
    let mut kept = Vec::new(alloc);
    for schema in schemas {
        if is_open(given, schema.arguments()) {
            kept.push(*schema)?;
        }
    }
    Ok(kept)
}

/// The atoms among which that of a schema is, if it is ever true: of those that are listed together the fewest.
fn candidates<'a>(
    ever: &'a EverTrue<'_>,
    schema: &AtomSchema,
    given: &[Option<u16>],
) -> &'a [&'a Atom]
    ensures { (values : List ℕ) → Extends values given.now → IsEverTrue ever.now (model.ground_atom values schema.now)
        → IsIn (model.ground_atom values schema.now) (map (λ a. a.now) result.now) }
{
    let predicate = schema.predicate();
    let mut fewest = ever.with_predicate(predicate);
    for (place, term) in schema.arguments().iter().enumerate() {
        if let Some(object) = object_of(given, *term) {
            let listed = ever.with_argument(predicate, place, object);
            if listed.len() < fewest.len() {
                fewest = listed;
            }
        }
    }
    fewest
}

/// The number of the schema with the fewest candidates.
fn narrowest(ever: &EverTrue<'_>, schemas: &[&AtomSchema], given: &[Option<u16>]) -> usize
    requires { 0 < length schemas.now }
    ensures { result < length schemas.now }
{
    let mut best = 0;
    let mut fewest = candidates(ever, schemas[0], given).len();
    for number in 1..schemas.len() {
        let count = candidates(ever, schemas[number], given).len();
        if count < fewest {
            best = number;
            fewest = count;
        }
    }
    best
}

/// Appends values of instances, with those that are given, at which these atoms of the step are ever true: of those
/// that
/// differ at parameters alone that are not shown one. It recurses no deeper than there are atoms.
pub(crate) fn push_joined(
    alloc: Global,
    search: &Search<'_, '_>,
    schemas: &[&AtomSchema],
    given: &[Option<u16>],
    found: &mut Vec<ObjectList>,
) -> Result<(), AllocError>
    requires long { length given.now ≡ length search.now.conditions.now.parameters }
    requires within { (a : Wanted) → IsIn a (map (λ s. s.now) schemas.now) → IsIn a (map (λ s. s.now) search.now.atoms.now) }
    ensures { OnOk result (AreFound (AreAlike search.now.shown.now) (IsInstanceWith search.now.task.now search.now.conditions.now given.now)
        (MayFit search.now.task.now search.now.conditions.now search.now.ever.now (map (λ a. a.now) search.now.atoms.now) given.now) found.old.items found.new.items) }
{
    if !may_be_true(alloc, search.ever, schemas, given)? {
        return Ok(());
    }
    let mut rest = open_atoms(alloc, schemas, given)?;
    if rest.is_empty() {
        return push_completions(alloc, search, given, 0, found);
    }
    let number = narrowest(search.ever, &rest, given);
    let schema = rest.remove(number);
    let atoms = candidates(search.ever, schema, given);
    for atom in atoms {
        let mut more = Vec::from_slice(alloc, given)?;
        if bind_all(&mut more, schema.arguments(), atom.arguments())
            && meets_so_far(search.task, search.conditions, &more)
        {
            push_joined(alloc, search, &rest, &more, found)?;
        }
    }
    Ok(())
}
