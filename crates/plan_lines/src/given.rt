//! Values that are given at some parameters of a schema.
ghost use Rattle.std.specs.Prelude.{◌≡◌, List, ℕ, IfOk, IfSome, length, map};
ghost use Rattle.htn_model.specs.Instances as model;
ghost use Rattle.htn_task.specs.Views.{term_of, terms_of};
ghost use Rattle.plan_lines.specs.Given as spec;
ghost use Rattle.plan_lines.specs.Given.{Extends, Narrows};

use htn_ground::{GroundTask, ObjectList};
use htn_task::{Atom, AtomSchema, TaskSchema, Term};
use std::alloc::{AllocError, Global};

/// The object that a term stands for, if it has one.
pub(crate) fn object_of(given: &[Option<u16>], term: Term) -> Option<u16>
    ensures { result ≡ spec.object_of given.now (term_of term) }
{
    match term {
        Term::Parameter(place) => match given.get(place as usize) {
            Some(value) => *value,
            None => Some(0),
        },
        Term::Object(object) => Some(object),
    }
}

/// Gives a term an object, unless it has another.
fn bind(given: &mut Vec<Option<u16>>, term: Term, object: u16) -> bool
    ensures narrows { Narrows (λ values. model.value_of values (term_of term) ≡ object) given.old.items given.new.items result }
    ensures long { length given.new.items ≡ length given.old.items }
{
    match term {
        Term::Object(value) => value == object,
        Term::Parameter(place) => {
            let place = place as usize;
            if place >= given.len() {
                return object == 0;
            }
            match given[place] {
                Some(value) => value == object,
                None => {
                    given[place] = Some(object);
                    true
                }
            }
        }
    }
}

/// Gives each term the object beside it, unless one has another.
pub(crate) fn bind_all(given: &mut Vec<Option<u16>>, terms: &[Term], objects: &[u16]) -> bool
    ensures narrows { Narrows (λ values. map (model.value_of values) (terms_of terms.now) ≡ objects.now) given.old.items given.new.items result }
    ensures long { length given.new.items ≡ length given.old.items }
{
    if terms.len() != objects.len() {
        return false;
    }
    for (place, term) in terms.iter().enumerate() {
        if !bind(given, *term, objects[place]) {
            return false;
        }
    }
    true
}

/// The objects that terms stand for, if all have one.
fn objects_at(
    alloc: Global,
    given: &[Option<u16>],
    terms: &[Term],
) -> Result<Option<ObjectList>, AllocError>
    ensures { IfOk result (λ found. IfSome found (λ l. (values : List ℕ) → Extends values given.now → map (model.value_of values) (terms_of terms.now) ≡ l)) }
{
    let mut objects = ObjectList::new(alloc);
    for term in terms {
        let Some(object) = object_of(given, *term) else {
            return Ok(None);
        };
        objects.push(object)?;
    }
    Ok(Some(objects))
}

/// The task of a schema, if all its arguments have objects.
pub(crate) fn task_of(
    alloc: Global,
    given: &[Option<u16>],
    schema: &TaskSchema,
) -> Result<Option<GroundTask>, AllocError>
    ensures { IfOk result (λ found. IfSome found (λ g. (values : List ℕ) → Extends values given.now → model.ground_task values schema.now ≡ g)) }
{
    match objects_at(alloc, given, schema.arguments())? {
        Some(arguments) => Ok(Some(GroundTask::new(schema.name(), arguments))),
        None => Ok(None),
    }
}

/// The atom of a schema, if all its arguments have objects.
pub(crate) fn atom_of(
    alloc: Global,
    given: &[Option<u16>],
    schema: &AtomSchema,
) -> Result<Option<Atom>, AllocError>
    ensures { IfOk result (λ found. IfSome found (λ a. (values : List ℕ) → Extends values given.now → model.ground_atom values schema.now ≡ a)) }
{
    match objects_at(alloc, given, schema.arguments())? {
        Some(arguments) => {
            let atom = Atom::new(alloc, schema.predicate(), arguments.as_slice())?;
            Ok(Some(atom))
        }
        None => Ok(None),
    }
}
