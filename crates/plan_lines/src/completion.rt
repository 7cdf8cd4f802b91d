//! Whether values that are given are those of an instance.
ghost use Rattle.std.specs.Prelude.{◌≡◌, ◌≤◌, length, IfOk, MatchOption};
ghost use Rattle.std.specs.List.{list_all, list_any};
ghost use Rattle.htn_model.specs.Task as model;
ghost use Rattle.htn_task.specs.Views.{term_of};
ghost use Rattle.htn_ground.specs.Places.{place_of, places_of};
ghost use Rattle.plan_lines.specs.Allowed as spec;
ghost use Rattle.plan_lines.specs.Allowed.{HasInstanceWith, IsFilled, IsInstanceWith};

use crate::given::object_of;
use htn_ground::{Conditions, ObjectList, Place, is_instance};
use htn_task::{EqualitySchema, Task, Term};
use std::alloc::{AllocError, Global};

/// Whether an equality holds, so far as both of its terms have objects.
fn equality_so_far(given: &[Option<u16>], equality: &EqualitySchema) -> bool
    ensures { result ≡ spec.equality_so_far given.now equality.now }
{
    match (
        object_of(given, equality.left()),
        object_of(given, equality.right()),
    ) {
        (Some(left), Some(right)) => equality.is_positive() == (left == right),
        _ => true,
    }
}

/// Whether an object has a type that a place names.
fn has_type(task: &Task, type_number: u16, object: u16) -> bool
    ensures { result ≡ model.has_type task.now type_number object }
{
    task.objects_of(type_number).binary_search(&object).is_ok()
}

/// Whether an argument has the type of its place, if it has an object.
fn place_so_far(task: &Task, given: &[Option<u16>], place: Place) -> bool
    ensures { result ≡ spec.place_so_far task.now given.now (place_of place) }
{
    match object_of(given, place.term) {
        Some(object) => has_type(task, place.type_number, object),
        None => true,
    }
}

fn equalities_so_far(given: &[Option<u16>], equalities: &[EqualitySchema]) -> bool
    ensures { result ≡ list_all (spec.equality_so_far given.now) equalities.now }
{
    for equality in equalities {
        if !equality_so_far(given, equality) {
            return false;
        }
    }
    true
}

fn places_so_far(task: &Task, given: &[Option<u16>], places: &[Place]) -> bool
    ensures { result ≡ list_all (spec.place_so_far task.now given.now) (places_of places.now) }
{
    for place in places {
        if !place_so_far(task, given, *place) {
            return false;
        }
    }
    true
}

/// Whether no condition fails at the values that are given.
pub(crate) fn meets_so_far(task: &Task, conditions: &Conditions, given: &[Option<u16>]) -> bool
    ensures { result ≡ spec.meets_so_far task.now conditions.now given.now }
{
    equalities_so_far(given, conditions.equalities())
        && places_so_far(task, given, conditions.places())
}

/// Whether a term is the parameter at a place.
fn is_parameter(term: Term, place: usize) -> bool
    ensures { result ≡ spec.is_parameter (term_of term) place }
{
    match term {
        Term::Parameter(number) => number as usize == place,
        Term::Object(_) => false,
    }
}

/// Whether an equality has the parameter at a place beside one that has no value.
fn ties(given: &[Option<u16>], place: usize, equality: &EqualitySchema) -> bool
    ensures { result ≡ spec.ties given.now place equality.now }
{
    let left = equality.left();
    let right = equality.right();
    (is_parameter(left, place) && object_of(given, right).is_none())
        || (is_parameter(right, place) && object_of(given, left).is_none())
}

/// Whether some equality does.
fn is_tied(given: &[Option<u16>], place: usize, equalities: &[EqualitySchema]) -> bool
    ensures { result ≡ list_any (spec.ties given.now place) equalities.now }
{
    for equality in equalities {
        if ties(given, place, equality) {
            return true;
        }
    }
    false
}

/// The values that are given, of which none is open.
fn values_of(alloc: Global, given: &[Option<u16>]) -> Result<ObjectList, AllocError>
    ensures { IfOk result (λ l. l ≡ spec.values_of given.now) }
{
    let mut values = ObjectList::new(alloc);
    for value in given {
        values.push(value.unwrap_or(0))?;
    }
    Ok(values)
}

/// An instance with the values that are given, where those before `from` all are. A parameter that no
/// equality ties to an open one gets the first object that is allowed, and no other.
fn instance_from(
    alloc: Global,
    task: &Task,
    conditions: &Conditions,
    given: &[Option<u16>],
    from: usize,
) -> Result<Option<ObjectList>, AllocError>
    requires long { length given.now ≡ length conditions.now.parameters }
    requires from { from ≤ length given.now }
    requires filled { IsFilled given.now from }
    ensures { IfOk result (λ r. MatchOption r (HasInstanceWith task.now conditions.now given.now → ⊥) (IsInstanceWith task.now conditions.now given.now)) }
{
    if from == given.len() {
        let values = values_of(alloc, given)?;
        if is_instance(task, conditions, values.as_slice()) {
            return Ok(Some(values));
        }
        return Ok(None);
    }
    if given[from].is_some() {
        return instance_from(alloc, task, conditions, given, from + 1);
    }
    let objects = task.objects_of(conditions.parameters()[from]);
    for object in objects {
        let mut more = Vec::from_slice(alloc, given)?;
        more[from] = Some(*object);
        if meets_so_far(task, conditions, &more) {
            let found = instance_from(alloc, task, conditions, &more, from + 1)?;
            if found.is_some() || !is_tied(&more, from, conditions.equalities()) {
                return Ok(found);
            }
        }
    }
    Ok(None)
}

/// An instance with the values that are given, if there is one.
pub(crate) fn instance_with(
    alloc: Global,
    task: &Task,
    conditions: &Conditions,
    given: &[Option<u16>],
) -> Result<Option<ObjectList>, AllocError>
    requires { length given.now ≡ length conditions.now.parameters }
    ensures { IfOk result (λ r. MatchOption r (HasInstanceWith task.now conditions.now given.now → ⊥) (IsInstanceWith task.now conditions.now given.now)) }
{
    instance_from(alloc, task, conditions, given, 0)
}
