//! The values of a schema's instances.
ghost use Rattle.std.specs.Prelude.{◌&&◌, ◌≡◌, ◌+◌, Bool, IfNone, IfOk, IfSome, IsTrue, List, length, map, nat_eq, slice_get, true, ℕ};
ghost use Rattle.std.specs.List.{All, filter, list_all, list_any};
ghost use Rattle.std.specs.List.Sorted.{IsStrictlySortedBy};
ghost use Rattle.std.specs.Ordering.{nat_cmp};
ghost use Rattle.std.specs.Option.{option_to_list};
ghost use Rattle.htn_model.specs.Instance.{Instance};
ghost use Rattle.htn_model.specs.Instances as model;
ghost use Rattle.htn_model.specs.Problem.{Network};
ghost use Rattle.htn_model.specs.Task.{has_type, objects_of};
ghost use Rattle.htn_model.specs.Task as schema;
ghost use Rattle.htn_task.specs.Views.{term_of};
ghost use Rattle.htn_ground.specs.Counted.{fitted, fitting};
ghost use Rattle.htn_ground.specs.Distinct.{gathered};
ghost use Rattle.htn_ground.specs.Places.{place_of, places_of};
ghost use Rattle.htn_ground.specs.Search as search;
ghost use Rattle.htn_ground.specs.Search.{AreBound, AreLiteralsOf, live_from};
ghost use Rattle.htn_ground.specs.Shown.{Ignores};

use crate::at_number::assignment_at;
use crate::conditions::{Conditions, Place};
use crate::distinct::distinct_assignments;
use crate::fixed::FixedLiteral;
use crate::literals::value_of;
use crate::narrowed::narrow_domains;
use crate::object_list::ObjectList;
use crate::relation::{Relation, object_beside};
use crate::search::live_assignments;
use htn_task::{EqualitySchema, Task, Term};
use std::alloc::{AllocError, Global};

/// The truth of an equality that names no parameter.
fn constant_of(positive: bool, left: Term, right: Term) -> bool
    ensures { result ≡ search.constant_of positive (term_of left) (term_of right) }
{
    match (left, right) {
        (Term::Object(x), Term::Object(y)) => positive == (x == y),
        (Term::Object(_), Term::Parameter(_)) | (Term::Parameter(_), _) => true,
    }
}

/// The truth of an equality for an object at a parameter, where it names one parameter.
pub(crate) fn single_of(positive: bool, left: Term, right: Term, place: usize, object: u16) -> bool
    ensures { result ≡ search.single_of positive (term_of left) (term_of right) place object }
{
    match &left {
        Term::Object(x) => match &right {
            Term::Object(_) => true,
            Term::Parameter(b) => place != *b as usize || positive == (object == *x),
        },
        Term::Parameter(a) => match &right {
            Term::Object(y) => place != *a as usize || positive == (object == *y),
            Term::Parameter(_) => true,
        },
    }
}

/// The relation of an equality that names two parameters.
fn relation_of(positive: bool, left: Term, right: Term) -> Option<Relation>
    ensures { option_to_list result ≡ search.relations_of positive (term_of left) (term_of right) }
{
    match &left {
        Term::Object(_) => None,
        Term::Parameter(a) => match &right {
            Term::Object(_) => None,
            Term::Parameter(b) => {
                if positive {
                    Some(Relation::Same(*a, *b))
                } else {
                    Some(Relation::Different(*a, *b))
                }
            }
        },
    }
}

/// Whether an object has a type that a place or a parameter names.
fn has_type(task: &Task, type_number: u16, object: u16) -> bool
    ensures { result ≡ schema.has_type task.now type_number object }
{
    task.objects_of(type_number).binary_search(&object).is_ok()
}

/// The truth of a place's type condition for an object at the place.
fn place_constant(task: &Task, place: Place) -> bool
    ensures { result ≡ search.place_constant task.now (place_of place) }
{
    match place.term {
        Term::Object(object) => has_type(task, place.type_number, object),
        Term::Parameter(_) => true,
    }
}

/// The truth of a place's type condition for an object at a parameter.
fn place_single(task: &Task, place: Place, at: usize, object: u16) -> bool
    ensures { result ≡ search.place_single task.now (place_of place) at object }
{
    match &place.term {
        Term::Object(_) => true,
        Term::Parameter(p) => at != *p as usize || has_type(task, place.type_number, object),
    }
}

fn equality_constants_hold(equalities: &[EqualitySchema]) -> bool
    ensures { result ≡ list_all (λ e. search.constant_of e.is_positive e.left e.right) equalities.now }
{
    for equality in equalities {
        if !constant_of(equality.is_positive(), equality.left(), equality.right()) {
            return false;
        }
    }
    true
}

fn place_constants_hold(task: &Task, places: &[Place]) -> bool
    ensures { result ≡ list_all (search.place_constant task.now) (places_of places.now) }
{
    for place in places {
        if !place_constant(task, *place) {
            return false;
        }
    }
    true
}

/// Whether the conditions on no parameter hold.
fn constants_hold(task: &Task, conditions: &Conditions) -> bool
    ensures { result ≡ search.constants_hold task.now conditions.now }
{
    equality_constants_hold(conditions.equalities())
        && place_constants_hold(task, conditions.places())
}

fn equality_singles_hold(equalities: &[EqualitySchema], at: usize, object: u16) -> bool
    ensures { result ≡ search.equality_singles equalities.now at object }
{
    for equality in equalities {
        if !single_of(
            equality.is_positive(),
            equality.left(),
            equality.right(),
            at,
            object,
        ) {
            return false;
        }
    }
    true
}

fn place_singles_hold(task: &Task, places: &[Place], at: usize, object: u16) -> bool
    ensures { result ≡ search.place_singles task.now (places_of places.now) at object }
{
    for place in places {
        if !place_single(task, *place, at, object) {
            return false;
        }
    }
    true
}

/// Whether the conditions on one parameter allow an object at a place.
fn singles_hold(task: &Task, conditions: &Conditions, at: usize, object: u16) -> bool
    ensures { result ≡ search.singles_of task.now conditions.now at object }
{
    equality_singles_hold(conditions.equalities(), at, object)
        && place_singles_hold(task, conditions.places(), at, object)
}

/// The object that an equality requires of a parameter, if there is one.
fn object_asked(equalities: &[EqualitySchema], at: usize) -> Option<u16>
    ensures { IfSome result (λ x. (o : ℕ) → search.equality_singles equalities.now at o ≡ true → o ≡ x) }
{
    for equality in equalities {
        if equality.is_positive() {
            if let Some(object) = object_beside(equality.left(), equality.right(), at) {
                return Some(object);
            }
        }
    }
    None
}

/// Whether no equality is between a parameter and an object.
fn is_untied(equalities: &[EqualitySchema], at: usize) -> bool
    ensures { IsTrue result → (o : ℕ) → search.equality_singles equalities.now at o ≡ true }
{
    for equality in equalities {
        if object_beside(equality.left(), equality.right(), at).is_some() {
            return false;
        }
    }
    true
}

/// Whether a place is of this type, unless it is an object's or another parameter's.
fn is_of_type(place: Place, at: usize, type_number: u16) -> bool
    ensures { IsTrue result → (t : schema.Task) (o : ℕ) → has_type t type_number o ≡ true
        → search.place_single t (place_of place) at o ≡ true }
{
    match place.term {
        Term::Object(_) => true,
        Term::Parameter(p) => at != p as usize || place.type_number == type_number,
    }
}

/// Whether all places of a parameter have this type.
fn are_of_type(places: &[Place], at: usize, type_number: u16) -> bool
    ensures { IsTrue result → (t : schema.Task) (o : ℕ) → has_type t type_number o ≡ true
        → search.place_singles t (places_of places.now) at o ≡ true }
{
    for place in places {
        if !is_of_type(*place, at, type_number) {
            return false;
        }
    }
    true
}

/// Whether the conditions on one parameter allow all objects of its type.
fn allow_all(conditions: &Conditions, at: usize, type_number: u16) -> bool
    ensures { IsTrue result → (t : schema.Task) (o : ℕ) → has_type t type_number o ≡ true
        → search.singles_of t conditions.now at o ≡ true }
{
    is_untied(conditions.equalities(), at) && are_of_type(conditions.places(), at, type_number)
}

/// Whether an object stands in a list and the conditions on one parameter allow it.
fn is_left(task: &Task, conditions: &Conditions, objects: &[u16], at: usize, object: u16) -> bool
    requires { IsStrictlySortedBy nat_cmp objects.now }
    ensures { result ≡ (list_any (nat_eq object) objects.now && search.singles_of task.now conditions.now at object) }
{
    objects.binary_search(&object).is_ok() && singles_hold(task, conditions, at, object)
}

/// The objects of a list that the conditions on one parameter allow, where they allow this one at most.
fn narrow_to(
    alloc: Global,
    task: &Task,
    conditions: &Conditions,
    objects: &[u16],
    at: usize,
    object: u16,
) -> Result<ObjectList, AllocError>
    requires ascending { IsStrictlySortedBy nat_cmp objects.now }
    requires only { (o : ℕ) → search.singles_of task.now conditions.now at o ≡ true → o ≡ object }
    ensures { IfOk result (λ l. l ≡ filter (search.singles_of task.now conditions.now at) objects.now) }
{
    if !is_left(task, conditions, objects, at, object) {
        return Ok(ObjectList::new(alloc));
    }
    let mut one = ObjectList::new(alloc);
    one.push(object)?;
    Ok(one)
}

/// The objects of a list that the conditions on one parameter allow.
fn narrow_each(
    alloc: Global,
    task: &Task,
    conditions: &Conditions,
    objects: &[u16],
    at: usize,
) -> Result<ObjectList, AllocError>
    ensures { IfOk result (λ l. l ≡ filter (search.singles_of task.now conditions.now at) objects.now) }
{
    let mut kept = ObjectList::new(alloc);
    for object in objects {
        if singles_hold(task, conditions, at, *object) {
            kept.push(*object)?;
        }
    }
    Ok(kept)
}

/// The objects of a type that the conditions on one parameter allow. Each is looked at only where some
/// equality or another type may forbid it.
fn narrow(
    alloc: Global,
    task: &Task,
    conditions: &Conditions,
    type_number: u16,
    at: usize,
) -> Result<ObjectList, AllocError>
    ensures kept { IfOk result (λ l.
        l ≡ filter (search.singles_of task.now conditions.now at) (objects_of task.now type_number)) }
    ensures ascending { IfOk result (IsStrictlySortedBy nat_cmp) }
{
    let objects = task.objects_of(type_number);
    if let Some(object) = object_asked(conditions.equalities(), at) {
        let one = narrow_to(alloc, task, conditions, objects, at, object)?;
        return Ok(one);
    }
    if allow_all(conditions, at, type_number) {
        let all = ObjectList::of(alloc, objects)?;
        return Ok(all);
    }
    let kept = narrow_each(alloc, task, conditions, objects, at)?;
    Ok(kept)
}

/// For each parameter the objects of its type that the conditions on one parameter allow.
fn narrow_all(
    alloc: Global,
    task: &Task,
    conditions: &Conditions,
) -> Result<Vec<ObjectList>, AllocError>
    ensures lists { IfOk result (λ v. v.items ≡ search.narrowed (search.singles_of task.now conditions.now) 0 (model.domains_of task.now conditions.now.parameters)) }
    ensures ascending { IfOk result (λ v. All (IsStrictlySortedBy nat_cmp) v.items) }
{
    let mut lists = Vec::new(alloc);
    for (at, type_number) in conditions.parameters().iter().enumerate() {
        lists.push(narrow(alloc, task, conditions, *type_number, at)?)?;
    }
    Ok(lists)
}

/// The equalities between two parameters.
fn relations_between(
    alloc: Global,
    equalities: &[EqualitySchema],
) -> Result<Vec<Relation>, AllocError>
    ensures { IfOk result (λ v. v.items ≡ search.all_relations equalities.now) }
{
    let mut relations = Vec::new(alloc);
    for equality in equalities {
        if let Some(relation) = relation_of(
            equality.is_positive(),
            equality.left(),
            equality.right(),
        ) {
            relations.push(relation)?;
        }
    }
    Ok(relations)
}

/// The values of a schema's instances that no literal rules out, in lexicographic order, each with
/// its number among all the instances, from `first` on, if that fits; and the number after the last.
pub(crate) fn live_values(
    alloc: Global,
    task: &Task,
    conditions: &Conditions,
    literals: &[FixedLiteral],
    first: Option<u64>,
) -> Result<(Vec<(Option<u64>, ObjectList)>, Option<u64>), AllocError>
    requires bound { AreBound conditions.now }
    requires literals { AreLiteralsOf literals.now (length conditions.now.parameters) }
    ensures found { IfOk result (λ r. (n : ℕ) → first ≡ fitting n → r.0.items ≡ map fitted (live_from task.now.initial_atoms literals.now n (model.instances task.now conditions.now))) }
    ensures next { IfOk result (λ r. (n : ℕ) → first ≡ fitting n → r.1 ≡ fitting (n + length (model.instances task.now conditions.now))) }
{
    if !constants_hold(task, conditions) {
        return Ok((Vec::new(alloc), first));
    }
    let lists = narrow_all(alloc, task, conditions)?;
    let relations = relations_between(alloc, conditions.equalities())?;
    let found = live_assignments(
        alloc,
        &lists,
        &relations,
        literals,
        task.initial_atoms(),
        first,
    )?;
    Ok(found)
}

/// The values of the instance of a number, in lexicographic order; None where the number is past them, and then their
/// count is subtracted from it.
pub(crate) fn values_at(
    alloc: Global,
    task: &Task,
    conditions: &Conditions,
    number: &mut u64,
) -> Result<Option<ObjectList>, AllocError>
    requires { AreBound conditions.now }
    ensures found { IfOk result (λ o. o ≡ slice_get (model.instances task.now conditions.now) number.old) }
    ensures past { IfOk result (λ o. IfNone o (number.old ≡ length (model.instances task.now conditions.now) + number.new)) }
{
    if !constants_hold(task, conditions) {
        return Ok(None);
    }
    let lists = narrow_all(alloc, task, conditions)?;
    let relations = relations_between(alloc, conditions.equalities())?;
    let values = assignment_at(alloc, &lists, &relations, number)?;
    Ok(values)
}

/// Values of a schema's instances, in lexicographic order: of those with one network at least the first,
/// unless a literal rules it out. It says of each parameter whether networks show it.
pub(crate) fn distinct_values(
    alloc: Global,
    task: &Task,
    conditions: &Conditions,
    literals: &[FixedLiteral],
    shown: &[bool],
) -> Result<Vec<ObjectList>, AllocError>
    requires bound { AreBound conditions.now }
    requires long { length shown.now ≡ length conditions.now.parameters }
    ensures { IfOk result (λ found. (passes : Network → Bool) (make : List ℕ → Instance) → Ignores task.now.initial_atoms literals.now shown.now passes make → (kept : List Instance)
        → gathered passes make kept found.items ≡ gathered passes make kept (model.instances task.now conditions.now)) }
{
    if !constants_hold(task, conditions) {
        return Ok(Vec::new(alloc));
    }
    let mut lists = narrow_all(alloc, task, conditions)?;
    let state = task.initial_atoms();
    narrow_domains(alloc, literals, state, &mut lists)?;
    let relations = relations_between(alloc, conditions.equalities())?;
    let found = distinct_assignments(alloc, &lists, &relations, literals, state, shown)?;
    Ok(found)
}

/// Whether an equality holds of values.
fn equality_holds(equality: &EqualitySchema, values: &[u16]) -> bool
    ensures { result ≡ model.equality_holds values.now equality.now }
{
    let left = value_of(values, equality.left());
    let right = value_of(values, equality.right());
    equality.is_positive() == (left == right)
}

fn equalities_hold(equalities: &[EqualitySchema], values: &[u16]) -> bool
    ensures { result ≡ list_all (model.equality_holds values.now) equalities.now }
{
    for equality in equalities {
        if !equality_holds(equality, values) {
            return false;
        }
    }
    true
}

fn places_hold(task: &Task, places: &[Place], values: &[u16]) -> bool
    ensures { result ≡ list_all (λ p. has_type task.now p.1 (model.value_of values.now p.0)) (places_of places.now) }
{
    for place in places {
        if !has_type(task, place.type_number, value_of(values, place.term)) {
            return false;
        }
    }
    true
}

/// Whether all equalities hold and all arguments have the types of their places.
fn meets(task: &Task, conditions: &Conditions, values: &[u16]) -> bool
    ensures { result ≡ model.meets task.now conditions.now values.now }
{
    equalities_hold(conditions.equalities(), values)
        && places_hold(task, conditions.places(), values)
}

/// Whether each object has the type of its place.
fn have_types(task: &Task, types: &[u16], values: &[u16]) -> bool
    ensures { result ≡ model.have_types task.now types.now values.now }
{
    if types.len() != values.len() {
        return false;
    }
    for (place, type_number) in types.iter().enumerate() {
        if !has_type(task, *type_number, values[place]) {
            return false;
        }
    }
    true
}

/// Whether these are the values of an instance.
pub fn is_instance(task: &Task, conditions: &Conditions, values: &[u16]) -> bool
    ensures { result ≡ model.is_instance task.now conditions.now values.now }
{
    have_types(task, conditions.parameters(), values) && meets(task, conditions, values)
}
