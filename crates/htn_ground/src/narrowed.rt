//! Domains of parameters without objects that positive static literals rule out, before the search for choices.
ghost use Rattle.std.specs.Prelude.{◌≡◌, ◌<◌, [], ◌∷◌, List, ℕ, IfOk, IfSome, IsTrue, OnOk, get_or, length, map, true};
ghost use Rattle.std.specs.List.{All, Contains, filter};
ghost use Rattle.std.specs.List.Sorted.{IsStrictlySortedBy};
ghost use Rattle.std.specs.Ordering.{nat_cmp};
ghost use Rattle.htn_model.specs.Atom.{Atom};
ghost use Rattle.htn_model.specs.Instances as model;
ghost use Rattle.htn_model.specs.State.{contains};
ghost use Rattle.htn_task.specs.Views.{term_of, terms_of};
ghost use Rattle.htn_ground.specs.Narrow.{Narrows, is_choice};

use crate::candidates::last_place;
use crate::fixed::FixedLiteral;
use crate::object_list::ObjectList;
use htn_task::{Atom, State, Term};
use std::alloc::{AllocError, Global};

/// The most atoms of a predicate to be read for each object of the domain that they narrow.
const MOST_ATOMS_PER_OBJECT: usize = 64;

/// The only object that a parameter may stand for, if there is no other.
fn only_object(domains: &[ObjectList], parameter: usize) -> Option<u16>
    ensures { IfSome result (λ o. (values : List ℕ) → is_choice domains.now values ≡ true → get_or values parameter 0 ≡ o) }
{
    let Some(list) = domains.get(parameter) else {
        return None;
    };
    let objects = list.as_slice();
    if objects.len() == 1 {
        return Some(objects[0]);
    }
    None
}

/// A term, or the only object that it may stand for.
fn pinned_term(domains: &[ObjectList], term: Term) -> Term
    ensures { (values : List ℕ) → is_choice domains.now values ≡ true → model.value_of values (term_of result) ≡ model.value_of values (term_of term) }
{
    match term {
        Term::Object(object) => Term::Object(object),
        Term::Parameter(parameter) => match only_object(domains, parameter as usize) {
            Some(object) => Term::Object(object),
            None => Term::Parameter(parameter),
        },
    }
}

/// Terms with an object in place of each parameter that may stand for that alone.
fn pinned_terms(
    alloc: Global,
    domains: &[ObjectList],
    terms: &[Term],
) -> Result<Vec<Term>, AllocError>
    ensures { IfOk result (λ v. (values : List ℕ) → is_choice domains.now values ≡ true
        → map (model.value_of values) (terms_of v.items) ≡ map (model.value_of values) (terms_of terms.now)) }
{
    let mut pinned = Vec::new(alloc);
    for term in terms {
        pinned.push(pinned_term(domains, *term))?;
    }
    Ok(pinned)
}

/// The only parameter among terms that may stand for more than one object, if there is no other.
fn open_parameter(domains: &[ObjectList], terms: &[Term]) -> Option<usize>
    ensures { IfSome result (λ p. p < length domains.now) }
{
    let mut found = None;
    for term in terms {
        if let Term::Parameter(number) = term {
            let parameter = *number as usize;
            if parameter >= domains.len() {
                return None;
            }
            if domains[parameter].len() != 1 {
                if found.is_some_and(|other| other != parameter) {
                    return None;
                }
                found = Some(parameter);
            }
        }
    }
    found
}

/// The true atoms of a predicate.
fn atoms_of<'a>(state: &'a State, predicate: u16) -> &'a [Atom]
    ensures { (a : Atom) → a.predicate ≡ predicate → contains state.now a ≡ true → Contains result.now a }
{
    let atoms = state.atoms();
    let first = atoms.partition_point(|atom| atom.predicate() < predicate);
    let rest = &atoms[first..];
    let count = rest.partition_point(|atom| atom.predicate() <= predicate);
    &rest[..count]
}

/// Whether arguments may be those of an atom over terms.
fn may_be_of(terms: &[Term], arguments: &[u16]) -> bool
    ensures { (values : List ℕ) → arguments.now ≡ map (model.value_of values) (terms_of terms.now) → IsTrue result }
{
    if terms.len() != arguments.len() {
        return false;
    }
    for (place, term) in terms.iter().enumerate() {
        if let Term::Object(object) = term {
            if arguments[place] != *object {
                return false;
            }
        }
    }
    true
}

/// Marks an object, if it has a mark.
fn mark(marks: &mut Vec<bool>, object: u16)
    ensures marked { get_or marks.new.items object true ≡ true }
    ensures others { (o : ℕ) → get_or marks.old.items o true ≡ true → get_or marks.new.items o true ≡ true }
{
    let place = object as usize;
    if place < marks.len() {
        marks[place] = true;
    }
}

/// Marks the object at a place of an atom, if the atom may be one over terms.
fn mark_by(terms: &[Term], place: usize, atom: &Atom, marks: &mut Vec<bool>)
    requires { place < length terms.now }
    ensures marked { (values : List ℕ) → atom.now.arguments ≡ map (model.value_of values) (terms_of terms.now)
        → get_or marks.new.items (get_or atom.now.arguments place 0) true ≡ true }
    ensures others { (o : ℕ) → get_or marks.old.items o true ≡ true → get_or marks.new.items o true ≡ true }
{
    let arguments = atom.arguments();
    if !may_be_of(terms, arguments) {
        return;
    }
    if place >= arguments.len() {
        return;
    }
    mark(marks, arguments[place]);
}

/// For each object below a number whether some atom that may be one over terms has it at a place.
fn marks_of(
    alloc: Global,
    atoms: &[Atom],
    terms: &[Term],
    place: usize,
    count: usize,
) -> Result<Vec<bool>, AllocError>
    requires { place < length terms.now }
    ensures { IfOk result (λ marks. (values : List ℕ) (a : Atom) → Contains atoms.now a → a.arguments ≡ map (model.value_of values) (terms_of terms.now)
        → get_or marks.items (get_or a.arguments place 0) true ≡ true) }
{
    let mut marks = vec![in alloc; false; count]?;
    for atom in atoms {
        mark_by(terms, place, atom, &mut marks);
    }
    Ok(marks)
}

/// Whether an object is marked, or has no mark.
fn is_left(marks: &[bool], object: u16) -> bool
    ensures { result ≡ get_or marks.now object true }
{
    match marks.get(object as usize) {
        Some(is_marked) => *is_marked,
        None => true,
    }
}

/// The objects of a list that are marked or have no mark.
fn objects_left(alloc: Global, marks: &[bool], objects: &[u16]) -> Result<ObjectList, AllocError>
    ensures { IfOk result (λ l. l ≡ filter (λ o. get_or marks.now o true) objects.now) }
{
    let mut left = ObjectList::new(alloc);
    for object in objects {
        if is_left(marks, *object) {
            left.push(*object)?;
        }
    }
    Ok(left)
}

/// One more than the last object of a list.
fn limit_of(objects: &[u16]) -> usize {
    match objects.last() {
        Some(object) => *object as usize + 1,
        None => 0,
    }
}

/// Removes from a parameter's domain the objects with which a positive literal is false, where all other parameters of
/// the literal have one object each. It does nothing where the search finds the objects by the order of the atoms, or
/// where the atoms of the predicate are many against the objects.
fn narrow_by(
    alloc: Global,
    literal: &FixedLiteral,
    state: &State,
    domains: &mut Vec<ObjectList>,
) -> Result<(), AllocError>
    requires { All (IsStrictlySortedBy nat_cmp) domains.old.items }
    ensures narrows { OnOk result (Narrows state.now (literal.now ∷ []) domains.old.items domains.new.items) }
    ensures ascending { OnOk result (All (IsStrictlySortedBy nat_cmp) domains.new.items) }
    ensures long { OnOk result (length domains.new.items ≡ length domains.old.items) }
{
    if !literal.is_positive {
        return Ok(());
    }
    let Some(parameter) = open_parameter(domains, &literal.arguments) else {
        return Ok(());
    };
    let terms = pinned_terms(alloc, domains, &literal.arguments)?;
    let Some(place) = last_place(&terms, parameter) else {
        return Ok(());
    };
    if place + 1 == terms.len() && literal.is_bound(parameter + 1) {
        return Ok(());
    }
    let objects = domains[parameter].as_slice();
    let atoms = atoms_of(state, literal.predicate);
    if atoms.len() / MOST_ATOMS_PER_OBJECT > objects.len() {
        return Ok(());
    }
    let marks = marks_of(alloc, atoms, &terms, place, limit_of(objects))?;
    let left = objects_left(alloc, &marks, objects)?;
    domains[parameter] = left;
    Ok(())
}

/// Removes from the domains of parameters objects with which a literal is false.
pub(crate) fn narrow_domains(
    alloc: Global,
    literals: &[FixedLiteral],
    state: &State,
    domains: &mut Vec<ObjectList>,
) -> Result<(), AllocError>
    requires { All (IsStrictlySortedBy nat_cmp) domains.old.items }
    ensures narrows { OnOk result (Narrows state.now literals.now domains.old.items domains.new.items) }
    ensures ascending { OnOk result (All (IsStrictlySortedBy nat_cmp) domains.new.items) }
    ensures long { OnOk result (length domains.new.items ≡ length domains.old.items) }
{
    for literal in literals {
        narrow_by(alloc, literal, state, domains)?;
    }
    Ok(())
}
