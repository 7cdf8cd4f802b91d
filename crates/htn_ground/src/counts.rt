//! How many choices of objects there are of which all relations hold.
ghost use Rattle.std.specs.Prelude.{◌≡◌, ◌≤◌, ◌<◌, ◌+◌, ◌*◌, ◌++◌, ◌∷◌, ◌&&◌, ℕ, [], length, nat_eq, OnOk, IfNone, IfOk, IfSome, true};
ghost use Rattle.std.specs.List.{All, filter, flat_map, list_any};
ghost use Rattle.std.specs.List.Sorted.{IsStrictlySortedBy};
ghost use Rattle.std.specs.Ordering.{nat_cmp};
ghost use Rattle.htn_ground.specs.Counted.{fitting};
ghost use Rattle.htn_ground.specs.Search.{AreRelationsOf, bound_relations_hold, completions, is_equality, product, relation_single, relation_singles, some_starts_at};

use crate::object_list::ObjectList;
use crate::relation::Relation;
use std::alloc::AllocError;

/// Whether the relations hold that are between parameters with values.
pub(crate) fn bound_relations_hold_of(relations: &[Relation], values: &[u16]) -> bool
    ensures { result ≡ bound_relations_hold relations.now values.now }
{
    relations.iter().all(|relation| relation.depth() > values.len() || relation.holds(values))
}

/// The number of assignments to the parameters from the first list on.
pub(crate) fn count_assignments(domains: &[ObjectList]) -> Option<u64>
    ensures { IfSome result (λ n. n ≡ product domains.now) }
{
    let mut count: u64 = 1;
    for domain in domains {
        count = count.checked_mul(domain.len() as u64)?;
    }
    Some(count)
}

/// The sum of two numbers, of which either may not fit.
pub(crate) fn sum(a: Option<u64>, b: Option<u64>) -> Option<u64>
    ensures { (m n : ℕ) → a ≡ fitting m → b ≡ fitting n → result ≡ fitting (m + n) }
{
    match (a, b) {
        (Some(a), Some(b)) => a.checked_add(b),
        _ => None,
    }
}

/// The product of two numbers, of which the second may not fit.
fn product_of(a: u64, b: Option<u64>) -> Option<u64>
    ensures { (n : ℕ) → b ≡ fitting n → result ≡ fitting (a * n) }
{
    if a == 0 {
        return Some(0);
    }
    match b {
        Some(b) => a.checked_mul(b),
        None => None,
    }
}

/// Whether some relation has its first parameter at this place.
pub(crate) fn some_starts_at(relations: &[Relation], place: usize) -> bool
    ensures { result ≡ some_starts_at relations.now place }
{
    relations.iter().any(|relation| relation.start() == place)
}

/// Whether all relations allow an object at a place, where their other parameters have values.
pub(crate) fn all_allow(relations: &[Relation], values: &[u16], place: usize, object: u16) -> bool
    ensures { result ≡ relation_singles relations.now values.now place object }
{
    for relation in relations {
        if !relation.allows(values, place, object) {
            return false;
        }
    }
    true
}

/// Whether an object stands in a list and all relations allow it at a place.
fn is_allowed(
    relations: &[Relation],
    values: &[u16],
    place: usize,
    objects: &[u16],
    object: u16,
) -> bool
    requires { IsStrictlySortedBy nat_cmp objects.now }
    ensures { result ≡ (list_any (nat_eq object) objects.now && relation_singles relations.now values.now place object) }
{
    objects.binary_search(&object).is_ok() && all_allow(relations, values, place, object)
}

/// How many objects all relations allow at a place: an equality leaves one at most, and each negated
/// one takes off one at most.
fn count_allowed(relations: &[Relation], values: &[u16], place: usize, objects: &[u16]) -> u64
    requires { IsStrictlySortedBy nat_cmp objects.now }
    ensures { result ≡ length (filter (relation_singles relations.now values.now place) objects.now) }
{
    let mut count = objects.len() as u64;
    for (number, relation) in relations.iter().enumerate() {
        if let Some(object) = relation.other_value(values, place) {
            if relation.is_equality() {
                return u64::from(is_allowed(relations, values, place, objects, object));
            }
            if is_allowed(&relations[..number], values, place, objects, object) {
                count -= 1;
            }
        }
    }
    count
}

/// The only object that an equality allows at a place.
fn only_allowed(relations: &[Relation], values: &[u16], place: usize) -> Option<u16>
    ensures some { IfSome result (λ x. (o : ℕ) → relation_singles relations.now values.now place o ≡ true → o ≡ x) }
    ensures none { IfNone result (All (λ r. is_equality r ≡ true → (o : ℕ) → relation_single values.now r place o ≡ true) relations.now) }
{
    for relation in relations {
        if relation.is_equality() {
            if let Some(object) = relation.other_value(values, place) {
                return Some(object);
            }
        }
    }
    None
}

/// An object that all relations allow at a place.
fn first_allowed(
    relations: &[Relation],
    values: &[u16],
    place: usize,
    objects: &[u16],
) -> Option<u16>
    requires { IsStrictlySortedBy nat_cmp objects.now }
    ensures some { IfSome result (λ o. relation_singles relations.now values.now place o ≡ true) }
    ensures none { IfNone result (filter (relation_singles relations.now values.now place) objects.now ≡ []) }
{
    if let Some(object) = only_allowed(relations, values, place) {
        if is_allowed(relations, values, place, objects, object) {
            return Some(object);
        }
        return None;
    }
    for object in objects {
        if all_allow(relations, values, place, *object) {
            return Some(*object);
        }
    }
    None
}

/// The number of the completions of `values`, if it fits. Objects of a parameter are gone through only
/// where a relation to a later parameter starts; at any other, those that are allowed count alike.
pub(crate) fn count_completions(
    domains: &[ObjectList],
    relations: &[Relation],
    values: &mut ObjectList,
) -> Result<Option<u64>, AllocError>
    requires small { length values.old ≤ length domains.now }
    requires relations { AreRelationsOf relations.now (length domains.now) }
    requires ascending { All (IsStrictlySortedBy nat_cmp) domains.now }
    ensures count { IfOk result (λ n. n ≡ fitting (length (completions domains.now relations.now values.old))) }
    ensures values { OnOk result (values.new ≡ values.old) }
{
    if !bound_relations_hold_of(relations, values.as_slice()) {
        return Ok(Some(0));
    }
    let depth = values.len();
    if depth == domains.len() {
        return Ok(Some(1));
    }
    let objects = domains[depth].as_slice();
    if !some_starts_at(relations, depth) {
        let Some(object) = first_allowed(relations, values.as_slice(), depth, objects) else {
            return Ok(Some(0));
        };
        let allowed = count_allowed(relations, values.as_slice(), depth, objects);
        if depth + 1 == domains.len() {
            return Ok(Some(allowed));
        }
        values.push(object)?;
        let each = count_completions(domains, relations, values)?;
        values.pop();
        let count = product_of(allowed, each);
        return Ok(count);
    }
    let mut count = Some(0);
    for object in objects {
        values.push(*object)?;
        let more = count_completions(domains, relations, values)?;
        values.pop();
        count = sum(count, more);
    }
    Ok(count)
}

/// The number of the completions of `values` by one of some objects at the next parameter, if it fits.
pub(crate) fn count_run(
    domains: &[ObjectList],
    relations: &[Relation],
    values: &mut ObjectList,
    run: &[u16],
) -> Result<Option<u64>, AllocError>
    requires small { length values.old < length domains.now }
    requires relations { AreRelationsOf relations.now (length domains.now) }
    requires ascending { All (IsStrictlySortedBy nat_cmp) domains.now }
    requires run { IsStrictlySortedBy nat_cmp run.now }
    ensures count { IfOk result (λ n. n ≡ fitting (length (flat_map (λ object. completions domains.now relations.now (values.old ++ object ∷ [])) run.now))) }
    ensures values { OnOk result (values.new ≡ values.old) }
{
    let depth = values.len();
    if !some_starts_at(relations, depth) {
        let Some(object) = first_allowed(relations, values.as_slice(), depth, run) else {
            return Ok(Some(0));
        };
        let allowed = count_allowed(relations, values.as_slice(), depth, run);
        values.push(object)?;
        let each = count_completions(domains, relations, values)?;
        values.pop();
        let count = product_of(allowed, each);
        return Ok(count);
    }
    let mut count = Some(0);
    for object in run {
        values.push(*object)?;
        let more = count_completions(domains, relations, values)?;
        values.pop();
        count = sum(count, more);
    }
    Ok(count)
}
