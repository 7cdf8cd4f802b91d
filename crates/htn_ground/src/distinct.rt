//! The choices of objects of which all relations hold and that no literal rules out: of those that
//! differ at parameters alone that their networks do not show, no more than the first need be found.
ghost use Rattle.std.specs.Prelude.{◌≡◌, ◌<◌, ◌≤◌, ◌++◌, Bool, IfOk, IsTrue, List, OnOk, length, ℕ};
ghost use Rattle.std.specs.List.{All};
ghost use Rattle.std.specs.List.Sorted.{IsStrictlySortedBy};
ghost use Rattle.std.specs.Ordering.{nat_cmp};
ghost use Rattle.htn_model.specs.Instance.{Instance};
ghost use Rattle.htn_model.specs.Problem.{Network};
ghost use Rattle.htn_ground.specs.Candidates.{Excludes};
ghost use Rattle.htn_ground.specs.Distinct.{gathered};
ghost use Rattle.htn_ground.specs.Search.{AreRelationsOf, completions, matches};
ghost use Rattle.htn_ground.specs.Shown.{AreHiddenFrom, Ignores, StandsForAll};

use crate::candidates::{Candidates, all_candidates, next_place};
use crate::counts::{all_allow, bound_relations_hold_of, some_starts_at};
use crate::fixed::{FixedLiteral, is_ruled_out};
use crate::object_list::ObjectList;
use crate::relation::Relation;
use crate::shown::{hidden_from, is_hidden};
use htn_task::State;
use std::alloc::{AllocError, Global};

/// Whether one object stands for all others at the next parameter: that is hidden and in no relation to a
/// later one, and all relations allow the object.
fn is_enough(relations: &[Relation], shown: &[bool], values: &[u16], object: u16) -> bool
    ensures { IsTrue result → StandsForAll relations.now shown.now values.now object }
{
    let depth = values.len();
    is_hidden(shown, depth)
        && !some_starts_at(relations, depth)
        && all_allow(relations, values, depth, object)
}

/// Appends completions of `values` to `found`, of those with one network at least the first. Where all
/// parameters that are left are hidden one is enough, and so is one object that stands for all.
fn complete_distinct(
    domains: &[ObjectList],
    relations: &[Relation],
    literals: &[FixedLiteral],
    state: &State,
    candidates: &[Candidates],
    shown: &[bool],
    reach: usize,
    values: &mut ObjectList,
    found: &mut Vec<ObjectList>,
) -> Result<(), AllocError>
    requires small { length values.old ≤ length domains.now }
    requires relations { AreRelationsOf relations.now (length domains.now) }
    requires candidates { All (Excludes state.now literals.now) candidates.now }
    requires ascending { All (IsStrictlySortedBy nat_cmp) domains.now }
    requires long { length shown.now ≡ length domains.now }
    requires reach { AreHiddenFrom shown.now reach }
    ensures found { OnOk result ((passes : Network → Bool) (make : List ℕ → Instance) → Ignores state.now literals.now shown.now passes make → (kept : List Instance)
        → gathered passes make kept found.new.items ≡ gathered passes make kept (found.old.items ++ completions domains.now relations.now values.old)) }
    ensures grows { OnOk result (length found.old.items ≤ length found.new.items) }
    ensures some { OnOk result (length found.old.items < length found.new.items → 0 < length (completions domains.now relations.now values.old)) }
    ensures values { OnOk result (values.new ≡ values.old) }
{
    if !bound_relations_hold_of(relations, values.as_slice()) {
        return Ok(());
    }
    if is_ruled_out(literals, state, values.as_slice())? {
        return Ok(());
    }
    let depth = values.len();
    if depth == domains.len() {
        found.push(values.clone()?)?;
        return Ok(());
    }
    let objects = domains[depth].as_slice();
    let start = found.len();
    let mut place = 0;
    while place < objects.len() {
        let next = next_place(candidates, state, values.as_slice(), objects, place)?;
        if next > place {
            place = next;
        } else {
            let object = objects[place];
            let enough = is_enough(relations, shown, values.as_slice(), object);
            values.push(object)?;
            complete_distinct(
                domains, relations, literals, state, candidates, shown, reach, values, found,
            )?;
            values.pop();
            if enough {
                return Ok(());
            }
            if reach <= depth && found.len() > start {
                return Ok(());
            }
            place += 1;
        }
    }
    Ok(())
}

/// Choices of which all relations hold, in order: of those with one network at least the first, unless a
/// literal rules it out.
pub(crate) fn distinct_assignments(
    alloc: Global,
    domains: &[ObjectList],
    relations: &[Relation],
    literals: &[FixedLiteral],
    state: &State,
    shown: &[bool],
) -> Result<Vec<ObjectList>, AllocError>
    requires relations { AreRelationsOf relations.now (length domains.now) }
    requires ascending { All (IsStrictlySortedBy nat_cmp) domains.now }
    requires long { length shown.now ≡ length domains.now }
    ensures { IfOk result (λ found. (passes : Network → Bool) (make : List ℕ → Instance) → Ignores state.now literals.now shown.now passes make → (kept : List Instance)
        → gathered passes make kept found.items ≡ gathered passes make kept (matches domains.now relations.now)) }
{
    let candidates = all_candidates(alloc, domains, literals, state)?;
    let mut values = ObjectList::new(alloc);
    let mut found = Vec::new(alloc);
    complete_distinct(
        domains,
        relations,
        literals,
        state,
        &candidates,
        shown,
        hidden_from(shown),
        &mut values,
        &mut found,
    )?;
    Ok(found)
}
