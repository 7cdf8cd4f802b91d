//! The choices of objects of which all relations hold and that no literal rules out, with their
//! numbers among all of which the relations hold.
ghost use Rattle.std.specs.Prelude.{◌≡◌, ◌≤◌, ◌+◌, ◌++◌, ℕ, length, map, OnOk, IfOk};
ghost use Rattle.std.specs.List.{All};
ghost use Rattle.std.specs.List.Sorted.{IsStrictlySortedBy};
ghost use Rattle.std.specs.Ordering.{nat_cmp};
ghost use Rattle.htn_ground.specs.Candidates.{Excludes};
ghost use Rattle.htn_ground.specs.Counted.{fitted, fitting};
ghost use Rattle.htn_ground.specs.Search.{AreLiteralsOf, AreRelationsOf, completions, live_from, matches};

use crate::candidates::{Candidates, all_candidates, next_place};
use crate::counts::{bound_relations_hold_of, count_completions, count_run, sum};
use crate::fixed::{FixedLiteral, is_ruled_out};
use crate::object_list::ObjectList;
use crate::relation::Relation;
use htn_task::State;
use std::alloc::{AllocError, Global};

/// Appends the live completions of `values` to `found`, with their numbers from `number` on, so far as
/// these fit.
fn complete_live(
    domains: &[ObjectList],
    relations: &[Relation],
    literals: &[FixedLiteral],
    state: &State,
    candidates: &[Candidates],
    values: &mut ObjectList,
    number: &mut Option<u64>,
    found: &mut Vec<(Option<u64>, ObjectList)>,
) -> Result<(), AllocError>
    requires small { length values.old ≤ length domains.now }
    requires relations { AreRelationsOf relations.now (length domains.now) }
    requires literals { AreLiteralsOf literals.now (length domains.now) }
    requires candidates { All (Excludes state.now literals.now) candidates.now }
    requires ascending { All (IsStrictlySortedBy nat_cmp) domains.now }
    ensures found { OnOk result ((first : ℕ) → number.old ≡ fitting first → found.new.items ≡ found.old.items ++ map fitted (live_from state.now literals.now first (completions domains.now relations.now values.old))) }
    ensures number { OnOk result ((first : ℕ) → number.old ≡ fitting first → number.new ≡ fitting (first + length (completions domains.now relations.now values.old))) }
    ensures values { OnOk result (values.new ≡ values.old) }
{
    if !bound_relations_hold_of(relations, values.as_slice()) {
        return Ok(());
    }
    if is_ruled_out(literals, state, values.as_slice())? {
        let skipped = count_completions(domains, relations, values)?;
        *number = sum(*number, skipped);
        return Ok(());
    }
    let depth = values.len();
    if depth == domains.len() {
        found.push((*number, values.clone()?))?;
        *number = sum(*number, Some(1));
        return Ok(());
    }
    let objects = domains[depth].as_slice();
    let mut place = 0;
    while place < objects.len() {
        let next = next_place(candidates, state, values.as_slice(), objects, place)?;
        if next > place {
            let skipped = count_run(domains, relations, values, &objects[place..next])?;
            *number = sum(*number, skipped);
            place = next;
        } else {
            values.push(objects[place])?;
            complete_live(
                domains, relations, literals, state, candidates, values, number, found,
            )?;
            values.pop();
            place += 1;
        }
    }
    Ok(())
}

/// The assignments of which all relations hold and that no literal rules out, in order, each with its
/// number among all of which the relations hold, from `first` on, if that fits; and the number after the
/// last.
pub(crate) fn live_assignments(
    alloc: Global,
    domains: &[ObjectList],
    relations: &[Relation],
    literals: &[FixedLiteral],
    state: &State,
    first: Option<u64>,
) -> Result<(Vec<(Option<u64>, ObjectList)>, Option<u64>), AllocError>
    requires relations { AreRelationsOf relations.now (length domains.now) }
    requires literals { AreLiteralsOf literals.now (length domains.now) }
    requires ascending { All (IsStrictlySortedBy nat_cmp) domains.now }
    ensures found { IfOk result (λ r. (n : ℕ) → first ≡ fitting n → r.0.items ≡ map fitted (live_from state.now literals.now n (matches domains.now relations.now))) }
    ensures next { IfOk result (λ r. (n : ℕ) → first ≡ fitting n → r.1 ≡ fitting (n + length (matches domains.now relations.now))) }
{
    let candidates = all_candidates(alloc, domains, literals, state)?;
    let mut values = ObjectList::new(alloc);
    let mut number = first;
    let mut found = Vec::new(alloc);
    complete_live(
        domains,
        relations,
        literals,
        state,
        &candidates,
        &mut values,
        &mut number,
        &mut found,
    )?;
    Ok((found, number))
}
