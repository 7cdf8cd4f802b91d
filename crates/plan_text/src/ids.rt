//! The ids of a file's lines, and the lines that listed ids are.
ghost use Rattle.std.specs.Prelude.{◌≡◌, ◌∷◌, [], IfOk, MatchOption};
ghost use Rattle.std.specs.Bool.{MatchBool};
ghost use Rattle.htn_model.specs.PlanFile.{IsWithoutRepeats, action_ids, all_children, decomposition_ids, defined_ids, listed_ids};
ghost use Rattle.plan_text.specs.Forest.{lists_of};
ghost use Rattle.plan_text.specs.Numbers.{AreNew, AreNumbersOf, AreNumbersOfChildren, IsUnknown};

use crate::plan_file::{ActionLine, DecompositionLine, PlanFile};
use indexmap::IndexSet;
use std::alloc::{AllocError, Global};

/// Adds an id where it is new.
fn add(ids: &mut IndexSet<u64>, id: u64) -> Result<bool, AllocError>
    requires { IsWithoutRepeats ids.old.keys }
    ensures { IfOk result (AreNew ids.old.keys ids.new.keys (id ∷ [])) }
{
    let added = ids.insert(id)?;
    Ok(added)
}

/// Adds the ids of a list, and says whether each of them is new.
fn add_all(ids: &mut IndexSet<u64>, more: &[u64]) -> Result<bool, AllocError>
    requires { IsWithoutRepeats ids.old.keys }
    ensures { IfOk result (AreNew ids.old.keys ids.new.keys more.now) }
{
    for id in more {
        if !add(ids, *id)? {
            return Ok(false);
        }
    }
    Ok(true)
}

/// Adds the ids of action lines, and says whether each of them is new.
fn add_actions(ids: &mut IndexSet<u64>, lines: &[ActionLine]) -> Result<bool, AllocError>
    requires { IsWithoutRepeats ids.old.keys }
    ensures { IfOk result (AreNew ids.old.keys ids.new.keys (action_ids lines.now)) }
{
    for line in lines {
        if !add(ids, line.id())? {
            return Ok(false);
        }
    }
    Ok(true)
}

/// Adds the ids of decomposition lines, and says whether each of them is new.
fn add_decompositions(
    ids: &mut IndexSet<u64>,
    lines: &[DecompositionLine],
) -> Result<bool, AllocError>
    requires { IsWithoutRepeats ids.old.keys }
    ensures { IfOk result (AreNew ids.old.keys ids.new.keys (decomposition_ids lines.now)) }
{
    for line in lines {
        if !add(ids, line.id())? {
            return Ok(false);
        }
    }
    Ok(true)
}

/// Adds the children of decomposition lines, and says whether each of them is new.
fn add_children(ids: &mut IndexSet<u64>, lines: &[DecompositionLine]) -> Result<bool, AllocError>
    requires { IsWithoutRepeats ids.old.keys }
    ensures { IfOk result (AreNew ids.old.keys ids.new.keys (all_children lines.now)) }
{
    for line in lines {
        if !add_all(ids, line.children())? {
            return Ok(false);
        }
    }
    Ok(true)
}

/// The ids of a file's lines, each line's at the line's number; none where two lines have one id.
pub(crate) fn defined(alloc: Global, file: &PlanFile) -> Result<Option<IndexSet<u64>>, AllocError>
    ensures { IfOk result (λ r. MatchOption r (IsWithoutRepeats (defined_ids file.now) → ⊥) (λ ids. (ids.keys ≡ defined_ids file.now) × IsWithoutRepeats ids.keys)) }
{
    let mut ids = IndexSet::new(alloc);
    if !add_actions(&mut ids, file.actions())? {
        return Ok(None);
    }
    if !add_decompositions(&mut ids, file.decompositions())? {
        return Ok(None);
    }
    Ok(Some(ids))
}

/// Whether no id is listed twice.
pub(crate) fn is_listed_once(alloc: Global, file: &PlanFile) -> Result<bool, AllocError>
    ensures { IfOk result (λ b. MatchBool b (IsWithoutRepeats (listed_ids file.now)) (IsWithoutRepeats (listed_ids file.now) → ⊥)) }
{
    let mut ids = IndexSet::new(alloc);
    if !add_all(&mut ids, file.roots())? {
        return Ok(false);
    }
    add_children(&mut ids, file.decompositions())
}

/// The numbers of the lines with these ids; none where one of the ids is no line's.
pub(crate) fn numbers_of(
    alloc: Global,
    ids: &IndexSet<u64>,
    listed: &[u64],
) -> Result<Option<Vec<usize>>, AllocError>
    ensures { IfOk result (λ r. MatchOption r (IsUnknown ids.now.keys listed.now) (λ numbers. AreNumbersOf ids.now.keys numbers.items listed.now)) }
{
    let mut numbers = Vec::new(alloc);
    for id in listed {
        match ids.get_index_of(id) {
            Some(number) => numbers.push(number)?,
            None => return Ok(None),
        }
    }
    Ok(Some(numbers))
}

/// The numbers of the children of each line; none where one of the ids is no line's.
pub(crate) fn numbers_of_children(
    alloc: Global,
    ids: &IndexSet<u64>,
    lines: &[DecompositionLine],
) -> Result<Option<Vec<Vec<usize>>>, AllocError>
    ensures { IfOk result (λ r. MatchOption r (IsUnknown ids.now.keys (all_children lines.now)) (λ numbers. AreNumbersOfChildren ids.now.keys (lists_of numbers.items) lines.now)) }
{
    let mut numbers = Vec::new(alloc);
    for line in lines {
        match numbers_of(alloc, ids, line.children())? {
            Some(children) => numbers.push(children)?,
            None => return Ok(None),
        }
    }
    Ok(Some(numbers))
}
