//! The values of all instances whose subtasks are given tasks and whose step may hold.
ghost use Rattle.std.specs.Prelude.{◌≡◌, IfOk, OnOk, length, map};
ghost use Rattle.plan_lines.specs.Allowed.{IsInstanceWith};
ghost use Rattle.plan_lines.specs.Found.{AreAlike, AreFound, AreValuesToFit, MayFit};
ghost use Rattle.plan_lines.specs.Left.{Fill};

use crate::children::Children;
use crate::ever::{Search, is_ruled_out, positive_atoms};
use crate::ever_true::EverTrue;
use crate::instances::references;
use crate::joining::push_joined;
use crate::search::{is_used_up, matched, settle};
use htn_ground::{Conditions, ObjectList, shown_parameters};
use htn_task::{FormulaList, NetworkSchema, Task, TaskSchema};
use std::alloc::{AllocError, Global};

/// Appends values of instances, with those that are given, of which the tasks that are left are those of the schemas.
/// It
/// recurses no deeper than there are parameters.
fn push_matching(
    alloc: Global,
    search: &Search<'_, '_>,
    children: &Children,
    schemas: &[&TaskSchema],
    given: &[Option<u16>],
    mut left: Vec<usize>,
    found: &mut Vec<ObjectList>,
) -> Result<(), AllocError>
    requires given { length given.now ≡ length search.now.conditions.now.parameters }
    requires left { length left.items ≡ length children.now }
    ensures { OnOk result (AreFound (AreAlike search.now.shown.now) (IsInstanceWith search.now.task.now search.now.conditions.now given.now)
        (λ values. MayFit search.now.task.now search.now.conditions.now search.now.ever.now (map (λ a. a.now) search.now.atoms.now) given.now values
        × Fill children.now left.items (map (λ s. s.now) schemas.now) values) found.old.items found.new.items) }
{
    let Some(kept) = settle(alloc, children, schemas, given, &mut left)? else {
        return Ok(());
    };
    let (first, rest) = match kept.split_first() {
        Some(parts) => parts,
        None => {
            if is_used_up(children, &left) {
                push_joined(alloc, search, search.atoms, given, found)?;
            }
            return Ok(());
        }
    };
    for number in 0..children.len() {
        if let Some(next) = matched(alloc, children, number, first, given, &left)? {
            let (more, fewer) = next;
            if !is_ruled_out(alloc, search, &more)? {
                push_matching(alloc, search, children, rest, &more, fewer, found)?;
            }
        }
    }
    Ok(())
}

/// The values of a schema's instances, with those that are given, of which the children's tasks are the subtasks and
/// whose step may hold: some for each network.
pub(crate) fn values_to_fit(
    alloc: Global,
    task: &Task,
    ever: &EverTrue<'_>,
    conditions: &Conditions,
    precondition: &FormulaList,
    network: &NetworkSchema,
    children: &Children,
    counts: &[usize],
    given: &[Option<u16>],
) -> Result<Vec<ObjectList>, AllocError>
    requires given { length given.now ≡ length conditions.now.parameters }
    requires counts { length counts.now ≡ length children.now }
    ensures { IfOk result (λ v. AreValuesToFit task.now ever.now children.now counts.now precondition.now network.now (IsInstanceWith task.now conditions.now given.now) v.items) }
{
    let atoms = positive_atoms(alloc, precondition)?;
    let shown = shown_parameters(alloc, precondition, network, given.len())?;
    let search = Search {
        task,
        conditions,
        atoms: &atoms,
        shown: &shown,
        ever,
    };
    let mut found = Vec::new(alloc);
    if is_ruled_out(alloc, &search, given)? {
        return Ok(found);
    }
    let all = references(alloc, network.subtasks())?;
    let left = Vec::from_slice(alloc, counts)?;
    push_matching(alloc, &search, children, &all, given, left, &mut found)?;
    Ok(found)
}
