//! All completions of the values that are given to some parameters of a schema, so far as networks show them.
ghost use Rattle.std.specs.Prelude.{◌≡◌, ◌≤◌, OnOk, length, map};
ghost use Rattle.plan_lines.specs.Allowed.{IsInstanceWith};
ghost use Rattle.plan_lines.specs.Found.{AreAlike, AreFound, AreShownFilled, MayFit};

use crate::completion::{instance_with, meets_so_far};
use crate::ever::Search;
use htn_ground::{ObjectList, is_hidden};
use std::alloc::{AllocError, Global};

/// Appends values of instances, with those that are given, where those before `from` that are shown all are: of those
/// that differ at parameters alone that are not shown one. It recurses no deeper than there are parameters.
pub(crate) fn push_completions(
    alloc: Global,
    search: &Search<'_, '_>,
    given: &[Option<u16>],
    from: usize,
    found: &mut Vec<ObjectList>,
) -> Result<(), AllocError>
    requires long { length given.now ≡ length search.now.conditions.now.parameters }
    requires from { from ≤ length given.now }
    requires filled { AreShownFilled search.now.shown.now given.now from }
    ensures { OnOk result (AreFound (AreAlike search.now.shown.now) (IsInstanceWith search.now.task.now search.now.conditions.now given.now)
        (MayFit search.now.task.now search.now.conditions.now search.now.ever.now (map (λ a. a.now) search.now.atoms.now) given.now) found.old.items found.new.items) }
{
    if from == given.len() {
        if let Some(values) = instance_with(alloc, search.task, search.conditions, given)? {
            found.push(values)?;
        }
        return Ok(());
    }
    if given[from].is_some() || is_hidden(search.shown, from) {
        return push_completions(alloc, search, given, from + 1, found);
    }
    let objects = search.task.objects_of(search.conditions.parameters()[from]);
    for object in objects {
        let mut more = Vec::from_slice(alloc, given)?;
        more[from] = Some(*object);
        if meets_so_far(search.task, search.conditions, &more) {
            push_completions(alloc, search, &more, from + 1, found)?;
        }
    }
    Ok(())
}
