//! Whether entries are those of details of a file.
ghost use Rattle.std.specs.Prelude.{◌≡◌, ◌+◌, IfOk, IsTrue, length};
ghost use Rattle.line_details.specs.Found.{AreFound, AreLinesOf, HaveInstances};
ghost use Rattle.plan_room.specs.Lines.{AreLines};

use crate::entry::Entry;
use crate::instances::{is_initial_instance, is_method_instance};
use crate::room::all_have_room;
use htn_task::Task;
use plan_room::PlanLines;
use plan_text::{DecompositionLine, PlanFile};
use std::alloc::{AllocError, Global};

/// Whether the entry of each decomposition line has an instance of the line's method.
fn have_instances<L: PlanLines>(
    alloc: Global,
    task: &Task,
    lines: &L,
    decompositions: &[DecompositionLine],
    entries: &[Entry],
) -> Result<bool, AllocError>
    requires many { (L.lines lines.now).actions + length entries.now ≡ (L.lines lines.now).count }
    requires same { length entries.now ≡ length decompositions.now }
    ensures { IfOk result (λ b. IsTrue b → HaveInstances task.now (L.lines lines.now) decompositions.now entries.now) }
{
    let actions = lines.actions();
    let _count = lines.count();
    for place in 0..entries.len() {
        let goal = lines.task(actions + place);
        let name = decompositions[place].method();
        if !is_method_instance(alloc, task, goal, name, &entries[place].instance)? {
            return Ok(false);
        }
    }
    Ok(true)
}

/// Whether entries, that of the root line and those of the decomposition lines in turn, show details of a file whose
/// lines run to the goal: each has an instance of its line's method, which is placed in its parent's in the instance's
/// order, with its steps in gaps in which they hold. It takes one pass over the lines and their instances.
pub fn is_certificate<L: PlanLines>(
    alloc: Global,
    task: &Task,
    file: &PlanFile,
    lines: &L,
    root: &Entry,
    entries: &[Entry],
) -> Result<bool, AllocError>
    requires lines { AreLines (L.lines lines.now) }
    requires file { AreLinesOf task.now file.now (L.lines lines.now) }
    ensures { IfOk result (λ b. IsTrue b → AreFound task.now file.now root.now entries.now) }
{
    let decompositions = file.decompositions();
    if entries.len() != decompositions.len() {
        return Ok(false);
    }
    if !all_have_room(alloc, lines, root, entries)? {
        return Ok(false);
    }
    if !is_initial_instance(alloc, task, &root.instance)? {
        return Ok(false);
    }
    let all = have_instances(alloc, task, lines, decompositions, entries)?;
    Ok(all)
}
