//! Whether the children of lines have room as their entries say.
ghost use Rattle.std.specs.Prelude.{◌≡◌, ◌<◌, ◌+◌, All, IfOk, IsTrue, length};
ghost use Rattle.htn_model.specs.Fits.{subtask_positions};
ghost use Rattle.htn_model.specs.PlanFile.{IsRearrangementOf};
ghost use Rattle.line_details.specs.Entries.{AllHaveRoom, HasRoomIn, LinesHaveRoom};
ghost use Rattle.plan_room.specs.Lines.{AreLines};

use crate::entry::Entry;
use crate::placing::{are_held, are_seated, are_subtasks, are_within, keeps_order, marks_of};
use htn_ground::Instance;
use plan_room::PlanLines;
use std::alloc::{AllocError, Global};

/// Whether the positions of an instance's subtasks are listed, each once.
fn lists_subtasks(
    alloc: Global,
    instance: &Instance,
    positions: &[usize],
) -> Result<bool, AllocError>
    ensures { IfOk result (λ b. IsTrue b → IsRearrangementOf positions.now (subtask_positions 0 instance.now.network.children)) }
{
    let nodes = instance.children().as_slice();
    match marks_of(alloc, positions, nodes.len())? {
        Some(marks) => Ok(are_subtasks(nodes, &marks)),
        None => Ok(false),
    }
}

/// Whether a line's children stand as the subtasks of its instance where the entry says, each between the gaps of its
/// position, in the instance's order, and with the instance's steps in gaps in which they hold.
fn has_room_by<L: PlanLines>(
    alloc: Global,
    lines: &L,
    entries: &[Entry],
    entry: &Entry,
    children: &[usize],
) -> Result<bool, AllocError>
    requires lines { AreLines (L.lines lines.now) }
    requires low { All (λ c. c < (L.lines lines.now).count) children.now }
    ensures { IfOk result (λ b. IsTrue b → HasRoomIn (L.lines lines.now) entries.now entry.now children.now) }
{
    if !lists_subtasks(alloc, &entry.instance, &entry.positions)? {
        return Ok(false);
    }
    let nodes = entry.instance.children().as_slice();
    Ok(
        are_seated(lines, entries, nodes, entry, children)
            && are_within(entry)
            && keeps_order(entry.instance.order(), entry)
            && are_held(lines, nodes, entry),
    )
}

/// Whether the children of each decomposition line have room by its entry.
fn lines_have_room<L: PlanLines>(
    alloc: Global,
    lines: &L,
    entries: &[Entry],
) -> Result<bool, AllocError>
    requires lines { AreLines (L.lines lines.now) }
    requires many { (L.lines lines.now).actions + length entries.now ≡ (L.lines lines.now).count }
    ensures { IfOk result (λ b. IsTrue b → LinesHaveRoom (L.lines lines.now) entries.now) }
{
    let actions = lines.actions();
    let _count = lines.count();
    for place in 0..entries.len() {
        let children = lines.children(actions + place);
        if !has_room_by(alloc, lines, entries, &entries[place], children)? {
            return Ok(false);
        }
    }
    Ok(true)
}

/// Whether the children of each decomposition line have room by its entry, and the roots in the whole plan by theirs.
pub(crate) fn all_have_room<L: PlanLines>(
    alloc: Global,
    lines: &L,
    root: &Entry,
    entries: &[Entry],
) -> Result<bool, AllocError>
    requires lines { AreLines (L.lines lines.now) }
    ensures { IfOk result (λ b. IsTrue b → AllHaveRoom (L.lines lines.now) root.now entries.now) }
{
    let count = lines.count();
    if count - lines.actions() != entries.len() || lines.actions() < root.to {
        return Ok(false);
    }
    if !has_room_by(alloc, lines, entries, root, lines.roots())? {
        return Ok(false);
    }
    let all = lines_have_room(alloc, lines, entries)?;
    Ok(all)
}
