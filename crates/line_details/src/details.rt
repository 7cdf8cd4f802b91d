//! The instances of a valid file's lines and the gaps of their steps, as far as they are shown.
ghost use Rattle.std.specs.Prelude.{IfOk, IfSome};
ghost use Rattle.line_details.specs.Found.{AreFound, AreLinesOf};
ghost use Rattle.plan_room.specs.Lines.{AreLines};

use crate::certificate::is_certificate;
use crate::entry::Entry;
use htn_task::Task;
use plan_room::{PlacedLine, PlanLines, find_places};
use plan_text::PlanFile;
use std::alloc::{AllocError, Global};

/// An entry for the root line, and one for each decomposition line, in the file's order.
pub struct Entries {
    pub root: Entry,
    pub lines: Vec<Entry>,
}

// `Drop` is written by hand: a derived one is expanded, and proved, at each way out of each owner.
impl Drop for Entries {
    fn drop(self) {
        let Entries { root: _, lines: _ } = self;
    }
}

/// Entries, wherever they come from, if they show details of the file.
pub fn checked<L: PlanLines>(
    alloc: Global,
    task: &Task,
    file: &PlanFile,
    lines: &L,
    entries: Entries,
) -> Result<Option<Entries>, AllocError>
    requires lines { AreLines (L.lines lines.now) }
    requires file { AreLinesOf task.now file.now (L.lines lines.now) }
    ensures { IfOk result (λ r. IfSome r (λ found. AreFound task.now file.now found.root found.lines.items)) }
{
    let is_shown = is_certificate(alloc, task, file, lines, &entries.root, &entries.lines)?;
    if is_shown {
        Ok(Some(entries))
    } else {
        Ok(None)
    }
}

/// What was found of a line as an entry.
fn entry_of(placed: PlacedLine) -> Entry {
    let (from, to) = placed.gaps();
    let (instance, positions, start, finish) = placed.into_parts();
    Entry {
        instance,
        from,
        to,
        positions,
        start,
        finish,
    }
}

/// What was found of all lines as entries: the last is that of the root line.
fn entries_of(
    alloc: Global,
    found: Vec<(usize, PlacedLine)>,
) -> Result<Option<Entries>, AllocError> {
    let mut lines = Vec::with_capacity(alloc, found.len())?;
    for (_, placed) in found {
        lines.push(entry_of(placed))?;
    }
    let Some(root) = lines.pop() else {
        return Ok(None);
    };
    Ok(Some(Entries { root, lines }))
}

/// Entries that show details of a file whose lines run to the goal, if some are found.
pub fn find_details<L: PlanLines>(
    alloc: Global,
    task: &Task,
    file: &PlanFile,
    lines: &L,
) -> Result<Option<Entries>, AllocError>
    requires lines { AreLines (L.lines lines.now) }
    requires file { AreLinesOf task.now file.now (L.lines lines.now) }
    ensures { IfOk result (λ r. IfSome r (λ found. AreFound task.now file.now found.root found.lines.items)) }
{
    let found = find_places(alloc, lines)?;
    let Some(entries) = entries_of(alloc, found)? else {
        return Ok(None);
    };
    let shown = checked(alloc, task, file, lines, entries)?;
    Ok(shown)
}
