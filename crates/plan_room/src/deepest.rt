//! The deepest line that has no room, whatever is beside it.
ghost use Rattle.std.specs.Prelude.{◌↔◌, IfOk, IsTrue, MatchOption, OnOk};
ghost use Rattle.plan_room.specs.Deepest.{DeepestBlock, DeepestExist, HasOwnRoom, IsChildWithoutRoom, IsDeepest, RoomIsPassedOn};
ghost use Rattle.plan_room.specs.Frames.{IsLine};
ghost use Rattle.plan_room.specs.Lines.{AreLines, FileFits, Lines};
ghost use Rattle.plan_room.specs.Memo.{IsMemo};

use crate::ends::line_end;
use crate::frames::children_of;
use crate::lines::PlanLines;
use crate::memo::Memo;
use std::alloc::{AllocError, Global};

/// Whether everything below a line has room somewhere in the whole plan.
pub(crate) fn has_own_room<L: PlanLines>(
    alloc: Global,
    lines: &L,
    memo: &mut Memo,
    line: usize,
) -> Result<bool, AllocError>
    requires lines { AreLines (L.lines lines.now) }
    requires memo { IsMemo (L.lines lines.now) memo.old }
    requires line { IsLine (L.lines lines.now) line }
    ensures memo { OnOk result (IsMemo (L.lines lines.now) memo.new) }
    ensures room { IfOk result (λ b. IsTrue b ↔ HasOwnRoom (L.lines lines.now) line) }
{
    let end = line_end(alloc, lines, memo, line, 0)?;
    Ok(end.is_some())
}

/// The first child of a line that has no room.
fn child_without_room<L: PlanLines>(
    alloc: Global,
    lines: &L,
    memo: &mut Memo,
    line: usize,
) -> Result<Option<usize>, AllocError>
    requires lines { AreLines (L.lines lines.now) }
    requires memo { IsMemo (L.lines lines.now) memo.old }
    requires line { IsLine (L.lines lines.now) line }
    ensures memo { OnOk result (IsMemo (L.lines lines.now) memo.new) }
    ensures child { IfOk result (IsChildWithoutRoom (L.lines lines.now) line) }
{
    let actions = lines.actions();
    for child in children_of(lines, line) {
        if actions <= *child && !has_own_room(alloc, lines, memo, *child)? {
            return Ok(Some(*child));
        }
    }
    Ok(None)
}

/// A line that has no room, although each line below it has; the number past all lines is the root line.
/// None where the lines have room in the whole plan.
pub fn deepest_without_room<L: PlanLines>(
    alloc: Global,
    lines: &L,
) -> Result<Option<usize>, AllocError>
    requires { AreLines (L.lines lines.now) }
    ensures { IfOk result (λ r. MatchOption r (FileFits (L.lines lines.now)) (IsDeepest (L.lines lines.now))) }
{
    let mut memo = Memo::new(alloc);
    let mut line = lines.count();
    if has_own_room(alloc, lines, &mut memo, line)? {
        return Ok(None);
    }
    while let Some(child) = child_without_room(alloc, lines, &mut memo, line)? {
        line = child;
    }
    Ok(Some(line))
}

/// Each line below one that has room has room. Where there is a deepest line without room the lines have none in the
/// whole plan, and otherwise there is one.
pub fn deepest_lines_block()
    ensures passed { (l : Lines) → AreLines l → RoomIsPassedOn l }
    ensures block { (l : Lines) → AreLines l → DeepestBlock l }
    ensures exist { (l : Lines) → AreLines l → DeepestExist l }
{}
