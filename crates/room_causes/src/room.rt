//! Why the lines of a plan file have no room.
ghost use Rattle.std.specs.Prelude.{IfOk, MatchOption};
ghost use Rattle.plan_room.specs.Lines.{AreLines, FileFits};
ghost use Rattle.room_causes.specs.Conflicts.{IsRoomCause};

use crate::cause::RoomCause;
use crate::conflict::conflict_of;
use plan_room::{PlanLines, deepest_without_room};
use std::alloc::{AllocError, Global};

/// Why the lines have no room in the whole plan: a line that has none, although each line below it has. None where
/// the lines have room.
pub fn room_cause_of<L: PlanLines>(
    alloc: Global,
    lines: &L,
) -> Result<Option<RoomCause>, AllocError>
    requires { AreLines (L.lines lines.now) }
    ensures { IfOk result (λ r. MatchOption r (FileFits (L.lines lines.now)) (IsRoomCause (L.lines lines.now))) }
{
    let Some(number) = deepest_without_room(alloc, lines)? else {
        return Ok(None);
    };
    let conflict = conflict_of(alloc, lines, number)?;
    if number < lines.count() {
        Ok(Some(RoomCause {
            line: Some(number),
            conflict,
        }))
    } else {
        Ok(Some(RoomCause {
            line: None,
            conflict,
        }))
    }
}
