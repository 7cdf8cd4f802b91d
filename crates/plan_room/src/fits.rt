//! Whether the lines of a plan file have room.
ghost use Rattle.std.specs.Prelude.{◌↔◌, IfOk, IsTrue};
ghost use Rattle.plan_room.specs.Lines.{AreLines, FileFits};

use crate::deepest::has_own_room;
use crate::lines::PlanLines;
use crate::memo::Memo;
use std::alloc::{AllocError, Global};

/// Whether the lines of a plan file have room in the whole plan.
pub fn forest_fits<L: PlanLines>(alloc: Global, lines: &L) -> Result<bool, AllocError>
    requires { AreLines (L.lines lines.now) }
    ensures { IfOk result (λ b. IsTrue b ↔ FileFits (L.lines lines.now)) }
{
    let mut memo = Memo::new(alloc);
    let fits = has_own_room(alloc, lines, &mut memo, lines.count())?;
    Ok(fits)
}
