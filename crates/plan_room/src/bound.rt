//! A gap before which the lines below one can't have finished.
ghost use Rattle.std.specs.Prelude.{◌≤◌, ◌<◌, ℕ, get_or, length};
ghost use Rattle.plan_room.specs.Bound.{AllEnd, IsLower, IsNoneBy};
ghost use Rattle.plan_room.specs.Lines.{AreLines};
ghost use Rattle.plan_room.specs.Memo.{IsMemo, IsOpenBelow};
ghost use Rattle.plan_room.specs.Trials.{IsAsked};

use crate::below::line_finish;
use crate::lines::PlanLines;
use crate::memo::Memo;
use crate::rooms::Finish;

/// A gap before which not all of the considered children can have finished.
#[derive(Drop)]
pub(crate) struct Bound {
    pub end: usize,
    /// The number of children that were considered.
    pub seen: usize,
}

/// Raises the bound to the finish that each child has alone, from the gap on: what stands before it can
/// but delay it. It stops where that has to be known first.
pub(crate) fn raise_bound<L: PlanLines>(
    lines: &L,
    memo: &Memo,
    children: &[usize],
    gap: usize,
    bound: &mut Bound,
) -> Finish
    requires lines { AreLines (L.lines lines.now) }
    requires memo { IsMemo (L.lines lines.now) memo.now }
    requires low { (i : ℕ) → i < length children.now → get_or children.now i 0 < (L.lines lines.now).count }
    requires within { gap ≤ (L.lines lines.now).actions }
    requires lower { IsLower (L.lines lines.now) children.now gap bound.old.end }
    ensures lower { IsLower (L.lines lines.now) children.now gap bound.new.end }
    ensures never { IsNoneBy (AllEnd (L.lines lines.now) children.now gap) (L.lines lines.now).actions result }
    ensures asked { IsAsked (IsOpenBelow (L.lines lines.now) memo.now children.now) result }
{
    while bound.seen < children.len() {
        match line_finish(lines, memo, children[bound.seen], gap) {
            Finish::Unknown(question) => return Finish::Unknown(question),
            Finish::Never => return Finish::Never,
            Finish::At(end) => bound.end = bound.end.max(end),
        }
        bound.seen += 1;
    }
    Finish::At(bound.end)
}
