//! How a line's children stand in an instance, once it is known by which gap they can have finished.
ghost use Rattle.std.specs.Prelude.{◌≤◌, ◌<◌, ◌+◌, ◌^◌, ℕ, Some, IfOk, get_or, length};
ghost use Rattle.htn_model.specs.Problem.{IsSquare};
ghost use Rattle.plan_room.specs.Frames.{IsWork};
ghost use Rattle.plan_room.specs.Lines.{AreLines};
ghost use Rattle.plan_room.specs.Memo.{IsMemo};
ghost use Rattle.plan_room.specs.Seats.{AreAsMany};

use crate::below::Below;
use crate::bound::{Bound, raise_bound};
use crate::frames::{Work, guessed_work, work_of};
use crate::lines::PlanLines;
use crate::matching::finish_by;
use crate::memo::Memo;
use crate::rooms::Finish;
use crate::window::{Window, may_fit};
use htn_ground::Instance;
use indexmap::IndexMap;
use std::alloc::{AllocError, Global};

/// How children stand in an instance. Nothing is proved of it.
#[derive(Drop)]
pub(crate) struct Standing {
    /// The position at which each child stands, as listed.
    pub positions: Vec<usize>,
    /// The gap by which each position has finished.
    pub finishes: Vec<usize>,
}

/// The position that each child has in the matching that was chosen last.
fn seats_of(alloc: Global, work: &Work) -> Result<IndexMap<usize, usize>, AllocError> {
    let mut seats = IndexMap::new(alloc);
    for (place, position) in work.sequence.iter().enumerate() {
        if let Some(choice) = work.trial.chosen.get(place) {
            if let Some(child) = work.children.get(*choice) {
                seats.insert(*child, *position)?;
            }
        }
    }
    Ok(seats)
}

/// These positions in the order in which the children are listed.
fn positions_of(
    alloc: Global,
    listed: &[usize],
    seats: &IndexMap<usize, usize>,
) -> Result<Vec<usize>, AllocError> {
    let mut positions = Vec::with_capacity(alloc, listed.len())?;
    for child in listed {
        if let Some(position) = seats.get(child) {
            positions.push(*position)?;
        }
    }
    Ok(positions)
}

/// The matching that was chosen last.
fn standing_of(alloc: Global, listed: &[usize], work: &Work) -> Result<Standing, AllocError> {
    let seats = seats_of(alloc, work)?;
    let positions = positions_of(alloc, listed, &seats)?;
    let finishes = work.trial.finishes.to_vec(alloc)?;
    Ok(Standing {
        positions,
        finishes,
    })
}

/// The work on an instance before its first matching, with the children in the order in which they are to be tried;
/// none where they can't finish, or where the finish of a line has to be known first.
fn first_work<L: PlanLines>(
    alloc: Global,
    lines: &L,
    memo: &Memo,
    children: &[usize],
    instance: &Instance,
    gap: usize,
) -> Result<(Finish, Option<Work>), AllocError>
    requires lines { AreLines (L.lines lines.now) }
    requires memo { IsMemo (L.lines lines.now) memo.now }
    requires low { (i : ℕ) → i < length children.now → get_or children.now i 0 < (L.lines lines.now).count }
    requires few { length children.now + length instance.now.network.children < 2 ^ 64 }
    requires square { IsSquare (length instance.now.network.children) instance.now.network.order }
    requires many { AreAsMany (L.lines lines.now) children.now instance.now.network }
    requires within { gap ≤ (L.lines lines.now).actions }
    ensures { IfOk result (λ r. IsWork (L.lines lines.now) children.now instance.now.network gap r.1) }
{
    let bound = Bound { end: gap, seen: 0 };
    let list = children.to_vec(alloc)?;
    let mut work = work_of(
        alloc, lines, memo, children, list, instance, gap, bound, false,
    )?;
    if work.is_settled {
        return Ok((Finish::At(gap), Some(work)));
    }
    let finish = raise_bound(lines, memo, children, gap, &mut work.bound);
    let Finish::At(_) = finish else {
        return Ok((finish, None));
    };
    let guessed = guessed_work(alloc, lines, memo, children, instance, gap, work)?;
    Ok((finish, Some(guessed)))
}

/// Continues with the matchings until one has finished by the end of a window.
fn find_matching<L: PlanLines>(
    lines: &L,
    memo: &Memo,
    listed: &[usize],
    instance: &Instance,
    window: Window,
    current: Work,
) -> (Finish, Work)
    requires lines { AreLines (L.lines lines.now) }
    requires memo { IsMemo (L.lines lines.now) memo.now }
    requires low { (i : ℕ) → i < length listed.now → get_or listed.now i 0 < (L.lines lines.now).count }
    requires few { length listed.now + length instance.now.network.children < 2 ^ 64 }
    requires square { IsSquare (length instance.now.network.children) instance.now.network.order }
    requires within { window.first ≤ (L.lines lines.now).actions }
    requires work { IsWork (L.lines lines.now) listed.now instance.now.network window.first (Some current) }
{
    let Work {
        children,
        sequence,
        links,
        mut trial,
        bound,
        is_settled,
    } = current;
    let below = Below {
        lines,
        memo,
        children: &children,
        instance,
        sequence: &sequence,
        links: &links,
        gap: window.first,
        bound: bound.end,
    };
    let finish = finish_by(&mut trial, &below, window.last);
    let work = Work {
        children,
        sequence,
        links,
        trial,
        bound,
        is_settled,
    };
    (finish, work)
}

/// How children stand in an instance that starts and finishes in a window, by what is known of their lines; none where
/// they don't, or where the finish of a line has to be known first.
pub(crate) fn find_standing<L: PlanLines>(
    alloc: Global,
    lines: &L,
    memo: &Memo,
    children: &[usize],
    instance: &Instance,
    window: Window,
) -> Result<(Finish, Option<Standing>), AllocError>
    requires lines { AreLines (L.lines lines.now) }
    requires memo { IsMemo (L.lines lines.now) memo.now }
    requires low { (i : ℕ) → i < length children.now → get_or children.now i 0 < (L.lines lines.now).count }
    requires square { IsSquare (length instance.now.network.children) instance.now.network.order }
    requires first { window.first ≤ (L.lines lines.now).actions }
    requires last { window.last ≤ (L.lines lines.now).actions }
{
    let Some(_) = children.len().checked_add(instance.children().len()) else {
        return Err(AllocError);
    };
    if !may_fit(lines, children, instance, window) {
        return Ok((Finish::Never, None));
    }
    let (possible, first) = first_work(alloc, lines, memo, children, instance, window.first)?;
    let Some(work) = first else {
        return Ok((possible, None));
    };
    let (finish, tried) = find_matching(lines, memo, children, instance, window, work);
    let Finish::At(_) = finish else {
        return Ok((finish, None));
    };
    let standing = standing_of(alloc, children, &tried)?;
    Ok((finish, Some(standing)))
}
