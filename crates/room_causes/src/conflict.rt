//! What is in the way of the lines below one.
ghost use Rattle.std.specs.Prelude.{◌≤◌, ◌<◌, ⊤, ℕ, IfOk, MatchOption, OnOk, get_or, length};
ghost use Rattle.plan_room.specs.Ends.{AreEnds};
ghost use Rattle.plan_room.specs.Frames.{IsLine};
ghost use Rattle.plan_room.specs.Lines.{AreLines};
ghost use Rattle.plan_room.specs.Seats.{IsOneOf};
ghost use Rattle.room_causes.specs.Conflicts.{AreOnesOf, IsConflict};

use crate::actions::{Span, span_below};
use crate::cause::Conflict;
use crate::instances::instances_of;
use crate::order::{Pair, conflict_at};
use crate::reading::reading_of;
use crate::unmet::unmet_in;
use htn_ground::{Child, Instance};
use htn_order::Order;
use plan_room::{Ends, PlanLines, children_of};
use std::alloc::{AllocError, Global};

/// Of each child the first and the last action below it.
fn spans_of<L: PlanLines>(
    alloc: Global,
    lines: &L,
    children: &[usize],
) -> Result<Vec<Option<Span>>, AllocError>
    requires lines { AreLines (L.lines lines.now) }
    requires low { (i : ℕ) → i < length children.now → get_or children.now i 0 < (L.lines lines.now).count }
{
    let mut spans = Vec::with_capacity(alloc, children.len())?;
    for line in children {
        spans.push(span_below(alloc, lines, *line)?)?;
    }
    Ok(spans)
}

/// The first gap by which a node can be done, if nothing has to be done before it.
fn soonest_end<L: PlanLines>(
    alloc: Global,
    lines: &L,
    ends: &mut Ends,
    children: &[usize],
    child: &Child,
    place: Option<usize>,
) -> Result<Option<usize>, AllocError>
    requires lines { AreLines (L.lines lines.now) }
    requires ends { AreEnds (L.lines lines.now) ends.old }
    requires low { (i : ℕ) → i < length children.now → get_or children.now i 0 < (L.lines lines.now).count }
    ensures ends { OnOk result (AreEnds (L.lines lines.now) ends.new) }
{
    if let Child::Precondition(literals) = child {
        return Ok(lines.next_gap(literals, 0, lines.actions()));
    }
    let Some(place) = place else {
        return Ok(None);
    };
    if place < children.len() {
        let end = ends.end(alloc, lines, children[place], 0)?;
        return Ok(end);
    }
    Ok(None)
}

/// For each node of a network the earliest gap at which it may have ended.
fn soonest_ends<L: PlanLines>(
    alloc: Global,
    lines: &L,
    ends: &mut Ends,
    children: &[usize],
    instance: &Instance,
    reading: &[Option<usize>],
) -> Result<Vec<Option<usize>>, AllocError>
    requires lines { AreLines (L.lines lines.now) }
    requires ends { AreEnds (L.lines lines.now) ends.old }
    requires low { (i : ℕ) → i < length children.now → get_or children.now i 0 < (L.lines lines.now).count }
    ensures ends { OnOk result (AreEnds (L.lines lines.now) ends.new) }
{
    let nodes = instance.children().as_slice();
    let mut soonest = Vec::with_capacity(alloc, nodes.len())?;
    for (position, child) in nodes.iter().enumerate() {
        let place = reading.get(position).copied().flatten();
        let end = soonest_end(alloc, lines, ends, children, child, place)?;
        soonest.push(end)?;
    }
    Ok(soonest)
}

/// The end at a position of a list.
fn end_at(soonest: &[Option<usize>], position: usize) -> usize {
    match soonest.get(position) {
        Some(Some(end)) => *end,
        _ => 0,
    }
}

/// The position with the later end.
fn later(soonest: &[Option<usize>], position: usize, best: Option<usize>) -> Option<usize> {
    match best {
        Some(other) if end_at(soonest, position) <= end_at(soonest, other) => best,
        _ => Some(position),
    }
}

/// Of the positions before one that with the latest end; a guess is tried first that ends last of those up to it.
fn latest_before(
    order: &Order,
    soonest: &[Option<usize>],
    position: usize,
    guess: Option<usize>,
) -> Option<usize> {
    if let Some(guess) = guess
        && order.is_before(guess, position)
    {
        return Some(guess);
    }
    let mut best = None;
    for other in 0..soonest.len() {
        if order.is_before(other, position) {
            best = later(soonest, other, best);
        }
    }
    best
}

/// The first conflict of two nodes of an instance, where each node stands in the order of the one that ends last of those
/// before it.
fn order_conflict<L: PlanLines>(
    alloc: Global,
    lines: &L,
    ends: &mut Ends,
    line: usize,
    instance: &Instance,
    reading: &[Option<usize>],
) -> Result<Option<Conflict>, AllocError>
    requires lines { AreLines (L.lines lines.now) }
    requires line { IsLine (L.lines lines.now) line }
    requires one { IsOneOf (L.lines lines.now) line instance.now.network }
    requires ends { AreEnds (L.lines lines.now) ends.old }
    ensures ends { OnOk result (AreEnds (L.lines lines.now) ends.new) }
    ensures conflict { IfOk result (λ r. MatchOption r ⊤ (IsConflict (L.lines lines.now) line)) }
{
    let children = children_of(lines, line);
    let soonest = soonest_ends(alloc, lines, ends, children, instance, reading)?;
    let mut guess = None;
    for after in 0..reading.len() {
        let found = latest_before(instance.order(), &soonest, after, guess);
        if let (Some(before), Some(second)) = (found, reading[after]) {
            let pair = Pair {
                before,
                after,
                first: reading.get(before).copied().flatten(),
                second,
            };
            if let Some(conflict) = conflict_at(alloc, lines, ends, line, instance, pair)? {
                return Ok(Some(Conflict::Order(conflict)));
            }
        }
        guess = later(&soonest, after, guess);
    }
    Ok(None)
}

/// The first conflict of two nodes in one of these instances.
fn order_among<L: PlanLines>(
    alloc: Global,
    lines: &L,
    ends: &mut Ends,
    line: usize,
    instances: &[Instance],
    spans: &[Option<Span>],
) -> Result<Option<Conflict>, AllocError>
    requires lines { AreLines (L.lines lines.now) }
    requires line { IsLine (L.lines lines.now) line }
    requires ones { AreOnesOf (L.lines lines.now) line instances.now }
    requires ends { AreEnds (L.lines lines.now) ends.old }
    ensures { IfOk result (λ r. MatchOption r ⊤ (IsConflict (L.lines lines.now) line)) }
{
    let children = children_of(lines, line);
    for instance in instances {
        let reading = reading_of(alloc, lines, children, instance, spans)?;
        if let Some(conflict) = order_conflict(alloc, lines, ends, line, instance, &reading)? {
            return Ok(Some(conflict));
        }
    }
    Ok(None)
}

/// The precondition of the first of these instances that has one which holds in no gap.
fn precondition_among<L: PlanLines>(
    alloc: Global,
    lines: &L,
    line: usize,
    instances: &[Instance],
) -> Result<Option<Conflict>, AllocError>
    requires ones { AreOnesOf (L.lines lines.now) line instances.now }
    ensures { IfOk result (λ r. MatchOption r ⊤ (IsConflict (L.lines lines.now) line)) }
{
    for instance in instances {
        let found = unmet_in(alloc, lines, instance, 0, lines.actions())?;
        if let Some(unmet) = found {
            return Ok(Some(Conflict::Precondition(unmet)));
        }
    }
    Ok(None)
}

/// What is in the way of the lines below one: the first conflict of two nodes, or else a precondition, of an instance
/// that the line may stand for.
pub(crate) fn conflict_of<L: PlanLines>(
    alloc: Global,
    lines: &L,
    line: usize,
) -> Result<Option<Conflict>, AllocError>
    requires lines { AreLines (L.lines lines.now) }
    requires line { IsLine (L.lines lines.now) line }
    ensures { IfOk result (λ r. MatchOption r ⊤ (IsConflict (L.lines lines.now) line)) }
{
    let instances = instances_of(lines, line)?;
    let list = instances.as_slice();
    let spans = spans_of(alloc, lines, children_of(lines, line))?;
    let mut ends = Ends::new(alloc);
    if let Some(conflict) = order_among(alloc, lines, &mut ends, line, list, &spans)? {
        return Ok(Some(conflict));
    }
    let found = precondition_among(alloc, lines, line, list)?;
    Ok(found)
}
