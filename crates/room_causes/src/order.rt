//! Two nodes of a network, one of which has to come before the other and can't.
ghost use Rattle.std.specs.Prelude.{◌≡◌, ◌≤◌, ◌<◌, ⊤, ℕ, true, IfOk, IsTrue, MatchOption, OnOk};
ghost use Rattle.htn_model.specs.Problem.{is_before};
ghost use Rattle.plan_room.specs.Ends.{AreEnds};
ghost use Rattle.plan_room.specs.Frames.{IsLine};
ghost use Rattle.plan_room.specs.Lines.{AreLines};
ghost use Rattle.plan_room.specs.Seats.{IsOneOf};
ghost use Rattle.room_causes.specs.Conflicts.{IsBlockedFrom, IsEarly, IsOrderConflict, IsUnmet};
ghost use Rattle.room_causes.specs.Nodes.{IsChildAt, IsJustBefore, IsLowNode, IsNotBefore, StandsAt};

use crate::actions::span_below;
use crate::cause::{Node, OrderConflict, Unmet};
use crate::nodes::{child_at, node_at, node_end};
use crate::unmet::unmet_of;
use htn_ground::{Instance, ObjectList};
use plan_room::{Ends, PlanLines};
use std::alloc::{AllocError, Global};

/// Two positions of a network, with the places of the children that may stand there.
#[derive(Clone, Copy)]
pub(crate) struct Pair {
    pub before: usize,
    pub after: usize,
    pub first: Option<usize>,
    pub second: usize,
}

/// Two nodes at positions of a network, and the gap before which the first can't be done.
#[derive(Drop)]
struct Meeting {
    before: usize,
    after: usize,
    first: Node,
    second: usize,
    from: usize,
}

/// The last action below a node, if it is just before a gap.
fn late_action<L: PlanLines>(
    alloc: Global,
    lines: &L,
    node: &Node,
    gap: usize,
) -> Result<Option<usize>, AllocError>
    requires lines { AreLines (L.lines lines.now) }
    requires low { IsLowNode (L.lines lines.now) node.now }
    ensures { IfOk result (λ r. MatchOption r ((action : ℕ) → IsJustBefore (L.lines lines.now) node.now gap action → ⊥) (IsJustBefore (L.lines lines.now) node.now gap)) }
{
    let Node::Line(line) = node else {
        return Ok(None);
    };
    match span_below(alloc, lines, *line)? {
        Some(span) => {
            if span.last < gap && gap - 1 == span.last {
                Ok(Some(span.last))
            } else {
                Ok(None)
            }
        }
        None => Ok(None),
    }
}

/// The first action below a line, if it comes before a gap.
fn early_action<L: PlanLines>(
    alloc: Global,
    lines: &L,
    line: usize,
    gap: usize,
) -> Result<Option<usize>, AllocError>
    requires lines { AreLines (L.lines lines.now) }
    requires low { line < (L.lines lines.now).count }
    ensures { IfOk result (IsEarly (L.lines lines.now) line gap) }
{
    match span_below(alloc, lines, line)? {
        Some(span) => {
            if span.first < gap {
                Ok(Some(span.first))
            } else {
                Ok(None)
            }
        }
        None => Ok(None),
    }
}

/// The precondition of a line, if the line is no action and its only instance has one that holds in no gap from one on.
fn late_precondition<L: PlanLines>(
    alloc: Global,
    lines: &L,
    line: usize,
    gap: usize,
) -> Result<Option<Unmet>, AllocError>
    requires low { line < (L.lines lines.now).count }
    ensures { IfOk result (λ r. MatchOption r ⊤ (IsUnmet (L.lines lines.now) line gap)) }
{
    if line < lines.actions() {
        return Ok(None);
    }
    let found = unmet_of(alloc, lines, line, gap)?;
    Ok(found)
}

/// Whether a line has no room from a gap on.
fn is_blocked<L: PlanLines>(
    alloc: Global,
    lines: &L,
    ends: &mut Ends,
    line: usize,
    gap: usize,
) -> Result<bool, AllocError>
    requires lines { AreLines (L.lines lines.now) }
    requires ends { AreEnds (L.lines lines.now) ends.old }
    requires low { line < (L.lines lines.now).count }
    requires within { gap ≤ (L.lines lines.now).actions }
    ensures ends { OnOk result (AreEnds (L.lines lines.now) ends.new) }
    ensures blocked { IfOk result (λ b. IsTrue b → IsBlockedFrom (L.lines lines.now) line gap) }
{
    match ends.end(alloc, lines, line, gap)? {
        Some(_) => Ok(false),
        None => Ok(true),
    }
}

/// The conflict of two nodes that are in one.
fn conflict_between<L: PlanLines>(
    alloc: Global,
    lines: &L,
    line: usize,
    instance: &Instance,
    met: Meeting,
) -> Result<OrderConflict, AllocError>
    requires lines { AreLines (L.lines lines.now) }
    requires one { IsOneOf (L.lines lines.now) line instance.now.network }
    requires ordered { is_before instance.now.network.order met.before met.after ≡ true }
    requires first { StandsAt (L.lines lines.now) line instance.now.network met.before met.first }
    requires first_low { IsLowNode (L.lines lines.now) met.first }
    requires second { IsChildAt (L.lines lines.now) line instance.now.network met.after met.second }
    requires second_low { met.second < (L.lines lines.now).count }
    requires not_before { IsNotBefore (L.lines lines.now) met.first met.from }
    requires blocked { IsBlockedFrom (L.lines lines.now) met.second met.from }
    ensures { IfOk result (IsOrderConflict (L.lines lines.now) line) }
{
    let values = ObjectList::of(alloc, instance.values())?;
    let late = late_action(alloc, lines, &met.first, met.from)?;
    let early = early_action(alloc, lines, met.second, met.from)?;
    let unmet = late_precondition(alloc, lines, met.second, met.from)?;
    Ok(OrderConflict {
        values,
        before: met.before,
        after: met.after,
        first: met.first,
        second: met.second,
        from: met.from,
        late,
        early,
        unmet,
    })
}

/// The conflict of two nodes of a network, if they are in one.
pub(crate) fn conflict_at<L: PlanLines>(
    alloc: Global,
    lines: &L,
    ends: &mut Ends,
    line: usize,
    instance: &Instance,
    pair: Pair,
) -> Result<Option<OrderConflict>, AllocError>
    requires lines { AreLines (L.lines lines.now) }
    requires line { IsLine (L.lines lines.now) line }
    requires one { IsOneOf (L.lines lines.now) line instance.now.network }
    requires ends { AreEnds (L.lines lines.now) ends.old }
    ensures ends { OnOk result (AreEnds (L.lines lines.now) ends.new) }
    ensures conflict { IfOk result (λ r. MatchOption r ⊤ (IsOrderConflict (L.lines lines.now) line)) }
{
    if !instance.order().is_before(pair.before, pair.after) {
        return Ok(None);
    }
    let Some(second) = child_at(lines, line, instance, pair.after, pair.second) else {
        return Ok(None);
    };
    let Some(first) = node_at(lines, line, instance, pair.before, pair.first)? else {
        return Ok(None);
    };
    let Some(from) = node_end(alloc, lines, ends, &first)? else {
        return Ok(None);
    };
    if !is_blocked(alloc, lines, ends, second, from)? {
        return Ok(None);
    }
    let met = Meeting {
        before: pair.before,
        after: pair.after,
        first,
        second,
        from,
    };
    let conflict = conflict_between(alloc, lines, line, instance, met)?;
    Ok(Some(conflict))
}
