//! Whether the children of a line are placed as the nodes of a network.
ghost use Rattle.std.specs.Prelude.{◌≡◌, ◌<◌, ◌≤◌, ◌↔◌, ℕ, IfOk, IfSome, IsTrue, Some, get_or, length, true};
ghost use Rattle.htn_ground.specs.Views.{child_view, children_of};
ghost use Rattle.htn_model.specs.Literal.{holds};
ghost use Rattle.htn_model.specs.Problem.{is_before};
ghost use Rattle.line_details.specs.Entries.{AreSeated, AreWithinSpans, IsHeld, IsPlacedIn, IsSeatedAt, AreHeld, AreSubtasksMarked, spans_of};
ghost use Rattle.plan_text.specs.Reached.{AreMet};
ghost use Rattle.plan_room.specs.Lines.{AreLines};
ghost use Rattle.plan_room.specs.Seats.{is_step_at};

use crate::entry::Entry;
use htn_ground::Child;
use htn_order::Order;
use htn_task::LiteralList;
use plan_room::{PlanLines, takes_line};
use std::alloc::{AllocError, Global};

/// Whether a line is placed between two gaps.
fn is_placed<L: PlanLines>(
    lines: &L,
    entries: &[Entry],
    line: usize,
    from: usize,
    to: usize,
) -> bool
    ensures { IsTrue result → IsPlacedIn (L.lines lines.now) entries.now line from to }
{
    let actions = lines.actions();
    if line < actions {
        return from <= line && line < to;
    }
    match entries.get(line - actions) {
        Some(entry) => from <= entry.from && entry.to <= to,
        None => false,
    }
}

/// Whether a line is the node at a position, and is placed there.
fn is_seated<L: PlanLines>(
    lines: &L,
    entries: &[Entry],
    nodes: &[Child],
    entry: &Entry,
    position: usize,
    line: usize,
) -> bool
    requires lines { AreLines (L.lines lines.now) }
    requires low { line < (L.lines lines.now).count }
    ensures { IsTrue result → IsSeatedAt (L.lines lines.now) entries.now (children_of nodes.now) (spans_of entry.now) position line }
{
    let Some(node) = nodes.get(position) else {
        return false;
    };
    takes_line(lines, node, line)
        && is_placed(
            lines,
            entries,
            line,
            entry.start_at(position),
            entry.finish_at(position),
        )
}

/// Whether each of a line's children is a node of the network, and is placed at its position.
pub(crate) fn are_seated<L: PlanLines>(
    lines: &L,
    entries: &[Entry],
    nodes: &[Child],
    entry: &Entry,
    children: &[usize],
) -> bool
    requires lines { AreLines (L.lines lines.now) }
    requires low { (i : ℕ) → i < length children.now → get_or children.now i 0 < (L.lines lines.now).count }
    ensures { IsTrue result → AreSeated (L.lines lines.now) entries.now (children_of nodes.now) (spans_of entry.now) children.now }
{
    if entry.positions.len() != children.len() {
        return false;
    }
    for place in 0..children.len() {
        if !is_seated(
            lines,
            entries,
            nodes,
            entry,
            entry.positions[place],
            children[place],
        ) {
            return false;
        }
    }
    true
}

/// A mark for each position that is listed; none where one comes twice or is past all.
pub(crate) fn marks_of(
    alloc: Global,
    positions: &[usize],
    count: usize,
) -> Result<Option<Vec<bool>>, AllocError>
    ensures { IfOk result (λ r. IfSome r (λ marks. AreMet marks.items positions.now)) }
{
    let mut marks = vec![in alloc; false; count]?;
    for position in positions {
        if *position >= count || marks[*position] {
            return Ok(None);
        }
        marks[*position] = true;
    }
    Ok(Some(marks))
}

/// Whether a node of a network is a step.
fn is_step(node: &Child) -> bool
    ensures { result ≡ is_step_at (Some (child_view node.now)) }
{
    match node {
        Child::Precondition(_) => true,
        Child::Action(_) => false,
        Child::Task(_) => false,
    }
}

/// Whether exactly the nodes that are no steps have a mark.
pub(crate) fn are_subtasks(nodes: &[Child], marks: &[bool]) -> bool
    ensures { IsTrue result → AreSubtasksMarked (children_of nodes.now) marks.now }
{
    if marks.len() != nodes.len() {
        return false;
    }
    for place in 0..nodes.len() {
        if marks[place] == is_step(&nodes[place]) {
            return false;
        }
    }
    true
}

/// Whether each position starts and finishes between the gaps of the line.
pub(crate) fn are_within(entry: &Entry) -> bool
    ensures { IsTrue result → AreWithinSpans (spans_of entry.now) }
{
    let count = entry.start.len();
    if entry.to < entry.from || entry.finish.len() != count {
        return false;
    }
    for place in 0..count {
        let start = entry.start[place];
        let finish = entry.finish[place];
        if start < entry.from || finish < start || entry.to < finish {
            return false;
        }
    }
    true
}

/// Whether all positions behind one start once it has finished.
fn is_ahead(order: &Order, entry: &Entry, position: usize) -> bool
    ensures { IsTrue result → (b : ℕ) → is_before order.now position b ≡ true → (spans_of entry.now).finish position ≤ (spans_of entry.now).start b }
{
    let finish = entry.finish_at(position);
    for later in 0..order.size() {
        if order.is_before(position, later) && entry.start_at(later) < finish {
            return false;
        }
    }
    true
}

/// Whether each of the first positions starts once those with lower numbers have finished.
fn stand_in_turn(entry: &Entry, size: usize) -> bool
    ensures { IsTrue result → (a b : ℕ) → a < b → b < size → (spans_of entry.now).finish a ≤ (spans_of entry.now).start b }
{
    let mut latest = 0;
    for position in 0..size {
        if entry.start_at(position) < latest {
            return false;
        }
        latest = latest.max(entry.finish_at(position));
    }
    true
}

/// Whether all positions behind one start once it has finished, for each position.
fn are_ahead(order: &Order, entry: &Entry) -> bool
    ensures { IsTrue result → (a b : ℕ) → is_before order.now a b ≡ true → (spans_of entry.now).finish a ≤ (spans_of entry.now).start b }
{
    for position in 0..order.size() {
        if !is_ahead(order, entry, position) {
            return false;
        }
    }
    true
}

/// Whether each position has finished where one behind it starts. It takes one pass where each position is before all
/// later ones, and otherwise one over the table of the order.
pub(crate) fn keeps_order(order: &Order, entry: &Entry) -> bool
    ensures { IsTrue result → (a b : ℕ) → is_before order.now a b ≡ true → (spans_of entry.now).finish a ≤ (spans_of entry.now).start b }
{
    let size = order.size();
    if *order == Order::chain(size) {
        stand_in_turn(entry, size)
    } else {
        are_ahead(order, entry)
    }
}

/// Whether literals hold in a gap.
fn hold_in<L: PlanLines>(lines: &L, literals: &LiteralList, gap: usize) -> bool
    ensures { IsTrue result → holds ((L.lines lines.now).states gap) literals.now ≡ true }
{
    gap <= lines.actions() && lines.next_gap(literals, gap, gap).is_some()
}

/// Whether a node, if it is a step, is placed in one gap, and holds there.
fn is_held<L: PlanLines>(lines: &L, node: &Child, start: usize, finish: usize) -> bool
    ensures { IsTrue result → IsHeld (L.lines lines.now) (child_view node.now) start finish }
{
    match node {
        Child::Precondition(literals) => start == finish && hold_in(lines, literals, start),
        Child::Action(_) => true,
        Child::Task(_) => true,
    }
}

/// Whether each step of a network is placed in one gap, and holds there.
pub(crate) fn are_held<L: PlanLines>(lines: &L, nodes: &[Child], entry: &Entry) -> bool
    ensures { IsTrue result → AreHeld (L.lines lines.now) (children_of nodes.now) (spans_of entry.now) }
{
    for place in 0..nodes.len() {
        if !is_held(
            lines,
            &nodes[place],
            entry.start_at(place),
            entry.finish_at(place),
        ) {
            return false;
        }
    }
    true
}
