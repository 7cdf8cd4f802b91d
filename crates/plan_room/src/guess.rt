//! A guess at which child stands where: a local search that exchanges children of the same task.
//!
//! The search among the matchings takes the first free child that suits a position, so the order of the
//! children is all that a guess has to give. None makes its answer wrong, and a good one is found at once.
ghost use Rattle.std.specs.Prelude.{IfOk, IsPermutation, length, ◌<◌, ◌≡◌, get_or, ℕ};
ghost use Rattle.plan_room.specs.Lines.{AreLines};
ghost use Rattle.plan_room.specs.Memo.{IsMemo};

use crate::below::line_finish;
use crate::lines::PlanLines;
use crate::links::Links;
use crate::memo::Memo;
use crate::rooms::Finish;
use htn_order::Order;
use std::alloc::{AllocError, Global};

/// More children than these are sorted alone.
const MOST: usize = 1024;

/// The most rounds times children.
const ROUNDS: usize = 2097152;

/// For this number of rounds after an exchange its positions keep their children.
const REST: usize = 3;

/// The gaps that a child takes at least: from its first action to its earliest finish.
#[derive(Clone, Copy)]
struct Span {
    task: usize,
    first: usize,
    end: usize,
    child: usize,
}

/// A position for a child, with the places of those before and after it.
struct Seat {
    task: usize,
    before: Vec<usize>,
    after: Vec<usize>,
}

impl Drop for Seat {
    fn drop(self) {
        let Seat {
            task: _,
            before: _,
            after: _,
        } = self;
    }
}

/// The first action below a line, or the number past all.
fn first_action<L: PlanLines>(alloc: Global, lines: &L, line: usize) -> Result<usize, AllocError>
    requires lines { AreLines (L.lines lines.now) }
    requires low { line < (L.lines lines.now).count }
{
    let actions = lines.actions();
    let mut first = actions;
    let mut open = Vec::new(alloc);
    open.push(line)?;
    for _ in 0..lines.count() {
        let Some(next) = open.pop() else {
            break;
        };
        if next < actions {
            first = first.min(next);
        } else if next < lines.count() {
            for child in lines.children(next) {
                open.push(*child)?;
            }
        }
    }
    Ok(first)
}

/// For each child the first one of its task.
fn tasks_of(alloc: Global, after: &[usize]) -> Result<Vec<usize>, AllocError> {
    let mut tasks = Vec::with_capacity(alloc, after.len())?;
    for place in 0..after.len() {
        tasks.push(place)?;
    }
    for (place, next) in after.iter().enumerate() {
        let task = number_at(&tasks, place);
        if let Some(later) = tasks.get_mut(*next) {
            *later = task;
        }
    }
    Ok(tasks)
}

/// The number at a place, 0 past all.
pub(crate) fn number_at(numbers: &[usize], place: usize) -> usize
    ensures { result ≡ get_or numbers.now place 0 }
{
    match numbers.get(place) {
        Some(number) => *number,
        None => 0,
    }
}

/// The children by their tasks and the middles of their spans.
fn spans_of<L: PlanLines>(
    alloc: Global,
    lines: &L,
    memo: &Memo,
    children: &[usize],
    after: &[usize],
    gap: usize,
) -> Result<Vec<Span>, AllocError>
    requires lines { AreLines (L.lines lines.now) }
    requires memo { IsMemo (L.lines lines.now) memo.now }
    requires low { (i : ℕ) → i < length children.now → get_or children.now i 0 < (L.lines lines.now).count }
{
    let tasks = tasks_of(alloc, after)?;
    let mut spans = Vec::with_capacity(alloc, children.len())?;
    for (child, line) in children.iter().enumerate() {
        let end = match line_finish(lines, memo, *line, gap) {
            Finish::At(end) => end,
            _ => gap,
        };
        spans.push(Span {
            task: number_at(&tasks, child),
            first: first_action(alloc, lines, *line)?,
            end,
            child,
        })?;
    }
    spans.sort_by_key(|span| (span.task, span.first.saturating_add(span.end)))?;
    Ok(spans)
}

/// The places of those positions that are before one, or after it.
fn places_beside(
    alloc: Global,
    order: &Order,
    positions: &[(usize, usize)],
    position: usize,
    is_after: bool,
) -> Result<Vec<usize>, AllocError> {
    let mut places = Vec::new(alloc);
    for (place, other) in positions.iter().enumerate() {
        let is_beside = if is_after {
            order.is_before(position, other.1)
        } else {
            order.is_before(other.1, position)
        };
        if is_beside {
            places.push(place)?;
        }
    }
    Ok(places)
}

/// The positions for children, by their tasks and then as in the sequence.
fn seats_of(
    alloc: Global,
    order: &Order,
    sequence: &[usize],
    first: &[usize],
    count: usize,
) -> Result<Vec<Seat>, AllocError> {
    let mut positions = Vec::with_capacity(alloc, sequence.len())?;
    for position in sequence {
        let task = number_at(first, *position);
        if task < count {
            positions.push((task, *position))?;
        }
    }
    positions.sort_by_key(|position| position.0)?;
    let mut seats = Vec::with_capacity(alloc, positions.len())?;
    for (task, position) in positions.iter() {
        seats.push(Seat {
            task: *task,
            before: places_beside(alloc, order, &positions, *position, false)?,
            after: places_beside(alloc, order, &positions, *position, true)?,
        })?;
    }
    Ok(seats)
}

/// Whether the child at a place ends only after a gap.
fn ends_after(spans: &[Span], place: usize, gap: usize) -> bool {
    match spans.get(place) {
        Some(span) => gap < span.end,
        None => false,
    }
}

/// Whether the child at a place begins before a gap.
fn begins_before(spans: &[Span], place: usize, gap: usize) -> bool {
    match spans.get(place) {
        Some(span) => span.first < gap,
        None => false,
    }
}

/// The number of others with which the child at a place is out of order.
fn clashes(seats: &[Seat], spans: &[Span], place: usize) -> usize {
    let Some(seat) = seats.get(place) else {
        return 0;
    };
    let Some(span) = spans.get(place) else {
        return 0;
    };
    let early = seat
        .before
        .iter()
        .filter(|other| ends_after(spans, **other, span.first))
        .count();
    let late = seat
        .after
        .iter()
        .filter(|other| begins_before(spans, **other, span.end))
        .count();
    early.saturating_add(late)
}

/// The next place from one on, going round, at which something is out of order.
fn next_clash(seats: &[Seat], spans: &[Span], from: usize) -> Option<usize> {
    for step in 0..spans.len() {
        let place = from.wrapping_add(step) % spans.len();
        if clashes(seats, spans, place) > 0 {
            return Some(place);
        }
    }
    None
}

/// Exchanges the children at two places.
fn exchange(spans: &mut [Span], a: usize, b: usize) {
    if a < spans.len() && b < spans.len() {
        spans.swap(a, b);
    }
}

/// Whether a place may take part in an exchange with another: it is for the same task, and has rested.
fn may_exchange(seats: &[Seat], rests: &[usize], place: usize, other: usize, round: usize) -> bool {
    let Some(seat) = seats.get(place) else {
        return false;
    };
    let Some(beside) = seats.get(other) else {
        return false;
    };
    place != other && seat.task == beside.task && number_at(rests, other) <= round
}

/// The place with which an exchange leaves the fewest out of order.
fn best_exchange(
    seats: &[Seat],
    spans: &mut [Span],
    rests: &[usize],
    place: usize,
    from: usize,
    round: usize,
) -> Option<usize> {
    let mut best = None;
    let mut least = usize::MAX;
    let mut most = 0;
    for step in 0..spans.len() {
        let other = from.wrapping_add(step) % spans.len();
        if !may_exchange(seats, rests, place, other, round) {
            continue;
        }
        let old = clashes(seats, spans, place).saturating_add(clashes(seats, spans, other));
        exchange(spans, place, other);
        let new = clashes(seats, spans, place).saturating_add(clashes(seats, spans, other));
        exchange(spans, place, other);
        if new.saturating_add(most) < least.saturating_add(old) {
            least = new;
            most = old;
            best = Some(other);
        }
    }
    best
}

/// Exchanges children until none is out of order, or for a limited number of rounds: min-conflicts (Minton et al.,
/// 1992) with a tabu list (Glover, 1989). A linear congruential generator chooses where to begin.
fn improve(alloc: Global, seats: &[Seat], spans: &mut [Span]) -> Result<(), AllocError> {
    let size = spans.len();
    if size == 0 {
        return Ok(());
    }
    let mut rests = vec![in alloc; 0; size]?;
    let mut seed: usize = 1;
    for round in 0..ROUNDS / size {
        let Some(place) = next_clash(seats, spans, seed >> 20) else {
            break;
        };
        seed = seed
            .wrapping_mul(6364136223846793005)
            .wrapping_add(1442695040888963407);
        if let Some(other) = best_exchange(seats, spans, &rests, place, seed >> 33, round) {
            exchange(spans, place, other);
            for moved in [place, other] {
                if let Some(rest) = rests.get_mut(moved) {
                    *rest = round.saturating_add(REST);
                }
            }
        }
    }
    Ok(())
}

/// The children by the numbers that are given for them.
fn by_places(alloc: Global, children: &[usize], places: &[usize]) -> Result<Vec<usize>, AllocError>
    ensures { IfOk result (λ v. IsPermutation children.now v.items) }
{
    let mut keyed = Vec::with_capacity(alloc, children.len())?;
    for (child, line) in children.iter().enumerate() {
        keyed.push((number_at(places, child), *line))?;
    }
    keyed.sort_by_key(|pair| pair.0)?;
    let mut list = Vec::with_capacity(alloc, keyed.len())?;
    for pair in keyed.iter() {
        list.push(pair.1)?;
    }
    Ok(list)
}

/// The children of a line in the order in which they may stand at the positions of a network.
pub(crate) fn guessed_children<L: PlanLines>(
    alloc: Global,
    lines: &L,
    memo: &Memo,
    children: &[usize],
    order: &Order,
    sequence: &[usize],
    links: &Links,
    gap: usize,
) -> Result<Vec<usize>, AllocError>
    requires lines { AreLines (L.lines lines.now) }
    requires memo { IsMemo (L.lines lines.now) memo.now }
    requires low { (i : ℕ) → i < length children.now → get_or children.now i 0 < (L.lines lines.now).count }
    ensures { IfOk result (λ v. IsPermutation children.now v.items) }
{
    let mut spans = spans_of(alloc, lines, memo, children, &links.after, gap)?;
    if children.len() <= MOST {
        let seats = seats_of(alloc, order, sequence, &links.first, children.len())?;
        improve(alloc, &seats, &mut spans)?;
    }
    let mut places = vec![in alloc; 0; children.len()]?;
    for (place, span) in spans.iter().enumerate() {
        if let Some(of_child) = places.get_mut(span.child) {
            *of_child = place;
        }
    }
    by_places(alloc, children, &places)
}
