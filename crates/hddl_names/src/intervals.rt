//! Intervals of a walk, which decide in one look-up whether one number leads to another.
//!
//! Where each number has at most one parent, a line leads from it up to the last of its ancestors, its top. The numbers
//! are walked from the tops down. Each has a place in the walk, and its interval extends from there to the end of all
//! that lead to it. So a number leads to another exactly where its place is in the other's interval. The walk is not
//! proved: whether the intervals of the children tile that of their parent is checked once, after it. Where a number
//! has several parents, or leads to itself, they do not, and there are no intervals.
//!
//! In the words of graphs: interval labels of a tree, as Agrawal, Borgida and Jagadish (1989) have them.
ghost use Rattle.std.specs.Prelude.{◌≡◌, ◌<◌, ◌↔◌, ℕ, IsTrue, IfOk, IfSome, [], length, get_or};
ghost use Rattle.hddl_names.specs.Intervals.{Tile, AreTiled, StandAtPlaces, IsInside, HasTop, HaveTops, TellOfRows, interval_at, top_at};

use crate::rows::Rows;
use std::alloc::{AllocError, Global};

/// The places from `start` on and before `end`.
#[derive(Clone, Copy)]
pub(crate) struct Interval {
    start: usize,
    end: usize,
}

/// No places.
const NOWHERE: Interval = Interval { start: 0, end: 0 };

/// A walk of a hierarchy.
#[derive(Drop)]
struct Walk {
    /// The numbers in the order of their places.
    order: Vec<usize>,
    /// Of each number. One that has no place yet has no places.
    intervals: Vec<Interval>,
    /// Of each number that has a place.
    tops: Vec<usize>,
    /// The numbers whose intervals have no end yet, each with how many of its children were walked.
    open: Vec<(usize, usize)>,
}

impl Walk {
    /// The walk of numbers below a size before its first step: `0` has the first place.
    fn new(alloc: Global, size: usize) -> Result<Walk, AllocError> {
        Ok(Walk {
            order: vec![in alloc; 0]?,
            intervals: vec![in alloc; NOWHERE; size]?,
            tops: vec![in alloc; 0; size]?,
            open: Vec::new(alloc),
        })
    }

    /// Gives a number the next place and its top, if it has none.
    fn enter(&mut self, number: usize, number_top: usize) -> Result<(), AllocError> {
        let start = self.order.len();
        if let Some(interval) = self.intervals.get_mut(number)
            && interval.end == 0
            && let Some(top) = self.tops.get_mut(number)
        {
            self.order.push(number)?;
            let end = self.order.len();
            *interval = Interval { start, end };
            *top = number_top;
            self.open.push((number, 0))?;
        }
        Ok(())
    }

    /// Ends the interval of a number.
    fn leave(&mut self, number: usize) {
        if let Some(interval) = self.intervals.get_mut(number) {
            interval.end = self.order.len();
        }
    }

    /// Walks a top and all that lead to it.
    fn descend(&mut self, children: &Rows, top: usize) -> Result<(), AllocError> {
        self.enter(top, top)?;
        for _ in 0..u64::MAX {
            let Some((number, walked)) = self.open.pop() else {
                break;
            };
            match children.row_or_empty(number).get(walked) {
                Some(child) => {
                    self.open.push((number, walked + 1))?;
                    self.enter(*child, top)?;
                }
                None => self.leave(number),
            }
        }
        Ok(())
    }
}

/// The walk of all numbers. The work is that of going over all rows.
fn walked(alloc: Global, parents: &Rows, children: &Rows) -> Result<Walk, AllocError> {
    let mut walk = Walk::new(alloc, children.len())?;
    for number in 1..children.len() {
        if parents.row_or_empty(number).is_empty() {
            walk.descend(children, number)?;
        }
    }
    Ok(walk)
}

/// The interval of a number, or the empty one where the table has none.
fn interval_of(intervals: &[Interval], number: usize) -> Interval
    ensures { result ≡ interval_at intervals.now number }
{
    intervals.get(number).copied().unwrap_or(NOWHERE)
}

/// Whether the intervals of these numbers, one after another, go from a place to another, and none has no places.
fn tile(intervals: &[Interval], numbers: &[usize], from: usize, to: usize) -> bool
    ensures { IsTrue result ↔ Tile intervals.now numbers.now from to }
{
    let mut end = from;
    for number in numbers {
        let interval = interval_of(intervals, *number);
        if interval.start != end || interval.end <= end {
            return false;
        }
        end = interval.end;
    }
    end == to
}

/// Whether the interval of each number but `0` is its place and then the intervals of its children.
fn are_tiled(intervals: &[Interval], children: &Rows) -> bool
    ensures { IsTrue result ↔ AreTiled intervals.now children.now }
{
    for number in 1..children.len() {
        let own = interval_of(intervals, number);
        if own.start >= own.end || !tile(intervals, children.row(number), own.start + 1, own.end) {
            return false;
        }
    }
    true
}

/// Whether each number stands in the order at its place. Then no two have the same.
fn stand_at_places(intervals: &[Interval], order: &[usize]) -> bool
    ensures { IsTrue result ↔ StandAtPlaces intervals.now order.now }
{
    for number in 0..intervals.len() {
        let own = interval_of(intervals, number);
        if order.get(own.start).copied() != Some(number) {
            return false;
        }
    }
    true
}

/// The top of a number's line, or the number itself where the table has none.
pub(crate) fn top_of(tops: &[usize], number: usize) -> usize
    ensures { result ≡ top_at tops.now number }
{
    tops.get(number).copied().unwrap_or(number)
}

/// Whether a number with this row of parents is its own top, or has parents and is inside its top, and all its parents
/// have the same top.
fn has_top(intervals: &[Interval], tops: &[usize], row: &[usize], number: usize) -> bool
    ensures { IsTrue result ↔ HasTop intervals.now tops.now row.now number }
{
    let top = top_of(tops, number);
    if top != number && (row.is_empty() || top == 0 || !is_inside(intervals, number, top)) {
        return false;
    }
    row.iter().all(|parent| top_of(tops, *parent) == top)
}

/// Whether the line of each number ends at its top.
fn have_tops(intervals: &[Interval], tops: &[usize], parents: &Rows) -> bool
    ensures { IsTrue result ↔ HaveTops intervals.now tops.now parents.now }
{
    for number in 0..parents.len() {
        if !has_top(intervals, tops, parents.row(number), number) {
            return false;
        }
    }
    true
}

/// The intervals and tops that decide along lines whether one number leads to another.
pub(crate) struct Lines {
    /// Of each number.
    pub(crate) intervals: Vec<Interval>,
    /// Of each number the last one of its line.
    pub(crate) tops: Vec<usize>,
}

impl Drop for Lines {
    fn drop(self) {
        let Lines {
            intervals: _,
            tops: _,
        } = self;
    }
}

/// The intervals and tops that decide which number leads to which along the parents; None where a number has several or
/// leads to itself. An error means that memory was refused. It takes the time of a pass over all rows.
pub(crate) fn lines_of(
    alloc: Global,
    parents: &Rows,
    children: &Rows,
) -> Result<Option<Lines>, AllocError>
    requires { length parents.now ≡ length children.now }
    ensures { IfOk result (λ found. IfSome found (λ lines. TellOfRows parents.now children.now lines.intervals.items lines.tops.items)) }
{
    if !parents.row_or_empty(0).is_empty() {
        return Ok(None);
    }
    let walk = walked(alloc, parents, children)?;
    let intervals = walk.intervals.as_slice();
    if intervals.len() != children.len()
        || !are_tiled(intervals, children)
        || !stand_at_places(intervals, walk.order.as_slice())
        || !have_tops(intervals, walk.tops.as_slice(), parents)
    {
        return Ok(None);
    }
    Ok(Some(Lines {
        intervals: walk.intervals,
        tops: walk.tops,
    }))
}

/// Whether a number's place is in the interval of another.
pub(crate) fn is_inside(intervals: &[Interval], number: usize, other: usize) -> bool
    ensures { IsTrue result ↔ IsInside intervals.now number other }
{
    let place = interval_of(intervals, number).start;
    let interval = interval_of(intervals, other);
    interval.start <= place && place < interval.end
}
