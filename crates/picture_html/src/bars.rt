//! Bars over the positions of actions.

ghost use Rattle.std.specs.Prelude.{◌≡◌, ℕ, ◌+◌, ◌<◌, ◌++◌, length, drop, reverse, IfOk, OnOk};
ghost use Rattle.htn_model.specs.PlanFile.{IsIn, IsWithoutRepeats};
ghost use Rattle.plan_picture.specs.Firsts.{lines_of};
ghost use Rattle.plan_picture.specs.Seen.{seen, seen_all};
ghost use Rattle.picture_html.specs.Bars.{bar_levels as bar_levels_spec, has_bars as has_bars_spec};
ghost use Rattle.picture_html.specs.Outline as lists;
ghost use Rattle.picture_html.specs.Runs as spec;

use plan_picture::Row;
use std::alloc::{AllocError, Global};

/// A line that is below this many lines or more doesn't fold, and a task that is below more has no bars.
pub const MAX_LEVELS: usize = 40;

/// The most actions of a plan in which each task that is below no more lines than these has bars.
pub const MAX_BARRED: usize = 2000;

/// In a plan with more actions, a task that is below more lines than these has no bars.
pub const FEW_LEVELS: usize = 4;

/// A run of positions, by its first and its last.
#[derive(Clone, Copy, Debug, PartialEq, Eq)]
pub struct Bar {
    pub first: usize,
    pub last: usize,
}

/// The bar over one number.
fn single(number: usize) -> Bar
    ensures { result ≡ spec.single number }
{
    Bar {
        first: number,
        last: number,
    }
}

/// Adds a number to bars that stand from the last to the first, none of which begins before it.
fn cover(bars: &mut Vec<Bar>, number: usize) -> Result<(), AllocError>
    ensures { OnOk result (reverse bars.new.items ≡ spec.with_number number (reverse bars.old.items)) }
{
    let Some(bar) = bars.pop() else {
        bars.push(single(number))?;
        return Ok(());
    };
    if bar.first <= number {
        bars.push(bar)?;
        return Ok(());
    }
    if bar.first - number == 1 {
        bars.push(Bar {
            first: number,
            last: bar.last,
        })?;
        return Ok(());
    }
    bars.push(bar)?;
    bars.push(single(number))?;
    Ok(())
}

/// The bars over ascending numbers.
fn runs_of(alloc: Global, numbers: &[usize]) -> Result<Vec<Bar>, AllocError>
    ensures { IfOk result (λ bars. bars.items ≡ spec.runs_of numbers.now) }
{
    let mut bars = Vec::new(alloc);
    let mut left = numbers.len();
    while left > 0 {
        left -= 1;
        cover(&mut bars, numbers[left])?;
    }
    bars.reverse();
    Ok(bars)
}

/// Adds the position of a row's line, if that is an action.
fn push_position(positions: &mut Vec<usize>, actions: usize, row: &Row) -> Result<(), AllocError>
    ensures { OnOk result (positions.new.items ≡ positions.old.items ++ spec.own_position actions (seen row.now)) }
{
    if row.line < actions {
        positions.push(row.line)?;
    }
    Ok(())
}

/// The positions of the actions in the row at a place and in the rows below it.
fn positions_at(
    alloc: Global,
    actions: usize,
    rows: &[Row],
    place: usize,
) -> Result<Vec<usize>, AllocError>
    requires { place < length rows.now }
    ensures { IfOk result (λ found. found.items ≡ spec.positions actions (spec.own_rows (drop place (seen_all rows.now)))) }
{
    let mut found = Vec::new(alloc);
    let depth = rows[place].depth;
    push_position(&mut found, actions, &rows[place])?;
    let mut next = place + 1;
    while next < rows.len() && rows[next].depth > depth {
        push_position(&mut found, actions, &rows[next])?;
        next += 1;
    }
    Ok(found)
}

/// The most lines that a task with bars is below, in a plan with some actions.
fn bar_levels(actions: usize) -> usize
    ensures { result ≡ bar_levels_spec actions }
{
    if actions <= MAX_BARRED {
        MAX_LEVELS
    } else {
        FEW_LEVELS
    }
}

/// Whether a row has bars.
fn has_bars(actions: usize, row: &Row) -> bool
    ensures { result ≡ has_bars_spec actions (seen row.now) }
{
    row.line < actions || row.depth <= bar_levels(actions)
}

/// The bars of the row at a place.
fn bars_at(
    alloc: Global,
    actions: usize,
    rows: &[Row],
    place: usize,
) -> Result<Vec<Bar>, AllocError>
    requires { place < length rows.now }
    ensures { IfOk result (λ bars. spec.AreFoundFirst actions (drop place (seen_all rows.now)) bars.items) }
{
    if has_bars(actions, &rows[place]) {
        let mut positions = positions_at(alloc, actions, rows, place)?;
        positions.sort()?;
        let bars = runs_of(alloc, positions.as_slice())?;
        return Ok(bars);
    }
    Ok(Vec::new(alloc))
}

/// No bars for each of some lines.
fn no_bars(alloc: Global, count: usize) -> Result<Vec<Vec<Bar>>, AllocError>
    ensures { IfOk result (λ bars. length bars.items ≡ count) }
{
    let mut bars = Vec::new(alloc);
    for _ in 0..count {
        bars.push(Vec::new(alloc))?;
    }
    Ok(bars)
}

/// The bars of each row, by the number of its line, where no two rows are of one line.
pub(crate) fn bars_of(
    alloc: Global,
    actions: usize,
    decompositions: usize,
    rows: &[Row],
) -> Result<Vec<Vec<Bar>>, AllocError>
    requires within { (line : ℕ) → IsIn line (lines_of (seen_all rows.now)) → line < actions + decompositions }
    requires once { IsWithoutRepeats (lines_of (seen_all rows.now)) }
    ensures { IfOk result (λ bars. spec.AreAllFound actions (seen_all rows.now) (lists.bars_at bars.items)) }
{
    let mut bars = no_bars(alloc, actions.saturating_add(decompositions))?;
    let mut left = rows.len();
    while left > 0 {
        left -= 1;
        let found = bars_at(alloc, actions, rows, left)?;
        let line = rows[left].line;
        bars[line] = found;
    }
    Ok(bars)
}
