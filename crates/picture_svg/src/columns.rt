//! The columns of a picture.

ghost use Rattle.std.specs.Prelude.{◌≡◌, ℕ, ◌+◌, ◌<◌, nat_lt, nat_eq, length, max, get_or, if◌then◌else◌, IfOk};
ghost use Rattle.picture_svg.specs.Columns.{AreColumns, AreWidest, starts};
ghost use Rattle.picture_svg.specs.Grid as spec;
ghost use Rattle.plan_picture.specs.Seen.{seen, seen_all};

use crate::numbers::{larger, number_at, plus};
use plan_picture::Row;
use std::alloc::{AllocError, Global};

/// How many columns there are with those of one more row.
fn more_columns(actions: usize, row: &Row, count: usize) -> Result<usize, AllocError>
    ensures { IfOk result (λ more. more ≡ (if nat_lt row.now.line actions then count else max (row.now.depth + 1) count)) }
{
    if row.line < actions {
        return Ok(count);
    }
    Ok(larger(plus(row.depth, 1)?, count))
}

/// How many columns of tasks there are.
fn column_count(actions: usize, rows: &[Row]) -> Result<usize, AllocError>
    ensures { IfOk result (λ count. count ≡ spec.column_count actions (seen_all rows.now)) }
{
    let mut count = 0;
    let mut left = rows.len();
    while left > 0 {
        left -= 1;
        count = more_columns(actions, &rows[left], count)?;
    }
    Ok(count)
}

/// Makes a column as wide as a box in it. There may be no such column.
fn widen(wide: &mut Vec<usize>, column: usize, width: usize)
    ensures long { length wide.new.items ≡ length wide.old.items }
    ensures wide { (d : ℕ) → d < length wide.old.items → get_or wide.new.items d 0 ≡ (if nat_eq column d then max width (get_or wide.old.items d 0) else get_or wide.old.items d 0) }
{
    if column < wide.len() {
        wide[column] = larger(width, wide[column]);
    }
}

/// Makes the column of a row as wide as its box, if the row is a task.
fn widen_by(wide: &mut Vec<usize>, actions: usize, widths: &[usize], row: &Row)
    ensures long { length wide.new.items ≡ length wide.old.items }
    ensures wide { (d : ℕ) → d < length wide.old.items
        → get_or wide.new.items d 0 ≡ (if spec.is_in_column actions d (seen row.now) then max (get_or widths.now row.now.line 0) (get_or wide.old.items d 0) else get_or wide.old.items d 0) }
{
    if row.line >= actions {
        widen(wide, row.depth, number_at(widths, row.line));
    }
}

/// The width of the widest box in each column.
fn widest(
    alloc: Global,
    actions: usize,
    widths: &[usize],
    count: usize,
    rows: &[Row],
) -> Result<Vec<usize>, AllocError>
    ensures { IfOk result (λ wide. AreWidest actions (λ line. get_or widths.now line 0) count (seen_all rows.now) wide.items) }
{
    let mut wide = vec![in alloc; 0; count]?;
    let mut left = rows.len();
    while left > 0 {
        left -= 1;
        widen_by(&mut wide, actions, widths, &rows[left]);
    }
    Ok(wide)
}

/// Where each column begins, and where that of the actions does, which comes after them.
fn begun(alloc: Global, first: usize, wide: &[usize]) -> Result<Vec<usize>, AllocError>
    ensures { IfOk result (λ lefts. lefts.items ≡ starts first wide.now) }
{
    let mut lefts = Vec::new(alloc);
    let mut next = first;
    for width in wide {
        lefts.push(next)?;
        next = plus(plus(next, *width)?, 34)?;
    }
    lefts.push(next)?;
    Ok(lefts)
}

/// Where each column of tasks begins, with where the first does, and at last where that of the actions does.
pub(crate) fn columns_of(
    alloc: Global,
    actions: usize,
    widths: &[usize],
    first: usize,
    rows: &[Row],
) -> Result<Vec<usize>, AllocError>
    ensures { IfOk result (λ lefts. AreColumns actions (λ line. get_or widths.now line 0) first (seen_all rows.now) lefts.items) }
{
    let count = column_count(actions, rows)?;
    let wide = widest(alloc, actions, widths, count, rows)?;
    begun(alloc, first, wide.as_slice())
}
