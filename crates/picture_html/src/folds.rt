//! The outline: rows, and what folds under each.

ghost use Rattle.std.specs.Prelude.{◌≡◌, ◌++◌, ◌-◌, drop, option_map, OnOk};
ghost use Rattle.plan_picture.specs.Seen.{seen, seen_all};
ghost use Rattle.picture_html.specs.Outline as spec;
ghost use Rattle.picture_html.specs.Row.{level};

use crate::bars::{Bar, MAX_LEVELS};
use crate::row::{level_of, say_row};
use picture_text::{Caption, Detail, detail_at};
use plan_picture::Row;
use plan_text::PlanFile;
use std::alloc::AllocError;

/// How many lines the row at a place is below; 0 past the end.
fn depth_at(rows: &[Row], place: usize) -> usize
    ensures { result ≡ spec.next_depth (drop place (seen_all rows.now)) }
{
    match rows.get(place) {
        Some(row) => row.depth,
        None => 0,
    }
}

/// The bars of a line; none past the end.
fn bars_at(bars: &[Vec<Bar>], line: usize) -> &[Bar]
    ensures { result.now ≡ spec.bars_at bars.now line }
{
    match bars.get(line) {
        Some(bars) => bars.as_slice(),
        None => &[],
    }
}

/// The ends of some folds.
fn say_ends(out: &mut Vec<u8>, count: usize) -> Result<(), AllocError>
    ensures { OnOk result (out.new.items ≡ out.old.items ++ spec.ends count) }
{
    let mut left = count;
    while left > 0 {
        left -= 1;
        out.extend_from_slice(b"</details>\n")?;
    }
    Ok(())
}

/// Whether a row folds: the next one is below more lines, and it is below fewer than 40.
fn folds(depth: usize, next: usize) -> bool
    ensures { result ≡ spec.folds depth next }
{
    depth < next && depth < MAX_LEVELS
}

/// How many folds end between a row and the next.
fn ends_between(depth: usize, next: usize) -> usize
    ensures { result ≡ level depth - level next }
{
    level_of(depth).saturating_sub(level_of(next))
}

/// A row before one that is below some lines, and the ends of the folds between the two.
fn say_step(
    out: &mut Vec<u8>,
    caption: &Caption<'_>,
    file: &PlanFile,
    details: Option<&[Detail]>,
    bars: &[Vec<Bar>],
    row: &Row,
    next: usize,
) -> Result<(), AllocError>
    ensures { OnOk result (out.new.items ≡ out.old.items ++ spec.step (spec.line_row caption.now.mark file.now (option_map (λ d. d.now) details.entry) (spec.bars_at bars.now)) (seen row.now) next) }
{
    let folds = folds(row.depth, next);
    let bars = bars_at(bars, row.line);
    let detail = detail_at(details, file.actions().len(), row.line);
    say_row(out, caption, file, folds, row, bars, detail)?;
    say_ends(out, ends_between(row.depth, next))
}

/// All rows, each with what folds under it.
pub(crate) fn say_outline(
    out: &mut Vec<u8>,
    caption: &Caption<'_>,
    file: &PlanFile,
    details: Option<&[Detail]>,
    bars: &[Vec<Bar>],
    rows: &[Row],
) -> Result<(), AllocError>
    ensures { OnOk result (out.new.items ≡ out.old.items ++ spec.outline (spec.line_row caption.now.mark file.now (option_map (λ d. d.now) details.entry) (spec.bars_at bars.now)) (seen_all rows.now)) }
{
    for place in 0..rows.len() {
        let next = depth_at(rows, place + 1);
        say_step(out, caption, file, details, bars, &rows[place], next)?;
    }
    Ok(())
}
