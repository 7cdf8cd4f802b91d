//! Rows of the outline.

ghost use Rattle.std.specs.Prelude.{◌≡◌, ◌++◌, Some, option_map, OnOk};
ghost use Rattle.picture_text.specs.Lines as lines;
ghost use Rattle.picture_text.specs.SeenLine.{seen_line};
ghost use Rattle.plan_picture.specs.Seen.{seen};
ghost use Rattle.picture_svg.specs.Svg.{class_of as class_spec};
ghost use Rattle.picture_html.specs.Row as spec;

use crate::bars::{Bar, MAX_LEVELS};
use crate::label::{say_between, say_label};
use crate::time::say_time;
use crate::tip::say_tip;
use picture_text::{Caption, Detail, Line, condition_of, is_marked, line_at, mark_of};
use plan_picture::Row;
use plan_text::PlanFile;
use std::alloc::AllocError;

/// The indent of a row, which shows at most 40 of the lines that it is below.
pub(crate) fn level_of(depth: usize) -> usize
    ensures { result ≡ spec.level depth }
{
    if depth < MAX_LEVELS {
        depth
    } else {
        MAX_LEVELS
    }
}

/// The class of a line.
fn class_of(is_marked: bool, line: Line<'_>) -> &'static [u8]
    ensures { result.now ≡ class_spec is_marked (seen_line line.entry) }
{
    match (is_marked, line) {
        (false, Line::Action(_)) => b"act",
        (true, Line::Action(_)) => b"act bad",
        (false, Line::Task(_)) => b"task",
        (true, Line::Task(_)) => b"task bad",
    }
}

/// What a row begins with.
fn say_begin(out: &mut Vec<u8>, folds: bool, depth: usize) -> Result<(), AllocError>
    ensures { OnOk result (out.new.items ≡ out.old.items ++ spec.begin folds depth) }
{
    let level = level_of(depth);
    if folds {
        say_between(out, b"<details open style=\"--d:", level, b"\">\n<summary")
    } else {
        say_between(out, b"<div style=\"--d:", level, b"\"")
    }
}

/// The class of a row; the one that is marked is named, for a link to it.
fn say_class(out: &mut Vec<u8>, is_marked: bool, line: Line<'_>) -> Result<(), AllocError>
    ensures { OnOk result (out.new.items ≡ out.old.items ++ spec.row_class is_marked (seen_line line.entry)) }
{
    out.extend_from_slice(b" class=\"row ")?;
    out.extend_from_slice(class_of(is_marked, line))?;
    if is_marked {
        out.extend_from_slice(b"\" id=\"marked\">")
    } else {
        out.extend_from_slice(b"\">")
    }
}

/// What a row ends with.
fn end_of(folds: bool) -> &'static [u8]
    ensures { result.now ≡ spec.end folds }
{
    if folds { b"</summary>\n" } else { b"</div>\n" }
}

/// The row of a line.
fn say_line(
    out: &mut Vec<u8>,
    caption: &Caption<'_>,
    folds: bool,
    row: &Row,
    line: Line<'_>,
    bars: &[Bar],
    detail: Option<&Detail>,
) -> Result<(), AllocError>
    ensures { OnOk result (out.new.items ≡ out.old.items ++ spec.row_text caption.now.mark folds (seen row.now) (Some (seen_line line.entry)) bars.now (option_map (λ d. d.now) detail.entry)) }
{
    let id = line.id();
    let more = row.depth.saturating_sub(MAX_LEVELS);
    say_begin(out, folds, row.depth)?;
    say_class(out, is_marked(caption, id), line)?;
    say_label(out, mark_of(caption, id), more, row.line, line)?;
    say_time(out, bars, condition_of(detail))?;
    say_tip(out, detail)?;
    out.extend_from_slice(end_of(folds))
}

/// The row of a line, if there is such a line, with its bars and with what a solution says of it.
pub(crate) fn say_row(
    out: &mut Vec<u8>,
    caption: &Caption<'_>,
    file: &PlanFile,
    folds: bool,
    row: &Row,
    bars: &[Bar],
    detail: Option<&Detail>,
) -> Result<(), AllocError>
    ensures { OnOk result (out.new.items ≡ out.old.items ++ spec.row_text caption.now.mark folds (seen row.now) (lines.line_at file.now row.now.line) bars.now (option_map (λ d. d.now) detail.entry)) }
{
    match line_at(file, row.line) {
        Some(line) => say_line(out, caption, folds, row, line, bars, detail),
        None => Ok(()),
    }
}
