//! Pictures as text.

ghost use Rattle.std.specs.Prelude.{◌≡◌, [], ◌∷◌, ◌++◌, option_map, IfOk, OnOk};
ghost use Rattle.std.specs.List.{flat_map};
ghost use Rattle.plan_picture.specs.Seen.{seen};
ghost use Rattle.picture_text.specs.SeenLine.{seen_line};
ghost use Rattle.picture_text.specs.Text as spec;

use crate::caption::{Caption, Mark};
use crate::detail::{
    Condition, Detail, Setting, condition_of, detail_at, say_condition, say_setting, settings_of,
};
use crate::line::{Line, line_at};
use crate::words::{mark_of, say, say_blanks, say_in_column, say_number, say_task};
use itoa::Buffer;
use plan_picture::{Picture, Row, children_at};
use plan_text::{ActionLine, DecompositionLine, PlanFile};
use std::alloc::{AllocError, Global};

/// The signs that a tree is drawn with.
#[derive(Clone, Copy, Debug, PartialEq, Eq)]
pub enum Glyphs {
    Unicode,
    Ascii,
}

/// The signs before a line.
fn branch(glyphs: Glyphs, is_last: bool) -> &'static [u8]
    ensures { result.now ≡ spec.branch glyphs is_last }
{
    match (glyphs, is_last) {
        (Glyphs::Unicode, false) => b"\xe2\x94\x9c\xe2\x94\x80 ",
        (Glyphs::Unicode, true) => b"\xe2\x94\x94\xe2\x94\x80 ",
        (Glyphs::Ascii, false) => b"|- ",
        (Glyphs::Ascii, true) => b"`- ",
    }
}

/// The signs below a line, before the lines below it.
fn bar(glyphs: Glyphs, is_last: bool) -> &'static [u8]
    ensures { result.now ≡ spec.bar glyphs is_last }
{
    match (glyphs, is_last) {
        (Glyphs::Unicode, true) => b"   ",
        (Glyphs::Ascii, true) => b"   ",
        (Glyphs::Unicode, false) => b"\xe2\x94\x82  ",
        (Glyphs::Ascii, false) => b"|  ",
    }
}

/// The signs below the lines that are above a row in the tree.
fn say_bars(out: &mut Vec<u8>, glyphs: Glyphs, above: &[bool]) -> Result<(), AllocError>
    ensures { OnOk result (out.new.items ≡ out.old.items ++ flat_map (spec.bar glyphs) above.now) }
{
    for is_last in above {
        out.extend_from_slice(bar(glyphs, *is_last))?;
    }
    Ok(())
}

/// How many bars are left out, if any.
fn say_cut(out: &mut Vec<u8>, count: usize) -> Result<(), AllocError>
    ensures { OnOk result (out.new.items ≡ out.old.items ++ spec.cut count) }
{
    if count == 0 {
        return Ok(());
    }
    out.extend_from_slice(b"+")?;
    say_number(out, count as u64)?;
    out.extend_from_slice(b" ")
}

/// All signs before a row's words.
fn say_front(out: &mut Vec<u8>, glyphs: Glyphs, row: &Row) -> Result<(), AllocError>
    ensures { OnOk result (out.new.items ≡ out.old.items ++ spec.front glyphs (seen row.now)) }
{
    say_bars(out, glyphs, row.above.as_slice())?;
    say_cut(out, row.depth.saturating_sub(row.above.len()))?;
    out.extend_from_slice(branch(glyphs, row.is_last))
}

/// A line's id.
fn say_id(out: &mut Vec<u8>, id: u64) -> Result<(), AllocError>
    ensures { OnOk result (out.new.items ≡ out.old.items ++ spec.id_text id) }
{
    out.extend_from_slice(b"  #")?;
    say_number(out, id)
}

/// What is wrong with a line, if it is marked, and the line's end.
fn say_end(out: &mut Vec<u8>, mark: Option<Mark<'_>>) -> Result<(), AllocError>
    ensures { OnOk result (out.new.items ≡ out.old.items ++ (spec.mark_text mark.entry ++ 10 ∷ [])) }
{
    if let Some(mark) = mark {
        out.extend_from_slice(b"  <- ")?;
        say(out, mark.cause.as_bytes())?;
    }
    out.extend_from_slice(b"\n")
}

/// The words of an action, with its id where that isn't its position.
fn say_action(out: &mut Vec<u8>, position: usize, line: &ActionLine) -> Result<(), AllocError>
    ensures { OnOk result (out.new.items ≡ out.old.items ++ spec.action_label position line.now) }
{
    say_task(out, line.name(), line.arguments())?;
    if line.id() != position as u64 {
        say_id(out, line.id())?;
    }
    Ok(())
}

/// Parameters with their values, each after a blank.
fn say_more_settings(out: &mut Vec<u8>, settings: &[Setting]) -> Result<(), AllocError>
    ensures { OnOk result (out.new.items ≡ out.old.items ++ flat_map spec.spaced_setting settings.now) }
{
    for setting in settings {
        out.push(b' ')?;
        say_setting(out, b"=", setting)?;
    }
    Ok(())
}

/// Parameters with their values, if there are some.
fn say_settings(out: &mut Vec<u8>, settings: &[Setting]) -> Result<(), AllocError>
    ensures { OnOk result (out.new.items ≡ out.old.items ++ spec.settings_text settings.now) }
{
    if let [first, others @ ..] = settings {
        out.extend_from_slice(b" (")?;
        say_setting(out, b"=", first)?;
        say_more_settings(out, others)?;
        out.extend_from_slice(b")")?;
    }
    Ok(())
}

/// The words of a task, its method with the values of some of its parameters, and its id.
fn say_method(
    out: &mut Vec<u8>,
    settings: &[Setting],
    line: &DecompositionLine,
) -> Result<(), AllocError>
    ensures { OnOk result (out.new.items ≡ out.old.items ++ spec.task_label settings.now line.now) }
{
    say_task(out, line.task(), line.arguments())?;
    out.extend_from_slice(b" -> ")?;
    say(out, line.method().as_bytes())?;
    say_settings(out, settings)?;
    say_id(out, line.id())
}

/// The left margin: the position of an action, or blanks.
fn say_margin(out: &mut Vec<u8>, width: usize, row: &Row, line: Line<'_>) -> Result<(), AllocError>
    ensures { OnOk result (out.new.items ≡ out.old.items ++ spec.margin_of width row.now.line (seen_line line.entry)) }
{
    match line {
        Line::Action(_) => say_in_column(out, width, row.line)?,
        Line::Task(_) => say_blanks(out, width)?,
    }
    say_blanks(out, 2)
}

/// The words of a line: of a task with its method, the values of some of its parameters and its id, of an action with
/// its id where that isn't its position.
pub fn say_label(
    out: &mut Vec<u8>,
    position: usize,
    settings: &[Setting],
    line: Line<'_>,
) -> Result<(), AllocError>
    ensures { OnOk result (out.new.items ≡ out.old.items ++ spec.label position settings.now (seen_line line.entry)) }
{
    match line {
        Line::Action(action) => say_action(out, position, action),
        Line::Task(task) => say_method(out, settings, task),
    }
}

/// The line of a row.
fn say_line(
    out: &mut Vec<u8>,
    glyphs: Glyphs,
    width: usize,
    caption: &Caption<'_>,
    row: &Row,
    settings: &[Setting],
    line: Line<'_>,
) -> Result<(), AllocError>
    ensures { OnOk result (out.new.items ≡ out.old.items ++ spec.own_text glyphs width caption.now.mark (seen row.now) settings.now (seen_line line.entry)) }
{
    say_margin(out, width, row, line)?;
    say_front(out, glyphs, row)?;
    say_label(out, row.line, settings, line)?;
    say_end(out, mark_of(caption, line.id()))
}

/// The signs below a row, before what is below its line, if there is something.
fn say_front_below(
    out: &mut Vec<u8>,
    glyphs: Glyphs,
    width: usize,
    is_leaf: bool,
    row: &Row,
) -> Result<(), AllocError>
    ensures { OnOk result (out.new.items ≡ out.old.items ++ spec.front_below glyphs width is_leaf (seen row.now)) }
{
    say_blanks(out, width)?;
    say_blanks(out, 2)?;
    say_bars(out, glyphs, row.above.as_slice())?;
    say_cut(out, row.depth.saturating_sub(row.above.len()))?;
    out.extend_from_slice(bar(glyphs, row.is_last))?;
    out.extend_from_slice(bar(glyphs, is_leaf))
}

/// Below the line of a row the precondition of its method, if that has one.
fn say_below(
    out: &mut Vec<u8>,
    glyphs: Glyphs,
    width: usize,
    is_leaf: bool,
    row: &Row,
    condition: Option<&Condition>,
) -> Result<(), AllocError>
    ensures { OnOk result (out.new.items ≡ out.old.items ++ spec.condition_text glyphs width is_leaf (seen row.now) (option_map (λ c. c.now) condition.entry)) }
{
    match condition {
        Some(condition) => {
            say_front_below(out, glyphs, width, is_leaf, row)?;
            say_condition(out, condition)?;
            out.extend_from_slice(b"\n")
        }
        None => Ok(()),
    }
}

/// How wide the positions of the actions are.
pub fn width_of(file: &PlanFile) -> usize
    ensures { result ≡ spec.width_of file.now }
{
    let mut buffer = Buffer::new();
    buffer.format(file.actions().len().saturating_sub(1)).len()
}

/// The problem and the verdict.
fn say_title(out: &mut Vec<u8>, width: usize, caption: &Caption<'_>) -> Result<(), AllocError>
    ensures { OnOk result (out.new.items ≡ out.old.items ++ spec.title width caption.now) }
{
    say_blanks(out, width)?;
    say_blanks(out, 2)?;
    say(out, caption.problem.as_bytes())?;
    out.extend_from_slice(b": ")?;
    say(out, caption.verdict.as_bytes())?;
    out.extend_from_slice(b"\n")
}

/// Whether the line with a number has no children.
fn is_leaf(picture: &Picture<'_>, number: usize) -> bool
    ensures { result ≡ spec.is_leaf picture.now number }
{
    let children = picture.children.as_slice();
    children_at(children, picture.file.actions().len(), number).is_empty()
}

/// The line of a row, if there is such a line, and what a solution says of it.
fn say_row(
    out: &mut Vec<u8>,
    glyphs: Glyphs,
    width: usize,
    caption: &Caption<'_>,
    details: Option<&[Detail]>,
    picture: &Picture<'_>,
    row: &Row,
) -> Result<(), AllocError>
    ensures { OnOk result (out.new.items ≡ out.old.items ++ spec.row_text glyphs width caption.now.mark (option_map (λ d. d.now) details.entry) picture.now (seen row.now)) }
{
    let Some(line) = line_at(picture.file, row.line) else {
        return Ok(());
    };
    let detail = detail_at(details, picture.file.actions().len(), row.line);
    let is_leaf = is_leaf(picture, row.line);
    say_line(out, glyphs, width, caption, row, settings_of(detail), line)?;
    say_below(out, glyphs, width, is_leaf, row, condition_of(detail))
}

/// The picture as text: the problem and the verdict, and then each line in its place. What is left of it is the plan.
/// With the details of a solution a task has the values of parameters behind its method, and below it what the method's
/// precondition is and when it is tested.
pub fn text(
    alloc: Global,
    glyphs: Glyphs,
    caption: &Caption<'_>,
    details: Option<&[Detail]>,
    picture: &Picture<'_>,
) -> Result<Vec<u8>, AllocError>
    ensures { IfOk result (λ text. text.items ≡ spec.text_bytes glyphs caption.now (option_map (λ d. d.now) details.entry) picture.now) }
{
    let mut out = Vec::new(alloc);
    let width = width_of(picture.file);
    say_title(&mut out, width, caption)?;
    for row in picture.rows.as_slice() {
        say_row(&mut out, glyphs, width, caption, details, picture, row)?;
    }
    Ok(out)
}
