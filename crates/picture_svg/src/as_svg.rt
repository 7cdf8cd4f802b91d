//! Pictures as SVG.

ghost use Rattle.std.specs.Prelude.{◌≡◌, ◌++◌, Some, map, option_map, slice_get, IfOk, OnOk};
ghost use Rattle.std.specs.List.{flat_map};
ghost use Rattle.plan_picture.specs.Picture.{IsPictureOf};
ghost use Rattle.plan_picture.specs.Seen.{seen_all};
ghost use Rattle.picture_text.specs.Dot as dot_spec;
ghost use Rattle.picture_text.specs.SeenLine.{seen_line};
ghost use Rattle.picture_text.specs.Text as text_spec;
ghost use Rattle.picture_svg.specs.Svg as spec;
ghost use Rattle.picture_svg.specs.Shapes.{path};
ghost use Rattle.diagnostics.specs.Shown as shown_spec;

use crate::escape::say_escaped;
use crate::layout::{Area, Edge, Layout, layout_of};
use crate::shapes::{say_numbered, say_path, say_size, say_two_lines};
use crate::style::say_style;
use picture_text::{
    Caption, Condition, Detail, Line, Mark, Setting, condition_of, detail_at, is_marked, line_at,
    mark_of, say, say_condition, say_label, say_number, say_setting, settings_of, width_of,
    words_of,
};
use plan_picture::{Picture, Row};
use plan_text::PlanFile;
use std::alloc::{AllocError, Global};

/// The class of a line's box.
fn class_of(is_marked: bool, line: Line<'_>) -> &'static [u8]
    ensures { result.now ≡ spec.class_of is_marked (seen_line line.entry) }
{
    match (is_marked, line) {
        (false, Line::Action(_)) => b"act",
        (true, Line::Action(_)) => b"act bad",
        (false, Line::Task(_)) => b"task",
        (true, Line::Task(_)) => b"task bad",
    }
}

/// The position of an action.
fn say_position(out: &mut Vec<u8>, number: usize, line: Line<'_>) -> Result<(), AllocError>
    ensures { OnOk result (out.new.items ≡ out.old.items ++ dot_spec.position number (seen_line line.entry)) }
{
    match line {
        Line::Action(_) => {
            say_number(out, number as u64)?;
            out.extend_from_slice(b"  ")
        }
        Line::Task(_) => Ok(()),
    }
}

/// What is wrong with a line.
fn say_mark(out: &mut Vec<u8>, mark: Option<Mark<'_>>) -> Result<(), AllocError>
    ensures { OnOk result (out.new.items ≡ out.old.items ++ text_spec.mark_text mark.entry) }
{
    match mark {
        Some(mark) => {
            out.extend_from_slice(b"  <- ")?;
            say(out, mark.cause.as_bytes())
        }
        None => Ok(()),
    }
}

/// Parameters and their values, each on a line of its own.
fn say_settings(out: &mut Vec<u8>, settings: &[Setting]) -> Result<(), AllocError>
    ensures { OnOk result (out.new.items ≡ out.old.items ++ flat_map spec.setting_line settings.now) }
{
    for setting in settings {
        out.push(b'\n')?;
        say_setting(out, b" = ", setting)?;
    }
    Ok(())
}

/// What a solution says of a line, on lines of their own.
fn say_detail(out: &mut Vec<u8>, detail: Option<&Detail>) -> Result<(), AllocError>
    ensures { OnOk result (out.new.items ≡ out.old.items ++ spec.detail_lines (option_map (λ d. d.now) detail.entry)) }
{
    say_settings(out, settings_of(detail))?;
    match condition_of(detail) {
        Some(condition) => {
            out.extend_from_slice(b"\nprecondition: ")?;
            say_condition(out, condition)
        }
        None => Ok(()),
    }
}

/// What is known of a line.
fn known(
    alloc: Global,
    caption: &Caption<'_>,
    number: usize,
    detail: Option<&Detail>,
    line: Line<'_>,
) -> Result<Vec<u8>, AllocError>
    ensures { IfOk result (λ known. known.items ≡ spec.known caption.now.mark number (option_map (λ d. d.now) detail.entry) (seen_line line.entry)) }
{
    let mut known = Vec::new(alloc);
    say_position(&mut known, number, line)?;
    say_label(&mut known, number, &[], line)?;
    say_mark(&mut known, mark_of(caption, line.id()))?;
    say_detail(&mut known, detail)?;
    Ok(known)
}

/// Bytes as they are shown.
fn shown_words(alloc: Global, words: &[u8]) -> Result<Vec<u8>, AllocError>
    ensures { IfOk result (λ bytes. bytes.items ≡ map shown_spec.shown words.now) }
{
    let mut bytes = Vec::new(alloc);
    say(&mut bytes, words)?;
    Ok(bytes)
}

/// The box of a line with these words.
fn say_words(
    out: &mut Vec<u8>,
    alloc: Global,
    class: &[u8],
    digits: usize,
    number: usize,
    area: Area,
    line: Line<'_>,
) -> Result<(), AllocError>
    ensures { OnOk result (out.new.items ≡ out.old.items ++ spec.shape_in class.now digits number area (seen_line line.entry)) }
{
    let words = words_of(alloc, line)?;
    match line {
        Line::Action(_) => say_numbered(out, class, area, digits, number, words.as_slice()),
        Line::Task(task) => {
            let method = shown_words(alloc, task.method().as_bytes())?;
            say_two_lines(out, class, area, words.as_slice(), method.as_slice())
        }
    }
}

/// The title of a node: what is known of its line.
fn say_title(
    out: &mut Vec<u8>,
    alloc: Global,
    caption: &Caption<'_>,
    number: usize,
    detail: Option<&Detail>,
    line: Line<'_>,
) -> Result<(), AllocError>
    ensures { OnOk result (out.new.items ≡ out.old.items ++ spec.node_title caption.now.mark number (option_map (λ d. d.now) detail.entry) (seen_line line.entry)) }
{
    let known = known(alloc, caption, number, detail, line)?;
    out.extend_from_slice(b"<g><title>")?;
    say_escaped(out, known.as_slice())?;
    out.extend_from_slice(b"</title>\n")
}

/// The box of a line, and the end of its node.
fn say_box(
    out: &mut Vec<u8>,
    alloc: Global,
    caption: &Caption<'_>,
    digits: usize,
    number: usize,
    area: Area,
    line: Line<'_>,
) -> Result<(), AllocError>
    ensures { OnOk result (out.new.items ≡ out.old.items ++ spec.node_box caption.now.mark digits number area (seen_line line.entry)) }
{
    let class = class_of(is_marked(caption, line.id()), line);
    say_words(out, alloc, class, digits, number, area, line)?;
    out.extend_from_slice(b"</g>\n")
}

/// The node of the line with a number, if there is such a line.
fn say_node(
    out: &mut Vec<u8>,
    alloc: Global,
    caption: &Caption<'_>,
    details: Option<&[Detail]>,
    file: &PlanFile,
    number: usize,
    area: Area,
) -> Result<(), AllocError>
    ensures { OnOk result (out.new.items ≡ out.old.items ++ spec.node_in caption.now.mark (option_map (λ d. d.now) details.entry) file.now number (Some area)) }
{
    match line_at(file, number) {
        Some(line) => {
            let detail = detail_at(details, file.actions().len(), number);
            say_title(out, alloc, caption, number, detail, line)?;
            say_box(out, alloc, caption, width_of(file), number, area, line)
        }
        None => Ok(()),
    }
}

/// The box at a place.
fn box_at(boxes: &[Area], place: usize) -> Option<Area>
    ensures { result ≡ slice_get boxes.now place }
{
    match boxes.get(place) {
        Some(area) => Some(*area),
        None => None,
    }
}

/// The node of the line with a number in its box, if it has one.
fn say_node_in(
    out: &mut Vec<u8>,
    alloc: Global,
    caption: &Caption<'_>,
    details: Option<&[Detail]>,
    file: &PlanFile,
    number: usize,
    area: Option<Area>,
) -> Result<(), AllocError>
    ensures { OnOk result (out.new.items ≡ out.old.items ++ spec.node_in caption.now.mark (option_map (λ d. d.now) details.entry) file.now number area) }
{
    match area {
        Some(area) => say_node(out, alloc, caption, details, file, number, area),
        None => Ok(()),
    }
}

/// The nodes of rows in their boxes.
fn say_nodes(
    out: &mut Vec<u8>,
    alloc: Global,
    caption: &Caption<'_>,
    details: Option<&[Detail]>,
    file: &PlanFile,
    rows: &[Row],
    boxes: &[Area],
) -> Result<(), AllocError>
    ensures { OnOk result (out.new.items ≡ out.old.items ++ spec.nodes caption.now.mark (option_map (λ d. d.now) details.entry) file.now (seen_all rows.now) boxes.now) }
{
    for place in 0..rows.len() {
        let line = rows[place].line;
        let area = box_at(boxes, place);
        say_node_in(out, alloc, caption, details, file, line, area)?;
    }
    Ok(())
}

/// The edges.
fn say_edges(out: &mut Vec<u8>, edges: &[Edge]) -> Result<(), AllocError>
    ensures { OnOk result (out.new.items ≡ out.old.items ++ flat_map path edges.now) }
{
    for edge in edges {
        say_path(out, *edge)?;
    }
    Ok(())
}

/// The whole's size.
fn say_opening(out: &mut Vec<u8>, width: usize, height: usize) -> Result<(), AllocError>
    ensures { OnOk result (out.new.items ≡ out.old.items ++ spec.opening width height) }
{
    out.extend_from_slice(b"<svg xmlns=\"http://www.w3.org/2000/svg\" class=\"t\"")?;
    say_size(out, width, height)?;
    out.extend_from_slice(b" viewBox=\"0 0 ")?;
    say_number(out, width as u64)?;
    out.extend_from_slice(b" ")?;
    say_number(out, height as u64)?;
    out.extend_from_slice(b"\" role=\"img\">\n")
}

/// The problem and the verdict.
fn title(alloc: Global, caption: &Caption<'_>) -> Result<Vec<u8>, AllocError>
    ensures { IfOk result (λ title. title.items ≡ spec.title caption.now) }
{
    let mut title = Vec::new(alloc);
    say(&mut title, caption.problem.as_bytes())?;
    title.extend_from_slice(b": ")?;
    say(&mut title, caption.verdict.as_bytes())?;
    Ok(title)
}

/// The text before the picture itself.
fn say_head(
    out: &mut Vec<u8>,
    alloc: Global,
    caption: &Caption<'_>,
    layout: &Layout,
) -> Result<(), AllocError>
    ensures { OnOk result (out.new.items ≡ out.old.items ++ spec.head caption.now layout.now) }
{
    let title = title(alloc, caption)?;
    say_opening(out, layout.width, layout.height)?;
    out.extend_from_slice(b"<title>")?;
    say_escaped(out, title.as_slice())?;
    out.extend_from_slice(b"</title>\n")?;
    say_style(out)?;
    out.extend_from_slice(b"<rect class=\"bg\" width=\"100%\" height=\"100%\"/>\n")
}

/// The box of the problem.
fn say_problem(
    out: &mut Vec<u8>,
    alloc: Global,
    caption: &Caption<'_>,
    area: Area,
) -> Result<(), AllocError>
    ensures { OnOk result (out.new.items ≡ out.old.items ++ spec.problem caption.now area) }
{
    let name = shown_words(alloc, caption.problem.as_bytes())?;
    let verdict = shown_words(alloc, caption.verdict.as_bytes())?;
    say_two_lines(out, b"root", area, name.as_slice(), verdict.as_slice())
}

/// A picture that is laid out.
fn laid_out(
    alloc: Global,
    caption: &Caption<'_>,
    details: Option<&[Detail]>,
    picture: &Picture<'_>,
    layout: &Layout,
) -> Result<Vec<u8>, AllocError>
    ensures { IfOk result (λ text. text.items ≡ spec.svg_bytes caption.now (option_map (λ d. d.now) details.entry) picture.now layout.now) }
{
    let mut out = Vec::new(alloc);
    let rows = picture.rows.as_slice();
    let boxes = layout.boxes.as_slice();
    say_head(&mut out, alloc, caption, layout)?;
    say_edges(&mut out, layout.edges.as_slice())?;
    say_problem(&mut out, alloc, caption, layout.problem)?;
    say_nodes(&mut out, alloc, caption, details, picture.file, rows, boxes)?;
    out.extend_from_slice(b"</svg>\n")?;
    Ok(out)
}

/// The picture as SVG, which needs nothing from outside: a box for the problem and one for each line, and an edge to each
/// line from its parent. With the details of a solution the title of a task's node has the values of parameters and the
/// method's precondition. An error is also that a number doesn't fit, as in `layout_of`.
pub fn svg(
    alloc: Global,
    caption: &Caption<'_>,
    details: Option<&[Detail]>,
    picture: &Picture<'_>,
) -> Result<Vec<u8>, AllocError>
    requires { IsPictureOf picture.now.file.now picture.now }
    ensures { IfOk result (λ text. spec.IsSvgOf caption.now (option_map (λ d. d.now) details.entry) picture.now text.items) }
{
    let layout = layout_of(alloc, caption, picture)?;
    laid_out(alloc, caption, details, picture, &layout)
}
