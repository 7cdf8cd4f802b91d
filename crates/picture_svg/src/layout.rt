//! Where the boxes and the edges of a picture are.

ghost use Rattle.std.specs.Prelude.{◌≡◌, ℕ, ◌+◌, ◌*◌, nat_lt, max, map, get_or, if◌then◌else◌, IfOk};
ghost use Rattle.plan_picture.specs.Picture.{IsPictureOf};
ghost use Rattle.plan_picture.specs.Seen.{seen, seen_all};
ghost use Rattle.picture_svg.specs.Columns.{AreColumns};
ghost use Rattle.picture_svg.specs.Grid.{IsGridOf, AreCentred, actions_of, children_of, rows_of};
ghost use Rattle.picture_svg.specs.Layout as spec;
ghost use Rattle.picture_svg.specs.Measured.{IsArranged, grid_of};
ghost use Rattle.picture_svg.specs.Widths as width_spec;

use crate::columns::columns_of;
use crate::middles::{middle_of, middles_of, place_count};
use crate::numbers::{larger, number_at, plus, times};
use crate::widths::{problem_width, widths_of};
use picture_text::Caption;
use plan_picture::{Picture, Row};
use std::alloc::{AllocError, Global};

/// A box, by its left upper corner and its size.
#[derive(Clone, Copy, Debug)]
pub struct Area {
    pub x: usize,
    pub y: usize,
    pub width: usize,
    pub height: usize,
}

/// An edge, by its two ends. It bends within 34 units of the first and then runs straight to the other.
#[derive(Clone, Copy, Debug)]
pub struct Edge {
    pub from_x: usize,
    pub from_y: usize,
    pub to_x: usize,
    pub to_y: usize,
}

/// The places and sizes of a picture's parts.
#[derive(Debug)]
pub struct Layout {
    /// The box of the problem.
    pub problem: Area,
    /// The box of each row.
    pub boxes: Vec<Area>,
    /// The edge to the box of each row, from its parent's or, for a root, from the problem's.
    pub edges: Vec<Edge>,
    pub width: usize,
    pub height: usize,
}

impl Drop for Layout {
    fn drop(self) {
        let Layout {
            problem: _,
            boxes: _,
            edges: _,
            width: _,
            height: _,
        } = self;
    }
}

/// What is measured: the width and the middle of each line's box, and where each column begins.
#[derive(Clone, Copy)]
pub(crate) struct Measures<'a> {
    pub(crate) actions: usize,
    pub(crate) widths: &'a [usize],
    pub(crate) lefts: &'a [usize],
    pub(crate) middles: &'a [usize],
}

/// Where the box of a line begins that is below some lines.
fn left_of(measures: &Measures<'_>, depth: usize, line: usize) -> usize
    ensures { result ≡ (if nat_lt line measures.now.actions then (grid_of measures.now).last else (grid_of measures.now).left depth) }
{
    if line < measures.actions {
        number_at(measures.lefts, measures.lefts.len().saturating_sub(1))
    } else {
        number_at(measures.lefts, depth)
    }
}

/// The box of a row.
fn box_of(measures: &Measures<'_>, row: &Row) -> Area
    ensures { result ≡ spec.box (grid_of measures.now) (seen row.now) }
{
    let x = left_of(measures, row.depth, row.line);
    let middle = number_at(measures.middles, row.line);
    let width = number_at(measures.widths, row.line);
    if row.line < measures.actions {
        Area {
            x,
            y: middle.saturating_sub(12),
            width,
            height: 24,
        }
    } else {
        Area {
            x,
            y: middle.saturating_sub(17),
            width,
            height: 34,
        }
    }
}

/// Where the edge to a line begins that is below some lines.
fn start_of(
    measures: &Measures<'_>,
    problem: Area,
    depth: usize,
    parent: Option<usize>,
) -> Result<usize, AllocError>
    ensures { IfOk result (λ x. x ≡ spec.start problem (grid_of measures.now) depth parent) }
{
    match parent {
        Some(line) => plus(
            number_at(measures.lefts, depth.saturating_sub(1)),
            number_at(measures.widths, line),
        ),
        None => plus(problem.x, problem.width),
    }
}

/// How far from the top it begins.
fn start_middle(
    measures: &Measures<'_>,
    problem: Area,
    parent: Option<usize>,
) -> Result<usize, AllocError>
    ensures { IfOk result (λ y. y ≡ spec.start_middle problem (grid_of measures.now) parent) }
{
    match parent {
        Some(line) => Ok(number_at(measures.middles, line)),
        None => plus(problem.y, 17),
    }
}

/// The edge to the box of a row.
fn edge_of(measures: &Measures<'_>, problem: Area, row: &Row) -> Result<Edge, AllocError>
    ensures { IfOk result (λ edge. edge ≡ spec.edge problem (grid_of measures.now) (seen row.now)) }
{
    Ok(Edge {
        from_x: start_of(measures, problem, row.depth, row.parent)?,
        from_y: start_middle(measures, problem, row.parent)?,
        to_x: left_of(measures, row.depth, row.line),
        to_y: number_at(measures.middles, row.line),
    })
}

/// The box of each row.
fn boxes_of(alloc: Global, measures: &Measures<'_>, rows: &[Row]) -> Result<Vec<Area>, AllocError>
    ensures { IfOk result (λ boxes. boxes.items ≡ map (spec.box (grid_of measures.now)) (seen_all rows.now)) }
{
    let mut boxes = Vec::new(alloc);
    for row in rows {
        boxes.push(box_of(measures, row))?;
    }
    Ok(boxes)
}

/// The edge to the box of each row.
fn edges_of(
    alloc: Global,
    measures: &Measures<'_>,
    problem: Area,
    rows: &[Row],
) -> Result<Vec<Edge>, AllocError>
    ensures { IfOk result (λ edges. edges.items ≡ map (spec.edge problem (grid_of measures.now)) (seen_all rows.now)) }
{
    let mut edges = Vec::new(alloc);
    for row in rows {
        edges.push(edge_of(measures, problem, row)?)?;
    }
    Ok(edges)
}

/// How far to the right boxes reach.
fn reach(areas: &[Area]) -> Result<usize, AllocError>
    ensures { IfOk result (λ x. x ≡ spec.reach areas.now) }
{
    let mut most = 0;
    let mut left = areas.len();
    while left > 0 {
        left -= 1;
        let area = areas[left];
        most = larger(plus(area.x, area.width)?, most);
    }
    Ok(most)
}

/// The box of the problem, where its middle is.
fn problem_box(caption: &Caption<'_>, middle: usize) -> Result<Area, AllocError>
    ensures { IfOk result (λ area. area ≡ spec.problem_box caption.now middle) }
{
    Ok(Area {
        x: 16,
        y: middle.saturating_sub(17),
        width: problem_width(caption)?,
        height: 34,
    })
}

/// How wide the whole is.
fn whole_width(problem: Area, boxes: &[Area]) -> Result<usize, AllocError>
    ensures { IfOk result (λ width. width ≡ max (problem.x + problem.width) (spec.reach boxes.now) + 16) }
{
    let right = plus(problem.x, problem.width)?;
    plus(larger(right, reach(boxes)?), 16)
}

/// How high the whole is, where the lines have some places.
fn whole_height(places: usize) -> Result<usize, AllocError>
    ensures { IfOk result (λ height. height ≡ 24 + 38 * max 1 places) }
{
    plus(24, times(38, larger(1, places))?)
}

/// All of it, as it is measured.
fn arranged(
    alloc: Global,
    measures: &Measures<'_>,
    problem: Area,
    places: usize,
    rows: &[Row],
) -> Result<Layout, AllocError>
    ensures { IfOk result (λ layout. IsArranged (grid_of measures.now) problem places (seen_all rows.now) layout) }
{
    let height = whole_height(places)?;
    let boxes = boxes_of(alloc, measures, rows)?;
    let width = whole_width(problem, boxes.as_slice())?;
    let edges = edges_of(alloc, measures, problem, rows)?;
    Ok(Layout {
        problem,
        boxes,
        edges,
        width,
        height,
    })
}

/// The layout of a picture, from the measures of its parts.
fn measured(
    alloc: Global,
    caption: &Caption<'_>,
    picture: &Picture<'_>,
    measures: &Measures<'_>,
) -> Result<Layout, AllocError>
    requires { measures.now.actions ≡ actions_of picture.now }
    ensures { IfOk result (λ layout. IsGridOf caption.now picture.now (grid_of measures.now) → spec.IsLayoutOf caption.now picture.now layout) }
{
    let rows = picture.rows.as_slice();
    let middle = middle_of(measures.middles, 0, picture.roots.as_slice())?;
    let places = place_count(measures.actions, picture.children.as_slice(), rows);
    arranged(alloc, measures, problem_box(caption, middle)?, places, rows)
}

/// Where each column begins, where the lines have these widths.
fn picture_columns(
    alloc: Global,
    caption: &Caption<'_>,
    picture: &Picture<'_>,
    widths: &[usize],
) -> Result<Vec<usize>, AllocError>
    ensures { IfOk result (λ lefts. AreColumns (actions_of picture.now) (λ line. get_or widths.now line 0) (16 + width_spec.problem_width caption.now + 34) (rows_of picture.now) lefts.items) }
{
    let first = plus(plus(16, problem_width(caption)?)?, 34)?;
    let actions = picture.file.actions().len();
    columns_of(alloc, actions, widths, first, picture.rows.as_slice())
}

/// The middle of each line's box.
fn picture_middles(alloc: Global, picture: &Picture<'_>) -> Result<Vec<usize>, AllocError>
    requires { IsPictureOf picture.now.file.now picture.now }
    ensures { IfOk result (λ middles. AreCentred (children_of picture.now) (λ line. get_or middles.items line 0) 0 (rows_of picture.now)) }
{
    let actions = picture.file.actions().len();
    let decompositions = picture.file.decompositions().len();
    let children = picture.children.as_slice();
    middles_of(
        alloc,
        actions,
        decompositions,
        children,
        picture.rows.as_slice(),
    )
}

/// The layout of a picture. A number of it that passes 64 bits is an error too; that takes some 10^18 bytes of names.
pub fn layout_of(
    alloc: Global,
    caption: &Caption<'_>,
    picture: &Picture<'_>,
) -> Result<Layout, AllocError>
    requires { IsPictureOf picture.now.file.now picture.now }
    ensures { IfOk result (λ layout. spec.IsLayoutOf caption.now picture.now layout) }
{
    let widths = widths_of(alloc, picture.file)?;
    let lefts = picture_columns(alloc, caption, picture, widths.as_slice())?;
    let middles = picture_middles(alloc, picture)?;
    let measures = Measures {
        actions: picture.file.actions().len(),
        widths: widths.as_slice(),
        lefts: lefts.as_slice(),
        middles: middles.as_slice(),
    };
    measured(alloc, caption, picture, &measures)
}
