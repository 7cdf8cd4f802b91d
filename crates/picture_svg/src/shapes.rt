//! The elements of an SVG picture.

ghost use Rattle.std.specs.Prelude.{◌≡◌, ◌++◌, OnOk};
ghost use Rattle.picture_svg.specs.Shapes as spec;

use crate::escape::say_escaped;
use crate::layout::{Area, Edge};
use crate::numbers::{plus, times};
use picture_text::say_number;
use std::alloc::AllocError;

/// A number, with its name and an opening quote before it.
pub(crate) fn say_attribute(out: &mut Vec<u8>, name: &[u8], value: usize) -> Result<(), AllocError>
    ensures { OnOk result (out.new.items ≡ out.old.items ++ spec.attribute name.now value) }
{
    out.extend_from_slice(name)?;
    say_number(out, value as u64)?;
    out.extend_from_slice(b"\"")
}

/// A place.
fn say_place(out: &mut Vec<u8>, x: usize, y: usize) -> Result<(), AllocError>
    ensures { OnOk result (out.new.items ≡ out.old.items ++ spec.place x y) }
{
    say_attribute(out, b" x=\"", x)?;
    say_attribute(out, b" y=\"", y)
}

/// A size.
pub(crate) fn say_size(out: &mut Vec<u8>, width: usize, height: usize) -> Result<(), AllocError>
    ensures { OnOk result (out.new.items ≡ out.old.items ++ spec.size width height) }
{
    say_attribute(out, b" width=\"", width)?;
    say_attribute(out, b" height=\"", height)
}

/// A rectangle of some class, whose corners are round.
fn say_rectangle(
    out: &mut Vec<u8>,
    class: &[u8],
    area: Area,
    radius: usize,
) -> Result<(), AllocError>
    ensures { OnOk result (out.new.items ≡ out.old.items ++ spec.rectangle class.now area radius) }
{
    out.extend_from_slice(b"<rect class=\"")?;
    out.extend_from_slice(class)?;
    out.extend_from_slice(b"\"")?;
    say_place(out, area.x, area.y)?;
    say_size(out, area.width, area.height)?;
    say_attribute(out, b" rx=\"", radius)?;
    out.extend_from_slice(b"/>\n")
}

/// Words with their width, and the end of their element.
fn say_words(out: &mut Vec<u8>, unit: usize, words: &[u8]) -> Result<(), AllocError>
    ensures { OnOk result (out.new.items ≡ out.old.items ++ spec.words_rest unit words.now) }
{
    say_attribute(out, b" textLength=\"", times(unit, words.len())?)?;
    out.extend_from_slice(b" lengthAdjust=\"spacingAndGlyphs\">")?;
    say_escaped(out, words)?;
    out.extend_from_slice(b"</text>\n")
}

/// Words of some class at a place, with their width.
fn say_words_at(
    out: &mut Vec<u8>,
    class: &[u8],
    x: usize,
    y: usize,
    unit: usize,
    words: &[u8],
) -> Result<(), AllocError>
    ensures { OnOk result (out.new.items ≡ out.old.items ++ spec.words_at class.now x y unit words.now) }
{
    out.extend_from_slice(b"<text class=\"")?;
    out.extend_from_slice(class)?;
    out.extend_from_slice(b"\"")?;
    say_place(out, x, y)?;
    say_words(out, unit, words)
}

/// Two numbers.
fn say_point(out: &mut Vec<u8>, x: usize, y: usize) -> Result<(), AllocError>
    ensures { OnOk result (out.new.items ≡ out.old.items ++ spec.point x y) }
{
    say_number(out, x as u64)?;
    out.extend_from_slice(b" ")?;
    say_number(out, y as u64)
}

/// The bend of an edge.
fn say_bend(out: &mut Vec<u8>, edge: Edge) -> Result<(), AllocError>
    ensures { OnOk result (out.new.items ≡ out.old.items ++ spec.bend edge) }
{
    let turn = plus(edge.from_x, 17)?;
    let end = plus(edge.from_x, 34)?;
    say_point(out, turn, edge.from_y)?;
    out.extend_from_slice(b" ")?;
    say_point(out, turn, edge.to_y)?;
    out.extend_from_slice(b" ")?;
    say_point(out, end, edge.to_y)
}

/// An edge: the bend, and then straight on.
pub(crate) fn say_path(out: &mut Vec<u8>, edge: Edge) -> Result<(), AllocError>
    ensures { OnOk result (out.new.items ≡ out.old.items ++ spec.path edge) }
{
    out.extend_from_slice(b"<path d=\"M")?;
    say_point(out, edge.from_x, edge.from_y)?;
    out.extend_from_slice(b"C")?;
    say_bend(out, edge)?;
    out.extend_from_slice(b"H")?;
    say_number(out, edge.to_x as u64)?;
    out.extend_from_slice(b"\"/>\n")
}

/// A box with two texts, one above the other.
pub(crate) fn say_two_lines(
    out: &mut Vec<u8>,
    class: &[u8],
    area: Area,
    upper: &[u8],
    lower: &[u8],
) -> Result<(), AllocError>
    ensures { OnOk result (out.new.items ≡ out.old.items ++ spec.two_lines class.now area upper.now lower.now) }
{
    let x = plus(area.x, 10)?;
    say_rectangle(out, class, area, 6)?;
    say_words_at(out, b"n", x, plus(area.y, 15)?, 7, upper)?;
    say_words_at(out, b"m", x, plus(area.y, 28)?, 6, lower)
}

/// The position of an action, whose digits end at a place.
fn say_position(out: &mut Vec<u8>, x: usize, y: usize, number: usize) -> Result<(), AllocError>
    ensures { OnOk result (out.new.items ≡ out.old.items ++ spec.number_at x y number) }
{
    out.extend_from_slice(b"<text class=\"no\"")?;
    say_place(out, x, y)?;
    out.extend_from_slice(b">")?;
    say_number(out, number as u64)?;
    out.extend_from_slice(b"</text>\n")
}

/// A box with a position, which may have some digits, and a text behind it.
pub(crate) fn say_numbered(
    out: &mut Vec<u8>,
    class: &[u8],
    area: Area,
    digits: usize,
    number: usize,
    words: &[u8],
) -> Result<(), AllocError>
    ensures { OnOk result (out.new.items ≡ out.old.items ++ spec.numbered class.now area digits number words.now) }
{
    let end = times(7, digits)?;
    let y = plus(area.y, 16)?;
    say_rectangle(out, class, area, 12)?;
    say_position(out, plus(area.x, plus(12, end)?)?, y, number)?;
    say_words_at(out, b"a", plus(area.x, plus(20, end)?)?, y, 7, words)
}
