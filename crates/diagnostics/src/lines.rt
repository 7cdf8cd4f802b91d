//! Lines of a diagnostic.

ghost use Rattle.std.specs.Prelude.{◌≡◌, ◌++◌, OnOk, replicate};
ghost use Rattle.std.specs.List.{flat_map};
ghost use Rattle.diagnostics.specs.Ink.{written, said};
ghost use Rattle.diagnostics.specs.Parts as spec;

use crate::diagnostic::{Note, Part, Remark, RemarkKind, Spot};
use crate::excerpt::shown;
use crate::ink::{Style, close, end_line, open, say, say_in, say_name, say_number};
use itoa::Buffer;
use std::alloc::{AllocError, Global};

/// A part of a message; words of a text stand in backticks.
fn say_part(out: &mut Vec<u8>, colour: bool, part: &Part<'_>) -> Result<(), AllocError>
    ensures { OnOk result (out.new.items ≡ out.old.items ++ written colour (spec.part_inks part.now)) }
{
    match *part {
        Part::Words(words) => {
            say(out, colour, words.as_bytes())?;
            Ok(())
        }
        Part::Name(name) => {
            say(out, colour, b"`")?;
            say(out, colour, name)?;
            say(out, colour, b"`")?;
            Ok(())
        }
        Part::Number(number) => {
            say_number(out, colour, number)?;
            Ok(())
        }
    }
}

/// A message.
pub(crate) fn say_message(
    out: &mut Vec<u8>,
    colour: bool,
    message: &[Part<'_>],
) -> Result<(), AllocError>
    ensures { OnOk result (out.new.items ≡ out.old.items ++ written colour (flat_map spec.part_inks message.now)) }
{
    for part in message {
        say_part(out, colour, part)?;
    }
    Ok(())
}

/// The file, the line and the column of a place.
pub(crate) fn say_place(out: &mut Vec<u8>, colour: bool, spot: &Spot<'_>) -> Result<(), AllocError>
    ensures { OnOk result (out.new.items ≡ out.old.items ++ written colour (spec.place_inks spot.now)) }
{
    let position = spot.source.lines.position(spot.place);
    say_name(out, colour, spot.source.name)?;
    say(out, colour, b":")?;
    say_number(out, colour, position.line as u64)?;
    say(out, colour, b":")?;
    say_number(out, colour, position.column as u64)?;
    Ok(())
}

/// A byte, repeated.
fn say_repeated(out: &mut Vec<u8>, colour: bool, byte: u8, count: usize) -> Result<(), AllocError>
    ensures { OnOk result (out.new.items ≡ out.old.items ++ written colour (said (replicate count byte))) }
{
    for written in 0..count {
        let _written = written;
        out.push(shown(byte))?;
    }
    Ok(())
}

/// The number of a line, with blanks before it that make it five bytes wide.
fn say_line_number(out: &mut Vec<u8>, colour: bool, line: usize) -> Result<(), AllocError>
    ensures { OnOk result (out.new.items ≡ out.old.items ++ written colour (spec.line_number_inks line)) }
{
    let mut buffer = Buffer::new();
    let digits = buffer.format(line as u64).as_bytes();
    say_repeated(out, colour, b' ', 5usize.saturating_sub(digits.len()))?;
    say(out, colour, digits)?;
    Ok(())
}

/// A blank and the label, if there is one.
fn say_label(out: &mut Vec<u8>, colour: bool, label: &[Part<'_>]) -> Result<(), AllocError>
    ensures { OnOk result (out.new.items ≡ out.old.items ++ written colour (spec.label_inks label.now)) }
{
    if label.is_empty() {
        return Ok(());
    }
    say(out, colour, b" ")?;
    say_message(out, colour, label)?;
    Ok(())
}

/// A line of a text as it is shown, left of it its number.
fn say_row(
    alloc: Global,
    out: &mut Vec<u8>,
    colour: bool,
    spot: &Spot<'_>,
) -> Result<(), AllocError>
    ensures { OnOk result (out.new.items ≡ out.old.items ++ written colour (spec.row_inks spot.now)) }
{
    let position = spot.source.lines.position(spot.place);
    let row = spot.source.lines.excerpt(spot.place).row(alloc)?;
    open(out, colour, Style::Rule)?;
    say_line_number(out, colour, position.line)?;
    say(out, colour, b" | ")?;
    close(out, colour)?;
    say(out, colour, row.as_slice())?;
    end_line(out, colour)?;
    Ok(())
}

/// The line below it: the carets, and the label beside them.
fn say_carets_line(
    alloc: Global,
    out: &mut Vec<u8>,
    colour: bool,
    spot: &Spot<'_>,
    style: Style,
    label: &[Part<'_>],
) -> Result<(), AllocError>
    ensures { OnOk result (out.new.items ≡ out.old.items ++ written colour (spec.carets_inks spot.now style label.now)) }
{
    let excerpt = spot.source.lines.excerpt(spot.place);
    let padding = excerpt.padding(alloc)?;
    say_in(out, colour, Style::Rule, b"      | ")?;
    say(out, colour, padding.as_slice())?;
    open(out, colour, style)?;
    say_repeated(out, colour, b'^', excerpt.carets(spot.word_len))?;
    say_label(out, colour, label)?;
    close(out, colour)?;
    end_line(out, colour)?;
    Ok(())
}

/// The line of a place, with carets below the word that stands there.
pub(crate) fn say_snippet(
    alloc: Global,
    out: &mut Vec<u8>,
    colour: bool,
    spot: &Spot<'_>,
    style: Style,
    label: &[Part<'_>],
) -> Result<(), AllocError>
    ensures { OnOk result (out.new.items ≡ out.old.items ++ written colour (spec.snippet_inks spot.now style label.now)) }
{
    say_row(alloc, out, colour, spot)?;
    say_carets_line(alloc, out, colour, spot, style, label)?;
    Ok(())
}

/// What a remark begins with.
fn remark_word(kind: RemarkKind) -> &'static [u8]
    ensures { result.now ≡ spec.remark_word kind }
{
    match kind {
        RemarkKind::Help => b"help: ",
        RemarkKind::Note => b"note: ",
    }
}

/// A remark without a place.
pub(crate) fn say_remark(
    out: &mut Vec<u8>,
    colour: bool,
    remark: &Remark<'_>,
) -> Result<(), AllocError>
    ensures { OnOk result (out.new.items ≡ out.old.items ++ written colour (spec.remark_inks remark.now)) }
{
    say_in(out, colour, Style::Rule, b"      = ")?;
    say_in(out, colour, Style::Note, remark_word(remark.kind))?;
    say_message(out, colour, remark.message.as_slice())?;
    end_line(out, colour)?;
    Ok(())
}

/// A note with a place, and its line.
pub(crate) fn say_note(
    alloc: Global,
    out: &mut Vec<u8>,
    colour: bool,
    note: &Note<'_>,
) -> Result<(), AllocError>
    ensures { OnOk result (out.new.items ≡ out.old.items ++ written colour (spec.note_inks note.now)) }
{
    say_place(out, colour, &note.spot)?;
    say(out, colour, b": ")?;
    say_in(out, colour, Style::Note, b"note: ")?;
    say_message(out, colour, note.message.as_slice())?;
    end_line(out, colour)?;
    say_snippet(alloc, out, colour, &note.spot, Style::Note, &[])?;
    Ok(())
}
