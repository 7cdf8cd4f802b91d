//! A diagnostic as people read it.

ghost use Rattle.std.specs.Prelude.{◌≡◌, ◌∷◌, ◌++◌, OnOk};
ghost use Rattle.std.specs.List.{flat_map};
ghost use Rattle.diagnostics.specs.Ink.{written};
ghost use Rattle.diagnostics.specs.Parts.{remark_inks, note_inks};
ghost use Rattle.diagnostics.specs.Written as spec;

use crate::diagnostic::{Diagnostic, Note, Remark, Severity, Where};
use crate::ink::{Style, close, end_line, open, say, say_in, say_name, say_number};
use crate::lines::{say_message, say_note, say_place, say_remark, say_snippet};
use std::alloc::{AllocError, Global};

/// The most further places that are written.
const ALSO: usize = 4;

/// The text, or the place in it.
fn say_where(out: &mut Vec<u8>, colour: bool, about: &Where<'_>) -> Result<(), AllocError>
    ensures { OnOk result (out.new.items ≡ out.old.items ++ written colour (spec.where_inks about.now)) }
{
    match about {
        Where::Text(source) => {
            say_name(out, colour, source.name)?;
            Ok(())
        }
        Where::Place(spot) => {
            say_place(out, colour, spot)?;
            Ok(())
        }
    }
}

/// The word for a severity.
pub(crate) fn severity_word(severity: Severity) -> &'static [u8]
    ensures { result.now ≡ spec.severity_word severity }
{
    match severity {
        Severity::Error => b"error: ",
        Severity::Warning => b"warning: ",
    }
}

/// The style of a severity.
pub(crate) fn severity_style(severity: Severity) -> Style
    ensures { result ≡ spec.severity_style severity }
{
    match severity {
        Severity::Error => Style::Error,
        Severity::Warning => Style::Warning,
    }
}

/// The code in brackets.
pub(crate) fn say_code(out: &mut Vec<u8>, colour: bool, code: &str) -> Result<(), AllocError>
    ensures { OnOk result (out.new.items ≡ out.old.items ++ written colour (spec.code_inks code.now)) }
{
    open(out, colour, Style::Dim)?;
    say(out, colour, b" [")?;
    say(out, colour, code.as_bytes())?;
    say(out, colour, b"]")?;
    close(out, colour)?;
    Ok(())
}

/// What a first line begins with: the text or the place, and the severity.
fn say_start(out: &mut Vec<u8>, colour: bool, diagnostic: &Diagnostic<'_>) -> Result<(), AllocError>
    ensures { OnOk result (out.new.items ≡ out.old.items ++ written colour (spec.start_inks diagnostic.now)) }
{
    open(out, colour, Style::Bold)?;
    say_where(out, colour, &diagnostic.about)?;
    say(out, colour, b": ")?;
    close(out, colour)?;
    let severity = diagnostic.severity;
    say_in(
        out,
        colour,
        severity_style(severity),
        severity_word(severity),
    )?;
    Ok(())
}

/// The first line.
pub(crate) fn say_head(
    out: &mut Vec<u8>,
    colour: bool,
    diagnostic: &Diagnostic<'_>,
) -> Result<(), AllocError>
    ensures { OnOk result (out.new.items ≡ out.old.items ++ written colour (spec.head_inks diagnostic.now)) }
{
    say_start(out, colour, diagnostic)?;
    open(out, colour, Style::Bold)?;
    say_message(out, colour, diagnostic.message.as_slice())?;
    close(out, colour)?;
    say_code(out, colour, diagnostic.code)?;
    end_line(out, colour)?;
    Ok(())
}

/// The line of the place, if there is a place.
fn say_shown(
    alloc: Global,
    out: &mut Vec<u8>,
    colour: bool,
    diagnostic: &Diagnostic<'_>,
) -> Result<(), AllocError>
    ensures { OnOk result (out.new.items ≡ out.old.items ++ written colour (spec.shown_inks diagnostic.now)) }
{
    match &diagnostic.about {
        Where::Text(_) => Ok(()),
        Where::Place(spot) => {
            let style = severity_style(diagnostic.severity);
            say_snippet(alloc, out, colour, spot, style, diagnostic.label.as_slice())?;
            Ok(())
        }
    }
}

/// Each remark.
fn say_remarks(out: &mut Vec<u8>, colour: bool, remarks: &[Remark<'_>]) -> Result<(), AllocError>
    ensures { OnOk result (out.new.items ≡ out.old.items ++ written colour (flat_map remark_inks remarks.now)) }
{
    for remark in remarks {
        say_remark(out, colour, remark)?;
    }
    Ok(())
}

/// Each note.
fn say_notes(
    alloc: Global,
    out: &mut Vec<u8>,
    colour: bool,
    notes: &[Note<'_>],
) -> Result<(), AllocError>
    ensures { OnOk result (out.new.items ≡ out.old.items ++ written colour (flat_map note_inks notes.now)) }
{
    for note in notes {
        say_note(alloc, out, colour, note)?;
    }
    Ok(())
}

/// Each place after a comma.
fn say_more_places(out: &mut Vec<u8>, colour: bool, places: &[Where<'_>]) -> Result<(), AllocError>
    ensures { OnOk result (out.new.items ≡ out.old.items ++ written colour (flat_map spec.comma_inks places.now)) }
{
    for place in places {
        say(out, colour, b", ")?;
        say_where(out, colour, place)?;
    }
    Ok(())
}

/// How many places are left, if any.
fn say_rest(out: &mut Vec<u8>, colour: bool, count: usize) -> Result<(), AllocError>
    ensures { OnOk result (out.new.items ≡ out.old.items ++ written colour (spec.rest_inks count)) }
{
    if count == 0 {
        return Ok(());
    }
    say(out, colour, b", ")?;
    say_number(out, colour, count as u64)?;
    say(out, colour, b" more")?;
    Ok(())
}

/// The first of some places and those after it, of which four are written.
fn say_listed(
    out: &mut Vec<u8>,
    colour: bool,
    first: &Where<'_>,
    rest: &[Where<'_>],
) -> Result<(), AllocError>
    ensures { OnOk result (out.new.items ≡ out.old.items ++ written colour (spec.also_inks (first.now ∷ rest.now))) }
{
    let listed = rest.len().min(ALSO - 1);
    say_in(out, colour, Style::Rule, b"      = ")?;
    say_in(out, colour, Style::Note, b"also at ")?;
    say_where(out, colour, first)?;
    say_more_places(out, colour, &rest[..listed])?;
    say_rest(out, colour, rest.len() - listed)?;
    end_line(out, colour)?;
    Ok(())
}

/// The further places, if there are any.
fn say_also(out: &mut Vec<u8>, colour: bool, places: &[Where<'_>]) -> Result<(), AllocError>
    ensures { OnOk result (out.new.items ≡ out.old.items ++ written colour (spec.also_inks places.now)) }
{
    match places {
        [] => Ok(()),
        [first, rest @ ..] => {
            say_listed(out, colour, first, rest)?;
            Ok(())
        }
    }
}

/// A diagnostic.
pub(crate) fn say_body(
    alloc: Global,
    out: &mut Vec<u8>,
    colour: bool,
    diagnostic: &Diagnostic<'_>,
) -> Result<(), AllocError>
    ensures { OnOk result (out.new.items ≡ out.old.items ++ written colour (spec.body_inks diagnostic.now)) }
{
    say_head(out, colour, diagnostic)?;
    say_shown(alloc, out, colour, diagnostic)?;
    say_remarks(out, colour, diagnostic.remarks.as_slice())?;
    say_notes(alloc, out, colour, diagnostic.notes.as_slice())?;
    Ok(())
}

/// A diagnostic, and the places of others that say the same, with an empty line after them.
pub(crate) fn say_whole(
    alloc: Global,
    out: &mut Vec<u8>,
    colour: bool,
    diagnostic: &Diagnostic<'_>,
    also: &[Where<'_>],
) -> Result<(), AllocError>
    ensures { OnOk result (out.new.items ≡ out.old.items ++ written colour (spec.whole_inks diagnostic.now also.now)) }
{
    say_body(alloc, out, colour, diagnostic)?;
    say_also(out, colour, also)?;
    end_line(out, colour)?;
    Ok(())
}
