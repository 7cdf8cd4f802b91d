//! Bytes of an output, with and without colour.

ghost use Rattle.std.specs.Prelude.{◌≡◌, [], ◌++◌, OnOk, map};
ghost use Rattle.std.specs.Fmt.{decimal};
ghost use Rattle.diagnostics.specs.Shown as shown_spec;
ghost use Rattle.diagnostics.specs.Ink as spec;
ghost use Rattle.diagnostics.specs.Ink.{written, said, opened, closed, named, ended, styled};

use crate::excerpt::shown;
use itoa::Buffer;
use std::alloc::AllocError;

/// How words look in colour.
#[derive(Clone, Copy, Debug, PartialEq, Eq)]
pub enum Style {
    Bold,
    Dim,
    /// What errors are written in: red.
    Error,
    /// Green.
    Good,
    /// Yellow.
    Warning,
    /// What helps and notes begin with: cyan.
    Note,
    /// The rules left of a line that is shown: blue.
    Rule,
}

/// The escape sequence that begins a style.
fn sequence(style: Style) -> &'static [u8]
    ensures { result.now ≡ spec.sequence style }
{
    match style {
        Style::Bold => b"\x1b[1m",
        Style::Dim => b"\x1b[2m",
        Style::Error => b"\x1b[1;31m",
        Style::Good => b"\x1b[1;32m",
        Style::Warning => b"\x1b[1;33m",
        Style::Note => b"\x1b[1;36m",
        Style::Rule => b"\x1b[34m",
    }
}

/// Begins a style, where there is colour.
pub(crate) fn open(out: &mut Vec<u8>, colour: bool, style: Style) -> Result<(), AllocError>
    ensures { OnOk result (out.new.items ≡ out.old.items ++ written colour (opened style)) }
{
    if colour {
        out.extend_from_slice(sequence(style))?;
    }
    Ok(())
}

/// Ends a style, where there is colour.
pub(crate) fn close(out: &mut Vec<u8>, colour: bool) -> Result<(), AllocError>
    ensures { OnOk result (out.new.items ≡ out.old.items ++ written colour closed) }
{
    if colour {
        out.extend_from_slice(b"\x1b[0m")?;
    }
    Ok(())
}

/// Words, of which each byte is written as it is shown.
pub(crate) fn say(out: &mut Vec<u8>, colour: bool, words: &[u8]) -> Result<(), AllocError>
    ensures { OnOk result (out.new.items ≡ out.old.items ++ written colour (said words.now)) }
{
    for byte in words {
        out.push(shown(*byte))?;
    }
    Ok(())
}

/// The name of a file, as it is.
pub(crate) fn say_name(out: &mut Vec<u8>, colour: bool, name: &str) -> Result<(), AllocError>
    ensures { OnOk result (out.new.items ≡ out.old.items ++ written colour (named name.now)) }
{
    out.extend_from_slice(name.as_bytes())?;
    Ok(())
}

/// A line feed.
pub(crate) fn end_line(out: &mut Vec<u8>, colour: bool) -> Result<(), AllocError>
    ensures { OnOk result (out.new.items ≡ out.old.items ++ written colour ended) }
{
    out.push(b'\n')?;
    Ok(())
}

/// Words in a style.
pub(crate) fn say_in(
    out: &mut Vec<u8>,
    colour: bool,
    style: Style,
    words: &[u8],
) -> Result<(), AllocError>
    ensures { OnOk result (out.new.items ≡ out.old.items ++ written colour (styled style words.now)) }
{
    open(out, colour, style)?;
    say(out, colour, words)?;
    close(out, colour)?;
    Ok(())
}

/// A number in decimal.
pub(crate) fn say_number(out: &mut Vec<u8>, colour: bool, number: u64) -> Result<(), AllocError>
    ensures { OnOk result (out.new.items ≡ out.old.items ++ written colour (said (decimal number))) }
{
    let mut buffer = Buffer::new();
    say(out, colour, buffer.format(number).as_bytes())?;
    Ok(())
}
