//! Reports of many diagnostics.

ghost use Rattle.std.specs.Prelude.{◌≡◌, ◌++◌, [], OnOk, IfOk, false, count_by};
ghost use Rattle.std.specs.List.{flat_map};
ghost use Rattle.diagnostics.specs.Groups.{picked};
ghost use Rattle.diagnostics.specs.Ink.{written};
ghost use Rattle.diagnostics.specs.Written as spec;

use crate::diagnostic::{Diagnostic, Part, Severity};
use crate::groups::{groups_of, places_at};
use crate::ink::{Style, close, end_line, open, say, say_number};
use crate::lines::say_message;
use crate::text::{say_head, say_whole};
use std::alloc::{AllocError, Global};

/// How many of `len` groups are written: at most `limit` of them, of which 0 is all.
fn shown_count(limit: usize, len: usize) -> usize
    ensures { result ≡ spec.shown_count limit len }
{
    if limit == 0 { len } else { limit.min(len) }
}

/// A group, by the indices of its diagnostics; an index past the end has none.
fn say_group(
    alloc: Global,
    out: &mut Vec<u8>,
    colour: bool,
    diagnostics: &[Diagnostic<'_>],
    indices: &[usize],
) -> Result<(), AllocError>
    ensures { OnOk result (out.new.items ≡ out.old.items ++ written colour (spec.group_inks (picked diagnostics.now indices.now))) }
{
    for (at, index) in indices.iter().enumerate() {
        if let Some(diagnostic) = diagnostics.get(*index) {
            let also = places_at(alloc, diagnostics, &indices[at + 1..])?;
            say_whole(alloc, out, colour, diagnostic, also.as_slice())?;
            return Ok(());
        }
    }
    Ok(())
}

/// Each group.
fn say_groups(
    alloc: Global,
    out: &mut Vec<u8>,
    colour: bool,
    diagnostics: &[Diagnostic<'_>],
    groups: &[Vec<usize>],
) -> Result<(), AllocError>
    ensures { OnOk result (out.new.items ≡ out.old.items ++ written colour (flat_map (λ g. spec.group_inks (picked diagnostics.now g.items)) groups.now)) }
{
    for group in groups {
        say_group(alloc, out, colour, diagnostics, group.as_slice())?;
    }
    Ok(())
}

/// How many groups are left, if any.
fn say_cut(out: &mut Vec<u8>, colour: bool, count: usize) -> Result<(), AllocError>
    ensures { OnOk result (out.new.items ≡ out.old.items ++ written colour (spec.cut_inks count)) }
{
    if count == 0 {
        return Ok(());
    }
    say(out, colour, b"and ")?;
    say_number(out, colour, count as u64)?;
    say(out, colour, b" more: --limit 0 shows all")?;
    end_line(out, colour)?;
    Ok(())
}

/// The lines that are handed in.
fn say_summary(out: &mut Vec<u8>, colour: bool, summary: &[Vec<Part<'_>>]) -> Result<(), AllocError>
    ensures { OnOk result (out.new.items ≡ out.old.items ++ written colour (flat_map spec.summary_inks summary.now)) }
{
    for line in summary {
        say_message(out, colour, line.as_slice())?;
        end_line(out, colour)?;
    }
    Ok(())
}

/// A count of a word, as `no errors`, `1 error`, `2 errors`.
fn say_count(
    out: &mut Vec<u8>,
    colour: bool,
    style: Style,
    count: usize,
    word: &[u8],
) -> Result<(), AllocError>
    ensures { OnOk result (out.new.items ≡ out.old.items ++ written colour (spec.count_inks style count word.now)) }
{
    match count {
        0 => {
            say(out, colour, b"no ")?;
            say(out, colour, word)?;
            say(out, colour, b"s")?;
            Ok(())
        }
        1 => {
            open(out, colour, style)?;
            say(out, colour, b"1 ")?;
            say(out, colour, word)?;
            close(out, colour)?;
            Ok(())
        }
        _ => {
            open(out, colour, style)?;
            say_number(out, colour, count as u64)?;
            say(out, colour, b" ")?;
            say(out, colour, word)?;
            say(out, colour, b"s")?;
            close(out, colour)?;
            Ok(())
        }
    }
}

/// The last line: how many errors and warnings there are.
fn say_counts(
    out: &mut Vec<u8>,
    colour: bool,
    errors: usize,
    warnings: usize,
) -> Result<(), AllocError>
    ensures { OnOk result (out.new.items ≡ out.old.items ++ written colour (spec.counts_inks errors warnings)) }
{
    say_count(out, colour, Style::Error, errors, b"error")?;
    say(out, colour, b", ")?;
    say_count(out, colour, Style::Warning, warnings, b"warning")?;
    end_line(out, colour)?;
    Ok(())
}

/// Whether this is an error.
fn is_error(severity: Severity) -> bool
    ensures { result ≡ spec.is_error severity }
{
    matches!(severity, Severity::Error)
}

/// How many of the diagnostics are errors.
pub(crate) fn count_errors(diagnostics: &[Diagnostic<'_>]) -> usize
    ensures { result ≡ count_by (λ d. spec.is_error d.severity) diagnostics.now }
{
    diagnostics.iter().filter(|d| is_error(d.severity)).count()
}

/// Diagnostics for people: those with equal texts form a group, which is at the place of its first one. At most `limit`
/// groups are written, of which 0 is all; then how many are left, the lines of `summary`, and how many errors and
/// warnings there are. An error where memory was refused.
pub fn text_report(
    alloc: Global,
    diagnostics: &[Diagnostic<'_>],
    summary: &[Vec<Part<'_>>],
    limit: usize,
    colour: bool,
) -> Result<Vec<u8>, AllocError>
    ensures { IfOk result (λ bytes. bytes.items ≡ written colour (spec.report_inks diagnostics.now summary.now limit)) }
{
    let mut out = Vec::new(alloc);
    let groups = groups_of(alloc, diagnostics)?;
    let count = shown_count(limit, groups.len());
    say_groups(
        alloc,
        &mut out,
        colour,
        diagnostics,
        &groups.as_slice()[..count],
    )?;
    say_cut(&mut out, colour, groups.len() - count)?;
    say_summary(&mut out, colour, summary)?;
    let errors = count_errors(diagnostics);
    say_counts(&mut out, colour, errors, diagnostics.len() - errors)?;
    Ok(out)
}

/// The first line of each diagnostic, without colour, for editors. An error where memory was refused.
pub fn short_report(alloc: Global, diagnostics: &[Diagnostic<'_>]) -> Result<Vec<u8>, AllocError>
    ensures { IfOk result (λ bytes. bytes.items ≡ written false (flat_map spec.head_inks diagnostics.now)) }
{
    let mut out = Vec::new(alloc);
    for diagnostic in diagnostics {
        say_head(&mut out, false, diagnostic)?;
    }
    Ok(out)
}
