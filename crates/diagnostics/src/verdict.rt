//! Reports of why something has a verdict.

ghost use Rattle.std.specs.Prelude.{◌≡◌, ◌++◌, OnOk, IfOk, IsUtf8, option_map};
ghost use Rattle.std.specs.List.{flat_map};
ghost use Rattle.serde_json.specs.View.{view};
ghost use Rattle.diagnostics.specs.Ink.{written};
ghost use Rattle.diagnostics.specs.Json.{IsReadAs};
ghost use Rattle.diagnostics.specs.Verdicts as spec;

use crate::as_json::{put_diagnostics, put_head};
use crate::diagnostic::{Diagnostic, Part};
use crate::ink::{Style, end_line, say_in};
use crate::lines::say_message;
use crate::report::short_report;
use crate::text::say_body;
use serde_json::{Map, Value, put};
use std::alloc::{AllocError, Global};

/// The style of a verdict.
fn verdict_style(is_good: bool) -> Style
    ensures { result ≡ spec.verdict_style is_good }
{
    if is_good { Style::Good } else { Style::Error }
}

/// The line of a verdict.
fn say_verdict(
    out: &mut Vec<u8>,
    colour: bool,
    is_good: bool,
    verdict: &str,
) -> Result<(), AllocError>
    ensures { OnOk result (out.new.items ≡ out.old.items ++ written colour (spec.verdict_inks is_good verdict.now)) }
{
    say_in(out, colour, verdict_style(is_good), verdict.as_bytes())?;
    end_line(out, colour)?;
    Ok(())
}

/// The lines of a run after an empty line, if there are some.
fn put_run(out: &mut Vec<u8>, run: &[u8]) -> Result<(), AllocError>
    ensures { OnOk result (out.new.items ≡ out.old.items ++ spec.run_bytes run.now) }
{
    if run.is_empty() {
        return Ok(());
    }
    out.push(b'\n')?;
    out.extend_from_slice(run)?;
    Ok(())
}

/// Each diagnostic after an empty line.
fn say_apart(
    alloc: Global,
    out: &mut Vec<u8>,
    colour: bool,
    diagnostics: &[Diagnostic<'_>],
) -> Result<(), AllocError>
    ensures { OnOk result (out.new.items ≡ out.old.items ++ written colour (flat_map spec.apart_inks diagnostics.now)) }
{
    for diagnostic in diagnostics {
        end_line(out, colour)?;
        say_body(alloc, out, colour, diagnostic)?;
    }
    Ok(())
}

/// Each line after an empty line.
fn say_last(out: &mut Vec<u8>, colour: bool, lines: &[Vec<Part<'_>>]) -> Result<(), AllocError>
    ensures { OnOk result (out.new.items ≡ out.old.items ++ written colour (flat_map spec.last_inks lines.now)) }
{
    for line in lines {
        end_line(out, colour)?;
        say_message(out, colour, line.as_slice())?;
        end_line(out, colour)?;
    }
    Ok(())
}

/// A verdict with its explanation, for people: the line of the verdict, then the lines of `run` if it has some, each
/// diagnostic, and each of `lines`, with an empty line before each part. The bytes of `run` are unchanged. An error
/// where memory was refused.
pub fn text_verdict(
    alloc: Global,
    verdict: &str,
    is_good: bool,
    run: &[u8],
    diagnostics: &[Diagnostic<'_>],
    lines: &[Vec<Part<'_>>],
    colour: bool,
) -> Result<Vec<u8>, AllocError>
    ensures { IfOk result (λ bytes. bytes.items ≡ spec.text_bytes colour is_good verdict.now run.now diagnostics.now lines.now) }
{
    let mut out = Vec::new(alloc);
    say_verdict(&mut out, colour, is_good, verdict)?;
    put_run(&mut out, run)?;
    say_apart(alloc, &mut out, colour, diagnostics)?;
    say_last(&mut out, colour, lines)?;
    Ok(out)
}

/// A verdict with its explanation, for editors: the line of the verdict, the lines of `run`, and the first line of each
/// diagnostic, without colour. An error where memory was refused.
pub fn short_verdict(
    alloc: Global,
    verdict: &str,
    run: &[u8],
    diagnostics: &[Diagnostic<'_>],
) -> Result<Vec<u8>, AllocError>
    ensures { IfOk result (λ bytes. bytes.items ≡ spec.short_bytes verdict.now run.now diagnostics.now) }
{
    let mut out = Vec::new(alloc);
    say_verdict(&mut out, false, false, verdict)?;
    put_run(&mut out, run)?;
    let short = short_report(alloc, diagnostics)?;
    out.extend_from_slice(short.as_slice())?;
    Ok(out)
}

/// A verdict, if there is one.
fn verdict_value(alloc: Global, verdict: Option<&str>) -> Result<Value, AllocError>
    ensures { IfOk result (λ v. view v ≡ spec.verdict_json (option_map (λ w. w.now) verdict.entry)) }
{
    match verdict {
        Some(words) => Value::try_from_str(alloc, words),
        None => Ok(Value::Null),
    }
}

/// The object of a verdict and its diagnostics.
fn explained_value(
    alloc: Global,
    verdict: Option<&str>,
    diagnostics: &[Diagnostic<'_>],
) -> Result<Value, AllocError>
    ensures { IfOk result (λ v. view v ≡ spec.explained_json (option_map (λ w. w.now) verdict.entry) diagnostics.now) }
{
    let mut map = Map::new(alloc);
    put_head(&mut map, alloc, "htnplan-explain")?;
    put(&mut map, alloc, "verdict", verdict_value(alloc, verdict)?)?;
    put_diagnostics(&mut map, alloc, diagnostics)?;
    Ok(Value::Object(map))
}

/// A verdict, if there is one, with its explanation, for tools: one object of JSON on one line, whose members are in
/// the order of their names. An error where memory was refused.
pub fn json_verdict(
    alloc: Global,
    verdict: Option<&str>,
    diagnostics: &[Diagnostic<'_>],
) -> Result<Vec<u8>, AllocError>
    ensures bytes { IfOk result (λ text. text.items ≡ spec.explained_bytes (option_map (λ w. w.now) verdict.entry) diagnostics.now) }
    ensures utf8 { IfOk result (λ text. IsUtf8 text.items) }
    ensures reads_back { IfOk result (λ text. IsReadAs (spec.explained_json (option_map (λ w. w.now) verdict.entry) diagnostics.now) text.items) }
{
    let mut text = explained_value(alloc, verdict, diagnostics)?.to_vec(alloc)?;
    text.push(b'\n')?;
    Ok(text)
}
