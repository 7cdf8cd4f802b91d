//! Reports as JSON, for tools.

ghost use Rattle.std.specs.Prelude.{◌≡◌, ◌-◌, ◌∷◌, ◌++◌, [], OnOk, IfOk, IsUtf8, codes, count_by, filter, length, map, not};
ghost use Rattle.serde_json.specs.Data.{string};
ghost use Rattle.serde_json.specs.View.{view, items_view, members_view};
ghost use Rattle.diagnostics.specs.Json as spec;
ghost use Rattle.diagnostics.specs.Json.{with_members, json_bytes, IsReadAs};
ghost use Rattle.diagnostics.specs.Written.{is_error};

use crate::diagnostic::{
    Diagnostic, Note, Part, Remark, RemarkKind, Role, Severity, Source, Spot, Where,
};
use crate::lines::say_message;
use crate::reached::Reached;
use crate::report::count_errors;
use serde_json::{Map, Value, put};
use std::alloc::{AllocError, Global};

/// A message, as the text has it.
fn message_value(alloc: Global, message: &[Part<'_>]) -> Result<Value, AllocError>
    ensures { IfOk result (λ v. view v ≡ spec.message_json message.now) }
{
    let mut bytes = Vec::new(alloc);
    say_message(&mut bytes, false, message)?;
    Ok(Value::String(String::from_utf8_lossy(alloc, bytes.as_slice())?))
}

/// The word for a text.
fn role_word(role: Role) -> &'static str
    ensures { result.now ≡ spec.role_word role }
{
    match role {
        Role::Domain => "domain",
        Role::Problem => "problem",
        Role::Plan => "plan",
    }
}

/// The word for a severity.
fn severity_name(severity: Severity) -> &'static str
    ensures { result.now ≡ spec.severity_name severity }
{
    match severity {
        Severity::Error => "error",
        Severity::Warning => "warning",
    }
}

/// Adds which text this is, and the name of its file.
fn put_source(
    map: &mut Map<String, Value>,
    alloc: Global,
    source: &Source<'_>,
) -> Result<(), AllocError>
    ensures { OnOk result (members_view map.new.entries ≡ with_members (members_view map.old.entries) (spec.source_members source.now)) }
{
    put(
        map,
        alloc,
        "text",
        Value::try_from_str(alloc, role_word(source.role))?,
    )?;
    put(map, alloc, "file", Value::try_from_str(alloc, source.name)?)?;
    Ok(())
}

/// Adds that there is no place.
fn put_no_place(map: &mut Map<String, Value>, alloc: Global) -> Result<(), AllocError>
    ensures { OnOk result (members_view map.new.entries ≡ with_members (members_view map.old.entries) spec.no_place) }
{
    put(map, alloc, "line", Value::Null)?;
    put(map, alloc, "column", Value::Null)?;
    put(map, alloc, "byte", Value::Null)?;
    Ok(())
}

/// Adds a place, with its text.
fn put_spot(map: &mut Map<String, Value>, alloc: Global, spot: &Spot<'_>) -> Result<(), AllocError>
    ensures { OnOk result (members_view map.new.entries ≡ with_members (members_view map.old.entries) (spec.spot_members spot.now)) }
{
    let position = spot.source.lines.position(spot.place);
    put_source(map, alloc, spot.source)?;
    put(map, alloc, "line", Value::from(position.line))?;
    put(map, alloc, "column", Value::from(position.column))?;
    put(map, alloc, "byte", Value::from(spot.place))?;
    Ok(())
}

/// Adds what a diagnostic is about, and the length of the word there.
fn put_where(
    map: &mut Map<String, Value>,
    alloc: Global,
    about: &Where<'_>,
) -> Result<(), AllocError>
    ensures { OnOk result (members_view map.new.entries ≡ with_members (members_view map.old.entries) (spec.where_members about.now)) }
{
    match about {
        Where::Text(source) => {
            put_source(map, alloc, source)?;
            put_no_place(map, alloc)?;
            put(map, alloc, "length", Value::from(0usize))?;
            Ok(())
        }
        Where::Place(spot) => {
            put_spot(map, alloc, spot)?;
            put(map, alloc, "length", Value::from(spot.word_len))?;
            Ok(())
        }
    }
}

/// A note without a place.
fn remark_value(alloc: Global, remark: &Remark<'_>) -> Result<Value, AllocError>
    ensures { IfOk result (λ v. view v ≡ spec.remark_json remark.now) }
{
    let mut map = Map::new(alloc);
    put(&mut map, alloc, "text", Value::Null)?;
    put(&mut map, alloc, "file", Value::Null)?;
    put_no_place(&mut map, alloc)?;
    put(
        &mut map,
        alloc,
        "message",
        message_value(alloc, remark.message.as_slice())?,
    )?;
    Ok(Value::Object(map))
}

/// A note with a place.
fn note_value(alloc: Global, note: &Note<'_>) -> Result<Value, AllocError>
    ensures { IfOk result (λ v. view v ≡ spec.note_json note.now) }
{
    let mut map = Map::new(alloc);
    put_spot(&mut map, alloc, &note.spot)?;
    put(
        &mut map,
        alloc,
        "message",
        message_value(alloc, note.message.as_slice())?,
    )?;
    Ok(Value::Object(map))
}

/// Whether a remark says what to do.
fn is_help(kind: RemarkKind) -> bool
    ensures { result ≡ spec.is_help kind }
{
    matches!(kind, RemarkKind::Help)
}

/// The remarks that say what to do.
fn help_value(alloc: Global, remarks: &[Remark<'_>]) -> Result<Value, AllocError>
    ensures { IfOk result (λ v. view v ≡ spec.help_json remarks.now) }
{
    let mut list = Vec::new(alloc);
    for remark in remarks {
        if is_help(remark.kind) {
            list.push(message_value(alloc, remark.message.as_slice())?)?;
        }
    }
    Ok(Value::Array(list))
}

/// Adds the notes without a place.
fn push_remarks(
    list: &mut Vec<Value>,
    alloc: Global,
    remarks: &[Remark<'_>],
) -> Result<(), AllocError>
    ensures { OnOk result (map view list.new.items ≡ map view list.old.items ++ map spec.remark_json (filter (λ r. not (spec.is_help r.kind)) remarks.now)) }
{
    for remark in remarks {
        if !is_help(remark.kind) {
            list.push(remark_value(alloc, remark)?)?;
        }
    }
    Ok(())
}

/// Adds the notes with a place.
fn push_notes(list: &mut Vec<Value>, alloc: Global, notes: &[Note<'_>]) -> Result<(), AllocError>
    ensures { OnOk result (map view list.new.items ≡ map view list.old.items ++ map spec.note_json notes.now) }
{
    for note in notes {
        list.push(note_value(alloc, note)?)?;
    }
    Ok(())
}

/// The notes, first those without a place.
fn notes_value(alloc: Global, diagnostic: &Diagnostic<'_>) -> Result<Value, AllocError>
    ensures { IfOk result (λ v. view v ≡ spec.notes_json diagnostic.now) }
{
    let mut list = Vec::new(alloc);
    push_remarks(&mut list, alloc, diagnostic.remarks.as_slice())?;
    push_notes(&mut list, alloc, diagnostic.notes.as_slice())?;
    Ok(Value::Array(list))
}

/// Adds the severity and the code of a diagnostic.
fn put_kind(
    map: &mut Map<String, Value>,
    alloc: Global,
    diagnostic: &Diagnostic<'_>,
) -> Result<(), AllocError>
    ensures { OnOk result (members_view map.new.entries ≡ with_members (members_view map.old.entries) ((codes "severity", string (spec.severity_name diagnostic.now.severity)) ∷ (codes "code", string diagnostic.now.code.now) ∷ [])) }
{
    put(
        map,
        alloc,
        "severity",
        Value::try_from_str(alloc, severity_name(diagnostic.severity))?,
    )?;
    put(
        map,
        alloc,
        "code",
        Value::try_from_str(alloc, diagnostic.code)?,
    )?;
    Ok(())
}

/// Adds the message of a diagnostic, what to do, and the notes.
fn put_said(
    map: &mut Map<String, Value>,
    alloc: Global,
    diagnostic: &Diagnostic<'_>,
) -> Result<(), AllocError>
    ensures { OnOk result (members_view map.new.entries ≡ with_members (members_view map.old.entries) ((codes "message", spec.message_json diagnostic.now.message.items) ∷ (codes "help", spec.help_json diagnostic.now.remarks.items) ∷ (codes "notes", spec.notes_json diagnostic.now) ∷ [])) }
{
    put(
        map,
        alloc,
        "message",
        message_value(alloc, diagnostic.message.as_slice())?,
    )?;
    put(
        map,
        alloc,
        "help",
        help_value(alloc, diagnostic.remarks.as_slice())?,
    )?;
    put(map, alloc, "notes", notes_value(alloc, diagnostic)?)?;
    Ok(())
}

/// Adds the members of a diagnostic.
fn put_diagnostic(
    map: &mut Map<String, Value>,
    alloc: Global,
    diagnostic: &Diagnostic<'_>,
) -> Result<(), AllocError>
    ensures { OnOk result (members_view map.new.entries ≡ with_members (members_view map.old.entries) ((codes "severity", string (spec.severity_name diagnostic.now.severity)) ∷ (codes "code", string diagnostic.now.code.now) ∷ spec.where_members diagnostic.now.about ++ (codes "message", spec.message_json diagnostic.now.message.items) ∷ (codes "help", spec.help_json diagnostic.now.remarks.items) ∷ (codes "notes", spec.notes_json diagnostic.now) ∷ [])) }
{
    put_kind(map, alloc, diagnostic)?;
    put_where(map, alloc, &diagnostic.about)?;
    put_said(map, alloc, diagnostic)?;
    Ok(())
}

/// A diagnostic.
fn diagnostic_value(alloc: Global, diagnostic: &Diagnostic<'_>) -> Result<Value, AllocError>
    ensures { IfOk result (λ v. view v ≡ spec.diagnostic_json diagnostic.now) }
{
    let mut map = Map::new(alloc);
    put_diagnostic(&mut map, alloc, diagnostic)?;
    Ok(Value::Object(map))
}

/// Each diagnostic.
fn diagnostics_value(alloc: Global, diagnostics: &[Diagnostic<'_>]) -> Result<Value, AllocError>
    ensures { IfOk result (λ v. view v ≡ spec.array_of (map spec.diagnostic_json diagnostics.now)) }
{
    let mut list = Vec::new(alloc);
    for diagnostic in diagnostics {
        list.push(diagnostic_value(alloc, diagnostic)?)?;
    }
    Ok(Value::Array(list))
}

/// What a plan may use, counted.
fn reached_value(alloc: Global, reached: Reached) -> Result<Value, AllocError>
    ensures { IfOk result (λ v. view v ≡ spec.reached_json reached) }
{
    let mut map = Map::new(alloc);
    put(&mut map, alloc, "actions", Value::from(reached.actions))?;
    put(&mut map, alloc, "methods", Value::from(reached.methods))?;
    put(&mut map, alloc, "facts", Value::from(reached.facts))?;
    Ok(Value::Object(map))
}

/// Adds what is known of plans, if anything is.
fn put_reached(
    map: &mut Map<String, Value>,
    alloc: Global,
    reached: Option<Reached>,
) -> Result<(), AllocError>
    ensures { OnOk result (members_view map.new.entries ≡ with_members (members_view map.old.entries) (spec.reached_members reached)) }
{
    match reached {
        Some(known) => {
            put(map, alloc, "reached", reached_value(alloc, known)?)?;
            put(map, alloc, "no_plan", Value::from(known.no_plan))?;
            Ok(())
        }
        None => Ok(()),
    }
}

/// Adds the format of a report and its version.
pub(crate) fn put_head(
    map: &mut Map<String, Value>,
    alloc: Global,
    format: &str,
) -> Result<(), AllocError>
    ensures { OnOk result (members_view map.new.entries ≡ with_members (members_view map.old.entries) ((codes "format", string format.now) ∷ (codes "version", spec.count 1) ∷ [])) }
{
    put(map, alloc, "format", Value::try_from_str(alloc, format)?)?;
    put(map, alloc, "version", Value::from(1usize))?;
    Ok(())
}

/// Adds the diagnostics.
pub(crate) fn put_diagnostics(
    members: &mut Map<String, Value>,
    alloc: Global,
    diagnostics: &[Diagnostic<'_>],
) -> Result<(), AllocError>
    ensures { OnOk result (members_view members.new.entries ≡ with_members (members_view members.old.entries) ((codes "diagnostics", spec.array_of (map spec.diagnostic_json diagnostics.now)) ∷ [])) }
{
    put(
        members,
        alloc,
        "diagnostics",
        diagnostics_value(alloc, diagnostics)?,
    )?;
    Ok(())
}

/// Adds how many errors and warnings there are.
fn put_counts(
    map: &mut Map<String, Value>,
    alloc: Global,
    diagnostics: &[Diagnostic<'_>],
) -> Result<(), AllocError>
    ensures { OnOk result (members_view map.new.entries ≡ with_members (members_view map.old.entries) ((codes "errors", spec.count (count_by (λ d. is_error d.severity) diagnostics.now)) ∷ (codes "warnings", spec.count (length diagnostics.now - count_by (λ d. is_error d.severity) diagnostics.now)) ∷ [])) }
{
    let errors = count_errors(diagnostics);
    put(map, alloc, "errors", Value::from(errors))?;
    put(
        map,
        alloc,
        "warnings",
        Value::from(diagnostics.len() - errors),
    )?;
    Ok(())
}

/// The whole report.
fn report_value(
    alloc: Global,
    diagnostics: &[Diagnostic<'_>],
    reached: Option<Reached>,
) -> Result<Value, AllocError>
    ensures { IfOk result (λ v. view v ≡ spec.report_json diagnostics.now reached) }
{
    let mut map = Map::new(alloc);
    put_head(&mut map, alloc, "htnplan-check")?;
    put_counts(&mut map, alloc, diagnostics)?;
    put_diagnostics(&mut map, alloc, diagnostics)?;
    put_reached(&mut map, alloc, reached)?;
    Ok(Value::Object(map))
}

/// The diagnostics for tools: one object of JSON on one line, whose members are in the order of their names. It says
/// how much a plan may use, where that is known. It is ASCII where codes and names of files are. An error where memory
/// was refused.
pub fn json_report(
    alloc: Global,
    diagnostics: &[Diagnostic<'_>],
    reached: Option<Reached>,
) -> Result<Vec<u8>, AllocError>
    ensures bytes { IfOk result (λ text. text.items ≡ json_bytes diagnostics.now reached) }
    ensures utf8 { IfOk result (λ text. IsUtf8 text.items) }
    ensures reads_back { IfOk result (λ text. IsReadAs (spec.report_json diagnostics.now reached) text.items) }
{
    let mut text = report_value(alloc, diagnostics, reached)?.to_vec(alloc)?;
    text.push(b'\n')?;
    Ok(text)
}
