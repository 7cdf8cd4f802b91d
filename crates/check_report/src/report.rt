//! Diagnostics as a report, and what they come to.
ghost use Rattle.std.specs.Prelude.{◌≡◌, IfOk};
ghost use Rattle.std.specs.List.{list_any};
ghost use Rattle.check_report.specs.Report as spec;

use diagnostics::{
    Diagnostic, Format, Part, Reached, Severity, json_report, short_report, text_report,
};
use std::alloc::{AllocError, Global};

/// The result of a check.
#[derive(Clone, Copy, Debug, PartialEq, Eq)]
pub enum Finding {
    /// No error, and no warning that counts.
    Sound,
    /// No error, and a warning, where warnings count.
    Warned,
    /// An error.
    Faulty,
}

/// The result of a check, and the bytes of its report.
#[derive(Debug, Drop)]
pub struct Checked {
    pub finding: Finding,
    pub text: Vec<u8>,
}

/// How a report is written.
#[derive(Clone, Copy, Debug)]
pub struct Options {
    pub format: Format,
    /// The most diagnostics that the text shows, where those with equal texts count once; 0 is all.
    pub limit: usize,
    /// Whether warnings count.
    pub is_strict: bool,
    /// Whether the text has colours.
    pub colour: bool,
}

/// Whether a diagnostic is an error.
fn is_error(diagnostic: &Diagnostic<'_>) -> bool
    ensures { result ≡ spec.is_error diagnostic.now }
{
    match diagnostic.severity {
        Severity::Error => true,
        Severity::Warning => false,
    }
}

/// Whether one of some diagnostics is an error.
fn has_error(diagnostics: &[Diagnostic<'_>]) -> bool
    ensures { result ≡ list_any spec.is_error diagnostics.now }
{
    diagnostics.iter().any(|diagnostic| is_error(diagnostic))
}

/// What some diagnostics come to.
fn finding_of(diagnostics: &[Diagnostic<'_>], is_strict: bool) -> Finding
    ensures { result ≡ spec.finding_of is_strict diagnostics.now }
{
    if has_error(diagnostics) {
        return Finding::Faulty;
    }
    if is_strict && !diagnostics.is_empty() {
        return Finding::Warned;
    }
    Finding::Sound
}

/// The bytes of some diagnostics, the lines of a summary, and what a plan may use.
fn written(
    alloc: Global,
    diagnostics: &[Diagnostic<'_>],
    summary: &[Vec<Part<'_>>],
    reached: Option<Reached>,
    options: Options,
) -> Result<Vec<u8>, AllocError>
    ensures { IfOk result (λ text. text.items ≡ spec.report_bytes options diagnostics.now summary.now reached) }
{
    match options.format {
        Format::Text => text_report(alloc, diagnostics, summary, options.limit, options.colour),
        Format::Short => short_report(alloc, diagnostics),
        Format::Json => json_report(alloc, diagnostics, reached),
    }
}

/// The report of some diagnostics, the lines of a summary, and what a plan may use, where that is known.
pub(crate) fn report(
    alloc: Global,
    diagnostics: &[Diagnostic<'_>],
    summary: &[Vec<Part<'_>>],
    reached: Option<Reached>,
    options: Options,
) -> Result<Checked, AllocError>
    ensures { IfOk result (spec.IsReport options diagnostics.now summary.now reached) }
{
    let text = written(alloc, diagnostics, summary, reached, options)?;
    let finding = finding_of(diagnostics, options.is_strict);
    Ok(Checked { finding, text })
}
