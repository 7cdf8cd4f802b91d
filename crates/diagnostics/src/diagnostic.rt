//! Diagnostics of texts, as data.

ghost use Rattle.std.specs.Prelude.{◌≤◌, length};

use crate::text_lines::Lines;

/// Which text of a run this is.
#[derive(Clone, Copy, Debug, PartialEq, Eq)]
pub enum Role {
    Domain,
    Problem,
    Plan,
}

/// A text with the name of its file, as the command line gives it.
#[derive(Drop)]
pub struct Source<'a> {
    pub role: Role,
    pub name: &'a str,
    pub lines: Lines<'a>,
}

/// A word of a text: the place of its first byte, and how many bytes it has. A place that is the end of the text has no
/// word.
#[derive(Clone, Copy, Drop)]
pub struct Spot<'a> {
    pub source: &'a Source<'a>,
    /// The offset of its first byte, from 0.
    pub place: usize,
    pub word_len: usize,
    ghost within: { place ≤ length source.now.lines },
}

/// What a diagnostic is about.
#[derive(Clone, Copy, Drop)]
pub enum Where<'a> {
    /// A text as a whole.
    Text(&'a Source<'a>),
    /// A place of a text.
    Place(Spot<'a>),
}

/// A part of a message. When it is written, tabs and printable ASCII are unchanged, and every other byte is `?`.
#[derive(Clone, Copy, Drop)]
pub enum Part<'a> {
    /// Words of the program.
    Words(&'a str),
    /// Words of a text.
    Name(&'a [u8]),
    Number(u64),
}

#[derive(Clone, Copy, Debug, PartialEq, Eq)]
pub enum Severity {
    Error,
    Warning,
}

/// Whether a remark gives advice or states a fact.
#[derive(Clone, Copy, Debug, PartialEq, Eq)]
pub enum RemarkKind {
    Help,
    Note,
}

/// A remark without a place.
#[derive(Drop)]
pub struct Remark<'a> {
    pub kind: RemarkKind,
    pub message: Vec<Part<'a>>,
}

/// A note with a place.
#[derive(Drop)]
pub struct Note<'a> {
    pub spot: Spot<'a>,
    pub message: Vec<Part<'a>>,
}

/// A diagnostic: an error or a warning about a text.
pub struct Diagnostic<'a> {
    pub severity: Severity,
    /// The name of the fault or of the warning, as `UnknownName`.
    pub code: &'a str,
    pub about: Where<'a>,
    pub message: Vec<Part<'a>>,
    /// The label beside the carets; empty where there is none.
    pub label: Vec<Part<'a>>,
    pub remarks: Vec<Remark<'a>>,
    pub notes: Vec<Note<'a>>,
}

impl Drop for Diagnostic<'_> {
    fn drop(self) {
        let Diagnostic {
            severity: _,
            code: _,
            about: _,
            message: _,
            label: _,
            remarks: _,
            notes: _,
        } = self;
    }
}
