//! What a diagnostic says of its place.

ghost use Rattle.std.specs.Prelude.{◌≡◌, [], IfOk, OnOk};

use diagnostics::{Note, Part, Remark, RemarkKind, Spot};
use std::alloc::{AllocError, Global};

/// The content of a diagnostic of a place: a message, a label beside the carets, remarks and notes.
#[derive(Drop)]
pub(crate) struct Said<'a> {
    pub message: Vec<Part<'a>>,
    pub label: Vec<Part<'a>>,
    pub remarks: Vec<Remark<'a>>,
    pub notes: Vec<Note<'a>>,
}

/// A message alone.
pub(crate) fn plain<'a>(alloc: Global, message: &[Part<'a>]) -> Result<Said<'a>, AllocError>
    ensures { IfOk result (λ said. said.notes.items ≡ []) }
{
    Ok(Said {
        message: Vec::from_slice(alloc, message)?,
        label: Vec::new(alloc),
        remarks: Vec::new(alloc),
        notes: Vec::new(alloc),
    })
}

/// A message of the program's words alone.
pub(crate) fn plain_words<'a>(alloc: Global, words: &'a str) -> Result<Said<'a>, AllocError>
    ensures { IfOk result (λ said. said.notes.items ≡ []) }
{
    plain(alloc, &[Part::Words(words)])
}

impl<'a> Said<'a> {
    /// With words of the program beside the carets.
    pub(crate) fn labelled_by(self, alloc: Global, words: &'a str) -> Result<Said<'a>, AllocError>
        ensures { IfOk result (λ said. said.notes.items ≡ self.entry.notes.items) }
    {
        self.labelled(alloc, &[Part::Words(words)])
    }

    /// With a help of the program's words alone.
    pub(crate) fn helped_by(self, alloc: Global, words: &'a str) -> Result<Said<'a>, AllocError>
        ensures { IfOk result (λ said. said.notes.items ≡ self.entry.notes.items) }
    {
        self.helped(alloc, &[Part::Words(words)])
    }

    /// With words beside the carets.
    pub(crate) fn labelled(self, alloc: Global, label: &[Part<'a>]) -> Result<Said<'a>, AllocError>
        ensures { IfOk result (λ said. said.notes.items ≡ self.entry.notes.items) }
    {
        let mut said = self;
        said.label = Vec::from_slice(alloc, label)?;
        Ok(said)
    }

    /// With a help.
    pub(crate) fn helped(self, alloc: Global, help: &[Part<'a>]) -> Result<Said<'a>, AllocError>
        ensures { IfOk result (λ said. said.notes.items ≡ self.entry.notes.items) }
    {
        let mut said = self;
        said.remarks.push(Remark {
            kind: RemarkKind::Help,
            message: Vec::from_slice(alloc, help)?,
        })?;
        Ok(said)
    }

    /// With a note at a place, which had none.
    pub(crate) fn noted(
        self,
        alloc: Global,
        spot: Spot<'a>,
        note: &[Part<'a>],
    ) -> Result<Said<'a>, AllocError> {
        let mut said = self;
        said.notes.push(Note {
            spot,
            message: Vec::from_slice(alloc, note)?,
        })?;
        Ok(said)
    }

    /// With a note of the program's words alone, at a place.
    pub(crate) fn noted_by(
        self,
        alloc: Global,
        spot: Spot<'a>,
        words: &'a str,
    ) -> Result<Said<'a>, AllocError> {
        self.noted(alloc, spot, &[Part::Words(words)])
    }
}
