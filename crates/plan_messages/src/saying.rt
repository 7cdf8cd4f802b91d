//! The remarks and notes of an error, beside its message.

ghost use Rattle.std.specs.Prelude.{◌≡◌, ◌++◌, ◌∷◌, [], OnOk};
ghost use Rattle.diagnostics.specs.declared.diagnostic.RemarkKind.TheVariants as kind;

use diagnostics::{Note, Part, Remark, RemarkKind, Spot};
use std::alloc::{AllocError, Global};

/// The remarks and notes of an error, beside its message.
#[derive(Drop)]
pub(crate) struct Saying<'a> {
    pub(crate) remarks: Vec<Remark<'a>>,
    pub(crate) notes: Vec<Note<'a>>,
}

impl<'a> Saying<'a> {
    pub(crate) fn new(alloc: Global) -> Saying<'a> {
        Saying {
            remarks: Vec::new(alloc),
            notes: Vec::new(alloc),
        }
    }

    /// Adds what is so.
    pub(crate) fn remark(&mut self, message: Vec<Part<'a>>) -> Result<(), AllocError>
        ensures { OnOk result (self.new.remarks.items ≡ self.old.remarks.items ++ record { kind = kind.Note; message = message.entry } ∷ []) }
    {
        self.remarks.push(Remark {
            kind: RemarkKind::Note,
            message,
        })?;
        Ok(())
    }

    /// Adds a note with a place, if there is one.
    pub(crate) fn note(
        &mut self,
        spot: Option<Spot<'a>>,
        message: Vec<Part<'a>>,
    ) -> Result<(), AllocError> {
        if let Some(spot) = spot {
            self.notes.push(Note { spot, message })?;
        }
        Ok(())
    }
}
