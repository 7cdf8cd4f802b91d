//! Remarks of a diagnostic.

ghost use Rattle.std.specs.Prelude.{◌≡◌, IfOk};
ghost use Rattle.diagnostics.specs.Near.{names_of};
ghost use Rattle.diagnostics.specs.Offers.{offered, offered_by};

use diagnostics::{Part, Remark, RemarkKind, did_you_mean};
use std::alloc::{AllocError, Global};

/// One remark.
fn remark<'a>(
    alloc: Global,
    kind: RemarkKind,
    message: Vec<Part<'a>>,
) -> Result<Vec<Remark<'a>>, AllocError>
    ensures { IfOk result (λ remarks. offered remarks.items ≡ offered_by message.entry.items) }
{
    let mut remarks = Vec::new(alloc);
    remarks.push(Remark { kind, message })?;
    Ok(remarks)
}

/// What to do.
pub(crate) fn help<'a>(alloc: Global, message: Vec<Part<'a>>) -> Result<Vec<Remark<'a>>, AllocError>
    ensures { IfOk result (λ remarks. offered remarks.items ≡ offered_by message.entry.items) }
{
    remark(alloc, RemarkKind::Help, message)
}

/// What is so.
pub(crate) fn fact<'a>(alloc: Global, message: Vec<Part<'a>>) -> Result<Vec<Remark<'a>>, AllocError>
    ensures { IfOk result (λ remarks. offered remarks.items ≡ offered_by message.entry.items) }
{
    remark(alloc, RemarkKind::Note, message)
}

/// A question for one of these names, if there are any.
pub(crate) fn ask<'a>(alloc: Global, names: &[&'a [u8]]) -> Result<Vec<Remark<'a>>, AllocError>
    ensures { IfOk result (λ remarks. offered remarks.items ≡ names_of names.now) }
{
    if names.is_empty() {
        return Ok(Vec::new(alloc));
    }
    let question = did_you_mean(alloc, names)?;
    let remarks = help(alloc, question)?;
    Ok(remarks)
}
