//! Errors, to which more may be added.

ghost use Rattle.std.specs.Prelude.{◌≡◌, IfOk};
ghost use Rattle.plan_messages.specs.Errors.{IsError};

use diagnostics::{Diagnostic, Part, Severity, Where};
use std::alloc::{AllocError, Global};

/// An error with a message.
pub(crate) fn error<'a>(
    alloc: Global,
    code: &'a str,
    about: Where<'a>,
    message: Vec<Part<'a>>,
) -> Diagnostic<'a>
    ensures error { IsError code.now result }
    ensures about { result.about ≡ about.entry }
    ensures message { result.message ≡ message.entry }
{
    Diagnostic {
        severity: Severity::Error,
        code,
        about,
        message,
        label: Vec::new(alloc),
        remarks: Vec::new(alloc),
        notes: Vec::new(alloc),
    }
}

/// An error whose message is words of the program.
pub(crate) fn plain_error<'a>(
    alloc: Global,
    code: &'a str,
    about: Where<'a>,
    words: &'a str,
) -> Result<Diagnostic<'a>, AllocError>
    ensures error { IfOk result (λ d. IsError code.now d) }
    ensures about { IfOk result (λ d. d.about ≡ about.entry) }
{
    let message = vec![in alloc; Part::Words(words)]?;
    Ok(error(alloc, code, about, message))
}
