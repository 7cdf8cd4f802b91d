//! Questions for names that may be meant.

ghost use Rattle.std.specs.Prelude.{◌≡◌, ℕ, List, Some, ◌++◌, IfOk, OnOk};
ghost use Rattle.diagnostics.specs.Near.{names_of};
ghost use Rattle.diagnostics.specs.Offers as spec;
ghost use Rattle.diagnostics.specs.Offers.{named, offered_by, opening};

use crate::diagnostic::Part;
use std::alloc::{AllocError, Global};

/// Whether words begin a question for a name.
fn begins_question(words: &[u8]) -> bool
    ensures { result ≡ spec.begins_question words.now }
{
    words.starts_with(b"did you mean ")
}

/// Whether a message asks `did you mean`.
pub fn is_question(parts: &[Part<'_>]) -> bool
    ensures { result ≡ spec.is_question parts.now }
{
    match parts {
        [Part::Words(words), ..] => begins_question(words.as_bytes()),
        _ => false,
    }
}

/// Adds the words before a name of a list: nothing before the first one, and the word before the last one.
#[tactic(auto, using(crate::proofs::Asking::opening_more))]
fn push_separator<'a>(
    parts: &mut Vec<Part<'a>>,
    is_first: bool,
    is_last: bool,
    word: &'a str,
) -> Result<(), AllocError>
    ensures names { OnOk result (named parts.new.items ≡ named parts.old.items) }
    ensures begin { OnOk result ((words : List ℕ) → opening parts.old.items ≡ Some words → opening parts.new.items ≡ Some words) }
{
    if is_first {
        return Ok(());
    }
    parts.push(Part::Words(if is_last { word } else { ", " }))?;
    Ok(())
}

/// Adds names to a message, as `a`, `b` or `c`, where the word stands before the last one. An error where memory was
/// refused.
#[tactic(auto, using(crate::proofs::Asking::opening_more))]
pub fn push_names<'a>(
    parts: &mut Vec<Part<'a>>,
    names: &[&'a [u8]],
    word: &'a str,
) -> Result<(), AllocError>
    ensures names { OnOk result (named parts.new.items ≡ named parts.old.items ++ names_of names.now) }
    ensures begin { OnOk result ((words : List ℕ) → opening parts.old.items ≡ Some words → opening parts.new.items ≡ Some words) }
{
    let count = names.len();
    let mut left = count;
    for name in names {
        push_separator(parts, left == count, left == 1, word)?;
        parts.push(Part::Name(name))?;
        left = left.saturating_sub(1);
    }
    Ok(())
}

/// A question for one of these names. An error where memory was refused.
pub fn did_you_mean<'a>(alloc: Global, names: &[&'a [u8]]) -> Result<Vec<Part<'a>>, AllocError>
    ensures { IfOk result (λ parts. offered_by parts.items ≡ names_of names.now) }
{
    let mut parts = vec![in alloc; Part::Words("did you mean ")]?;
    push_names(&mut parts, names, " or ")?;
    parts.push(Part::Words("?"))?;
    Ok(parts)
}
