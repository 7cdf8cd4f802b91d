//! Names as they are compared: in lower case.
ghost use Rattle.std.specs.Prelude.{◌≡◌, IfOk, OnOk};
ghost use Rattle.std.specs.Char.{is_ascii_uppercase};
ghost use Rattle.std.specs.List.{list_any};
ghost use Rattle.hddl_meaning.specs.Mentions.{folded};

use smallvec::SmallVec;
use std::alloc::{AllocError, Global};
use std::marker::Model;

/// An owned text. Most are short, and need no allocation.
pub type Kept = SmallVec<u8, 16>;

/// Where the bytes of a text in lower case are.
#[derive(Drop)]
enum Bytes<'a> {
    /// As they are written, since none of them is a capital letter.
    Written(&'a [u8]),
    Lowered(Kept),
}

/// A text as it is compared. Most names are written in lower case, and are not copied. Contracts see the text.
#[derive(Drop)]
pub struct Folded<'a> {
    bytes: Bytes<'a>,
}

impl<'a> Model for Folded<'a> {
    ghost use Rattle.hddl_meaning.specs.Mentions.{Text};
    ghost use Rattle.hddl_names.specs.Folding.{bytes_of};

    ghost Value = { Text };

    ghost view = { λ text. bytes_of text.bytes };
}

impl<'a> Folded<'a> {
    /// The bytes in lower case.
    pub fn as_slice(&self) -> &[u8]
        ensures { result.now ≡ self.now }
    {
        match &self.bytes {
            Bytes::Written(bytes) => bytes,
            Bytes::Lowered(bytes) => bytes.as_slice(),
        }
    }
}

/// Whether some byte is a capital letter.
pub(crate) fn has_capital(bytes: &[u8]) -> bool
    ensures { result ≡ list_any is_ascii_uppercase bytes.now }
{
    bytes.iter().any(|byte| byte.is_ascii_uppercase())
}

/// The bytes of a name or a variable in lower case, or an error where memory was refused.
pub fn fold(alloc: Global, bytes: &[u8]) -> Result<Folded<'_>, AllocError>
    ensures { IfOk result (λ text. text ≡ folded bytes.now) }
{
    if !has_capital(bytes) {
        return Ok(Folded {
            bytes: Bytes::Written(bytes),
        });
    }
    let mut text = SmallVec::from_slice(alloc, bytes)?;
    text.as_mut_slice().make_ascii_lowercase();
    Ok(Folded {
        bytes: Bytes::Lowered(text),
    })
}

/// The bytes of a name or a variable in lower case, to be stored in a table. An error means that memory was refused.
pub fn fold_to_vec(alloc: Global, bytes: &[u8]) -> Result<Vec<u8>, AllocError>
    ensures { IfOk result (λ text. text.items ≡ folded bytes.now) }
{
    let mut text = Vec::from_slice(alloc, bytes)?;
    text.as_mut_slice().make_ascii_lowercase();
    Ok(text)
}

/// Replaces the contents of a buffer by these bytes in lower case.
pub fn fold_into(buffer: &mut Vec<u8>, bytes: &[u8]) -> Result<(), AllocError>
    ensures { OnOk result (buffer.new.items ≡ folded bytes.now) }
{
    buffer.clear();
    for byte in bytes {
        buffer.push(byte.to_ascii_lowercase())?;
    }
    Ok(())
}
