//! The part of a line that is shown around a place.

ghost use Rattle.std.specs.Prelude.{◌≡◌, ◌≤◌, length, IfOk};
ghost use Rattle.diagnostics.specs.Shown as spec;
ghost use Rattle.diagnostics.specs.Shown.{seen};

use std::alloc::{AllocError, Global};

/// The most bytes of a line that are shown.
const WIDTH: usize = 120;

/// The most of them that stand before the place, where the line has more after it than are shown.
const BEFORE: usize = 80;

/// Stands for what is cut off.
const CUT: &[u8] = b"...";

/// The part of a line that is shown around a place.
#[derive(Clone, Copy, Debug)]
pub struct Excerpt<'a> {
    /// Whether the line has bytes before these.
    pub is_cut_before: bool,
    /// The bytes before the place.
    pub before: &'a [u8],
    /// The bytes from the place on.
    pub after: &'a [u8],
    /// Whether the line has bytes after these.
    pub is_cut_after: bool,
}

/// The part of a line that is shown around the place after its first `column` bytes.
pub(crate) fn excerpt_of<'a>(line: &'a [u8], column: usize) -> Excerpt<'a>
    ensures { seen result ≡ spec.excerpt_of line.now column }
{
    let start = column
        .saturating_sub(BEFORE)
        .min(line.len().saturating_sub(WIDTH));
    let end = line.len().min(start + WIDTH);
    let middle = end.min(column);
    Excerpt {
        is_cut_before: start > 0,
        before: &line[start..middle],
        after: &line[middle..end],
        is_cut_after: end < line.len(),
    }
}

impl<'a> Excerpt<'a> {
    /// The bytes as they are shown: tabs and printable ASCII as they are, every other byte as `?`, and `...` at each
    /// end that is cut. An error where memory was refused.
    pub fn row(&self, alloc: Global) -> Result<Vec<u8>, AllocError>
        ensures { IfOk result (λ row. row.items ≡ spec.row (seen self.now)) }
    {
        let mut row = Vec::new(alloc);
        row.extend_from_slice(cut_mark(self.is_cut_before))?;
        for byte in self.before {
            row.push(shown(*byte))?;
        }
        for byte in self.after {
            row.push(shown(*byte))?;
        }
        row.extend_from_slice(cut_mark(self.is_cut_after))?;
        Ok(row)
    }

    /// The bytes before a caret below the place: a tab below each tab of the row, and a blank below each other byte, so
    /// that the caret is below the place at every width of tabs. An error where memory was refused.
    pub fn padding(&self, alloc: Global) -> Result<Vec<u8>, AllocError>
        ensures { IfOk result (λ padding. padding.items ≡ spec.padding (seen self.now)) }
    {
        let mut padding = Vec::new(alloc);
        for byte in cut_mark(self.is_cut_before) {
            padding.push(pad(*byte))?;
        }
        for byte in self.before {
            padding.push(pad(*byte))?;
        }
        Ok(padding)
    }

    /// The number of carets below a word of this length that begins at the place: one for each byte of the row from
    /// there on that belongs to it, and one at least.
    pub fn carets(&self, length: usize) -> usize
        ensures { result ≡ spec.carets (seen self.now) length }
    {
        let rest = self.after.len() + cut_mark(self.is_cut_after).len();
        length.min(rest).max(1)
    }
}

/// The dots at an end of a row that is cut.
fn cut_mark(is_cut: bool) -> &'static [u8]
    ensures { result.now ≡ spec.mark is_cut }
{
    if is_cut { CUT } else { b"" }
}

/// A byte as it is shown: a tab or a printable byte of ASCII as it is, every other byte as `?`.
pub fn shown(byte: u8) -> u8
    ensures { result ≡ spec.shown byte }
{
    if byte == b'\t' || (byte >= 32 && byte <= 126) {
        byte
    } else {
        b'?'
    }
}

/// The byte below a byte, before a caret.
fn pad(byte: u8) -> u8
    ensures { result ≡ spec.pad byte }
{
    if byte == b'\t' { b'\t' } else { b' ' }
}
