//! A part of a text.

ghost use Rattle.std.specs.Prelude.{◌+◌, ◌≤◌, length};

/// A line or a word of a text.
#[derive(Clone, Copy, Debug)]
pub(crate) struct Piece<'a> {
    /// The place of its first byte in the text, counted from 0.
    pub place: usize,
    pub bytes: &'a [u8],
    ghost in_text: { place + length bytes.now ≤ 16777216 },
}
