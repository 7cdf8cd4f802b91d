//! The words of a text.

ghost use Rattle.std.specs.Prelude.{◌≡◌, Ok};
ghost use Rattle.hddl_words.specs.Word.{word, word_at};
ghost use Rattle.hddl_words.specs.Class.{class_by};

use crate::class::Class;

/// The kind of a word, which its first byte and its length determine.
#[derive(Debug, Clone, Copy, PartialEq, Eq)]
pub enum Kind {
    /// An opening bracket.
    Open,
    /// A closing bracket.
    Close,
    /// `?` and at least one more byte.
    Variable,
    /// `:` and at least one more byte.
    Keyword,
    /// `-`, `=` or `<`.
    Sign,
    /// Any other word, reserved or not.
    Name,
}

/// A word where it stands in its text. Only `lex` makes one.
#[derive(Debug, Clone, Copy)]
pub struct Token<'a> {
    pub kind: Kind,
    pub(crate) class: Class,
    /// The byte offset of its first byte in the text.
    pub place: usize,
    /// Its bytes as they are written.
    pub text: &'a [u8],
    ghost is_word: { word_at place text.now ≡ Ok (word kind place text.now) },
    ghost is_classified: { class ≡ class_by kind text.now },
}
