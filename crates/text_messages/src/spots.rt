//! The words that a diagnostic points at.

ghost use Rattle.std.specs.Prelude.{◌≡◌, ◌≤◌, length};
ghost use Rattle.hddl_words.specs.Word.{is_word_byte as is_part};
ghost use Rattle.std.specs.List.{prefix_len};
ghost use Rattle.text_messages.specs.Following.{word_from};
ghost use Rattle.text_messages.specs.Spots.{word_len_at, IsAt};

use diagnostics::{Source, Spot};

/// Whether a byte is part of a word other than a bracket.
fn is_word_byte(byte: u8) -> bool
    ensures { result ≡ is_part byte }
{
    33 <= byte && byte <= 126 && !(byte == b'(' || byte == b')' || byte == b';')
}

/// How many bytes the run at the front has.
fn run_len(bytes: &[u8]) -> usize
    ensures value { result ≡ prefix_len is_part bytes.now }
    ensures within { result ≤ length bytes.now }
{
    let mut len = 0;
    while len < bytes.len() && is_word_byte(bytes[len]) {
        len += 1;
    }
    len
}

/// How many bytes the word at the front has: a run of such bytes, and else one; none at the end.
fn word_len(bytes: &[u8]) -> usize
    ensures value { result ≡ word_len_at bytes.now }
    ensures within { result ≤ length bytes.now }
{
    match bytes {
        [] => 0,
        [_, ..] => run_len(bytes).max(1),
    }
}

/// The word at a place of a text. A place past the end is the end.
pub(crate) fn spot_at<'a>(source: &'a Source<'a>, place: usize) -> Spot<'a>
    ensures { IsAt source.now place result }
{
    let text = source.lines.text();
    let place = place.min(text.len());
    Spot {
        source,
        place,
        word_len: word_len(&text[place..]),
    }
}

/// The bytes of the word at a place. A place past the end has none.
pub(crate) fn word_at<'a>(source: &'a Source<'a>, place: usize) -> &'a [u8] {
    let text = source.lines.text();
    let rest = &text[place.min(text.len())..];
    &rest[..word_len(rest)]
}

/// The run at a place of a text: none at a bracket, a blank or the end.
pub(crate) fn run_at<'a>(source: &'a Source<'a>, place: usize) -> &'a [u8]
    ensures { result.now ≡ word_from source.now place }
{
    let text = source.lines.text();
    let rest = &text[place.min(text.len())..];
    &rest[..run_len(rest)]
}
