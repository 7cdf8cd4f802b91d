//! The words of a plan's lines.

ghost use Rattle.std.specs.Prelude.{◌≡◌, ◌≤◌, length};
ghost use Rattle.htn_model.specs.PlanWord as model;
ghost use Rattle.plan_messages.specs.Spots.{IsOnLine, IsSpotOn};

use diagnostics::{Source, Spot};

/// A byte that parts the words of a line.
fn is_blank(byte: u8) -> bool
    ensures { result ≡ model.is_blank byte }
{
    byte == 9 || byte == 12 || byte == 13 || byte == b' ' || byte == b'(' || byte == b')'
}

/// Where the next word of a line begins, from a place of the line on; where none follows, the end of the line.
pub(crate) fn word_start(text: &[u8], from: usize) -> usize
    ensures { IsOnLine text.now from result }
{
    let mut at = from.min(text.len());
    while at < text.len() && is_blank(text[at]) {
        at += 1;
    }
    at
}

/// Where the word ends that begins at a place.
pub(crate) fn word_end(text: &[u8], from: usize) -> usize
    ensures { IsOnLine text.now from result }
{
    let mut at = from.min(text.len());
    while at < text.len() && !is_blank(text[at]) && text[at] != b'\n' {
        at += 1;
    }
    at
}

/// Where the last word of a line ends, from a place of the line on.
fn words_end(text: &[u8], from: usize) -> usize {
    let mut at = from.min(text.len());
    let mut end = at;
    while at < text.len() && text[at] != b'\n' {
        let is_word = !is_blank(text[at]);
        at += 1;
        if is_word {
            end = at;
        }
    }
    end
}

/// The next word of a line, from a place of the line on.
pub fn word_from<'a>(source: &'a Source<'a>, from: usize) -> Spot<'a>
    ensures { IsSpotOn source.now from result }
{
    let text = source.lines.text();
    let start = word_start(text, from);
    Spot {
        source,
        place: start,
        word_len: word_end(text, start).saturating_sub(start),
    }
}

/// All words of a line, from a place of the line on.
pub fn words_from<'a>(source: &'a Source<'a>, from: usize) -> Spot<'a>
    ensures { IsSpotOn source.now from result }
{
    let text = source.lines.text();
    let start = word_start(text, from);
    Spot {
        source,
        place: start,
        word_len: words_end(text, start).saturating_sub(start),
    }
}
