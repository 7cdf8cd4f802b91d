//! Messages about brackets that don't match.

ghost use Rattle.std.specs.Prelude.{◌≡◌, Some, true, map, slice_get};
ghost use Rattle.hddl_words.specs.Class.{class_of as class_by_text};
ghost use Rattle.hddl_words.specs.Words.{word_of, Word};
ghost use Rattle.hddl_words.specs.declared.token.Kind.TheVariants as kinds;
ghost use Rattle.text_messages.specs.Notes as spec;
ghost use Rattle.text_messages.specs.Notes.{BeginsSection};

use crate::said::{Said, plain_words};
use crate::spots::spot_at;
use crate::words::{token_at, words_or_none};
use diagnostics::{Part, Source};
use hddl_words::{Class, Keyword, Kind, Token, class_of};
use std::alloc::{AllocError, Global};

/// Whether a keyword is that of a section.
fn is_section_keyword(keyword: Keyword) -> bool
    ensures { result ≡ spec.is_section_keyword keyword }
{
    matches!(
        keyword,
        Keyword::Requirements
            | Keyword::Types
            | Keyword::Constants
            | Keyword::Predicates
            | Keyword::Task
            | Keyword::Method
            | Keyword::Action
            | Keyword::Objects
            | Keyword::Init
            | Keyword::Goal
            | Keyword::Htn
    )
}

/// Whether a word is the keyword of a section.
fn is_section(word: &Token<'_>) -> bool
    ensures { result ≡ spec.is_section (class_by_text (word_of word.now)) }
{
    match class_of(word) {
        Class::Keyword(keyword) => is_section_keyword(keyword),
        _ => false,
    }
}

/// Whether the word of an index is an opening bracket.
fn is_opening(words: &[Token<'_>], index: usize) -> bool
    ensures { result ≡ true → (w : Word) × (slice_get (map word_of words.now) index ≡ Some w) × (w.kind ≡ kinds.Open) }
{
    match token_at(words, index) {
        Some(word) => word.kind == Kind::Open,
        None => false,
    }
}

/// Whether the word of an index is the keyword of a section.
fn is_section_at(words: &[Token<'_>], index: usize) -> bool
    ensures { result ≡ true → (w : Word) × (slice_get (map word_of words.now) index ≡ Some w) × (spec.is_section (class_by_text w) ≡ true) }
{
    match token_at(words, index) {
        Some(word) => is_section(word),
        None => false,
    }
}

/// Whether a section begins with the bracket at an index.
pub(crate) fn begins_section(words: &[Token<'_>], index: usize) -> bool
    ensures { result ≡ true → BeginsSection (map word_of words.now) index }
{
    match index.checked_add(1) {
        Some(next) => is_opening(words, index) && is_section_at(words, next),
        None => false,
    }
}

/// The indices of the bracket of the first section that begins inside another list of the text, and of that list's.
fn section_inside(
    alloc: Global,
    words: &[Token<'_>],
) -> Result<Option<(usize, usize)>, AllocError> {
    let mut open: Vec<usize> = Vec::new(alloc);
    let mut index: usize = 0;
    for word in words {
        match word.kind {
            Kind::Open => {
                if let [_, outer, ..] = open.as_slice()
                    && begins_section(words, index)
                {
                    return Ok(Some((index, *outer)));
                }
                open.push(index)?;
            }
            Kind::Close => {
                if open.pop().is_none() {
                    return Ok(None);
                }
            }
            _ => {}
        }
        index = index.saturating_add(1);
    }
    Ok(None)
}

/// The bracket at an index with the word after it, where that follows at once, and else the word alone.
fn heading<'a>(text: &'a [u8], words: &[Token<'a>], index: usize) -> &'a [u8] {
    match words.get(index..) {
        Some([bracket, word, ..]) => {
            let start = if bracket.place.checked_add(1) == Some(word.place) {
                bracket.place
            } else {
                word.place
            };
            let end = word.place.saturating_add(word.text.len());
            text.get(start..end).unwrap_or(word.text)
        }
        _ => b"(",
    }
}

/// That a bracket is never closed.
fn never_closed<'a>(alloc: Global) -> Result<Said<'a>, AllocError> {
    plain_words(alloc, "this bracket is never closed")
}

/// That a bracket is never closed, and may be missing before a line.
fn missing_before<'a>(alloc: Global, line: usize) -> Result<Said<'a>, AllocError> {
    never_closed(alloc)?.helped(
        alloc,
        &[
            Part::Words("a "),
            Part::Name(b")"),
            Part::Words(" may be missing before line "),
            Part::Number(line as u64),
        ],
    )
}

/// A bracket that is never closed, where the section of an index begins inside the list of another.
fn unclosed_before<'a>(
    alloc: Global,
    source: &'a Source<'a>,
    words: &[Token<'a>],
    inner: usize,
    outer: usize,
) -> Result<Said<'a>, AllocError> {
    let (Some(bracket), Some(around)) = (words.get(inner), words.get(outer)) else {
        return never_closed(alloc);
    };
    let text = source.lines.text();
    let spot = spot_at(source, bracket.place);
    let line = source.lines.position(spot.place).line;
    let outer_line = source.lines.position(around.place.min(text.len())).line;
    missing_before(alloc, line)?.noted(
        alloc,
        spot,
        &[
            Part::Name(heading(text, words, inner)),
            Part::Words(" begins here, and "),
            Part::Name(heading(text, words, outer)),
            Part::Words(" of line "),
            Part::Number(outer_line as u64),
            Part::Words(" is still open"),
        ],
    )
}

/// A bracket that is never closed.
pub(crate) fn unclosed<'a>(alloc: Global, source: &'a Source<'a>) -> Result<Said<'a>, AllocError> {
    let words = words_or_none(alloc, source.lines.text())?;
    match section_inside(alloc, words.as_slice())? {
        Some((inner, outer)) => unclosed_before(alloc, source, words.as_slice(), inner, outer),
        None => never_closed(alloc),
    }
}

/// The index of the closing bracket that completes the text.
fn completing(words: &[Token<'_>]) -> Option<usize> {
    let mut open: usize = 0;
    let mut index: usize = 0;
    for word in words {
        match word.kind {
            Kind::Open => open = open.saturating_add(1),
            Kind::Close => match open {
                0 => return None,
                1 => return Some(index),
                _ => open -= 1,
            },
            _ => {}
        }
        index = index.saturating_add(1);
    }
    None
}

/// The words from the bracket on that completes the text.
fn completed<'b, 'a>(words: &'b [Token<'a>]) -> Option<&'b [Token<'a>]> {
    words.get(completing(words)?..)
}

/// A bracket that closes nothing, in a text of these words.
fn extra_after<'a>(
    alloc: Global,
    source: &'a Source<'a>,
    words: &[Token<'a>],
) -> Result<Said<'a>, AllocError> {
    let said = plain_words(alloc, "this bracket closes nothing")?;
    let Some([bracket, after @ ..]) = completed(words) else {
        return Ok(said);
    };
    let spot = spot_at(source, bracket.place);
    let noted = if after.iter().any(|word| is_section(word)) {
        "the text is complete here, and sections follow: this bracket may be the one too many"
    } else {
        "the text is complete here"
    };
    said.noted_by(alloc, spot, noted)
}

/// A bracket that closes nothing.
pub(crate) fn extra_close<'a>(
    alloc: Global,
    source: &'a Source<'a>,
) -> Result<Said<'a>, AllocError> {
    let words = words_or_none(alloc, source.lines.text())?;
    extra_after(alloc, source, words.as_slice())
}
