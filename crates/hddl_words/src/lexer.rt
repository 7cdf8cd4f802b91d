//! Cuts a text into words.

ghost use Rattle.std.specs.Prelude.{◌≡◌, ◌≢◌, [], map, IfOk, ◌<◌, ◌≤◌, ◌+◌, length, take, drop, MatchResult, OnOk, IfErr};
ghost use Rattle.hddl_words.specs.Faults.{WordFaultAt, HasNoWordFault, IsLeftmost};
ghost use Rattle.std.specs.List.{prefix_len};
ghost use Rattle.hddl_words.specs.Standing.{AreWords};
ghost use Rattle.hddl_words.specs.Words as spec;
ghost use Rattle.hddl_words.specs.Words.{words, word_of, Lexes};

use crate::class::class_by;
use crate::fault::TextFault;
use crate::token::{Kind, Token};
use std::alloc::Global;

/// The most bytes of a text.
pub const MAX_BYTES: usize = 16_777_216;

/// The words of a text, in order, each with its place and its bytes, which are a slice of the text.
///
/// A text of more than 16,777,216 bytes is refused as `TooLong`. Else the first fault from the left is answered:
/// `NotAscii` or `BadWord`. Words are those of HDDL (Höller et al., AAAI 2020): brackets, and runs of other printable
/// bytes, between blanks and comments.
pub fn lex<'a>(alloc: Global, text: &'a [u8]) -> Result<Vec<Token<'a>>, TextFault>
    // The words, or the first fault, unless memory runs out.
    ensures words { Lexes result (words text.now) }
    // They are the words that begin in the text, byte by byte.
    ensures all { IfOk result (λ tokens. AreWords [] text.now (map word_of tokens.items)) }
    // Words are found only where there is no fault.
    ensures ok { OnOk result (HasNoWordFault text.now) }
    // Each fault stands at its place, and it is `TooLong`, `NotAscii`, `BadWord` or `OutOfMemory`.
    ensures fault { IfErr result (WordFaultAt text.now) }
    ensures leftmost { IfErr result (IsLeftmost text.now) }
{
    if text.len() > MAX_BYTES {
        return Err(TextFault::TooLong(MAX_BYTES));
    }
    let mut tokens = Vec::new(alloc);
    let mut place = 0;
    while place < text.len() {
        if is_blank(text[place]) {
            place += 1;
        } else if text[place] == b';' {
            place += comment_len(&text[place..]);
        } else {
            let token = token_at(text, place)?;
            place += token.text.len();
            tokens.push(token)?;
        }
    }
    Ok(tokens)
}

fn is_blank(byte: u8) -> bool
    ensures { result ≡ spec.is_blank byte }
{
    byte == 9 || byte == 10 || byte == 12 || byte == 13 || byte == 32
}

/// A byte of a word other than a bracket.
fn is_word_byte(byte: u8) -> bool
    ensures { result ≡ spec.is_word_byte byte }
{
    33 <= byte && byte <= 126 && !(byte == b'(' || byte == b')' || byte == b';')
}

/// How many bytes a comment at the front takes, without its line feed.
fn comment_len(bytes: &[u8]) -> usize
    ensures value { result ≡ prefix_len spec.is_comment_byte bytes.now }
    ensures within { result ≤ length bytes.now }
{
    let mut len = 0;
    while len < bytes.len() && bytes[len] != b'\n' {
        len += 1;
    }
    len
}

fn run_len(bytes: &[u8]) -> usize
    ensures value { result ≡ prefix_len spec.is_word_byte bytes.now }
    ensures within { result ≤ length bytes.now }
{
    let mut len = 0;
    while len < bytes.len() && is_word_byte(bytes[len]) {
        len += 1;
    }
    len
}

/// The word at a place that holds neither a blank nor a comment.
fn token_at<'a>(text: &'a [u8], place: usize) -> Result<Token<'a>, TextFault>
    requires { place < length text.now }
    ensures word { MatchResult result
        (λ token. spec.word_at place (drop place text.now) ≡ Ok (word_of token))
        (λ fault. spec.word_at place (drop place text.now) ≡ Err fault) }
    ensures within { MatchResult result
        (λ token. (0 < length token.text.now) × (place + length token.text.now ≤ length text.now))
        (λ fault. fault ≢ TextFault.OutOfMemory) }
{
    match text[place] {
        b'(' => Ok(token(text, place, 1, Kind::Open)),
        b')' => Ok(token(text, place, 1, Kind::Close)),
        first => {
            if !is_word_byte(first) {
                return Err(TextFault::NotAscii(place));
            }
            let len = run_len(&text[place..]);
            match kind_of(first, len) {
                Some(kind) => Ok(token(text, place, len, kind)),
                None => Err(TextFault::BadWord(place)),
            }
        }
    }
}

/// The word of this length at a place.
fn token<'a>(text: &'a [u8], place: usize, len: usize, kind: Kind) -> Token<'a>
    requires within { place + len ≤ length text.now }
    requires is_word { spec.word_at place (drop place text.now) ≡ Ok (spec.word kind place (take len (drop place text.now))) }
    ensures { word_of result ≡ spec.word kind place (take len (drop place text.now)) }
{
    let text = &text[place..place + len];
    Token {
        kind,
        class: class_by(kind, text),
        place,
        text,
    }
}

/// The kind of a word that is no bracket, by its first byte and its length.
fn kind_of(first: u8, len: usize) -> Option<Kind>
    ensures { result ≡ spec.kind_of first len }
{
    match first {
        b'?' => { if len > 1 { Some(Kind::Variable) } else { None } }
        b':' => { if len > 1 { Some(Kind::Keyword) } else { None } }
        b'-' | b'=' | b'<' => { if len > 1 { None } else { Some(Kind::Sign) } }
        _ => Some(Kind::Name),
    }
}
