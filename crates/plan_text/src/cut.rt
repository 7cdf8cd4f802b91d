//! Texts cut into lines, and lines into words.

ghost use Rattle.std.specs.Prelude.{◌≡◌, ◌+◌, ◌≤◌, [], ◌∷◌, length, take, position, not, MatchOption, IfOk};
ghost use Rattle.htn_model.specs.PlanWord.{is_blank as is_blank_byte};
ghost use Rattle.plan_text.specs.Piece as spec;
ghost use Rattle.plan_text.specs.Seen.{seen, seen_all};

use crate::piece::Piece;
use std::alloc::{AllocError, Global};
use std::marker::Model;

/// The most bytes of a plan text.
pub const MAX_BYTES: usize = 16_777_216;

/// The lines of a text that are left.
#[derive(Drop)]
pub(crate) struct Lines<'a> {
    place: usize,
    rest: &'a [u8],
    /// How many lines are left at most.
    count: usize,
}

impl<'a> Model for Lines<'a> {
    ghost use Rattle.std.specs.Prelude.{List, ◌+◌, ◌≤◌, length, take};
    ghost use Rattle.plan_text.specs.Piece.{Piece, pieces, is_line_feed, max_bytes};

    ghost Value = { List Piece };

    ghost view = { λ s. take s.count (pieces is_line_feed s.place s.rest.now) };

    ghost invariant = { λ s. s.place + length s.rest.now ≤ max_bytes };
}

impl<'a> Lines<'a> {
    pub fn new(text: &'a [u8]) -> Lines<'a>
        requires { length text.now ≤ spec.max_bytes }
        ensures { result ≡ spec.lines text.now }
    {
        Lines {
            place: 0,
            rest: text,
            count: text.len() + 1,
        }
    }

    pub fn next(&mut self) -> Option<Piece<'a>>
        ensures { MatchOption result (self.old ≡ []) (λ line. self.old ≡ seen line ∷ self.new) }
    {
        if self.count == 0 {
            return None;
        }
        let place = self.place;
        let text = self.rest;
        match line_feed_in(text) {
            Some(len) => {
                self.place += len + 1;
                self.rest = &text[len + 1..];
                self.count -= 1;
                Some(Piece {
                    place,
                    bytes: &text[..len],
                })
            }
            None => {
                self.count = 0;
                Some(Piece { place, bytes: text })
            }
        }
    }

    /// The lines that are left, to be gone over once more.
    pub fn again(&self) -> Lines<'a>
        ensures same { result ≡ self.now }
        ensures few { length result ≤ 16777217 }
    {
        Lines {
            place: self.place,
            rest: self.rest,
            count: self.count,
        }
    }

    /// At most this many lines.
    pub fn limited(self, count: usize) -> Lines<'a>
        ensures { result ≡ take count self.entry }
    {
        Lines {
            place: self.place,
            rest: self.rest,
            count: count.min(self.count),
        }
    }
}

/// Where the first line feed stands.
fn line_feed_in(bytes: &[u8]) -> Option<usize>
    ensures { result ≡ position spec.is_line_feed bytes.now }
{
    bytes.iter().position(|byte| *byte == b'\n')
}

/// The words of a line that are left.
#[derive(Drop)]
pub(crate) struct Words<'a> {
    place: usize,
    rest: &'a [u8],
}

impl<'a> Model for Words<'a> {
    ghost use Rattle.std.specs.Prelude.{List, ◌+◌, ◌≤◌, length};
    ghost use Rattle.plan_text.specs.Piece.{Piece, words_at, max_bytes};

    ghost Value = { List Piece };

    ghost view = { λ s. words_at s.place s.rest.now };

    ghost invariant = { λ s. s.place + length s.rest.now ≤ max_bytes };
}

impl<'a> Words<'a> {
    pub fn new(line: Piece<'a>) -> Words<'a>
        ensures { result ≡ spec.words (seen line.entry) }
    {
        Words {
            place: line.place,
            rest: line.bytes,
        }
    }

    pub fn next(&mut self) -> Option<Piece<'a>>
        ensures { MatchOption result ((self.old ≡ []) × (self.new ≡ [])) (λ word. self.old ≡ seen word ∷ self.new) }
    {
        let blanks = filled_in(self.rest)?;
        let place = self.place + blanks;
        let text = &self.rest[blanks..];
        match blank_in(text) {
            Some(len) => {
                self.place = place + len;
                self.rest = &text[len..];
                Some(Piece {
                    place,
                    bytes: &text[..len],
                })
            }
            None => {
                self.place = place;
                self.rest = &[];
                Some(Piece { place, bytes: text })
            }
        }
    }
}

pub(crate) fn is_blank(byte: u8) -> bool
    ensures { result ≡ is_blank_byte byte }
{
    byte == 9 || byte == 12 || byte == 13 || byte == b' ' || byte == b'(' || byte == b')'
}

/// Where the first blank stands.
fn blank_in(bytes: &[u8]) -> Option<usize>
    ensures { result ≡ position is_blank_byte bytes.now }
{
    bytes.iter().position(|byte| is_blank(*byte))
}

/// Where the first byte stands that is no blank.
fn filled_in(bytes: &[u8]) -> Option<usize>
    ensures { result ≡ position (λ byte. not (is_blank_byte byte)) bytes.now }
{
    bytes.iter().position(|byte| !is_blank(*byte))
}

/// The words of a line, in its order.
pub(crate) fn words_of<'a>(alloc: Global, line: Piece<'a>) -> Result<Vec<Piece<'a>>, AllocError>
    ensures { IfOk result (λ found. seen_all found.items ≡ spec.words (seen line.entry)) }
{
    let mut found = Vec::new(alloc);
    let mut words = Words::new(line);
    while let Some(word) = words.next() {
        found.push(word)?;
    }
    Ok(found)
}
