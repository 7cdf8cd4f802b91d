//! The lines of a text, by a table of its line feeds.

ghost use Rattle.std.specs.Prelude.{◌≡◌, ℕ, ◌+◌, ◌≤◌, ◌<◌, ◌^◌, IfOk, IfSome, IfNone, count_by, length, take, nat_lt};
ghost use Rattle.diagnostics.specs.Places.{position, is_line_feed, line_start, line_end, start_of};
ghost use Rattle.diagnostics.specs.Shown.{excerpt, seen};

use crate::excerpt::{Excerpt, excerpt_of};
use crate::position::Position;
use std::alloc::{AllocError, Global};
use std::marker::Model;

/// A text with the places of its line feeds. Contracts see it as the bytes of the text.
#[derive(Drop)]
pub struct Lines<'a> {
    text: &'a [u8],
    feeds: Vec<usize>,
}

impl<'a> Model for Lines<'a> {
    ghost use Rattle.std.specs.Prelude.{◌≡◌, ℕ, List};
    ghost use Rattle.diagnostics.specs.Places.{feeds_from};

    ghost Value = { List ℕ };

    ghost view = { λ lines. lines.text.now };

    ghost invariant = { λ lines. lines.feeds.items ≡ feeds_from 0 lines.text.now };
}

impl<'a> Lines<'a> {
    /// The lines of a text, or an error where memory was refused. Takes one pass over the text, and eight bytes for
    /// each line feed.
    pub fn new(alloc: Global, text: &'a [u8]) -> Result<Lines<'a>, AllocError>
        ensures { IfOk result (λ lines. lines ≡ text.now) }
    {
        let mut feeds = Vec::new(alloc);
        for (place, byte) in text.iter().enumerate() {
            if *byte == b'\n' {
                feeds.push(place)?;
            }
        }
        Ok(Lines { text, feeds })
    }

    /// The bytes of the text.
    pub fn text(&self) -> &'a [u8]
        ensures { result.now ≡ self.now }
    {
        self.text
    }

    /// The line and the column of a byte, or of the end of the text.
    pub fn position(&self, place: usize) -> Position
        requires { place ≤ length self.now }
        ensures { result ≡ position self.now place }
    {
        let _len = self.len();
        let feeds = self.feeds_before(place);
        Position {
            line: feeds + 1,
            column: place - self.start(feeds) + 1,
        }
    }

    /// The place at a line and a column: that of a byte, or the end of the text.
    pub fn place_of(&self, sought: Position) -> Option<usize>
        ensures found { IfSome result (λ place. (place ≤ length self.now) × (position self.now place ≡ sought)) }
        ensures none { IfNone result ((place : ℕ) → place ≤ length self.now → position self.now place ≡ sought → ⊥) }
    {
        let len = self.len();
        let feeds = sought.line.checked_sub(1)?;
        let before = sought.column.checked_sub(1)?;
        if feeds > self.feeds() {
            return None;
        }
        let place = self.start(feeds).checked_add(before)?;
        if place <= len && self.position(place) == sought {
            Some(place)
        } else {
            None
        }
    }

    /// The part of a place's line that is shown around it: all of a line of at most 120 bytes, and else 120 bytes, 80
    /// of them before the place where there are as many.
    pub fn excerpt(&self, place: usize) -> Excerpt<'a>
        requires { place ≤ length self.now }
        ensures { seen result ≡ excerpt self.now place }
    {
        let feeds = self.feeds_before(place);
        let start = self.start(feeds);
        let end = self.end(start, feeds);
        let text = self.text;
        excerpt_of(&text[start..end], place - start)
    }

    /// How many line feeds stand before a place.
    fn feeds_before(&self, place: usize) -> usize
        requires { place ≤ length self.now }
        ensures { result ≡ count_by is_line_feed (take place self.now) }
    {
        self.feeds.as_slice().partition_point(
            |feed: &usize| -> bool
                ensures { result ≡ nat_lt feed.now place }
            { *feed < place },
        )
    }

    /// How many bytes the text has.
    fn len(&self) -> usize
        ensures value { result ≡ length self.now }
        ensures small { result < 2 ^ 63 }
    {
        self.text.len()
    }

    /// How many line feeds it has.
    fn feeds(&self) -> usize
        ensures { result ≡ count_by is_line_feed self.now }
    {
        self.feeds.len()
    }

    /// Where the line after the first `count` line feeds begins.
    fn start(&self, count: usize) -> usize
        requires { count ≤ count_by is_line_feed self.now }
        ensures value { result ≡ start_of self.now count }
        ensures within { result ≤ length self.now }
    {
        let _len = self.len();
        if count == 0 {
            0
        } else {
            self.feeds[count - 1] + 1
        }
    }

    /// Where that line ends: at its line feed, at a carriage return before that, or with the text.
    fn end(&self, start: usize, count: usize) -> usize
        requires begins { start ≡ start_of self.now count }
        requires within { count ≤ count_by is_line_feed self.now }
        ensures value { result ≡ line_end self.now start }
        ensures order { start ≤ result }
        ensures within { result ≤ length self.now }
    {
        let text = self.text;
        if count == self.feeds.len() {
            return text.len();
        }
        let feed = self.feeds[count];
        if feed > start && text[feed - 1] == b'\r' {
            feed - 1
        } else {
            feed
        }
    }
}
