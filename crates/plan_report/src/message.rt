//! Messages that own their words. A message notes that memory was refused for a part of it, so that those who write it
//! have no error at each part; the error comes when the message is read.

use diagnostics::Part;
use std::alloc::{AllocError, Global};
use std::str;

/// A part of a message.
#[derive(Drop)]
pub(crate) enum Bit {
    /// Words without backticks.
    Plain(Vec<u8>),
    /// Words of a text.
    Name(Vec<u8>),
    Number(u64),
}

/// A message that owns its words.
#[derive(Drop)]
pub(crate) struct Message {
    alloc: Global,
    bits: Vec<Bit>,
    /// Whether memory was refused for a part.
    pub(crate) is_refused: bool,
}

impl Message {
    pub(crate) fn new(alloc: Global) -> Message {
        Message {
            alloc,
            bits: Vec::new(alloc),
            is_refused: false,
        }
    }

    /// Adds a part.
    fn add(&mut self, bit: Bit) {
        if self.bits.push(bit).is_err() {
            self.is_refused = true;
        }
    }

    /// The message with words after it.
    pub(crate) fn say(self, words: &str) -> Message {
        self.plain(words.as_bytes())
    }

    /// The message with bytes after it, without backticks.
    pub(crate) fn plain(self, bytes: &[u8]) -> Message {
        let mut message = self;
        match Vec::from_slice(message.alloc, bytes) {
            Ok(bytes) => message.add(Bit::Plain(bytes)),
            Err(_) => message.is_refused = true,
        }
        message
    }

    /// The message with a name after it.
    pub(crate) fn name(self, bytes: &[u8]) -> Message {
        let mut message = self;
        match Vec::from_slice(message.alloc, bytes) {
            Ok(bytes) => message.add(Bit::Name(bytes)),
            Err(_) => message.is_refused = true,
        }
        message
    }

    /// The message with a number after it.
    pub(crate) fn number(self, number: u64) -> Message {
        let mut message = self;
        message.add(Bit::Number(number));
        message
    }

    /// The message with a count of a word after it, as `1 subtask` or `2 subtasks`.
    pub(crate) fn count(self, count: usize, word: &str) -> Message {
        let counted = self.number(count as u64).say(" ").say(word);
        if count == 1 {
            counted
        } else {
            counted.say("s")
        }
    }
}

/// A part as it is handed to a report.
fn part_of(bit: &Bit) -> Part<'_> {
    match bit {
        Bit::Plain(bytes) => match str::from_utf8(bytes.as_slice()) {
            Ok(words) => Part::Words(words),
            Err(_) => Part::Words("?"),
        },
        Bit::Name(bytes) => Part::Name(bytes.as_slice()),
        Bit::Number(number) => Part::Number(*number),
    }
}

/// The parts of a message. An error where memory was refused for one, or is refused for these.
pub(crate) fn parts_of<'a>(
    alloc: Global,
    message: &'a Message,
) -> Result<Vec<Part<'a>>, AllocError> {
    if message.is_refused {
        return Err(AllocError);
    }
    let mut parts = Vec::with_capacity(alloc, message.bits.len())?;
    for bit in message.bits.as_slice() {
        parts.push(part_of(bit))?;
    }
    Ok(parts)
}
