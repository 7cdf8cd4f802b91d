//! A cursor over the words of a text.

ghost use Rattle.std.specs.Prelude.{◌≡◌, ◌+◌, suc, true, false, length, map, MatchResult, OnOk};
ghost use Rattle.hddl_words.specs.Reading as spec;
ghost use Rattle.hddl_words.specs.Words.{word_of};
ghost use Rattle.hddl_words.specs.declared.cursor.Stop.TheVariants.{Refused};

use crate::token::Token;
use std::alloc::AllocError;
use std::marker::Model;

/// Why the reading of a text stopped.
#[derive(Clone, Copy, Debug)]
pub enum Stop {
    /// Memory was refused.
    Memory,
    /// A word is refused: whether what it means is left out by name, and how many words there are from it on.
    Refused(bool, usize),
}

impl From<AllocError> for Stop {
    ghost use Rattle.std.specs.Prelude.{◌≡◌};
    ghost use Rattle.hddl_words.specs.declared.cursor.Stop.TheVariants.{Memory};

    ghost from_gives = { λ _ e. e ≡ Memory };

    fn from(_error: AllocError) -> Stop {
        Stop::Memory
    }
}

/// The words that are left to read. Contracts see it as their list.
#[derive(Drop)]
pub struct Cursor<'a> {
    words: &'a [Token<'a>],
}

impl<'a> Model for Cursor<'a> {
    ghost use Rattle.std.specs.Prelude.{List, map};
    ghost use Rattle.hddl_words.specs.Words.{Word, word_of};

    ghost Value = { List Word };

    ghost view = { λ c. map word_of c.words.now };
}

impl<'a> Cursor<'a> {
    /// A cursor before the first of these words.
    pub fn new(words: &'a [Token<'a>]) -> Cursor<'a>
        ensures { result ≡ map word_of words.now }
    {
        Cursor { words }
    }

    /// The next word, which is then read. Where none is left, nothing is refused but the end of the text.
    pub fn next(&mut self) -> Result<Token<'a>, Stop>
        ensures word { MatchResult result
            (λ token. spec.take_word self.old ≡ spec.read (word_of token) self.new)
            (λ stop. (stop ≡ Refused false 0) × (spec.take_word self.old ≡ spec.failed stop)) }
        ensures shorter { OnOk result (length self.old ≡ length self.new + 1) }
    {
        match self.words {
            [] => Err(Stop::Refused(false, 0)),
            [first, rest @ ..] => {
                self.words = rest;
                Ok(*first)
            }
        }
    }

    /// Refuses the word that was read last, which isn't what the grammar has there.
    pub fn refuse(&self) -> Stop
        ensures { result ≡ Refused false (suc (length self.now)) }
    {
        Stop::Refused(false, self.words.len() + 1)
    }

    /// Refuses the word that was read last, which is of HDDL that is left out.
    pub fn refuse_unsupported(&self) -> Stop
        ensures { result ≡ Refused true (suc (length self.now)) }
    {
        Stop::Refused(true, self.words.len() + 1)
    }

    /// Whether no word is left; the next one is refused.
    pub fn end(&self) -> Result<(), Stop>
        ensures { MatchResult result (λ _. spec.end self.now ≡ spec.read tt self.now) (λ stop. spec.end self.now ≡ spec.failed stop) }
    {
        if self.words.is_empty() {
            Ok(())
        } else {
            Err(Stop::Refused(false, self.words.len()))
        }
    }
}
