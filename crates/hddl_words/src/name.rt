//! Names, each with its place in the text.

ghost use Rattle.std.specs.Prelude.{◌≡◌, IfOk, IsTrue};
ghost use Rattle.hddl_words.specs.declared.class.Class.TheVariants as class;
ghost use Rattle.hddl_words.specs.Class.{class_of as class_of_word};
ghost use Rattle.hddl_words.specs.Names.{is_name, name_of};
ghost use Rattle.hddl_words.specs.Words.{word_of};

use crate::token::Token;
use smallvec::SmallVec;
use std::alloc::{AllocError, Global};
use std::marker::Model;

/// A name of the grammar, which is not reserved, as it is written.
#[derive(Debug)]
pub struct Name {
    place: usize,
    /// Most are short, and need no allocation.
    text: SmallVec<u8, 16>,
}

impl Drop for Name {
    fn drop(self) {
        let Name { place: _, text: _ } = self;
    }
}

impl Model for Name {
    ghost Value = { Rattle.hddl_words.specs.Names.Name };

    ghost view = { λ name. record { place = name.place; text = name.text.items } };

    ghost invariant = { λ name. IsTrue (is_name name.text.items) };
}

impl Name {
    /// A copy of a word that is a name, or an error where memory was refused.
    pub fn new(alloc: Global, token: &Token<'_>) -> Result<Name, AllocError>
        requires { class_of_word (word_of token.now) ≡ class.Name }
        ensures { IfOk result (λ name. name ≡ name_of (word_of token.now)) }
    {
        let text = SmallVec::from_slice(alloc, token.text)?;
        Ok(Name {
            place: token.place,
            text,
        })
    }

    /// The byte offset of its first byte in the text.
    pub fn place(&self) -> usize
        ensures { result ≡ self.now.place }
    {
        self.place
    }

    /// Its bytes as they are written, with capital letters left as they are.
    pub fn text(&self) -> &[u8]
        ensures value { result.now ≡ self.now.text }
        ensures name { IsTrue (is_name self.now.text) }
    {
        self.text.as_slice()
    }
}
