//! Variables, each with its place in the text.

ghost use Rattle.std.specs.Prelude.{◌≡◌, IfOk, IsTrue};
ghost use Rattle.hddl_words.specs.declared.class.Class.TheVariants as class;
ghost use Rattle.hddl_words.specs.Class.{class_of as class_of_word};
ghost use Rattle.hddl_words.specs.Names.{is_variable, variable_of};
ghost use Rattle.hddl_words.specs.Words.{word_of};

use crate::token::Token;
use smallvec::SmallVec;
use std::alloc::{AllocError, Global};
use std::marker::Model;

/// A variable as it is written, its `?` included.
#[derive(Debug)]
pub struct Variable {
    place: usize,
    /// Most are short, and need no allocation.
    text: SmallVec<u8, 16>,
}

impl Drop for Variable {
    fn drop(self) {
        let Variable { place: _, text: _ } = self;
    }
}

impl Model for Variable {
    ghost Value = { Rattle.hddl_words.specs.Names.Variable };

    ghost view = { λ variable. record { place = variable.place; text = variable.text.items } };

    ghost invariant = { λ variable. IsTrue (is_variable variable.text.items) };
}

impl Variable {
    /// A copy of a word that is a variable, or an error where memory was refused.
    pub fn new(alloc: Global, token: &Token<'_>) -> Result<Variable, AllocError>
        requires { class_of_word (word_of token.now) ≡ class.Variable }
        ensures { IfOk result (λ variable. variable ≡ variable_of (word_of token.now)) }
    {
        let text = SmallVec::from_slice(alloc, token.text)?;
        Ok(Variable {
            place: token.place,
            text,
        })
    }

    /// The byte offset of its first byte in the text.
    pub fn place(&self) -> usize
        ensures { result ≡ self.now.place }
    {
        self.place
    }

    /// Its bytes as they are written, its `?` included.
    pub fn text(&self) -> &[u8]
        ensures value { result.now ≡ self.now.text }
        ensures variable { IsTrue (is_variable self.now.text) }
    {
        self.text.as_slice()
    }
}
