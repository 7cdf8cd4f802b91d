//! Names numbered in the order of their first declarations.
ghost use Rattle.std.specs.Prelude.{◌≡◌, ℕ, [], map, length, slice_get, option_map, IfOk, IfSome, OnOk, OnErr};
ghost use Rattle.std.specs.List.{position, IsDistinct};
ghost use Rattle.htn_model.specs.PlanWord.{IsName};
ghost use Rattle.hddl_meaning.specs.Mentions.{folded};
ghost use Rattle.hddl_meaning.specs.Names.{is_same_text, with_name, number_in};

use crate::text::{fold_into, has_capital};
use indexmap::IndexSet;
use std::alloc::{AllocError, AllocFailed, Global};
use std::marker::Model;

/// Different names in lower case, as a plan file can hold them, each with its position as its number. Contracts see the
/// list of the names.
pub struct Names {
    texts: IndexSet<Vec<u8>>,
}

impl Drop for Names {
    fn drop(self) {
        let Names { texts: _ } = self;
    }
}

impl Model for Names {
    ghost use Rattle.std.specs.Prelude.{List};
    ghost use Rattle.hddl_meaning.specs.Mentions.{Text};
    ghost use Rattle.hddl_names.specs.Texts.{AreNames, texts_of};

    ghost Value = { List Text };

    ghost view = { λ names. texts_of names.texts.keys };

    ghost invariant = { λ names. AreNames (texts_of names.texts.keys) };
}

impl Names {
    /// No names.
    pub fn new(alloc: Global) -> Names
        ensures { result ≡ [] }
    {
        Names {
            texts: IndexSet::new(alloc),
        }
    }

    /// How many names there are.
    pub fn len(&self) -> usize
        ensures value { result ≡ length self.now }
        ensures different { IsDistinct is_same_text self.now }
    {
        self.texts.len()
    }

    /// The name of that number.
    pub fn get(&self, number: usize) -> Option<&[u8]>
        ensures value { option_map (λ text. text.now) result ≡ slice_get self.now number }
        ensures name { IfSome result (λ text. IsName text.now) }
    {
        match self.texts.get_index(number) {
            Some(text) => Some(text.as_slice()),
            None => None,
        }
    }

    /// The number of a name.
    pub fn number_of(&self, text: &[u8]) -> Option<usize>
        ensures { result ≡ position (is_same_text text.now) self.now }
    {
        self.texts.get_index_of(text)
    }

    /// The number of a name as a text has it, which is folded into the buffer if it has capital letters, or an error
    /// where memory was refused.
    pub fn number_as_written(
        &self,
        buffer: &mut Vec<u8>,
        bytes: &[u8],
    ) -> Result<Option<usize>, AllocError>
        ensures { IfOk result (λ number. number ≡ position (is_same_text (folded bytes.now)) self.now) }
    {
        if !has_capital(bytes) {
            return Ok(self.number_of(bytes));
        }
        fold_into(buffer, bytes)?;
        Ok(self.number_of(buffer.as_slice()))
    }

    /// The number of a name as a text has it, 0 where there is no such name, or an error where memory was refused.
    pub fn number_or_zero(&self, buffer: &mut Vec<u8>, bytes: &[u8]) -> Result<usize, AllocError>
        ensures { IfOk result (λ number. number ≡ number_in self.now (folded bytes.now)) }
    {
        let number = self.number_as_written(buffer, bytes)?;
        Ok(number.unwrap_or(0))
    }

    /// Gives a name the next number, unless it has one. Where memory is refused, the names are as they were.
    pub fn declare(&mut self, text: Vec<u8>) -> Result<(), AllocFailed<Vec<u8>>>
        requires { IsName text.items }
        ensures ok { OnOk result (self.new ≡ with_name self.old text.items) }
        ensures err { OnErr result (self.new ≡ self.old) }
    {
        let _ = self.texts.insert(text)?;
        Ok(())
    }
}
