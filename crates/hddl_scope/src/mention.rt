//! Names and variables as they are compared, each with its place.
ghost use Rattle.std.specs.Prelude.{◌≡◌, IfOk};
ghost use Rattle.hddl_meaning.specs.Mentions.{mention_of, variable_mention};

use hddl_names::{Folded, fold};
use hddl_words::{Name, Variable};
use std::alloc::{AllocError, Global};
use std::marker::Model;

/// A name or a variable in lower case, with its place. Contracts see the text with the place.
#[derive(Drop)]
pub struct Mention<'a> {
    text: Folded<'a>,
    place: usize,
}

impl<'a> Model for Mention<'a> {
    ghost Value = { Rattle.hddl_meaning.specs.Mentions.Mention };

    ghost view = { λ mention. record { text = mention.text; place = mention.place } };
}

impl<'a> Mention<'a> {
    /// A name as it is compared.
    pub fn of_name(alloc: Global, name: &'a Name) -> Result<Mention<'a>, AllocError>
        ensures { IfOk result (λ mention. mention ≡ mention_of name.now) }
    {
        let text = fold(alloc, name.text())?;
        Ok(Mention {
            text,
            place: name.place(),
        })
    }

    /// A variable as it is compared.
    pub(crate) fn of_variable(
        alloc: Global,
        variable: &'a Variable,
    ) -> Result<Mention<'a>, AllocError>
        ensures { IfOk result (λ mention. mention ≡ variable_mention variable.now) }
    {
        let text = fold(alloc, variable.text())?;
        Ok(Mention {
            text,
            place: variable.place(),
        })
    }

    /// Its bytes in lower case.
    pub fn text(&self) -> &[u8]
        ensures { result.now ≡ self.now.text }
    {
        self.text.as_slice()
    }

    /// The byte offset of its first byte in the text.
    pub fn place(&self) -> usize
        ensures { result ≡ self.now.place }
    {
        self.place
    }
}
