//! Tallies by numbers.
ghost use Rattle.std.specs.Prelude.{◌≡◌, ℕ, ◌<◌, ◌++◌, List, length, slice_get, slice_index_or, Some, IfOk, IfSome, IfNone, OnOk};
ghost use Rattle.tests.specs.Tallies.{AreDistinct, is_written, nothing, written};
ghost use Rattle.tests.specs.declared.tallies.Tally.{Tally};

use crate::tallies::{Numbered, Reached, Tally};
use indexmap::IndexSet;
use std::alloc::{AllocError, Global};

/// The tallies that have numbers.
#[derive(Drop)]
pub struct Tallies {
    pub tallies: IndexSet<Tally>,
}

impl Tallies {
    pub fn new(alloc: Global) -> Tallies
        ensures { AreDistinct result.tallies.keys }
    {
        Tallies {
            tallies: IndexSet::new(alloc),
        }
    }

    /// The tally of a number.
    pub fn tally(&self, at: Numbered) -> Tally
        requires { at.number < length self.now.tallies.keys }
        ensures { result ≡ slice_index_or self.now.tallies.keys at.number nothing }
    {
        self.tallies.as_slice()[at.number]
    }

    /// The tally as a worker hands it back.
    pub fn reached(&self, tally: Tally) -> Reached
        ensures allowed { is_written self.now.tallies.keys result }
        ensures same { written self.now.tallies.keys result ≡ tally }
    {
        match self.find(&tally) {
            Some(numbered) => Reached::Known(numbered),
            None => Reached::New(tally),
        }
    }

    /// The number of a tally, if it has one.
    pub fn find(&self, tally: &Tally) -> Option<Numbered>
        ensures some { IfSome result (λ c. slice_get self.now.tallies.keys c.number ≡ Some tally.now) }
        ensures none { IfNone result ((number : ℕ) → slice_get self.now.tallies.keys number ≡ Some tally.now → ⊥) }
    {
        let number = self.tallies.get_index_of(tally)?;
        Some(Numbered { number })
    }

    /// The number of a tally, which is added if it is new.
    pub fn number(&mut self, tally: Tally) -> Result<Numbered, AllocError>
        ensures distinct { OnOk result (AreDistinct self.new.tallies.keys) }
        ensures grown { OnOk result ((more : List Tally) × (self.new.tallies.keys ≡ self.old.tallies.keys ++ more)) }
        ensures number { IfOk result (λ c. slice_get self.new.tallies.keys c.number ≡ Some tally) }
    {
        let (number, _) = self.tallies.insert_full(tally)?;
        Ok(Numbered { number })
    }
}
