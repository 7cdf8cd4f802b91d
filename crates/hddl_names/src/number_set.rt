//! Sets of small numbers, a bit for each number.
ghost use Rattle.std.specs.Prelude.{◌≡◌, ◌||◌, ◌≤◌, ◌↔◌, ℕ, [], eqb, true, length, get_or, IsTrue, OnOk, OnErr};
ghost use Rattle.hddl_names.specs.NumberSets.{has};

use std::alloc::{AllocError, Global};
use std::marker::Model;

/// A set of numbers. It takes a bit for each number up to the largest. Contracts see its words of 64 bits, which `has`
/// reads.
#[derive(Drop)]
pub(crate) struct NumberSet {
    words: Vec<u64>,
}

impl Model for NumberSet {
    ghost use Rattle.std.specs.Prelude.{List, ℕ};

    ghost Value = { List ℕ };

    ghost view = { λ set. set.words.items };
}

impl NumberSet {
    /// The empty set.
    pub(crate) fn new(alloc: Global) -> NumberSet
        ensures { result ≡ [] }
    {
        NumberSet {
            words: Vec::new(alloc),
        }
    }

    /// A word of 64 bits, 0 past the last one.
    fn word(&self, k: usize) -> u64
        ensures { result ≡ get_or self.now k 0 }
    {
        self.words.get(k).copied().unwrap_or(0)
    }

    /// Grows the set to at least this number of words; its numbers stay.
    fn widen(&mut self, count: usize) -> Result<(), AllocError>
        ensures len { OnOk result (count ≤ length self.new) }
        ensures same { (k : ℕ) → get_or self.new k 0 ≡ get_or self.old k 0 }
    {
        let more = count.saturating_sub(self.words.len());
        self.words.reserve_exact(more)?;
        for k in self.words.len()..count {
            let _k = k;
            self.words.push(0)?;
        }
        Ok(())
    }

    /// Whether the set has a number.
    pub(crate) fn contains(&self, number: usize) -> bool
        ensures { result ≡ has self.now number }
    {
        (self.word(number / 64) >> (number % 64)) & 1 == 1
    }

    /// Adds a number. Where memory is refused, the set has what it had.
    pub(crate) fn insert(&mut self, number: usize) -> Result<(), AllocError>
        ensures ok { OnOk result ((x : ℕ) → has self.new x ≡ (has self.old x || eqb x number)) }
        ensures err { OnErr result ((x : ℕ) → has self.new x ≡ has self.old x) }
    {
        let at = number / 64;
        self.widen(at + 1)?;
        self.words[at] |= 1 << (number % 64);
        Ok(())
    }

    /// Adds all numbers of another set. Where memory is refused, the set has what it had.
    pub(crate) fn add_all(&mut self, other: &NumberSet) -> Result<(), AllocError>
        ensures ok { OnOk result ((x : ℕ) → has self.new x ≡ (has self.old x || has other.now x)) }
        ensures err { OnErr result ((x : ℕ) → has self.new x ≡ has self.old x) }
    {
        self.widen(other.words.len())?;
        for k in 0..other.words.len() {
            let more = other.words[k];
            self.words[k] |= more;
        }
        Ok(())
    }

    /// Whether another set has all numbers of this one.
    pub(crate) fn is_within(&self, other: &NumberSet) -> bool
        ensures { IsTrue result ↔ ((x : ℕ) → has self.now x ≡ true → has other.now x ≡ true) }
    {
        for k in 0..self.words.len() {
            if self.word(k) | other.word(k) != other.word(k) {
                return false;
            }
        }
        true
    }

    /// Whether the two sets have a number in common.
    pub(crate) fn meets(&self, other: &NumberSet) -> bool
        ensures { IsTrue result ↔ ((x : ℕ) × (has self.now x ≡ true) × (has other.now x ≡ true)) }
    {
        for k in 0..self.words.len() {
            if self.word(k) & other.word(k) != 0 {
                return true;
            }
        }
        false
    }
}
