//! Sets of atom numbers.
ghost use Rattle.std.specs.Prelude.{◌≡◌, ◌↔◌, ℕ, [], cond, not, true, IfOk, IsTrue};
ghost use Rattle.std.specs.List.{list_all};
ghost use Rattle.state_table.specs.Bits.{has, has_changed, IsBits};

use crate::bits::{Words, are_bits_in, has_bit, mixed, put_in, take_out, trim};
use smallvec::SmallVec;
use std::alloc::{AllocError, Global};
use std::hash::{Hash, Hasher};
use std::marker::Model;

/// A set of atom numbers, a bit for each. Contracts see its words of 64 bits, which `has` reads.
/// Equal sets have equal words.
#[derive(Drop)]
pub struct BitState {
    words: Words,
}

impl Model for BitState {
    ghost use Rattle.std.specs.Prelude.{List, ℕ};
    ghost use Rattle.state_table.specs.Bits.{IsBits};

    ghost Value = { List ℕ };

    ghost view = { λ s. s.words.items };

    ghost invariant = { λ s. IsBits s.words.items };
}

impl BitState {
    /// The empty set.
    pub fn new(alloc: Global) -> Self
        ensures { result ≡ [] }
    {
        BitState {
            words: SmallVec::new(alloc),
        }
    }

    /// The words, of which the last is not 0.
    pub fn words(&self) -> &[u64]
        ensures value { result.now ≡ self.now }
        ensures bits { IsBits self.now }
    {
        self.words.as_slice()
    }

    /// Whether the set has a number.
    pub fn contains(&self, number: u32) -> bool
        ensures { result ≡ has self.now number }
    {
        has_bit(self.words.as_slice(), number)
    }

    /// Whether the set has all of these numbers.
    pub fn has_all(&self, numbers: &[u32]) -> bool
        ensures { result ≡ list_all (has self.now) numbers.now }
    {
        for number in numbers {
            if !self.contains(*number) {
                return false;
            }
        }
        true
    }

    /// Whether the set has none of these numbers.
    pub fn has_none(&self, numbers: &[u32]) -> bool
        ensures { result ≡ list_all (λ x. not (has self.now x)) numbers.now }
    {
        for number in numbers {
            if self.contains(*number) {
                return false;
            }
        }
        true
    }

    /// The set without some numbers, and then with others.
    pub fn changed(&self, deletes: &[u32], adds: &[u32]) -> Result<Self, AllocError>
        ensures has { IfOk result (λ s. (x : ℕ) → has s x ≡ has_changed self.now deletes.now adds.now x) }
        ensures bits { IfOk result IsBits }
    {
        let mut words = SmallVec::from_slice(*self.words.allocator(), self.words.as_slice())?;
        for number in deletes {
            take_out(&mut words, *number);
        }
        for number in adds {
            put_in(&mut words, *number)?;
        }
        trim(&mut words);
        Ok(BitState { words })
    }

    /// The set with those numbers of a mask that another set has.
    pub fn with_part(&self, mask: &BitState, part: &BitState) -> Result<Self, AllocError>
        ensures has { IfOk result (λ s. (x : ℕ)
            → has s x ≡ cond (has mask.now x) (has part.now x) (has self.now x)) }
        ensures bits { IfOk result IsBits }
    {
        let alloc = *self.words.allocator();
        let mut words = mixed(
            alloc,
            self.words.as_slice(),
            mask.words.as_slice(),
            part.words.as_slice(),
        )?;
        trim(&mut words);
        Ok(BitState { words })
    }

    /// Whether another set has all numbers of this one.
    pub fn is_inside(&self, other: &BitState) -> bool
        ensures { IsTrue result → (x : ℕ) → has self.now x ≡ true → has other.now x ≡ true }
    {
        are_bits_in(self.words.as_slice(), other.words.as_slice())
    }
}

impl Clone for BitState {
    ghost is_clone = { λ a b. b ≡ a };

    ghost is_infallible = { λ a. ⊥ };

    fn clone(&self) -> Result<Self, AllocError> {
        Ok(BitState {
            words: SmallVec::from_slice(*self.words.allocator(), self.words.as_slice())?,
        })
    }
}

impl PartialEq for BitState {
    ghost use Rattle.std.specs.Prelude.{nat_eq};
    ghost use Rattle.std.specs.Cmp.Lexicographic.{pointwise};
    ghost use Rattle.state_table.specs.Bits.{words_eq, words_eq-partial};

    ghost eq = { words_eq };

    ghost laws = { words_eq-partial };

    fn eq(&self, other: &BitState) -> bool
        ensures value { result ≡ words_eq self.now other.now }
        ensures same { IsTrue result ↔ (self.now ≡ other.now) }
    {
        self.words == other.words
    }
}

impl Eq for BitState {
    ghost use Rattle.state_table.specs.Bits.{words_eq-laws};

    ghost laws = { words_eq-laws };
}

impl Hash for BitState {
    ghost use Rattle.state_table.specs.Bits.{words_hash, words_hash-Alike};

    ghost hash_input = { words_hash };

    ghost respects_eq = { words_hash-Alike.fed };

    fn hash<H: Hasher>(&self, state: &mut H) {
        self.words.hash(state);
    }
}
