//! Bits in words of 64. A word past the last one is 0.
ghost use Rattle.std.specs.Prelude.{◌≡◌, ◌||◌, ◌&&◌, ◌≤◌, ℕ, cond, eqb, not, true, length, get_or, IfOk, IsTrue, OnOk};
ghost use Rattle.std.specs.Int.{bit_not, w64};
ghost use Rattle.std.specs.Int.Bits.{bit_and};
ghost use Rattle.state_table.specs.Bits.{has, mix, AreSmall, IsBits};

use smallvec::SmallVec;
use std::alloc::{AllocError, Global};

/// Words of which the first few need no memory of their own.
pub(crate) type Words = SmallVec<u64, 4>;

/// A word, 0 past the last one.
fn word(words: &[u64], k: usize) -> u64
    ensures { result ≡ get_or words.now k 0 }
{
    words.get(k).copied().unwrap_or(0)
}

/// Whether the bit of a number is set.
pub(crate) fn has_bit(words: &[u64], number: u32) -> bool
    ensures { result ≡ has words.now number }
{
    (word(words, (number / 64) as usize) >> (number % 64)) & 1 == 1
}

/// Appends words of 0 up to this length at least. The bits stay.
fn widen(words: &mut Words, count: usize) -> Result<(), AllocError>
    ensures len { OnOk result (count ≤ length words.new.items) }
    ensures same { OnOk result ((k : ℕ) → get_or words.new.items k 0 ≡ get_or words.old.items k 0) }
{
    let more = count.saturating_sub(words.len());
    words.reserve_exact(more)?;
    for k in words.len()..count {
        let _k = k;
        words.push(0)?;
    }
    Ok(())
}

/// Sets the bit of a number.
pub(crate) fn put_in(words: &mut Words, number: u32) -> Result<(), AllocError>
    requires { AreSmall words.old.items }
    ensures small { OnOk result (AreSmall words.new.items) }
    ensures has { OnOk result ((x : ℕ) → has words.new.items x ≡ (has words.old.items x || eqb x number)) }
{
    let at = (number / 64) as usize;
    widen(words, at + 1)?;
    let slice = words.as_mut_slice();
    slice[at] |= 1 << (number % 64);
    Ok(())
}

/// Clears the bit of a number.
pub(crate) fn take_out(words: &mut Words, number: u32)
    requires { AreSmall words.old.items }
    ensures small { AreSmall words.new.items }
    ensures has { (x : ℕ) → has words.new.items x ≡ (has words.old.items x && not (eqb x number)) }
{
    let at = (number / 64) as usize;
    if at < words.len() {
        let slice = words.as_mut_slice();
        slice[at] &= !(1 << (number % 64));
    }
}

/// How many words the longer of two lists has.
fn most(one: &[u64], other: &[u64]) -> usize
    ensures one { length one.now ≤ result }
    ensures other { length other.now ≤ result }
{
    if one.len() < other.len() {
        other.len()
    } else {
        one.len()
    }
}

/// A word with the bits of a mask as another word has them.
fn mixed_word(words: &[u64], mask: &[u64], part: &[u64], k: usize) -> u64
    ensures { result ≡ mix (get_or words.now k 0) (get_or mask.now k 0) (get_or part.now k 0) }
{
    let chosen = word(mask, k);
    (word(words, k) & !chosen) | (word(part, k) & chosen)
}

/// Words with the bits of a mask as other words have them.
pub(crate) fn mixed(
    alloc: Global,
    words: &[u64],
    mask: &[u64],
    part: &[u64],
) -> Result<Words, AllocError>
    requires words { AreSmall words.now }
    requires mask { AreSmall mask.now }
    requires part { AreSmall part.now }
    ensures small { IfOk result (λ w. AreSmall w.items) }
    ensures has { IfOk result (λ w. (x : ℕ)
        → has w.items x ≡ cond (has mask.now x) (has part.now x) (has words.now x)) }
{
    let count = most(words, part);
    let mut mixed = SmallVec::with_capacity(alloc, count)?;
    for k in 0..count {
        mixed.push(mixed_word(words, mask, part, k))?;
    }
    Ok(mixed)
}

/// Whether one of other words has all bits of the word at its place.
fn is_word_in(words: &[u64], others: &[u64], k: usize) -> bool
    ensures { IsTrue result → bit_and (get_or words.now k 0) (bit_not w64 (get_or others.now k 0)) ≡ 0 }
{
    word(words, k) & !word(others, k) == 0
}

/// Whether other words have all bits of these.
pub(crate) fn are_bits_in(words: &[u64], others: &[u64]) -> bool
    requires { AreSmall others.now }
    ensures { IsTrue result → (x : ℕ) → has words.now x ≡ true → has others.now x ≡ true }
{
    for k in 0..words.len() {
        if !is_word_in(words, others, k) {
            return false;
        }
    }
    true
}

/// Drops the words at the end that are 0.
pub(crate) fn trim(words: &mut Words)
    requires { AreSmall words.old.items }
    ensures bits { IsBits words.new.items }
    ensures same { (k : ℕ) → get_or words.new.items k 0 ≡ get_or words.old.items k 0 }
{
    while words.len() > 0 && words.as_slice()[words.len() - 1] == 0 {
        let _ = words.pop();
    }
}
