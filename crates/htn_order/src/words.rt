//! Words of bits: a row of an order in one word, and such a row with others in one bit's place.
ghost use Rattle.std.specs.Prelude.{◌-◌, ◌<◌, ◌^◌, ◌≤◌, ◌≡◌, ℕ, false, length};
ghost use Rattle.htn_order.specs.BitRows.{is_set};
ghost use Rattle.htn_order.specs.Words.{is_set_spliced, with_bits};

/// The word whose lowest `count` bits are set.
pub fn ones(count: usize) -> u64
    requires { count < 64 }
    ensures { result ≡ 2 ^ count - 1 }
{
    (1 << count) - 1
}

/// A word with the lowest `count` bits of another in the place of its bit at a position.
pub fn spliced(word: u64, at: usize, count: usize, middle: u64) -> u64
    requires place { at < 63 }
    requires many { count < 64 }
    requires short { (i : ℕ) → count ≤ i → is_set middle i ≡ false }
    ensures { (i : ℕ) → i < 64 → is_set result i ≡ is_set_spliced word at count middle i }
{
    let above = word >> (at + 1) << count;
    (above | middle) << at | (word & ones(at))
}

/// Sets in word `k` the bits of another word. It is a function of its own, so that the proofs have one name for the row
/// that it changes.
pub fn add_bits(words: &mut [u64], k: usize, more: u64)
    requires { k < length words.old }
    ensures { words.new ≡ with_bits words.old k more }
{
    words[k] |= more;
}
