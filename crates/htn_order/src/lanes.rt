//! Small numbers in the columns of some words: number j has their bits j as its digits in base 2, from the first
//! word on. So a word's bits are added to 64 numbers in a few steps.
ghost use Rattle.std.specs.Prelude.{◌≡◌, ◌+◌, ◌<◌, ◌^◌, ℕ, length};
ghost use Rattle.std.specs.Int.{bit_at};
ghost use Rattle.htn_order.specs.Counts.{lane};

/// Adds each bit of a word to the number in its lane.
pub fn add_to_lanes(words: &mut [u64], word: u64)
    requires { (j : ℕ) → j < 64 → lane words.old j (length words.old) + 1 < 2 ^ length words.old }
    ensures { (j : ℕ) → j < 64 → lane words.new j (length words.old) ≡ lane words.old j (length words.old) + bit_at word j }
{
    let mut carry = word;
    for i in 0..words.len() {
        if carry == 0 {
            return;
        }
        let digits = words[i];
        words[i] = digits ^ carry;
        carry &= digits;
    }
}

/// The number in a lane.
pub fn lane(words: &[u64], j: usize) -> usize
    requires lane { j < 64 }
    requires fits { lane words.now j (length words.now) < 2 ^ 64 }
    ensures { result ≡ lane words.now j (length words.now) }
{
    let mut number = 0;
    let mut place = words.len();
    while place > 0 {
        place -= 1;
        let digit = (words[place] >> j) & 1;
        number = number * 2 + digit as usize;
    }
    number
}
