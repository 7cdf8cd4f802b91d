//! Sets of numbers as bits of 64-bit words. A number past the last word is not marked.
ghost use Rattle.std.specs.Prelude.{◌≡◌, ◌<◌, ◌≤◌, ◌||◌, ℕ, true, bit_or, cond, eqb, get_or, length};
ghost use Rattle.std.specs.Prelude.{IsTrue, OnOk, Option, Some};
ghost use Rattle.heuristics.specs.Rows.{is_marked};

use std::alloc::AllocError;

/// A word, 0 past the last one.
fn word(words: &[u64], k: usize) -> u64
    ensures { result ≡ get_or words.now k 0 }
{
    words.get(k).copied().unwrap_or(0)
}

/// Whether a number is marked.
pub(crate) fn is_marked(marks: &[u64], number: usize) -> bool
    ensures { result ≡ is_marked marks.now (Some number) }
{
    (word(marks, number / 64) >> (number % 64)) & 1 == 1
}

/// Whether all marks of the first set are in the second.
pub(crate) fn are_marked_too(marks: &[u64], others: &[u64]) -> bool
    ensures { IsTrue result → (number : Option ℕ)
        → is_marked marks.now number ≡ true → is_marked others.now number ≡ true }
{
    for k in 0..marks.len() {
        let other = word(others, k);
        if marks[k] | other != other {
            return false;
        }
    }
    true
}

/// Adds the marks of one word to those at a place, which is at most the first one past the words.
fn add_word(marks: &mut Vec<u64>, k: usize, more: u64) -> Result<(), AllocError>
    requires { k ≤ length marks.old.items }
    ensures len { OnOk result (k < length marks.new.items) }
    ensures words { OnOk result ((j : ℕ) → get_or marks.new.items j 0
        ≡ cond (eqb j k) (bit_or (get_or marks.old.items k 0) more) (get_or marks.old.items j 0)) }
{
    if k < marks.len() {
        let words = marks.as_mut_slice();
        words[k] |= more;
        return Ok(());
    }
    marks.push(more)?;
    Ok(())
}

/// Adds the marks that others have.
pub(crate) fn add_marks(marks: &mut Vec<u64>, others: &[u64]) -> Result<(), AllocError>
    ensures { OnOk result ((number : Option ℕ) → is_marked marks.new.items number
        ≡ (is_marked marks.old.items number || is_marked others.now number)) }
{
    for k in 0..others.len() {
        add_word(marks, k, others[k])?;
    }
    Ok(())
}
