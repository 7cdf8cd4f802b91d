//! Tables of bits, by which a position is before another.
ghost use Rattle.std.specs.Prelude.{◌+◌, ◌*◌, ◌<◌, ◌≤◌, ◌^◌, ◌/◌, ◌≡◌, ◌≢◌, ◌&&◌, ◌||◌, ◌↔◌, Bool, IfOk, IsTrue, List, eqb, fold, length, ltb, min, ℕ};
ghost use Rattle.htn_model.specs.Choice.{is_free};
ghost use Rattle.htn_model.specs.Problem.{IsClosed, IsSquare, is_before};
ghost use Rattle.htn_order.specs.Shapes.{chain, unordered};
ghost use Rattle.htn_order.specs.BitRows.{IsPacked, is_set, rows_of, rows_hash, united, with_bit, word_at, words_per_row};
ghost use Rattle.htn_order.specs.Counts.{AreColumnCounts, AreCounted, lane};
ghost use Rattle.htn_order.specs.Words.{AreEntered};

use crate::lanes::{add_to_lanes, lane};
use crate::words::{add_bits, ones};
use std::alloc::{AllocError, Global};
use std::hash::{Hash, Hasher};
use std::marker::Model;

/// For each two of `size` positions, whether the first is before the second: a row of bits for each
/// position, in whole words.
#[derive(Drop)]
pub struct BitRows {
    size: usize,
    words: Vec<u64>,
}

impl Model for BitRows {
    ghost Value = { List (List Bool) };

    ghost view = { λ rows. rows_of rows.size rows.words.items };

    ghost invariant = { λ rows. IsPacked rows.size rows.words.items };
}

/// How many words hold a row.
fn words_per_row(size: usize) -> usize
    ensures { result ≡ words_per_row size }
{
    size / 64 + 1
}

/// Sets one bit of a row of words.
fn set_bit(words: &mut [u64], width: usize, rows: usize, a: usize, b: usize)
    requires whole { length words.old ≡ rows * width }
    requires row { a < rows }
    requires column { b / 64 < width }
    ensures { words.new ≡ with_bit width words.old a b }
{
    words[a * width + b / 64] |= 1 << (b % 64);
}

/// Sets in one row of words the bits that another row has.
fn unite(words: &mut [u64], width: usize, rows: usize, a: usize, b: usize)
    requires whole { length words.old ≡ rows * width }
    requires first { a < rows }
    requires second { b < rows }
    requires apart { a ≢ b }
    ensures { (x k : ℕ) → k < width → word_at width words.new x k ≡ united width words.old a b x k }
{
    for k in 0..width {
        let more = words[b * width + k];
        words[a * width + k] |= more;
    }
}

impl BitRows {
    /// The table in which no position is before another.
    pub fn unordered(alloc: Global, size: usize) -> Result<BitRows, AllocError>
        ensures { IfOk result (λ rows. rows ≡ unordered size) }
    {
        let Some(count) = size.checked_mul(words_per_row(size)) else {
            return Err(AllocError);
        };
        Ok(BitRows {
            size,
            words: vec![in alloc; 0; count]?,
        })
    }

    /// How many positions there are.
    pub fn size(&self) -> usize
        ensures value { result ≡ length self.now }
        ensures square { IsSquare (length self.now) self.now }
    {
        self.size
    }

    /// Whether position `a` is before position `b`.
    pub fn is_before(&self, a: usize, b: usize) -> bool
        ensures { result ≡ is_before self.now a b }
    {
        if a >= self.size || b >= self.size {
            return false;
        }
        let word = self.words[a * words_per_row(self.size) + b / 64];
        (word >> (b % 64)) & 1 == 1
    }

    /// The row of a position in one word.
    pub fn row_word(&self, a: usize) -> u64
        requires few { length self.now < 64 }
        requires row { a < length self.now }
        ensures { (b : ℕ) → is_set result b ≡ is_before self.now a b }
    {
        self.words[a]
    }

    /// Puts position `a` before the positions whose bits a word has.
    pub fn put_row_word(&mut self, a: usize, word: u64)
        requires few { length self.old < 64 }
        requires row { a < length self.old }
        ensures square { IsSquare (length self.old) self.new }
        ensures entries { (x y : ℕ) → is_before self.new x y ≡ (is_before self.old x y || (eqb x a && (ltb y (length self.old) && is_set word y))) }
    {
        let more = word & ones(self.size);
        add_bits(&mut self.words, a, more);
    }

    /// Puts position `a` before position `b`.
    pub fn put_before(&mut self, a: usize, b: usize)
        requires first { a < length self.old }
        requires second { b < length self.old }
        ensures square { IsSquare (length self.old) self.new }
        ensures entries { (x y : ℕ) → is_before self.new x y ≡ (is_before self.old x y || (eqb x a && eqb y b)) }
    {
        let width = words_per_row(self.size);
        set_bit(&mut self.words, width, self.size, a, b);
    }

    /// Puts position `a` before all that position `b` is before.
    pub fn put_before_row(&mut self, a: usize, b: usize)
        requires first { a < length self.old }
        requires second { b < length self.old }
        requires apart { a ≢ b }
        ensures square { IsSquare (length self.old) self.new }
        ensures entries { (x y : ℕ) → is_before self.new x y ≡ (is_before self.old x y || (eqb x a && is_before self.old b y)) }
    {
        let width = words_per_row(self.size);
        unite(&mut self.words, width, self.size, a, b);
    }

    /// Whether each position is before the next, in a closed table: then each is before all later ones.
    pub fn is_chain(&self) -> bool
        requires { IsClosed self.now }
        ensures { IsTrue result ↔ (self.now ≡ chain (length self.now)) }
    {
        for b in 1..self.size() {
            if !self.is_before(b - 1, b) {
                return false;
            }
        }
        true
    }

    /// Whether no position is before this one.
    pub fn is_free(&self, position: usize) -> bool
        ensures { result ≡ is_free (length self.now) (is_before self.now) position }
    {
        for a in 0..self.size() {
            if self.is_before(a, position) {
                return false;
            }
        }
        true
    }

    /// The positions that some position is before, in one word.
    pub fn entered(&self) -> u64
        requires { length self.now < 64 }
        ensures { AreEntered self.now result }
    {
        let mut word = 0;
        for a in 0..self.size() {
            word |= self.row_word(a);
        }
        word
    }

    /// Counts in lanes, which have 0 each, how many positions are before each of those that share word `k` of a row.
    fn count_column(&self, lanes: &mut [u64], k: usize)
        requires column { k < words_per_row (length self.now) }
        requires wide { length lanes.old ≡ 64 }
        requires none { (j : ℕ) → lane lanes.old j (length lanes.old) ≡ 0 }
        ensures { AreColumnCounts self.now (64 * k) (length self.now) lanes.new }
    {
        let width = words_per_row(self.size);
        for a in 0..self.size {
            let word = self.words[a * width + k];
            add_to_lanes(lanes, word);
        }
    }

    /// How many positions are before each of those that share word `k` of a row, in lanes.
    fn column_lanes(&self, alloc: Global, k: usize) -> Result<Vec<u64>, AllocError>
        requires { k < words_per_row (length self.now) }
        ensures { IfOk result (λ lanes. AreColumnCounts self.now (64 * k) (length self.now) lanes.items) }
    {
        let mut lanes = vec![in alloc; 0; 64]?;
        self.count_column(&mut lanes, k);
        Ok(lanes)
    }

    /// Adds the counts of up to 64 positions from one on, which lanes have.
    fn push_counts(
        &self,
        lanes: &[u64],
        from: usize,
        counts: &mut Vec<usize>,
    ) -> Result<(), AllocError>
        requires lanes { AreColumnCounts self.now from (length self.now) lanes.now }
        requires from { from ≤ length self.now }
        requires counts { AreCounted self.now from counts.old.items }
        ensures { IfOk result (λ _. AreCounted self.now (min (from + 64) (length self.now)) counts.new.items) }
    {
        for position in from..self.size().min(from.saturating_add(64)) {
            counts.push(lane(lanes, position - from))?;
        }
        Ok(())
    }

    /// For each position, how many positions are before it.
    pub fn predecessor_counts(&self, alloc: Global) -> Result<Vec<usize>, AllocError>
        ensures { IfOk result (λ counts. AreCounted self.now (length self.now) counts.items) }
    {
        let mut counts = Vec::with_capacity(alloc, self.size())?;
        for k in 0..words_per_row(self.size()) {
            let lanes = self.column_lanes(alloc, k)?;
            self.push_counts(&lanes, 64 * k, &mut counts)?;
        }
        Ok(counts)
    }

    /// Whether two tables are equal.
    pub fn is_same(&self, other: &BitRows) -> bool
        ensures { IsTrue result ↔ (self.now ≡ other.now) }
    {
        self.size == other.size && self.words == other.words
    }

    /// Feeds the table to a hasher.
    pub fn feed<H: Hasher>(&self, state: &mut H)
        ensures { state.new ≡ fold H.write state.old (rows_hash self.now) }
    {
        self.size.hash(state);
        self.words.hash(state);
    }
}

impl Clone for BitRows {
    ghost is_clone = { λ a b. b ≡ a };

    ghost is_infallible = { λ a. ⊥ };

    fn clone(&self) -> Result<Self, AllocError> {
        Ok(BitRows {
            size: self.size,
            words: Vec::from_slice(*self.words.allocator(), &self.words)?,
        })
    }
}
