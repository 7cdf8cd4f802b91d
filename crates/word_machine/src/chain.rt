//! The values of several vectors, end to end.
ghost use Rattle.std.specs.Prelude.{◌≡◌};
ghost use Rattle.std.specs.Iterator.{YieldsFirst, item_count};
ghost use Rattle.word_machine.specs.Joined.{joined};

use std::alloc::Global;
use std::marker::Model;
use std::vec::IntoIter;

/// The values of several vectors, one vector after another. They are taken from the front, and nothing is moved to join
/// them.
#[derive(Drop)]
pub struct Chain<S> {
    first: IntoIter<S>,
    rest: IntoIter<Vec<S>>,
    // For speed alone: how many there were in the beginning.
    initial_len: usize,
}

impl<S> Model for Chain<S> {
    ghost use Rattle.std.specs.Prelude.{List, ◌++◌};
    ghost use Rattle.std.specs.Vec.Iter.{into_iter_items};
    ghost use Rattle.word_machine.specs.Joined.{joined};

    ghost Value = { List S };

    ghost view = { λ c. into_iter_items c.first ++ joined (into_iter_items c.rest) };
}

// The number of values that the vectors have, at most the greatest `usize`.
fn total_len<S>(parts: &[Vec<S>]) -> usize {
    let mut total: usize = 0;
    for part in parts {
        total = total.saturating_add(part.len());
    }
    total
}

impl<S: Drop> Chain<S> {
    /// The values of these vectors.
    pub fn new(alloc: Global, parts: Vec<Vec<S>>) -> Chain<S>
        ensures { result ≡ joined parts.items }
    {
        let initial_len = total_len(&parts);
        Chain {
            first: Vec::new(alloc).into_iter(),
            rest: parts.into_iter(),
            initial_len,
        }
    }

    /// How many values there were in the beginning: for speed alone.
    pub fn initial_len(&self) -> usize {
        self.initial_len
    }
}

impl<S: Drop> Iterator for Chain<S> {
    type Item = S;

    ghost next_gives = { YieldsFirst (λ c. c) };

    ghost remaining = { item_count (λ c. c) };

    #[inline(always)]
    fn next(&mut self) -> Option<S> {
        if let Some(value) = self.first.next() {
            return Some(value);
        }
        while let Some(more) = self.rest.next() {
            self.first = more.into_iter();
            if let Some(value) = self.first.next() {
                return Some(value);
            }
        }
        None
    }
}
