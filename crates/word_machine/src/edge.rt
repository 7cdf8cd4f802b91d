//! The parents of configurations that a search pruned.

use crate::closed::Origin;

// The number of parents that are stored.
const MOST: usize = 64;

// Stands for no rank.
const NONE: usize = usize::MAX;

/// A ring of the parents that were added last.
#[derive(Clone, Copy, Debug)]
pub struct Edge {
    ranks: [usize; MOST],
    last: usize,
}

impl Edge {
    pub fn new() -> Edge {
        Edge {
            ranks: [NONE; MOST],
            last: 0,
        }
    }

    /// Adds the rank of an origin, unless it was added last, in place of the oldest.
    pub fn add(&mut self, origin: Origin) {
        let Origin::Step { parent, .. } = origin else {
            return;
        };
        // For the prover alone: the position is below the length.
        let last = self.last % MOST;
        if self.ranks[last] != parent {
            let next = (last + 1) % MOST;
            self.ranks[next] = parent;
            self.last = next;
        }
    }

    /// The ranks, in no order; the places that were not filled yet stand for no rank.
    pub fn ranks(&self) -> &[usize] {
        &self.ranks
    }
}
