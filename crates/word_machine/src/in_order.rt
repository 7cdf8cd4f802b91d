//! Configurations are expanded one after another.
ghost use Rattle.std.specs.Prelude.{ℕ, ◌<◌, ◌≤◌, IfOk};
ghost use Rattle.word_machine.specs.Level.{IsExpanded};

use crate::work::Expand;
use std::alloc::{AllocError, Global};

/// The outcome of the expansion of a range of ranks.
#[derive(Drop)]
pub enum Expanded<S, F> {
    /// No configuration has a done successor, and these are all successors, in order.
    Whole(Vec<S>),
    /// The first rank with a done successor, and how its configuration leads there.
    Done { rank: usize, finish: F },
}

/// Expands the ranks from `first` up to `last` in order, and stops at the first with a done successor.
pub fn expand_in_order<W: Expand>(
    alloc: Global,
    work: &W,
    first: usize,
    last: usize,
) -> Result<Expanded<W::Successor, W::Finish>, AllocError>
    requires ordered { first ≤ last }
    requires can { (rank : ℕ) → first ≤ rank → rank < last → W.can_expand work.now rank }
    ensures { IfOk result (IsExpanded (W.has_successors work.now) (W.finishes work.now) first last) }
{
    let mut successors = Vec::new(alloc);
    for rank in first..last {
        if let Some(finish) = work.expand(rank, &mut successors)? {
            return Ok(Expanded::Done { rank, finish });
        }
    }
    Ok(Expanded::Whole(successors))
}
