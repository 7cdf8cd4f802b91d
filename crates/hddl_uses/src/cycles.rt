//! Whether pairs of positions have a cycle, in time and memory that are linear in the positions and pairs.
//!
//! A rank for each position, or a way back along a cycle, is found without proof and then checked. Ranks that rise
//! along each pair show that there is no cycle, and a way that comes back is one. Where neither passes its check, which
//! doesn't happen, the closure of the pairs decides; so only the speed rests on what was found.
//!
//! The ranks are by Kahn's algorithm (Topological sorting of large networks, 1962).
ghost use Rattle.std.specs.Prelude.{◌↔◌, ◌<◌, Contains, IfOk, IfSome, IsTrue, get_or};
ghost use Rattle.htn_order.specs.Closure.{AreBelow, IsAcyclic};
ghost use Rattle.hddl_uses.specs.Labels.{Circles};

use htn_order::{OrderFault, close};
use std::alloc::{AllocError, Global};

/// The pairs that lead from each position, as lists of their indices: where each list begins, and which index follows.
struct Onward {
    first: Vec<Option<usize>>,
    next: Vec<Option<usize>>,
}

impl Drop for Onward {
    fn drop(self) {
        let Onward { first: _, next: _ } = self;
    }
}

fn onward_of(alloc: Global, size: usize, pairs: &[(usize, usize)]) -> Result<Onward, AllocError> {
    let mut first = vec![in alloc; None; size]?;
    let mut next = Vec::with_capacity(alloc, pairs.len())?;
    for (k, pair) in pairs.iter().enumerate() {
        let after = first.get(pair.0).copied().flatten();
        next.push(after)?;
        if let Some(head) = first.get_mut(pair.0) {
            *head = Some(k);
        }
    }
    Ok(Onward { first, next })
}

/// For each position, how many pairs lead to it.
fn counts_to(
    alloc: Global,
    size: usize,
    pairs: &[(usize, usize)],
) -> Result<Vec<usize>, AllocError> {
    let mut counts = vec![in alloc; 0usize; size]?;
    for pair in pairs {
        if let Some(count) = counts.get_mut(pair.1) {
            *count = count.saturating_add(1);
        }
    }
    Ok(counts)
}

/// Takes the pairs that lead from a finished position off the counts of those that lead to each other one, and adds the
/// positions which that finishes.
fn take_off(
    pairs: &[(usize, usize)],
    onward: &Onward,
    position: usize,
    waiting: &mut Vec<usize>,
    finished: &mut Vec<usize>,
) -> Result<(), AllocError> {
    let mut at = onward.first.get(position).copied().flatten();
    for _ in 0..pairs.len() {
        let Some(k) = at else {
            break;
        };
        if let Some(pair) = pairs.get(k)
            && let Some(count) = waiting.get_mut(pair.1)
        {
            *count = count.saturating_sub(1);
            if *count == 0 {
                finished.push(pair.1)?;
            }
        }
        at = onward.next.get(k).copied().flatten();
    }
    Ok(())
}

/// A rank for each position, lower than those of the positions that it leads to. A position that a cycle leads to has
/// the number of positions as its rank, which no other one has.
fn ranks_of(
    alloc: Global,
    size: usize,
    pairs: &[(usize, usize)],
) -> Result<Vec<usize>, AllocError> {
    let onward = onward_of(alloc, size, pairs)?;
    let mut waiting = counts_to(alloc, size, pairs)?;
    let mut finished = Vec::with_capacity(alloc, size)?;
    for (position, count) in waiting.iter().enumerate() {
        if *count == 0 {
            finished.push(position)?;
        }
    }
    let mut ranks = vec![in alloc; size; size]?;
    for rank in 0..size {
        let Some(position) = finished.get(rank).copied() else {
            break;
        };
        if let Some(place) = ranks.get_mut(position) {
            *place = rank;
        }
        take_off(pairs, &onward, position, &mut waiting, &mut finished)?;
    }
    Ok(ranks)
}

/// Whether a pair's first position has a lower rank than its second.
fn rises(ranks: &[usize], pair: (usize, usize)) -> bool
    ensures { IsTrue result → get_or ranks.now pair.0 0 < get_or ranks.now pair.1 0 }
{
    match (ranks.get(pair.0), ranks.get(pair.1)) {
        (Some(before), Some(after)) => before < after,
        _ => false,
    }
}

/// Whether the ranks rise along each pair.
fn all_rise(ranks: &[usize], pairs: &[(usize, usize)]) -> bool
    ensures { IsTrue result → IsAcyclic pairs.now }
{
    for pair in pairs {
        if !rises(ranks, *pair) {
            return false;
        }
    }
    true
}

/// For each position that a cycle leads to, the index of a pair that leads to it from another such.
fn ways_back(
    alloc: Global,
    size: usize,
    pairs: &[(usize, usize)],
    ranks: &[usize],
) -> Result<Vec<Option<usize>>, AllocError> {
    let mut back = vec![in alloc; None; size]?;
    for (k, pair) in pairs.iter().enumerate() {
        if ranks.get(pair.0).is_some_and(|rank| *rank == size)
            && let Some(way) = back.get_mut(pair.1)
        {
            *way = Some(k);
        }
    }
    Ok(back)
}

/// A position on a cycle: the end of as many steps back as there are positions.
fn far_back(pairs: &[(usize, usize)], back: &[Option<usize>]) -> usize {
    let mut at = back.iter().position(|way| way.is_some()).unwrap_or(0);
    for _ in 0..back.len() {
        if let Some(k) = back.get(at).copied().flatten()
            && let Some(pair) = pairs.get(k)
        {
            at = pair.0;
        }
    }
    at
}

/// The position one step back from another, by the pair that its way back names.
fn one_back(pairs: &[(usize, usize)], back: &[Option<usize>], at: usize) -> Option<usize>
    ensures { IfSome result (λ before. Contains pairs.now (before, at)) }
{
    let k = back.get(at).copied().flatten()?;
    if k >= pairs.len() {
        return None;
    }
    let (before, after) = pairs[k];
    if after != at {
        return None;
    }
    Some(before)
}

/// Whether the ways back from a position come back to it.
fn comes_back(pairs: &[(usize, usize)], back: &[Option<usize>], start: usize) -> bool
    ensures { IsTrue result → Circles pairs.now }
{
    let mut at = start;
    'back: for _ in 0..back.len() {
        let Some(before) = one_back(pairs, back, at) else {
            return false;
        };
        if before == start {
            return true;
        }
        at = before;
    }
    false
}

/// Whether the closure of the pairs has a cycle. It takes a bit for each two positions.
fn is_cyclic_closure(
    alloc: Global,
    size: usize,
    pairs: &[(usize, usize)],
) -> Result<bool, AllocError>
    requires { AreBelow size pairs.now }
    ensures { IfOk result (λ cyclic. IsTrue cyclic ↔ Circles pairs.now) }
{
    match close(alloc, size, pairs) {
        Ok(_) => Ok(false),
        Err(OrderFault::Cycle(_)) => Ok(true),
        Err(OrderFault::OutOfMemory) => Err(AllocError),
    }
}

/// Whether the pairs have a cycle.
pub(crate) fn is_cyclic(
    alloc: Global,
    size: usize,
    pairs: &[(usize, usize)],
) -> Result<bool, AllocError>
    requires { AreBelow size pairs.now }
    ensures { IfOk result (λ cyclic. IsTrue cyclic ↔ Circles pairs.now) }
{
    let ranks = ranks_of(alloc, size, pairs)?;
    if all_rise(&ranks, pairs) {
        return Ok(false);
    }
    let back = ways_back(alloc, size, pairs, &ranks)?;
    let start = far_back(pairs, &back);
    if comes_back(pairs, &back, start) {
        return Ok(true);
    }
    let cyclic = is_cyclic_closure(alloc, size, pairs)?;
    Ok(cyclic)
}
