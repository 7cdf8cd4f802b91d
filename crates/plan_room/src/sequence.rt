//! The positions of a network in a sequence that keeps its order, and where in it those before each one are.
ghost use Rattle.std.specs.Prelude.{◌≡◌, ◌<◌, ℕ, suc, true, IfOk, IsTrue, [], get_or, length, replicate};
ghost use Rattle.htn_model.specs.Problem.{is_before};
ghost use Rattle.plan_room.specs.Placing.{AreAhead, IsSequence};
ghost use Rattle.plan_room.specs.Ranks.{AreLevels, AreStarts, ahead_of, levels, lists_of};

use htn_order::Order;
use std::alloc::{AllocError, Global};

/// Whether each position is before the next.
fn is_chain(order: &Order) -> bool
    ensures { IsTrue result → (a : ℕ) → suc a < length order.now → is_before order.now a (suc a) ≡ true }
{
    let size = order.size();
    for position in 0..size {
        if position + 1 < size && !order.is_before(position, position + 1) {
            return false;
        }
    }
    true
}

/// `count` empty lists.
fn empty_lists(alloc: Global, count: usize) -> Result<Vec<Vec<usize>>, AllocError>
    ensures { IfOk result (λ v. lists_of v.items ≡ replicate count []) }
{
    let mut lists = Vec::with_capacity(alloc, count)?;
    for i in 0..count {
        let _list = i;
        lists.push(Vec::new(alloc))?;
    }
    Ok(lists)
}

/// The positions of each rank, ascending.
fn levels_of(alloc: Global, ranks: &[usize]) -> Result<Vec<Vec<usize>>, AllocError>
    requires { (a : ℕ) → a < length ranks.now → get_or ranks.now a 0 < length ranks.now }
    ensures { IfOk result (λ v. AreLevels (λ a. get_or ranks.now a 0) (length ranks.now) (length ranks.now) (lists_of v.items)) }
{
    let mut levels = empty_lists(alloc, ranks.len())?;
    for position in 0..ranks.len() {
        levels[ranks[position]].push(position)?;
    }
    Ok(levels)
}

/// The positions by their ranks, and for each rank how many have a smaller one.
fn by_rank(alloc: Global, ranks: &[usize]) -> Result<(Vec<usize>, Vec<usize>), AllocError>
    requires { (a : ℕ) → a < length ranks.now → get_or ranks.now a 0 < length ranks.now }
    ensures sequence { IfOk result (λ v. v.0.items ≡ levels (λ a. get_or ranks.now a 0) (length ranks.now) (length ranks.now)) }
    ensures starts { IfOk result (λ v. AreStarts (λ a. get_or ranks.now a 0) (length ranks.now) (length ranks.now) v.1.items) }
{
    let levels = levels_of(alloc, ranks)?;
    let mut sequence = Vec::with_capacity(alloc, ranks.len())?;
    let mut starts = Vec::with_capacity(alloc, ranks.len())?;
    for rank in 0..ranks.len() {
        starts.push(sequence.len())?;
        sequence.extend_from_slice(levels[rank].as_slice())?;
    }
    Ok((sequence, starts))
}

/// Up to which place of the positions by their ranks all are before one, and from which on none is.
fn ahead_of(rank: usize, start: usize) -> (usize, usize)
    ensures { result ≡ ahead_of rank start }
{
    if rank == start {
        (start, start)
    } else {
        (0, start)
    }
}

/// These places for each position.
fn places_ahead(
    alloc: Global,
    ranks: &[usize],
    starts: &[usize],
) -> Result<Vec<(usize, usize)>, AllocError>
    requires { (a : ℕ) → a < length ranks.now → get_or ranks.now a 0 < length starts.now }
    ensures size { IfOk result (λ v. length v.items ≡ length ranks.now) }
    ensures each { IfOk result (λ v. (a : ℕ) → a < length ranks.now → get_or v.items a (0, 0) ≡ ahead_of (get_or ranks.now a 0) (get_or starts.now (get_or ranks.now a 0) 0)) }
{
    let mut ahead = Vec::with_capacity(alloc, ranks.len())?;
    for position in 0..ranks.len() {
        let rank = ranks[position];
        ahead.push(ahead_of(rank, starts[rank]))?;
    }
    Ok(ahead)
}

/// The positions as they are numbered.
fn as_numbered(alloc: Global, size: usize) -> Result<Vec<usize>, AllocError>
    ensures size { IfOk result (λ v. length v.items ≡ size) }
    ensures each { IfOk result (λ v. (i : ℕ) → i < size → get_or v.items i 0 ≡ i) }
{
    let mut sequence = Vec::with_capacity(alloc, size)?;
    for position in 0..size {
        sequence.push(position)?;
    }
    Ok(sequence)
}

/// Each position twice, as they are numbered.
fn twice_numbered(alloc: Global, size: usize) -> Result<Vec<(usize, usize)>, AllocError>
    ensures size { IfOk result (λ v. length v.items ≡ size) }
    ensures each { IfOk result (λ v. (i : ℕ) → i < size → get_or v.items i (0, 0) ≡ (i, i)) }
{
    let mut ahead = Vec::with_capacity(alloc, size)?;
    for position in 0..size {
        ahead.push((position, position))?;
    }
    Ok(ahead)
}

/// All positions, each after those that are before it, and for each up to which place all are before it,
/// and from which on none is. Beside the positions it takes the time of the counts of those before each.
pub(crate) fn sequence(
    alloc: Global,
    order: &Order,
) -> Result<(Vec<usize>, Vec<(usize, usize)>), AllocError>
    ensures sequence { IfOk result (λ v. IsSequence order.now v.0.items) }
    ensures ahead { IfOk result (λ v. AreAhead order.now v.0.items v.1.items) }
{
    let size = order.size();
    if is_chain(order) {
        let sequence = as_numbered(alloc, size)?;
        let ahead = twice_numbered(alloc, size)?;
        return Ok((sequence, ahead));
    }
    let ranks = order.predecessor_counts(alloc)?;
    let (sequence, starts) = by_rank(alloc, &ranks)?;
    let ahead = places_ahead(alloc, &ranks, &starts)?;
    Ok((sequence, ahead))
}
