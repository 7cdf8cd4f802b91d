//! In which sequence pairs are best added to a closure.
//!
//! Where the pairs have no cycle, a pair comes after all pairs that its second position leads to, so
//! that this position's row is whole by then. Where they have one, pairs along a cycle come last.
//! A closure is the same in any sequence, so no promise rests on this but that of speed.
//!
//! In the words of graphs: the pairs by a topological order of their second positions, by Kahn's algorithm.
use std::alloc::{AllocError, Global};

/// For each position, the indices of the pairs that lead to it.
fn pairs_into(
    alloc: Global,
    size: usize,
    pairs: &[(usize, usize)],
) -> Result<Vec<Vec<usize>>, AllocError> {
    let mut into = Vec::with_capacity(alloc, size)?;
    for _ in 0..size {
        into.push(Vec::new(alloc))?;
    }
    for (k, pair) in pairs.iter().enumerate() {
        if let Some(indices) = into.get_mut(pair.1) {
            indices.push(k)?;
        }
    }
    Ok(into)
}

/// For each position, how many pairs lead from it.
fn counts_from(
    alloc: Global,
    size: usize,
    pairs: &[(usize, usize)],
) -> Result<Vec<usize>, AllocError> {
    let mut counts = vec![in alloc; 0usize; size]?;
    for pair in pairs {
        if let Some(count) = counts.get_mut(pair.0) {
            *count = count.saturating_add(1);
        }
    }
    Ok(counts)
}

/// Takes pairs whose second position is finished off the counts of pairs that lead from each
/// position to one that isn't, and adds the positions which that finishes.
fn take_off(
    pairs: &[(usize, usize)],
    indices: &[usize],
    unfinished: &mut Vec<usize>,
    finished: &mut Vec<usize>,
) -> Result<(), AllocError> {
    for k in indices {
        if let Some(pair) = pairs.get(*k)
            && let Some(count) = unfinished.get_mut(pair.0)
        {
            *count = count.saturating_sub(1);
            if *count == 0 {
                finished.push(pair.0)?;
            }
        }
    }
    Ok(())
}

/// The indices of pairs along a walk among positions that are not finished, the last pair first.
fn cycle_backwards(
    alloc: Global,
    pairs: &[(usize, usize)],
    unfinished: &[usize],
) -> Result<Vec<usize>, AllocError> {
    let mut onward = vec![in alloc; None; unfinished.len()]?;
    for (k, pair) in pairs.iter().enumerate() {
        if unfinished.get(pair.1).is_some_and(|count| *count > 0)
            && let Some(next) = onward.get_mut(pair.0)
        {
            *next = Some(k);
        }
    }
    let mut walk = Vec::new(alloc);
    let mut at = unfinished.iter().position(|count| *count > 0);
    for _ in 0..unfinished.len() {
        let Some(k) = at.and_then(|position| onward.get(position).copied().flatten()) else {
            break;
        };
        walk.push(k)?;
        at = pairs.get(k).map(|pair| pair.1);
    }
    walk.reverse();
    Ok(walk)
}

/// The indices of pairs in the sequence in which they are best added.
pub fn best_sequence(
    alloc: Global,
    size: usize,
    pairs: &[(usize, usize)],
) -> Result<Vec<usize>, AllocError> {
    let into = pairs_into(alloc, size, pairs)?;
    let mut unfinished = counts_from(alloc, size, pairs)?;
    let mut finished = Vec::with_capacity(alloc, size)?;
    for (position, count) in unfinished.iter().enumerate() {
        if *count == 0 {
            finished.push(position)?;
        }
    }
    let mut sequence = Vec::with_capacity(alloc, pairs.len())?;
    for i in 0..size {
        let Some(position) = finished.get(i).copied() else {
            break;
        };
        if let Some(indices) = into.get(position) {
            sequence.extend_from_slice(indices)?;
            take_off(pairs, indices, &mut unfinished, &mut finished)?;
        }
    }
    let cycle = cycle_backwards(alloc, pairs, &unfinished)?;
    sequence.extend_from_slice(&cycle)?;
    Ok(sequence)
}
