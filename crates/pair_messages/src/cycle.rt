//! A cycle of pairs of positions, found in time and memory that are linear in the positions and pairs.

use std::alloc::{AllocError, Global};

/// The pairs that lead from each position, as lists of their numbers: where each list begins, and which one follows.
struct Onward {
    first: Vec<Option<usize>>,
    next: Vec<Option<usize>>,
}

impl Drop for Onward {
    fn drop(self) {
        let Onward { first: _, next: _ } = self;
    }
}

fn onward_of(alloc: Global, size: usize, pairs: &[(usize, usize)]) -> Result<Onward, AllocError> {
    let mut first = vec![in alloc; None; size]?;
    let mut next = vec![in alloc; None; pairs.len()]?;
    for k in (0..pairs.len()).rev() {
        if let Some(head) = first.get_mut(pairs[k].0)
            && let Some(after) = next.get_mut(k)
        {
            *after = *head;
            *head = Some(k);
        }
    }
    Ok(Onward { first, next })
}

/// For each position, how many pairs lead to it.
fn counts_to(
    alloc: Global,
    size: usize,
    pairs: &[(usize, usize)],
) -> Result<Vec<usize>, AllocError> {
    let mut counts = vec![in alloc; 0usize; size]?;
    for pair in pairs {
        if let Some(count) = counts.get_mut(pair.1) {
            *count = count.saturating_add(1);
        }
    }
    Ok(counts)
}

/// Takes the pairs that lead from a finished position off the counts, and adds the positions which that finishes.
fn take_off(
    pairs: &[(usize, usize)],
    onward: &Onward,
    position: usize,
    waiting: &mut Vec<usize>,
    finished: &mut Vec<usize>,
) -> Result<(), AllocError> {
    let mut at = onward.first.get(position).copied().flatten();
    for _ in 0..pairs.len() {
        let Some(k) = at else {
            break;
        };
        if let Some(pair) = pairs.get(k)
            && let Some(count) = waiting.get_mut(pair.1)
        {
            *count = count.saturating_sub(1);
            if *count == 0 {
                finished.push(pair.1)?;
            }
        }
        at = onward.next.get(k).copied().flatten();
    }
    Ok(())
}

/// For each position, how many pairs lead to it from positions that a cycle leads to; none for those that no cycle
/// leads to.
fn waiting_of(
    alloc: Global,
    size: usize,
    pairs: &[(usize, usize)],
    onward: &Onward,
) -> Result<Vec<usize>, AllocError> {
    let mut waiting = counts_to(alloc, size, pairs)?;
    let mut finished = Vec::with_capacity(alloc, size)?;
    for (position, count) in waiting.iter().enumerate() {
        if *count == 0 {
            finished.push(position)?;
        }
    }
    for number in 0..size {
        let Some(position) = finished.get(number).copied() else {
            break;
        };
        take_off(pairs, onward, position, &mut waiting, &mut finished)?;
    }
    Ok(waiting)
}

/// For each position that a cycle leads to, a pair that leads to it from another such.
fn ways_back(
    alloc: Global,
    size: usize,
    pairs: &[(usize, usize)],
    waiting: &[usize],
) -> Result<Vec<Option<usize>>, AllocError> {
    let mut back = vec![in alloc; None; size]?;
    for (k, pair) in pairs.iter().enumerate() {
        if waiting.get(pair.0).is_some_and(|count| *count > 0)
            && let Some(way) = back.get_mut(pair.1)
        {
            *way = Some(k);
        }
    }
    Ok(back)
}

/// A position on a cycle: the least that is passed on a way back as long as there are positions, after as long a one.
fn start_of(pairs: &[(usize, usize)], back: &[Option<usize>]) -> usize {
    let mut at = back.iter().position(|way| way.is_some()).unwrap_or(0);
    for _ in 0..back.len() {
        at = one_back(pairs, back, at);
    }
    let mut least = at;
    for _ in 0..back.len() {
        at = one_back(pairs, back, at);
        least = least.min(at);
    }
    least
}

/// The position one step back, or the same where there is no way back.
fn one_back(pairs: &[(usize, usize)], back: &[Option<usize>], at: usize) -> usize {
    match back.get(at).copied().flatten().and_then(|k| pairs.get(k)) {
        Some(pair) => pair.0,
        None => at,
    }
}

/// A search from a position: the pair that led to each position first, and the positions in the order in which they
/// were come to.
struct Search {
    from: Vec<Option<usize>>,
    reached: Vec<usize>,
}

impl Drop for Search {
    fn drop(self) {
        let Search {
            from: _,
            reached: _,
        } = self;
    }
}

/// Continues from a position. The number of a pair that leads to the start, if there is one.
fn search_on(
    pairs: &[(usize, usize)],
    onward: &Onward,
    search: &mut Search,
    start: usize,
    position: usize,
) -> Result<Option<usize>, AllocError> {
    let mut at = onward.first.get(position).copied().flatten();
    for _ in 0..pairs.len() {
        let Some(k) = at else {
            break;
        };
        if let Some(pair) = pairs.get(k) {
            if pair.1 == start {
                return Ok(Some(k));
            }
            if let Some(way) = search.from.get_mut(pair.1)
                && way.is_none()
            {
                *way = Some(k);
                search.reached.push(pair.1)?;
            }
        }
        at = onward.next.get(k).copied().flatten();
    }
    Ok(None)
}

/// The pairs from the start to the one that leads back to it, by their numbers.
fn way_round(
    alloc: Global,
    pairs: &[(usize, usize)],
    search: &Search,
    start: usize,
    last: usize,
) -> Result<Vec<usize>, AllocError> {
    let mut way = vec![in alloc; last]?;
    let mut at = last;
    for _ in 0..search.reached.len() {
        let Some(pair) = pairs.get(at) else {
            break;
        };
        if pair.0 == start {
            break;
        }
        let Some(before) = search.from.get(pair.0).copied().flatten() else {
            break;
        };
        way.push(before)?;
        at = before;
    }
    way.reverse();
    Ok(way)
}

/// The pairs of a cycle, by their numbers, as few as lead from its first position back to it. No pairs where there is
/// no cycle.
pub fn shortest_cycle(
    alloc: Global,
    size: usize,
    pairs: &[(usize, usize)],
) -> Result<Vec<usize>, AllocError> {
    let onward = onward_of(alloc, size, pairs)?;
    let waiting = waiting_of(alloc, size, pairs, &onward)?;
    let back = ways_back(alloc, size, pairs, waiting.as_slice())?;
    let start = start_of(pairs, back.as_slice());
    let mut search = Search {
        from: vec![in alloc; None; size]?,
        reached: vec![in alloc; start]?,
    };
    for number in 0..size {
        let Some(position) = search.reached.get(number).copied() else {
            break;
        };
        if let Some(last) = search_on(pairs, &onward, &mut search, start, position)? {
            return way_round(alloc, pairs, &search, start, last);
        }
    }
    Ok(Vec::new(alloc))
}
