//! Ranks of numbers: two numbers have the same exactly where each leads to the other.
//!
//! No promise rests on the walks that find them but that of speed.
//!
//! In the words of graphs: the numbers of strongly connected components, by Kosaraju's algorithm.
ghost use Rattle.std.specs.Prelude.{◌≡◌, get_or};

use crate::rows::Rows;
use std::alloc::{AllocError, Global};

/// Opens a number, if that is done for the first time, with none of its row followed.
fn enter(
    entered: &mut Vec<bool>,
    open: &mut Vec<(usize, usize)>,
    number: usize,
) -> Result<(), AllocError> {
    if let Some(flag) = entered.get_mut(number)
        && !*flag
    {
        *flag = true;
        open.push((number, 0))?;
    }
    Ok(())
}

/// The numbers, each once. Of two of which one leads to the other, and not back, the other is first.
pub(crate) fn in_order(alloc: Global, rows: &Rows) -> Result<Vec<usize>, AllocError> {
    let mut order = Vec::with_capacity(alloc, rows.len())?;
    let mut entered = vec![in alloc; false; rows.len()]?;
    let mut open = Vec::new(alloc);
    for start in 0..rows.len() {
        enter(&mut entered, &mut open, start)?;
        for _ in 0..u64::MAX {
            let Some((number, followed)) = open.pop() else {
                break;
            };
            match rows.row_or_empty(number).get(followed) {
                Some(next) => {
                    open.push((number, followed + 1))?;
                    enter(&mut entered, &mut open, *next)?;
                }
                None => order.push(number)?,
            }
        }
    }
    Ok(order)
}

/// Gives a number a rank, if it has none, and opens it.
fn give_rank(
    ranks: &mut Vec<Option<usize>>,
    open: &mut Vec<usize>,
    number: usize,
    rank: usize,
) -> Result<(), AllocError> {
    if let Some(given) = ranks.get_mut(number)
        && given.is_none()
    {
        *given = Some(rank);
        open.push(number)?;
    }
    Ok(())
}

/// Gives each number in turn, with all that it leads to, a rank of their own, if they have none.
fn group_ranks(
    alloc: Global,
    rows: &Rows,
    order: &[usize],
) -> Result<Vec<Option<usize>>, AllocError> {
    let mut ranks = vec![in alloc; None; rows.len()]?;
    let mut open = Vec::new(alloc);
    for (rank, start) in order.iter().enumerate() {
        give_rank(&mut ranks, &mut open, *start, rank)?;
        for _ in 0..u64::MAX {
            let Some(number) = open.pop() else {
                break;
            };
            for next in rows.row_or_empty(number) {
                give_rank(&mut ranks, &mut open, *next, rank)?;
            }
        }
    }
    Ok(ranks)
}

/// A rank for each number. `back` has the rows the other way round. The work is that of going over all rows.
pub(crate) fn ranks_of(alloc: Global, rows: &Rows, back: &Rows) -> Result<Vec<usize>, AllocError> {
    let mut order = in_order(alloc, back)?;
    order.reverse();
    let ranks = group_ranks(alloc, rows, order.as_slice())?;
    ranks.iter().map(|rank| rank.unwrap_or(0)).collect(alloc)
}

/// The rank of a number, or 0 where the table has none.
pub(crate) fn rank_of(ranks: &[usize], number: usize) -> usize
    ensures { result ≡ get_or ranks.now number 0 }
{
    ranks.get(number).copied().unwrap_or(0)
}
