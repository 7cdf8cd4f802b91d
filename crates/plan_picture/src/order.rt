//! Siblings in the order in which they are drawn.

ghost use Rattle.std.specs.Prelude.{◌≡◌, [], get_or, filter, None, IfOk};
ghost use Rattle.plan_text.specs.Forest.{lists_of};
ghost use Rattle.plan_picture.specs.Order as spec;
ghost use Rattle.plan_picture.specs.Order.{AreDrawn, AreAllDrawn};

use crate::firsts::first_at;
use std::alloc::{AllocError, Global};

/// Whether a line has an action at it or below it.
fn has_action(firsts: &[Option<usize>], line: usize) -> bool
    ensures { result ≡ spec.is_some (get_or firsts.now line None) }
{
    match first_at(firsts, line) {
        Some(_) => true,
        None => false,
    }
}

/// The first action at a line or below it, 0 for none.
fn number_at(firsts: &[Option<usize>], line: usize) -> usize
    ensures { result ≡ spec.number_of (get_or firsts.now line None) }
{
    match first_at(firsts, line) {
        Some(first) => first,
        None => 0,
    }
}

/// The lines that have an action, as they are listed.
fn with_actions(
    alloc: Global,
    firsts: &[Option<usize>],
    listed: &[usize],
) -> Result<Vec<usize>, AllocError>
    ensures { IfOk result (λ lines. lines.items ≡ filter (λ line. spec.is_some (get_or firsts.now line None)) listed.now) }
{
    let mut lines = Vec::new(alloc);
    for line in listed {
        if has_action(firsts, *line) {
            lines.push(*line)?;
        }
    }
    Ok(lines)
}

/// The lines, where each that has an action gives its place to the next of the others.
fn refilled(
    alloc: Global,
    firsts: &[Option<usize>],
    listed: &[usize],
    others: &[usize],
) -> Result<Vec<usize>, AllocError>
    ensures { IfOk result (λ lines. lines.items ≡ spec.refilled (λ line. get_or firsts.now line None) listed.now others.now) }
{
    let mut lines = Vec::new(alloc);
    let mut next = 0;
    for line in listed {
        if next < others.len() && has_action(firsts, *line) {
            lines.push(others[next])?;
            next += 1;
        } else {
            lines.push(*line)?;
        }
    }
    Ok(lines)
}

/// Siblings in the order in which they are drawn.
pub(crate) fn drawn(
    alloc: Global,
    firsts: &[Option<usize>],
    listed: &[usize],
) -> Result<Vec<usize>, AllocError>
    ensures { IfOk result (λ lines. AreDrawn (λ line. get_or firsts.now line None) listed.now lines.items) }
{
    let mut by_action = with_actions(alloc, firsts, listed)?;
    by_action.sort_by_key(|line| number_at(firsts, *line))?;
    let lines = refilled(alloc, firsts, listed, by_action.as_slice())?;
    Ok(lines)
}

/// The children of each line in that order.
pub(crate) fn all_drawn(
    alloc: Global,
    firsts: &[Option<usize>],
    lists: &[Vec<usize>],
) -> Result<Vec<Vec<usize>>, AllocError>
    ensures { IfOk result (λ all. AreAllDrawn (λ line. get_or firsts.now line None) (lists_of lists.now) (lists_of all.items)) }
{
    let mut all = Vec::new(alloc);
    for listed in lists {
        all.push(drawn(alloc, firsts, listed.as_slice())?)?;
    }
    Ok(all)
}
