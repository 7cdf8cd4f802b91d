//! The nearest candidates.

ghost use Rattle.std.specs.Prelude.{◌≡◌, [], ◌∷◌, ◌++◌, ◌&&◌, nat_lt, if◌then◌else◌, IfOk, OnOk, length, map};
ghost use Rattle.diagnostics.specs.Near.{names_of, nearest_of, score_of, least_of, is_score};

use crate::distance::{score, slip_limit};
use std::alloc::{AllocError, Global};

/// The most candidates that are offered.
const OFFERED: usize = 3;

/// What each candidate scores.
fn scores(
    alloc: Global,
    name: &[u8],
    candidates: &[&[u8]],
) -> Result<Vec<Option<usize>>, AllocError>
    ensures { IfOk result (λ scores. scores.items ≡ map (score_of name.now) (names_of candidates.now)) }
{
    let limit = slip_limit(name.len());
    let mut scores = Vec::new(alloc);
    for candidate in candidates {
        scores.push(score(alloc, name, limit, candidate)?)?;
    }
    Ok(scores)
}

/// The least number among these.
fn least(scores: &[Option<usize>]) -> Option<usize>
    ensures { result ≡ least_of scores.now }
{
    let mut least: Option<usize> = None;
    for score in scores {
        least = match (least, *score) {
            (Some(one), Some(other)) => Some(one.min(other)),
            (None, other) => other,
            (one, None) => one,
        };
    }
    least
}

/// Whether a score is the least one, if there is one.
fn is_least(score: Option<usize>, least: Option<usize>) -> bool
    ensures { result ≡ is_score least score }
{
    match (least, score) {
        (Some(least), Some(score)) => score == least,
        _ => false,
    }
}

/// Puts an index to those that are offered, if there is room for it.
fn offer(found: &mut Vec<usize>, index: usize, is_nearest: bool) -> Result<(), AllocError>
    ensures { OnOk result (found.new.items ≡ (if is_nearest && nat_lt (length found.old.items) 3 then found.old.items ++ index ∷ [] else found.old.items)) }
{
    if is_nearest && found.len() < OFFERED {
        found.push(index)?;
    }
    Ok(())
}

/// The indices of the candidates that are nearest to a misspelt name, in their order, three at most. Names are compared
/// in lower case, and the distance is that of optimal string alignment. A candidate that is the name itself isn't
/// offered, nor one that is farther than a third of the name's bytes, or than 1 where that is more; for a name of more
/// than 100 bytes there is none. An error where memory was refused.
pub fn nearest(alloc: Global, name: &[u8], candidates: &[&[u8]]) -> Result<Vec<usize>, AllocError>
    ensures { IfOk result (λ found. found.items ≡ nearest_of name.now (names_of candidates.now)) }
{
    let scores = scores(alloc, name, candidates)?;
    let mut found = Vec::new(alloc);
    let least = least(scores.as_slice());
    for (index, score) in scores.iter().enumerate() {
        offer(&mut found, index, is_least(*score, least))?;
    }
    Ok(found)
}
