//! How far two names are from each other.

ghost use Rattle.std.specs.Prelude.{◌≡◌, ◌&&◌, nat_lt, nat_le, if◌then◌else◌, IfOk, length, encode_utf8_all, string_bytes};
ghost use Rattle.std.specs.Str.{str_to_ascii_lowercase};
ghost use Rattle.diagnostics.specs.Near.{distance_of, score_of, slip_len};

use std::alloc::{AllocError, Global};
use strsim::osa_distance;

/// A name of more bytes than this stands for no other: the time that a distance takes grows with the product of the
/// two lengths.
const LONGEST: usize = 100;

/// The most edits that a slip makes in a name of this length.
pub(crate) fn slip_limit(len: usize) -> usize
    ensures { result ≡ slip_len len }
{
    if len > LONGEST { 0 } else { (len / 3).max(1) }
}

/// A text that has a character for each byte of a name in lower case.
fn lowered(alloc: Global, name: &[u8]) -> Result<String, AllocError>
    ensures { IfOk result (λ text. string_bytes text ≡ encode_utf8_all (str_to_ascii_lowercase name.now)) }
{
    let mut text = String::new(alloc);
    for byte in name {
        text.push(byte.to_ascii_lowercase() as char)?;
    }
    Ok(text)
}

/// The distance from one name to the other.
fn distance(alloc: Global, name: &[u8], other: &[u8]) -> Result<usize, AllocError>
    ensures { IfOk result (λ distance. distance ≡ distance_of name.now other.now) }
{
    let left = lowered(alloc, name)?;
    let right = lowered(alloc, other)?;
    osa_distance(alloc, left.as_str(), right.as_str())
}

/// The score at a distance.
fn score_at(distance: usize, limit: usize) -> Option<usize>
    ensures { result ≡ (if nat_lt 0 distance && nat_le distance limit then Some distance else None) }
{
    if distance > 0 && distance <= limit {
        Some(distance)
    } else {
        None
    }
}

/// The distance from a name to a candidate; None where it is 0 or past the limit. Lengths that differ by more than the
/// limit show the latter at once.
pub(crate) fn score(
    alloc: Global,
    name: &[u8],
    limit: usize,
    candidate: &[u8],
) -> Result<Option<usize>, AllocError>
    requires { limit ≡ slip_len (length name.now) }
    ensures { IfOk result (λ score. score ≡ score_of name.now candidate.now) }
{
    if name.len().abs_diff(candidate.len()) > limit {
        return Ok(None);
    }
    let distance = distance(alloc, name, candidate)?;
    Ok(score_at(distance, limit))
}
