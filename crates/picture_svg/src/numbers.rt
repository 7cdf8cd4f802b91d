//! Sums and products that may be too large.

ghost use Rattle.std.specs.Prelude.{◌≡◌, ◌+◌, ◌*◌, max, get_or, IfOk};

use std::alloc::AllocError;

/// The sum of two numbers. One that passes 64 bits is refused as memory is: the names behind it have no room there.
pub(crate) fn plus(a: usize, b: usize) -> Result<usize, AllocError>
    ensures { IfOk result (λ n. n ≡ a + b) }
{
    match a.checked_add(b) {
        Some(n) => Ok(n),
        None => Err(AllocError),
    }
}

/// The product of two numbers; an error as in `plus`.
pub(crate) fn times(a: usize, b: usize) -> Result<usize, AllocError>
    ensures { IfOk result (λ n. n ≡ a * b) }
{
    match a.checked_mul(b) {
        Some(n) => Ok(n),
        None => Err(AllocError),
    }
}

/// The larger of two numbers.
pub(crate) fn larger(a: usize, b: usize) -> usize
    ensures { result ≡ max a b }
{
    if a < b { b } else { a }
}

/// The number at a place; 0 past the end.
pub(crate) fn number_at(numbers: &[usize], place: usize) -> usize
    ensures { result ≡ get_or numbers.now place 0 }
{
    match numbers.get(place) {
        Some(number) => *number,
        None => 0,
    }
}
