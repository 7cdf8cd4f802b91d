//! Decimal numbers of plan texts.

ghost use Rattle.std.specs.Prelude.{◌≡◌, ◌<◌, ◌^◌, true, false, map, SomeIff, MatchResult, IfErr, OnOk, IfOk};
ghost use Rattle.std.specs.List.{list_all};
ghost use Rattle.std.specs.Char.{is_ascii_digit};
ghost use Rattle.std.specs.Str.Parse.{digits_value};
ghost use Rattle.plan_text.specs.Line as spec;
ghost use Rattle.plan_text.specs.Adding.{IsNumberFault};
ghost use Rattle.plan_text.specs.Seen.{seen, seen_all};

use crate::fault::PlanFault;
use crate::piece::Piece;
use std::alloc::Global;

/// The number that the digits write, or None where it is above `u64::MAX`.
fn value_of(digits: &[u8]) -> Option<u64>
    requires { list_all is_ascii_digit digits.now ≡ true }
    ensures { SomeIff result (digits_value 10 digits.now < 2 ^ 64) (digits_value 10 digits.now) }
{
    let mut value: u64 = 0;
    for digit in digits {
        value = value
            .checked_mul(10)?
            .checked_add(u64::from(*digit - b'0'))?;
    }
    Some(value)
}

/// The number that a word of digits writes.
pub(crate) fn number_of(word: &Piece<'_>) -> Result<u64, PlanFault>
    requires { spec.is_number (seen word.now) ≡ true }
    ensures value { IfOk result (λ number. number ≡ spec.number (seen word.now)) }
    ensures small { OnOk result (spec.is_small (seen word.now) ≡ true) }
    ensures large { IfErr result (λ fault. (fault ≡ PlanFault.NumberTooLarge word.now.place) × (spec.is_small (seen word.now) ≡ false)) }
{
    match value_of(word.bytes) {
        Some(number) => Ok(number),
        None => Err(PlanFault::NumberTooLarge(word.place)),
    }
}

/// The numbers that words of digits write.
pub(crate) fn numbers_of(alloc: Global, words: &[Piece<'_>]) -> Result<Vec<u64>, PlanFault>
    requires { list_all spec.is_number (seen_all words.now) ≡ true }
    ensures values { IfOk result (λ numbers. numbers.items ≡ map spec.number (seen_all words.now)) }
    ensures small { OnOk result (list_all spec.is_small (seen_all words.now) ≡ true) }
    ensures fault { IfErr result (λ fault. IsNumberFault fault (seen_all words.now)) }
{
    let mut numbers = Vec::with_capacity(alloc, words.len())?;
    for word in words {
        numbers.push(number_of(word)?)?;
    }
    Ok(numbers)
}
