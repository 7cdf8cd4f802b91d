//! Brackets close, and nest at most 64 deep.

ghost use Rattle.std.specs.Prelude.{◌≡◌, ◌≢◌, [], map, reverse, OnOk, IfErr};
ghost use Rattle.hddl_words.specs.Brackets.{Nests, bracket_fault, Checks, Steps};
ghost use Rattle.hddl_words.specs.Faults.{BracketFaultAt};
ghost use Rattle.hddl_words.specs.Words.{word_of};

use crate::fault::TextFault;
use crate::token::{Kind, Token};
use std::alloc::Global;

/// The most brackets that are open at once.
const MAX_OPEN: usize = 64;

/// Checks that brackets nest at most 64 deep, that each closing one closes another, and that all are closed.
///
/// The first fault from the left is answered: `TooDeep`, `ExtraClose` or, at the end, `Unclosed`.
pub fn check_brackets(alloc: Global, tokens: &[Token<'_>]) -> Result<(), TextFault>
    // Words whose brackets nest are accepted, unless memory runs out, and no others.
    ensures ok { OnOk result (Nests 0 (map word_of tokens.now)) }
    ensures refused { IfErr result (λ fault. fault ≢ TextFault.OutOfMemory → Nests 0 (map word_of tokens.now) → ⊥) }
    // Each fault stands at its place, and is the first from the left.
    ensures fault { IfErr result (BracketFaultAt (map word_of tokens.now)) }
    ensures first { Checks result (bracket_fault [] (map word_of tokens.now)) }
{
    let mut places: Vec<usize> = Vec::new(alloc);
    for token in tokens {
        step(&mut places, token)?;
    }
    match places.pop() {
        Some(place) => Err(TextFault::Unclosed(place)),
        None => Ok(()),
    }
}

/// Keeps the places of the brackets that are open, the innermost last.
fn step(places: &mut Vec<usize>, token: &Token<'_>) -> Result<(), TextFault>
    ensures { Steps result token.now.kind token.now.place (reverse places.old.items) (reverse places.new.items) }
{
    match token.kind {
        Kind::Open => {
            if places.len() == MAX_OPEN {
                return Err(TextFault::TooDeep(token.place));
            }
            places.push(token.place)?;
            Ok(())
        }
        Kind::Close => match places.pop() {
            Some(_) => Ok(()),
            None => Err(TextFault::ExtraClose(token.place)),
        },
        _ => Ok(()),
    }
}
