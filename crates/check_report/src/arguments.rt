//! Names that stand as arguments.
ghost use Rattle.std.specs.Prelude.{◌≡◌, ◌≢◌, ◌↔◌, IfOk, true, map};
ghost use Rattle.hddl_words.specs.Words.{word_of};
ghost use Rattle.hddl_words.specs.declared.token.Kind.TheVariants as kinds;
ghost use Rattle.check_report.specs.Alone as spec;
ghost use Rattle.check_report.specs.Alone.{AreArguments, ArePlaces};
ghost use Rattle.pair_messages.specs.Heads.{at_of};

use hddl_meaning::{At, CheckFault, Source};
use hddl_words::{Kind, Token, lex};
use indexmap::IndexSet;
use std::alloc::{AllocError, Global};

/// Whether a word is a name that isn't the first word in its brackets, by the kind of the word before it.
fn is_argument(before: Kind, kind: Kind) -> bool
    ensures { (result ≡ true) ↔ ((before ≢ kinds.Open) × (kind ≡ kinds.Name)) }
{
    before != Kind::Open && kind == Kind::Name
}

/// The places of names that aren't the first words in their brackets.
fn places_in(alloc: Global, tokens: &[Token<'_>]) -> Result<IndexSet<usize>, AllocError>
    ensures { IfOk result (λ places. ArePlaces (map word_of tokens.now) places.keys) }
{
    let mut places = IndexSet::new(alloc);
    let mut before = Kind::Open;
    for token in tokens {
        if is_argument(before, token.kind) {
            places.insert(token.place)?;
        }
        before = token.kind;
    }
    Ok(places)
}

/// The places of arguments that are names, in a text that has words.
pub(crate) fn argument_places(alloc: Global, text: &[u8]) -> Result<IndexSet<usize>, AllocError>
    ensures { IfOk result (λ places. AreArguments text.now places.keys) }
{
    // A text that has words is refused for memory alone.
    match lex(alloc, text) {
        Ok(tokens) => places_in(alloc, tokens.as_slice()),
        Err(_) => Err(AllocError),
    }
}

/// Where a fault stands.
fn place_of(fault: CheckFault) -> Option<At>
    ensures { result ≡ at_of fault }
{
    match fault {
        CheckFault::Duplicate(at)
        | CheckFault::UnknownType(at)
        | CheckFault::TypeCycle(at)
        | CheckFault::UnknownName(at)
        | CheckFault::Arity(at)
        | CheckFault::TypeClash(at)
        | CheckFault::OrderCycle(at)
        | CheckFault::UnknownSubtask(at)
        | CheckFault::TooMany(at) => Some(at),
        CheckFault::OutOfMemory => None,
    }
}

/// Whether a side is the domain.
fn is_of_domain(source: Source) -> bool
    ensures { result ≡ spec.is_of_domain source }
{
    match source {
        Source::Domain => true,
        Source::Problem => false,
    }
}

/// Whether a fault stands in the domain.
fn is_in_domain(fault: CheckFault) -> bool
    ensures { result ≡ spec.stands_in_domain (at_of fault) }
{
    match place_of(fault) {
        Some(at) => is_of_domain(at.source),
        None => false,
    }
}

/// Whether a fault is of an object of the domain that isn't declared, by the places of arguments.
fn is_open_object(arguments: &IndexSet<usize>, fault: CheckFault) -> bool
    ensures { result ≡ spec.is_open_object arguments.now.keys fault }
{
    match fault {
        CheckFault::UnknownName(at) => is_of_domain(at.source) && arguments.contains(&at.place),
        _ => false,
    }
}

/// Whether a fault is the domain's own, by the places of arguments.
pub(crate) fn is_own(arguments: &IndexSet<usize>, fault: CheckFault) -> bool
    ensures { result ≡ spec.is_own arguments.now.keys fault }
{
    is_in_domain(fault) && !is_open_object(arguments, fault)
}
