//! Names that must differ.
ghost use Rattle.std.specs.Prelude.{◌≡◌, IfOk, OnOk};
ghost use Rattle.hddl_scope.specs.Findings.{IsOneOf};
ghost use Rattle.hddl_scope.specs.Numbers.{number_at};
ghost use Rattle.hddl_scope.specs.Repeats.{AreRepeats, noted, repeat_of};

use crate::mention::Mention;
use crate::numbers::Numbers;
use std::alloc::{AllocError, Global};

/// The place that comes first, if there is one.
pub(crate) fn least(a: Option<usize>, b: Option<usize>) -> Option<usize>
    ensures { IsOneOf a b result }
{
    match (a, b) {
        (None, _) => b,
        (_, None) => a,
        (Some(first), Some(second)) => Some(first.min(second)),
    }
}

/// Where the later of two names stands, if there are two.
pub(crate) fn later(first: Option<usize>, place: usize) -> Option<usize>
    ensures { result ≡ repeat_of first place }
{
    match first {
        Some(first) => Some(first.max(place)),
        None => None,
    }
}

/// Keeps the place of a name, unless there is one before, which is `first`.
fn note_after(
    alloc: Global,
    known: &mut Numbers,
    mention: &Mention<'_>,
    first: Option<usize>,
) -> Result<(), AllocError>
    requires { first ≡ number_at known.old mention.now.text }
    ensures { OnOk result (known.new ≡ noted known.old mention.now) }
{
    if first.is_none() {
        known.add(alloc, mention.text(), mention.place())?;
    }
    Ok(())
}

/// Keeps the place of a name that is new.
pub(crate) fn note(
    alloc: Global,
    known: &mut Numbers,
    mention: &Mention<'_>,
) -> Result<(), AllocError>
    ensures { OnOk result (known.new ≡ noted known.old mention.now) }
{
    let first = known.get(mention.text());
    note_after(alloc, known, mention, first)
}

/// The places of repeated names: for each name but the first of its text, its place or that of the first, whichever is
/// later.
pub fn repeats(alloc: Global, mentions: &[Mention<'_>]) -> Result<Vec<usize>, AllocError>
    ensures { IfOk result (λ places. AreRepeats 0 mentions.now places.items) }
{
    let mut known = Numbers::with_capacity(alloc, mentions.len())?;
    let mut places = Vec::new(alloc);
    for mention in mentions {
        let first = known.get(mention.text());
        if let Some(first) = first {
            places.push(first.max(mention.place()))?;
        }
        note_after(alloc, &mut known, mention, first)?;
    }
    Ok(places)
}
