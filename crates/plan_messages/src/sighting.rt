//! The first two places of numbers.

ghost use Rattle.std.specs.Prelude.{◌≡◌, [], ◌∷◌, ◌++◌, List, IfOk, map, length};
ghost use Rattle.htn_model.specs.PlanFile.{IsWithoutRepeats};
ghost use Rattle.plan_messages.specs.Sightings.{seen_again, seen_of};
ghost use Rattle.plan_messages.specs.declared.mentions.Mention as spec;

use crate::mentions::Mention;
use indexmap::IndexSet;
use std::alloc::{AllocError, Global};

/// The first two places of a number.
#[derive(Clone, Copy, Debug, PartialEq, Eq)]
pub struct Sighting {
    pub first: usize,
    pub second: Option<usize>,
}

/// What is seen of a number with one place more.
fn seen_again(seen: Option<Sighting>, place: usize) -> Option<Sighting>
    ensures { result ≡ seen_again seen place }
{
    match seen {
        None => Some(Sighting {
            first: place,
            second: None,
        }),
        Some(sighting) => Some(Sighting {
            first: sighting.first,
            second: Some(sighting.second.unwrap_or(place)),
        }),
    }
}

/// Nothing for each of some numbers.
fn unseen(alloc: Global, ids: &[u64]) -> Result<Vec<Option<Sighting>>, AllocError>
    ensures { IfOk result (λ v. v.items ≡ seen_of ids.now []) }
{
    let mut sightings = Vec::with_capacity(alloc, ids.len())?;
    for id in ids {
        let _id = id;
        sightings.push(None)?;
    }
    Ok(sightings)
}

/// The set of some numbers.
fn set_of(alloc: Global, ids: &[u64]) -> Result<IndexSet<u64>, AllocError>
    requires { IsWithoutRepeats ids.now }
    ensures { IfOk result (λ set. set.keys ≡ ids.now) }
{
    let mut set = IndexSet::new(alloc);
    for id in ids {
        let _ = set.insert(*id)?;
    }
    Ok(set)
}

/// Notes the place of a number that is in the set.
fn see(ids: &IndexSet<u64>, sightings: &mut Vec<Option<Sighting>>, mention: Mention)
    requires long { length sightings.old.items ≡ length ids.now.keys }
    requires different { IsWithoutRepeats ids.now.keys }
    ensures long { length sightings.new.items ≡ length ids.now.keys }
    ensures seen { (before : List spec.Mention) → sightings.old.items ≡ seen_of ids.now.keys before
        → sightings.new.items ≡ seen_of ids.now.keys (before ++ mention ∷ []) }
{
    if let Some(number) = ids.get_index_of(&mention.id) {
        sightings[number] = seen_again(sightings[number], mention.place);
    }
}

/// Notes the places of numbers that are in the set.
fn see_all(ids: &IndexSet<u64>, sightings: &mut Vec<Option<Sighting>>, mentions: &[Mention])
    requires long { length sightings.old.items ≡ length ids.now.keys }
    requires different { IsWithoutRepeats ids.now.keys }
    requires unseen { sightings.old.items ≡ seen_of ids.now.keys [] }
    ensures { sightings.new.items ≡ seen_of ids.now.keys mentions.now }
{
    for mention in mentions {
        see(ids, sightings, *mention);
    }
}

/// The first two places of each of some different numbers. An error where memory was refused.
pub fn sightings(
    alloc: Global,
    ids: &[u64],
    mentions: &[Mention],
) -> Result<Vec<Option<Sighting>>, AllocError>
    requires { IsWithoutRepeats ids.now }
    ensures { IfOk result (λ v. v.items ≡ seen_of ids.now mentions.now) }
{
    let set = set_of(alloc, ids)?;
    let mut sightings = unseen(alloc, ids)?;
    see_all(&set, &mut sightings, mentions);
    Ok(sightings)
}
