//! The places and the exits of a call, to look up.
ghost use Rattle.std.specs.Prelude.{IfOk};
ghost use Rattle.call_table.specs.Views.{AreExits, ArePlaces};

use crate::call::Call;
use crate::site::Site;
use indexmap::IndexMap;
use std::alloc::{AllocError, Global};

/// The distance of each place of a call, by its state and its blocks.
pub fn places_of(alloc: Global, call: &Call) -> Result<IndexMap<Site, u32>, AllocError>
    ensures { IfOk result (ArePlaces call.now) }
{
    let mut found = IndexMap::with_capacity(alloc, call.places.len())?;
    for place in &call.places {
        let site = Site {
            state: place.state,
            number: place.blocks,
        };
        found.insert(site, place.distance)?;
    }
    Ok(found)
}

/// The cost of each exit of a call, by its state.
pub fn exits_of(alloc: Global, call: &Call) -> Result<IndexMap<u32, u32>, AllocError>
    ensures { IfOk result (AreExits call.now) }
{
    let mut found = IndexMap::with_capacity(alloc, call.exits.len())?;
    for exit in &call.exits {
        found.insert(exit.state, exit.cost)?;
    }
    Ok(found)
}
