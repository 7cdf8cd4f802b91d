//! What is looked up of a call that is checked.
ghost use Rattle.std.specs.Prelude.{◌≡◌, IfOk};
ghost use Rattle.call_table.specs.Views.{AreExits, ArePlaces};

use call_table::{Call, Site, exits_of, places_of};
use indexmap::IndexMap;
use std::alloc::{AllocError, Global};

/// A call's node, and its places and exits as they are looked up.
pub(crate) struct Looked {
    pub(crate) node: u32,
    /// The distance of each place, by its state and its list.
    pub(crate) places: IndexMap<Site, u32>,
    /// The cost of each exit, by its state.
    pub(crate) exits: IndexMap<u32, u32>,
}

impl Drop for Looked {
    fn drop(self) {
        let Looked {
            node: _,
            places: _,
            exits: _,
        } = self;
    }
}

/// What is looked up of a call of a node.
pub(crate) fn look_up(alloc: Global, node: u32, call: &Call) -> Result<Looked, AllocError>
    ensures node { IfOk result (λ l. l.node ≡ node) }
    ensures places { IfOk result (λ l. ArePlaces call.now l.places) }
    ensures exits { IfOk result (λ l. AreExits call.now l.exits) }
{
    let places = places_of(alloc, call)?;
    let exits = exits_of(alloc, call)?;
    Ok(Looked {
        node,
        places,
        exits,
    })
}
