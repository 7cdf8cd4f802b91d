//! Calls with their rules, exits and places.

use crate::site::Site;
use indexmap::IndexMap;

/// A state in which a call may end, and a number of steps.
#[derive(Clone, Copy, Drop)]
pub struct Exit {
    pub state: u32,
    pub cost: u32,
}

/// The result of a step of a block: a state, and the list of the blocks that replace it.
#[derive(Clone, Copy, Drop)]
pub struct Rule {
    pub state: u32,
    pub blocks: u32,
}

/// A list of blocks in a state, with a lower bound on the steps from the start of the call to there.
#[derive(Clone, Copy, Drop)]
pub struct Place {
    pub state: u32,
    pub blocks: u32,
    pub distance: u32,
}

/// A block in a state: its rules, the states in which it ends with their costs, the floor, below which it has no other
/// end, and the places by which these are checked.
pub struct Call {
    pub rules: Vec<Rule>,
    pub exits: Vec<Exit>,
    pub floor: u32,
    pub places: Vec<Place>,
}

impl Drop for Call {
    fn drop(self) {
        let Call {
            rules: _,
            exits: _,
            floor: _,
            places: _,
        } = self;
    }
}

/// Calls, each by its state and its block.
pub struct CallTable {
    pub calls: IndexMap<Site, Call>,
}

impl Drop for CallTable {
    fn drop(self) {
        let CallTable { calls: _ } = self;
    }
}
