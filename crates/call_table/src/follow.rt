//! What is met at the places and the exits of a call.
ghost use Rattle.std.specs.Prelude.{◌+◌, All, IsTrue};
ghost use Rattle.htn_calls.specs.Calls.{Covers};
ghost use Rattle.call_table.specs.Lists.{list_at};
ghost use Rattle.call_table.specs.Views.{AreExits, ArePlaces, IsMetAt, summary_view};

use crate::call::{Call, Exit};
use crate::lists::BlockLists;
use crate::site::Site;
use indexmap::IndexMap;

/// Whether an end in a state after a number of steps is covered.
pub fn covers(call: &Call, exits: &IndexMap<u32, u32>, state: u32, steps: u32) -> bool
    requires { AreExits call.now exits.now }
    ensures { IsTrue result → Covers (summary_view call.now) state steps }
{
    if call.floor <= steps {
        return true;
    }
    match exits.get(&state) {
        None => false,
        Some(cost) => *cost <= steps,
    }
}

/// Whether a list of blocks is met in a state after a number of steps.
pub fn is_met(
    lists: &BlockLists,
    call: &Call,
    places: &IndexMap<Site, u32>,
    site: Site,
    steps: u64,
) -> bool
    requires { ArePlaces call.now places.now }
    ensures { IsTrue result → IsMetAt lists.now call.now site.state (list_at lists.now site.number) steps }
{
    if u64::from(call.floor) <= steps.saturating_add(lists.nodes(site.number)) {
        return true;
    }
    match places.get(&site) {
        None => false,
        Some(distance) => u64::from(*distance) <= steps,
    }
}

/// Whether the blocks of a list are met at each of some exits, after these steps and those to the exit.
pub fn are_exits_met(
    lists: &BlockLists,
    call: &Call,
    places: &IndexMap<Site, u32>,
    exits: &[Exit],
    rest: u32,
    steps: u32,
) -> bool
    requires { ArePlaces call.now places.now }
    ensures { IsTrue result → All (λ e. IsMetAt lists.now call.now e.state (list_at lists.now rest) (steps + e.cost)) exits.now }
{
    for exit in exits {
        let site = Site {
            state: exit.state,
            number: rest,
        };
        let later = u64::from(steps) + u64::from(exit.cost);
        if !is_met(lists, call, places, site, later) {
            return false;
        }
    }
    true
}

/// Whether the result of each rule of a call is met after one step.
pub fn are_rules_met(lists: &BlockLists, call: &Call, places: &IndexMap<Site, u32>) -> bool
    requires { ArePlaces call.now places.now }
    ensures { IsTrue result → All (λ r. IsMetAt lists.now call.now r.state (list_at lists.now r.blocks) 1) call.now.rules.items }
{
    for rule in &call.rules {
        let site = Site {
            state: rule.state,
            number: rule.blocks,
        };
        if !is_met(lists, call, places, site, 1) {
            return false;
        }
    }
    true
}
