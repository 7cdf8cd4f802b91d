//! Whether a table of calls in frames is closed.
ghost use Rattle.std.specs.Prelude.{◌≡◌, ◌+◌, ◌≤◌, All, IfOk, IsTrue, Some};
ghost use Rattle.call_table.specs.Lists.{list_at, nodes_of};
ghost use Rattle.call_table.specs.Views.{AreExits, ArePlaces, IsMetAt, call_at};
ghost use Rattle.call_proof.specs.Parts.{AreClosedCalls, IsClosedCall, IsFollowedBy, masks_of};
ghost use Rattle.state_table.specs.Table.{IsTable};

use crate::frames::Frames;
use crate::looked::{Looked, look_up};
use crate::parts::is_frame_inside;
use crate::whole::whole_call;
use call_nodes::CallNodes;
use call_table::{BlockLists, Call, CallTable, Place, Site, are_exits_met, are_rules_met, covers};
use indexmap::IndexMap;
use std::alloc::{AllocError, Global};

/// Whether a call inside another one, with the nodes of a list behind, allows the floor of that one after a number of
/// steps, and leads to its places.
fn is_through(
    lists: &BlockLists,
    call: &Call,
    places: &IndexMap<Site, u32>,
    inner: &Call,
    rest: u32,
    steps: u32,
) -> bool
    requires { ArePlaces call.now places.now }
    ensures floor { IsTrue result → call.now.floor ≤ steps + (inner.now.floor + nodes_of lists.now.counts (list_at lists.now rest)) }
    ensures exits { IsTrue result
        → All (λ e. IsMetAt lists.now call.now e.state (list_at lists.now rest) (steps + e.cost)) inner.now.exits.items }
{
    let ended = u64::from(steps) + u64::from(inner.floor);
    if u64::from(call.floor) > ended.saturating_add(lists.nodes(rest)) {
        return false;
    }
    are_exits_met(lists, call, places, &inner.exits, rest, steps)
}

/// Whether a place of a call is followed: its first node as a call in its frame, which is inside that of the call.
fn is_followed(
    alloc: Global,
    nodes: &CallNodes<'_>,
    frames: &Frames,
    table: &CallTable,
    call: &Call,
    looked: &Looked,
    place: &Place,
) -> Result<bool, AllocError>
    requires places { ArePlaces call.now looked.now.places }
    requires exits { AreExits call.now looked.now.exits }
    ensures { IfOk result (λ b. IsTrue b → IsTable nodes.now.atoms
        → IsFollowedBy nodes.now (masks_of frames.now) table.now call.now looked.now.node place.now.state
        (list_at nodes.now.lists place.now.blocks) place.now.distance) }
{
    let lists = nodes.lists();
    let Some(link) = lists.link(place.blocks) else {
        return Ok(covers(call, &looked.exits, place.state, place.distance));
    };
    if !is_frame_inside(frames, link.first, looked.node) {
        return Ok(false);
    }
    let Some(inner) = whole_call(alloc, nodes, frames, table, place.state, link.first)? else {
        return Ok(false);
    };
    Ok(is_through(
        lists,
        call,
        &looked.places,
        &inner,
        link.rest,
        place.distance,
    ))
}

/// Whether a node in a part of a state is a closed call, by its rules, exits and places.
fn is_closed(
    alloc: Global,
    nodes: &CallNodes<'_>,
    frames: &Frames,
    table: &CallTable,
    site: &Site,
    call: &Call,
) -> Result<bool, AllocError>
    requires { call_at table.now site.now.state site.now.number ≡ Some call.now }
    ensures { IfOk result (λ b. IsTrue b → IsTable nodes.now.atoms
        → IsClosedCall nodes.now (masks_of frames.now) table.now site.now.state site.now.number call.now) }
{
    let looked = look_up(alloc, site.number, call)?;
    if !are_rules_met(nodes.lists(), call, &looked.places) {
        return Ok(false);
    }
    for place in &call.places {
        if !is_followed(alloc, nodes, frames, table, call, &looked, place)? {
            return Ok(false);
        }
    }
    Ok(true)
}

/// Whether the calls of a table are closed in the frames of their nodes: each rule of a call is met by its places, and
/// each place is followed as a call of its first node, in that node's frame. It takes time linear in the table and in
/// the words of masks, and memory for one call at a time. An error means that memory was refused.
pub(crate) fn are_closed_in(
    alloc: Global,
    nodes: &CallNodes<'_>,
    frames: &Frames,
    table: &CallTable,
) -> Result<bool, AllocError>
    ensures { IfOk result (λ b. IsTrue b → IsTable nodes.now.atoms
        → AreClosedCalls nodes.now (masks_of frames.now) table.now) }
{
    for k in 0..table.calls.len() {
        let Some((site, call)) = table.calls.get_index(k) else {
            return Ok(false);
        };
        if !is_closed(alloc, nodes, frames, table, site, call)? {
            return Ok(false);
        }
    }
    Ok(true)
}
