//! Calls in whole states, lifted from those in parts.
ghost use Rattle.std.specs.Prelude.{◌≡◌, [], IfOk, IfSome, IsTrue, get_or, map};
ghost use Rattle.call_proof.specs.Parts.{AreWhole, IsWholeCall, exit_at, exit_in};
ghost use Rattle.call_proof.specs.Parts.{masks_of};
ghost use Rattle.state_table.specs.Table.{IsTable};

use crate::frames::Frames;
use crate::parts::{lifted_of, numbered, part_of};
use call_nodes::CallNodes;
use call_table::{Call, CallTable, Exit, Site};
use state_table::BitState;
use std::alloc::{AllocError, Global};

/// Exits of a part in a whole state, by a mask; none where one of them has no number.
fn whole_exits(
    alloc: Global,
    nodes: &CallNodes<'_>,
    whole: &BitState,
    mask: &BitState,
    exits: &[Exit],
) -> Result<Option<Vec<Exit>>, AllocError>
    ensures { IfOk result (λ o. IfSome o (λ es. IsTable nodes.now.atoms
        → map (exit_at nodes.now) es.items ≡ map (exit_in nodes.now mask.now whole.now) exits.now)) }
{
    let mut found = Vec::with_capacity(alloc, exits.len())?;
    for exit in exits {
        let Some(state) = lifted_of(nodes, whole, mask, exit.state)? else {
            return Ok(None);
        };
        let cost = exit.cost;
        found.push(Exit { state, cost })?;
    }
    Ok(Some(found))
}

/// Exits of a node in the part of a state, in the whole state; none where something has no number.
fn exits_at(
    alloc: Global,
    nodes: &CallNodes<'_>,
    frames: &Frames,
    exits: &[Exit],
    state: u32,
    node: u32,
) -> Result<Option<Vec<Exit>>, AllocError>
    ensures { IfOk result (λ o. IfSome o (λ es. IsTable nodes.now.atoms → map (exit_at nodes.now) es.items
        ≡ map (exit_in nodes.now (get_or (masks_of frames.now) node []) (get_or nodes.now.states state [])) exits.now)) }
{
    let Some(whole) = numbered(nodes, state) else {
        return Ok(None);
    };
    let Some(mask) = frames.mask(node) else {
        return Ok(None);
    };
    let found = whole_exits(alloc, nodes, whole, mask, exits)?;
    Ok(found)
}

/// The call of a node in a state, lifted from that in the part of the state in the node's frame; its rules and places
/// are left out. None where the table has no such call, and where the part or an exit has no number.
pub(crate) fn whole_call(
    alloc: Global,
    nodes: &CallNodes<'_>,
    frames: &Frames,
    table: &CallTable,
    state: u32,
    node: u32,
) -> Result<Option<Call>, AllocError>
    ensures { IfOk result (λ o. IfSome o (λ c. IsTable nodes.now.atoms
        → IsWholeCall nodes.now (masks_of frames.now) table.now state node c)) }
{
    let Some(part) = part_of(alloc, nodes, frames, state, node)? else {
        return Ok(None);
    };
    let site = Site {
        state: part,
        number: node,
    };
    let Some(call) = table.calls.get(&site) else {
        return Ok(None);
    };
    let Some(exits) = exits_at(alloc, nodes, frames, &call.exits, state, node)? else {
        return Ok(None);
    };
    Ok(Some(Call {
        rules: Vec::new(alloc),
        exits,
        floor: call.floor,
        places: Vec::new(alloc),
    }))
}

/// Whether two exits are equal.
fn is_same_exit(one: Exit, other: Exit) -> bool
    ensures state { IsTrue result → one.state ≡ other.state }
    ensures cost { IsTrue result → one.cost ≡ other.cost }
{
    one.state == other.state && one.cost == other.cost
}

/// Whether these are the same exits, in their order.
fn are_same_exits(one: &[Exit], other: &[Exit]) -> bool
    ensures { IsTrue result → one.now ≡ other.now }
{
    if one.len() != other.len() {
        return false;
    }
    for k in 0..one.len() {
        if !is_same_exit(one[k], other[k]) {
            return false;
        }
    }
    true
}

/// Whether two calls have the same floor and the same exits.
fn is_same_call(one: &Call, other: &Call) -> bool
    ensures floor { IsTrue result → one.now.floor ≡ other.now.floor }
    ensures exits { IsTrue result → one.now.exits.items ≡ other.now.exits.items }
{
    if one.floor != other.floor {
        return false;
    }
    are_same_exits(&one.exits, &other.exits)
}

/// Whether a call of a node in a state is lifted from that of a table.
fn is_lifted(
    alloc: Global,
    nodes: &CallNodes<'_>,
    frames: &Frames,
    table: &CallTable,
    site: &Site,
    call: &Call,
) -> Result<bool, AllocError>
    ensures { IfOk result (λ b. IsTrue b → IsTable nodes.now.atoms
        → IsWholeCall nodes.now (masks_of frames.now) table.now site.now.state site.now.number call.now) }
{
    let Some(own) = whole_call(alloc, nodes, frames, table, site.state, site.number)? else {
        return Ok(false);
    };
    Ok(is_same_call(call, &own))
}

/// Whether the calls of nodes in whole states are lifted from those of a table.
pub(crate) fn are_lifted(
    alloc: Global,
    nodes: &CallNodes<'_>,
    frames: &Frames,
    table: &CallTable,
    whole: &CallTable,
) -> Result<bool, AllocError>
    ensures { IfOk result (λ b. IsTrue b → IsTable nodes.now.atoms
        → AreWhole nodes.now (masks_of frames.now) table.now whole.now) }
{
    for k in 0..whole.calls.len() {
        let Some((site, call)) = whole.calls.get_index(k) else {
            return Ok(false);
        };
        if !is_lifted(alloc, nodes, frames, table, site, call)? {
            return Ok(false);
        }
    }
    Ok(true)
}
