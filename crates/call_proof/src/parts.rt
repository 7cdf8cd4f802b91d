//! The frames of nodes, and the numbers of parts of states.
ghost use Rattle.std.specs.Prelude.{◌≡◌, IfOk, IfSome, IsTrue, Some, slice_get};
ghost use Rattle.call_nodes.specs.Nodes.{state_at};
ghost use Rattle.call_rules.specs.Framed.{IsPart};
ghost use Rattle.call_proof.specs.Masks.{frame_of};
ghost use Rattle.call_proof.specs.Parts.{frame_at, masks_of};
ghost use Rattle.call_rules.specs.Frame as model;
ghost use Rattle.state_table.specs.Table.{IsTable, state_of};

use crate::frames::Frames;
use crate::masks::{is_inside, lifted, within};
use call_nodes::CallNodes;
use state_table::BitState;
use std::alloc::{AllocError, Global};

/// The state of a number, if there is one.
pub(crate) fn numbered<'a>(nodes: &'a CallNodes<'_>, number: u32) -> Option<&'a BitState>
    ensures { IfSome result (λ s. slice_get nodes.now.states number ≡ Some s.now) }
{
    nodes.states().get(number as usize)
}

/// The number of the part of a state in the frame of a node; none where one of the three has no number.
pub(crate) fn part_of(
    alloc: Global,
    nodes: &CallNodes<'_>,
    frames: &Frames,
    state: u32,
    node: u32,
) -> Result<Option<u32>, AllocError>
    ensures { IfOk result (λ o. IfSome o (λ k. IsTable nodes.now.atoms
        → IsPart (frame_at nodes.now (masks_of frames.now) node) (state_at nodes.now state) (state_at nodes.now k))) }
{
    let Some(whole) = numbered(nodes, state) else {
        return Ok(None);
    };
    let Some(mask) = frames.mask(node) else {
        return Ok(None);
    };
    let part = within(alloc, whole, mask)?;
    Ok(nodes.number_of(&part))
}

/// The number of a state with what is in the frame of a mask as the state of another number has it, if it has one.
pub(crate) fn lifted_of(
    nodes: &CallNodes<'_>,
    whole: &BitState,
    mask: &BitState,
    part: u32,
) -> Result<Option<u32>, AllocError>
    ensures { IfOk result (λ o. IfSome o (λ k. IsTable nodes.now.atoms
        → state_at nodes.now k ≡ model.lift (frame_of nodes.now.atoms mask.now) (state_of nodes.now.atoms whole.now) (state_at nodes.now part))) }
{
    let Some(own) = numbered(nodes, part) else {
        return Ok(None);
    };
    let state = lifted(whole, mask, own)?;
    Ok(nodes.number_of(&state))
}

/// Whether the frame of one node is inside that of another.
pub(crate) fn is_frame_inside(frames: &Frames, inner: u32, outer: u32) -> bool
    ensures { IsTrue result → (n : CallNodes) → IsTable n.atoms
        → model.IsInside (frame_at n (masks_of frames.now) inner) (frame_at n (masks_of frames.now) outer) }
{
    let Some(mask) = frames.mask(inner) else {
        return false;
    };
    let Some(other) = frames.mask(outer) else {
        return false;
    };
    is_inside(mask, other)
}
