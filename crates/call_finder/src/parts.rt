//! The numbers of parts of states, and of states with other parts.
ghost use Rattle.std.specs.Prelude.{IfSome, OnOk};
ghost use Rattle.call_nodes.specs.Nodes.{AreNodes};
ghost use Rattle.htn_model.specs.Task as tasks;
ghost use Rattle.state_table.specs.Table.{IsSetOf};

use crate::masks::Masks;
use call_nodes::CallNodes;
use call_proof::{lifted, within};
use call_table::Site;
use htn_task::Task;
use state_table::BitState;
use std::alloc::{AllocError, Global};

/// The state of a number, if there is one.
fn numbered<'a>(nodes: &'a CallNodes<'_>, number: u32) -> Option<&'a BitState>
    ensures { IfSome result (λ s. (t : tasks.Task) → AreNodes t nodes.now → IsSetOf nodes.now.atoms s.now) }
{
    nodes.states().get(number as usize)
}

/// The number of the part of a state in the frame of a node, which it may get only now. A state that has no number has
/// itself as its part.
pub(crate) fn part_of(
    alloc: Global,
    task: &Task,
    nodes: &mut CallNodes<'_>,
    masks: &Masks,
    site: Site,
) -> Result<u32, AllocError>
    requires { AreNodes task.now nodes.old }
    ensures { OnOk result (AreNodes task.now nodes.new) }
{
    let Some(mask) = masks.mask(site.number) else {
        return Ok(site.state);
    };
    let Some(whole) = numbered(nodes, site.state) else {
        return Ok(site.state);
    };
    let part = within(alloc, whole, mask)?;
    let number = nodes.keep_state(part)?;
    Ok(number)
}

/// The number of a state with what is in the frame of a node as another one has it, which it may get only now. Where
/// one of them has no number it is the other one.
pub(crate) fn lifted_of(
    task: &Task,
    nodes: &mut CallNodes<'_>,
    masks: &Masks,
    site: Site,
    part: u32,
) -> Result<u32, AllocError>
    requires { AreNodes task.now nodes.old }
    ensures { OnOk result (AreNodes task.now nodes.new) }
{
    let Some(mask) = masks.mask(site.number) else {
        return Ok(part);
    };
    let Some(whole) = numbered(nodes, site.state) else {
        return Ok(part);
    };
    let Some(own) = numbered(nodes, part) else {
        return Ok(part);
    };
    let next = lifted(whole, mask, own)?;
    let number = nodes.keep_state(next)?;
    Ok(number)
}
