//! Whether the word of a proposal is the least finishing one.
ghost use Rattle.std.specs.Prelude.{◌≡◌, ◌≤◌, ℕ, IfOk, IsTrue, map};
ghost use Rattle.call_nodes.specs.Nodes.{AreListsOf, AreNodes, children};
ghost use Rattle.call_proof.specs.Checked.{AreFramed};
ghost use Rattle.call_proof.specs.Parts.{masks_of};
ghost use Rattle.htn_ground.specs.Distinct.{distinct};
ghost use Rattle.htn_model.specs.Grounding.{problem_of};
ghost use Rattle.htn_model.specs.Instances.{initials};
ghost use Rattle.htn_model.specs.Literal.{holds};
ghost use Rattle.htn_model.specs.Task as tasks;
ghost use Rattle.htn_walk.specs.Listed.{listing_machine};
ghost use Rattle.state_table.specs.Table.{state_of};
ghost use Rattle.word_machine.specs.Answer.{IsLeastFinishing};
ghost use Rattle.word_machine.specs.Words.{step_count};

use crate::check::are_closed_in;
use crate::frames::Frames;
use crate::proposal::FramedProposal;
use crate::reads::are_frames;
use crate::rules::are_rules;
use crate::walk::is_word;
use crate::whole::are_lifted;
use call_nodes::CallNodes;
use call_table::{CallTable, are_estimates};
use htn_task::Task;
use std::alloc::{AllocError, Global};

/// The greatest value of the empty list where the goal does not hold.
const NEVER: u32 = u32::MAX;

/// In which states the goal holds.
fn ends_of(alloc: Global, nodes: &CallNodes<'_>) -> Result<Vec<bool>, AllocError>
    ensures { IfOk result (λ ends. (t : tasks.Task) → AreNodes t nodes.now
        → ends.items ≡ map (λ s. holds (state_of nodes.now.atoms s) (problem_of t).goal) nodes.now.states) }
{
    let states = nodes.states();
    let mut ends = Vec::with_capacity(alloc, states.len())?;
    for state in states {
        ends.push(nodes.is_goal(state))?;
    }
    Ok(ends)
}

/// Whether the calls of a table are closed in the frames of their nodes, and those of another in whole states are
/// lifted from them.
fn are_framed(
    alloc: Global,
    task: &Task,
    nodes: &CallNodes<'_>,
    frames: &Frames,
    table: &CallTable,
    whole: &CallTable,
) -> Result<bool, AllocError>
    requires { AreNodes task.now nodes.now }
    ensures { IfOk result (λ b. IsTrue b → AreFramed task.now nodes.now (masks_of frames.now) table.now whole.now) }
{
    if !are_frames(alloc, task, nodes, frames)? {
        return Ok(false);
    }
    if !are_rules(nodes, table)? {
        return Ok(false);
    }
    if !are_closed_in(alloc, nodes, frames, table)? {
        return Ok(false);
    }
    if !are_rules(nodes, whole)? {
        return Ok(false);
    }
    let are = are_lifted(alloc, nodes, frames, table, whole)?;
    Ok(are)
}

/// Whether the word of a proposal is the least finishing one of a task, within each bound that has its steps: the
/// proposal is checked in one pass, and shows it. A proposal that fails the check says nothing of its word. `starts`
/// are the lists of the initial networks, in the order of their ranks. An error means that memory was refused.
pub fn is_least(
    alloc: Global,
    task: &Task,
    nodes: &CallNodes<'_>,
    frames: &Frames,
    starts: &[u32],
    proposal: &FramedProposal,
) -> Result<bool, AllocError>
    requires nodes { AreNodes task.now nodes.now }
    requires starts { AreListsOf (children nodes.now) nodes.now.lists starts.now (distinct (initials task.now)) }
    ensures { IfOk result (λ b. IsTrue b → (bound : ℕ) → step_count proposal.now.whole.word.items ≤ bound
        → IsLeastFinishing (listing_machine task.now) bound proposal.now.whole.word.items) }
{
    let _typed = task.objects();
    let (whole, lists) = (&proposal.whole, nodes.lists());
    if !are_framed(alloc, task, nodes, frames, &proposal.table, &whole.table)? {
        return Ok(false);
    }
    let ends = ends_of(alloc, nodes)?;
    if !are_estimates(&whole.table, lists, &ends, NEVER, &whole.values) {
        return Ok(false);
    }
    let is_least = is_word(alloc, nodes, whole, &ends, starts, &whole.word)?;
    Ok(is_least)
}
