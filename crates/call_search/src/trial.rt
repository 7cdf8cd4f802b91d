//! A search by calls, in parts.
ghost use Rattle.std.specs.Prelude.{◌≡◌, IfOk, IfSome, OnOk};
ghost use Rattle.call_nodes.specs.Nodes.{AreNodes};
ghost use Rattle.htn_walk.specs.Listed.{listing_machine};
ghost use Rattle.htn_model.specs.Grounding.{problem_of};
ghost use Rattle.heuristics.specs.Measure.{IsLowerMeasure};
ghost use Rattle.heuristics.specs.Sizes.{size_of};
ghost use Rattle.word_machine.specs.Answer.{IsLeastFinishing};
ghost use Rattle.word_machine.specs.Words.{step_count};

use call_finder::{Finder, Found, Progress};
use call_nodes::CallNodes;
use call_proof::{FramedProposal, Frames, Proposal, is_least};
use heuristics::TreeSizes;
use htn_task::Task;
use std::alloc::{AllocError, Global};

/// A search for the least finishing word by calls, which is made in parts.
#[derive(Drop)]
pub(crate) struct Trial<'a> {
    nodes: CallNodes<'a>,
    finder: Finder,
}

/// The number of steps of a word.
fn steps_of(word: &[u64]) -> u64
    ensures { result ≡ step_count word.now }
{
    match word.split_first() {
        None => 0,
        Some((_, ranks)) => ranks.len() as u64,
    }
}

/// What the finder proposes, where it can read off a word of this number of steps.
fn proposal_of(
    task: &Task,
    finder: Finder,
    nodes: &mut CallNodes<'_>,
    steps: u32,
) -> Result<Option<(Frames, FramedProposal)>, AllocError>
    requires { AreNodes task.now nodes.old }
    ensures { OnOk result (AreNodes task.now nodes.new) }
{
    let Some(found) = finder.read(task, nodes, steps)? else {
        return Ok(None);
    };
    let Found {
        frames,
        table,
        whole,
        values,
        word,
    } = found;
    let whole = Proposal {
        table: whole,
        values,
        word,
    };
    Ok(Some((frames, FramedProposal { table, whole })))
}

/// The word of a proposal that has no more steps than the bound and stands the check.
fn checked_word(
    alloc: Global,
    task: &Task,
    nodes: &mut CallNodes<'_>,
    frames: &Frames,
    proposal: FramedProposal,
    bound: u64,
) -> Result<Option<Vec<u64>>, AllocError>
    requires { AreNodes task.now nodes.old }
    ensures { IfOk result (λ o. IfSome o (λ word. IsLeastFinishing (listing_machine task.now) bound word.items)) }
{
    let Some(starts) = nodes.starts(alloc, task)? else {
        return Ok(None);
    };
    if steps_of(&proposal.whole.word) > bound {
        return Ok(None);
    }
    if !is_least(alloc, task, nodes, frames, &starts, &proposal)? {
        return Ok(None);
    }
    let FramedProposal { whole, .. } = proposal;
    let Proposal { word, .. } = whole;
    Ok(Some(word))
}

/// The word that a finder proposes, where it stands the check.
fn word_of(
    alloc: Global,
    task: &Task,
    nodes: &mut CallNodes<'_>,
    finder: Finder,
    steps: u32,
    bound: u64,
) -> Result<Option<Vec<u64>>, AllocError>
    requires { AreNodes task.now nodes.old }
    ensures { IfOk result (λ o. IfSome o (λ word. IsLeastFinishing (listing_machine task.now) bound word.items)) }
{
    let Some((frames, proposal)) = proposal_of(task, finder, nodes, steps)? else {
        return Ok(None);
    };
    checked_word(alloc, task, nodes, &frames, proposal, bound)
}

impl<'a> Trial<'a> {
    /// A search for a word of at most `bound` steps, with the least sizes of nodes. Calls are in frames where at most
    /// `most_nodes` nodes are below the start, and else in whole states. None where an initial network is not totally
    /// ordered.
    pub(crate) fn new(
        alloc: Global,
        task: &Task,
        sizes: &'a TreeSizes,
        most_nodes: usize,
        bound: u64,
    ) -> Result<Option<Trial<'a>>, AllocError>
        requires { IsLowerMeasure (problem_of task.now) (size_of sizes.now) }
        ensures { IfOk result (λ o. IfSome o (λ trial. AreNodes task.now trial.nodes)) }
    {
        let mut nodes = CallNodes::new(alloc, task, sizes)?;
        let steps = u32::try_from(bound).unwrap_or(u32::MAX);
        let Some(finder) = Finder::new(alloc, task, &mut nodes, steps, most_nodes)? else {
            return Ok(None);
        };
        Ok(Some(Trial { nodes, finder }))
    }

    /// No word has fewer steps than these, as far as the search has come.
    pub(crate) fn total(&self) -> u32 {
        self.finder.total()
    }

    /// Continues until the number of steps of the word is known, or until more than this number of items were met.
    pub(crate) fn advance(&mut self, task: &Task, most_work: u64) -> Result<Progress, AllocError>
        requires { AreNodes task.now self.old.nodes }
        ensures { OnOk result (AreNodes task.now self.new.nodes) }
    {
        self.finder.advance(task, &mut self.nodes, most_work)
    }

    /// The least finishing word of a task's ranks within a bound on its steps, once the number of its steps is known.
    /// What was found is checked in one pass, and the word is returned only where the check shows that it is the least
    /// one. None says nothing of the task. An error means that memory was refused.
    pub(crate) fn word(
        self,
        alloc: Global,
        task: &Task,
        steps: u32,
        bound: u64,
    ) -> Result<Option<Vec<u64>>, AllocError>
        requires { AreNodes task.now self.nodes }
        ensures { IfOk result (λ o. IfSome o (λ word. IsLeastFinishing (listing_machine task.now) bound word.items)) }
    {
        let Trial {
            mut nodes,
            finder,
            ..
        } = self;
        word_of(alloc, task, &mut nodes, finder, steps, bound)
    }
}
