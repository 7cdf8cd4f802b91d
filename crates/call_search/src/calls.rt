//! A search by calls beside another search.
ghost use Rattle.std.specs.Prelude.{◌≡◌, IfSome, None, OnOk};
ghost use Rattle.call_nodes.specs.Nodes.{AreNodes};
ghost use Rattle.call_search.specs.Right.{IsRight};
ghost use Rattle.htn_model.specs.Grounding.{problem_of};
ghost use Rattle.htn_walk.specs.Listed.{listing_machine};
ghost use Rattle.heuristics.specs.Measure.{IsLowerMeasure};
ghost use Rattle.heuristics.specs.Sizes.{size_of};
ghost use Rattle.word_machine.specs.Answer.{IsLeastFinishing};

use crate::ordered::are_ordered;
use crate::trial::Trial;
use call_finder::Progress;
use heuristics::TreeSizes;
use htn_task::Task;
use std::alloc::{AllocError, Global};

/// How many configurations a search has at least when a search by calls in frames begins beside it.
const FIRST: usize = 1_000;

/// For how many configurations one node of the decomposition graph may be listed. Where a task has many instances, or
/// many that are ruled out, to list it takes several times as long as to store a configuration.
const LISTED: usize = 4;

/// How many it has when one by calls on whole states begins. These rarely end before a long search does.
const FIRST_WHOLE: usize = 10_000;

/// For how many configurations a search by calls may meet one item. To meet one takes a quarter to a half of the time of
/// storing one.
const SHARE: u64 = 8;

/// How many times as many items it may meet while calls have shown that no word is within the present bound of the
/// other search: one for each configuration. The other search finds no word then before it raises its bound.
const AHEAD: u64 = 8;

/// How many configurations more a search stores until its calls in frames have a greater share: twice as much as at
/// first, then three times, up to [`MOST_OFTEN`] times.
const LONG: u64 = 200_000;

/// By what factor the share of calls in frames grows at most.
const MOST_OFTEN: u64 = 4;

/// A search is wide that stores more configurations than this each time that it asks. Where the decomposition graph is
/// cut off, most of them are instances of few tasks, and to list these for calls takes as long as the search.
const WIDE: u64 = 2_048;

/// A search by calls of the least finishing word of a task's ranks, beside another search of the same task. It meets
/// one item for every [`SHARE`] configurations that the other stores, or more in a long search, and one for each while
/// it has shown that no word is within the present bound of the other.
pub struct Calls<'a> {
    alloc: Global,
    task: &'a Task,
    /// The least sizes of the task's nodes.
    sizes: &'a TreeSizes,
    /// The most steps of a word.
    bound: u64,
    /// Whether calls are in frames.
    in_frames: bool,
    /// How many configurations the other search has when the search by calls begins.
    first: usize,
    /// How often the other search has asked.
    asked: u64,
    /// How many configurations the other search had when it asked last.
    seen: usize,
    /// How many items the search by calls may meet in all, times [`SHARE`].
    allowed: u64,
    trial: Option<Trial<'a>>,
    /// The word that was found.
    word: Option<Vec<u64>>,
}

impl Drop for Calls<'_> {
    fn drop(self) {
        let Calls {
            alloc: _,
            task: _,
            sizes: _,
            bound: _,
            in_frames: _,
            first: _,
            asked: _,
            seen: _,
            allowed: _,
            trial: _,
            word: _,
        } = self;
    }
}

/// Continues a search by calls, if one has begun. Where none has, none will find a word.
fn continued(
    trial: &mut Option<Trial<'_>>,
    task: &Task,
    most_work: u64,
) -> Result<Progress, AllocError>
    requires { IfSome trial.old (λ x. AreNodes task.now x.nodes) }
    ensures { OnOk result (IfSome trial.new (λ x. AreNodes task.now x.nodes)) }
{
    match trial {
        Some(trial) => trial.advance(task, most_work),
        None => Ok(Progress::Failed),
    }
}

/// Whether a search by calls has shown that no word is within a bound.
fn is_ahead(trial: &Option<Trial<'_>>, bound: u64) -> bool {
    match trial {
        Some(trial) => u64::from(trial.total()) > bound,
        None => false,
    }
}

/// How many times as many items as at first a search by calls may meet for the next configurations.
fn share_of(is_ahead: bool, in_frames: bool, configurations: usize) -> u64 {
    let grown = if in_frames {
        (configurations as u64 / LONG).saturating_add(1)
    } else {
        1
    };
    let share = grown.min(MOST_OFTEN);
    if is_ahead { share.max(AHEAD) } else { share }
}

/// How many configurations the other search has when a search by calls begins beside it. Calls in frames list all nodes
/// first, so they wait for [`LISTED`] times as many. None begins if a network is not totally ordered.
fn first_of(task: &Task, sizes: &TreeSizes, in_frames: bool) -> usize {
    if !are_ordered(task) {
        usize::MAX
    } else if in_frames {
        sizes
            .graph()
            .nodes()
            .len()
            .saturating_mul(LISTED)
            .max(FIRST)
    } else {
        FIRST_WHOLE
    }
}

/// Ends a search by calls.
fn forget(trial: &mut Option<Trial<'_>>)
    ensures { trial.new ≡ None }
{
    *trial = None;
}

/// Continues a search by calls, and returns the number of steps of the word if it is known then. A search that fails,
/// or is refused memory, ends.
fn advanced(
    trial: &mut Option<Trial<'_>>,
    task: &Task,
    most_work: u64,
) -> Result<Option<u32>, AllocError>
    requires { IfSome trial.old (λ x. AreNodes task.now x.nodes) }
    ensures { IfSome trial.new (λ x. AreNodes task.now x.nodes) }
{
    match continued(trial, task, most_work) {
        Ok(Progress::Unfinished) => Ok(None),
        Ok(Progress::Finished(steps)) => Ok(Some(steps)),
        Ok(Progress::Failed) => {
            forget(trial);
            Ok(None)
        }
        Err(AllocError) => {
            forget(trial);
            Err(AllocError)
        }
    }
}

impl<'a> Calls<'a> {
    /// A search within a bound on the steps of the word, which has not begun, with the least sizes of the task's nodes.
    /// Calls are in frames where `in_frames` says so, which is meant for a small decomposition graph, and else on whole
    /// states. It never begins if a network of the task is not totally ordered.
    pub fn new(
        alloc: Global,
        task: &'a Task,
        sizes: &'a TreeSizes,
        in_frames: bool,
        bound: u64,
    ) -> Calls<'a>
        requires { IsLowerMeasure (problem_of task.now) (size_of sizes.now) }
        ensures task { result.task.now ≡ task.now }
        ensures bound { result.bound ≡ bound }
        ensures right { IsRight result }
    {
        Calls {
            alloc,
            task,
            sizes,
            bound,
            in_frames,
            first: first_of(task, sizes, in_frames),
            asked: 0,
            seen: 0,
            allowed: 0,
            trial: None,
            word: None,
        }
    }

    /// Begins a search by calls.
    fn begin(&mut self) -> Result<(), AllocError>
        requires { IsRight self.old }
        ensures task { self.new.task.now ≡ self.old.task.now }
        ensures bound { self.new.bound ≡ self.old.bound }
        ensures right { IsRight self.new }
    {
        self.first = usize::MAX;
        let most_nodes = if self.in_frames { usize::MAX } else { 0 };
        let trial = Trial::new(self.alloc, self.task, self.sizes, most_nodes, self.bound)?;
        self.trial = trial;
        Ok(())
    }

    /// Begins a search by calls, if the other search has as many configurations as that waits for.
    fn begin_in_time(&mut self, configurations: usize) -> Result<(), AllocError>
        requires { IsRight self.old }
        ensures task { self.new.task.now ≡ self.old.task.now }
        ensures bound { self.new.bound ≡ self.old.bound }
        ensures right { IsRight self.new }
    {
        let is_wide = configurations as u64 > self.asked.saturating_mul(WIDE);
        if configurations < self.first || (is_wide && !self.in_frames) {
            return Ok(());
        }
        self.begin()
    }

    /// Reads the word off a search by calls that knows its number of steps, and ends that search. Returns whether the
    /// other search is to continue.
    fn finish(&mut self, steps: u32) -> Result<bool, AllocError>
        requires { IsRight self.old }
        ensures task { self.new.task.now ≡ self.old.task.now }
        ensures bound { self.new.bound ≡ self.old.bound }
        ensures right { IsRight self.new }
    {
        let Some(trial) = self.trial.take() else {
            return Ok(true);
        };
        self.word = trial.word(self.alloc, self.task, steps, self.bound)?;
        Ok(self.word.is_none())
    }

    /// Notes how many configurations the other search has within a bound, and lets the search by calls meet more items.
    fn allow(&mut self, configurations: usize, bound: u64)
        requires { IsRight self.old }
        ensures task { self.new.task.now ≡ self.old.task.now }
        ensures bound { self.new.bound ≡ self.old.bound }
        ensures right { IsRight self.new }
    {
        let more = if configurations < self.seen {
            configurations
        } else {
            configurations.saturating_sub(self.seen)
        };
        let share = share_of(is_ahead(&self.trial, bound), self.in_frames, configurations);
        self.seen = configurations;
        self.allowed = self
            .allowed
            .saturating_add((more as u64).saturating_mul(share));
    }

    /// Continues the search by calls, if one has begun. Returns whether the other search is to continue.
    fn advance(&mut self) -> Result<bool, AllocError>
        requires { IsRight self.old }
        ensures task { self.new.task.now ≡ self.old.task.now }
        ensures bound { self.new.bound ≡ self.old.bound }
        ensures right { IsRight self.new }
    {
        let most_work = self.allowed / SHARE;
        match advanced(&mut self.trial, self.task, most_work)? {
            Some(steps) => self.finish(steps),
            None => Ok(true),
        }
    }

    /// Looks for the word by calls, in proportion to the size of the other search, unless none can be within the bound.
    /// Returns whether the other search is to continue: not where the word is found.
    pub(crate) fn look(
        &mut self,
        configurations: usize,
        bound: u64,
        none_below: u64,
    ) -> Result<bool, AllocError>
        requires { IsRight self.old }
        ensures task { self.new.task.now ≡ self.old.task.now }
        ensures bound { self.new.bound ≡ self.old.bound }
        ensures right { IsRight self.new }
    {
        if self.bound < none_below {
            return Ok(true);
        }
        self.asked = self.asked.saturating_add(1);
        self.begin_in_time(configurations)?;
        self.allow(configurations, bound);
        self.advance()
    }

    /// The word that was found.
    pub(crate) fn take_word(&mut self) -> Option<Vec<u64>>
        requires { IsRight self.old }
        ensures { IfSome result (λ word. IsLeastFinishing (listing_machine self.old.task.now) self.old.bound word.items) }
    {
        self.word.take()
    }
}
