//! Questions about the task of two texts. One function owns the task and lends it to what answers: what owns a task is
//! dear to prove.

use crate::configurations::{choices_text, configurations_text};
use crate::instances::{distinct_initials_text, distinct_text, initials_text, instances_text};
use crate::pairs::{Pair, task_between};
use crate::plans::answer_within;
use crate::reach::reach_text;
use crate::searches::{depth_text, finishes_text, least_word, rebuilt_text};
use crate::steps::{different_text, listed_text, live_numbers_text, numbered_text, walk};
use htn_search::Bounds;
use htn_task::Task;
use std::alloc::Global;
use std::sync::Wait;
use std::test::Fail;
use std::thread::Threads;

/// What is asked of a task. Each question is answered in text.
#[derive(Clone, Copy)]
pub enum Question<'a> {
    /// The instances of the first compound task with these objects, and then those that are not dead.
    Instances(&'a [u16]),
    /// The instances of the initial network.
    Initials,
    /// The instances of the first compound task whose network no earlier one has.
    DistinctInstances,
    /// The distinct instances of the initial network.
    DistinctInitials,
    /// Relaxed reachability, where the instances are listed up to this limit.
    Reach(u64),
    /// A line for each configuration along a word.
    Walk(&'a [u64]),
    /// The state, the open nodes and their order of each configuration along a word.
    Configurations(&'a [u64]),
    /// The choices at the end of a word, and then those that are not dead.
    Choices(&'a [u64]),
    /// How many configurations along a word differ.
    Different(&'a [u64]),
    /// What a rank chooses at the start.
    ChosenByRank(u64),
    /// What a number chooses at the start.
    ChosenByNumber(u64),
    /// The numbers of the choices at the start that are not dead.
    LiveNumbers,
    /// Whether a word finishes.
    Finishes(&'a [u64]),
    /// The solution of a word.
    Rebuilt(&'a [u64]),
    /// The depth of the solution of a word.
    Depth(&'a [u64]),
    /// The plan of at most this number of nodes that one worker finds.
    Within(u64),
    /// The least word.
    LeastWord(Bounds),
}

// The answer to a question about a task that is lent.
fn answer<R: Threads + Wait + Sync>(
    rt: &R,
    alloc: Global,
    task: &Task,
    question: Question<'_>,
) -> Result<String, Fail> {
    match question {
        Question::Instances(objects) => instances_text(alloc, task, 0, objects),
        Question::Initials => initials_text(alloc, task),
        Question::DistinctInstances => distinct_text(alloc, task),
        Question::DistinctInitials => distinct_initials_text(alloc, task),
        Question::Reach(limit) => reach_text(alloc, task, limit),
        Question::Walk(word) => walk(alloc, task, word),
        Question::Configurations(word) => configurations_text(alloc, task, word),
        Question::Choices(word) => choices_text(alloc, task, word),
        Question::Different(word) => different_text(alloc, task, word),
        Question::ChosenByRank(rank) => listed_text(alloc, task, rank),
        Question::ChosenByNumber(number) => numbered_text(alloc, task, number),
        Question::LiveNumbers => live_numbers_text(alloc, task),
        Question::Finishes(word) => finishes_text(alloc, task, word),
        Question::Rebuilt(word) => rebuilt_text(alloc, task, word),
        Question::Depth(word) => depth_text(alloc, task, word),
        Question::Within(nodes) => answer_within(rt, alloc, task, nodes),
        Question::LeastWord(bounds) => least_word(rt, alloc, task, bounds),
    }
}

/// The answer for the task of a domain's text and a problem's.
pub fn answer_between<R: Threads + Wait + Sync>(
    rt: &R,
    alloc: Global,
    domain: &str,
    problem: &str,
    question: Question<'_>,
) -> Result<String, Fail> {
    let task = task_between(alloc, domain, problem)?;
    answer(rt, alloc, &task, question)
}

/// The answer for the task of a pair.
pub fn answer_of<R: Threads + Wait + Sync>(
    rt: &R,
    alloc: Global,
    pair: Pair,
    question: Question<'_>,
) -> Result<String, Fail> {
    answer_between(rt, alloc, pair.domain, pair.problem, question)
}
