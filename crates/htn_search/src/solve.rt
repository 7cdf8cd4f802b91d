//! The search of a task.
ghost use Rattle.std.specs.Prelude.{◌≡◌, ℕ, ◌-◌, ◌^◌, ◌<◌, IfErr, IfNone, IfOk, IfSome, Option, false, true};
ghost use Rattle.call_search.specs.Right.{IsRight};
ghost use Rattle.htn_walk.specs.Answered.{IsAnswered, IsExact};
ghost use Rattle.htn_model.specs.Grounding.{problem_of};
ghost use Rattle.htn_walk.specs.Listed.{listing_machine};
ghost use Rattle.htn_search.specs.Answer.{Answers, HasNoneBelow, IsKnown};
ghost use Rattle.htn_search.specs.declared.answer.Known.TheVariants.{Unknown};
ghost use Rattle.task_machine.specs.Tables.{AreTables};
ghost use Rattle.word_machine.specs.Answer.{IsAnswer, IsEnding, NoneFinishesBefore};
ghost use Rattle.word_machine.specs.declared.found.Ending.TheVariants.{GivenUp, Stopped};
ghost use Rattle.word_machine.specs.declared.found.SearchFault.TheVariants.{NoThread};

use crate::answer::{Answer, Known};
use crate::solution::rebuild_listed;
use call_search::{CallWatch, Calls};
use heuristics::enumerate;
use htn_net::word_of_ranks;
use htn_task::Task;
use std::alloc::{AllocError, Global};
use std::sync::Wait;
use std::thread::Threads;
use task_machine::{Tables, TaskMachine};
use word_machine::{
    Bounds, Effort, Ending, Found, Gate, Machine, NoWatch, SearchFault, Watch, find_word_watched,
};

// The limits of a stage: how much of the decomposition graph is listed for sizes, needs and reachability, and how many
// configurations a search by these stores before more is listed. To list as much as a stage does takes no longer than
// to store several times its number of configurations. So little is listed where little is needed, nothing where a
// search by the open nodes alone ends soon, and no search takes much longer by what is listed for it.
#[derive(Clone, Copy)]
struct Stage {
    listed: u64,
    kept: usize,
}

const FIRST_STAGES: [Stage; 3] = [
    Stage {
        listed: 0,
        kept: 1_000,
    },
    Stage {
        listed: 2_000,
        kept: 2_000,
    },
    Stage {
        listed: 20_000,
        kept: 100_000,
    },
];

const LAST_STAGE: Stage = Stage {
    listed: 100_000,
    kept: usize::MAX,
};

/// The limits of one search: no word finishes in fewer steps than `known`.
#[derive(Clone, Copy)]
struct Limits {
    effort: Effort,
    bounds: Bounds,
    known: u64,
}

/// The ending of a search, and its tables.
#[derive(Drop)]
struct Searched<T> {
    ending: Ending,
    tables: T,
}

/// The ending of the watched search of a machine, with its tables.
fn search_by<M: Machine, G: Gate, W: Watch, R: Threads + Wait + Sync>(
    rt: &R,
    alloc: Global,
    machine: &M,
    limits: Limits,
    gate: &G,
    watch: &mut W,
) -> Result<Searched<M::Tables>, SearchFault>
    requires known { NoneFinishesBefore (M.words machine.now) limits.known }
    requires hears { (n : ℕ) → NoneFinishesBefore (M.words machine.now) n → W.may_hear watch.old n }
    ensures ending { IfOk result (λ s. IsEnding (M.words machine.now) limits.bounds.nodes s.ending) }
    ensures own { IfOk result (λ s. M.owns machine.now s.tables) }
    ensures given_up { IfOk result (λ s. (n : ℕ) → s.ending ≡ GivenUp n → limits.effort.most_kept < 2 ^ 64 - 1) }
    ensures stopped { IfOk result (λ s. (n : ℕ) → s.ending ≡ Stopped n → W.may_stop watch.old ≡ true) }
    ensures becomes { W.becomes watch.old watch.new }
    ensures no_thread { IfErr result (λ e. e ≡ NoThread → 1 < limits.bounds.workers) }
{
    let mut tables = machine.new_tables()?;
    let ending = find_word_watched(
        rt,
        alloc,
        machine,
        &mut tables,
        limits.bounds,
        limits.effort,
        limits.known,
        gate,
        watch,
    )?;
    Ok(Searched { ending, tables })
}

/// The limits of the searches of a stage. No search is given up where a greater limit would list no more. Where nothing
/// is listed, few configurations are stored and growing bounds would save nothing, so the first search has the whole
/// bound.
fn effort_of(stage: Stage, is_cut: bool, bounds: Bounds) -> Effort
    ensures cut { is_cut ≡ true → result.most_kept ≡ stage.kept }
    ensures whole { is_cut ≡ false → result.most_kept ≡ 2 ^ 64 - 1 }
{
    if !is_cut {
        return Effort {
            most_kept: usize::MAX,
            first_bound: 0,
        };
    }
    let first_bound = if stage.listed == 0 { bounds.nodes } else { 0 };
    Effort {
        most_kept: stage.kept,
        first_bound,
    }
}

/// The ending of the search of a task's machine, with its tables, or the word that the watch has found by calls.
fn search_with_watch<G: Gate, W: Watch, R: Threads + Wait + Sync>(
    rt: &R,
    alloc: Global,
    machine: &TaskMachine<'_>,
    limits: Limits,
    gate: &G,
    watch: &mut CallWatch<'_, '_, W>,
) -> Result<Searched<Tables>, SearchFault>
    requires task { watch.old.calls.now.task.now ≡ machine.now.task.now }
    requires bound { watch.old.calls.now.bound ≡ limits.bounds.nodes }
    requires right { IsRight watch.old.calls.now }
    requires stopped { watch.old.is_stopped ≡ false }
    requires known { NoneFinishesBefore (listing_machine machine.now.task.now) limits.known }
    requires hears { (n : ℕ) → NoneFinishesBefore (listing_machine machine.now.task.now) n → W.may_hear watch.old.watch.now n }
    ensures ending { IfOk result (λ s. IsEnding (listing_machine machine.now.task.now) limits.bounds.nodes s.ending) }
    ensures tables { IfOk result (λ s. AreTables machine.now.task.now s.tables) }
    ensures given_up { IfOk result (λ s. (n : ℕ) → s.ending ≡ GivenUp n → limits.effort.most_kept < 2 ^ 64 - 1) }
    ensures stopped { IfOk result (λ s. (n : ℕ) → s.ending ≡ Stopped n → W.may_stop watch.old.watch.now ≡ true) }
    ensures same_reference { watch.new.watch.ghost_name ≡ watch.old.watch.ghost_name }
    ensures becomes { W.becomes watch.old.watch.now watch.new.watch.now }
    ensures no_thread { IfErr result (λ e. e ≡ NoThread → 1 < limits.bounds.workers) }
{
    let Searched { ending, tables } = search_by(rt, alloc, machine, limits, gate, watch)?;
    let ending = watch.end(ending)?;
    Ok(Searched { ending, tables })
}

/// The ending of the search of a task's machine, with its tables, beside a search by calls.
fn search_beside<G: Gate, W: Watch, R: Threads + Wait + Sync>(
    rt: &R,
    alloc: Global,
    machine: &TaskMachine<'_>,
    calls: &mut Calls<'_>,
    limits: Limits,
    gate: &G,
    watch: &mut W,
) -> Result<Searched<Tables>, SearchFault>
    requires task { calls.old.task.now ≡ machine.now.task.now }
    requires bound { calls.old.bound ≡ limits.bounds.nodes }
    requires right { IsRight calls.old }
    requires known { NoneFinishesBefore (listing_machine machine.now.task.now) limits.known }
    requires hears { (n : ℕ) → NoneFinishesBefore (listing_machine machine.now.task.now) n → W.may_hear watch.old n }
    ensures ending { IfOk result (λ s. IsEnding (listing_machine machine.now.task.now) limits.bounds.nodes s.ending) }
    ensures tables { IfOk result (λ s. AreTables machine.now.task.now s.tables) }
    ensures given_up { IfOk result (λ s. (n : ℕ) → s.ending ≡ GivenUp n → limits.effort.most_kept < 2 ^ 64 - 1) }
    ensures stopped { IfOk result (λ s. (n : ℕ) → s.ending ≡ Stopped n → W.may_stop watch.old ≡ true) }
    ensures becomes { W.becomes watch.old watch.new }
    ensures no_thread { IfErr result (λ e. e ≡ NoThread → 1 < limits.bounds.workers) }
{
    let mut watch = CallWatch::new(calls, watch);
    search_with_watch(rt, alloc, machine, limits, gate, &mut watch)
}

/// The ending of the search of a task's machine, with its tables. The word is looked for by calls too: in frames where
/// all of the decomposition graph is listed.
fn search_machine<G: Gate, W: Watch, R: Threads + Wait + Sync>(
    rt: &R,
    alloc: Global,
    machine: &TaskMachine<'_>,
    is_cut: bool,
    limits: Limits,
    gate: &G,
    watch: &mut W,
) -> Result<Searched<Tables>, SearchFault>
    requires known { NoneFinishesBefore (listing_machine machine.now.task.now) limits.known }
    requires hears { (n : ℕ) → NoneFinishesBefore (listing_machine machine.now.task.now) n → W.may_hear watch.old n }
    ensures ending { IfOk result (λ s. IsEnding (listing_machine machine.now.task.now) limits.bounds.nodes s.ending) }
    ensures tables { IfOk result (λ s. AreTables machine.now.task.now s.tables) }
    ensures given_up { IfOk result (λ s. (n : ℕ) → s.ending ≡ GivenUp n → limits.effort.most_kept < 2 ^ 64 - 1) }
    ensures stopped { IfOk result (λ s. (n : ℕ) → s.ending ≡ Stopped n → W.may_stop watch.old ≡ true) }
    ensures becomes { W.becomes watch.old watch.new }
    ensures no_thread { IfErr result (λ e. e ≡ NoThread → 1 < limits.bounds.workers) }
{
    let nodes = limits.bounds.nodes;
    let mut calls = Calls::new(alloc, machine.task, machine.sizes(), !is_cut, nodes);
    search_beside(rt, alloc, machine, &mut calls, limits, gate, watch)
}

/// The ending of one stage of the search for a task's least finishing word of ranks, with its tables. The stage is
/// given up only where a greater limit would list more.
fn search_stage<G: Gate, W: Watch, R: Threads + Wait + Sync>(
    rt: &R,
    alloc: Global,
    task: &Task,
    stage: Stage,
    bounds: Bounds,
    known: u64,
    gate: &G,
    watch: &mut W,
) -> Result<Searched<Tables>, SearchFault>
    requires known { NoneFinishesBefore (listing_machine task.now) known }
    requires hears { (n : ℕ) → NoneFinishesBefore (listing_machine task.now) n → W.may_hear watch.old n }
    ensures ending { IfOk result (λ s. IsEnding (listing_machine task.now) bounds.nodes s.ending) }
    ensures tables { IfOk result (λ s. AreTables task.now s.tables) }
    ensures given_up { IfOk result (λ s. (n : ℕ) → s.ending ≡ GivenUp n → stage.kept < 2 ^ 64 - 1) }
    ensures stopped { IfOk result (λ s. (n : ℕ) → s.ending ≡ Stopped n → W.may_stop watch.old ≡ true) }
    ensures becomes { W.becomes watch.old watch.new }
    ensures no_thread { IfErr result (λ e. e ≡ NoThread → 1 < bounds.workers) }
{
    let listed = enumerate(alloc, task, stage.listed)?;
    let is_cut = listed.is_cut(task);
    let limits = Limits {
        effort: effort_of(stage, is_cut, bounds),
        bounds,
        known,
    };
    let machine = TaskMachine::new(alloc, task, listed)?;
    search_machine(rt, alloc, &machine, is_cut, limits, gate, watch)
}

/// The number of steps below which no word finishes, where a search was given up.
fn given_up(ending: &Ending) -> Option<u64>
    ensures some { IfSome result (λ n. ending.now ≡ GivenUp n) }
    ensures none { IfNone result ((n : ℕ) → ending.now ≡ GivenUp n → ⊥) }
{
    match ending {
        Ending::GivenUp { none_below } => Some(*none_below),
        Ending::Answer(_) | Ending::Stopped { .. } => None,
    }
}

/// The ending of the search for a task's least finishing word of ranks, with the tables of its last stage. Each stage
/// is given the number of steps below which the stages before it found that no word finishes.
fn find_in_stages<G: Gate, W: Watch, R: Threads + Wait + Sync>(
    rt: &R,
    alloc: Global,
    task: &Task,
    bounds: Bounds,
    gate: &G,
    watch: &mut W,
) -> Result<Searched<Tables>, SearchFault>
    requires hears { (n : ℕ) → NoneFinishesBefore (listing_machine task.now) n → W.may_hear watch.old n }
    ensures ending { IfOk result (λ s. IsEnding (listing_machine task.now) bounds.nodes s.ending) }
    ensures tables { IfOk result (λ s. AreTables task.now s.tables) }
    ensures ended { IfOk result (λ s. (n : ℕ) → s.ending ≡ GivenUp n → ⊥) }
    ensures stopped { IfOk result (λ s. (n : ℕ) → s.ending ≡ Stopped n → W.may_stop watch.old ≡ true) }
    ensures becomes { W.becomes watch.old watch.new }
    ensures no_thread { IfErr result (λ e. e ≡ NoThread → 1 < bounds.workers) }
{
    let mut known = 0;
    for stage in FIRST_STAGES {
        let searched = search_stage(rt, alloc, task, stage, bounds, known, gate, watch)?;
        match given_up(&searched.ending) {
            Some(none_below) => known = none_below,
            None => return Ok(searched),
        }
    }
    // The last stage is never given up, since no list is longer than the greatest number.
    search_stage(rt, alloc, task, LAST_STAGE, bounds, known, gate, watch)
}

/// The least finishing word of a task, by its steps and then by its numbers; or that no solution is
/// within the bound, or none at all. `SearchFault::NoThread` never comes with one worker.
/// `SearchFault::OutOfMemory` comes also where no memory was refused, but a number of the word itself is past 64 bits,
/// a method past the 65,536th (as none of a checked text is), or a table of the search past 2^32 entries.
pub fn find_word<G: Gate, R: Threads + Wait + Sync>(
    rt: &R,
    alloc: Global,
    task: &Task,
    bounds: Bounds,
    gate: &G,
) -> Result<Found, SearchFault>
    ensures answered { IfOk result (IsAnswered (problem_of task.now) bounds.nodes) }
    ensures exact { IfOk result (IsExact (problem_of task.now) bounds.nodes) }
    ensures no_thread { IfErr result (λ e. e ≡ NoThread → 1 < bounds.workers) }
{
    let _typed = task.objects();
    let Searched { ending, tables: _ } = find_in_stages(
        rt,
        alloc,
        task,
        bounds,
        gate,
        &mut NoWatch,
    )?;
    let Ending::Answer(found) = ending else {
        // It is never given up, and that watch stops nothing.
        unreachable!()
    };
    match found {
        Found::Word(ranks) => Ok(Found::Word(word_of_ranks(alloc, task, &ranks)?)),
        Found::None => Ok(Found::None),
        Found::Unsolvable => Ok(Found::Unsolvable),
    }
}

/// The answer that a search found, with the solution of its word by the tables of the search.
fn answer_from(
    alloc: Global,
    task: &Task,
    tables: &Tables,
    found: &Found,
) -> Result<Answer, AllocError>
    requires own { AreTables task.now tables.now }
    requires found { (bound : ℕ) × IsAnswer (listing_machine task.now) bound found.now }
    ensures { IfOk result (λ answer. (bound : ℕ) → IsAnswer (listing_machine task.now) bound found.now
        → Answers task.now bound answer) }
{
    let _typed = task.objects();
    match found {
        Found::Word(ranks) => Ok(Answer::Plan(rebuild_listed(alloc, task, tables, ranks)?)),
        Found::None => Ok(Answer::None),
        Found::Unsolvable => Ok(Answer::Unsolvable),
    }
}

/// The result of a search that has ended.
fn known_from(
    alloc: Global,
    task: &Task,
    searched: &Searched<Tables>,
    bound: u64,
) -> Result<Known, AllocError>
    requires own { AreTables task.now searched.now.tables }
    requires ending { IsEnding (listing_machine task.now) bound searched.now.ending }
    requires ended { (n : ℕ) → searched.now.ending ≡ GivenUp n → ⊥ }
    ensures known { IfOk result (IsKnown task.now bound) }
    ensures stopped { IfOk result (λ known. (none : Option ℕ) → known ≡ Unknown none
        → (n : ℕ) × (searched.now.ending ≡ Stopped n)) }
{
    let _typed = task.objects();
    match &searched.ending {
        Ending::Answer(found) => {
            let answer = answer_from(alloc, task, &searched.tables, found)?;
            Ok(Known::Answer(answer))
        }
        Ending::Stopped { none_below } => Ok(Known::Unknown {
            none_within: none_below.checked_sub(1),
        }),
        Ending::GivenUp { .. } => unreachable!(),
    }
}

/// The answer of `search`, or the proved bound where the watch stopped the search, and the tables of all that the
/// search numbered. To free these takes up to a tenth of a long search: a process that ends after it may leave them to
/// its end. The watch is given a number of nodes below which the task has no solution.
pub fn search_watched<G: Gate, W: Watch, R: Threads + Wait + Sync>(
    rt: &R,
    alloc: Global,
    task: &Task,
    bounds: Bounds,
    gate: &G,
    watch: &mut W,
) -> Result<(Known, Tables), SearchFault>
    requires hears { (n : ℕ) → HasNoneBelow task.now n → W.may_hear watch.old n }
    ensures known { IfOk result (λ r. IsKnown task.now bounds.nodes r.0) }
    ensures stopped { IfOk result (λ r. (none : Option ℕ) → r.0 ≡ Unknown none → W.may_stop watch.old ≡ true) }
    ensures tables { IfOk result (λ r. AreTables task.now r.1) }
    ensures becomes { W.becomes watch.old watch.new }
    ensures no_thread { IfErr result (λ e. e ≡ NoThread → 1 < bounds.workers) }
{
    let _typed = task.objects();
    let searched = find_in_stages(rt, alloc, task, bounds, gate, watch)?;
    let known = known_from(alloc, task, &searched, bounds.nodes)?;
    Ok((known, searched.tables))
}

/// The answer of `search`, and the tables of all that the search numbered, which a process that ends after it may leave
/// to its end.
pub fn search_with_tables<G: Gate, R: Threads + Wait + Sync>(
    rt: &R,
    alloc: Global,
    task: &Task,
    bounds: Bounds,
    gate: &G,
) -> Result<(Answer, Tables), SearchFault>
    ensures answer { IfOk result (λ r. Answers task.now bounds.nodes r.0) }
    ensures tables { IfOk result (λ r. AreTables task.now r.1) }
    ensures no_thread { IfErr result (λ e. e ≡ NoThread → 1 < bounds.workers) }
{
    let (known, tables) = search_watched(rt, alloc, task, bounds, gate, &mut NoWatch)?;
    match known {
        Known::Answer(answer) => Ok((answer, tables)),
        // That watch stops nothing.
        Known::Unknown { .. } => unreachable!(),
    }
}

/// The solution of fewest nodes and then of least code; or that none is within the bound, or none
/// at all. `SearchFault::NoThread` never comes with one worker. No number of an instance is counted.
pub fn search<G: Gate, R: Threads + Wait + Sync>(
    rt: &R,
    alloc: Global,
    task: &Task,
    bounds: Bounds,
    gate: &G,
) -> Result<Answer, SearchFault>
    ensures answer { IfOk result (Answers task.now bounds.nodes) }
    ensures no_thread { IfErr result (λ e. e ≡ NoThread → 1 < bounds.workers) }
{
    let (answer, _tables) = search_with_tables(rt, alloc, task, bounds, gate)?;
    Ok(answer)
}
