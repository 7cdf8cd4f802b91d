//! The run of a planner: from the bytes of a domain and a problem to the bytes of the answer.
ghost use Rattle.std.specs.Prelude.{◌≡◌, ◌≢◌, List, ℕ, true, IfOk, IfErr, OnOk};
ghost use Rattle.std.specs.Io.KnownBytes.{Appends};
ghost use Rattle.htn_review.specs.Headline.{Answers, IsAnswerCutShort, IsCutShort, IsWant, IsWatchedCutShort, Refuses, Says, SaysWatched};
ghost use Rattle.htn_search.specs.Answer.{HasNoneBelow};
ghost use Rattle.htn_review.specs.declared.outcome.RunFault.TheVariants.{Output};

use crate::answer::write_known;
use htn_plan::Out;
use htn_review::{Outcome, RunFault, Watched, task_of};
use htn_search::{Bounds, Gate, NoWatch, Watch, search_watched};
use htn_task::Task;
use std::alloc::Global;
use std::mem;
use std::sync::Wait;
use std::thread::Threads;

/// Reads a domain and a problem, searches within the bounds, and writes the answer: the text of the plan with the
/// fewest nodes and then the least code, or `none`, or `unsolvable`, with a line feed. It is the same for every number
/// of workers, size of the pieces and gate, and however the workers take turns. Nothing is written before the answer is
/// known.
///
/// It is meant for a process that ends after it: the tables of the search are not freed (see `run_task`).
///
/// The domain is read first, then the problem, and then the pair is checked. `NoThread` never comes with one worker.
/// After `Output` the output has failed, and a beginning of the answer's text stands in it; after any other fault it is
/// as it was.
pub fn run_plan<O: Out, G: Gate, R: Threads + Wait + Sync>(
    rt: &R,
    alloc: Global,
    domain: &[u8],
    problem: &[u8],
    bounds: Bounds,
    gate: &G,
    out: &mut O,
) -> Result<Outcome, RunFault>
    ensures answer { IfOk result (λ outcome. (text : List ℕ)
        × Answers domain.now problem.now bounds.nodes outcome text × Appends (O.contents out.old) (O.contents out.new) text) }
    ensures works { OnOk result (O.has_failed out.new ≡ O.has_failed out.old) }
    ensures refused { IfErr result (λ fault. fault ≢ Output → Refuses domain.now problem.now bounds fault × (out.new ≡ out.old)) }
    ensures cut_short { IfErr result (λ fault. fault ≡ Output
        → IsAnswerCutShort domain.now problem.now bounds.nodes (O.contents out.old) (O.contents out.new) × (O.has_failed out.new ≡ true)) }
{
    let task = task_of(alloc, domain, problem)?;
    run_task(rt, alloc, &task, bounds, gate, out)
}

/// Searches a task within the bounds, and writes the answer, as `run_plan` does from the texts on.
///
/// It is meant for a process that ends after it: the tables of the search are not freed, since that takes up to a tenth
/// of a long search. A caller that runs on, and searches again, uses `htn_search::search`.
pub fn run_task<O: Out, G: Gate, R: Threads + Wait + Sync>(
    rt: &R,
    alloc: Global,
    task: &Task,
    bounds: Bounds,
    gate: &G,
    out: &mut O,
) -> Result<Outcome, RunFault>
    ensures answer { IfOk result (λ outcome. (text : List ℕ)
        × Says task.now bounds.nodes outcome text × Appends (O.contents out.old) (O.contents out.new) text) }
    ensures works { OnOk result (O.has_failed out.new ≡ O.has_failed out.old) }
    ensures refused { IfErr result (λ fault. fault ≢ Output → IsWant bounds fault × (out.new ≡ out.old)) }
    ensures cut_short { IfErr result (λ fault. fault ≡ Output
        → IsCutShort task.now bounds.nodes (O.contents out.old) (O.contents out.new) × (O.has_failed out.new ≡ true)) }
{
    let watched = run_task_watched(rt, alloc, task, bounds, gate, out, &mut NoWatch)?;
    match watched {
        Watched::Known(outcome) => Ok(outcome),
        // That watch stops nothing.
        Watched::Unknown { .. } => unreachable!(),
    }
}

/// Searches a task within the bounds, and writes the answer as `run_task` does; or, where the watch stops the search,
/// `unknown` and the number of nodes that no solution is within, if one is known, with a line feed.
pub fn run_task_watched<O: Out, G: Gate, W: Watch, R: Threads + Wait + Sync>(
    rt: &R,
    alloc: Global,
    task: &Task,
    bounds: Bounds,
    gate: &G,
    out: &mut O,
    watch: &mut W,
) -> Result<Watched, RunFault>
    requires hears { (n : ℕ) → HasNoneBelow task.now n → W.may_hear watch.old n }
    ensures answer { IfOk result (λ watched. (text : List ℕ)
        × SaysWatched task.now bounds.nodes (W.may_stop watch.old ≡ true) watched text × Appends (O.contents out.old) (O.contents out.new) text) }
    ensures works { OnOk result (O.has_failed out.new ≡ O.has_failed out.old) }
    ensures refused { IfErr result (λ fault. fault ≢ Output → IsWant bounds fault × (out.new ≡ out.old)) }
    ensures cut_short { IfErr result (λ fault. fault ≡ Output
        → IsWatchedCutShort task.now bounds.nodes (W.may_stop watch.old ≡ true) (O.contents out.old) (O.contents out.new) × (O.has_failed out.new ≡ true)) }
    ensures becomes { W.becomes watch.old watch.new }
{
    let (known, tables) = search_watched(rt, alloc, task, bounds, gate, watch)?;
    mem::forget(tables);
    write_known(alloc, task, bounds.nodes, &known, out)
}
