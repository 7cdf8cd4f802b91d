//! The run of a request for a plan.
ghost use Rattle.std.specs.Prelude.{◌≡◌, ◌≢◌, List, ℕ, true, is_some, IfOk, IfErr, OnOk};
ghost use Rattle.std.specs.Io.KnownBytes.{Appends};
ghost use Rattle.htn_run.specs.Files.{NotesBeginning};
ghost use Rattle.htn_review.specs.Headline.{IsTextsCutShort, IsWant, IsWatchedCutShort, Refuses, SaysOfTexts, SaysWatched};
ghost use Rattle.htn_review.specs.Named.{IsNamedOf};
ghost use Rattle.htn_run.specs.Progress.{IsProgress, Shows, ShowsOfTexts};
ghost use Rattle.htn_run.specs.Requests.{AddsAnswer, ShowsFor, names_of};
ghost use Rattle.htn_run.specs.Stops.{Stops};
ghost use Rattle.htn_search.specs.Answer.{HasNoneBelow};
ghost use Rattle.htn_review.specs.declared.outcome.RunFault.TheVariants.{Output};

use crate::clock::{Stopwatch, Watching};
use crate::reply::Reply;
use crate::run::run_task_watched;
use crate::source::Source;
use crate::stop::Stop;
use crate::words::read_texts;
use htn_command::Request;
use htn_plan::Out;
use htn_review::{RunFault, Watched, task_of};
use htn_search::{Bounds, NoGate};
use htn_task::Task;
use std::alloc::Global;
use std::sync::Wait;
use std::thread::Threads;
use std::time::Clock;

// Searches a task under a watch, and writes the result.
fn watch_task<O: Out, E: Out, R: Threads + Wait + Clock + Sync>(
    rt: &R,
    alloc: Global,
    task: &Task,
    bounds: Bounds,
    out: &mut O,
    watch: &mut Stopwatch<'_, R, E>,
) -> Result<Watched, RunFault>
    requires task { watch.old.task.now ≡ task.now }
    requires hears { (n : ℕ) → HasNoneBelow task.now n → HasNoneBelow watch.old.task.now n }
    ensures answer { IfOk result (λ watched. (text : List ℕ)
        × SaysWatched task.now bounds.nodes (is_some watch.old.watching.seconds ≡ true) watched text × Appends (O.contents out.old) (O.contents out.new) text) }
    ensures works { OnOk result (O.has_failed out.new ≡ O.has_failed out.old) }
    ensures refused { IfErr result (λ fault. fault ≢ Output → IsWant bounds fault × (out.new ≡ out.old)) }
    ensures cut_short { IfErr result (λ fault. fault ≡ Output
        → IsWatchedCutShort task.now bounds.nodes (is_some watch.old.watching.seconds ≡ true) (O.contents out.old) (O.contents out.new) × (O.has_failed out.new ≡ true)) }
    ensures same_reference { watch.new.err.ghost_name ≡ watch.old.err.ghost_name }
    ensures shows { Shows E.contents E.has_failed (IsProgress watch.old.task.now) watch.old.watching.has_progress watch.old.err.now watch.new.err.now }
{
    let watched = run_task_watched(rt, alloc, task, bounds, &NoGate, out, watch)?;
    watch.end(watched);
    Ok(watched)
}

// Searches a task, watched by the clock, and writes the result.
fn plan_task<O: Out, E: Out, R: Threads + Wait + Clock + Sync>(
    rt: &R,
    alloc: Global,
    task: &Task,
    bounds: Bounds,
    watching: Watching,
    out: &mut O,
    err: &mut E,
) -> Result<Watched, RunFault>
    ensures answer { IfOk result (λ watched. (text : List ℕ)
        × SaysWatched task.now bounds.nodes (is_some watching.seconds ≡ true) watched text × Appends (O.contents out.old) (O.contents out.new) text) }
    ensures works { OnOk result (O.has_failed out.new ≡ O.has_failed out.old) }
    ensures refused { IfErr result (λ fault. fault ≢ Output → IsWant bounds fault × (out.new ≡ out.old)) }
    ensures cut_short { IfErr result (λ fault. fault ≡ Output
        → IsWatchedCutShort task.now bounds.nodes (is_some watching.seconds ≡ true) (O.contents out.old) (O.contents out.new) × (O.has_failed out.new ≡ true)) }
    ensures shows { Shows E.contents E.has_failed (IsProgress task.now) watching.has_progress err.old err.new }
{
    let mut watch = Stopwatch::start(rt, task, watching, err);
    watch_task(rt, alloc, task, bounds, out, &mut watch)
}

// Reads a domain and a problem, searches their task, watched by the clock, and writes the result.
fn plan_texts<O: Out, E: Out, R: Threads + Wait + Clock + Sync>(
    rt: &R,
    alloc: Global,
    domain: &[u8],
    problem: &[u8],
    bounds: Bounds,
    watching: Watching,
    out: &mut O,
    err: &mut E,
) -> Result<Watched, RunFault>
    ensures answer { IfOk result (λ watched. (text : List ℕ)
        × SaysOfTexts domain.now problem.now bounds.nodes (is_some watching.seconds ≡ true) watched text × Appends (O.contents out.old) (O.contents out.new) text) }
    ensures works { OnOk result (O.has_failed out.new ≡ O.has_failed out.old) }
    ensures refused { IfErr result (λ fault. fault ≢ Output → Refuses domain.now problem.now bounds fault × (out.new ≡ out.old)) }
    ensures named { IfErr result (IsNamedOf domain.now problem.now) }
    ensures cut_short { IfErr result (λ fault. fault ≡ Output
        → IsTextsCutShort domain.now problem.now bounds.nodes (is_some watching.seconds ≡ true) (O.contents out.old) (O.contents out.new) × (O.has_failed out.new ≡ true)) }
    ensures shows { ShowsOfTexts E.contents E.has_failed domain.now problem.now watching.has_progress err.old err.new }
{
    let task = task_of(alloc, domain, problem)?;
    plan_task(rt, alloc, &task, bounds, watching, out, err)
}

/// The run of a request for a plan.
pub(crate) fn plan_files<S: Source, O: Out, E: Out, R: Threads + Wait + Clock + Sync>(
    rt: &R,
    alloc: Global,
    domain: &str,
    problem: &str,
    bounds: Bounds,
    watching: Watching,
    files: &mut S,
    out: &mut O,
    err: &mut E,
) -> Result<Reply, Stop>
    ensures answered { IfOk result (λ reply. AddsAnswer (S.files files.old) (O.contents out.old) (O.contents out.new) reply (Request.Plan domain.entry problem.entry bounds watching.seconds watching.has_progress)) }
    ensures works { OnOk result (O.has_failed out.new ≡ O.has_failed out.old) }
    ensures stopped { IfErr result (Stops O.contents O.has_failed (S.files files.old) (Request.Plan domain.entry problem.entry bounds watching.seconds watching.has_progress) out.old out.new) }
    ensures reads { NotesBeginning (S.reads files.old) (S.reads files.new) (names_of (Request.Plan domain.entry problem.entry bounds watching.seconds watching.has_progress)) }
    ensures shows { ShowsFor E.contents E.has_failed (S.files files.old) (Request.Plan domain.entry problem.entry bounds watching.seconds watching.has_progress) err.old err.new }
{
    let (domain, problem) = read_texts(alloc, files, domain, problem)?;
    let watched = plan_texts(
        rt,
        alloc,
        domain.as_slice(),
        problem.as_slice(),
        bounds,
        watching,
        out,
        err,
    )?;
    Ok(Reply::Planned(watched))
}
