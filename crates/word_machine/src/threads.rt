//! The workers of one level, each in a thread of its own.
ghost use Rattle.std.specs.Prelude.{◌≡◌, ◌<◌, ◌≤◌, ◌*◌, ◌+◌, ◌∷◌, ◌++◌, length, vec_len, vec_capacity, All, IfOk, IfSome, IfErr, false};
ghost use Rattle.word_machine.specs.declared.fault.LevelFault.TheVariants.{NoThread};
ghost use Rattle.word_machine.specs.Desk.{new_pass};
ghost use Rattle.word_machine.specs.Workers.{CanExpandAll, HasPieces, IsWorked};

use crate::desk::Pass;
use crate::fault::LevelFault;
use crate::work::{Expand, Gate};
use crate::worker::{Job, Worked, work_off};
use std::alloc::{AllocError, Global};
use std::sync::Wait;
use std::thread;
use std::thread::{Promise, PromisedHandle, Scope, Threads};

impl<'a, W: Expand, G: Gate> Promise<Result<Worked<W::Successor, W::Finish>, AllocError>>
    for Job<'a, W, G> {
    ghost use Rattle.std.specs.Prelude.{IfOk};
    ghost use Rattle.word_machine.specs.Workers.{CanExpandAll, HasPieces, IsWorked};

    ghost kept_by = { λ job r. IfOk r (IsWorked (W.has_successors job.level.work.now) (W.finishes job.level.work.now) job.level.first job.level.last job.level.piece job.desk.now) };
}

// Starts one worker.
fn start<'s, 'a: 's, E, W: Expand + 's, G: Gate + 's>(
    scope: &Scope<'s, E>,
    alloc: Global,
    job: Job<'a, W, G>,
    pass: Pass,
) -> Option<PromisedHandle<Result<Worked<W::Successor, W::Finish>, AllocError>, Job<'a, W, G>>>
    requires pass { pass ≡ new_pass job.desk.now }
    requires can { CanExpandAll (W.can_expand job.level.work.now) job.level.first job.level.last }
    requires pieces { HasPieces job.level.first job.level.last job.level.piece job.desk.now.pieces }
    ensures { IfSome result (λ h. h.promise ≡ job.entry) }
{
    let started = scope.spawn_with(
        job,
        move || -> Result<Worked<W::Successor, W::Finish>, AllocError>
            requires pass { pass ≡ new_pass job.desk.now }
            requires can { CanExpandAll (W.can_expand job.level.work.now) job.level.first job.level.last }
            requires pieces { HasPieces job.level.first job.level.last job.level.piece job.desk.now.pieces }
            ensures { IfOk result (IsWorked (W.has_successors job.entry.level.work.now) (W.finishes job.entry.level.work.now) job.entry.level.first job.entry.level.last job.entry.level.piece job.entry.desk.now) }
        { work_off(alloc, job, pass) },
    );
    started.ok()
}

// The threads that were started, and whether the start of one was refused.
#[derive(Drop)]
struct Started<'a, W: Expand, G: Gate> {
    handles: Vec<
        PromisedHandle<Result<Worked<W::Successor, W::Finish>, AllocError>, Job<'a, W, G>>,
    >,
    refused: bool,
}

// Starts a worker for each pass, until the start of a thread is refused.
fn start_all<'s, 'a: 's, E, W: Expand + 's, G: Gate + 's>(
    scope: &Scope<'s, E>,
    alloc: Global,
    job: Job<'a, W, G>,
    passes: Vec<Pass>,
) -> Result<Started<'a, W, G>, AllocError>
    requires passes { All (λ p. p ≡ new_pass job.desk.now) passes.items }
    requires can { CanExpandAll (W.can_expand job.level.work.now) job.level.first job.level.last }
    requires pieces { HasPieces job.level.first job.level.last job.level.piece job.desk.now.pieces }
    ensures promised { IfOk result (λ s. All (λ h. h.promise ≡ job.entry) s.handles.items) }
    ensures all { IfOk result (λ s. s.refused ≡ false → vec_len s.handles ≡ vec_len passes) }
{
    let mut handles = Vec::with_capacity(alloc, passes.len())?;
    for pass in passes {
        match start(scope, alloc, job, pass) {
            Some(handle) => handles.push(handle)?,
            None => {
                return Ok(Started {
                    handles,
                    refused: true,
                });
            }
        }
    }
    Ok(Started {
        handles,
        refused: false,
    })
}

// Adds the result of one worker to the others. True if memory was refused to the worker, or for this.
fn take_in<W: Expand, G: Gate>(
    job: Job<W, G>,
    home: &mut Vec<Worked<W::Successor, W::Finish>>,
    brought: Result<Worked<W::Successor, W::Finish>, AllocError>,
) -> bool
    requires brought { IfOk brought (IsWorked (W.has_successors job.level.work.now) (W.finishes job.level.work.now) job.level.first job.level.last job.level.piece job.desk.now) }
    requires right { All (IsWorked (W.has_successors job.level.work.now) (W.finishes job.level.work.now) job.level.first job.level.last job.level.piece job.desk.now) home.old.items }
    ensures right { All (IsWorked (W.has_successors job.entry.level.work.now) (W.finishes job.entry.level.work.now) job.entry.level.first job.entry.level.last job.entry.level.piece job.entry.desk.now) home.new.items }
    ensures one { result ≡ false → vec_len home.new ≡ vec_len home.old + 1 }
{
    let Ok(worked) = brought else {
        return true;
    };
    home.push(worked).is_err()
}

// Waits for each thread, and adds its result to the others. True if memory was refused.
fn join_all<'a, W: Expand, G: Gate, R: Threads>(
    rt: &R,
    job: Job<'a, W, G>,
    handles: Vec<
        PromisedHandle<Result<Worked<W::Successor, W::Finish>, AllocError>, Job<'a, W, G>>,
    >,
    home: &mut Vec<Worked<W::Successor, W::Finish>>,
) -> bool
    requires promised { All (λ h. h.promise ≡ job) handles.items }
    requires right { All (IsWorked (W.has_successors job.level.work.now) (W.finishes job.level.work.now) job.level.first job.level.last job.level.piece job.desk.now) home.old.items }
    ensures right { All (IsWorked (W.has_successors job.entry.level.work.now) (W.finishes job.entry.level.work.now) job.entry.level.first job.entry.level.last job.entry.level.piece job.entry.desk.now) home.new.items }
    ensures all { result ≡ false → vec_len home.new ≡ vec_len home.old + vec_len handles.entry }
{
    let mut refused = false;
    for handle in handles {
        if take_in(job, home, handle.join(rt)) {
            refused = true;
        }
    }
    refused
}

// Runs a worker for each pass in a thread of the scope. This thread only starts them and waits: a system may put a new
// thread behind the one that starts it.
fn run_in<'s, 'a: 's, E, W: Expand + 's, G: Gate + 's, R: Threads>(
    scope: &Scope<'s, E>,
    rt: &R,
    alloc: Global,
    job: Job<'a, W, G>,
    passes: Vec<Pass>,
) -> Result<Vec<Worked<W::Successor, W::Finish>>, LevelFault>
    requires several { 1 < vec_len passes }
    requires passes { All (λ p. p ≡ new_pass job.desk.now) passes.items }
    requires can { CanExpandAll (W.can_expand job.level.work.now) job.level.first job.level.last }
    requires pieces { HasPieces job.level.first job.level.last job.level.piece job.desk.now.pieces }
    ensures len { IfOk result (λ home. vec_len home ≡ vec_len passes) }
    ensures right { IfOk result (λ home. All (IsWorked (W.has_successors job.entry.level.work.now) (W.finishes job.entry.level.work.now) job.entry.level.first job.entry.level.last job.entry.level.piece job.entry.desk.now) home.items) }
    ensures no_thread { IfErr result (λ e. e ≡ NoThread → 1 < vec_len passes) }
{
    let mut home = Vec::with_capacity(alloc, passes.len())?;
    let Started { handles, refused } = start_all(scope, alloc, job, passes)?;
    if join_all(rt, job, handles, &mut home) {
        Err(LevelFault::OutOfMemory)
    } else if refused {
        Err(LevelFault::NoThread)
    } else {
        Ok(home)
    }
}

// Runs the worker of the only pass, here.
fn run_alone<W: Expand, G: Gate>(
    alloc: Global,
    job: Job<W, G>,
    mut passes: Vec<Pass>,
) -> Result<Vec<Worked<W::Successor, W::Finish>>, LevelFault>
    requires one { vec_len passes ≡ 1 }
    requires passes { All (λ p. p ≡ new_pass job.desk.now) passes.items }
    requires can { CanExpandAll (W.can_expand job.level.work.now) job.level.first job.level.last }
    requires pieces { HasPieces job.level.first job.level.last job.level.piece job.desk.now.pieces }
    ensures len { IfOk result (λ home. vec_len home ≡ 1) }
    ensures right { IfOk result (λ home. All (IsWorked (W.has_successors job.entry.level.work.now) (W.finishes job.entry.level.work.now) job.entry.level.first job.entry.level.last job.entry.level.piece job.entry.desk.now) home.items) }
    ensures no_thread { IfErr result (λ e. e ≡ NoThread → ⊥) }
{
    let Some(own) = passes.pop() else {
        unreachable!()
    };
    let mut home = Vec::with_capacity(alloc, 1)?;
    if take_in(job, &mut home, work_off(alloc, job, own)) {
        return Err(LevelFault::OutOfMemory);
    }
    Ok(home)
}

/// Runs a worker for each pass, each in a thread of its own, and waits for all; a single one runs here.
pub fn run<W: Expand, G: Gate, R: Threads + Wait + Sync>(
    rt: &R,
    alloc: Global,
    job: Job<W, G>,
    passes: Vec<Pass>,
) -> Result<Vec<Worked<W::Successor, W::Finish>>, LevelFault>
    requires some { 0 < vec_len passes }
    requires passes { All (λ p. p ≡ new_pass job.desk.now) passes.items }
    requires can { CanExpandAll (W.can_expand job.level.work.now) job.level.first job.level.last }
    requires pieces { HasPieces job.level.first job.level.last job.level.piece job.desk.now.pieces }
    ensures len { IfOk result (λ home. vec_len home ≡ vec_len passes) }
    ensures right { IfOk result (λ home. All (IsWorked (W.has_successors job.entry.level.work.now) (W.finishes job.entry.level.work.now) job.entry.level.first job.entry.level.last job.entry.level.piece job.entry.desk.now) home.items) }
    ensures no_thread { IfErr result (λ e. e ≡ NoThread → 1 < vec_len passes) }
{
    if passes.len() == 1 {
        return run_alone(alloc, job, passes);
    }
    thread::scope(
        thread::scope_env(),
        rt,
        move |scope| -> Result<Vec<Worked<W::Successor, W::Finish>>, LevelFault>
            requires several { 1 < vec_len passes }
            requires passes { All (λ p. p ≡ new_pass job.desk.now) passes.items }
            requires can { CanExpandAll (W.can_expand job.level.work.now) job.level.first job.level.last }
            requires pieces { HasPieces job.level.first job.level.last job.level.piece job.desk.now.pieces }
            ensures len { IfOk result (λ home. vec_len home ≡ vec_len passes) }
            ensures right { IfOk result (λ home. All (IsWorked (W.has_successors job.entry.level.work.now) (W.finishes job.entry.level.work.now) job.entry.level.first job.entry.level.last job.entry.level.piece job.entry.desk.now) home.items) }
            ensures no_thread { IfErr result (λ e. e ≡ NoThread → 1 < vec_len passes) }
        { run_in(scope, rt, alloc, job, passes) },
    )
}
