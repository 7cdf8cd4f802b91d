//! Runs over texts in memory: with several workers, pieces and gates, into outputs that have room for a beginning of
//! the answer alone, and once more after memory was refused.

use crate::gates::Meeting;
use crate::library;
use crate::outputs::Narrow;
use htn_run::{Bounds, Gate, NoGate, Out, Outcome, RunFault, Sink, run_plan, run_verify};
use std::alloc::Global;
use std::fmt::Debug;
use std::io::{ErrorKind, Write};
use std::rt::Files;
use std::sync::Wait;
use std::thread::Threads;
use std::{fs, io};

// The texts and the bounds of a run, and a number that its kind gives a meaning.
#[derive(Drop)]
struct Run {
    domain: Vec<u8>,
    problem: Vec<u8>,
    plan: Vec<u8>,
    bounds: Bounds,
    number: u64,
}

impl Run {
    // Plans into an output.
    fn plan_into<O: Out, G: Gate, R: Threads + Wait + Sync>(
        &self,
        rt: &R,
        alloc: Global,
        gate: &G,
        out: &mut O,
    ) -> Result<Outcome, RunFault> {
        let (domain, problem) = (self.domain.as_slice(), self.problem.as_slice());
        run_plan(rt, alloc, domain, problem, self.bounds, gate, out)
    }
}

/// The number that a row begins with, and what follows it.
pub fn number_of(row: &str) -> Option<(u64, &str)> {
    let (word, rest) = row.split_once(' ')?;
    Some((word.parse::<u64>().ok()?, rest))
}

// The bounds that a row begins with, and what follows them.
fn bounds_of(row: &str) -> Option<(Bounds, &str)> {
    let (nodes, rest) = number_of(row)?;
    let (workers, rest) = number_of(rest)?;
    let (piece, rest) = number_of(rest)?;
    Some((Bounds::new(nodes, workers, piece)?, rest))
}

// The bytes of a file; none where no file is named.
fn bytes_of<R: Files + AllocGlobal>(rt: &R, name: Option<&str>) -> io::Result<Vec<u8>> {
    match name {
        Some(name) => fs::read(rt, name),
        None => Ok(Vec::new(rt.alloc())),
    }
}

// The run of a row without its kind: its number, its bounds, and the names of its domain, its problem and its plan.
fn run_of<R: Files + AllocGlobal>(rt: &R, row: &str) -> io::Result<Run> {
    let Some((number, row)) = number_of(row) else {
        return Err(io::Error::from(ErrorKind::InvalidInput));
    };
    let Some((bounds, row)) = bounds_of(row) else {
        return Err(io::Error::from(ErrorKind::InvalidInput));
    };
    let mut names = row.split(' ');
    let domain = bytes_of(rt, names.next())?;
    let problem = bytes_of(rt, names.next())?;
    let plan = bytes_of(rt, names.next())?;
    Ok(Run {
        domain,
        problem,
        plan,
        bounds,
        number,
    })
}

// Prints what was written, and how the run ended.
fn print_end<T: Debug + Drop, R: Print>(
    rt: &R,
    written: &[u8],
    end: Result<T, RunFault>,
) -> io::Result<()> {
    io::writer(rt).write_all(written)?;
    match end {
        Ok(outcome) => println!(rt; "{outcome:?}"),
        Err(fault) => println!(rt; "{fault}"),
    }
}

// A run that may be refused is made once more after a refusal. The output has its room before.
fn print_plan<R: Threads + Wait + Sync + Print>(
    rt: &R,
    alloc: Global,
    run: &Run,
    may_be_refused: bool,
) -> io::Result<()> {
    let mut out = Sink::new(Vec::with_capacity(alloc, 200)?);
    let mut end = run.plan_into(rt, alloc, &NoGate, &mut out);
    let no_thread = end == Err(RunFault::NoThread) && 1 < run.bounds.workers;
    if may_be_refused && (end == Err(RunFault::OutOfMemory) || no_thread) {
        end = run.plan_into(rt, alloc, &NoGate, &mut out);
    }
    print_end(rt, out.into_inner().as_slice(), end)
}

// A verdict, which is asked for once more after a refusal. The output has its room before.
fn print_verdict<R: Print>(rt: &R, alloc: Global, run: &Run) -> io::Result<()> {
    let (domain, problem) = (run.domain.as_slice(), run.problem.as_slice());
    let mut out = Sink::new(Vec::with_capacity(alloc, 200)?);
    let mut end = run_verify(alloc, domain, problem, run.plan.as_slice(), &mut out);
    if end == Err(RunFault::OutOfMemory) {
        end = run_verify(alloc, domain, problem, run.plan.as_slice(), &mut out);
    }
    print_end(rt, out.into_inner().as_slice(), end)
}

// Plans at a gate, and prints the answer.
fn print_at<R: Threads + Wait + Sync + Print>(
    rt: &R,
    alloc: Global,
    run: &Run,
    gate: &Meeting,
) -> io::Result<()> {
    let mut out = Sink::new(Vec::new(alloc));
    let end = run.plan_into(rt, alloc, gate, &mut out);
    print_end(rt, out.into_inner().as_slice(), end)
}

// The number is that of the piece that the first piece waits for.
fn print_meeting<R: Threads + Wait + Sync + Print>(
    rt: &R,
    alloc: Global,
    run: &Run,
) -> io::Result<()> {
    let gate = Meeting::new(run.number);
    print_at(rt, alloc, run, &gate)?;
    gate.print_calls(rt)
}

// Whether an output took just the bytes that it had room for, and the run ended as it should; what came out is printed
// where it didn't.
fn is_expected<R: Print>(
    rt: &R,
    beginning: &[u8],
    expected: Result<Outcome, RunFault>,
    taken: &[u8],
    end: Result<Outcome, RunFault>,
    has_failed: bool,
) -> io::Result<bool> {
    if end == expected && has_failed == expected.is_err() && taken == beginning {
        return Ok(true);
    }
    let room = beginning.len();
    println!(rt; "with room for {room} bytes, failed: {has_failed}")?;
    print_end(rt, taken, end)?;
    Ok(false)
}

// Plans into an output that has room for a beginning of the answer, and compares.
fn fits_room<R: Threads + Wait + Sync + Print>(
    rt: &R,
    alloc: Global,
    run: &Run,
    beginning: &[u8],
    expected: Result<Outcome, RunFault>,
) -> io::Result<bool> {
    let mut out = Sink::new(Narrow {
        taken: Vec::new(alloc),
        step: run.number as usize,
        room: beginning.len(),
    });
    let end = run.plan_into(rt, alloc, &NoGate, &mut out);
    let has_failed = out.has_failed();
    let taken = out.into_inner().taken;
    is_expected(rt, beginning, expected, taken.as_slice(), end, has_failed)
}

// Plans into outputs with room for each beginning of the answer.
fn print_beginnings<R: Threads + Wait + Sync + Print>(
    rt: &R,
    alloc: Global,
    run: &Run,
    answer: &[u8],
    end: Result<Outcome, RunFault>,
) -> io::Result<()> {
    print_end(rt, answer, end)?;
    let mut fits: u64 = 0;
    for room in 0..answer.len() {
        if fits_room(rt, alloc, run, &answer[..room], Err(RunFault::Output))? {
            fits = fits.saturating_add(1);
        }
    }
    let whole = fits_room(rt, alloc, run, answer, end)?;
    println!(rt;
        "smaller outputs with a beginning and the fault: {fits}; one of its size with all: {whole}"
    )
}

// The number is that of the bytes that the output takes at a time.
fn print_rooms<R: Threads + Wait + Sync + Print>(
    rt: &R,
    alloc: Global,
    run: &Run,
) -> io::Result<()> {
    let mut out = Sink::new(Vec::new(alloc));
    let end = run.plan_into(rt, alloc, &NoGate, &mut out);
    print_beginnings(rt, alloc, run, out.into_inner().as_slice(), end)
}

// Makes a run by its kind.
fn print_run<R: Threads + Wait + Sync + Print>(
    rt: &R,
    alloc: Global,
    kind: &str,
    run: &Run,
) -> io::Result<()> {
    match kind {
        "library" => library::print_plan(rt, alloc, run.domain.as_slice(), run.problem.as_slice()),
        "plan" => print_plan(rt, alloc, run, false),
        "again" => print_plan(rt, alloc, run, true),
        "verdict" => print_verdict(rt, alloc, run),
        "meeting" => print_meeting(rt, alloc, run),
        "rooms" => print_rooms(rt, alloc, run),
        _ => Err(io::Error::from(ErrorKind::InvalidInput)),
    }
}

// Makes the run of each row: its kind, a number, the bounds, and the names of its texts.
fn print_rows<R: Threads + Wait + Sync + Files + Print + AllocGlobal>(
    rt: &R,
    rows: &str,
) -> io::Result<()> {
    for row in rows.lines() {
        println!(rt; "> {row}")?;
        let Some((kind, row)) = row.split_once(' ') else {
            return Err(io::Error::from(ErrorKind::InvalidInput));
        };
        let run = run_of(rt, row)?;
        print_run(rt, rt.alloc(), kind, &run)?;
    }
    Ok(())
}

/// Makes the runs of `runs.txt`.
pub fn print_runs<R: Threads + Wait + Sync + Files + Print + AllocGlobal>(
    rt: &R,
) -> io::Result<()> {
    let rows = fs::read_to_string(rt, "runs.txt")?;
    print_rows(rt, rows.as_str())
}
