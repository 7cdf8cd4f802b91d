//! Runs `htnplan` on each line of `command_lines.txt`, and prints what it writes and its status. Each plan that is
//! printed is verified, and a line says how many plans there are and how many of them are valid. Then come runs with
//! outputs that fail and files that are refused memory, runs over texts in memory, and what no command line shows.
#![tactic(auto)]

use htn_run::{Disk, Sink, Source, run_words};
use std::alloc::{AllocError, Global};
use std::io::Write;
use std::rt::Files;
use std::sync::Wait;
use std::thread::Threads;
use std::time::Clock;
use std::{fs, io};

mod faults;
mod gates;
mod library;
mod outputs;
mod process;
mod runs;

// The words of a line, after the program's name.
fn words_of(alloc: Global, line: &str) -> Result<Vec<String>, AllocError> {
    let mut words = Vec::new(alloc);
    words.push(String::from_str(alloc, "htnplan")?)?;
    for word in line.split(' ') {
        words.push(String::from_str(alloc, word)?)?;
    }
    Ok(words)
}

// Whether the plan that a line printed is valid for the domain and the problem of the line.
fn is_valid<S: Source>(alloc: Global, files: &mut S, line: &str, plan: &[u8]) -> bool {
    let mut words = line.split(' ').skip(1);
    let (Some(domain), Some(problem)) = (words.next(), words.next()) else {
        return false;
    };
    let (Ok(domain), Ok(problem)) = (files.read(alloc, domain), files.read(alloc, problem)) else {
        return false;
    };
    let verdict = library::is_valid(alloc, domain.as_slice(), problem.as_slice(), plan);
    matches!(verdict, Ok(true))
}

// How many plans were printed, and how many of them are valid.
#[derive(Clone, Copy)]
struct Plans {
    printed: u64,
    valid: u64,
}

// Prints a command line, what it wrote, and its status.
fn print_end<R: Print>(rt: &R, line: &str, out: &[u8], err: &[u8], status: u8) -> io::Result<()> {
    println!(rt; "> htnplan {line}")?;
    io::writer(rt).write_all(out)?;
    io::writer(rt).write_all(err)?;
    println!(rt; "status {status}")
}

// Runs a command line, and counts its plan if it prints one.
fn print_line<R: Threads + Wait + Clock + Sync + Files + Print>(
    rt: &R,
    alloc: Global,
    line: &str,
    plans: &mut Plans,
) -> io::Result<()> {
    let words = words_of(alloc, line)?;
    let mut files = Disk { files: rt };
    let mut out = Sink::new(Vec::new(alloc));
    let mut err = Sink::new(Vec::new(alloc));
    let status = run_words(rt, alloc, words.as_slice(), &mut files, &mut out, &mut err);
    let (answer, errors) = (out.into_inner(), err.into_inner());
    if status == 0 && line.starts_with("plan ") {
        plans.printed = plans.printed.saturating_add(1);
        let is_valid = is_valid(alloc, &mut files, line, answer.as_slice());
        plans.valid = plans.valid.saturating_add(u64::from(is_valid));
    }
    print_end(rt, line, answer.as_slice(), errors.as_slice(), status)
}

// Runs each command line.
fn print_lines<R: Threads + Wait + Clock + Sync + Files + Print>(
    rt: &R,
    alloc: Global,
    lines: &str,
) -> io::Result<()> {
    let mut plans = Plans {
        printed: 0,
        valid: 0,
    };
    for line in lines.lines() {
        print_line(rt, alloc, line, &mut plans)?;
    }
    let Plans { printed, valid } = plans;
    println!(rt; "plans printed: {printed}, of which valid: {valid}")
}

// Runs the command lines of `command_lines.txt`.
fn print_command_lines<R: Threads + Wait + Clock + Sync + Files + Print + AllocGlobal>(
    rt: &R,
) -> io::Result<()> {
    let lines = fs::read_to_string(rt, "command_lines.txt")?;
    print_lines(rt, rt.alloc(), lines.as_str())
}

fn main(rt: HostRuntime) -> io::Result<()> {
    print_command_lines(&rt)?;
    println!(rt; "= outputs that fail, and files that are refused memory")?;
    outputs::print_outputs(&rt)?;
    println!(rt; "= runs over texts in memory")?;
    runs::print_runs(&rt)?;
    println!(rt; "= the parts of a process around its run")?;
    process::print_parts(&rt, rt.alloc())?;
    println!(rt; "= the line of each fault, as it is written and as its Display says it")?;
    faults::print_faults(&rt)
}
