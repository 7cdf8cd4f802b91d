//! Searches over the small machine: each answer for several numbers of workers and sizes of pieces.

use crate::counter::Counter;
use crate::search_answers::expect_answers;
use std::alloc::AllocError;
use std::sync::Wait;
use std::thread::Threads;
use word_machine::{
    Bounds, Effort, Found, Machine, NoGate, SearchFault, find_word, find_word_deepening,
    find_word_in,
};

// Appends an answer that differs from those before.
fn push_other(
    machine: &Counter,
    found: &Result<Found, SearchFault>,
    out: &mut String,
) -> Result<(), AllocError> {
    let text = format!(in machine.alloc; "{found:?}")?;
    if text == *out {
        return Ok(());
    }
    out.push_str(text.as_str())
}

// The answer, also by bounds that grow.
fn push_both<R: Threads + Wait + Sync>(
    rt: &R,
    machine: &Counter,
    bounds: Bounds,
    out: &mut String,
) -> Result<(), AllocError> {
    let found = find_word(rt, machine.alloc, machine, bounds, &NoGate);
    push_other(machine, &found, out)?;
    let found = find_word_deepening(rt, machine.alloc, machine, bounds, &NoGate);
    push_other(machine, &found, out)
}

/// The one answer for all numbers of workers and sizes of pieces.
pub fn push_all<R: Threads + Wait + Sync>(
    rt: &R,
    machine: &Counter,
    nodes: u64,
    out: &mut String,
) -> Result<(), AllocError> {
    for workers in [1, 2, 4, 64] {
        for piece in [1, 2, 1_000_000] {
            match Bounds::new(nodes, workers, piece) {
                Some(bounds) => push_both(rt, machine, bounds, out)?,
                None => out.push_str("which bounds?")?,
            }
        }
    }
    Ok(())
}

// From 5 tasks, or 6, the lower bound is far from the 12 steps of the word: the bounds grow.
const WORDS: &str = "> all 3 2 0 3 900 3 = Ok(Word([0, 0, 1, 0]))
> all 3 2 0 3 900 9 = Ok(Word([0, 0, 1, 0]))
> all 3 2 0 3 900 2 = Ok(None)
> all 517 6 1 5 2 12 = Ok(Word([1, 0, 0, 1, 1, 1, 1, 1, 1, 0, 0, 1, 0]))
> all 517 6 1 5 2 100 = Ok(Word([1, 0, 0, 1, 1, 1, 1, 1, 1, 0, 0, 1, 0]))
> all 517 6 1 5 2 11 = Ok(None)
> all 3 9 5 1 2 9 = Ok(Word([1, 0]))
> all 3 1 2 1 2 9 = Ok(Word([0, 0]))
> all 3 1 2 0 3 9 = Ok(Word([1]))
> all 5 1 0 1 0 0 = Ok(None)
> all 5 1 0 1 0 1 = Ok(Unsolvable)
> all 5 1 0 1 0 10000 = Ok(Unsolvable)";

#[test]
fn the_shortest_and_least_word(rt: HostRuntime) -> Result<(), AllocError> {
    expect_answers(&rt, rt.alloc(), WORDS)
}

/// The answers of a search that may store one configuration, and of another one that continues with its tables.
pub fn push_again<R: Threads + Wait + Sync>(
    rt: &R,
    machine: &Counter,
    bounds: Bounds,
    out: &mut String,
) -> Result<(), AllocError> {
    let few = Effort {
        most_kept: 1,
        first_bound: 0,
    };
    let all = Effort {
        most_kept: usize::MAX,
        first_bound: 0,
    };
    let mut tables = machine.new_tables()?;
    let given_up = match find_word_in(
        rt,
        machine.alloc,
        machine,
        &mut tables,
        bounds,
        few,
        &NoGate,
    ) {
        Ok(given_up) => given_up,
        Err(fault) => return write!(out, "{fault:?}"),
    };
    let found = find_word_in(
        rt,
        machine.alloc,
        machine,
        &mut tables,
        bounds,
        all,
        &NoGate,
    );
    write!(out, "{given_up:?}, {found:?}")
}

// Two configurations are stored at the start, so a search that may store one is given up.
const AGAIN: &str = "> again 3 2 0 3 900 9 = None, Ok(Some(Word([0, 0, 1, 0])))";

#[test]
fn a_search_is_given_up(rt: HostRuntime) -> Result<(), AllocError> {
    expect_answers(&rt, rt.alloc(), AGAIN)
}

#[test]
fn bounds_in_range(rt: HostRuntime) {
    assert!(rt; Bounds::new(0, 1, 1).is_some() && Bounds::new(10_000, 64, 1_000_000).is_some());
    assert!(rt;
        Bounds::new(10_001, 1, 1).is_none()
            && Bounds::new(0, 0, 1).is_none()
            && Bounds::new(0, 65, 1).is_none()
            && Bounds::new(0, 1, 0).is_none()
            && Bounds::new(0, 1, 1_000_001).is_none()
    );
}
