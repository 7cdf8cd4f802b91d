//! Searches whose pieces pass a gate.
ghost use Rattle.std.specs.Prelude.{◌<◌};

use crate::counter::Counter;
use crate::search_answers::expect_answers;
use std::alloc::{AllocError, Global};
use std::sync::Wait;
use std::sync::atomic::{AtomicU64, Ordering};
use std::thread::Threads;
use word_machine::{Bounds, Effort, Gate, Machine, find_word, find_word_deepening, find_word_in};

// How often the piece of each number went through, and how often another one did.
#[derive(Drop)]
struct CountingGate {
    calls: Vec<AtomicU64>,
    others: AtomicU64,
}

impl Gate for CountingGate {
    fn at(&self, piece: u64) {
        match self.calls.get(piece as usize) {
            Some(calls) => calls.fetch_add(1, Ordering::SeqCst),
            None => self.others.fetch_add(1, Ordering::SeqCst),
        };
    }
}

impl CountingGate {
    // A gate that counts all pieces alike.
    fn new(alloc: Global) -> CountingGate {
        CountingGate {
            calls: Vec::new(alloc),
            others: AtomicU64::new(0),
        }
    }

    fn others(&self) -> u64 {
        self.others.load(Ordering::SeqCst)
    }
}

/// The word, and how often pieces went through.
pub fn push_counted<R: Threads + Wait + Sync>(
    rt: &R,
    machine: &Counter,
    bounds: Bounds,
    out: &mut String,
) -> Result<(), AllocError> {
    let gate = CountingGate::new(machine.alloc);
    let found = find_word(rt, machine.alloc, machine, bounds, &gate);
    write!(out, "{found:?}, {} calls", gate.others())
}

/// The same by bounds that grow.
pub fn push_deepening<R: Threads + Wait + Sync>(
    rt: &R,
    machine: &Counter,
    bounds: Bounds,
    out: &mut String,
) -> Result<(), AllocError> {
    let gate = CountingGate::new(machine.alloc);
    let found = find_word_deepening(rt, machine.alloc, machine, bounds, &gate);
    write!(out, "{found:?}, {} calls", gate.others())
}

/// The same by bounds of which the first is given.
pub fn push_in<R: Threads + Wait + Sync>(
    rt: &R,
    machine: &Counter,
    bounds: Bounds,
    first_bound: u64,
    out: &mut String,
) -> Result<(), AllocError> {
    let gate = CountingGate::new(machine.alloc);
    let effort = Effort {
        most_kept: 1_000,
        first_bound,
    };
    let mut tables = machine.new_tables()?;
    let found = find_word_in(
        rt,
        machine.alloc,
        machine,
        &mut tables,
        bounds,
        effort,
        &gate,
    );
    write!(out, "{found:?}, {} calls", gate.others())
}

// A stuck tally has no successor, so there is one level, whose one piece passes the gate once, whatever the bound. One
// task at the value 0 leads to the same tally where it is doubled, and to no task and the value 1 where it is carried
// out, which is not wanted: so there are two levels, each with one piece.
//
// No word of the first dive has fewer than 3 steps. To double the value is one, and leaves 2: so the dive sees that the
// bound is met, and no level is searched. The second dive sees nothing, as the bound is not met: that it is not takes a
// search, of one level.
//
// A search whose first bound is the whole one expands each level once: from two tasks at the value 0 the word has 4
// steps, and the lower bound is 3. With a bound that grows, the first levels are searched twice.
const CALLS: &str = "> stuck 5 1 0 1 0 10000 = Ok(Unsolvable), 1 calls
> counted 5 1 0 1 0 10000 = Ok(Unsolvable), 2 calls
> deepening 500 2 249 2 249 2 = Ok(None), 0 calls
> deepening 5 1 0 1 0 1 = Ok(Unsolvable), 1 calls
> in 5 2 0 2 0 9 1 1000 9 = Ok(Some(Word([0, 0, 1, 1, 0]))), 4 calls
> in 5 2 0 2 0 9 1 1000 0 = Ok(Some(Word([0, 0, 1, 1, 0]))), 7 calls";

#[test]
fn pieces_pass_the_gate(rt: HostRuntime) -> Result<(), AllocError> {
    expect_answers(&rt, rt.alloc(), CALLS)
}

// How many tallies each level has from 8 tasks at the value 1, where tasks and steps together are 23 at most. A program
// of a few lines counted them, which keeps pairs of numbers in a set.
const WIDTHS: [usize; 23] = [
    1, 2, 4, 8, 15, 27, 47, 80, 134, 220, 352, 562, 895, 1421, 2248, 3541, 5548, 8624, 13203,
    19587, 27374, 34462, 35786,
];

// The number of levels that have a piece of this number, where a piece has `piece` ranks.
fn levels_with(number: usize, piece: usize) -> u64
    requires { 0 < piece }
{
    let mut levels: u64 = 0;
    for width in WIDTHS {
        if number < width.div_ceil(piece) {
            levels = levels.saturating_add(1);
        }
    }
    levels
}

// The first number whose piece did not go through once for each level that has it.
fn first_other(calls: &[AtomicU64], piece: usize) -> Option<usize>
    requires { 0 < piece }
{
    for number in 0..calls.len() {
        if calls[number].load(Ordering::SeqCst) != levels_with(number, piece) {
            return Some(number);
        }
    }
    None
}

/// Adds numbers that are 0.
pub fn push_zeros(count: u64, numbers: &mut Vec<AtomicU64>) -> Result<(), AllocError> {
    for _ in 0..count {
        numbers.push(AtomicU64::new(0))?;
    }
    Ok(())
}

/// The word; how often pieces of 400 numbers and more went through, and the first of the others that did not once for
/// each level that has it.
pub fn push_each_once<R: Threads + Wait + Sync>(
    rt: &R,
    machine: &Counter,
    bounds: Bounds,
    out: &mut String,
) -> Result<(), AllocError> {
    let mut gate = CountingGate::new(machine.alloc);
    push_zeros(400, &mut gate.calls)?;
    let found = find_word(rt, machine.alloc, machine, bounds, &gate);
    let other = first_other(&gate.calls, bounds.piece as usize);
    write!(out, "{found:?}, {} calls, {other:?}", gate.others())
}

// The last two levels are expanded in two blocks, of about 32,768 ranks each: so a block has 327 pieces of 100 ranks. A
// piece of more ranks than a block would have is a block of its own.
const EACH_ONCE: &str = "> each-once 999999 8 1 8 1 23 1 100 = Ok(None), 0 calls, None
> each-once 999999 8 1 8 1 23 1 33000 = Ok(None), 0 calls, None";

#[test]
fn a_gate_sees_each_piece_of_a_wide_level_once(rt: HostRuntime) -> Result<(), AllocError> {
    expect_answers(&rt, rt.alloc(), EACH_ONCE)
}
