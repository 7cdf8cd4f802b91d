//! Tables of searches with their answers.
//!
//! A row is `> SEARCH NUMBERS = ANSWER`. Of a search over the small machine the numbers are the value that is wanted,
//! the tasks and the value of each of the two tallies to begin with, and the bound on the steps; and then, where they
//! are not 1, the number of workers and the size of a piece. All else is said at each kind of search. Where a row can't
//! be read the answer is a question, which no row has.

use crate::counter::Counter;
use crate::desks::push_desk;
use crate::gates::{push_counted, push_deepening, push_each_once, push_in};
use crate::levels::{push_after_refusal, push_cut, push_level};
use crate::small_searches::{push_again, push_all};
use crate::tallies::Tally;
use crate::watches::push_watched;
use std::alloc::{AllocError, Global};
use std::process::Abort;
use std::sync::Wait;
use std::thread::Threads;
use word_machine::Bounds;

/// The number at a place, or another one where there is none.
pub fn number_at(numbers: &[u64], place: usize, otherwise: u64) -> u64 {
    numbers.get(place).copied().unwrap_or(otherwise)
}

// A tally by its tasks and its value.
fn tally_at(numbers: &[u64], place: usize, stuck: bool) -> Tally {
    Tally {
        tasks: number_at(numbers, place, 0),
        value: number_at(numbers, place.saturating_add(1), 0),
        stuck,
    }
}

// The answer of a search. The tallies of one that is stuck have no step.
fn push_answer<R: Threads + Wait + Sync>(
    rt: &R,
    alloc: Global,
    search: &str,
    numbers: &[u64],
    out: &mut String,
) -> Result<(), AllocError> {
    let stuck = search == "stuck";
    let machine = Counter {
        target: number_at(numbers, 0, 0),
        first: tally_at(numbers, 1, stuck),
        second: tally_at(numbers, 3, stuck),
        alloc,
    };
    let (nodes, workers, piece) = (
        number_at(numbers, 5, u64::MAX),
        number_at(numbers, 6, 1),
        number_at(numbers, 7, 1),
    );
    let Some(bounds) = Bounds::new(nodes, workers, piece) else {
        return out.push_str("which bounds?");
    };
    match search {
        "all" => push_all(rt, &machine, nodes, out),
        "again" => push_again(rt, &machine, bounds, out),
        "counted" | "stuck" => push_counted(rt, &machine, bounds, out),
        "deepening" => push_deepening(rt, &machine, bounds, out),
        "in" => push_in(rt, &machine, bounds, number_at(numbers, 8, 0), out),
        "each-once" => push_each_once(rt, &machine, bounds, out),
        _ => push_watched(rt, &machine, bounds, search, numbers, out),
    }
}

// Appends the numbers that a text lists, or returns that a word is no number.
fn push_numbers(text: &str, numbers: &mut Vec<u64>) -> Result<bool, AllocError> {
    for word in text.split(' ') {
        match word.parse::<u64>() {
            Ok(number) => numbers.push(number)?,
            Err(_) => return Ok(false),
        }
    }
    Ok(true)
}

fn push_answer_to<R: Threads + Wait + Sync>(
    rt: &R,
    alloc: Global,
    question: &str,
    out: &mut String,
) -> Result<(), AllocError> {
    let (search, words) = question.split_once(' ').unwrap_or((question, ""));
    let mut numbers = Vec::new(alloc);
    if !push_numbers(words, &mut numbers)? {
        return out.push_str("which number?");
    }
    let (first, second) = (number_at(&numbers, 0, 0), number_at(&numbers, 1, 0));
    let third = number_at(&numbers, 2, 0);
    match search {
        "level" | "pieces" => push_level(rt, alloc, search, &numbers, out),
        "desk" => push_desk(rt, alloc, first, second, third, out),
        "cut" => push_cut(rt, alloc, first, out),
        "after-refusal" => push_after_refusal(rt, alloc, first, second, out),
        _ => push_answer(rt, alloc, search, &numbers, out),
    }
}

// A row without an answer is compared with one that no search has.
fn expect_answer<R: Threads + Wait + Sync + Abort>(
    rt: &R,
    alloc: Global,
    row: &str,
) -> Result<(), AllocError> {
    let (question, wanted) = row.split_once(" = ").unwrap_or((row, "an answer"));
    let mut found = String::new(alloc);
    push_answer_to(rt, alloc, question, &mut found)?;
    assert!(rt; found.as_str() == wanted, "{question}: {found}");
    Ok(())
}

/// Expects that each search of a table has its answer.
pub fn expect_answers<R: Threads + Wait + Sync + Abort>(
    rt: &R,
    alloc: Global,
    rows: &str,
) -> Result<(), AllocError> {
    for row in rows.split("\n> ") {
        expect_answer(rt, alloc, row.strip_prefix("> ").unwrap_or(row))?;
    }
    Ok(())
}
