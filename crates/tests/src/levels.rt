//! Levels of ranks, each of which is followed by itself twice, up to a rank that is followed by a done one.
ghost use Rattle.std.specs.Prelude.{◌<◌, ◌≤◌};

use crate::search_answers::{expect_answers, number_at};
use std::alloc::{AllocError, Global};
use std::sync::Wait;
use std::sync::atomic::{AtomicBool, AtomicU64, Ordering};
use std::thread;
use std::thread::Threads;
use word_machine::{
    Expand, Expanded, ExpandedLevel, Gate, Level, NoGate, expand_in_order, expand_level,
};

// Each rank below `done_from` is followed by itself twice, and each other has a done successor. The rank `refuses` is
// refused memory, the first time.
#[derive(Drop)]
struct Twice {
    done_from: u64,
    refuses: u64,
    refused: AtomicBool,
}

impl Twice {
    fn new(done_from: u64, refuses: u64) -> Twice {
        Twice {
            done_from,
            refuses,
            refused: AtomicBool::new(false),
        }
    }
}

impl Expand for Twice {
    type Successor = u64;

    type Finish = u64;

    ghost use Rattle.std.specs.Prelude.{◌≡◌, ◌<◌, ◌≤◌, ◌∷◌, []};

    ghost can_expand = { λ _ _. Unit {0} };

    ghost has_successors = { λ w rank more. (rank < w.done_from) × (more ≡ rank ∷ rank ∷ []) };

    ghost finishes = { λ w rank number. (w.done_from ≤ rank) × (number ≡ rank) };

    fn expand(&self, rank: usize, successors: &mut Vec<u64>) -> Result<Option<u64>, AllocError> {
        let number = rank as u64;
        if number == self.refuses && !self.refused.swap(true, Ordering::SeqCst) {
            return Err(AllocError);
        }
        if self.done_from <= number {
            return Ok(Some(number));
        }
        successors.push(number)?;
        successors.push(number)?;
        Ok(None)
    }
}

// Notes the least and the greatest number of a piece, and counts the pieces. The nth call for piece 0 waits until piece
// `later` was called n times, for at most `TURNS` turns.
#[derive(Drop)]
struct Noting {
    later: u64,
    firsts: AtomicU64,
    laters: AtomicU64,
    least: AtomicU64,
    greatest: AtomicU64,
    calls: AtomicU64,
    ran_out: AtomicBool,
}

const TURNS: u64 = 10_000_000;

impl Gate for Noting {
    fn at(&self, piece: u64) {
        self.least.fetch_min(piece, Ordering::SeqCst);
        self.greatest.fetch_max(piece, Ordering::SeqCst);
        self.calls.fetch_add(1, Ordering::SeqCst);
        if piece == self.later {
            self.laters.fetch_add(1, Ordering::SeqCst);
        }
        if piece == 0 && self.later != NO_RANK {
            let before = self.firsts.fetch_add(1, Ordering::SeqCst);
            self.wait(before);
        }
    }
}

// A rank, and the number of a piece, that no level has here.
const NO_RANK: u64 = 99;

impl Noting {
    fn new(later: u64) -> Noting {
        Noting {
            later,
            firsts: AtomicU64::new(0),
            laters: AtomicU64::new(0),
            least: AtomicU64::new(u64::MAX),
            greatest: AtomicU64::new(0),
            calls: AtomicU64::new(0),
            ran_out: AtomicBool::new(false),
        }
    }

    fn wait(&self, before: u64) {
        for _ in 0..TURNS {
            if before < self.laters.load(Ordering::SeqCst) {
                return;
            }
            thread::yield_now();
        }
        self.ran_out.store(true, Ordering::SeqCst);
    }

    // How often it was called, the least and the greatest number, and whether a wait ran out.
    fn push(&self, out: &mut String) -> Result<(), AllocError> {
        let calls = self.calls.load(Ordering::SeqCst);
        let least = self.least.load(Ordering::SeqCst);
        let greatest = self.greatest.load(Ordering::SeqCst);
        let ran_out = self.ran_out.load(Ordering::SeqCst);
        let end = if ran_out { "too late" } else { "in time" };
        write!(out, "{calls} calls from {least} to {greatest}, {end}")
    }
}

// The outcome of a level: all successors, or a done successor and the rank that it follows.
fn push_outcome<R: Threads + Wait + Sync, G: Gate>(
    rt: &R,
    alloc: Global,
    level: Level<Twice>,
    workers: u64,
    gate: &G,
    out: &mut String,
) -> Result<(), AllocError>
    requires ordered { level.first ≤ level.last }
    requires piece { 0 < level.piece }
    requires workers { (0 < workers) × (workers ≤ 64) }
{
    match expand_level(rt, alloc, level, workers, gate) {
        Ok(ExpandedLevel::Whole(made)) => {
            let made: Vec<u64> = made.collect(alloc)?;
            write!(out, "{made:?}")
        }
        Ok(ExpandedLevel::Done { rank, finish }) => write!(out, "{finish} at {rank}"),
        Err(fault) => write!(out, "{fault:?}"),
    }
}

/// The outcomes of a level, which is expanded several times; and, as is asked, what a gate has noted. The numbers are
/// the first rank, the one after the last, the ranks of a piece, the pieces before, the rank from which on the others
/// are done, the one that is refused memory, the workers, the piece that piece 0 waits for, and how often.
pub fn push_level<R: Threads + Wait + Sync>(
    rt: &R,
    alloc: Global,
    search: &str,
    numbers: &[u64],
    out: &mut String,
) -> Result<(), AllocError> {
    let work = Twice::new(number_at(numbers, 4, 0), number_at(numbers, 5, NO_RANK));
    let level = Level {
        work: &work,
        first: number_at(numbers, 0, 0) as usize,
        last: number_at(numbers, 1, 0) as usize,
        piece: number_at(numbers, 2, 0) as usize,
        pieces_before: number_at(numbers, 3, 0),
    };
    let workers = number_at(numbers, 6, 0);
    if level.last < level.first || level.piece == 0 || workers == 0 || 64 < workers {
        return out.push_str("which level?");
    }
    let gate = Noting::new(number_at(numbers, 7, NO_RANK));
    for _ in 0..number_at(numbers, 8, 1) {
        push_outcome(rt, alloc, level, workers, &gate, out)?;
        out.push(' ')?;
    }
    match search {
        "pieces" => gate.push(out),
        _ => out.push_str("in all"),
    }
}

// A piece waits for a later one, and each of several levels has its workers. An empty level is whole. A worker that is
// refused memory is reported, whatever others find.
const LEVELS: &str = "> pieces 1 4 1 0 1 99 2 2 = 1 at 1 3 calls from 0 to 2, in time
> pieces 1 4 1 0 9 99 2 1 1 = [1, 1, 2, 2, 3, 3] 3 calls from 0 to 2, in time
> pieces 1 4 1 0 9 99 2 1 2 = [1, 1, 2, 2, 3, 3] [1, 1, 2, 2, 3, 3] 6 calls from 0 to 2, in time
> pieces 1 4 1 0 9 99 2 1 3 = [1, 1, 2, 2, 3, 3] [1, 1, 2, 2, 3, 3] [1, 1, 2, 2, 3, 3] 9 calls from 0 to 2, in time
> level 5 5 1000000 0 0 99 64 = [] in all
> level 1 4 1 0 2 1 1 99 2 = OutOfMemory 2 at 2 in all
> level 1 4 1 0 2 1 2 99 2 = OutOfMemory 2 at 2 in all
> level 1 4 1 0 2 1 3 99 2 = OutOfMemory 2 at 2 in all
> level 1 4 1 0 3 2 1 99 2 = OutOfMemory 3 at 3 in all
> level 1 4 1 0 3 2 2 99 2 = OutOfMemory 3 at 3 in all
> level 1 4 1 0 3 2 3 99 2 = OutOfMemory 3 at 3 in all";

#[test]
fn levels_are_expanded(rt: HostRuntime) -> Result<(), AllocError> {
    expect_answers(&rt, rt.alloc(), LEVELS)
}

// The first two pieces of three ranks, from the rank 3 on, are expanded already.
const PIECES: &str = "> pieces 9 16 3 2 99 99 1 = \
[9, 9, 10, 10, 11, 11, 12, 12, 13, 13, 14, 14, 15, 15] 3 calls from 2 to 4, in time
> pieces 9 16 3 2 99 99 2 = \
[9, 9, 10, 10, 11, 11, 12, 12, 13, 13, 14, 14, 15, 15] 3 calls from 2 to 4, in time
> pieces 9 16 3 2 99 99 3 = \
[9, 9, 10, 10, 11, 11, 12, 12, 13, 13, 14, 14, 15, 15] 3 calls from 2 to 4, in time";

#[test]
fn pieces_are_numbered_through_the_level(rt: HostRuntime) -> Result<(), AllocError> {
    expect_answers(&rt, rt.alloc(), PIECES)
}

// Appends an outcome that differs from the text.
fn push_other<R: Threads + Wait + Sync>(
    rt: &R,
    alloc: Global,
    level: Level<Twice>,
    workers: u64,
    out: &mut String,
) -> Result<(), AllocError>
    requires ordered { level.first ≤ level.last }
    requires piece { 0 < level.piece }
    requires workers { (0 < workers) × (workers ≤ 64) }
{
    let mut text = String::new(alloc);
    push_outcome(rt, alloc, level, workers, &NoGate, &mut text)?;
    if text == *out {
        return Ok(());
    }
    out.push_str(text.as_str())
}

// The outcome of one pass through a level in order.
fn push_in_order(
    alloc: Global,
    work: &Twice,
    first: usize,
    last: usize,
    out: &mut String,
) -> Result<(), AllocError>
    requires { first ≤ last }
{
    match expand_in_order(alloc, work, first, last)? {
        Expanded::Whole(made) => write!(out, "{made:?}"),
        Expanded::Done { rank, finish } => write!(out, "{finish} at {rank}"),
    }
}

/// The one outcome of the ranks from 3 to 8: that of one pass through them in order, and of some numbers of workers,
/// each with all cuttings of the level. The number is the rank from which on the others are done.
pub fn push_cut<R: Threads + Wait + Sync>(
    rt: &R,
    alloc: Global,
    done_from: u64,
    out: &mut String,
) -> Result<(), AllocError> {
    let work = Twice::new(done_from, NO_RANK);
    push_in_order(alloc, &work, 3, 9, out)?;
    for workers in [1, 2, 3, 64] {
        for piece in 1..=6 {
            let level = Level {
                work: &work,
                first: 3,
                last: 9,
                piece,
                pieces_before: 0,
            };
            push_other(rt, alloc, level, workers, out)?;
        }
    }
    Ok(())
}

const CUT: &str = "> cut 0 = 3 at 3
> cut 1 = 3 at 3
> cut 2 = 3 at 3
> cut 3 = 3 at 3
> cut 4 = 4 at 4
> cut 5 = 5 at 5
> cut 6 = 6 at 6
> cut 7 = 7 at 7
> cut 8 = 8 at 8
> cut 9 = [3, 3, 4, 4, 5, 5, 6, 6, 7, 7, 8, 8]";

#[test]
fn any_cutting_gives_the_same(rt: HostRuntime) -> Result<(), AllocError> {
    expect_answers(&rt, rt.alloc(), CUT)
}

/// The outcome of the ranks from 1 to 3, also where memory or a thread is refused once. The numbers are the rank from
/// which on the others are done, and the workers.
pub fn push_after_refusal<R: Threads + Wait + Sync>(
    rt: &R,
    alloc: Global,
    done_from: u64,
    workers: u64,
    out: &mut String,
) -> Result<(), AllocError> {
    let work = Twice::new(done_from, NO_RANK);
    let level = Level {
        work: &work,
        first: 1,
        last: 4,
        piece: 1,
        pieces_before: 0,
    };
    if workers == 0 || 64 < workers {
        return out.push_str("which workers?");
    }
    let mut first = String::new(alloc);
    push_outcome(rt, alloc, level, workers, &NoGate, &mut first)?;
    if first.as_str() == "OutOfMemory" || first.as_str() == "NoThread" && 1 < workers {
        return push_outcome(rt, alloc, level, workers, &NoGate, out);
    }
    out.push_str(first.as_str())
}

const REFUSED: &str = "> after-refusal 3 1 = 3 at 3
> after-refusal 9 1 = [1, 1, 2, 2, 3, 3]
> after-refusal 3 2 = 3 at 3
> after-refusal 9 2 = [1, 1, 2, 2, 3, 3]
> after-refusal 3 3 = 3 at 3
> after-refusal 9 3 = [1, 1, 2, 2, 3, 3]";

// To be run with each allocation refused in turn, those of thread starts among them.
#[test]
fn a_level_can_be_expanded_after_a_refusal(rt: HostRuntime) -> Result<(), AllocError> {
    expect_answers(&rt, rt.alloc(), REFUSED)
}
