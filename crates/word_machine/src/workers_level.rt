//! A whole level, by several workers at a desk.
ghost use Rattle.std.specs.Prelude.{◌≡◌, ℕ, ◌<◌, ◌≤◌, ◌*◌, ◌+◌, ◌^◌, IfOk, IfErr};
ghost use Rattle.word_machine.specs.declared.fault.LevelFault.TheVariants.{NoThread};
ghost use Rattle.word_machine.specs.Level.{IsExpandedLevel};
ghost use Rattle.word_machine.specs.Workers.{CanExpandAll, HasPieces};

use crate::chain::Chain;
use crate::desk::Desk;
use crate::fault::LevelFault;
use crate::level_merge::{finish_at, part, put_together};
use crate::threads::run;
use crate::work::{Expand, Gate};
use crate::worker::{Job, Level};
use std::alloc::Global;
use std::sync::Wait;
use std::thread::Threads;

/// The outcome of an expansion.
#[derive(Drop)]
pub enum ExpandedLevel<S, F> {
    /// No configuration has a done successor, and these are all successors, in order.
    Whole(Chain<S>),
    /// The first rank with a done successor, and how its configuration leads there.
    Done { rank: usize, finish: F },
}

// A desk numbers at most 2^63 pieces, so the pieces of a longer level have two ranks at least.
fn piece_size(len: usize, piece: usize) -> usize
    requires { 0 < piece }
    ensures some { 0 < result }
    ensures few { len ≤ 2 ^ 63 * result }
    ensures same { len ≤ 2 ^ 63 → result ≡ piece }
{
    if len <= 1 << 63 { piece } else { piece.max(2) }
}

// How many pieces a level has.
fn pieces_of(len: u64, size: u64) -> u64
    requires { 0 < size }
    ensures cover { len ≤ result * size }
    ensures starts { (number : ℕ) → number < result → number * size < len }
    ensures few { len ≤ 2 ^ 63 * size → result ≤ 2 ^ 63 }
{
    len.div_ceil(size)
}

/// Expands a level by `workers` workers, who draw pieces of `piece` ranks. The answer is that of one worker who expands
/// the level in order. A gate sees each piece that is drawn by its number in the whole level.
#[tactic(auto, using(std::proofs::lemmas::Grind::common_steps))]
pub fn expand_level<W: Expand, G: Gate, R: Threads + Wait + Sync>(
    rt: &R,
    alloc: Global,
    level: Level<W>,
    workers: u64,
    gate: &G,
) -> Result<ExpandedLevel<W::Successor, W::Finish>, LevelFault>
    requires ordered { level.first ≤ level.last }
    requires can { CanExpandAll (W.can_expand level.work.now) level.first level.last }
    requires piece { 0 < level.piece }
    requires workers { (0 < workers) × (workers ≤ 64) }
    ensures expanded { IfOk result (IsExpandedLevel (W.has_successors level.entry.work.now) (W.finishes level.entry.work.now) level.entry.first level.entry.last) }
    ensures no_thread { IfErr result (λ e. e ≡ NoThread → 1 < workers) }
{
    let len = level.last - level.first;
    let piece = piece_size(len, level.piece);
    let level = Level { piece, ..level };
    let count = pieces_of(len as u64, piece as u64);
    let (desk, passes) = Desk::new(alloc, count, workers.min(count).max(1))?;
    let job = Job {
        level,
        gate,
        desk: &desk,
    };
    let home = run(rt, alloc, job, passes)?;
    let (passes, pieces) = part(alloc, job, home)?;
    let closed = desk.close(passes);
    match closed.least() {
        Some(place) => Ok(ExpandedLevel::Done {
            rank: place as usize,
            finish: finish_at(pieces, place),
        }),
        None => Ok(ExpandedLevel::Whole(put_together(alloc, level, count, pieces)?)),
    }
}
