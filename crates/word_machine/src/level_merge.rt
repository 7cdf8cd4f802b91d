//! The results of all workers are put together in the order of the pieces.
ghost use Rattle.std.specs.Prelude.{◌≡◌, ℕ, ◌<◌, ◌≤◌, ◌*◌, ◌+◌, length, vec_len, All, Contains, IfOk, IfSome, IfNone, IsSome, Some, None, replicate, slice_set, map, flat_map, true};
ghost use Rattle.word_machine.specs.Desk.{all_drawn, all_reported, all_seen};
ghost use Rattle.word_machine.specs.declared.in_order.Expanded.TheVariants.{Done};
ghost use Rattle.word_machine.specs.declared.piece.Outcome.TheVariants.{Ran};
ghost use Rattle.word_machine.specs.Joined.{joined};
ghost use Rattle.word_machine.specs.Level.{AreSuccessors};
ghost use Rattle.word_machine.specs.Workers.{IsWorked, Brings, IsWhole, IsWholeOutcome, IsWholePiece, HoldsPieces, IsFullAt, HasEachPiece, places_of};

use crate::chain::Chain;
use crate::desk::Pass;
use crate::in_order::Expanded;
use crate::piece::{Outcome, Piece};
use crate::work::{Expand, Gate};
use crate::worker::{Job, Level, Worked};
use std::alloc::{AllocError, Global};

/// Parts the passes from the results.
pub fn part<W: Expand, G: Gate>(
    alloc: Global,
    job: Job<W, G>,
    home: Vec<Worked<W::Successor, W::Finish>>,
) -> Result<(Vec<Pass>, Vec<Piece<W::Successor, W::Finish>>), AllocError>
    requires { All (IsWorked (W.has_successors job.level.work.now) (W.finishes job.level.work.now) job.level.first job.level.last job.level.piece job.desk.now) home.items }
    ensures len { IfOk result (λ r. vec_len r.0 ≡ vec_len home) }
    ensures own { IfOk result (λ r. All (λ p. p.desk ≡ job.entry.desk.now) r.0.items × All (λ p. p.ended ≡ true) r.0.items) }
    ensures brings { IfOk result (λ r. Brings (W.has_successors job.entry.level.work.now) (W.finishes job.entry.level.work.now) job.entry.level.first job.entry.level.last job.entry.level.piece (all_drawn r.0.items) (all_reported r.0.items) (all_seen r.0.items) r.1.items) }
{
    let mut passes = Vec::with_capacity(alloc, home.len())?;
    let mut pieces = Vec::new(alloc);
    for worked in home {
        let Worked {
            pass,
            pieces: mut more,
        } = worked;
        passes.push(pass)?;
        pieces.append(&mut more)?;
    }
    Ok((passes, pieces))
}

// How the configuration at this rank leads to a done successor, if a piece found that.
fn finish_of<S: Drop, F: Drop>(outcome: Outcome<S, F>, place: u64) -> Option<F>
    ensures some { IfSome result (λ finish. outcome ≡ Ran (Done place finish)) }
    ensures none { IfNone result (Contains (places_of outcome) place → ⊥) }
{
    match outcome {
        Outcome::Ran(Expanded::Done { rank, finish }) if rank as u64 == place => Some(finish),
        _ => None,
    }
}

/// How the configuration at this rank leads to a done successor, where a piece found that.
pub fn finish_at<S: Drop, F: Drop>(pieces: Vec<Piece<S, F>>, place: u64) -> F
    requires { Contains (flat_map (λ p. places_of p.outcome) pieces.items) place }
    ensures { (number : ℕ) × Contains pieces.items (record { number = number; outcome = Ran (Done place result) }) }
{
    for piece in pieces {
        if let Some(finish) = finish_of(piece.outcome, place) {
            return finish;
        }
    }
    unreachable!()
}

// What was made of a piece that was expanded to its end.
fn successors_of<W: Expand>(
    level: Level<W>,
    number: u64,
    outcome: Outcome<W::Successor, W::Finish>,
) -> Vec<W::Successor>
    requires { IsWholeOutcome (W.has_successors level.work.now) level.first level.last level.piece number outcome }
    ensures { IsWholePiece (W.has_successors level.entry.work.now) level.entry.first level.entry.last level.entry.piece number result.items }
{
    match outcome {
        Outcome::Ran(Expanded::Whole(successors)) => successors,
        _ => unreachable!(),
    }
}

fn fill<S: Drop>(slots: &mut Vec<Option<Vec<S>>>, number: u64, successors: Vec<S>)
    requires { number < vec_len slots.old }
    ensures items { slots.new.items ≡ slice_set slots.old.items number (Some successors) }
    ensures len { vec_len slots.new ≡ vec_len slots.old }
{
    slots[number as usize] = Some(successors);
}

// Lays each piece into the slot of its number.
#[tactic(auto, using(std::proofs::lemmas::Grind::common_steps))]
fn lay<W: Expand>(
    level: Level<W>,
    slots: &mut Vec<Option<Vec<W::Successor>>>,
    pieces: Vec<Piece<W::Successor, W::Finish>>,
)
    requires whole { All (IsWhole (W.has_successors level.work.now) level.first level.last level.piece) pieces.items }
    requires below { All (λ p. p.number < vec_len slots.old) pieces.items }
    requires held { HoldsPieces (W.has_successors level.work.now) level.first level.last level.piece slots.old.items }
    ensures held { HoldsPieces (W.has_successors level.entry.work.now) level.entry.first level.entry.last level.entry.piece slots.new.items }
    ensures full { IsFullAt (map (λ p. p.number) pieces.items) slots.new.items }
    ensures len { vec_len slots.new ≡ vec_len slots.old }
{
    for piece in pieces {
        let Piece { number, outcome } = piece;
        fill(slots, number, successors_of(level, number, outcome));
    }
}

// The vectors of the slots, in their order.
fn parts_of<W: Expand>(
    alloc: Global,
    level: Level<W>,
    slots: Vec<Option<Vec<W::Successor>>>,
) -> Result<Vec<Vec<W::Successor>>, AllocError>
    requires ordered { level.first ≤ level.last }
    requires held { HoldsPieces (W.has_successors level.work.now) level.first level.last level.piece slots.items }
    requires full { All IsSome slots.items }
    requires cover { level.last ≤ level.first + vec_len slots * level.piece }
    ensures { IfOk result (λ parts. AreSuccessors (W.has_successors level.entry.work.now) level.entry.first level.entry.last (joined parts.items)) }
{
    let mut parts = Vec::with_capacity(alloc, slots.len())?;
    for slot in slots {
        let Some(successors) = slot else {
            unreachable!()
        };
        parts.push(successors)?;
    }
    Ok(parts)
}

fn empty_slots<S: Drop>(alloc: Global, count: u64) -> Result<Vec<Option<Vec<S>>>, AllocError>
    ensures { IfOk result (λ slots. slots.items ≡ replicate count None) }
{
    let mut slots = Vec::new(alloc);
    for _ in 0..count {
        slots.push(None)?;
    }
    Ok(slots)
}

/// The successors of all configurations, in order, where each piece was expanded to its end.
#[tactic(auto, using(std::proofs::lemmas::Grind::common_steps))]
pub fn put_together<W: Expand>(
    alloc: Global,
    level: Level<W>,
    count: u64,
    pieces: Vec<Piece<W::Successor, W::Finish>>,
) -> Result<Chain<W::Successor>, AllocError>
    requires ordered { level.first ≤ level.last }
    requires whole { All (IsWhole (W.has_successors level.work.now) level.first level.last level.piece) pieces.items }
    requires below { All (λ p. p.number < count) pieces.items }
    requires each { HasEachPiece count pieces.items }
    requires cover { level.last ≤ level.first + count * level.piece }
    ensures { IfOk result (λ successors. AreSuccessors (W.has_successors level.entry.work.now) level.entry.first level.entry.last successors) }
{
    let mut slots = empty_slots(alloc, count)?;
    lay(level, &mut slots, pieces);
    let parts = parts_of(alloc, level, slots)?;
    Ok(Chain::new(alloc, parts))
}
