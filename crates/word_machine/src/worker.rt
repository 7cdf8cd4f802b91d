//! A worker: it draws pieces from the desk until none is left.
ghost use Rattle.std.specs.Prelude.{◌≡◌, ◌<◌, ◌≤◌, ◌*◌, ◌+◌, ◌^◌, ◌++◌, true, false, min, All, IfOk};
ghost use Rattle.word_machine.specs.Desk.{new_pass};
ghost use Rattle.word_machine.specs.Workers.{CanExpandAll, HasPieces, IsOutcome, TakesPiece, IsWorked, piece_first, piece_last};

use crate::desk::{Desk, Pass};
use crate::in_order::{Expanded, expand_in_order};
use crate::piece::{Outcome, Piece, Skip};
use crate::work::{Expand, Gate};
use std::alloc::{AllocError, Global};

/// A level, or a part of one: the ranks from `first` on and below `last`.
#[derive_where(Clone, Copy)]
pub struct Level<'a, W: Expand> {
    pub work: &'a W,
    pub first: usize,
    pub last: usize,
    /// The length of a piece in ranks; the last piece may be shorter.
    pub piece: usize,
    /// How many pieces of the whole level come before these. A gate sees the numbers that follow.
    pub pieces_before: u64,
}

/// What the workers of one level share.
#[derive_where(Clone, Copy)]
pub struct Job<'a, W: Expand, G: Gate> {
    pub level: Level<'a, W>,
    pub gate: &'a G,
    pub desk: &'a Desk,
}

/// The result of a worker that met no refusal of memory.
#[derive(Drop)]
pub struct Worked<S, F> {
    pub pass: Pass,
    pub pieces: Vec<Piece<S, F>>,
}

fn skip(seen: u64, first: u64) -> Skip
    requires { seen < first }
    ensures { (result.seen ≡ seen) × (result.first ≡ first) }
{
    Skip { seen, first }
}

// The first rank of a piece, and the rank after its last.
fn bounds_of<W: Expand>(level: Level<W>, number: u64) -> (usize, usize)
    requires { piece_first level.first level.piece number < level.last }
    ensures first { result.0 ≡ piece_first level.entry.first level.entry.piece number }
    ensures last { result.1 ≡ piece_last level.entry.first level.entry.last level.entry.piece number }
{
    let first = level.first + number as usize * level.piece;
    (first, first + (level.last - first).min(level.piece))
}

// The number of a piece in the whole level. (The sum saturates only past the longest level that memory can hold.)
fn number_in_level<W: Expand>(level: Level<W>, number: u64) -> u64
    ensures { level.entry.pieces_before + number < 2 ^ 64 → result ≡ level.entry.pieces_before + number }
{
    level.pieces_before.saturating_add(number)
}

// Skips the piece if its first rank is above the least place reported, and else expands it.
fn take_piece<W: Expand, G: Gate>(
    alloc: Global,
    job: Job<W, G>,
    pass: &mut Pass,
    number: u64,
) -> Result<Outcome<W::Successor, W::Finish>, AllocError>
    requires own { pass.old.desk ≡ job.desk.now }
    requires can { CanExpandAll (W.can_expand job.level.work.now) job.level.first job.level.last }
    requires within { piece_first job.level.first job.level.piece number < job.level.last }
    ensures outcome { IfOk result (IsOutcome (W.has_successors job.entry.level.work.now) (W.finishes job.entry.level.work.now) job.entry.level.first job.entry.level.last job.entry.level.piece number pass.new.seen) }
    ensures pass { IfOk result (TakesPiece pass.old pass.new) }
{
    let (first, last) = bounds_of(job.level, number);
    if let Some(seen) = job.desk.least(pass) {
        if seen < first as u64 {
            return Ok(Outcome::Skipped(skip(seen, first as u64)));
        }
    }
    let expanded = expand_in_order(alloc, job.level.work, first, last)?;
    if let Expanded::Done { rank, .. } = &expanded {
        job.desk.report(pass, *rank as u64);
    }
    Ok(Outcome::Ran(expanded))
}

/// Draws pieces, and takes each, until none is left.
pub fn work_off<W: Expand, G: Gate>(
    alloc: Global,
    job: Job<W, G>,
    mut pass: Pass,
) -> Result<Worked<W::Successor, W::Finish>, AllocError>
    requires pass { pass ≡ new_pass job.desk.now }
    requires can { CanExpandAll (W.can_expand job.level.work.now) job.level.first job.level.last }
    requires pieces { HasPieces job.level.first job.level.last job.level.piece job.desk.now.pieces }
    ensures { IfOk result (IsWorked (W.has_successors job.entry.level.work.now) (W.finishes job.entry.level.work.now) job.entry.level.first job.entry.level.last job.entry.level.piece job.entry.desk.now) }
{
    let mut pieces = Vec::new(alloc);
    while let Some(number) = job.desk.claim(&mut pass) {
        job.gate.at(number_in_level(job.level, number));
        let outcome = take_piece(alloc, job, &mut pass, number)?;
        pieces.push(Piece { number, outcome })?;
    }
    Ok(Worked { pass, pieces })
}
