//! The step from one level to the next: its ranks are expanded block by block, and what a block reaches is offered to
//! the closed list before the next one is expanded, so that no more than a block's successors are held at once. A block
//! has whole pieces, which are numbered through the level.
ghost use Rattle.std.specs.Prelude.{◌≡◌, ◌*◌, ◌/◌, ◌<◌, ◌≤◌, ◌++◌, List, length, map, All, true, IfOk, IfErr, IfSome, IfNone, OnOk};
ghost use Rattle.word_machine.specs.Machine.{IsDone, IsLiveStep};
ghost use Rattle.word_machine.specs.Answer.{IsBeyond, measure_of};
ghost use Rattle.word_machine.specs.Advance.{HasAdvanced};
ghost use Rattle.word_machine.specs.Expansion.{IsFirstDone};
ghost use Rattle.word_machine.specs.Meaning.{IsGrown, contents_at};
ghost use Rattle.word_machine.specs.Ranks.{IsOwned};
ghost use Rattle.word_machine.specs.declared.advance.FirstDone.{FirstDone};
ghost use Rattle.word_machine.specs.declared.advance.Advanced.TheVariants.{Whole, Done, Stopped};
ghost use Rattle.word_machine.specs.declared.closed.Origin.{Origin};
ghost use Rattle.word_machine.specs.declared.found.SearchFault.TheVariants.{NoThread};

use crate::bounds::Bounds;
use crate::closed::Closed;
use crate::expand::{expand_ranks, prepare_ranks};
use crate::found::SearchFault;
use crate::machine::Machine;
use crate::measure::{Horizon, Limits};
use crate::merge::merge;
use crate::watch::{Watch, goes_on_if};
use crate::work::Gate;
use crate::workers_level::ExpandedLevel;
use std::alloc::Global;
use std::sync::Wait;
use std::thread::Threads;

// The number of ranks that a block has, about.
const BLOCK: usize = 32_768;

// The length of a block that is not the last of its level: as many whole pieces as fit into `BLOCK` ranks, but one at
// least.
fn block_len(piece: usize) -> usize
    requires { 0 < piece }
    ensures whole { piece ≤ 32768 → result ≡ 32768 / piece * piece }
    ensures one { 32768 < piece → result ≡ piece }
    ensures some { 0 < result }
{
    if piece > BLOCK {
        return piece;
    }
    BLOCK / piece * piece
}

/// The first rank with a done successor, and the least number that leads to one.
#[derive(Clone, Copy, Debug)]
pub struct FirstDone {
    pub rank: usize,
    pub number: u64,
}

/// How the expansion of a level ended.
#[derive(Clone, Copy, Debug)]
pub enum Advanced {
    /// All was expanded, and no successor is done.
    Whole,
    /// A rank has a done successor.
    Done(FirstDone),
    /// The watch stopped it.
    Stopped,
}

/// Expands the ranks from `from` up to `to`, of the level that begins at `low`, and offers their successors to the
/// closed list; `room` is how many steps may still follow a successor. Where a rank has a done successor, the answer is
/// the first such rank with the least number that leads to one, and the list still begins with what it had.
pub fn advance_block<M: Machine, G: Gate, R: Threads + Wait + Sync>(
    rt: &R,
    alloc: Global,
    machine: &M,
    tables: &mut M::Tables,
    closed: &mut Closed<M::Configuration>,
    low: usize,
    from: usize,
    to: usize,
    horizon: Horizon,
    room: u64,
    bounds: Bounds,
    gate: &G,
) -> Result<Option<FirstDone>, SearchFault>
    requires started { low ≤ from }
    requires ordered { from ≤ to }
    requires within { to ≤ length closed.old.keys }
    requires own { M.owns machine.now tables.old }
    requires known { All (IsOwned (M.meaning machine.now tables.old) (M.belongs machine.now)) closed.old.keys }
    ensures owned { OnOk result (M.owns machine.now tables.new) }
    ensures grown { OnOk result (IsGrown (M.meaning machine.now tables.old) (M.meaning machine.now tables.new)) }
    ensures known { OnOk result (All (IsOwned (M.meaning machine.now tables.new) (M.belongs machine.now)) closed.new.keys) }
    ensures whole { IfOk result (λ done. IfNone done (HasAdvanced (M.words machine.now) (IsBeyond (M.words machine.now) (M.estimate machine.now) horizon) (measure_of (M.words machine.now) (M.estimate machine.now) horizon.measure) room (map (M.meaning machine.now tables.new).point closed.old.keys) from to (contents_at (M.meaning machine.now tables.new).point closed.old) (contents_at (M.meaning machine.now tables.new).point closed.new))) }
    ensures done { IfOk result (λ done. IfSome done (λ first. IsFirstDone (IsLiveStep (M.words machine.now)) (IsDone (M.words machine.now)) (map (M.meaning machine.now tables.new).point closed.old.keys) from to first.rank first.number)) }
    ensures keys { OnOk result ((more : List M.Configuration) × (closed.new.keys ≡ closed.old.keys ++ more)) }
    ensures origins { OnOk result ((more : List Origin) × (closed.new.origins ≡ closed.old.origins ++ more)) }
    ensures no_thread { IfErr result (λ e. e ≡ NoThread → 1 < bounds.workers) }
{
    let workers = bounds.workers as usize;
    let kept = &closed.configurations()[..to];
    prepare_ranks(rt, machine, tables, kept, from, workers)?;
    match expand_ranks(
        rt, alloc, machine, tables, kept, low, from, horizon, bounds, gate,
    )? {
        ExpandedLevel::Whole(reached) => {
            let measure = horizon.measure;
            merge(
                rt, alloc, workers, machine, tables, closed, reached, measure, room,
            )?;
            Ok(None)
        }
        ExpandedLevel::Done { rank, finish } => Ok(Some(FirstDone {
            rank,
            number: finish,
        })),
    }
}

/// Expands the level that begins at rank `low`, block by block, and offers the successors to the closed list; `room` is
/// how many steps may still follow a successor. It stops at the block of the first rank with a done successor. The watch
/// is asked before each block but the first.
pub fn advance<M: Machine, G: Gate, W: Watch, R: Threads + Wait + Sync>(
    rt: &R,
    alloc: Global,
    machine: &M,
    tables: &mut M::Tables,
    closed: &mut Closed<M::Configuration>,
    low: usize,
    horizon: Horizon,
    room: u64,
    limits: Limits,
    gate: &G,
    watch: &mut W,
) -> Result<Advanced, SearchFault>
    requires ordered { low ≤ length closed.old.keys }
    requires own { M.owns machine.now tables.old }
    requires known { All (IsOwned (M.meaning machine.now tables.old) (M.belongs machine.now)) closed.old.keys }
    requires hears { W.may_hear watch.old limits.none_below }
    ensures owned { OnOk result (M.owns machine.now tables.new) }
    ensures grown { OnOk result (IsGrown (M.meaning machine.now tables.old) (M.meaning machine.now tables.new)) }
    ensures known { OnOk result (All (IsOwned (M.meaning machine.now tables.new) (M.belongs machine.now)) closed.new.keys) }
    ensures whole { IfOk result (λ o. o ≡ Whole → (HasAdvanced (M.words machine.now) (IsBeyond (M.words machine.now) (M.estimate machine.now) horizon) (measure_of (M.words machine.now) (M.estimate machine.now) horizon.measure) room (map (M.meaning machine.now tables.new).point closed.old.keys) low (length closed.old.keys) (contents_at (M.meaning machine.now tables.new).point closed.old) (contents_at (M.meaning machine.now tables.new).point closed.new))) }
    ensures done { IfOk result (λ o. (first : FirstDone) → o ≡ Done first → (IsFirstDone (IsLiveStep (M.words machine.now)) (IsDone (M.words machine.now)) (map (M.meaning machine.now tables.new).point closed.old.keys) low (length closed.old.keys) first.rank first.number)) }
    ensures keys { OnOk result ((more : List M.Configuration) × (closed.new.keys ≡ closed.old.keys ++ more)) }
    ensures origins { OnOk result ((more : List Origin) × (closed.new.origins ≡ closed.old.origins ++ more)) }
    ensures no_thread { IfErr result (λ e. e ≡ NoThread → 1 < limits.bounds.workers) }
    ensures stopped { IfOk result (λ o. o ≡ Stopped → W.may_stop watch.old ≡ true) }
    ensures becomes { W.becomes watch.old watch.new }
{
    let bounds = limits.bounds;
    let high = closed.configurations().len();
    let block = block_len(bounds.piece as usize);
    let mut from = low;
    while from < high {
        let count = closed.configurations().len();
        if !goes_on_if(watch, from > low, limits.news(count)) {
            return Ok(Advanced::Stopped);
        }
        let to = from.saturating_add(block).min(high);
        if let Some(done) = advance_block(
            rt, alloc, machine, tables, closed, low, from, to, horizon, room, bounds, gate,
        )? {
            return Ok(Advanced::Done(done));
        }
        from = to;
    }
    Ok(Advanced::Whole)
}
