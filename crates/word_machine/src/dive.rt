//! A dive for a configuration by which the bound is met: no finishing word through it is within the bound by its open
//! nodes. It decides `none` without a search of all that the bound admits.
ghost use Rattle.std.specs.Prelude.{◌≡◌, ◌≤◌, ◌-◌, ◌^◌, ℕ, [], true, All, Some, IfOk, IfSome, OnOk, map, min, slice_get};
ghost use Rattle.indexmap.specs.IndexSet.{insert_key};
ghost use Rattle.word_machine.specs.Dive.{AreAllBelow, IsReached, IsVisited, extent};
ghost use Rattle.word_machine.specs.Machine.{IsMet};
ghost use Rattle.word_machine.specs.Meaning.{IsGrown};
ghost use Rattle.word_machine.specs.Ranks.{IsOwned};

use crate::closed::{Closed, Measured};
use crate::machine::Machine;
use crate::measure::{Horizon, Limits, Measure};
use crate::watch::{Watch, goes_on_if};
use indexmap::IndexSet;
use std::alloc::{AllocError, Global};
use std::collections::BinaryHeap;
use std::hash::Hash;
use std::thread::Threads;

// A dive that succeeds mostly needs some hundreds of configurations. It gives up once it has this number, and half as
// many as the search before it.
const LEAST_KEPT: usize = 1_000;

// A dive asks its watch each time that it has expanded this number of configurations.
const TURNS: usize = 256;

// The configurations that a dive reached, none of them twice, and those that are not expanded yet.
struct Frontier<C: Eq + Hash> {
    kept: IndexSet<C>,
    // The open list: each configuration by its place among those reached, with its extent.
    open: BinaryHeap<(u64, usize)>,
}

impl<C: Eq + Hash + Drop> Drop for Frontier<C> {
    fn drop(self) {
        let Frontier { kept: _, open: _ } = self;
    }
}

impl<C: Eq + Hash + Copy> Frontier<C> {
    fn new(alloc: Global) -> Frontier<C>
        ensures { result.kept.keys ≡ [] }
    {
        Frontier {
            kept: IndexSet::new(alloc),
            open: BinaryHeap::new(alloc),
        }
    }

    // Adds a configuration of this extent, unless it is there.
    fn keep(&mut self, configuration: C, extent: u64) -> Result<(), AllocError>
        ensures { OnOk result (self.new.kept.keys ≡ insert_key C.eq self.old.kept.keys configuration) }
    {
        let (place, is_new) = self.kept.insert_full(configuration)?;
        if is_new {
            self.open.push((extent, place))?;
        }
        Ok(())
    }

    // Takes the next one to be expanded: one of the greatest extent, the newest first.
    fn pop(&mut self) -> Option<C>
        ensures kept { self.new.kept.keys ≡ self.old.kept.keys }
        ensures next { IfSome result (λ c. (place : ℕ) × (slice_get self.old.kept.keys place ≡ Some c)) }
    {
        let (_, place) = self.open.pop()?;
        self.kept.get_index(place).copied()
    }
}

// The extent of a configuration: a lower bound on the steps that lead to it (no finishing word has fewer than `least`,
// and the bound on what is left falls by at most one with each step), and its open nodes.
fn extent<M: Machine>(machine: &M, tables: &M::Tables, least: u64, at: M::Configuration) -> u64
    requires own { M.owns machine.now tables.now }
    requires owned { IsOwned (M.meaning machine.now tables.now) (M.belongs machine.now) at }
    ensures { result ≡ min
        (extent (M.words machine.now) (M.estimate machine.now) least ((M.meaning machine.now tables.now).point at))
        (2 ^ 64 - 1) }
{
    let steps = least.saturating_sub(machine.lower_bound(tables, at));
    steps.saturating_add(machine.open_len(tables, at))
}

// Adds a configuration from which a dive starts.
fn keep_start<M: Machine>(
    machine: &M,
    tables: &M::Tables,
    frontier: &mut Frontier<M::Configuration>,
    at: M::Configuration,
    least: u64,
) -> Result<(), AllocError>
    requires own { M.owns machine.now tables.now }
    requires kept { All
        (IsVisited (M.words machine.now) (M.belongs machine.now) (M.meaning machine.now tables.now))
        frontier.old.kept.keys }
    requires visited { IsVisited (M.words machine.now) (M.belongs machine.now) (M.meaning machine.now tables.now) at }
    ensures { OnOk result (All
        (IsVisited (M.words machine.now) (M.belongs machine.now) (M.meaning machine.now tables.now))
        frontier.new.kept.keys) }
{
    let extent = extent(machine, tables, least, at);
    frontier.keep(at, extent)
}

// Adds the initial configurations, and the parents of configurations that a search pruned.
fn keep_starts<M: Machine>(
    machine: &M,
    tables: &M::Tables,
    frontier: &mut Frontier<M::Configuration>,
    initials: &[M::Configuration],
    closed: &Closed<M::Configuration>,
    least: u64,
) -> Result<(), AllocError>
    requires own { M.owns machine.now tables.now }
    requires kept { All
        (IsVisited (M.words machine.now) (M.belongs machine.now) (M.meaning machine.now tables.now))
        frontier.old.kept.keys }
    requires initials { All
        (IsVisited (M.words machine.now) (M.belongs machine.now) (M.meaning machine.now tables.now))
        initials.now }
    requires closed { All
        (IsVisited (M.words machine.now) (M.belongs machine.now) (M.meaning machine.now tables.now))
        closed.now.keys }
    ensures { OnOk result (All
        (IsVisited (M.words machine.now) (M.belongs machine.now) (M.meaning machine.now tables.now))
        frontier.new.kept.keys) }
{
    for initial in initials {
        keep_start(machine, tables, frontier, *initial, least)?;
    }
    for rank in closed.edge() {
        if let Some(configuration) = closed.configurations().get(*rank) {
            keep_start(machine, tables, frontier, *configuration, least)?;
        }
    }
    Ok(())
}

// Numbers successors, and adds those that are not in the closed list of the search before.
fn keep_all<M: Machine>(
    machine: &M,
    tables: &mut M::Tables,
    frontier: &mut Frontier<M::Configuration>,
    closed: &Closed<M::Configuration>,
    batch: Vec<Measured<M::Reached>>,
    least: u64,
) -> Result<(), AllocError>
    requires own { M.owns machine.now tables.old }
    requires kept { All
        (IsVisited (M.words machine.now) (M.belongs machine.now) (M.meaning machine.now tables.old))
        frontier.old.kept.keys }
    requires allowed { All (λ s. (M.meaning machine.now tables.old).allows s.successor.configuration) batch.items }
    requires belongs { All
        (λ s. M.belongs machine.now ((M.meaning machine.now tables.old).point_of s.successor.configuration))
        batch.items }
    requires reached { All
        (λ s. IsReached (M.words machine.now) ((M.meaning machine.now tables.old).point_of s.successor.configuration))
        batch.items }
    ensures owned { OnOk result (M.owns machine.now tables.new) }
    ensures grown { OnOk result (IsGrown (M.meaning machine.now tables.old) (M.meaning machine.now tables.new)) }
    ensures kept { OnOk result (All
        (IsVisited (M.words machine.now) (M.belongs machine.now) (M.meaning machine.now tables.new))
        frontier.new.kept.keys) }
{
    for one in batch {
        let configuration = machine.keep(tables, one.successor.configuration)?;
        if closed.contains(&configuration) {
            continue;
        }
        let extent = extent(machine, tables, least, configuration);
        frontier.keep(configuration, extent)?;
    }
    Ok(())
}

// Adds the successors of a configuration that are not in the closed list of the search before. If one of them is done
// they are not listed, and none is added.
fn expand<M: Machine, R: Threads + Sync>(
    rt: &R,
    alloc: Global,
    machine: &M,
    tables: &mut M::Tables,
    frontier: &mut Frontier<M::Configuration>,
    closed: &Closed<M::Configuration>,
    from: M::Configuration,
    least: u64,
) -> Result<(), AllocError>
    requires own { M.owns machine.now tables.old }
    requires kept { All
        (IsVisited (M.words machine.now) (M.belongs machine.now) (M.meaning machine.now tables.old))
        frontier.old.kept.keys }
    requires from { IsVisited (M.words machine.now) (M.belongs machine.now) (M.meaning machine.now tables.old) from }
    ensures owned { OnOk result (M.owns machine.now tables.new) }
    ensures grown { OnOk result (IsGrown (M.meaning machine.now tables.old) (M.meaning machine.now tables.new)) }
    ensures kept { OnOk result (All
        (IsVisited (M.words machine.now) (M.belongs machine.now) (M.meaning machine.now tables.new))
        frontier.new.kept.keys) }
{
    let mut at = Vec::new(alloc);
    at.push(from)?;
    machine.prepare_all(rt, tables, at.as_slice(), 1)?;
    let horizon = Horizon {
        measure: Measure::LowerBound,
        most_left: None,
    };
    let mut successors = Vec::new(alloc);
    match machine.expand(tables, 0, from, horizon, &mut successors)? {
        None => keep_all(machine, tables, frontier, closed, successors, least),
        Some(_) => Ok(()),
    }
}

// Whether a dive from these configurations meets one that no word reaches with its steps and its open nodes within the
// bound.
fn dive_from<M: Machine, W: Watch, R: Threads + Sync>(
    rt: &R,
    alloc: Global,
    machine: &M,
    tables: &mut M::Tables,
    frontier: &mut Frontier<M::Configuration>,
    closed: &Closed<M::Configuration>,
    least: u64,
    limits: Limits,
    watch: &mut W,
) -> Result<bool, AllocError>
    requires own { M.owns machine.now tables.old }
    requires kept { All
        (IsVisited (M.words machine.now) (M.belongs machine.now) (M.meaning machine.now tables.old))
        frontier.old.kept.keys }
    requires below { AreAllBelow (M.words machine.now) (M.belongs machine.now) (M.estimate machine.now)
        (M.meaning machine.now tables.old) least closed.now.keys }
    requires hears { W.may_hear watch.old limits.none_below }
    ensures owned { OnOk result (M.owns machine.now tables.new) }
    ensures met { IfOk result (λ is_met. is_met ≡ true → IsMet (M.words machine.now) limits.bounds.nodes) }
    ensures becomes { W.becomes watch.old watch.new }
{
    let bound = limits.bounds.nodes;
    let most_kept = LEAST_KEPT.max(closed.configurations().len() / 2);
    for turn in 0..most_kept {
        let count = frontier.kept.len();
        if !goes_on_if(watch, turn % TURNS == 0, limits.news(count)) {
            return Ok(false);
        }
        let Some(from) = frontier.pop() else {
            return Ok(false);
        };
        if extent(machine, tables, least, from) > bound && !closed.contains(&from) {
            return Ok(true);
        }
        if frontier.kept.len() >= most_kept {
            return Ok(false);
        }
        expand(rt, alloc, machine, tables, frontier, closed, from, least)?;
    }
    Ok(false)
}

/// Whether a configuration was found that no word reaches with its steps and its open nodes within the bound. The dive
/// starts at the parents of configurations that a search pruned, expands the greatest extent first, and may give up, as
/// where its watch stops it.
pub fn dive<M: Machine, W: Watch, R: Threads + Sync>(
    rt: &R,
    alloc: Global,
    machine: &M,
    tables: &mut M::Tables,
    initials: &[M::Configuration],
    closed: &Closed<M::Configuration>,
    least: u64,
    limits: Limits,
    watch: &mut W,
) -> Result<bool, AllocError>
    requires own { M.owns machine.now tables.old }
    requires known { All (M.meaning machine.now tables.old).knows initials.now }
    requires initials { map (M.meaning machine.now tables.old).point initials.now ≡ (M.words machine.now).initials }
    requires below { AreAllBelow (M.words machine.now) (M.belongs machine.now) (M.estimate machine.now)
        (M.meaning machine.now tables.old) least closed.now.keys }
    requires hears { W.may_hear watch.old limits.none_below }
    ensures owned { OnOk result (M.owns machine.now tables.new) }
    ensures met { IfOk result (λ is_met. is_met ≡ true → IsMet (M.words machine.now) limits.bounds.nodes) }
    ensures becomes { W.becomes watch.old watch.new }
{
    let mut frontier = Frontier::new(alloc);
    keep_starts(machine, tables, &mut frontier, initials, closed, least)?;
    dive_from(
        rt,
        alloc,
        machine,
        tables,
        &mut frontier,
        closed,
        least,
        limits,
        watch,
    )
}
