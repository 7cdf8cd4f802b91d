//! The search for the least finishing word, level by level.
ghost use Rattle.std.specs.Prelude.{◌≡◌, ℕ, ◌+◌, ◌-◌, ◌^◌, ◌<◌, ◌≤◌, ◌∷◌, [], true, false, length, map, max, All, Option, Some, slice_get, IfOk, IfErr, IfSome, IfNone, OnOk};
ghost use Rattle.word_machine.specs.Machine.{IsDone};
ghost use Rattle.word_machine.specs.Meaning.{IsGrown};
ghost use Rattle.word_machine.specs.Ranks.{IsOwned};
ghost use Rattle.word_machine.specs.Dive.{AreAllBelow};
ghost use Rattle.word_machine.specs.Answer.{IsAnswer, IsOutcome, NoneFinishes, measure_of};
ghost use Rattle.word_machine.specs.declared.found.SearchFault.TheVariants.{NoThread};
ghost use Rattle.word_machine.specs.declared.found.Outcome.TheVariants.{Past, Exhausted, GivenUp, Stopped};

use crate::advance::{Advanced, advance};
use crate::bounds::Bounds;
use crate::closed::Closed;
use crate::found::{Found, Outcome, SearchFault};
use crate::machine::Machine;
use crate::measure::{Horizon, Limits, Measure};
use crate::merge::offer_initials;
use crate::watch::{NoWatch, Watch};
use crate::word::read_word;
use crate::work::Gate;
use std::alloc::{AllocError, Global};
use std::hash::Hash;
use std::sync::Wait;
use std::thread::Threads;

// The first initial configuration that is done.
fn first_done<M: Machine>(
    machine: &M,
    tables: &M::Tables,
    initials: &[M::Configuration],
) -> Option<u64>
    requires own { M.owns machine.now tables.now }
    requires known { All (IsOwned (M.meaning machine.now tables.now) (M.belongs machine.now)) initials.now }
    ensures none { IfNone result ((i : ℕ) (c : M.Configuration) → slice_get initials.now i ≡ Some c → IsDone (M.words machine.now) ((M.meaning machine.now tables.now).point c) → ⊥) }
    ensures found { IfSome result (λ n. (c : M.Configuration) × (slice_get initials.now n ≡ Some c) × IsDone (M.words machine.now) ((M.meaning machine.now tables.now).point c)) }
    ensures first { IfSome result (λ n. (i : ℕ) (c : M.Configuration) → i < n → slice_get initials.now i ≡ Some c → IsDone (M.words machine.now) ((M.meaning machine.now tables.now).point c) → ⊥) }
{
    for (i, initial) in initials.iter().enumerate() {
        if machine.is_done(tables, *initial) {
            return Some(i as u64);
        }
    }
    None
}

fn word_of_one(alloc: Global, number: u64) -> Result<Vec<u64>, AllocError>
    ensures { IfOk result (λ word. word.items ≡ number ∷ []) }
{
    let mut word = Vec::new(alloc);
    word.push(number)?;
    Ok(word)
}

/// The least finishing word within the bound: a breadth-first search that prunes by the measure what can't finish
/// within the bound. Where it is known that no word finishes within it, the search ends with the level in which the
/// first configuration is pruned. It is given up before a level at which the closed list is longer than the limit, and
/// never where the limit is the greatest number. The watch is asked before each level, and may stop it. The closed list
/// is emptied first, and its room used again.
pub fn search<M: Machine, G: Gate, W: Watch, R: Threads + Wait + Sync>(
    rt: &R,
    alloc: Global,
    machine: &M,
    tables: &mut M::Tables,
    initials: &[M::Configuration],
    closed: &mut Closed<M::Configuration>,
    limits: Limits,
    gate: &G,
    watch: &mut W,
) -> Result<Outcome, SearchFault>
    requires own { M.owns machine.now tables.old }
    requires known { All (M.meaning machine.now tables.old).knows initials.now }
    requires initials { map (M.meaning machine.now tables.old).point initials.now ≡ (M.words machine.now).initials }
    requires hears { W.may_hear watch.old limits.none_below }
    requires none { limits.none_within ≡ true → NoneFinishes (M.words machine.now) limits.bounds.nodes }
    ensures owned { OnOk result (M.owns machine.now tables.new) }
    ensures grown { OnOk result (IsGrown (M.meaning machine.now tables.old) (M.meaning machine.now tables.new)) }
    ensures outcome { IfOk result (IsOutcome (M.words machine.now) (measure_of (M.words machine.now) (M.estimate machine.now) limits.measure) limits.bounds.nodes) }
    ensures left_out { IfOk result (λ o. limits.none_within ≡ false → (steps : ℕ) (wide : Option ℕ) → o ≡ Past steps wide
        → AreAllBelow (M.words machine.now) (M.belongs machine.now) (measure_of (M.words machine.now) (M.estimate machine.now) limits.measure)
        (M.meaning machine.now tables.new) (max steps (limits.bounds.nodes + 1)) closed.new.keys) }
    ensures given_up { IfOk result (λ o. o ≡ GivenUp → (limits.most_kept < length closed.new.keys) × (limits.most_kept < 2 ^ 64 - 1)) }
    ensures stopped { IfOk result (λ o. o ≡ Stopped → W.may_stop watch.old ≡ true) }
    ensures becomes { W.becomes watch.old watch.new }
    ensures no_thread { IfErr result (λ e. e ≡ NoThread → 1 < limits.bounds.workers) }
{
    if let Some(initial) = first_done(machine, tables, initials) {
        return Ok(Outcome::Finished(word_of_one(alloc, initial)?));
    }
    let measure = limits.measure;
    let bound = limits.bounds.nodes;
    closed.restart()?;
    offer_initials(rt, alloc, machine, tables, closed, initials, measure, bound)?;
    let mut low = 0;
    for level in 0..bound {
        if limits.none_within && closed.was_cut() {
            return Ok(Outcome::past(bound + 1));
        }
        let high = closed.configurations().len();
        if low == high {
            return Ok(exhausted(closed, bound));
        }
        if high > limits.most_kept {
            return Ok(Outcome::GivenUp);
        }
        if !watch.goes_on(limits.news(high)) {
            return Ok(Outcome::Stopped);
        }
        let room = bound - level - 1;
        let most_left = closed.most_left(room);
        let horizon = Horizon { measure, most_left };
        let advanced = advance(
            rt, alloc, machine, tables, closed, low, horizon, room, limits, gate, watch,
        )?;
        match advanced {
            Advanced::Whole => low = high,
            Advanced::Done(done) => {
                let word = read_word(alloc, closed, done.rank, done.number)?;
                return Ok(Outcome::Finished(word));
            }
            Advanced::Stopped => return Ok(Outcome::Stopped),
        }
    }
    Ok(exhausted(closed, bound))
}

// A bound past another one by `reach`.
fn bound_past(bound: u64, reach: Option<u64>) -> Option<u64> {
    match reach {
        Some(reach) => Some(bound.saturating_add(reach)),
        None => None,
    }
}

// The outcome where nothing is left to expand.
fn exhausted<C: Eq + Hash + Copy + Drop + Send + Sync>(closed: &Closed<C>, bound: u64) -> Outcome
    ensures cut { closed.now.cut.any ≡ true → (least : ℕ) × (wide : Option ℕ) × (result ≡ Past least wide) × (least ≤ bound + closed.now.cut.past) }
    ensures uncut { closed.now.cut.any ≡ false → result ≡ Exhausted }
    ensures ended { result ≡ GivenUp → ⊥ }
    ensures whole { result ≡ Stopped → ⊥ }
{
    if closed.was_cut() {
        Outcome::Past {
            least: bound.saturating_add(closed.least_past()),
            wide: bound_past(bound, closed.reach()),
        }
    } else {
        Outcome::Exhausted
    }
}

/// The least finishing word of at most `bounds.nodes` steps. The answer is the same for every number of workers, size
/// of the pieces, gate and schedule of the threads.
pub fn find_word<M: Machine, G: Gate, R: Threads + Wait + Sync>(
    rt: &R,
    alloc: Global,
    machine: &M,
    bounds: Bounds,
    gate: &G,
) -> Result<Found, SearchFault>
    ensures answer { IfOk result (IsAnswer (M.words machine.now) bounds.nodes) }
    ensures no_thread { IfErr result (λ e. e ≡ NoThread → 1 < bounds.workers) }
{
    let mut tables = machine.new_tables()?;
    let initials = machine.initials(&mut tables)?;
    let limits = Limits {
        bounds,
        measure: Measure::OpenNodes,
        none_within: false,
        most_kept: usize::MAX,
        none_below: 0,
    };
    let mut closed = Closed::new(alloc, bounds.workers as usize)?;
    let outcome = search(
        rt,
        alloc,
        machine,
        &mut tables,
        &initials,
        &mut closed,
        limits,
        gate,
        &mut NoWatch,
    )?;
    match outcome.found() {
        Some(found) => Ok(found),
        // No list is longer than the greatest number, so the search is never given up, nor is it stopped.
        None => unreachable!(),
    }
}
