//! The search with growing bounds: breadth-first iterative-deepening A* (R. Zhou and E. Hansen, Breadth-first heuristic
//! search, Artificial Intelligence 170, 2006), whose bound grows as in R. Korf's IDA* (1985).
ghost use Rattle.std.specs.Prelude.{◌≡◌, ℕ, ◌-◌, ◌^◌, ◌<◌, ◌≤◌, true, All, map, IfOk, IfErr, IfSome, IfNone, OnOk};
ghost use Rattle.word_machine.specs.Answer.{IsAnswer, IsEnding, NoneFinishes, NoneFinishesBefore};
ghost use Rattle.word_machine.specs.Dive.{AreAllBelow};
ghost use Rattle.word_machine.specs.Ranks.{IsOwned};
ghost use Rattle.word_machine.specs.declared.found.Ending.TheVariants.{GivenUp, Stopped};
ghost use Rattle.word_machine.specs.declared.found.SearchFault.TheVariants.{NoThread};
ghost use Rattle.word_machine.specs.declared.measure.Measure.TheVariants.{OpenNodes};

use crate::bounds::Bounds;
use crate::closed::Closed;
use crate::dive::dive;
use crate::found::{Ending, Found, Outcome, SearchFault};
use crate::growth::Growth;
use crate::machine::Machine;
use crate::measure::{Limits, Measure};
use crate::search::search;
use crate::watch::{NoWatch, Watch};
use crate::work::Gate;
use std::alloc::Global;
use std::sync::Wait;
use std::thread::Threads;

/// The limits of the searches that `find_word_watched` makes.
#[derive(Clone, Copy, Debug)]
pub struct Effort {
    /// A search whose closed list has more configurations is given up.
    pub most_kept: usize,
    /// The bound of the first search is at least this. With 0 it is the least number of steps that a word may have.
    /// With the whole bound no other search by the machine's own bound follows.
    pub first_bound: u64,
}

// The least of the lower bounds on the initial configurations.
fn least_bound<M: Machine>(machine: &M, tables: &M::Tables, initials: &[M::Configuration]) -> u64
    requires own { M.owns machine.now tables.now }
    requires known { All (IsOwned (M.meaning machine.now tables.now) (M.belongs machine.now)) initials.now }
    ensures { All (λ c. result ≤ M.estimate machine.now ((M.meaning machine.now tables.now).point c)) initials.now }
{
    let mut least = u64::MAX;
    for initial in initials {
        least = least.min(machine.lower_bound(tables, *initial));
    }
    least
}

// The ending where no word finishes within the bound, nor in fewer steps than `least`: the answer `none` if some
// configuration can't finish within the bound by its open nodes alone (the bound is met), and `unsolvable` else. A dive
// among what the last search pruned looks for such a configuration; where it finds none, a search by the open nodes
// decides. Both use the tables of the searches before, in which most networks are numbered and expanded.
fn none_or_unsolvable<M: Machine, G: Gate, W: Watch, R: Threads + Wait + Sync>(
    rt: &R,
    alloc: Global,
    machine: &M,
    tables: &mut M::Tables,
    initials: &[M::Configuration],
    closed: &mut Closed<M::Configuration>,
    least: u64,
    limits: Limits,
    gate: &G,
    watch: &mut W,
) -> Result<Ending, SearchFault>
    requires own { M.owns machine.now tables.old }
    requires known { All (M.meaning machine.now tables.old).knows initials.now }
    requires initials { map (M.meaning machine.now tables.old).point initials.now ≡ (M.words machine.now).initials }
    requires below { AreAllBelow (M.words machine.now) (M.belongs machine.now) (M.estimate machine.now)
        (M.meaning machine.now tables.old) least closed.old.keys }
    requires none { NoneFinishes (M.words machine.now) limits.bounds.nodes }
    requires before { NoneFinishesBefore (M.words machine.now) limits.none_below }
    requires measure { limits.measure ≡ OpenNodes }
    requires hears { W.may_hear watch.old limits.none_below }
    ensures owned { OnOk result (M.owns machine.now tables.new) }
    ensures ending { IfOk result (IsEnding (M.words machine.now) limits.bounds.nodes) }
    ensures given_up { IfOk result (λ e. (n : ℕ) → e ≡ GivenUp n → limits.most_kept < 2 ^ 64 - 1) }
    ensures stopped { IfOk result (λ e. (n : ℕ) → e ≡ Stopped n → W.may_stop watch.old ≡ true) }
    ensures becomes { W.becomes watch.old watch.new }
    ensures no_thread { IfErr result (λ e. e ≡ NoThread → 1 < limits.bounds.workers) }
{
    if dive(
        rt, alloc, machine, tables, initials, closed, least, limits, watch,
    )? {
        return Ok(Ending::Answer(Found::None));
    }
    let initials = machine.initials(tables)?;
    let outcome = search(
        rt, alloc, machine, tables, &initials, closed, limits, gate, watch,
    )?;
    Ok(outcome.ending(limits.none_below))
}

// The ending of searches within growing bounds, from those of `growth` on; below its least bound no word finishes, and
// the closed list holds the configurations that a search below that bound stored.
fn search_growing<M: Machine, G: Gate, W: Watch, R: Threads + Wait + Sync>(
    rt: &R,
    alloc: Global,
    machine: &M,
    tables: &mut M::Tables,
    initials: &[M::Configuration],
    closed: &mut Closed<M::Configuration>,
    mut growth: Growth,
    bounds: Bounds,
    effort: Effort,
    known: u64,
    gate: &G,
    watch: &mut W,
) -> Result<Ending, SearchFault>
    requires own { M.owns machine.now tables.old }
    requires starts { All (M.meaning machine.now tables.old).knows initials.now }
    requires initials { map (M.meaning machine.now tables.old).point initials.now ≡ (M.words machine.now).initials }
    requires below { AreAllBelow (M.words machine.now) (M.belongs machine.now) (M.estimate machine.now)
        (M.meaning machine.now tables.old) growth.least closed.old.keys }
    requires none { NoneFinishesBefore (M.words machine.now) growth.least }
    requires known { NoneFinishesBefore (M.words machine.now) known }
    requires hears { (n : ℕ) → NoneFinishesBefore (M.words machine.now) n → W.may_hear watch.old n }
    ensures owned { OnOk result (M.owns machine.now tables.new) }
    ensures ending { IfOk result (IsEnding (M.words machine.now) bounds.nodes) }
    ensures given_up { IfOk result (λ e. (n : ℕ) → e ≡ GivenUp n → effort.most_kept < 2 ^ 64 - 1) }
    ensures stopped { IfOk result (λ e. (n : ℕ) → e ≡ Stopped n → W.may_stop watch.old ≡ true) }
    ensures becomes { W.becomes watch.old watch.new }
    ensures no_thread { IfErr result (λ e. e ≡ NoThread → 1 < bounds.workers) }
{
    while growth.least <= bounds.nodes {
        let within = bounds.within(growth.nodes.min(bounds.nodes));
        let none_below = growth.least.max(known);
        let limits = Limits {
            bounds: within,
            measure: Measure::LowerBound,
            none_within: false,
            most_kept: effort.most_kept,
            none_below,
        };
        let outcome = search(
            rt, alloc, machine, tables, initials, closed, limits, gate, watch,
        )?;
        match outcome {
            Outcome::Finished(word) => return Ok(Ending::Answer(Found::Word(word))),
            Outcome::Exhausted => return Ok(Ending::Answer(Found::Unsolvable)),
            Outcome::GivenUp => return Ok(Ending::GivenUp { none_below }),
            Outcome::Stopped => return Ok(Ending::Stopped { none_below }),
            Outcome::Past { least, wide } => growth = growth.after(within.nodes, least, wide),
        }
    }
    let least = growth.least;
    let limits = Limits {
        bounds,
        measure: Measure::OpenNodes,
        none_within: true,
        most_kept: effort.most_kept,
        none_below: least.max(known),
    };
    none_or_unsolvable(
        rt, alloc, machine, tables, initials, closed, least, limits, gate, watch,
    )
}

/// The answer of `find_word`, over the caller's tables, which hold all that was numbered afterwards. The searches use
/// the machine's own lower bound, within bounds that grow from that of the initial configurations, or from
/// `effort.first_bound`: each next bound admits about as many more configurations, or, where few were pruned near the
/// bound, grows by increasing steps. Only where these find no word, the open nodes decide between `none` and
/// `unsolvable`. It is given up once the closed list of a search has more than `effort.most_kept` configurations, and
/// never where that is the greatest number. The watch may stop it, and is given the number of steps below which no word
/// is known to finish, which is at least `known`.
pub fn find_word_watched<M: Machine, G: Gate, W: Watch, R: Threads + Wait + Sync>(
    rt: &R,
    alloc: Global,
    machine: &M,
    tables: &mut M::Tables,
    bounds: Bounds,
    effort: Effort,
    known: u64,
    gate: &G,
    watch: &mut W,
) -> Result<Ending, SearchFault>
    requires own { M.owns machine.now tables.old }
    requires known { NoneFinishesBefore (M.words machine.now) known }
    requires hears { (n : ℕ) → NoneFinishesBefore (M.words machine.now) n → W.may_hear watch.old n }
    ensures owned { OnOk result (M.owns machine.now tables.new) }
    ensures ending { IfOk result (IsEnding (M.words machine.now) bounds.nodes) }
    ensures given_up { IfOk result (λ e. (n : ℕ) → e ≡ GivenUp n → effort.most_kept < 2 ^ 64 - 1) }
    ensures stopped { IfOk result (λ e. (n : ℕ) → e ≡ Stopped n → W.may_stop watch.old ≡ true) }
    ensures becomes { W.becomes watch.old watch.new }
    ensures no_thread { IfErr result (λ e. e ≡ NoThread → 1 < bounds.workers) }
{
    let starts = machine.initials(tables)?;
    let mut kept = Closed::new(alloc, bounds.workers as usize)?;
    let growth = Growth::from(least_bound(machine, tables, &starts), effort.first_bound);
    search_growing(
        rt, alloc, machine, tables, &starts, &mut kept, growth, bounds, effort, known, gate, watch,
    )
}

/// The answer of `find_word`, by `find_word_watched` with no watch. None where it is given up, once the closed list of a
/// search has more than `effort.most_kept` configurations; never where that is the greatest number.
pub fn find_word_in<M: Machine, G: Gate, R: Threads + Wait + Sync>(
    rt: &R,
    alloc: Global,
    machine: &M,
    tables: &mut M::Tables,
    bounds: Bounds,
    effort: Effort,
    gate: &G,
) -> Result<Option<Found>, SearchFault>
    requires own { M.owns machine.now tables.old }
    ensures owned { OnOk result (M.owns machine.now tables.new) }
    ensures answer { IfOk result (λ o. IfSome o (IsAnswer (M.words machine.now) bounds.nodes)) }
    ensures given_up { IfOk result (λ o. IfNone o (effort.most_kept < 2 ^ 64 - 1)) }
    ensures no_thread { IfErr result (λ e. e ≡ NoThread → 1 < bounds.workers) }
{
    let ending = find_word_watched(
        rt,
        alloc,
        machine,
        tables,
        bounds,
        effort,
        0,
        gate,
        &mut NoWatch,
    )?;
    match ending {
        Ending::Answer(found) => Ok(Some(found)),
        Ending::GivenUp { .. } => Ok(None),
        // That watch stops nothing.
        Ending::Stopped { .. } => unreachable!(),
    }
}

/// The answer of `find_word`, found by `find_word_in` in tables of its own.
pub fn find_word_deepening<M: Machine, G: Gate, R: Threads + Wait + Sync>(
    rt: &R,
    alloc: Global,
    machine: &M,
    bounds: Bounds,
    gate: &G,
) -> Result<Found, SearchFault>
    ensures answer { IfOk result (IsAnswer (M.words machine.now) bounds.nodes) }
    ensures no_thread { IfErr result (λ e. e ≡ NoThread → 1 < bounds.workers) }
{
    let mut tables = machine.new_tables()?;
    let effort = Effort {
        most_kept: usize::MAX,
        first_bound: 0,
    };
    match find_word_in(rt, alloc, machine, &mut tables, bounds, effort, gate)? {
        Some(found) => Ok(found),
        // No list is longer than the greatest number, so the search is never given up.
        None => unreachable!(),
    }
}
