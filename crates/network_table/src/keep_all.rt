//! Numbers many networks at once, by several workers.
ghost use Rattle.std.specs.Prelude.{◌≡◌, ◌<◌, ◌≤◌, ◌+◌, ◌^◌, ◌++◌, ◌∷◌, [], ℕ, All, IfOk, OnOk, None, drop, get_or, length, map};
ghost use Rattle.network_table.specs.Children.{AreWhole};
ghost use Rattle.network_table.specs.Numbered.{IsWithin, nothing};
ghost use Rattle.network_table.specs.Entries.{IsAlone, IsKeptWhole, networks_alone};
ghost use Rattle.network_table.specs.Networks.{children, expansion_at, IsMore, IsWhole, numbered_at};
ghost use Rattle.network_table.specs.Measures.{AreMeasurable, measure_of};
ghost use Rattle.network_table.specs.Drafts.{AreNumbersOf};

use crate::network_set::Entry;
use crate::table::{NetworkTable, sum_bounds};
use std::alloc::{AllocError, Global};
use std::thread::Threads;
use workers::{for_each_mut, workers_for};

/// The least share of a worker, in networks, where several are started: to start one for fewer takes longer.
const NETWORKS_A_WORKER: usize = 500;

/// How many nodes a network has, and the sum of the bounds of these.
#[derive(Clone, Copy, Drop)]
pub(crate) struct Measure {
    pub(crate) open_len: u64,
    pub(crate) bound: u64,
}

/// Places as numbers, if words of 32 bits hold them. At most 2^32 networks have numbers, also where they are added one
/// by one: past them a search answers `OutOfMemory` although no memory was refused.
fn numbers_of(alloc: Global, places: &[usize]) -> Result<Vec<u32>, AllocError>
    ensures { IfOk result (λ v. v.items ≡ places.now) }
{
    let mut numbers = Vec::with_capacity(alloc, places.len())?;
    for place in places {
        let Ok(number) = u32::try_from(*place) else {
            return Err(AllocError);
        };
        numbers.push(number)?;
    }
    Ok(numbers)
}

impl NetworkTable {
    /// The count of nodes of the network at a place, and the sum of their bounds, where the network is stored whole.
    fn measure(&self, place: usize) -> Measure
        requires placed { place < length self.now.networks }
        requires kept { IsKeptWhole (numbered_at self.now place) }
        requires whole { AreWhole self.now.children }
        requires within { IsWithin (children self.now) (numbered_at self.now place) }
        ensures { result ≡ measure_of self.now.children (numbered_at self.now place) }
    {
        let Entry::Whole(network) = self.networks.entry(place) else {
            unreachable!()
        };
        Measure {
            open_len: network.nodes().len() as u64,
            bound: sum_bounds(&self.children, network),
        }
    }

    /// The measure of the network `at` places after the first one.
    fn measure_after(&self, first: usize, at: usize) -> Measure
        requires measurable { AreMeasurable self.now first }
        requires placed { at < length (drop first self.now.networks) }
        requires fits { first + at < 2 ^ 64 }
        ensures { result ≡ measure_of self.now.children (get_or (drop first self.now.networks) at nothing) }
    {
        self.measure(first + at)
    }

    /// Writes the measure of each network from a place on into slots, by at most `workers` workers.
    fn measure_each<R: Threads + Sync>(
        &self,
        rt: &R,
        workers: usize,
        first: usize,
        slots: &mut [Measure],
    )
        requires workers { 0 < workers }
        requires measurable { AreMeasurable self.now first }
        requires many { length slots.old ≡ length (drop first self.now.networks) }
        requires fits { first + length slots.old < 2 ^ 64 }
        ensures { slots.new ≡ map (measure_of self.now.children) (drop first self.now.networks) }
    {
        let measure = |at: usize, slot: &mut Measure|
            requires { AreMeasurable self.now first × (at < length (drop first self.now.networks))
                × (first + at < 2 ^ 64) }
            ensures { slot.new
                ≡ measure_of self.entry.now.children (get_or (drop first self.entry.now.networks) at nothing) }
        {
            *slot = self.measure_after(first, at);
        };
        for_each_mut(rt, slots, workers, &measure);
    }

    /// The measure of each network from a place on, by at most `workers` workers.
    fn measures<R: Threads + Sync>(
        &self,
        rt: &R,
        alloc: Global,
        workers: usize,
        first: usize,
    ) -> Result<Vec<Measure>, AllocError>
        requires workers { 0 < workers }
        requires first { first ≤ length self.now.networks }
        requires measurable { AreMeasurable self.now first }
        ensures { IfOk result (λ v. v.items ≡ map (measure_of self.now.children) (drop first self.now.networks)) }
    {
        let none = Measure {
            open_len: 0,
            bound: 0,
        };
        let mut measures = vec![in alloc; none; self.networks.len() - first]?;
        self.measure_each(rt, workers, first, measures.as_mut_slice());
        Ok(measures)
    }

    /// Appends the measure of the next network.
    fn put_measure(&mut self, one: Measure) -> Result<(), AllocError>
        ensures children { self.new.children ≡ self.old.children }
        ensures networks { self.new.networks ≡ self.old.networks }
        ensures open_lens { OnOk result (self.new.open_lens.items ≡ self.old.open_lens.items ++ one.open_len ∷ []) }
        ensures bounds { OnOk result (self.new.bounds.items ≡ self.old.bounds.items ++ one.bound ∷ []) }
        ensures expansions { OnOk result (self.new.expansions.items ≡ self.old.expansions.items ++ None ∷ []) }
    {
        self.open_lens.push(one.open_len)?;
        self.bounds.push(one.bound)?;
        self.expansions.push(None)?;
        Ok(())
    }

    /// Appends the measures of the next networks.
    fn put_measures(&mut self, all: &[Measure]) -> Result<(), AllocError>
        ensures children { self.new.children ≡ self.old.children }
        ensures networks { self.new.networks ≡ self.old.networks }
        ensures open_lens { OnOk result (self.new.open_lens.items
            ≡ self.old.open_lens.items ++ map (λ m. m.open_len) all.now) }
        ensures bounds { OnOk result (self.new.bounds.items ≡ self.old.bounds.items ++ map (λ m. m.bound) all.now) }
        ensures many { OnOk result (length self.new.expansions.items
            ≡ length self.old.expansions.items + length all.now) }
        ensures expansions { OnOk result ((n : ℕ) → expansion_at self.new n ≡ expansion_at self.old n) }
    {
        for one in all {
            self.put_measure(*one)?;
        }
        Ok(())
    }

    /// The numbers of networks that are stored whole, new ones for those that have none, by at most `workers` workers.
    pub(crate) fn keep_all<R: Threads + Sync>(
        &mut self,
        rt: &R,
        alloc: Global,
        networks: Vec<Entry>,
        workers: usize,
    ) -> Result<Vec<u32>, AllocError>
        requires workers { 0 < workers }
        requires whole { IsWhole self.old }
        requires alone { All IsAlone networks.items }
        requires within { All (IsWithin (children self.old)) (networks_alone networks.items) }
        ensures whole { OnOk result (IsWhole self.new) }
        ensures more { OnOk result (IsMore self.old self.new) }
        ensures each { IfOk result (λ v. AreNumbersOf self.new v.items (networks_alone networks.items)) }
    {
        let workers = workers_for(networks.len(), NETWORKS_A_WORKER, workers);
        let first = self.networks.len();
        let places = self.networks.insert_all(alloc, networks)?;
        let measures = self.measures(rt, alloc, workers, first)?;
        self.put_measures(measures.as_slice())?;
        let numbers = numbers_of(alloc, places.as_slice())?;
        Ok(numbers)
    }
}
