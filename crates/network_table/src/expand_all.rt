//! The expansions of many networks, found by several workers.
ghost use Rattle.std.specs.Prelude.{◌≡◌, ◌<◌, ℕ, All, IfOk, OnOk, IsSome, List};
ghost use Rattle.network_table.specs.Numbered.{IsWithin};
ghost use Rattle.network_table.specs.Networks.{children, expansion_at, IsGrown, IsMore, IsWhole, Knows};
ghost use Rattle.network_table.specs.Expansions.{AreInstances, IsSound, Live};
ghost use Rattle.network_table.specs.declared.draft.Job.{Job as Jobs};
ghost use Rattle.network_table.specs.declared.table.NetworkTable.{NetworkTable as Networks};
ghost use Rattle.network_table.specs.Drafts.{AreExpanded, AreKnown, AreMade, AreNoted, AreRemembered, HoldsFound, HoldsMade, IsFound, IsKnown};

use crate::assemble::Found;
use crate::draft::{Job, Listed, starts_of};
use crate::made::{Made, Noted};
use crate::notes::Known;
use crate::table::NetworkTable;
use std::alloc::{AllocError, Global};
use std::thread::Threads;
use workers::map_indices;

/// Writes the number of a draft's network at the place of the draft.
fn note_at(noted: &mut Vec<Option<Known>>, at: usize, known: Known)
    ensures { (t : Networks) (jobs : List Jobs) → IsKnown t jobs known → AreKnown t jobs noted.old.items → AreKnown t jobs noted.new.items }
{
    if at < noted.len() {
        noted[at] = Some(known);
    }
}

impl NetworkTable {
    /// Writes the numbers of the drafts whose networks the table has already. (The table and the jobs are named for the
    /// contract alone.)
    fn note_found(&self, jobs: &[Job], found: &[Noted], noted: &mut Vec<Option<Known>>)
        requires found { AreNoted self.now jobs.now found.now }
        requires noted { AreKnown self.now jobs.now noted.old.items }
        ensures { AreKnown self.now jobs.now noted.new.items }
    {
        for one in found {
            note_at(noted, one.at, one.known);
        }
    }

    /// Numbers the networks that one worker made, and writes for each draft the number of its network.
    fn note_made<R: Threads + Sync>(
        &mut self,
        rt: &R,
        alloc: Global,
        workers: usize,
        jobs: &[Job],
        made: Made,
        noted: &mut Vec<Option<Known>>,
    ) -> Result<(), AllocError>
        requires whole { IsWhole self.old }
        requires known { All (λ j. Knows self.old j.network) jobs.now }
        requires workers { 0 < workers }
        requires made { AreMade self.old jobs.now made.networks.items made.places.items }
        requires noted { AreKnown self.old jobs.now noted.old.items }
        ensures whole { OnOk result (IsWhole self.new) }
        ensures more { OnOk result (IsMore self.old self.new) }
        ensures noted { OnOk result (AreKnown self.new jobs.now noted.new.items) }
    {
        let Made {
            networks,
            places,
            noted: _,
        } = made;
        let numbers = self.keep_all(rt, alloc, networks, workers)?;
        for index in 0..places.len() {
            let place = places[index];
            let number = numbers[place.network];
            let known = Known {
                draft: place.draft,
                number,
            };
            note_at(noted, place.at, known);
        }
        Ok(())
    }

    /// Numbers the networks that all workers made, and writes for each draft the number of its network.
    fn note_all<R: Threads + Sync>(
        &mut self,
        rt: &R,
        alloc: Global,
        workers: usize,
        jobs: &[Job],
        shards: Vec<Result<Made, AllocError>>,
        count: usize,
    ) -> Result<Vec<Option<Known>>, AllocError>
        requires whole { IsWhole self.old }
        requires known { All (λ j. Knows self.old j.network) jobs.now }
        requires workers { 0 < workers }
        requires made { All (HoldsMade self.old jobs.now) shards.items }
        ensures whole { OnOk result (IsWhole self.new) }
        ensures more { OnOk result (IsMore self.old self.new) }
        ensures noted { IfOk result (λ v. AreKnown self.new jobs.now v.items) }
    {
        let mut noted: Vec<Option<Known>> = vec![in alloc; None; count]?;
        for made in shards {
            let made = made?;
            self.note_found(jobs, &made.noted, &mut noted);
            self.note_made(rt, alloc, workers, jobs, made, &mut noted)?;
        }
        Ok(noted)
    }

    /// Finds the expansions of the jobs' networks, one after another.
    fn expand_each(&mut self, alloc: Global, jobs: &[Job]) -> Result<(), AllocError>
        requires whole { IsWhole self.old }
        requires known { All (λ j. Knows self.old j.network) jobs.now }
        requires within { All (λ j. All (IsWithin (children self.old)) j.instances.now) jobs.now }
        ensures { OnOk result (AreExpanded self.old self.new jobs.now) }
    {
        for job in jobs {
            self.expand_job(alloc, *job)?;
        }
        Ok(())
    }

    /// Puts the expansions of the jobs' networks together from the numbers of their drafts, by at most `workers`
    /// workers.
    fn assemble_all<R: Threads + Sync>(
        &self,
        rt: &R,
        alloc: Global,
        jobs: &[Job],
        drafts: &[Listed],
        noted: &[Option<Known>],
        workers: usize,
    ) -> Result<Vec<Result<Vec<Found>, AllocError>>, AllocError>
        requires whole { IsWhole self.now }
        requires known { All (λ j. Knows self.now j.network) jobs.now }
        requires noted { AreKnown self.now jobs.now noted.now }
        requires workers { 0 < workers }
        ensures { IfOk result (λ v. All (HoldsFound self.now jobs.now) v.items) }
    {
        let starts = starts_of(alloc, drafts, jobs.len())?;
        let starts = starts.as_slice();
        let size = jobs.len().div_ceil(workers);
        let assemble = |part: usize| -> Result<Vec<Found>, AllocError>
            requires { IsWhole self.now × All (λ j. Knows self.now j.network) jobs.now × AreKnown self.now jobs.now noted.now }
            ensures { HoldsFound self.entry.now jobs.entry.now result }
        { self.assemble_part(alloc, jobs, starts, noted, part.saturating_mul(size), size) };
        map_indices(rt, alloc, workers, &assemble)
    }

    /// Stores the expansion that was found for a job's network, unless it has one.
    fn remember_one(&mut self, jobs: &[Job], found: Found)
        requires whole { IsWhole self.old }
        requires known { All (λ j. Knows self.old j.network) jobs.now }
        requires found { IsFound self.old jobs.now found }
        ensures { AreRemembered self.old self.new jobs.now }
    {
        let Found { job, expansion } = found;
        let network = jobs[job].network;
        if self.expansion(network).is_some() {
            return;
        }
        self.remember(network, expansion);
    }

    /// Stores the expansions that one worker found, each unless the network has one.
    fn remember_found(&mut self, jobs: &[Job], found: Vec<Found>)
        requires whole { IsWhole self.old }
        requires known { All (λ j. Knows self.old j.network) jobs.now }
        requires found { All (IsFound self.old jobs.now) found.items }
        ensures { AreRemembered self.old self.new jobs.now }
    {
        for one in found {
            self.remember_one(jobs, one);
        }
    }

    /// Stores the expansions that all workers found, each unless the network has one.
    fn remember_all(
        &mut self,
        jobs: &[Job],
        all: Vec<Result<Vec<Found>, AllocError>>,
    ) -> Result<(), AllocError>
        requires whole { IsWhole self.old }
        requires known { All (λ j. Knows self.old j.network) jobs.now }
        requires found { All (HoldsFound self.old jobs.now) all.items }
        ensures { OnOk result (AreRemembered self.old self.new jobs.now) }
    {
        for found in all {
            self.remember_found(jobs, found?);
        }
        Ok(())
    }

    /// Lists the drafts of the jobs' networks, by at most `workers` workers.
    fn list_all<R: Threads + Sync>(
        &self,
        rt: &R,
        alloc: Global,
        jobs: &[Job],
        workers: usize,
    ) -> Result<Vec<Listed>, AllocError>
        requires whole { IsWhole self.now }
        requires known { All (λ j. Knows self.now j.network) jobs.now }
        requires workers { 0 < workers }
    {
        let size = jobs.len().div_ceil(workers);
        let list = |part: usize| -> Result<Vec<Listed>, AllocError>
            requires { IsWhole self.now × All (λ j. Knows self.now j.network) jobs.now }
        { self.list_jobs(alloc, jobs, part.saturating_mul(size), size) };
        let parts = map_indices(rt, alloc, workers, &list)?;
        let mut drafts = Vec::new(alloc);
        for part in parts {
            let mut more = part?;
            drafts.append(&mut more)?;
        }
        Ok(drafts)
    }

    /// Makes the networks of drafts, by at most `workers` workers.
    fn make_all<R: Threads + Sync>(
        &self,
        rt: &R,
        alloc: Global,
        jobs: &[Job],
        drafts: &[Listed],
        workers: usize,
    ) -> Result<Vec<Result<Made, AllocError>>, AllocError>
        requires whole { IsWhole self.now }
        requires known { All (λ j. Knows self.now j.network) jobs.now }
        requires within { All (λ j. All (IsWithin (children self.now)) j.instances.now) jobs.now }
        requires workers { 0 < workers }
        ensures { IfOk result (λ v. All (HoldsMade self.now jobs.now) v.items) }
    {
        let make = |shard: usize| -> Result<Made, AllocError>
            requires { IsWhole self.now × All (λ j. Knows self.now j.network) jobs.now
                × All (λ j. All (IsWithin (children self.now)) j.instances.now) jobs.now × 0 < workers }
            ensures { HoldsMade self.entry.now jobs.entry.now result }
        { self.make_shard(alloc, jobs, drafts, shard, workers) };
        map_indices(rt, alloc, workers, &make)
    }

    /// Finds the expansions of the jobs' networks, by at most `workers` workers.
    pub fn expand_all<R: Threads + Sync>(
        &mut self,
        rt: &R,
        alloc: Global,
        jobs: &[Job],
        workers: usize,
    ) -> Result<(), AllocError>
        requires whole { IsWhole self.old }
        requires known { All (λ j. Knows self.old j.network) jobs.now }
        requires within { All (λ j. All (IsWithin (children self.old)) j.instances.now) jobs.now }
        requires workers { 0 < workers }
        ensures whole { OnOk result (IsWhole self.new) }
        ensures grown { OnOk result (IsGrown self.old self.new) }
        ensures ready { OnOk result (All (λ j. IsSome (expansion_at self.new j.network)) jobs.now) }
        ensures sound { OnOk result ((live : Live)
            → All (λ j. AreInstances live self.old j.network j.instances.now) jobs.now
            → IsSound live self.old → IsSound live self.new) }
        // No other expansions are found.
        ensures others { OnOk result ((n : ℕ) → All (λ j. n ≡ j.network → ⊥) jobs.now
            → expansion_at self.new n ≡ expansion_at self.old n) }
        // No node is numbered here.
        ensures children { OnOk result (self.new.children ≡ self.old.children) }
    {
        if workers == 1 {
            // One worker makes a network where it is numbered, so drafts would spare nothing.
            self.expand_each(alloc, jobs)?;
            return Ok(());
        }
        let drafts = self.list_all(rt, alloc, jobs, workers)?;
        let shards = self.make_all(rt, alloc, jobs, drafts.as_slice(), workers)?;
        let noted = self.note_all(rt, alloc, workers, jobs, shards, drafts.len())?;
        let all = self.assemble_all(
            rt,
            alloc,
            jobs,
            drafts.as_slice(),
            noted.as_slice(),
            workers,
        )?;
        self.remember_all(jobs, all)?;
        // Expansions with a draft that has no number are found one by one; usually there are none.
        self.expand_each(alloc, jobs)?;
        Ok(())
    }
}
