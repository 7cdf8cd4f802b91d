//! The expansions of networks, put together from the numbers of their drafts.
ghost use Rattle.std.specs.Prelude.{All, IfOk, IfSome, length};
ghost use Rattle.network_table.specs.Networks.{IsWhole, Knows, numbered_at};
ghost use Rattle.network_table.specs.Expansions.{AreDecompositions, AreInstances, AreRemovals, IsExpansion, Live, free_positions};
ghost use Rattle.network_table.specs.Drafts.{AreKnown, AreKnownOf, IsFound};

use crate::draft::{Draft, Job};
use crate::expansion::{Expansion, Removal};
use crate::notes::{Known, Notes, noted_number};
use crate::table::NetworkTable;
use std::alloc::{AllocError, Global};

/// The expansion of a job's network, if it was found.
#[derive(Drop)]
pub(crate) struct Found {
    pub(crate) job: usize,
    pub(crate) expansion: Expansion,
}

impl NetworkTable {
    /// The numbers of the successors by the job's instances, in the place of the node at a position; none unless each
    /// has a number.
    fn noted_decompositions(
        &self,
        alloc: Global,
        job: Job,
        notes: Notes,
        position: usize,
    ) -> Result<Option<Vec<u32>>, AllocError>
        requires noted { AreKnownOf self.now job notes }
        ensures { IfOk result (λ o. IfSome o (λ v.
            AreDecompositions self.now (numbered_at self.now job.entry.network) position job.entry.instances.now v.items)) }
    {
        let mut successors = Vec::with_capacity(alloc, job.instances.len())?;
        for place in 0..job.instances.len() {
            let draft = Draft {
                job: notes.job,
                position,
                instance: Some(place),
            };
            let at = notes.first.wrapping_add(place);
            let Some(network) = noted_number(notes.noted, at, draft) else {
                return Ok(None);
            };
            successors.push(network)?;
        }
        Ok(Some(successors))
    }

    /// A removal for each free node; none unless each successor has a number.
    fn noted_removals(
        &self,
        alloc: Global,
        job: Job,
        notes: Notes,
    ) -> Result<Option<Vec<Removal>>, AllocError>
        requires whole { IsWhole self.now }
        requires known { Knows self.now job.network }
        requires noted { AreKnownOf self.now job notes }
        ensures { IfOk result (λ o. IfSome o (λ v. AreRemovals self.now (numbered_at self.now job.entry.network)
            (free_positions (length (numbered_at self.now job.entry.network).nodes) (numbered_at self.now job.entry.network).order)
            v.items)) }
    {
        let free = self.free_in(alloc, job.network)?;
        let mut removals = Vec::with_capacity(alloc, free.len())?;
        for position in &free {
            let node = self.node_at(job.network, *position);
            let draft = Draft {
                job: notes.job,
                position: *position,
                instance: None,
            };
            let at = notes.first.wrapping_add(removals.len());
            let Some(network) = noted_number(notes.noted, at, draft) else {
                return Ok(None);
            };
            removals.push(Removal { node, network })?;
        }
        Ok(Some(removals))
    }

    /// The expansion of a job's network; none unless each successor has a number.
    fn noted_expansion(
        &self,
        alloc: Global,
        job: Job,
        notes: Notes,
    ) -> Result<Option<Expansion>, AllocError>
        requires whole { IsWhole self.now }
        requires known { Knows self.now job.network }
        requires noted { AreKnownOf self.now job notes }
        ensures { IfOk result (λ o. IfSome o (λ e. (live : Live)
            → AreInstances live self.now job.entry.network job.entry.instances.now → IsExpansion live self.now job.entry.network e)) }
    {
        match self.first_free_position(job.network) {
            Some(position) => {
                let Some(successors) = self.noted_decompositions(alloc, job, notes, position)?
                else {
                    return Ok(None);
                };
                Ok(Some(Expansion::Decomposed(position, successors)))
            }
            None => {
                let Some(removals) = self.noted_removals(alloc, job, notes)? else {
                    return Ok(None);
                };
                Ok(Some(Expansion::Performed(removals)))
            }
        }
    }

    /// The expansions of `len` jobs from a place on, each where all successors have numbers.
    pub(crate) fn assemble_part(
        &self,
        alloc: Global,
        jobs: &[Job],
        starts: &[usize],
        noted: &[Option<Known>],
        from: usize,
        size: usize,
    ) -> Result<Vec<Found>, AllocError>
        requires whole { IsWhole self.now }
        requires known { All (λ j. Knows self.now j.network) jobs.now }
        requires noted { AreKnown self.now jobs.now noted.now }
        ensures { IfOk result (λ v. All (IsFound self.now jobs.now) v.items) }
    {
        let mut found = Vec::new(alloc);
        for number in from..from.saturating_add(size).min(jobs.len()).min(starts.len()) {
            let job = jobs[number];
            let notes = Notes {
                noted,
                job: number,
                first: starts[number],
            };
            let Some(expansion) = self.noted_expansion(alloc, job, notes)? else {
                continue;
            };
            found.push(Found {
                job: number,
                expansion,
            })?;
        }
        Ok(found)
    }
}
