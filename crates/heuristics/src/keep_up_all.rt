//! What many networks need, found by several workers.
ghost use Rattle.std.specs.Prelude.{◌≡◌, ◌<◌, ◌≤◌, All, length, IfOk, OnOk};
ghost use Rattle.heuristics.specs.Prospects.{outlook_by};
ghost use Rattle.network_table.specs.Networks.{children, IsWhole};
ghost use Rattle.state_table.specs.Table.{IsLater};
ghost use Rattle.heuristics.specs.StoredNeeds.{AreAllKept, AreKept};
ghost use Rattle.heuristics.specs.ListedNeeds.{AreFollowed, AreNoted};
ghost use Rattle.heuristics.specs.FoundNeeds.{HoldsFound, IsFound};

use crate::chained::Chained;
use crate::needs_table::NeedsTable;
use crate::prospects::Prospects;
use network_table::{Entry, NetworkTable};
use state_table::{AtomTable, CompiledLiterals};
use std::alloc::{AllocError, Global};
use std::thread::Threads;
use workers::map_indices;

/// What the network of a number needs, which is no chain.
#[derive(Drop)]
pub(crate) struct Found {
    number: u32,
    needed: Option<CompiledLiterals>,
}

impl NeedsTable {
    /// Adds the needs of the network of a number, unless it is a chain, whose needs are derived from those of a shorter
    /// one.
    fn find_one(
        &self,
        alloc: Global,
        prospects: &Prospects,
        networks: &NetworkTable,
        number: usize,
        found: &mut Vec<Found>,
    ) -> Result<(), AllocError>
        requires whole { IsWhole networks.now }
        requires known { number < length networks.now.networks }
        requires all { length (children networks.now) ≤ length self.now.nodes.items }
        requires found { All (IsFound prospects.now self.now networks.now) found.old.items }
        ensures { OnOk result (All (IsFound prospects.now self.now networks.now) found.new.items) }
    {
        // A number past 32 bits belongs to no network, so nothing is added for it.
        let Ok(number) = u32::try_from(number) else {
            return Ok(());
        };
        let Entry::Whole(network) = networks.entry(number) else {
            return Ok(());
        };
        if network.nodes().is_empty() {
            return Ok(());
        }
        let needed = self.needed_by(alloc, prospects, network)?;
        found.push(Found { number, needed })?;
        Ok(())
    }

    /// The needs of at most `size` networks from a number on, without those of chains.
    fn find(
        &self,
        alloc: Global,
        prospects: &Prospects,
        networks: &NetworkTable,
        from: usize,
        size: usize,
    ) -> Result<Vec<Found>, AllocError>
        requires whole { IsWhole networks.now }
        requires all { length (children networks.now) ≤ length self.now.nodes.items }
        ensures { HoldsFound prospects.now self.now networks.now result }
    {
        let count = networks.len();
        let mut found = Vec::new(alloc);
        for number in from..from.saturating_add(size).min(count) {
            self.find_one(alloc, prospects, networks, number, &mut found)?;
        }
        Ok(found)
    }

    /// The needs of all networks that have none stored yet, without those of chains, by `workers` workers.
    fn find_all<R: Threads + Sync>(
        &self,
        rt: &R,
        alloc: Global,
        prospects: &Prospects,
        networks: &NetworkTable,
        workers: usize,
    ) -> Result<Vec<Result<Vec<Found>, AllocError>>, AllocError>
        requires whole { IsWhole networks.now }
        requires all { length (children networks.now) ≤ length self.now.nodes.items }
        requires workers { 0 < workers }
        ensures { IfOk result (λ v. All (HoldsFound prospects.now self.now networks.now) v.items) }
    {
        let known = self.needs.len();
        let size = networks.len().saturating_sub(known).div_ceil(workers);
        let find = |part: usize| -> Result<Vec<Found>, AllocError>
            requires { IsWhole networks.now × length (children networks.now) ≤ length self.now.nodes.items }
            ensures { HoldsFound prospects.entry.now self.entry.now networks.entry.now result }
        {
            let from = known.saturating_add(part.saturating_mul(size));
            self.find(alloc, prospects, networks, from, size)
        };
        map_indices(rt, alloc, workers, &find)
    }

    /// Stores the needs that were found of a network, after those of all networks before it. They are dropped if the
    /// network's needs are stored already.
    fn put_down(
        &mut self,
        alloc: Global,
        prospects: &Prospects,
        networks: &NetworkTable,
        found: Found,
    ) -> Result<(), AllocError>
        requires whole { IsWhole networks.now }
        requires all { length (children networks.now) ≤ length self.old.nodes.items }
        requires found { IsFound prospects.now self.old networks.now found }
        ensures { OnOk result (AreFollowed prospects.now networks.now self.old self.new) }
    {
        let Found { number, needed } = found;
        self.keep_until(alloc, prospects, networks, number as usize)?;
        if self.needs.len() != number as usize {
            return Ok(());
        }
        let ids = Vec::new(alloc);
        self.keep_next(Chained { needed, ids })?;
        Ok(())
    }

    /// Stores the needs that a worker found.
    #[tactic(auto, using(crate::proofs::FoundNeeds::followed_itself))]
    fn put_part(
        &mut self,
        alloc: Global,
        prospects: &Prospects,
        networks: &NetworkTable,
        found: Vec<Found>,
    ) -> Result<(), AllocError>
        requires whole { IsWhole networks.now }
        requires all { length (children networks.now) ≤ length self.old.nodes.items }
        requires found { All (IsFound prospects.now self.old networks.now) found.items }
        ensures { OnOk result (AreFollowed prospects.now networks.now self.old self.new) }
    {
        for one in found {
            self.put_down(alloc, prospects, networks, one)?;
        }
        Ok(())
    }

    /// Stores the needs of each network of the table that has none yet, by `workers` workers, once all nodes and the
    /// goal are compiled.
    #[tactic(auto, using(crate::proofs::FoundNeeds::followed_itself))]
    fn keep_networks_all<R: Threads + Sync>(
        &mut self,
        rt: &R,
        alloc: Global,
        prospects: &Prospects,
        networks: &NetworkTable,
        workers: usize,
    ) -> Result<(), AllocError>
        requires whole { IsWhole networks.now }
        requires all { length (children networks.now) ≤ length self.old.nodes.items }
        requires workers { 0 < workers }
        ensures followed { OnOk result (AreFollowed prospects.now networks.now self.old self.new) }
        ensures count { OnOk result (length networks.now.networks ≤ length self.new.needs.items) }
    {
        let parts = self.find_all(rt, alloc, prospects, networks, workers)?;
        for part in parts {
            self.put_part(alloc, prospects, networks, part?)?;
        }
        self.keep_until(alloc, prospects, networks, networks.len())?;
        Ok(())
    }

    /// Stores the needs of each network of the table that has none yet, by `workers` workers.
    pub fn keep_up_all<R: Threads + Sync>(
        &mut self,
        rt: &R,
        alloc: Global,
        prospects: &Prospects,
        atoms: &mut AtomTable,
        networks: &NetworkTable,
        workers: usize,
    ) -> Result<(), AllocError>
        requires whole { IsWhole networks.now }
        requires kept { AreKept (outlook_by prospects.now) atoms.old networks.now self.old }
        requires noted { AreNoted prospects.now atoms.old networks.now self.old }
        requires workers { 0 < workers }
        ensures later { OnOk result (IsLater atoms.old atoms.new) }
        ensures kept { OnOk result (AreAllKept (outlook_by prospects.now) atoms.new networks.now self.new) }
        ensures noted { OnOk result (AreNoted prospects.now atoms.new networks.now self.new) }
        ensures goal { OnOk result (self.new.goal ≡ self.old.goal) }
    {
        self.keep_goal(alloc, &prospects.needs, atoms)?;
        self.keep_nodes(alloc, prospects, atoms, networks)?;
        let _count = atoms.len();
        self.keep_networks_all(rt, alloc, prospects, networks, workers)?;
        Ok(())
    }
}
