//! The expansion of one network, found once.
ghost use Rattle.std.specs.Prelude.{◌≡◌, ◌<◌, ℕ, List, All, IfOk, IfSome, OnOk, IsSome, length, get_or};
ghost use Rattle.std.specs.Option.{option_map};
ghost use Rattle.htn_model.specs.Problem.{GroundTask, task};
ghost use Rattle.htn_model.specs.Choice.{child_of};
ghost use Rattle.network_table.specs.Numbered.{IsWithin, network_of, replaced_numbered};
ghost use Rattle.network_table.specs.Networks.{children, expansion_at, IsGrown, IsMore, IsNumberOf, IsWhole, Knows, network_at, numbered_at};
ghost use Rattle.network_table.specs.Expansions.{AreDecompositions, AreInstances, AreRemovals, IsExpansion, IsSound, Live, first_free, free_positions};

use crate::draft::Job;
use crate::expansion::{Expansion, Removal};
use crate::network::Network;
use crate::network_set::Entry;
use crate::table::NetworkTable;
use htn_ground::{Child, GroundTask};
use htn_order::Order;
use std::alloc::{AllocError, Global};

impl NetworkTable {
    /// The first free compound task of a network, with its position.
    pub fn first_free_task(&self, number: u32) -> Option<(usize, &GroundTask)>
        requires whole { IsWhole self.now }
        requires known { Knows self.now number }
        ensures position { option_map (λ p. p.0) result ≡ first_free (network_at self.now number) }
        ensures goal { IfSome result (λ p. child_of (network_at self.now number).children p.0 ≡ task p.1.now) }
    {
        match self.entry(number) {
            Entry::Chain(link) => match self.child(link.first) {
                Child::Task(goal) => Some((0, goal)),
                _ => None,
            },
            Entry::Whole(network) => self.first_free_task_of(network),
        }
    }

    /// The first free compound task of a network, with its position.
    fn first_free_task_of(&self, network: &Network) -> Option<(usize, &GroundTask)>
        requires { IsWithin (children self.now) network.now }
        ensures position { option_map (λ p. p.0) result ≡ first_free (network_of (children self.now) network.now) }
        ensures goal { IfSome result (λ p. child_of (network_of (children self.now) network.now).children p.0 ≡ task p.1.now) }
    {
        let nodes = network.nodes();
        let order = network.order();
        let mut from = 0;
        while let Some(position) = order.next_free(from) {
            if let Child::Task(goal) = self.child(nodes[position]) {
                return Some((position, goal));
            }
            from = position + 1;
        }
        None
    }

    /// The positions of the free nodes of a network, ascending.
    pub(crate) fn free_in(&self, alloc: Global, number: u32) -> Result<Vec<usize>, AllocError>
        requires { Knows self.now number }
        ensures { IfOk result (λ v. v.items ≡ free_positions (length (numbered_at self.now number).nodes) (numbered_at self.now number).order) }
    {
        match self.entry(number) {
            Entry::Chain(_) => Ok(Vec::from_array(alloc, [0])?),
            Entry::Whole(network) => network.order().free_positions(alloc),
        }
    }

    /// The number of the node at a position of a network.
    pub fn node_at(&self, number: u32, position: usize) -> u32
        requires known { Knows self.now number }
        requires placed { position < length (numbered_at self.now number).nodes }
        ensures { result ≡ get_or (numbered_at self.now number).nodes position 0 }
    {
        let mut at = number;
        let mut left = position;
        while let Entry::Chain(link) = self.entry(at) {
            if left == 0 {
                return link.first;
            }
            at = link.rest;
            left -= 1;
        }
        let Entry::Whole(network) = self.entry(at) else {
            unreachable!()
        };
        network.nodes()[left]
    }

    /// The position of the first free compound task of a network.
    pub(crate) fn first_free_position(&self, number: u32) -> Option<usize>
        requires whole { IsWhole self.now }
        requires known { Knows self.now number }
        ensures position { result ≡ first_free (network_at self.now number) }
        ensures goal { IfSome result (λ i. (g : GroundTask)
            × (child_of (network_at self.now number).children i ≡ task g)) }
    {
        let (position, _goal) = self.first_free_task(number)?;
        Some(position)
    }

    /// A copy of the network of a number in which this one takes the place of the node at a position.
    fn replaced(
        &self,
        alloc: Global,
        number: u32,
        position: usize,
        inner: &Network,
    ) -> Result<Network, AllocError>
        requires known { Knows self.now number }
        requires placed { position < length (numbered_at self.now number).nodes }
        ensures { IfOk result (λ n. n ≡ replaced_numbered (numbered_at self.now number) position inner.now) }
    {
        if let Entry::Whole(network) = self.entry(number) {
            return network.replaced(alloc, position, inner);
        }
        let network = self.network(alloc, number)?;
        network.replaced(alloc, position, inner)
    }

    /// The number of a job's network in which this one takes the place of the node at a position; a new one if it has
    /// none.
    fn successor(
        &mut self,
        alloc: Global,
        job: Job,
        position: usize,
        inner: &Network,
    ) -> Result<u32, AllocError>
        requires whole { IsWhole self.old }
        requires known { Knows self.old job.network }
        requires placed { position < length (numbered_at self.old job.network).nodes }
        requires within { IsWithin (children self.old) inner.now }
        ensures whole { OnOk result (IsWhole self.new) }
        ensures more { OnOk result (IsMore self.old self.new) }
        ensures number { IfOk result (λ n. IsNumberOf self.new n
            (replaced_numbered (numbered_at self.old job.entry.network) position inner.now)) }
    {
        if let Entry::Chain(link) = self.entry(job.network) {
            if position == 0 && inner.is_chain() {
                // The nodes behind it are shared, not copied.
                let rest = link.rest;
                let number = self.keep_before(inner.nodes(), rest)?;
                return Ok(number);
            }
        }
        let next = self.replaced(alloc, job.network, position, inner)?;
        let number = self.keep(next)?;
        Ok(number)
    }

    /// The numbers of the networks in which the nodes of an instance stand in the place of the node at a position, for
    /// each instance.
    fn decompositions(
        &mut self,
        alloc: Global,
        job: Job,
        position: usize,
    ) -> Result<Vec<u32>, AllocError>
        requires whole { IsWhole self.old }
        requires known { Knows self.old job.network }
        requires placed { position < length (numbered_at self.old job.network).nodes }
        requires within { All (IsWithin (children self.old)) job.instances.now }
        ensures whole { OnOk result (IsWhole self.new) }
        ensures more { OnOk result (IsMore self.old self.new) }
        ensures each { IfOk result (λ v.
            AreDecompositions self.new (numbered_at self.old job.entry.network) position job.entry.instances.now v.items) }
    {
        let mut successors = Vec::with_capacity(alloc, job.instances.len())?;
        for instance in job.instances {
            successors.push(self.successor(alloc, job, position, instance)?)?;
        }
        Ok(successors)
    }

    /// A removal for each free node.
    fn removals(&mut self, alloc: Global, job: Job) -> Result<Vec<Removal>, AllocError>
        requires whole { IsWhole self.old }
        requires known { Knows self.old job.network }
        ensures whole { OnOk result (IsWhole self.new) }
        ensures more { OnOk result (IsMore self.old self.new) }
        ensures each { IfOk result (λ v. AreRemovals self.new (numbered_at self.old job.entry.network)
            (free_positions (length (numbered_at self.old job.entry.network).nodes) (numbered_at self.old job.entry.network).order)
            v.items) }
    {
        let free = self.free_in(alloc, job.network)?;
        let none = Network::empty(alloc);
        let mut removals = Vec::with_capacity(alloc, free.len())?;
        for position in &free {
            let node = self.node_at(job.network, *position);
            let network = self.successor(alloc, job, *position, &none)?;
            removals.push(Removal { node, network })?;
        }
        Ok(removals)
    }

    /// The expansion of a job's network.
    fn find_expansion(&mut self, alloc: Global, job: Job) -> Result<Expansion, AllocError>
        requires whole { IsWhole self.old }
        requires known { Knows self.old job.network }
        requires within { All (IsWithin (children self.old)) job.instances.now }
        ensures whole { OnOk result (IsWhole self.new) }
        ensures more { OnOk result (IsMore self.old self.new) }
        ensures right { IfOk result (λ e. (live : Live) → AreInstances live self.old job.entry.network job.entry.instances.now
            → IsExpansion live self.new job.entry.network e) }
    {
        match self.first_free_position(job.network) {
            Some(position) => {
                let successors = self.decompositions(alloc, job, position)?;
                Ok(Expansion::Decomposed(position, successors))
            }
            None => {
                let removals = self.removals(alloc, job)?;
                Ok(Expansion::Performed(removals))
            }
        }
    }

    /// Finds the expansion of a job's network, unless it is known.
    pub(crate) fn expand_job(&mut self, alloc: Global, job: Job) -> Result<(), AllocError>
        requires whole { IsWhole self.old }
        requires known { Knows self.old job.network }
        requires within { All (IsWithin (children self.old)) job.instances.now }
        ensures whole { OnOk result (IsWhole self.new) }
        ensures grown { OnOk result (IsGrown self.old self.new) }
        ensures ready { OnOk result (IsSome (expansion_at self.new job.entry.network)) }
        ensures sound { OnOk result ((live : Live) → AreInstances live self.old job.entry.network job.entry.instances.now
            → IsSound live self.old → IsSound live self.new) }
        ensures others { OnOk result ((n : ℕ) → (n ≡ job.entry.network → ⊥)
            → expansion_at self.new n ≡ expansion_at self.old n) }
        ensures children { OnOk result (self.new.children ≡ self.old.children) }
    {
        if self.expansion(job.network).is_some() {
            return Ok(());
        }
        let expansion = self.find_expansion(alloc, job)?;
        self.remember(job.network, expansion);
        Ok(())
    }
}
