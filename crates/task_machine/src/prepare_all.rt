//! Prepares the steps at many configurations by several workers: expansions, compiled actions and steps, and needs.
ghost use Rattle.std.specs.Prelude.{◌≡◌, ◌<◌, ℕ, All, Contains, IfOk, IsSome, List, None, OnOk, is_some, map, nat_eq, if◌then◌else◌};
ghost use Rattle.htn_model.specs.Grounding.{problem_of};
ghost use Rattle.htn_model.specs.Task as model;
ghost use Rattle.indexmap.specs.IndexSet.{insert_key};
ghost use Rattle.heuristics.specs.StoredNeeds.{AreKept};
ghost use Rattle.heuristics.specs.ListedNeeds.{AreNoted};
ghost use Rattle.heuristics.specs.Prospects.{outlook_by};
ghost use Rattle.network_table.specs.Networks.{expansion_at, IsWhole, Knows};
ghost use Rattle.network_table.specs.declared.table.NetworkTable.{NetworkTable as Networks};
ghost use Rattle.heuristics.specs.declared.tree_sizes.TreeSizes.{TreeSizes};
ghost use Rattle.task_machine.specs.Blocks.{AreListed, HoldsPart, IsFirst, IsListed, IsPart, job_view, listed_job, networks_of};
ghost use Rattle.task_machine.specs.Owned.{AreOwned, HasSizes};
ghost use Rattle.task_machine.specs.Tables.{AreExpanded, AreLater, AreTables, slot};

use crate::configuration::Configuration;
use crate::listing::Listing;
use crate::performer::prepare_all_performers;
use crate::prepare::{first_task, listed};
use crate::tables::Tables;
use heuristics::{Prospects, TreeSizes};
use htn_task::Task;
use indexmap::IndexSet;
use network_table::{Job, NetworkTable};
use std::alloc::{AllocError, Global};
use std::thread::Threads;
use workers::{map_indices, workers_for};

/// At most this many networks are expanded together: the list of their first free compound tasks is held until they
/// are.
const BLOCK: usize = 32_768;

/// Where several workers share a block, each has at least this many networks: to start a worker for fewer takes longer.
const LEAST_SHARED: usize = 500;

/// A network to expand, with the number of the node of its first free compound task, if it has one.
#[derive(Clone, Copy, Drop)]
struct Listed {
    network: u32,
    node: Option<u32>,
}

/// Consecutive networks of a block, from the place `first` on, each with its first free compound task.
#[derive(Drop)]
struct Part {
    first: usize,
    listed: Vec<Listed>,
}

/// Adds a network to those that are to be expanded, unless the table has its expansion.
fn note_unexpanded(
    networks: &NetworkTable,
    todo: &mut IndexSet<u32>,
    network: u32,
) -> Result<(), AllocError>
    requires whole { IsWhole networks.now }
    requires known { Knows networks.now network }
    ensures { OnOk result (todo.new.keys ≡ (if is_some (expansion_at networks.now network)
        then todo.old.keys
        else insert_key nat_eq todo.old.keys network)) }
{
    if networks.expansion(network).is_some() {
        return Ok(());
    }
    todo.insert(network)?;
    Ok(())
}

/// The networks of configurations whose expansions the table does not have, each once.
fn unexpanded(
    alloc: Global,
    networks: &NetworkTable,
    at: &[Configuration],
) -> Result<IndexSet<u32>, AllocError>
    requires whole { IsWhole networks.now }
    requires known { All (λ c. Knows networks.now c.network) at.now }
    ensures known { IfOk result (λ todo. All (Knows networks.now) todo.keys) }
    ensures all { IfOk result (λ todo.
        All (λ c. expansion_at networks.now c.network ≡ None → Contains todo.keys c.network) at.now) }
{
    let mut todo = IndexSet::new(alloc);
    for configuration in at {
        note_unexpanded(networks, &mut todo, configuration.network)?;
    }
    Ok(todo)
}

/// The job of expanding a network, with the listed instances of its first free compound task.
fn job_of(instances: &[Option<Listing>], one: Listed) -> Job
    ensures { job_view result ≡ listed_job instances.now one }
{
    match one.node {
        Some(node) => Job {
            network: one.network,
            instances: listed(instances, node),
        },
        None => Job {
            network: one.network,
            instances: &[],
        },
    }
}

/// The jobs of expanding networks, in the order of the networks.
fn jobs_of<'a>(
    alloc: Global,
    instances: &'a [Option<Listing>],
    block: &[Listed],
) -> Result<Vec<Job<'a>>, AllocError>
    ensures { IfOk result (λ jobs. map job_view jobs.items ≡ map (listed_job instances.now) block.now) }
{
    let mut jobs = Vec::with_capacity(alloc, block.len())?;
    for one in block {
        jobs.push(job_of(instances, *one))?;
    }
    Ok(jobs)
}

/// A network, with its first free compound task.
fn list_one(networks: &NetworkTable, network: u32) -> Listed
    requires whole { IsWhole networks.now }
    requires known { Knows networks.now network }
    ensures network { result.network ≡ network }
    ensures first { IsFirst networks.now result.network result.node }
{
    let node = first_task(networks, network);
    Listed { network, node }
}

/// At most `size` networks of a block from the place `first` on, each with its first free compound task.
fn list_part(
    alloc: Global,
    networks: &NetworkTable,
    block: &[u32],
    first: usize,
    size: usize,
) -> Result<Part, AllocError>
    requires whole { IsWhole networks.now }
    requires known { All (Knows networks.now) block.now }
    ensures { HoldsPart networks.now block.now result }
{
    let mut listed = Vec::new(alloc);
    for place in first..first.saturating_add(size).min(block.len()) {
        listed.push(list_one(networks, block[place]))?;
    }
    Ok(Part { first, listed })
}

/// The parts of a block, one for each of `workers` workers, each with an error of its own where its memory was refused.
fn list_parts<R: Threads + Sync>(
    rt: &R,
    alloc: Global,
    networks: &NetworkTable,
    block: &[u32],
    workers: usize,
) -> Result<Vec<Result<Part, AllocError>>, AllocError>
    requires workers { 0 < workers }
    requires whole { IsWhole networks.now }
    requires known { All (Knows networks.now) block.now }
    ensures { IfOk result (λ v. All (HoldsPart networks.now block.now) v.items) }
{
    let size = block.len().div_ceil(workers);
    let list = |part: usize| -> Result<Part, AllocError>
        requires { IsWhole networks.now × All (Knows networks.now) block.now }
        ensures { HoldsPart networks.entry.now block.entry.now result }
    { list_part(alloc, networks, block, part.saturating_mul(size), size) };
    map_indices(rt, alloc, workers, &list)
}

/// Appends a part if it begins with the network at which the list ends; any other part is dropped.
fn put_part(listed: &mut Vec<Listed>, part: Part) -> Result<(), AllocError>
    ensures { OnOk result ((networks : Networks) (block : List ℕ) → AreListed networks block listed.old.items
        → IsPart networks block part → AreListed networks block listed.new.items) }
{
    let Part {
        first,
        listed: mut more,
    } = part;
    if listed.len() != first {
        return Ok(());
    }
    listed.append(&mut more)?;
    Ok(())
}

/// The networks of a block, each with its first free compound task, by `workers` workers.
fn list_block<R: Threads + Sync>(
    rt: &R,
    alloc: Global,
    networks: &NetworkTable,
    block: &[u32],
    workers: usize,
) -> Result<Vec<Listed>, AllocError>
    requires workers { 0 < workers }
    requires whole { IsWhole networks.now }
    requires known { All (Knows networks.now) block.now }
    ensures networks { IfOk result (λ v. networks_of v.items ≡ block.now) }
    ensures first { IfOk result (λ v. All (λ l. IsFirst networks.now l.network l.node) v.items) }
{
    let parts = list_parts(rt, alloc, networks, block, workers)?;
    let mut listed = Vec::with_capacity(alloc, block.len())?;
    for part in parts {
        put_part(&mut listed, part?)?;
    }
    for place in listed.len()..block.len() {
        listed.push(list_one(networks, block[place]))?;
    }
    Ok(listed)
}

impl Tables {
    /// Lists the instances of a network's first free compound task, if it has one and they are not listed yet.
    fn prepare_first(
        &mut self,
        alloc: Global,
        task: &Task,
        sizes: &TreeSizes,
        one: Listed,
    ) -> Result<(), AllocError>
        requires own { AreTables task.now self.old }
        requires sized { HasSizes sizes.now self.old.networks }
        requires known { Knows self.old.networks one.network }
        requires first { IsFirst self.old.networks one.network one.node }
        ensures owned { OnOk result (AreTables task.now self.new) }
        ensures sized { OnOk result (HasSizes sizes.now self.new.networks) }
        ensures later { OnOk result (AreLater self.old self.new) }
        ensures needs { OnOk result (self.new.needs ≡ self.old.needs) }
        ensures kept { OnOk result ((n : ℕ)
            → IsSome (slot self.old.instances.items n) → IsSome (slot self.new.instances.items n)) }
        ensures listed { OnOk result (IsListed self.new one.network one.node) }
    {
        let Some(node) = one.node else {
            return Ok(());
        };
        self.prepare_instances(alloc, task, sizes, node)?;
        Ok(())
    }

    /// Lists the instances of the first free compound tasks of many networks.
    fn prepare_firsts(
        &mut self,
        alloc: Global,
        task: &Task,
        sizes: &TreeSizes,
        block: &[Listed],
    ) -> Result<(), AllocError>
        requires own { AreTables task.now self.old }
        requires sized { HasSizes sizes.now self.old.networks }
        requires known { All (Knows self.old.networks) (networks_of block.now) }
        requires first { All (λ l. IsFirst self.old.networks l.network l.node) block.now }
        ensures owned { OnOk result (AreTables task.now self.new) }
        ensures sized { OnOk result (HasSizes sizes.now self.new.networks) }
        ensures later { OnOk result (AreLater self.old self.new) }
        ensures needs { OnOk result (self.new.needs ≡ self.old.needs) }
        ensures listed { OnOk result (All (λ l. IsListed self.new l.network l.node) block.now) }
    {
        for one in block {
            self.prepare_first(alloc, task, sizes, *one)?;
        }
        Ok(())
    }

    /// Finds the expansions of a block of networks, by at most `workers` workers.
    fn expand_block<R: Threads + Sync>(
        &mut self,
        rt: &R,
        alloc: Global,
        task: &Task,
        sizes: &TreeSizes,
        block: &[u32],
        workers: usize,
    ) -> Result<(), AllocError>
        requires workers { 0 < workers }
        requires own { AreTables task.now self.old }
        requires sized { HasSizes sizes.now self.old.networks }
        requires known { All (Knows self.old.networks) block.now }
        ensures expanded { OnOk result (AreExpanded task.now self.new block.now) }
        ensures sized { OnOk result (HasSizes sizes.now self.new.networks) }
        ensures later { OnOk result (AreLater self.old self.new) }
        ensures needs { OnOk result (self.new.needs ≡ self.old.needs) }
        ensures ready { OnOk result (All (λ n. IsSome (expansion_at self.new.networks n)) block.now) }
    {
        let workers = workers_for(block.len(), LEAST_SHARED, workers);
        let found = list_block(rt, alloc, &self.networks, block, workers)?;
        self.prepare_firsts(alloc, task, sizes, found.as_slice())?;
        let jobs = jobs_of(alloc, &self.instances, found.as_slice())?;
        self.networks
            .expand_all(rt, alloc, jobs.as_slice(), workers)?;
        Ok(())
    }

    /// Expands the networks of a block, by at most `workers` workers, and compiles the actions and steps that they may
    /// perform next.
    fn prepare_block<R: Threads + Sync>(
        &mut self,
        rt: &R,
        alloc: Global,
        task: &Task,
        sizes: &TreeSizes,
        block: &[u32],
        workers: usize,
    ) -> Result<(), AllocError>
        requires workers { 0 < workers }
        requires own { AreTables task.now self.old }
        requires sized { HasSizes sizes.now self.old.networks }
        requires known { All (Knows self.old.networks) block.now }
        ensures owned { OnOk result (AreTables task.now self.new) }
        ensures sized { OnOk result (HasSizes sizes.now self.new.networks) }
        ensures later { OnOk result (AreLater self.old self.new) }
        ensures needs { OnOk result (self.new.needs ≡ self.old.needs) }
        ensures ready { OnOk result (All (λ n. IsSome (expansion_at self.new.networks n)) block.now) }
    {
        self.expand_block(rt, alloc, task, sizes, block, workers)?;
        prepare_all_performers(
            alloc,
            task,
            &mut self.atoms,
            &self.networks,
            &mut self.performers,
            block,
        )?;
        Ok(())
    }

    /// Finds the needs of each network of the table that has none yet, by at most `workers` workers.
    fn prepare_needs_all<R: Threads + Sync>(
        &mut self,
        rt: &R,
        alloc: Global,
        prospects: &Prospects,
        workers: usize,
    ) -> Result<(), AllocError>
        requires workers { 0 < workers }
        requires whole { IsWhole self.old.networks }
        requires kept { AreKept (outlook_by prospects.now) self.old.atoms self.old.networks self.old.needs }
        requires noted { AreNoted prospects.now self.old.atoms self.old.networks self.old.needs }
        ensures owned { OnOk result ((t : model.Task) (sizes : TreeSizes) → AreTables t self.old
            → HasSizes sizes self.old.networks → self.old.needs.goal ≡ (problem_of t).goal
            → AreOwned t sizes prospects.now self.new) }
        ensures later { OnOk result ((t : model.Task) → AreTables t self.old → AreLater self.old self.new) }
        ensures networks { OnOk result (self.new.networks ≡ self.old.networks) }
    {
        let count = self.networks.len();
        let unknown = count.saturating_sub(self.needs.len());
        let workers = workers_for(unknown, LEAST_SHARED, workers);
        self.needs.keep_up_all(
            rt,
            alloc,
            prospects,
            &mut self.atoms,
            &self.networks,
            workers,
        )?;
        Ok(())
    }

    /// Expands the networks of configurations, compiles the actions and steps that they may perform next, and finds the
    /// needs of each network of the table, all by at most `workers` workers.
    pub(crate) fn prepare_all<R: Threads + Sync>(
        &mut self,
        rt: &R,
        alloc: Global,
        task: &Task,
        sizes: &TreeSizes,
        prospects: &Prospects,
        at: &[Configuration],
        workers: usize,
    ) -> Result<(), AllocError>
        requires workers { 0 < workers }
        requires own { AreOwned task.now sizes.now prospects.now self.old }
        requires known { All (λ c. Knows self.old.networks c.network) at.now }
        ensures owned { OnOk result (AreOwned task.now sizes.now prospects.now self.new) }
        ensures later { OnOk result (AreLater self.old self.new) }
        ensures ready { OnOk result (All (λ c. IsSome (expansion_at self.new.networks c.network)) at.now) }
    {
        let todo = unexpanded(alloc, &self.networks, at)?;
        let mut rest = todo.as_slice();
        while !rest.is_empty() {
            let (block, later) = rest.split_at(BLOCK.min(rest.len()));
            self.prepare_block(rt, alloc, task, sizes, block, workers)?;
            self.prepare_needs_all(rt, alloc, prospects, workers)?;
            rest = later;
        }
        Ok(())
    }
}
