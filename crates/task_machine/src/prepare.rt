//! What the steps at a configuration need.
ghost use Rattle.std.specs.Prelude.{◌≡◌, ◌<◌, ◌∷◌, ℕ, [], All, IfOk, IfNone, IfSome, IsSome, None, OnOk, length, map};
ghost use Rattle.htn_model.specs.Grounding.{problem_of};
ghost use Rattle.htn_model.specs.Task as model;
ghost use Rattle.heuristics.specs.StoredNeeds.{AreKept};
ghost use Rattle.heuristics.specs.ListedNeeds.{AreNoted};
ghost use Rattle.heuristics.specs.Prospects.{outlook_by};
ghost use Rattle.network_table.specs.Expansions.{first_free};
ghost use Rattle.network_table.specs.Networks.{children, expansion_at, IsWhole, Knows, network_at};
ghost use Rattle.htn_walk.specs.Listed.{listing_machine};
ghost use Rattle.heuristics.specs.declared.tree_sizes.TreeSizes.{TreeSizes};
ghost use Rattle.task_machine.specs.Owned.{AreOwned, HasSizes};
ghost use Rattle.task_machine.specs.Meaning.{knows, point};
ghost use Rattle.task_machine.specs.Tables.{AreExpanded, AreLater, AreTables, IsFirstTask, listed_at, slot};

use crate::configuration::Configuration;
use crate::instances::{configurations_of, instances_of, number_networks};
use crate::listing::{Listing, sources_of};
use crate::slots::{is_taken, put};
use crate::tables::Tables;
use heuristics::{Prospects, TreeSizes};
use htn_ground::distinct_initials;
use htn_task::Task;
use network_table::{Network, NetworkTable};
use state_table::initial_state;
use std::alloc::{AllocError, Global};

/// The number of a network's first free compound task.
pub(crate) fn first_task(networks: &NetworkTable, network: u32) -> Option<u32>
    requires whole { IsWhole networks.now }
    requires known { Knows networks.now network }
    ensures some { IfSome result (IsFirstTask networks.now network) }
    ensures none { IfNone result (first_free (network_at networks.now network) ≡ None) }
{
    let (position, _) = networks.first_free_task(network)?;
    Some(networks.node_at(network, position))
}

/// The networks of the instances that are listed for the node of a number; none where no instances were listed for it.
pub(crate) fn listed(instances: &[Option<Listing>], node: u32) -> &[Network]
    ensures { result.now ≡ listed_at instances.now node }
{
    match instances.get(node as usize) {
        Some(Some(found)) => found.networks.as_slice(),
        _ => &[],
    }
}

impl Tables {
    /// Numbers the configurations at the start, in the order of the instances of the initial network.
    pub(crate) fn initials(
        &mut self,
        alloc: Global,
        task: &Task,
        sizes: &TreeSizes,
    ) -> Result<Vec<Configuration>, AllocError>
        requires own { AreTables task.now self.old }
        requires sized { HasSizes sizes.now self.old.networks }
        ensures owned { OnOk result (AreTables task.now self.new) }
        ensures sized { OnOk result (HasSizes sizes.now self.new.networks) }
        ensures later { OnOk result (AreLater self.old self.new) }
        ensures needs { OnOk result (self.new.needs ≡ self.old.needs) }
        ensures known { IfOk result (λ v. All (knows self.new) v.items) }
        ensures points { IfOk result (λ v. map (point self.new) v.items ≡ (listing_machine task.now).initials) }
    {
        let initial = task.initial_atoms();
        let state = initial_state(alloc, &mut self.atoms, initial)?;
        let number = self.states.keep(state)?;
        let instances = distinct_initials(alloc, task)?;
        let initials = configurations_of(alloc, &mut self.networks, sizes, number, &instances)?;
        Ok(initials)
    }

    /// Lists the instances of a compound task, by the number of its node, unless they are listed already.
    pub(crate) fn prepare_instances(
        &mut self,
        alloc: Global,
        task: &Task,
        sizes: &TreeSizes,
        node: u32,
    ) -> Result<(), AllocError>
        requires own { AreTables task.now self.old }
        requires sized { HasSizes sizes.now self.old.networks }
        requires known { node < length (children self.old.networks) }
        ensures owned { OnOk result (AreTables task.now self.new) }
        ensures sized { OnOk result (HasSizes sizes.now self.new.networks) }
        ensures later { OnOk result (AreLater self.old self.new) }
        ensures needs { OnOk result (self.new.needs ≡ self.old.needs) }
        ensures remembered { OnOk result ((n : ℕ) → expansion_at self.new.networks n ≡ expansion_at self.old.networks n) }
        ensures kept { OnOk result ((n : ℕ)
            → IsSome (slot self.old.instances.items n) → IsSome (slot self.new.instances.items n)) }
        ensures there { OnOk result (IsSome (slot self.new.instances.items node)) }
    {
        if is_taken(&self.instances, node) {
            return Ok(());
        }
        let found = instances_of(alloc, task, self.networks.child(node))?;
        let networks = number_networks(alloc, &mut self.networks, sizes, &found)?;
        let sources = sources_of(alloc, &found)?;
        put(&mut self.instances, node, Listing { networks, sources })?;
        Ok(())
    }

    /// Finds the needs of each network of the table that has none yet.
    pub(crate) fn prepare_needs(
        &mut self,
        alloc: Global,
        prospects: &Prospects,
    ) -> Result<(), AllocError>
        requires whole { IsWhole self.old.networks }
        requires kept { AreKept (outlook_by prospects.now) self.old.atoms self.old.networks self.old.needs }
        requires noted { AreNoted prospects.now self.old.atoms self.old.networks self.old.needs }
        ensures owned { OnOk result ((t : model.Task) (sizes : TreeSizes) → AreTables t self.old
            → HasSizes sizes self.old.networks → self.old.needs.goal ≡ (problem_of t).goal
            → AreOwned t sizes prospects.now self.new) }
        ensures later { OnOk result ((t : model.Task) → AreTables t self.old → AreLater self.old self.new) }
        ensures networks { OnOk result (self.new.networks ≡ self.old.networks) }
    {
        self.needs
            .keep_up(alloc, prospects, &mut self.atoms, &self.networks)?;
        Ok(())
    }
}
