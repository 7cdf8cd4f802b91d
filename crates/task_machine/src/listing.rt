//! The listed instances of a compound task, as they are stored.
ghost use Rattle.std.specs.Prelude.{◌≡◌, ◌<◌, ◌≤◌, All, IfNone, IfOk, IfSome, Some, length, map, slice_get};
ghost use Rattle.std.specs.Option.{option_map};
ghost use Rattle.htn_ground.specs.Distinct.{distinct, live_methods};
ghost use Rattle.htn_model.specs.Choice.{child_of};
ghost use Rattle.htn_model.specs.Task as tasks;
ghost use Rattle.network_table.specs.Networks.{children, IsWhole};
ghost use Rattle.network_table.specs.Numbered.{IsWithin, network_of};
ghost use Rattle.task_machine.specs.Tables.{AreTables, HasListing, slot, source_of};
ghost use Rattle.task_machine.specs.declared.listing.Listing.{Listing};

use crate::tables::Tables;
use htn_ground::{Child, ChildList, GroundTask, Instance, ObjectList};
use network_table::{Network, NetworkTable};
use std::alloc::{AllocError, Global};

/// Where an instance comes from: the number of its method, and the objects that its parameters stand for.
#[derive(Drop)]
pub struct Source {
    pub method: Option<u16>,
    pub values: ObjectList,
}

/// The instances that are listed for a compound task, in their order.
pub struct Listing {
    /// Their networks, the nodes by numbers.
    pub networks: Vec<Network>,
    /// Where they come from.
    pub sources: Vec<Source>,
}

impl Drop for Listing {
    fn drop(self) {
        let Listing {
            networks: _,
            sources: _,
        } = self;
    }
}

/// Where instances come from, in their order.
pub(crate) fn sources_of(alloc: Global, instances: &[Instance]) -> Result<Vec<Source>, AllocError>
    ensures { IfOk result (λ v. v.items ≡ map source_of instances.now) }
{
    let mut sources = Vec::with_capacity(alloc, instances.len())?;
    for instance in instances {
        let values = ObjectList::of(alloc, instance.values())?;
        sources.push(Source {
            method: instance.method(),
            values,
        })?;
    }
    Ok(sources)
}

/// The nodes of these numbers.
fn nodes_of(alloc: Global, networks: &NetworkTable, ids: &[u32]) -> Result<ChildList, AllocError>
    requires { All (λ id. id < length (children networks.now)) ids.now }
    ensures { IfOk result (λ l. l ≡ map (child_of (children networks.now)) ids.now) }
{
    let mut nodes = ChildList::new(alloc);
    for id in ids {
        nodes.push(networks.child(*id).clone()?)?;
    }
    Ok(nodes)
}

/// The instance of a source, with this network.
fn instance_from(
    alloc: Global,
    networks: &NetworkTable,
    source: &Source,
    network: &Network,
) -> Result<Instance, AllocError>
    requires { IsWithin (children networks.now) network.now }
    ensures { IfOk result (λ i. i ≡ record {
      method = source.now.method;
      values = source.now.values;
      network = network_of (children networks.now) network.now;
    }) }
{
    let nodes = nodes_of(alloc, networks, network.nodes())?;
    let values = source.values.clone()?;
    let order = network.order().clone()?;
    Ok(Instance::new(source.method, values, nodes, order))
}

/// The listing of the node of a number, if it has one.
fn listing_at(listings: &[Option<Listing>], node: u32) -> Option<&Listing>
    ensures { option_map (λ l. l.now) result ≡ slot listings.now node }
{
    match listings.get(node as usize) {
        Some(listing) => listing.as_ref(),
        None => None,
    }
}

impl Tables {
    /// The listing of a compound task's instances, if they were listed.
    fn listing(&self, alloc: Global, goal: &GroundTask) -> Result<Option<&Listing>, AllocError>
        requires whole { IsWhole self.now.networks }
        ensures some { IfOk result (λ o. IfSome o (λ l. HasListing self.now goal.now l.now)) }
        ensures none { IfOk result (λ o. IfNone o ((l : Listing) → HasListing self.now goal.now l → ⊥)) }
    {
        let node = Child::Task(goal.clone()?);
        let Some(number) = self.networks.number_of_child(&node) else {
            return Ok(None);
        };
        let Some(listing) = listing_at(&self.instances, number) else {
            return Ok(None);
        };
        Ok(Some(listing))
    }

    /// The instance of a rank among those that a search lists for a compound task; none where the tables have no list
    /// of them, or none of that rank.
    pub fn listed_instance(
        &self,
        alloc: Global,
        goal: &GroundTask,
        rank: usize,
    ) -> Result<Option<Instance>, AllocError>
        requires own { (t : tasks.Task) × AreTables t self.now }
        ensures some { IfOk result (λ o. IfSome o (λ i. (t : tasks.Task) → AreTables t self.now
            → slice_get (distinct (live_methods t goal.now)) rank ≡ Some i)) }
        ensures none { IfOk result (λ o. IfNone o ((l : Listing) → HasListing self.now goal.now l
            → length l.sources.items ≤ rank)) }
    {
        let Some(listing) = self.listing(alloc, goal)? else {
            return Ok(None);
        };
        if rank >= listing.sources.len() {
            return Ok(None);
        }
        let source = &listing.sources[rank];
        let network = &listing.networks[rank];
        let instance = instance_from(alloc, &self.networks, source, network)?;
        Ok(Some(instance))
    }
}
