//! Instances as networks of numbered nodes.
ghost use Rattle.std.specs.Prelude.{◌≡◌, All, IfOk, OnOk, length, map};
ghost use Rattle.htn_model.specs.Problem as model;
ghost use Rattle.htn_ground.specs.Distinct.{distinct, live_methods};
ghost use Rattle.htn_ground.specs.Views.{child_view, children_of};
ghost use Rattle.network_table.specs.Networks.{IsWhole, Knows, network_at};
ghost use Rattle.task_machine.specs.Growing.{IsAt, IsWider, StandFor, StandsFor};
ghost use Rattle.task_machine.specs.Owned.{HasSizes};
ghost use Rattle.heuristics.specs.Sizes.{size_of};

use crate::configuration::Configuration;
use heuristics::TreeSizes;
use htn_ground::{Child, Instance, distinct_live_methods_of};
use htn_task::Task;
use network_table::{Network, NetworkTable};
use std::alloc::{AllocError, Global};

/// How many steps each of some nodes takes at least.
fn bounds_of(alloc: Global, sizes: &TreeSizes, nodes: &[Child]) -> Result<Vec<u32>, AllocError>
    ensures { IfOk result (λ v. v.items ≡ map (size_of sizes.now) (children_of nodes.now)) }
{
    let mut bounds = Vec::with_capacity(alloc, nodes.len())?;
    for node in nodes {
        bounds.push(sizes.size(node))?;
    }
    Ok(bounds)
}

/// The network of an instance, of which each node gets a number if it has none.
fn number_network(
    alloc: Global,
    networks: &mut NetworkTable,
    sizes: &TreeSizes,
    instance: &Instance,
) -> Result<Network, AllocError>
    requires whole { IsWhole networks.old }
    requires sized { HasSizes sizes.now networks.old }
    requires square { length instance.now.network.order ≡ length instance.now.network.children }
    ensures wider { OnOk result (IsWider networks.old networks.new) }
    ensures sized { OnOk result (HasSizes sizes.now networks.new) }
    ensures network { IfOk result (λ n. StandsFor networks.new n instance.now.network) }
{
    let nodes = instance.children().as_slice();
    let bounds = bounds_of(alloc, sizes, nodes)?;
    let numbers = networks.keep_children(alloc, nodes, &bounds)?;
    let order = instance.order().clone()?;
    Ok(Network::new(numbers, order))
}

/// The networks of instances, in their order.
pub(crate) fn number_networks(
    alloc: Global,
    networks: &mut NetworkTable,
    sizes: &TreeSizes,
    instances: &[Instance],
) -> Result<Vec<Network>, AllocError>
    requires whole { IsWhole networks.old }
    requires sized { HasSizes sizes.now networks.old }
    requires square { All (λ i. length i.network.order ≡ length i.network.children) instances.now }
    ensures wider { OnOk result (IsWider networks.old networks.new) }
    ensures sized { OnOk result (HasSizes sizes.now networks.new) }
    ensures networks { IfOk result (λ v. StandFor networks.new v.items (map (λ i. i.network) instances.now)) }
{
    let mut found = Vec::with_capacity(alloc, instances.len())?;
    for instance in instances {
        let network = number_network(alloc, networks, sizes, instance)?;
        found.push(network)?;
    }
    Ok(found)
}

/// The number of an instance's network, which is added if it is new.
fn keep_network(
    alloc: Global,
    networks: &mut NetworkTable,
    sizes: &TreeSizes,
    instance: &Instance,
) -> Result<u32, AllocError>
    requires whole { IsWhole networks.old }
    requires sized { HasSizes sizes.now networks.old }
    requires square { length instance.now.network.order ≡ length instance.now.network.children }
    ensures wider { OnOk result (IsWider networks.old networks.new) }
    ensures sized { OnOk result (HasSizes sizes.now networks.new) }
    ensures number { IfOk result (λ n. IsAt networks.new n instance.now.network) }
{
    let network = number_network(alloc, networks, sizes, instance)?;
    let number = networks.keep(network)?;
    Ok(number)
}

/// A configuration for each instance, in their order: its nodes are open in the state of this number.
pub(crate) fn configurations_of(
    alloc: Global,
    networks: &mut NetworkTable,
    sizes: &TreeSizes,
    state: u32,
    instances: &[Instance],
) -> Result<Vec<Configuration>, AllocError>
    requires whole { IsWhole networks.old }
    requires sized { HasSizes sizes.now networks.old }
    requires square { All (λ i. length i.network.order ≡ length i.network.children) instances.now }
    ensures wider { OnOk result (IsWider networks.old networks.new) }
    ensures sized { OnOk result (HasSizes sizes.now networks.new) }
    ensures states { IfOk result (λ v. All (λ c. c.state ≡ state) v.items) }
    ensures known { IfOk result (λ v. All (λ c. Knows networks.new c.network) v.items) }
    ensures networks { IfOk result (λ v.
        map (λ c. network_at networks.new c.network) v.items ≡ map (λ i. i.network) instances.now) }
{
    let mut configurations = Vec::with_capacity(alloc, instances.len())?;
    for instance in instances {
        let network = keep_network(alloc, networks, sizes, instance)?;
        configurations.push(Configuration { state, network })?;
    }
    Ok(configurations)
}

/// The instances that are listed for a node; none where it is no compound task.
pub(crate) fn instances_of(
    alloc: Global,
    task: &Task,
    node: &Child,
) -> Result<Vec<Instance>, AllocError>
    ensures square { IfOk result (λ v. All (λ i. length i.network.order ≡ length i.network.children) v.items) }
    ensures listed { IfOk result (λ v. (g : model.GroundTask) → child_view node.now ≡ model.task g
        → v.items ≡ distinct (live_methods task.now g)) }
{
    let _initial = task.initial_atoms();
    match node {
        Child::Task(goal) => distinct_live_methods_of(alloc, task, goal),
        Child::Precondition(_) | Child::Action(_) => Ok(Vec::new(alloc)),
    }
}
