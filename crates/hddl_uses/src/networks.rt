//! Task networks: their subtasks' names and their order.
ghost use Rattle.std.specs.Prelude.{◌≡◌, ◌++◌, ◌↔◌, length, IfOk, IsTrue, OnOk};
ghost use Rattle.std.specs.List.{flat_map};
ghost use Rattle.htn_order.specs.Closure.{AreBelow, successors};
ghost use Rattle.hddl_meaning.specs.Networks.{order_pairs, written_pairs};
ghost use Rattle.hddl_meaning.specs.Items.{most_subtasks, subtask_mentions};
ghost use Rattle.hddl_meaning.specs.declared.fault.CheckFault.TheVariants.{OrderCycle};
ghost use Rattle.hddl_uses.specs.Contexts.{Fails, PassedOver};
ghost use Rattle.hddl_uses.specs.Parts.{IsCyclic, Limited, Network, network_parts};
ghost use Rattle.hddl_scope.specs.Findings.{Adds, AddsAny, Faulted};
ghost use Rattle.hddl_uses.specs.Labels.{IsNumbering, IsUnknownLabel, Circles, names_of};

use crate::context::Context;
use crate::cycles::is_cyclic;
use crate::labels::{label_numbers, labels_in, pairs_in};
use crate::mentions::check_different;
use hddl_meaning::CheckFault;
use hddl_names::fold;
use hddl_scope::{Findings, MOST_SUBTASKS, Numbers};
use hddl_words::{Name, NetworkText, OrderingText};
use htn_order::close_chain;
use std::alloc::{AllocError, Global};

/// A name that no subtask has.
fn check_label(
    context: &Context<'_, '_>,
    numbers: &Numbers,
    name: &Name,
    found: &mut Findings,
) -> Result<(), AllocError>
    ensures { OnOk result (Adds (λ _. ⊥) (IsUnknownLabel context.now.source numbers.now name.now) found.old found.new) }
{
    let text = fold(context.alloc, name.text())?;
    if numbers.get(text.as_slice()).is_some() {
        return Ok(());
    }
    found.push(CheckFault::UnknownSubtask(context.at(name.place())))?;
    Ok(())
}

/// Names in orderings that no subtask has.
fn check_labels(
    context: &Context<'_, '_>,
    numbers: &Numbers,
    orderings: &[OrderingText],
    found: &mut Findings,
) -> Result<(), AllocError>
    ensures { OnOk result (AddsAny (λ _ _. ⊥) (IsUnknownLabel context.now.source numbers.now) (flat_map names_of orderings.now) found.old found.new) }
{
    for ordering in orderings {
        check_label(context, numbers, &ordering.before, found)?;
        check_label(context, numbers, &ordering.after, found)?;
    }
    Ok(())
}

/// Whether the pairs have a cycle, together with the sequence of the list.
fn is_cyclic_chain(size: usize, pairs: &[(usize, usize)]) -> bool
    requires { AreBelow size pairs.now }
    ensures { IsTrue result ↔ Circles (successors size ++ pairs.now) }
{
    match close_chain(size, pairs) {
        Ok(_) => false,
        Err(_) => true,
    }
}

/// Whether a network's order has a cycle.
fn has_cycle(
    alloc: Global,
    network: &NetworkText,
    pairs: &[(usize, usize)],
) -> Result<bool, AllocError>
    requires below { AreBelow (length network.now.subtasks) pairs.now }
    requires written { pairs.now ≡ written_pairs network.now }
    ensures { IfOk result (λ cyclic. IsTrue cyclic ↔ Circles (order_pairs network.now)) }
{
    let size = network.subtasks.len();
    if network.is_ordered {
        return Ok(is_cyclic_chain(size, pairs));
    }
    let cyclic = is_cyclic(alloc, size, pairs)?;
    Ok(cyclic)
}

/// A cycle of a network's order.
fn check_cycle(
    context: &Context<'_, '_>,
    place: usize,
    network: &NetworkText,
    numbers: &Numbers,
    found: &mut Findings,
) -> Result<(), AllocError>
    requires { IsNumbering network.now numbers.now }
    ensures { OnOk result (Adds (λ _. ⊥) (Faulted OrderCycle context.now.source (IsCyclic place network.now)) found.old found.new) }
{
    let pairs = pairs_in(context.alloc, numbers, network.orderings.as_slice())?;
    let cyclic = has_cycle(context.alloc, network, &pairs)?;
    if cyclic {
        found.push(CheckFault::OrderCycle(context.at(place)))?;
        return Ok(());
    }
    Ok(())
}

/// A cycle of a network's order, and names in it that no subtask has.
fn check_order(
    context: &Context<'_, '_>,
    place: usize,
    network: &NetworkText,
    found: &mut Findings,
) -> Result<(), AllocError>
    ensures { OnOk result (Adds (λ _. ⊥) (Fails context.now (Network place network.now)) found.old found.new) }
{
    let numbers = label_numbers(context.alloc, network.subtasks.as_slice())?;
    check_cycle(context, place, network, &numbers, found)?;
    check_labels(context, &numbers, network.orderings.as_slice(), found)?;
    Ok(())
}

/// The first subtask past the limit.
fn check_subtasks(
    context: &Context<'_, '_>,
    network: &NetworkText,
    found: &mut Findings,
) -> Result<(), AllocError>
    ensures { OnOk result (Adds (λ _. ⊥) (Fails context.now (Limited most_subtasks (subtask_mentions network.now))) found.old found.new) }
{
    if let Some(subtask) = network.subtasks.as_slice().get(MOST_SUBTASKS) {
        found.push(CheckFault::TooMany(context.at(subtask.place())))?;
    }
    Ok(())
}

/// Faults of a network's names and its order.
pub fn check_network(
    context: &Context<'_, '_>,
    place: usize,
    network: &NetworkText,
    found: &mut Findings,
) -> Result<(), AllocError>
    ensures { OnOk result (AddsAny (PassedOver context.now) (Fails context.now) (network_parts place network.now) found.old found.new) }
{
    let labels = labels_in(context.alloc, network.subtasks.as_slice())?;
    check_different(context, &labels, found)?;
    check_subtasks(context, network, found)?;
    check_order(context, place, network, found)?;
    Ok(())
}
