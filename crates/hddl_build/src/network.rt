//! Task networks with their closed orders.
ghost use Rattle.std.specs.Prelude.{◌≡◌, ◌++◌, map, IfOk, OnOk};
ghost use Rattle.htn_model.specs.Problem.{IsSquare};
ghost use Rattle.htn_order.specs.Closure.{AreBelow, IsAcyclic, IsClosureOf, successors};
ghost use Rattle.hddl_meaning.specs.Building as building;
ghost use Rattle.hddl_meaning.specs.Building.{IsNetworkOf};
ghost use Rattle.hddl_meaning.specs.Networks.{IsOrderOf, order_pairs, pair_of, written_pairs};
ghost use Rattle.hddl_build.specs.Vocabularies.{IsNumbered};

use crate::labels::Labels;
use crate::scope::Scope;
use crate::term::{equality_of, subtask_of};
use hddl_names::Vocabulary;
use hddl_words::{EqualityText, NetworkText, SubtaskText};
use htn_order::{Order, OrderFault, close, close_chain};
use htn_task::{EqualitySchema, NetworkSchema, TaskSchema};
use std::alloc::{AllocError, Global};

/// Adds a pair of positions where both are known.
fn push_pair(
    pairs: &mut Vec<(usize, usize)>,
    before: Option<usize>,
    after: Option<usize>,
) -> Result<(), AllocError>
    ensures { OnOk result (pairs.new.items ≡ pairs.old.items ++ pair_of before after) }
{
    if let (Some(before), Some(after)) = (before, after) {
        pairs.push((before, after))?;
    }
    Ok(())
}

/// The pairs of positions that the orderings of a network give.
fn written_pairs(alloc: Global, network: &NetworkText) -> Result<Vec<(usize, usize)>, AllocError>
    ensures { IfOk result (λ pairs. pairs.items ≡ written_pairs network.now) }
{
    let labels = Labels::of(alloc, network.subtasks.as_slice())?;
    let mut pairs = Vec::new(alloc);
    for ordering in network.orderings.as_slice() {
        let before = labels.position_of(alloc, &ordering.before)?;
        let after = labels.position_of(alloc, &ordering.after)?;
        push_pair(&mut pairs, before, after)?;
    }
    Ok(pairs)
}

/// The order of a list that is ordered, with pairs of `:ordering`.
fn chain_of(size: usize, pairs: &[(usize, usize)]) -> Order
    requires below { AreBelow size pairs.now }
    requires acyclic { IsAcyclic (successors size ++ pairs.now) }
    ensures square { IsSquare size result }
    ensures closure { IsClosureOf (successors size ++ pairs.now) result }
{
    match close_chain(size, pairs) {
        Ok(order) => order,
        Err(_) => unreachable!(),
    }
}

/// The order of pairs.
fn closure_of(alloc: Global, size: usize, pairs: &[(usize, usize)]) -> Result<Order, AllocError>
    requires below { AreBelow size pairs.now }
    requires acyclic { IsAcyclic pairs.now }
    ensures square { IfOk result (IsSquare size) }
    ensures closure { IfOk result (IsClosureOf pairs.now) }
{
    match close(alloc, size, pairs) {
        Ok(order) => Ok(order),
        Err(OrderFault::Cycle(_)) => unreachable!(),
        Err(OrderFault::OutOfMemory) => Err(AllocError),
    }
}

/// The closed order that a network declares.
#[tactic(auto, using(crate::proofs::Pairs::written_below))]
fn order_of(alloc: Global, network: &NetworkText) -> Result<Order, AllocError>
    requires { IsAcyclic (order_pairs network.now) }
    ensures { IfOk result (IsOrderOf network.now) }
{
    let pairs = written_pairs(alloc, network)?;
    let size = network.subtasks.len();
    if network.is_ordered {
        let chain = chain_of(size, &pairs);
        return Ok(chain);
    }
    let order = closure_of(alloc, size, &pairs)?;
    Ok(order)
}

fn subtasks_of(
    alloc: Global,
    vocabulary: &Vocabulary,
    scope: &Scope<'_>,
    subtasks: &[SubtaskText],
) -> Result<Vec<TaskSchema>, AllocError>
    requires { IsNumbered vocabulary.now }
    ensures { IfOk result (λ found. found.items ≡ map (λ s. building.subtask_of vocabulary.now scope.now s.task) subtasks.now) }
{
    let mut found = Vec::with_capacity(alloc, subtasks.len())?;
    for subtask in subtasks {
        found.push(subtask_of(alloc, vocabulary, scope, &subtask.task)?)?;
    }
    Ok(found)
}

/// The subtasks of a network in declared order, and the closed order.
pub(crate) fn network_of(
    alloc: Global,
    vocabulary: &Vocabulary,
    scope: &Scope<'_>,
    network: &NetworkText,
) -> Result<NetworkSchema, AllocError>
    requires numbered { IsNumbered vocabulary.now }
    requires acyclic { IsAcyclic (order_pairs network.now) }
    ensures { IfOk result (IsNetworkOf vocabulary.now scope.now network.now) }
{
    let subtasks = subtasks_of(alloc, vocabulary, scope, network.subtasks.as_slice())?;
    let order = order_of(alloc, network)?;
    Ok(NetworkSchema::new(subtasks, order))
}

/// The equalities of `:constraints`.
pub(crate) fn constraints_of(
    alloc: Global,
    vocabulary: &Vocabulary,
    scope: &Scope<'_>,
    constraints: &[EqualityText],
) -> Result<Vec<EqualitySchema>, AllocError>
    requires { IsNumbered vocabulary.now }
    ensures { IfOk result (λ found. found.items ≡ map (building.equality_of vocabulary.now scope.now) constraints.now) }
{
    let mut found = Vec::with_capacity(alloc, constraints.len())?;
    for equality in constraints {
        found.push(equality_of(alloc, vocabulary, scope, equality)?)?;
    }
    Ok(found)
}
