//! Whether the rules of calls are those of their nodes.
ghost use Rattle.std.specs.Prelude.{◌≡◌, IfOk, IsTrue, Some, map, slice_get};
ghost use Rattle.call_nodes.specs.Nodes.{AreNodes};
ghost use Rattle.call_proof.specs.Meaning.{ArePerformed, AreRules, AreRulesAt, AreRulesInto, IsCarriedOut};
ghost use Rattle.htn_model.specs.Task as tasks;

use call_nodes::{CallNodes, Operator};
use call_table::{CallTable, Rule, Site};
use state_table::BitState;
use std::alloc::AllocError;

/// Whether a number is that of a state.
fn is_state(nodes: &CallNodes<'_>, number: u32, state: &BitState) -> bool
    ensures { IsTrue result → slice_get nodes.now.states number ≡ Some state.now }
{
    match nodes.states().get(number as usize) {
        Some(known) => known == state,
        None => false,
    }
}

/// Whether the one rule leads to this state, with nothing left to do.
fn is_rule_into(nodes: &CallNodes<'_>, rules: &[Rule], after: &BitState) -> bool
    ensures { IsTrue result → AreRulesInto nodes.now.lists nodes.now.states rules.now (Some after.now) }
{
    if rules.len() != 1 {
        return false;
    }
    match nodes.lists().link(rules[0].blocks) {
        Some(_) => false,
        None => is_state(nodes, rules[0].state, after),
    }
}

/// Whether the rules lead to lists, in their order, and leave the state as it is.
fn are_instances(rules: &[Rule], state: u32, lists: &[u32]) -> bool
    ensures { IsTrue result → rules.now ≡ map (λ l. record { state = state; blocks = l }) lists.now }
{
    if rules.len() != lists.len() {
        return false;
    }
    for k in 0..rules.len() {
        if rules[k].state != state || rules[k].blocks != lists[k] {
            return false;
        }
    }
    true
}

/// Whether these are the rules of a step or an action in a state.
fn are_performed(nodes: &CallNodes<'_>, site: &Site, rules: &[Rule]) -> Result<bool, AllocError>
    ensures { IfOk result (λ b. IsTrue b → (t : tasks.Task) → AreNodes t nodes.now
        → ArePerformed nodes.now t site.now.state site.now.number rules.now) }
{
    match nodes.after(site.number, site.state)? {
        None => Ok(rules.is_empty()),
        Some(after) => Ok(is_rule_into(nodes, rules, &after)),
    }
}

/// Whether the operator is that of a step or an action.
fn is_carried_out(operator: &Operator) -> bool
    ensures { IsTrue result → IsCarriedOut operator.now }
{
    match operator {
        Operator::Step(_) => true,
        Operator::Action(_) => true,
        Operator::Never => true,
        Operator::Task(_) => false,
        Operator::Unlisted => false,
        Operator::Partly => false,
    }
}

/// Whether these are the rules of a node in a state.
fn are_rules_at(nodes: &CallNodes<'_>, site: &Site, rules: &[Rule]) -> Result<bool, AllocError>
    ensures { IfOk result (λ b. IsTrue b → (t : tasks.Task) → AreNodes t nodes.now
        → AreRulesAt nodes.now t site.now.state site.now.number rules.now) }
{
    if site.state as usize >= nodes.states().len() {
        return Ok(false);
    }
    let Some(operator) = nodes.operator(site.number) else {
        return Ok(false);
    };
    if is_carried_out(operator) {
        let are_own = are_performed(nodes, site, rules)?;
        return Ok(are_own);
    }
    match operator {
        Operator::Task(lists) => Ok(are_instances(rules, site.state, lists.as_slice())),
        _ => Ok(false),
    }
}

/// Whether the rules of each call are those of its node in its state.
pub(crate) fn are_rules(nodes: &CallNodes<'_>, table: &CallTable) -> Result<bool, AllocError>
    ensures { IfOk result (λ b. IsTrue b → (t : tasks.Task) → AreNodes t nodes.now → AreRules nodes.now t table.now) }
{
    for k in 0..table.calls.len() {
        let Some((site, call)) = table.calls.get_index(k) else {
            return Ok(false);
        };
        if !are_rules_at(nodes, site, call.rules.as_slice())? {
            return Ok(false);
        }
    }
    Ok(true)
}
