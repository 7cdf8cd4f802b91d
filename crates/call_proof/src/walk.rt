//! Whether a word goes a least way, by the values of a proposal.
ghost use Rattle.std.specs.Prelude.{◌≡◌, ◌+◌, ◌++◌, IfOk, IfSome, IsTrue, Some, slice_get, true};
ghost use Rattle.call_proof.specs.Ways.{AreLeft, AreListsLeft, AreLonger, IsBoundedWay, IsBoundedWord, IsRankedRule, IsRankedStep};
ghost use Rattle.call_table.specs.Lists.{list_at};

use crate::proposal::Proposal;
use call_nodes::CallNodes;
use call_table::{Rule, Site, value_of};
use std::alloc::{AllocError, Global};

/// How many steps are left at least of a list in a state, by the values.
fn steps_left(nodes: &CallNodes<'_>, proposal: &Proposal, list: u32, state: u32) -> u64
    ensures { AreLeft nodes.now.lists proposal.now.table proposal.now.values result state
        (list_at nodes.now.lists list) }
{
    value_of(nodes.lists(), &proposal.values, list, state)
}

/// Whether a rule leads, with the nodes of a list behind, to where more steps than these are left. The sizes of both
/// lists may show it without the value of both together.
fn is_longer(
    alloc: Global,
    nodes: &CallNodes<'_>,
    proposal: &Proposal,
    rule: &Rule,
    rest: u32,
    left: u64,
) -> Result<bool, AllocError>
    ensures { IfOk result (λ b. IsTrue b → AreLeft nodes.now.lists proposal.now.table proposal.now.values (left + 1)
        rule.now.state (list_at nodes.now.lists rule.now.blocks ++ list_at nodes.now.lists rest)) }
{
    let lists = nodes.lists();
    let size = lists.nodes(rule.blocks).saturating_add(lists.nodes(rest));
    if left < size {
        return Ok(true);
    }
    let Some(number) = nodes.appended(alloc, rule.blocks, rest)? else {
        return Ok(false);
    };
    Ok(left < steps_left(nodes, proposal, number, rule.state))
}

/// Whether each of some rules leads, with the nodes of a list behind, to where more steps than these are left.
fn are_longer(
    alloc: Global,
    nodes: &CallNodes<'_>,
    proposal: &Proposal,
    rules: &[Rule],
    rest: u32,
    left: u64,
) -> Result<bool, AllocError>
    ensures { IfOk result (λ b. IsTrue b
        → AreLonger nodes.now.lists proposal.now.table proposal.now.values rules.now rest left) }
{
    for rule in rules {
        if !is_longer(alloc, nodes, proposal, rule, rest, left)? {
            return Ok(false);
        }
    }
    Ok(true)
}

/// Where a rule leads, with the nodes of a list behind; none where both lists together have no number.
fn site_after(
    alloc: Global,
    nodes: &CallNodes<'_>,
    rule: &Rule,
    rest: u32,
) -> Result<Option<Site>, AllocError>
    ensures { IfOk result (λ o. IfSome o (λ next. (rule.now.state ≡ next.state)
        × (list_at nodes.now.lists rule.now.blocks ++ list_at nodes.now.lists rest
        ≡ list_at nodes.now.lists next.number))) }
{
    match nodes.appended(alloc, rule.blocks, rest)? {
        Some(number) => Ok(Some(Site {
            state: rule.state,
            number,
        })),
        None => Ok(None),
    }
}

/// Where the rule of a rank of a call leads, with the nodes of a list behind, if each lesser rank leads to where more
/// steps than these are left; none also where both lists together have no number.
fn follow_rank(
    alloc: Global,
    nodes: &CallNodes<'_>,
    proposal: &Proposal,
    rules: &[Rule],
    rank: u64,
    rest: u32,
    left: u64,
) -> Result<Option<Site>, AllocError>
    ensures { IfOk result (λ o. IfSome o (λ next. IsRankedRule nodes.now.lists proposal.now.table proposal.now.values
        rules.now rest rank left (λ s ns. (s ≡ next.state) × (ns ≡ list_at nodes.now.lists next.number)))) }
{
    let place = rank as usize;
    let Some(rule) = rules.get(place) else {
        return Ok(None);
    };
    if !are_longer(alloc, nodes, proposal, &rules[..place], rest, left)? {
        return Ok(None);
    }
    let next = site_after(alloc, nodes, rule, rest)?;
    Ok(next)
}

/// Where a rank leads from a list in a state, if each lesser rank leads to where more steps than these are left.
fn after_rank(
    alloc: Global,
    nodes: &CallNodes<'_>,
    proposal: &Proposal,
    at: Site,
    rank: u64,
    left: u64,
) -> Result<Option<Site>, AllocError>
    ensures { IfOk result (λ o. IfSome o (λ next. IsRankedStep nodes.now.lists proposal.now.table proposal.now.values
        at.state (list_at nodes.now.lists at.number) rank left
        (λ s ns. (s ≡ next.state) × (ns ≡ list_at nodes.now.lists next.number)))) }
{
    let Some(link) = nodes.lists().link(at.number) else {
        return Ok(None);
    };
    let first = Site {
        state: at.state,
        number: link.first,
    };
    let Some(call) = proposal.table.calls.get(&first) else {
        return Ok(None);
    };
    let next = follow_rank(alloc, nodes, proposal, &call.rules, rank, link.rest, left)?;
    Ok(next)
}

/// Whether the goal holds in a state, by a list of all states.
fn is_end(ends: &[bool], state: u32) -> bool
    ensures { IsTrue result → slice_get ends.now state ≡ Some true }
{
    match ends.get(state as usize) {
        Some(end) => *end,
        None => false,
    }
}

/// Whether ranks lead from a list in a state to the empty list where the goal holds, and all along each lesser rank
/// takes more steps.
fn is_way(
    alloc: Global,
    nodes: &CallNodes<'_>,
    proposal: &Proposal,
    ends: &[bool],
    from: Site,
    ranks: &[u64],
) -> Result<bool, AllocError>
    ensures { IfOk result (λ b. IsTrue b → IsBoundedWay nodes.now.lists proposal.now.table proposal.now.values ends.now
        from.state (list_at nodes.now.lists from.number) ranks.now) }
{
    let mut at = from;
    for k in 0..ranks.len() {
        let left = (ranks.len() - 1 - k) as u64;
        let Some(next) = after_rank(alloc, nodes, proposal, at, ranks[k], left)? else {
            return Ok(false);
        };
        at = next;
    }
    match nodes.lists().link(at.number) {
        Some(_) => Ok(false),
        None => Ok(is_end(ends, at.state)),
    }
}

/// Whether each of some lists takes these steps at least from the first state.
fn are_left(nodes: &CallNodes<'_>, proposal: &Proposal, lists: &[u32], steps: u64) -> bool
    ensures { IsTrue result
        → AreListsLeft nodes.now.lists proposal.now.table proposal.now.values steps lists.now }
{
    for list in lists {
        if steps_left(nodes, proposal, *list, 0) < steps {
            return false;
        }
    }
    true
}

/// Whether a word begins at one of some lists in the first state, goes a least way from there, and no other list takes
/// fewer steps, nor one before it as few.
pub(crate) fn is_word(
    alloc: Global,
    nodes: &CallNodes<'_>,
    proposal: &Proposal,
    ends: &[bool],
    starts: &[u32],
    word: &[u64],
) -> Result<bool, AllocError>
    ensures { IfOk result (λ b. IsTrue b → IsBoundedWord nodes.now.lists proposal.now.table proposal.now.values ends.now
        starts.now word.now) }
{
    let Some((rank, ranks)) = word.split_first() else {
        return Ok(false);
    };
    let place = *rank as usize;
    if place >= starts.len() {
        return Ok(false);
    }
    if !are_left(nodes, proposal, starts, ranks.len() as u64) {
        return Ok(false);
    }
    if !are_left(nodes, proposal, &starts[..place], word.len() as u64) {
        return Ok(false);
    }
    let from = Site {
        state: 0,
        number: starts[place],
    };
    let leads = is_way(alloc, nodes, proposal, ends, from, ranks)?;
    Ok(leads)
}
