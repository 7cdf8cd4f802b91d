//! The needs of a network, derived from the wants of its nodes.
ghost use Rattle.std.specs.Prelude.{◌≡◌, ◌<◌, ◌&&◌, All, cond, ℕ, List, true, OnOk, length};
ghost use Rattle.htn_model.specs.Choice.{child_of};
ghost use Rattle.htn_model.specs.Literal as model;
ghost use Rattle.htn_model.specs.Literal.{holds};
ghost use Rattle.htn_model.specs.Problem as problem;
ghost use Rattle.heuristics.specs.Needs.{needed, needed_at, needed_goal};
ghost use Rattle.heuristics.specs.Places.{AreGiven, ArePlaces};
ghost use Rattle.heuristics.specs.Rows.{outlook_of, row_of, wants_by};
ghost use Rattle.heuristics.specs.declared.needs.Needs.{Needs as KnownNeeds};
ghost use Rattle.network_table.specs.Networks.{children};
ghost use Rattle.network_table.specs.Numbered.{network_of};
ghost use Rattle.network_table.specs.declared.table.NetworkTable.{NetworkTable as Networks};
ghost use Rattle.state_table.specs.Compiled.{all_hold, is_met};
ghost use Rattle.state_table.specs.Table.{IsLater, state_of, Table};
ghost use Rattle.heuristics.specs.StoredNeeds.{AreNodes, AreWants};

use crate::given::Given;
use crate::needs::Needs;
use crate::node::Node;
use crate::places::Place;
use crate::prospects::Prospects;
use crate::wants::Want;
use htn_order::Order;
use network_table::Network;
use state_table::{CompiledLiteral, CompiledLiterals};
use std::alloc::AllocError;

/// Adds a literal to others, if the flag says so.
fn push_if(
    found: &mut CompiledLiterals,
    literal: CompiledLiteral,
    is_kept: bool,
) -> Result<(), AllocError>
    ensures { OnOk result ((words : List ℕ)
        → all_hold words found.new ≡ (all_hold words found.old && cond is_kept (is_met words literal) true)) }
{
    if !is_kept {
        return Ok(());
    }
    found.push(literal)?;
    Ok(())
}

/// Adds the needs of a network for the node at a position: the literals that this node wants and that no other node,
/// unless it comes after this one, gives.
pub(crate) fn push_needed_at(
    found: &mut CompiledLiterals,
    needs: &Needs,
    places: &[Place],
    given: &Given,
    order: &Order,
    at: usize,
    wants: &[Want],
) -> Result<(), AllocError>
    requires { at < length places.now }
    ensures { OnOk result ((n : problem.Network) (atoms later : Table) (words : List ℕ)
        → ArePlaces needs.now places.now n → AreGiven needs.now n given.now → order.now ≡ n.order
        → AreWants needs.now atoms wants.now (wants_by (row_of needs.now (child_of n.children at)))
        → IsLater atoms later
        → all_hold words found.new
        ≡ (all_hold words found.old && holds (state_of later words) (needed_at (outlook_of needs.now) n at))) }
{
    for want in wants {
        let is_kept = needs.is_ungiven_at(places, given, order, want.number, at);
        push_if(found, want.literal, is_kept)?;
    }
    Ok(())
}

/// Adds the needs of a network for its nodes.
pub(crate) fn push_needed(
    found: &mut CompiledLiterals,
    prospects: &Prospects,
    nodes: &[Node],
    places: &[Place],
    given: &Given,
    network: &Network,
) -> Result<(), AllocError>
    requires within { All (λ id. id < length nodes.now) network.now.nodes }
    requires places { length places.now ≡ length network.now.nodes }
    ensures { OnOk result ((networks : Networks) (atoms later : Table) (words : List ℕ)
        → ArePlaces prospects.now.needs places.now (network_of (children networks) network.now)
        → AreGiven prospects.now.needs (network_of (children networks) network.now) given.now
        → AreNodes prospects.now atoms networks nodes.now → IsLater atoms later
        → all_hold words found.new
        ≡ (all_hold words found.old
        && holds (state_of later words) (needed (outlook_of prospects.now.needs) (network_of (children networks) network.now)))) }
{
    let needs = &prospects.needs;
    let ids = network.nodes();
    for at in 0..ids.len() {
        let id = ids[at];
        let node = &nodes[id as usize];
        push_needed_at(
            found,
            needs,
            places,
            given,
            network.order(),
            at,
            &node.wants,
        )?;
    }
    Ok(())
}

/// Adds the needs of a network for a goal: the literals of the goal that no node gives.
pub(crate) fn push_needed_goal(
    found: &mut CompiledLiterals,
    given: &Given,
    goals: &[Want],
) -> Result<(), AllocError>
    ensures { OnOk result ((needs : KnownNeeds) (n : problem.Network) (goal : List model.Literal) (atoms later : Table)
        (words : List ℕ)
        → AreGiven needs n given.now → AreWants needs atoms goals.now goal → IsLater atoms later
        → all_hold words found.new
        ≡ (all_hold words found.old && holds (state_of later words) (needed_goal (outlook_of needs) goal n))) }
{
    for want in goals {
        let is_kept = !given.has(want.number);
        push_if(found, want.literal, is_kept)?;
    }
    Ok(())
}
