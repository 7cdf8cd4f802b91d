//! Nodes by number, with their wants and the places of their rows.
ghost use Rattle.std.specs.Prelude.{◌≡◌, ◌<◌, All, IfOk, OnOk, length};
ghost use Rattle.htn_ground.specs.Views.{child_view};
ghost use Rattle.heuristics.specs.Needs.{has_blocked};
ghost use Rattle.heuristics.specs.Places.{ArePlaces};
ghost use Rattle.network_table.specs.Networks.{children};
ghost use Rattle.network_table.specs.Numbered.{network_of};
ghost use Rattle.network_table.specs.declared.table.NetworkTable.{NetworkTable as Networks};
ghost use Rattle.state_table.specs.Table.{IsLater, Table};
ghost use Rattle.heuristics.specs.StoredNeeds.{AreNodes, IsNode};
ghost use Rattle.heuristics.specs.Prospects.{outlook_by};
ghost use Rattle.heuristics.specs.declared.prospects.Prospects.{Prospects as Known};

use crate::places::Place;
use crate::prospects::Prospects;
use crate::wants::{Want, wants_of};
use htn_ground::Child;
use network_table::Network;
use state_table::AtomTable;
use std::alloc::{AllocError, Global};

/// The place of a node's row and its wants, found once for all networks that have the node.
#[derive(Drop)]
pub(crate) struct Node {
    pub(crate) place: Place,
    /// Nothing ever ends it.
    pub(crate) is_lost: bool,
    pub(crate) wants: Vec<Want>,
}

impl Node {
    /// The place of a node's row and its wants. Atoms without numbers get them.
    pub(crate) fn of(
        alloc: Global,
        prospects: &Prospects,
        atoms: &mut AtomTable,
        child: &Child,
    ) -> Result<Node, AllocError>
        ensures later { OnOk result (IsLater atoms.old atoms.new) }
        ensures known { IfOk result (λ node. IsNode prospects.now atoms.new node (child_view child.now)) }
    {
        let _count = atoms.len();
        let needs = &prospects.needs;
        let place = needs.place(child);
        let is_lost = prospects.is_lost(child);
        let wants = wants_of(alloc, needs, atoms, needs.wants_at(place))?;
        Ok(Node {
            place,
            is_lost,
            wants,
        })
    }
}

/// The places of a network's nodes, in their order, from a list of nodes by number.
pub(crate) fn places_of(
    alloc: Global,
    nodes: &[Node],
    network: &Network,
) -> Result<Vec<Place>, AllocError>
    requires { All (λ id. id < length nodes.now) network.now.nodes }
    ensures len { IfOk result (λ v. length v.items ≡ length network.now.nodes) }
    ensures places { IfOk result (λ v. (known : Known) (atoms : Table) (networks : Networks)
        → AreNodes known atoms networks nodes.now
        → ArePlaces known.needs v.items (network_of (children networks) network.now)) }
{
    let ids = network.nodes();
    let mut places = Vec::with_capacity(alloc, ids.len())?;
    for id in ids {
        let node = &nodes[*id as usize];
        places.push(node.place)?;
    }
    Ok(places)
}

/// Whether nothing ever ends one of the nodes of a network.
pub(crate) fn has_lost(nodes: &[Node], network: &Network) -> bool
    requires { All (λ id. id < length nodes.now) network.now.nodes }
    ensures { (known : Known) (atoms : Table) (networks : Networks) → AreNodes known atoms networks nodes.now
        → result ≡ has_blocked (outlook_by known) (network_of (children networks) network.now) }
{
    let ids = network.nodes();
    for id in ids {
        let node = &nodes[*id as usize];
        if node.is_lost {
            return true;
        }
    }
    false
}
