//! The needs of chains, derived from those of their later nodes.
ghost use Rattle.std.specs.Prelude.{◌≡◌, ◌<◌, ◌&&◌, not, [], ◌∷◌, ◌++◌, ℕ, Bool, true, List, cond, get_or};
ghost use Rattle.std.specs.Prelude.{is_some, length, map, IfOk, OnOk};
ghost use Rattle.htn_model.specs.Choice.{child_of};
ghost use Rattle.htn_model.specs.Literal as model;
ghost use Rattle.htn_model.specs.Problem.{Child, Network};
ghost use Rattle.heuristics.specs.Chains.{IsChain, led_by};
ghost use Rattle.heuristics.specs.Places.{all_needed, row_at};
ghost use Rattle.heuristics.specs.Rows.{gives_by};
ghost use Rattle.network_table.specs.Networks.{children};
ghost use Rattle.network_table.specs.declared.table.NetworkTable.{NetworkTable as Networks};
ghost use Rattle.state_table.specs.Table.{IsTable, Table};
ghost use Rattle.heuristics.specs.StoredNeeds.{AreNodes, AreWants, IsNode};
ghost use Rattle.heuristics.specs.ListedNeeds.{AreChainsListed, AreListed, AreMoreWants};
ghost use Rattle.heuristics.specs.ListedNeeds.{is_in, IsListed, IsListedAt, left_of};
ghost use Rattle.heuristics.specs.Prospects.{outlook_by};
ghost use Rattle.heuristics.specs.declared.prospects.Prospects.{Prospects as Known};

use crate::needs::Needs;
use crate::needs_table::NeedsTable;
use crate::node::Node;
use crate::places::Place;
use crate::prospects::Prospects;
use crate::want_table::{WantTable, compiled_of, want_at};
use crate::wants::Want;
use state_table::CompiledLiterals;
use std::alloc::{AllocError, Global};

/// Whether an id is among others.
fn is_among(ids: &[u32], id: u32) -> bool
    ensures { result ≡ is_in ids.now id }
{
    ids.iter().any(|other| *other == id)
}

/// Adds an id to others, if the flag says so.
fn push_if(ids: &mut Vec<u32>, id: u32, is_kept: bool) -> Result<(), AllocError>
    ensures { OnOk result (ids.new.items ≡ ids.old.items ++ cond is_kept (id ∷ []) []) }
{
    if !is_kept {
        return Ok(());
    }
    ids.push(id)?;
    Ok(())
}

/// Whether a chain needs a want of its later nodes: its first node does not give the want, and does not want it itself.
fn is_left(needs: &Needs, place: Place, want: Want, own: &[u32], id: u32) -> bool
    ensures { result ≡ (not (gives_by (row_at needs.now place.spot) want.number) && not (is_in own.now id)) }
{
    !needs.gives_at(place, want.number) && !is_among(own, id)
}

/// The ids of the wants that the node of a place does not give and that are not among its own wants.
fn ungiven(
    alloc: Global,
    needs: &Needs,
    place: Place,
    wants: &[Want],
    own: &[u32],
    ids: &[u32],
) -> Result<Vec<u32>, AllocError>
    ensures { IfOk result (λ v. v.items ≡ left_of needs.now place.spot wants.now own.now ids.now) }
{
    let mut left = Vec::new(alloc);
    for id in ids {
        let is_kept = is_left(needs, place, want_at(wants, *id), own, *id);
        push_if(&mut left, *id, is_kept)?;
    }
    Ok(left)
}

/// The needs of a chain with a node before it, by the ids of wants, from the needs of the chain without that node.
pub(crate) fn needed_before(
    alloc: Global,
    prospects: &Prospects,
    table: &mut WantTable,
    node: &Node,
    rest: &[u32],
) -> Result<Vec<u32>, AllocError>
    ensures more { OnOk result (AreMoreWants table.old.wants.items table.new.wants.items) }
    ensures listed { IfOk result (λ ids. (goal : List model.Literal) (atoms : Table) (x : Child) (n : Network)
        → IsNode prospects.now atoms node.now x → IsChain n
        → AreListed prospects.now.needs atoms table.old.wants.items rest.now
        (all_needed (outlook_by prospects.now) goal n)
        → AreListed prospects.now.needs atoms table.new.wants.items ids.items
        (all_needed (outlook_by prospects.now) goal (led_by x n))) }
{
    let mut ids = table.ids_of(alloc, node.wants.as_slice())?;
    let wants = table.wants.as_slice();
    let mut left = ungiven(
        alloc,
        &prospects.needs,
        node.place,
        wants,
        ids.as_slice(),
        rest,
    )?;
    ids.append(&mut left)?;
    Ok(ids)
}

/// The ids of a network's needs, by the number of the network; none past the last network.
fn ids_at(lists: &[Vec<u32>], number: usize) -> &[u32]
    ensures { result.now ≡ get_or (map (λ ids. ids.items) lists.now) number [] }
{
    match lists.get(number) {
        Some(ids) => ids.as_slice(),
        None => &[],
    }
}

/// Whether needs are stored for the network of a number: no node of it is known never to end.
fn has_needs(needs: &[Option<CompiledLiterals>], number: usize) -> bool
    ensures { result ≡ is_some (get_or needs.now number None) }
{
    match needs.get(number) {
        Some(needed) => needed.is_some(),
        None => false,
    }
}

/// The needs of a chain as compiled literals and by the ids of wants; None where one of its nodes never ends.
#[derive(Drop)]
pub(crate) struct Chained {
    pub(crate) needed: Option<CompiledLiterals>,
    pub(crate) ids: Vec<u32>,
}

impl Chained {
    /// The needs of a chain with a node that never ends.
    fn never(alloc: Global) -> Chained
        ensures { result.needed ≡ None }
    {
        Chained {
            needed: None,
            ids: Vec::new(alloc),
        }
    }
}

impl NeedsTable {
    /// The needs of the network without nodes: all literals of the goal.
    pub(crate) fn needed_at_end(&mut self, alloc: Global) -> Result<Chained, AllocError>
        ensures listed { IfOk result (λ c. (known : Known) (atoms : Table) (n : Network) → n.children ≡ []
            → AreWants known.needs atoms self.old.goals.items self.old.goal
            → IsListed known self.old.goal atoms self.new.wanted.wants.items n c.needed c.ids.items) }
        ensures more { OnOk result (AreMoreWants self.old.wanted.wants.items self.new.wanted.wants.items) }
        ensures rest { OnOk result (self.new ≡ record self.old { wanted = self.new.wanted }) }
    {
        let ids = self.wanted.ids_of(alloc, self.goals.as_slice())?;
        let needed = compiled_of(alloc, self.wanted.wants.as_slice(), ids.as_slice())?;
        Ok(Chained {
            needed: Some(needed),
            ids,
        })
    }

    /// The needs of a chain that consists of a first node and a chain in the table, from the stored needs of the
    /// latter.
    pub(crate) fn needed_before(
        &mut self,
        alloc: Global,
        prospects: &Prospects,
        first: u32,
        rest: usize,
    ) -> Result<Chained, AllocError>
        requires { first < length self.old.nodes.items }
        ensures listed { IfOk result (λ c. (atoms : Table) (networks : Networks) (n : Network) → IsChain n
            → AreNodes prospects.now atoms networks self.old.nodes.items
            → IsListedAt prospects.now atoms self.old rest n
            → IsListed prospects.now self.old.goal atoms self.new.wanted.wants.items
            (led_by (child_of (children networks) first) n) c.needed c.ids.items) }
        ensures more { OnOk result (AreMoreWants self.old.wanted.wants.items self.new.wanted.wants.items) }
        ensures rest { OnOk result (self.new ≡ record self.old { wanted = self.new.wanted }) }
    {
        let node = &self.nodes[first as usize];
        if node.is_lost {
            return Ok(Chained::never(alloc));
        }
        if !has_needs(self.needs.as_slice(), rest) {
            return Ok(Chained::never(alloc));
        }
        let kept = ids_at(self.lists.as_slice(), rest);
        let ids = needed_before(alloc, prospects, &mut self.wanted, node, kept)?;
        let needed = compiled_of(alloc, self.wanted.wants.as_slice(), ids.as_slice())?;
        Ok(Chained {
            needed: Some(needed),
            ids,
        })
    }

    /// Stores the needs of the network of the next number, with the ids of its needs if it is a chain.
    pub(crate) fn keep_next(&mut self, found: Chained) -> Result<(), AllocError>
        ensures needs { OnOk result (self.new.needs.items ≡ self.old.needs.items ++ found.needed ∷ []) }
        ensures lists { OnOk result (self.new.lists.items ≡ self.old.lists.items ++ found.ids ∷ []) }
        ensures chains { OnOk result ((known : Known) (atoms : Table) (is_chain : ℕ → Bool) (network : ℕ → Network)
            → IsTable atoms → (is_chain (length self.old.needs.items) ≡ true
            → IsListed known self.old.goal atoms self.old.wanted.wants.items (network (length self.old.needs.items))
            found.needed found.ids.items)
            → AreChainsListed known atoms is_chain network self.old
            → AreChainsListed known atoms is_chain network self.new) }
        ensures rest { OnOk result (self.new ≡ record self.old { needs = self.new.needs; lists = self.new.lists }) }
    {
        let Chained { needed, ids } = found;
        self.needs.push(needed)?;
        self.lists.push(ids)?;
        Ok(())
    }
}
