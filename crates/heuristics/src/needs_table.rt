//! The needs of networks, by number.
ghost use Rattle.std.specs.Prelude.{◌≡◌, ◌<◌, ◌≤◌, ◌+◌, [], true, All, length, IfOk, OnOk};
ghost use Rattle.htn_model.specs.Problem as model;
ghost use Rattle.heuristics.specs.Needs.{may_end, Outlook};
ghost use Rattle.heuristics.specs.Prospects.{outlook_by};
ghost use Rattle.network_table.specs.Networks.{children, IsWhole, network_at};
ghost use Rattle.network_table.specs.Numbered.{config_at, network_of};
ghost use Rattle.network_table.specs.declared.table.NetworkTable.{NetworkTable as Networks};
ghost use Rattle.state_table.specs.Table.{IsLater, IsTable, state_of, Table};
ghost use Rattle.heuristics.specs.StoredNeeds.{AreAllKept, AreFirstWants, AreKept, AreNodes, AreWants, IsKept};
ghost use Rattle.heuristics.specs.ListedNeeds.{AreChainsOf, AreFollowed, AreMoreWants, AreNoted, IsListed, chain_at};

use crate::chained::Chained;
use crate::needed_literals::{push_needed, push_needed_goal};
use crate::needs::Needs;
use crate::node::{Node, has_lost, places_of};
use crate::prospects::Prospects;
use crate::want_table::WantTable;
use crate::wants::{Want, wants_of};
use htn_task::LiteralList;
use network_table::{Entry, Network, NetworkTable};
use state_table::{AtomTable, BitState, CompiledLiterals};
use std::alloc::{AllocError, Global};

/// The needs of each network of a table: the literals that have to hold initially, for its nodes and for a goal.
pub struct NeedsTable {
    pub(crate) goal: LiteralList,
    /// The goal's literals, compiled; empty until the table is first updated.
    pub(crate) goals: Vec<Want>,
    /// By the number of a node, the place of its row and its wants.
    pub(crate) nodes: Vec<Node>,
    /// By the number of a network, its needs; None where one of its nodes never ends.
    pub(crate) needs: Vec<Option<CompiledLiterals>>,
    /// The wants of nodes and of the goal, by ids.
    pub(crate) wanted: WantTable,
    /// By the number of a network, the ids of its needs if it is a chain.
    pub(crate) lists: Vec<Vec<u32>>,
}

impl Drop for NeedsTable {
    fn drop(self) {
        let NeedsTable {
            goal: _,
            goals: _,
            nodes: _,
            needs: _,
            wanted: _,
            lists: _,
        } = self;
    }
}

impl NeedsTable {
    /// The table of no network, for a goal.
    pub fn new(alloc: Global, goal: LiteralList) -> NeedsTable
        ensures goal { result.goal ≡ goal }
        ensures none { result.needs.items ≡ [] }
        ensures no_goals { result.goals.items ≡ [] }
        ensures no_nodes { result.nodes.items ≡ [] }
        ensures no_lists { result.lists.items ≡ [] }
    {
        NeedsTable {
            goal,
            goals: Vec::new(alloc),
            nodes: Vec::new(alloc),
            needs: Vec::new(alloc),
            wanted: WantTable::new(alloc),
            lists: Vec::new(alloc),
        }
    }

    /// The number of networks whose needs are stored.
    pub fn len(&self) -> usize
        ensures { result ≡ length self.now.needs.items }
    {
        self.needs.len()
    }

    /// Compiles the goal's literals, unless they are compiled already.
    pub(crate) fn keep_goal(
        &mut self,
        alloc: Global,
        needs: &Needs,
        atoms: &mut AtomTable,
    ) -> Result<(), AllocError>
        requires { AreFirstWants needs.now atoms.old self.old.goals.items self.old.goal }
        ensures later { OnOk result (IsLater atoms.old atoms.new) }
        ensures goals { OnOk result (AreWants needs.now atoms.new self.new.goals.items self.old.goal) }
        ensures rest { OnOk result (self.new ≡ record self.old { goals = self.new.goals }) }
    {
        let _count = atoms.len();
        let goal = self.goal.as_slice();
        let wanted = goal.len();
        let known = self.goals.len();
        if known >= wanted {
            return Ok(());
        }
        let wants = wants_of(alloc, needs, atoms, goal)?;
        self.goals = wants;
        Ok(())
    }

    /// Adds the row's place and the wants of each numbered node that the table does not have yet.
    pub(crate) fn keep_nodes(
        &mut self,
        alloc: Global,
        prospects: &Prospects,
        atoms: &mut AtomTable,
        networks: &NetworkTable,
    ) -> Result<(), AllocError>
        requires { AreNodes prospects.now atoms.old networks.now self.old.nodes.items }
        ensures later { OnOk result (IsLater atoms.old atoms.new) }
        ensures nodes { OnOk result (AreNodes prospects.now atoms.new networks.now self.new.nodes.items) }
        ensures all { OnOk result (length (children networks.now) ≤ length self.new.nodes.items) }
        ensures rest { OnOk result (self.new ≡ record self.old { nodes = self.new.nodes }) }
    {
        let _count = atoms.len();
        let children = networks.children();
        let first = self.nodes.len();
        for id in first..children.len() {
            let node = Node::of(alloc, prospects, atoms, &children[id])?;
            self.nodes.push(node)?;
        }
        Ok(())
    }

    /// The needs of a network, derived from its nodes; None where one of them never ends.
    pub(crate) fn needed_by(
        &self,
        alloc: Global,
        prospects: &Prospects,
        network: &Network,
    ) -> Result<Option<CompiledLiterals>, AllocError>
        requires { All (λ id. id < length self.now.nodes.items) network.now.nodes }
        ensures { IfOk result (λ needed. (atoms : Table) (networks : Networks)
            → AreNodes prospects.now atoms networks self.now.nodes.items
            → AreWants prospects.now.needs atoms self.now.goals.items self.now.goal
            → IsKept (outlook_by prospects.now) self.now.goal atoms (network_of (children networks) network.now) needed) }
    {
        let nodes = self.nodes.as_slice();
        if has_lost(nodes, network) {
            return Ok(None);
        }
        let needs = &prospects.needs;
        let kept = places_of(alloc, nodes, network)?;
        let places = kept.as_slice();
        let given = needs.given_at(alloc, places)?;
        let mut found = CompiledLiterals::none(alloc);
        push_needed(&mut found, prospects, nodes, places, &given, network)?;
        push_needed_goal(&mut found, &given, self.goals.as_slice())?;
        found.drop_repeats();
        Ok(Some(found))
    }

    /// The needs of the network of the next number, once all nodes and the goal are compiled. Those of a chain are
    /// derived from the needs of its rest.
    fn needed_of(
        &mut self,
        alloc: Global,
        prospects: &Prospects,
        networks: &NetworkTable,
        number: u32,
    ) -> Result<Chained, AllocError>
        requires whole { IsWhole networks.now }
        requires known { number < length networks.now.networks }
        requires next { number ≡ length self.old.needs.items }
        requires all { length (children networks.now) ≤ length self.old.nodes.items }
        ensures kept { IfOk result (λ c. (atoms : Table) → AreNodes prospects.now atoms networks.now self.old.nodes.items
            → AreWants prospects.now.needs atoms self.old.goals.items self.old.goal
            → AreChainsOf prospects.now atoms networks.now self.old
            → IsKept (outlook_by prospects.now) self.old.goal atoms (network_at networks.now number) c.needed) }
        ensures listed { IfOk result (λ c. (atoms : Table) → AreNodes prospects.now atoms networks.now self.old.nodes.items
            → AreWants prospects.now.needs atoms self.old.goals.items self.old.goal
            → AreChainsOf prospects.now atoms networks.now self.old → chain_at networks.now number ≡ true
            → IsListed prospects.now self.old.goal atoms self.new.wanted.wants.items (network_at networks.now number)
            c.needed c.ids.items) }
        ensures more { OnOk result (AreMoreWants self.old.wanted.wants.items self.new.wanted.wants.items) }
        ensures rest { OnOk result (self.new ≡ record self.old { wanted = self.new.wanted }) }
    {
        match networks.entry(number) {
            Entry::Chain(link) => {
                let found = self.needed_before(alloc, prospects, link.first, link.rest as usize)?;
                Ok(found)
            }
            Entry::Whole(network) if network.nodes().is_empty() => {
                let found = self.needed_at_end(alloc)?;
                Ok(found)
            }
            Entry::Whole(network) => {
                let needed = self.needed_by(alloc, prospects, network)?;
                let ids = Vec::new(alloc);
                Ok(Chained { needed, ids })
            }
        }
    }

    /// Stores the needs of the network of the next number, once all nodes and the goal are compiled.
    fn keep_number(
        &mut self,
        alloc: Global,
        prospects: &Prospects,
        networks: &NetworkTable,
        number: usize,
    ) -> Result<(), AllocError>
        requires whole { IsWhole networks.now }
        requires known { number < length networks.now.networks }
        requires next { number ≡ length self.old.needs.items }
        requires all { length (children networks.now) ≤ length self.old.nodes.items }
        ensures followed { OnOk result (AreFollowed prospects.now networks.now self.old self.new) }
        ensures count { OnOk result (length self.new.needs.items ≡ number + 1) }
    {
        // This never fails in a search: the table of networks gives no number past 32 bits.
        let Ok(id) = u32::try_from(number) else {
            return Err(AllocError);
        };
        let found = self.needed_of(alloc, prospects, networks, id)?;
        self.keep_next(found)?;
        Ok(())
    }

    /// Stores the needs of each network whose number is below an end and that has none yet, once all nodes and the goal
    /// are compiled.
    pub(crate) fn keep_until(
        &mut self,
        alloc: Global,
        prospects: &Prospects,
        networks: &NetworkTable,
        end: usize,
    ) -> Result<(), AllocError>
        requires whole { IsWhole networks.now }
        requires end { end ≤ length networks.now.networks }
        requires all { length (children networks.now) ≤ length self.old.nodes.items }
        ensures followed { OnOk result (AreFollowed prospects.now networks.now self.old self.new) }
        ensures count { OnOk result (end ≤ length self.new.needs.items) }
    {
        for number in self.needs.len()..end {
            self.keep_number(alloc, prospects, networks, number)?;
        }
        Ok(())
    }

    /// Stores the needs of each network of the table that has none yet.
    pub fn keep_up(
        &mut self,
        alloc: Global,
        prospects: &Prospects,
        atoms: &mut AtomTable,
        networks: &NetworkTable,
    ) -> Result<(), AllocError>
        requires whole { IsWhole networks.now }
        requires kept { AreKept (outlook_by prospects.now) atoms.old networks.now self.old }
        requires noted { AreNoted prospects.now atoms.old networks.now self.old }
        ensures later { OnOk result (IsLater atoms.old atoms.new) }
        ensures kept { OnOk result (AreAllKept (outlook_by prospects.now) atoms.new networks.now self.new) }
        ensures noted { OnOk result (AreNoted prospects.now atoms.new networks.now self.new) }
        ensures goal { OnOk result (self.new.goal ≡ self.old.goal) }
    {
        self.keep_goal(alloc, &prospects.needs, atoms)?;
        self.keep_nodes(alloc, prospects, atoms, networks)?;
        let _count = atoms.len();
        self.keep_until(alloc, prospects, networks, networks.len())?;
        Ok(())
    }

    /// Whether a configuration may end: its network, given by number, has no node that never ends, and each literal
    /// that the network needs holds in the state. It takes no memory.
    pub fn may_end(&self, number: u32, state: &BitState) -> bool
        requires { number < length self.now.needs.items }
        ensures { (problem : model.Problem) (o : Outlook) (atoms : Table) (networks : Networks) → IsTable atoms
            → AreKept o atoms networks self.now → self.now.goal ≡ problem.goal
            → result ≡ may_end problem o (config_at (state_of atoms state.now) (network_at networks number)) }
    {
        match &self.needs[number as usize] {
            Some(needed) => needed.hold(state),
            None => false,
        }
    }
}
