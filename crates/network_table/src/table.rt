//! Networks by numbers.
ghost use Rattle.std.specs.Prelude.{◌≡◌, ◌<◌, ◌≤◌, ◌↔◌, ◌+◌, ◌-◌, ◌^◌, [], ℕ, All, List, IfNone, IfOk, IfSome, OnOk, get_or, length, map, min, set, None, Some};
ghost use Rattle.std.specs.List.{sum_by};
ghost use Rattle.std.specs.Option.{option_map};
ghost use Rattle.htn_model.specs.Problem as model;
ghost use Rattle.htn_model.specs.Problem.{is_before, task};
ghost use Rattle.htn_model.specs.Choice.{child_of, first_free_compound};
ghost use Rattle.htn_ground.specs.Views.{child_view, children_of};
ghost use Rattle.network_table.specs.Children.{AreBounds, AreNumbers, AreWhole, IsNumber, numbered_children};
ghost use Rattle.network_table.specs.Numbered.{IsWithin};
ghost use Rattle.network_table.specs.Networks.{bound_of, children, expansion_at, IsGrown, IsMore, IsNumberOf, IsWhole, Knows, network_at, numbered_at};
ghost use Rattle.network_table.specs.Entries.{chain_before, Fits, IsChain, IsEntryAt, network_by};
ghost use Rattle.network_table.specs.Expansions.{IsSound, Live};

use crate::child_table::ChildTable;
use crate::expansion::Expansion;
use crate::network::Network;
use crate::network_set::{Entry, Link, NetworkSet};
use htn_ground::Child;
use htn_order::Order;
use std::alloc::{AllocError, Global};

/// Networks with numbers, each with its count of nodes, a lower bound on the steps that it takes, and its expansion
/// once it is found.
pub struct NetworkTable {
    pub(crate) children: ChildTable,
    pub(crate) networks: NetworkSet,
    pub(crate) open_lens: Vec<u64>,
    pub(crate) bounds: Vec<u64>,
    pub(crate) expansions: Vec<Option<Expansion>>,
}

impl Drop for NetworkTable {
    fn drop(self) {
        let NetworkTable {
            children: _,
            networks: _,
            open_lens: _,
            bounds: _,
            expansions: _,
        } = self;
    }
}

/// A place as a number, if a word of 32 bits holds it. A place past them is no number: to add a network there is an
/// error.
fn number_at(place: Option<usize>) -> Option<u32>
    ensures some { IfSome result (λ n. place ≡ Some n) }
    ensures none { IfNone result ((n : ℕ) → n < 2 ^ 32 → place ≡ Some n → ⊥) }
{
    u32::try_from(place?).ok()
}

/// The sum of the bounds of a network's nodes.
pub(crate) fn sum_bounds(children: &ChildTable, network: &Network) -> u64
    requires whole { AreWhole children.now }
    requires within { IsWithin (numbered_children children.now) network.now }
    ensures { result ≡ bound_of children.now network.now }
{
    let mut sum = 0u64;
    for id in network.nodes() {
        sum = sum.saturating_add(u64::from(children.bound(*id)));
    }
    sum
}

impl NetworkTable {
    /// The table of no network.
    pub fn new(alloc: Global) -> Result<NetworkTable, AllocError>
        ensures whole { IfOk result IsWhole }
        ensures bounds { IfOk result (λ t. (measure : model.Child → ℕ) → AreBounds measure t.children) }
        ensures sound { IfOk result (λ t. (live : Live) → IsSound live t) }
        ensures none { IfOk result (λ t. (n : ℕ) → expansion_at t n ≡ None) }
        ensures empty { IfOk result (λ t. t.networks ≡ []) }
    {
        let networks = NetworkSet::new(alloc);
        Ok(NetworkTable {
            children: ChildTable::new(alloc),
            networks,
            open_lens: Vec::new(alloc),
            bounds: Vec::new(alloc),
            expansions: Vec::new(alloc),
        })
    }

    /// The number of networks.
    pub fn len(&self) -> usize
        ensures { result ≡ length self.now.networks }
    {
        self.networks.len()
    }

    /// The entry of the network of a number.
    pub fn entry(&self, number: u32) -> &Entry
        requires { Knows self.now number }
        ensures entry { IsEntryAt self.now.networks number result.now }
        // Each node of a chain has a number of its own.
        ensures short { IsChain (numbered_at self.now number) → length (numbered_at self.now number).nodes ≤ number }
    {
        self.networks.entry(number as usize)
    }

    /// A copy of the network of a number.
    pub fn network(&self, alloc: Global, number: u32) -> Result<Network, AllocError>
        requires { Knows self.now number }
        ensures { IfOk result (λ n. n ≡ numbered_at self.now number) }
    {
        match self.entry(number) {
            Entry::Whole(network) => network.clone(),
            Entry::Chain(_) => self.chain(alloc, number),
        }
    }

    /// A copy of a totally ordered network.
    fn chain(&self, alloc: Global, number: u32) -> Result<Network, AllocError>
        requires known { Knows self.now number }
        requires chain { IsChain (numbered_at self.now number) }
        ensures { IfOk result (λ n. n ≡ numbered_at self.now number) }
    {
        let mut nodes = Vec::new(alloc);
        let mut at = number;
        while let Entry::Chain(link) = self.entry(at) {
            nodes.push(link.first)?;
            at = link.rest;
        }
        let order = Order::chain(nodes.len());
        Ok(Network::new(nodes, order))
    }

    /// The nodes in the order of their numbers.
    pub fn children(&self) -> &[Child]
        ensures { children_of result.now ≡ children self.now }
    {
        self.children.children()
    }

    /// The node of a number.
    pub fn child(&self, id: u32) -> &Child
        requires { id < length (children self.now) }
        ensures { child_view result.now ≡ child_of (children self.now) id }
    {
        self.children.child(id)
    }

    /// The number of a node, if it has one that a word of 32 bits holds. It takes no memory.
    pub fn number_of_child(&self, child: &Child) -> Option<u32>
        ensures some { IfSome result (λ id. IsNumber self.now.children id (child_view child.now)) }
        ensures none { IfNone result ((id : ℕ) → id < 2 ^ 32 → IsNumber self.now.children id (child_view child.now) → ⊥) }
    {
        self.children.number_of(child)
    }

    /// The count of nodes of the network of a number.
    pub fn open_len(&self, number: u32) -> u64
        requires whole { IsWhole self.now }
        requires known { Knows self.now number }
        ensures { result ≡ length (network_at self.now number).children }
    {
        self.open_lens[number as usize]
    }

    /// The sum of the bounds of the network's nodes.
    pub fn bound(&self, number: u32) -> u64
        requires whole { IsWhole self.now }
        requires known { Knows self.now number }
        ensures value { result ≡ bound_of self.now.children (numbered_at self.now number) }
        // Where the nodes' bounds are a lower measure, this is its sum, as far as a word holds it.
        ensures measured { (measure : model.Child → ℕ) → AreBounds measure self.now.children
            → result ≡ min (sum_by measure (network_at self.now number).children) (2 ^ 64 - 1) }
    {
        self.bounds[number as usize]
    }

    /// The expansion of the network of a number, once it is found.
    pub fn expansion(&self, number: u32) -> Option<&Expansion>
        requires whole { IsWhole self.now }
        requires known { Knows self.now number }
        ensures { option_map (λ e. e.now) result ≡ expansion_at self.now number }
    {
        self.expansions[number as usize].as_ref()
    }

    /// The number of a network, if it has one that a word of 32 bits holds and is no chain; and the network itself,
    /// which is moved in since a set is asked for an entry. It takes no memory.
    pub(crate) fn number_of(&self, network: Network) -> (Option<u32>, Network)
        requires { IsWhole self.now }
        ensures some { IfSome result.0 (λ n. IsNumberOf self.now n network) }
        ensures none { IfNone result.0 ((n : ℕ) → n < 2 ^ 32 → IsNumberOf self.now n network → IsChain network) }
        ensures network { result.1 ≡ network }
    {
        let entry = Entry::Whole(network);
        let place = self.networks.place_of(&entry);
        let Entry::Whole(network) = entry else {
            unreachable!()
        };
        (number_at(place), network)
    }

    /// The count of nodes of the network at a place, where that of those before it is known.
    fn count_open(&self, place: usize) -> u64
        requires placed { place < length self.now.networks }
        requires known { (n : ℕ) → n < place → (n < length self.now.open_lens.items)
            × (get_or self.now.open_lens.items n 0 ≡ length (numbered_at self.now n).nodes) }
        ensures { result ≡ length (numbered_at self.now place).nodes }
    {
        match self.networks.entry(place) {
            Entry::Chain(link) => self.open_lens[link.rest as usize] + 1,
            Entry::Whole(network) => network.nodes().len() as u64,
        }
    }

    /// The sum of the bounds of the nodes of the network at a place, where that of those before it is known.
    fn sum_open(&self, place: usize) -> u64
        requires placed { place < length self.now.networks }
        requires known { (n : ℕ) → n < place → (n < length self.now.bounds.items)
            × (get_or self.now.bounds.items n 0 ≡ bound_of self.now.children (numbered_at self.now n)) }
        requires whole { AreWhole self.now.children }
        requires within { IsWithin (children self.now) (numbered_at self.now place) }
        ensures { result ≡ bound_of self.now.children (numbered_at self.now place) }
    {
        match self.networks.entry(place) {
            Entry::Chain(link) => {
                let first = u64::from(self.children.bound(link.first));
                self.bounds[link.rest as usize].saturating_add(first)
            }
            Entry::Whole(network) => sum_bounds(&self.children, network),
        }
    }

    /// The number of the network of an entry; a new one if it has none.
    fn keep_entry(&mut self, entry: Entry) -> Result<u32, AllocError>
        requires whole { IsWhole self.old }
        requires fits { Fits self.old.networks entry }
        requires within { IsWithin (children self.old) (network_by self.old.networks entry) }
        ensures whole { OnOk result (IsWhole self.new) }
        ensures more { OnOk result (IsMore self.old self.new) }
        ensures number { IfOk result (λ n. IsNumberOf self.new n (network_by self.old.networks entry)) }
        ensures sound { OnOk result ((live : Live) → IsSound live self.old → IsSound live self.new) }
    {
        let (place, is_new) = self.networks.insert(entry)?;
        // At most 2^32 networks have numbers. Past them a search answers `OutOfMemory` although no memory was
        // refused. Three lists alone hold more than 16 bytes for each: that many networks take more than 64 GB.
        let Ok(number) = u32::try_from(place) else {
            return Err(AllocError);
        };
        if !is_new {
            return Ok(number);
        }
        let open_len = self.count_open(place);
        let bound = self.sum_open(place);
        self.open_lens.push(open_len)?;
        self.bounds.push(bound)?;
        self.expansions.push(None)?;
        Ok(number)
    }

    /// The number of a chain of these nodes before those of a chain that has a number; a new one if it has none.
    pub(crate) fn keep_before(&mut self, nodes: &[u32], rest: u32) -> Result<u32, AllocError>
        requires whole { IsWhole self.old }
        requires known { Knows self.old rest }
        requires chain { IsChain (numbered_at self.old rest) }
        requires within { All (λ id. id < length (children self.old)) nodes.now }
        ensures whole { OnOk result (IsWhole self.new) }
        ensures more { OnOk result (IsMore self.old self.new) }
        ensures number { IfOk result (λ n. IsNumberOf self.new n (chain_before nodes.now (numbered_at self.old rest))) }
        ensures sound { OnOk result ((live : Live) → IsSound live self.old → IsSound live self.new) }
    {
        let mut number = rest;
        for at in (0..nodes.len()).rev() {
            let link = Link {
                first: nodes[at],
                rest: number,
            };
            number = self.keep_entry(Entry::Chain(link))?;
        }
        Ok(number)
    }

    /// The number of a network; a new one if it has none.
    pub fn keep(&mut self, network: Network) -> Result<u32, AllocError>
        requires whole { IsWhole self.old }
        requires within { IsWithin (children self.old) network }
        ensures whole { OnOk result (IsWhole self.new) }
        ensures more { OnOk result (IsMore self.old self.new) }
        ensures number { IfOk result (λ n. IsNumberOf self.new n network) }
        ensures sound { OnOk result ((live : Live) → IsSound live self.old → IsSound live self.new) }
    {
        if !network.is_chain() {
            return self.keep_entry(Entry::Whole(network));
        }
        let nodes = network.into_nodes();
        let none = Network::empty(*nodes.allocator());
        let end = self.keep_entry(Entry::Whole(none))?;
        let number = self.keep_before(nodes.as_slice(), end)?;
        Ok(number)
    }

    /// The number of a node; a new one, with this bound, if it has none.
    pub fn keep_child(&mut self, child: Child, bound: u32) -> Result<u32, AllocError>
        requires { IsWhole self.old }
        ensures whole { OnOk result (IsWhole self.new) }
        ensures grown { OnOk result (IsGrown self.old self.new) }
        ensures number { IfOk result (λ id. IsNumber self.new.children id (child_view child)) }
        ensures bounds { OnOk result ((measure : model.Child → ℕ) → measure (child_view child) ≡ bound
            → AreBounds measure self.old.children → AreBounds measure self.new.children) }
        ensures sound { OnOk result ((live : Live) → IsSound live self.old → IsSound live self.new) }
        ensures remembered { OnOk result ((n : ℕ) → expansion_at self.new n ≡ expansion_at self.old n) }
    {
        let id = self.children.keep(child, bound)?;
        Ok(id)
    }

    /// The numbers of nodes in their order, new ones for those that have none, each with its bound.
    pub fn keep_children(
        &mut self,
        alloc: Global,
        nodes: &[Child],
        bounds: &[u32],
    ) -> Result<Vec<u32>, AllocError>
        requires whole { IsWhole self.old }
        requires bounded { length bounds.now ≡ length nodes.now }
        ensures whole { OnOk result (IsWhole self.new) }
        ensures grown { OnOk result (IsGrown self.old self.new) }
        ensures numbers { IfOk result (λ ids. AreNumbers self.new.children ids.items (children_of nodes.now)) }
        ensures bounds { OnOk result ((measure : model.Child → ℕ) → bounds.now ≡ map measure (children_of nodes.now)
            → AreBounds measure self.old.children → AreBounds measure self.new.children) }
        ensures sound { OnOk result ((live : Live) → IsSound live self.old → IsSound live self.new) }
        ensures remembered { OnOk result ((n : ℕ) → expansion_at self.new n ≡ expansion_at self.old n) }
    {
        let mut ids = Vec::with_capacity(alloc, nodes.len())?;
        for (place, node) in nodes.iter().enumerate() {
            ids.push(self.keep_child(node.clone()?, bounds[place])?)?;
        }
        Ok(ids)
    }

    /// Stores the expansion of the network of a number.
    pub(crate) fn remember(&mut self, number: u32, expansion: Expansion)
        requires whole { IsWhole self.old }
        requires known { Knows self.old number }
        ensures children { self.new.children ≡ self.old.children }
        ensures networks { self.new.networks ≡ self.old.networks }
        ensures open_lens { self.new.open_lens ≡ self.old.open_lens }
        ensures bounds { self.new.bounds ≡ self.old.bounds }
        ensures expansions { self.new.expansions.items ≡ set self.old.expansions.items number (Some expansion) }
    {
        self.expansions[number as usize] = Some(expansion);
    }
}
