//! Networks, none of them twice, of which the totally ordered ones share their nodes.
ghost use Rattle.std.specs.Prelude.{◌≡◌, ◌<◌, ◌≤◌, ◌++◌, ◌∷◌, [], ℕ, List, All, Contains, IfNone, IfOk, IfSome, OnOk, cond, length, get_or, true};
ghost use Rattle.htn_model.specs.PlanFile.{IsWithoutRepeats};
ghost use Rattle.network_table.specs.Numbered.{Numbered, nothing};
ghost use Rattle.network_table.specs.Entries.{ArePlacesOf, Fits, IsAlone, IsChain, IsEntryAt, network_by, networks_alone};

use crate::interner::Interner;
use crate::network::Network;
use std::alloc::{AllocError, Global};
use std::hash::{Hash, Hasher};
use std::marker::Model;

/// The first node of a totally ordered network, and the network of the others, both by number.
#[derive(Clone, Copy, Drop)]
pub struct Link {
    pub first: u32,
    pub rest: u32,
}

/// How a network is stored.
#[derive(Drop)]
pub enum Entry {
    /// A totally ordered one as a cell of a list: the first node, and the entry of the others. So networks with the
    /// same nodes at the end share these (hash consing: Ershov, On programming of arithmetic operations, 1958).
    Chain(Link),
    /// Any other, and the one without nodes: all of it.
    Whole(Network),
}

impl PartialEq for Entry {
    ghost use Rattle.network_table.specs.Entries.{entry_eq, entry_eq-partial};

    ghost eq = { entry_eq };

    ghost laws = { entry_eq-partial };

    fn eq(&self, other: &Entry) -> bool {
        match (self, other) {
            (Entry::Chain(link), Entry::Chain(other)) => {
                link.first == other.first && link.rest == other.rest
            }
            (Entry::Whole(network), Entry::Whole(other)) => network == other,
            _ => false,
        }
    }
}

impl Eq for Entry {
    ghost use Rattle.network_table.specs.Entries.{entry_eq-laws};

    ghost laws = { entry_eq-laws };
}

impl Hash for Entry {
    ghost use Rattle.network_table.specs.Entries.{entry_hash, entry_hash-Alike};

    ghost hash_input = { entry_hash };

    ghost respects_eq = { entry_hash-Alike.fed };

    fn hash<H: Hasher>(&self, state: &mut H) {
        match self {
            Entry::Chain(link) => {
                link.first.hash(state);
                link.rest.hash(state);
            }
            Entry::Whole(network) => network.hash(state),
        }
    }
}

/// Networks in the order in which they were added, none of them twice.
#[derive(Drop)]
pub struct NetworkSet {
    entries: Interner<Entry>,
}

impl Model for NetworkSet {
    ghost use Rattle.std.specs.Prelude.{List};
    ghost use Rattle.network_table.specs.Numbered.{Numbered};
    ghost use Rattle.network_table.specs.Entries.{AreLinked, networks_of};

    ghost Value = { List Numbered };

    ghost view = { λ s. networks_of s.entries };

    ghost invariant = { λ s. AreLinked s.entries };
}

impl NetworkSet {
    /// No networks.
    pub(crate) fn new(alloc: Global) -> NetworkSet
        ensures { result ≡ [] }
    {
        NetworkSet {
            entries: Interner::new(alloc),
        }
    }

    /// The number of networks.
    pub(crate) fn len(&self) -> usize
        ensures { result ≡ length self.now }
    {
        self.entries.len()
    }

    /// The entry of the network at a place.
    pub(crate) fn entry(&self, place: usize) -> &Entry
        requires { place < length self.now }
        ensures entry { IsEntryAt self.now place result.now }
        // Each node of a chain has a place of its own.
        ensures short { IsChain (get_or self.now place nothing) → length (get_or self.now place nothing).nodes ≤ place }
    {
        self.entries.get(place)
    }

    /// The place of the network of an entry, if the set has it.
    pub(crate) fn place_of(&self, entry: &Entry) -> Option<usize>
        ensures some { IfSome result (λ n. (n < length self.now) × (get_or self.now n nothing ≡ network_by self.now entry.now)) }
        ensures none { IfNone result ((n : ℕ) → n < length self.now → Fits self.now entry.now
            → get_or self.now n nothing ≡ network_by self.now entry.now → IsWithoutRepeats self.now → ⊥) }
    {
        self.entries.number_of(entry)
    }

    /// The place of the network of an entry, and whether it is new; a new one is added as the last.
    pub(crate) fn insert(&mut self, entry: Entry) -> Result<(usize, bool), AllocError>
        requires { Fits self.old entry }
        ensures place { IfOk result (λ r. (r.0 < length self.new) × (get_or self.new r.0 nothing ≡ network_by self.old entry)) }
        ensures networks { IfOk result (λ r. self.new ≡ cond r.1 (self.old ++ network_by self.old entry ∷ []) self.old) }
        ensures last { IfOk result (λ r. r.1 ≡ true → r.0 ≡ length self.old) }
        ensures distinct { OnOk result (IsWithoutRepeats self.old → IsWithoutRepeats self.new) }
    {
        let placed = self.entries.intern(entry)?;
        Ok(placed)
    }

    /// The places of networks that are stored whole, new ones for those that the set does not have.
    pub(crate) fn insert_all(
        &mut self,
        alloc: Global,
        networks: Vec<Entry>,
    ) -> Result<Vec<usize>, AllocError>
        requires { All IsAlone networks.items }
        ensures grown { OnOk result ((more : List Numbered) × (self.new ≡ self.old ++ more)
            × All (Contains (networks_alone networks.items)) more) }
        ensures places { IfOk result (λ v. ArePlacesOf self.new v.items (networks_alone networks.items)) }
        ensures distinct { OnOk result (IsWithoutRepeats self.old → IsWithoutRepeats self.new) }
    {
        let places = self.entries.intern_all(alloc, networks)?;
        Ok(places)
    }
}
