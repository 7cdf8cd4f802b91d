//! The closed list (duplicate detection): all configurations that a search has generated and not pruned, each with its
//! parent.
ghost use Rattle.std.specs.Prelude.{◌≡◌, ℕ, ◌+◌, ◌-◌, ◌^◌, ◌<◌, ◌≤◌, ◌++◌, ◌∷◌, Some, false, true, All, length, slice_get, [], if◌then◌else◌, IfOk, IfSome, OnOk, OnErr, vec_capacity};
ghost use Rattle.std.specs.List.{list_any};
ghost use Rattle.indexmap.specs.IndexSet.{contains};
ghost use Rattle.word_machine.specs.Contents.{origin_of, picked};
ghost use Rattle.word_machine.specs.declared.closed.Link.{Link};
ghost use Rattle.word_machine.specs.declared.closed.Origin.TheVariants.{Step};

use crate::edge::Edge;
use crate::overshoots::Overshoots;
use std::alloc::{AllocError, Global};
use std::hash::Hash;
use std::marker::Model;
use std::thread::Threads;
use workers::{ShardedSet, workers_for};

/// Where a configuration came from: it is an initial one, or a number led to it from the configuration of another rank.
#[derive(Clone, Copy, Debug)]
pub enum Origin {
    Initial(u64),
    Step { parent: usize, number: u64 },
}

/// A configuration that a search reached, with its parent.
#[derive(Drop)]
pub struct Successor<C> {
    pub origin: Origin,
    pub configuration: C,
}

/// A successor, with a lower bound on the steps that are left from it, by the measure of the search.
#[derive(Drop)]
pub struct Measured<C> {
    pub successor: Successor<C>,
    pub left: u64,
}

/// An origin in the form in which the list stores it, with no tag: an initial configuration has the parent `NO_RANK`.
#[derive(Clone, Copy, Debug)]
pub struct Link {
    parent: usize,
    number: u64,
}

const NO_RANK: usize = usize::MAX;

// Pruned configurations are counted by their distance past the bound where it is below this.
const NEAR: u64 = 64;

impl Link {
    fn new(origin: Origin) -> Link
        requires { (parent number : ℕ) → origin ≡ Step parent number → parent < 2 ^ 64 - 1 }
        ensures { origin_of result ≡ origin }
    {
        match origin {
            Origin::Initial(number) => Link {
                parent: NO_RANK,
                number,
            },
            Origin::Step { parent, number } => Link { parent, number },
        }
    }

    fn origin(self) -> Origin
        ensures { result ≡ origin_of self }
    {
        if self.parent == NO_RANK {
            Origin::Initial(self.number)
        } else {
            Origin::Step {
                parent: self.parent,
                number: self.number,
            }
        }
    }
}

/// Configurations for which there is room, each with where it came from.
pub struct Fitting<C> {
    pub links: Vec<Link>,
    pub configurations: Vec<C>,
}

impl<C: Drop> Drop for Fitting<C> {
    fn drop(self) {
        let Fitting {
            links: _,
            configurations: _,
        } = self;
    }
}

impl<C: Drop> Fitting<C> {
    /// No configurations, with room for `count` of them.
    pub fn with_capacity(alloc: Global, count: usize) -> Result<Fitting<C>, AllocError>
        ensures { IfOk result (λ fits. (fits.links.items ≡ []) × (fits.configurations.items ≡ [])) }
    {
        Ok(Fitting {
            links: Vec::with_capacity(alloc, count)?,
            configurations: Vec::with_capacity(alloc, count)?,
        })
    }

    /// Adds a configuration that came from there.
    pub fn push(&mut self, origin: Origin, configuration: C) -> Result<(), AllocError>
        requires { (parent number : ℕ) → origin ≡ Step parent number → parent < 2 ^ 64 - 1 }
        ensures links { OnOk result ((link : Link) × (self.new.links.items ≡ self.old.links.items ++ link ∷ []) × (origin_of link ≡ origin)) }
        ensures configurations { OnOk result (self.new.configurations.items ≡ self.old.configurations.items ++ configuration ∷ []) }
    {
        self.links.push(Link::new(origin))?;
        self.configurations.push(configuration)?;
        Ok(())
    }
}

/// The merge is shared among workers only where each has at least this many successors.
pub const FEW: usize = 1_000;

// Up to this number of places, a restart reserves sixteen times the room that the list had filled: the room costs
// little, and growing into it took a quarter of the time in which the list was filled.
const FEW_KEPT: usize = 32_768;

// Adds a link if it is that of a new one; there is room for it.
fn push_link(links: &mut Vec<Link>, link: Link, is_new: bool)
    requires { length links.old.items < vec_capacity links.old }
    ensures items { links.new.items ≡ links.old.items ++ (if is_new then link ∷ [] else []) }
    ensures room { vec_capacity links.old ≤ vec_capacity links.new }
{
    if is_new && links.push(link).is_err() {
        unreachable!()
    }
}

// Adds the links of those that are new; there is room for all.
fn push_links(links: &mut Vec<Link>, more: &[Link], is_new: &[bool])
    requires long { length more.now ≡ length is_new.now }
    requires room { length links.old.items + length more.now ≤ vec_capacity links.old }
    ensures { links.new.items ≡ links.old.items ++ picked more.now is_new.now }
{
    for place in 0..more.len() {
        let link = more[place];
        let fresh = is_new[place];
        push_link(links, link, fresh);
    }
}

/// The configurations in the order in which they were found, none of them twice. The position of one is its rank.
pub struct Closed<C: Eq + Hash> {
    configurations: ShardedSet<C>,
    links: Vec<Link>,
    was_cut: bool,
    // The least distance past the bound of a pruned configuration.
    least_past: u64,
    // For speed alone, and no part of the list's model: the distances of all pruned configurations, and the parents of
    // some of them.
    overshoots: Overshoots,
    edge: Edge,
}

impl<C: Eq + Hash + Drop> Drop for Closed<C> {
    fn drop(self) {
        let Closed {
            configurations: _,
            links: _,
            was_cut: _,
            least_past: _,
            overshoots: _,
            edge: _,
        } = self;
    }
}

impl<C: Eq + Hash> Model for Closed<C> {
    ghost use Rattle.std.specs.Prelude.{◌≡◌, length, map};
    ghost use Rattle.word_machine.specs.Contents.{Contents, IsForest, origin_of};

    ghost Value = { Contents C };

    ghost view = { λ a. record { keys = a.configurations; origins = map origin_of a.links.items; cut = record { any = a.was_cut; past = a.least_past } } };

    ghost invariant = { λ a. record { as_many : length a.links.items ≡ length a.configurations; forest : IsForest (map origin_of a.links.items) } };
}

impl<C: Eq + Hash + Copy + Drop + Send + Sync> Closed<C> {
    ghost use Rattle.word_machine.specs.Contents.{cut_more, fitting, offer, offer_all, origin_of, IsForest, IsOriginWithin};

    /// An empty list, for this number of workers.
    pub fn new(alloc: Global, workers: usize) -> Result<Self, AllocError>
        requires { 0 < workers }
        ensures { IfOk result (λ list. list ≡ record { keys = []; origins = []; cut = record { any = false; past = 2 ^ 64 - 1 } }) }
    {
        Ok(Closed {
            configurations: ShardedSet::new(alloc, workers)?,
            links: Vec::new(alloc),
            was_cut: false,
            least_past: u64::MAX,
            overshoots: Overshoots::new(),
            edge: Edge::new(),
        })
    }

    /// Empties the list, and makes room for twice what it had, or for sixteen times while that is little. It is empty
    /// also where the room is refused.
    pub fn restart(&mut self) -> Result<(), AllocError>
        ensures { self.new ≡ record { keys = []; origins = []; cut = record { any = false; past = 2 ^ 64 - 1 } } }
    {
        let kept = self.links.len();
        let room = kept
            .saturating_mul(16)
            .min(FEW_KEPT)
            .max(kept.saturating_mul(2));
        self.configurations.clear();
        self.links.clear();
        self.was_cut = false;
        self.least_past = u64::MAX;
        self.overshoots = Overshoots::new();
        self.edge = Edge::new();
        self.links.reserve(room)?;
        self.configurations.reserve(room)
    }

    /// The configurations by rank.
    pub fn configurations(&self) -> &[C]
        ensures { result.now ≡ self.now.keys }
    {
        self.configurations.values()
    }

    /// Where the configuration of this rank came from.
    pub fn origin(&self, rank: usize) -> Origin
        requires { rank < length self.now.keys }
        ensures origin { slice_get self.now.origins rank ≡ Some result }
        ensures forest { IsForest self.now.origins }
    {
        self.links[rank].origin()
    }

    /// Whether a configuration past the bound was pruned since the last restart.
    pub fn was_cut(&self) -> bool
        ensures { result ≡ self.now.cut.any }
    {
        self.was_cut
    }

    /// The least distance past the bound of a pruned configuration.
    pub fn least_past(&self) -> u64
        ensures { result ≡ self.now.cut.past }
    {
        self.least_past
    }

    /// Whether the configuration is there.
    pub fn contains(&self, configuration: &C) -> bool
        ensures { result ≡ list_any (C.eq configuration.now) self.now.keys }
    {
        self.configurations.contains(configuration)
    }

    /// Whether pruning a configuration at this distance past the room changes nothing: one that is no further past it
    /// was pruned before.
    pub fn has_cut_within(&self, past: u64) -> bool
        ensures any { result ≡ true → self.now.cut.any ≡ true }
        ensures past { result ≡ true → self.now.cut.past ≤ past }
    {
        self.was_cut && self.least_past <= past
    }

    /// Counts a pruned configuration without looking it up, so one that is in the list may be counted too. The counts
    /// and parents serve speed alone.
    pub fn count_passed_over(&mut self, origin: Origin, past: u64)
        ensures { self.new ≡ self.old }
    {
        if past < NEAR {
            self.overshoots.add(past);
            self.edge.add(origin);
        }
    }

    /// The horizon of an expansion: a successor with more steps left than this can be dropped by the worker that
    /// reached it, since it is past what `has_cut_within` asks for and too far past the bound to be counted. None where
    /// no successor may be dropped.
    pub fn most_left(&self, room: u64) -> Option<u64>
        ensures any { IfSome result (λ most. self.now.cut.any ≡ true) }
        ensures past { IfSome result (λ most. (left : ℕ) → most < left → (room < left) × (self.now.cut.past ≤ left - room)) }
    {
        if !self.was_cut {
            return None;
        }
        room.checked_add(self.least_past.max(NEAR) - 1)
    }

    /// Parents of configurations that were pruned little past the bound: the last ones.
    pub fn edge(&self) -> &[usize] {
        self.edge.ranks()
    }

    /// The increase of the bound that admits as many pruned configurations as the list has; None if fewer than that
    /// were pruned less than 64 past the bound.
    pub fn reach(&self) -> Option<u64> {
        self.overshoots.reach(self.links.len() as u64)
    }

    /// Adds those of a batch that are new, in order, by at most `workers` workers. Each is within the bound.
    pub fn keep_all<R: Threads + Sync>(
        &mut self,
        rt: &R,
        alloc: Global,
        batch: &Fitting<C>,
        workers: usize,
    ) -> Result<(), AllocError>
        requires workers { 0 < workers }
        requires long { length batch.now.links.items ≡ length batch.now.configurations.items }
        requires within { All (λ l. IsOriginWithin (length self.old.keys) (origin_of l)) batch.now.links.items }
        ensures ok { OnOk result (self.new ≡ offer_all C.eq (λ c. 0) 0 self.old (fitting batch.now.links.items batch.now.configurations.items)) }
        ensures err { OnErr result (self.new ≡ self.old) }
    {
        let threads = workers_for(batch.links.len(), FEW, workers);
        self.links.reserve(batch.links.len())?;
        let is_new = self
            .configurations
            .insert_all(rt, alloc, &batch.configurations, threads)?;
        push_links(&mut self.links, &batch.links, &is_new);
        Ok(())
    }

    /// Adds a successor within the bound, if it is new.
    pub fn keep_one(&mut self, successor: Successor<C>) -> Result<(), AllocError>
        requires { IsOriginWithin (length self.old.keys) successor.origin }
        ensures ok { OnOk result (self.new ≡ offer C.eq self.old successor 0 0) }
        ensures err { OnErr result (self.new ≡ self.old) }
    {
        // For the prover alone: a list has no more ranks than a link can name.
        let ranks = self.configurations().len();
        prove!(ranks <= NO_RANK);
        self.links.reserve(1)?;
        let is_new = self.configurations.insert(successor.configuration)?;
        push_link(&mut self.links, Link::new(successor.origin), is_new);
        Ok(())
    }

    /// Adds a configuration if it is new and within the bound; one past the bound is pruned, and the list notes that.
    pub fn keep<R: Threads + Sync>(
        &mut self,
        rt: &R,
        alloc: Global,
        successor: Successor<C>,
        left: u64,
        room: u64,
    ) -> Result<(), AllocError>
        requires { IsOriginWithin (length self.old.keys) successor.origin }
        ensures ok { OnOk result (self.new ≡ offer C.eq self.old successor left room) }
        ensures err { OnErr result (self.new ≡ self.old) }
    {
        let Successor {
            origin,
            configuration,
        } = successor;
        if left > room {
            self.leave_out(&configuration, origin, left - room);
            return Ok(());
        }
        // For the prover alone: a list has no more ranks than a link can name.
        let ranks = self.configurations().len();
        prove!(ranks <= NO_RANK);
        let mut one = Fitting::with_capacity(alloc, 1)?;
        one.push(origin, configuration)?;
        self.keep_all(rt, alloc, &one, 1)
    }

    /// Prunes a configuration that is not in the list; `past` is its distance past the room.
    pub fn leave_out(&mut self, configuration: &C, origin: Origin, past: u64)
        ensures there { list_any (C.eq configuration.now) self.old.keys ≡ true → self.new ≡ self.old }
        ensures cut { list_any (C.eq configuration.now) self.old.keys ≡ false
            → self.new ≡ record { keys = self.old.keys; origins = self.old.origins; cut = cut_more self.old.cut past } }
    {
        if !self.configurations.contains(configuration) {
            self.cut_off(origin, past);
        }
    }

    /// Prunes a configuration of which it is known that it is not in the list; `past` is its distance past the room.
    pub fn cut_off(&mut self, origin: Origin, past: u64)
        ensures { self.new ≡ record { keys = self.old.keys; origins = self.old.origins; cut = cut_more self.old.cut past } }
    {
        self.was_cut = true;
        self.least_past = self.least_past.min(past);
        self.overshoots.add(past);
        if past < NEAR {
            self.edge.add(origin);
        }
    }
}
