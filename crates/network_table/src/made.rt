//! Makes the networks of drafts.
ghost use Rattle.std.specs.Prelude.{◌≡◌, ◌<◌, true, List, All, IfOk, IfSome, OnOk, length, get_or};
ghost use Rattle.network_table.specs.Numbered.{IsWithin, nothing};
ghost use Rattle.network_table.specs.Entries.{IsKeptWhole, networks_alone};
ghost use Rattle.network_table.specs.Networks.{children, IsNumberOf, IsWhole, Knows};
ghost use Rattle.htn_model.specs.Problem.{Child};
ghost use Rattle.network_table.specs.Drafts.{draft_network, inner_at, AreMade, AreNoted, Stands};

use crate::draft::{Draft, Job, Listed, shard_of};
use crate::network::Network;
use crate::network_set::Entry;
use crate::notes::Known;
use crate::table::NetworkTable;
use indexmap::IndexMap;
use std::alloc::{AllocError, Global};

/// The place of a draft's network among those that were made, and the place of the draft.
#[derive(Clone, Copy, Drop)]
pub(crate) struct Place {
    pub(crate) at: usize,
    pub(crate) draft: Draft,
    pub(crate) network: usize,
}

/// The number of a draft's network, and the place of the draft.
#[derive(Clone, Copy, Drop)]
pub(crate) struct Noted {
    pub(crate) at: usize,
    pub(crate) known: Known,
}

/// Networks that were made of drafts, with the places of the drafts; and the drafts whose networks have numbers
/// already. None is a chain: the networks are numbered side by side, and a chain is stored as a cell on another.
#[derive(Drop)]
pub(crate) struct Made {
    pub(crate) networks: Vec<Entry>,
    pub(crate) places: Vec<Place>,
    pub(crate) noted: Vec<Noted>,
}

/// Where a network was found: at a place among those that were made, or in the table, by its number.
#[derive(Clone, Copy, Drop)]
pub(crate) enum Standing {
    Unknown,
    MadeAt(usize),
    HasNumber(u32),
}

/// What takes the place of a node: one of the instances, or the network of no nodes.
fn inner_of<'a>(
    instances: &'a [Network],
    none: &'a Network,
    instance: Option<usize>,
) -> Option<&'a Network>
    requires { none.now ≡ nothing }
    ensures value { IfSome result (λ r. r.now ≡ inner_at instances.now instance) }
    ensures within { IfSome result (λ r. (l : List Child) → All (IsWithin l) instances.now → IsWithin l r.now) }
{
    let Some(place) = instance else {
        return Some(none);
    };
    if place >= instances.len() {
        return None;
    }
    Some(&instances[place])
}

/// Whether the network at a place is this one.
fn is_at(networks: &[Entry], place: usize, network: &Network) -> bool
    ensures { let all = networks_alone networks.now in
        result ≡ true → (place < length all) × (get_or all place nothing ≡ network.now) }
{
    if place >= networks.len() {
        return false;
    }
    match &networks[place] {
        Entry::Whole(kept) => kept == network,
        Entry::Chain(_) => false,
    }
}

impl NetworkTable {
    /// Makes the network of a draft, if the draft is one of the jobs' and the network is no chain: chains are made where
    /// they are numbered.
    fn make(&self, alloc: Global, jobs: &[Job], draft: Draft) -> Result<Option<Network>, AllocError>
        requires whole { IsWhole self.now }
        requires known { All (λ j. Knows self.now j.network) jobs.now }
        requires within { All (λ j. All (IsWithin (children self.now)) j.instances.now) jobs.now }
        ensures value { IfOk result (λ o. IfSome o (λ n. n ≡ draft_network self.now jobs.now draft)) }
        ensures within { IfOk result (λ o. IfSome o (λ n. IsWithin (children self.now) n)) }
        ensures whole { IfOk result (λ o. IfSome o IsKeptWhole) }
    {
        if draft.job >= jobs.len() {
            return Ok(None);
        }
        let job = jobs[draft.job];
        let Entry::Whole(whole) = self.entry(job.network) else {
            return Ok(None);
        };
        if draft.position >= whole.nodes().len() {
            return Ok(None);
        }
        let none = Network::empty(alloc);
        let Some(inner) = inner_of(job.instances, &none, draft.instance) else {
            return Ok(None);
        };
        let next = whole.replaced(alloc, draft.position, inner)?;
        if next.is_chain() {
            return Ok(None);
        }
        Ok(Some(next))
    }

    /// The number of a network that is stored whole, if it has one.
    fn has_number(&self, number: u32, network: &Network) -> bool
        ensures { result ≡ true → IsNumberOf self.now number network.now }
    {
        if number as usize >= self.len() {
            return false;
        }
        match self.entry(number) {
            Entry::Whole(kept) => kept == network,
            Entry::Chain(_) => false,
        }
    }

    /// Where a network is among those that were made, or in the table, and the network itself. It is looked for in the
    /// table unless the hint has its place.
    fn standing_of(
        &self,
        networks: &[Entry],
        hint: Standing,
        network: Network,
    ) -> (Standing, Network)
        requires { IsWhole self.now }
        ensures standing { Stands self.now (networks_alone networks.now) network result.0 }
        ensures network { result.1 ≡ network }
    {
        match hint {
            Standing::MadeAt(place) if is_at(networks, place, &network) => (hint, network),
            Standing::HasNumber(number) if self.has_number(number, &network) => (hint, network),
            _ => match self.number_of(network) {
                (Some(number), network) => (Standing::HasNumber(number), network),
                (None, network) => (Standing::Unknown, network),
            },
        }
    }

    /// Records where the network of the draft at a place is: its number if it has one, else its place, at which it is
    /// added if it is new. The answer is where it is.
    fn put(
        &self,
        jobs: &[Job],
        made: &mut Made,
        standing: Standing,
        at: usize,
        draft: Draft,
        network: Network,
    ) -> Result<Standing, AllocError>
        requires made { AreMade self.now jobs.now made.old.networks.items made.old.places.items }
        requires noted { AreNoted self.now jobs.now made.old.noted.items }
        requires stands { Stands self.now (networks_alone made.old.networks.items) network standing }
        requires draft { network ≡ draft_network self.now jobs.now draft }
        requires whole { IsKeptWhole network }
        requires within { IsWithin (children self.now) network }
        ensures made { OnOk result (AreMade self.now jobs.now made.new.networks.items made.new.places.items) }
        ensures noted { OnOk result (AreNoted self.now jobs.now made.new.noted.items) }
    {
        match standing {
            Standing::HasNumber(number) => {
                let known = Known { draft, number };
                made.noted.push(Noted { at, known })?;
                Ok(standing)
            }
            Standing::MadeAt(network) => {
                made.places.push(Place { at, draft, network })?;
                Ok(standing)
            }
            Standing::Unknown => {
                let place = made.networks.len();
                made.networks.push(Entry::Whole(network))?;
                made.places.push(Place {
                    at,
                    draft,
                    network: place,
                })?;
                Ok(Standing::MadeAt(place))
            }
        }
    }

    /// Makes the network of the draft at a place, and records where it is, which is the answer.
    fn add(
        &self,
        alloc: Global,
        jobs: &[Job],
        made: &mut Made,
        hint: Standing,
        at: usize,
        draft: Draft,
    ) -> Result<Standing, AllocError>
        requires whole { IsWhole self.now }
        requires known { All (λ j. Knows self.now j.network) jobs.now }
        requires within { All (λ j. All (IsWithin (children self.now)) j.instances.now) jobs.now }
        requires made { AreMade self.now jobs.now made.old.networks.items made.old.places.items }
        requires noted { AreNoted self.now jobs.now made.old.noted.items }
        ensures made { OnOk result (AreMade self.now jobs.now made.new.networks.items made.new.places.items) }
        ensures noted { OnOk result (AreNoted self.now jobs.now made.new.noted.items) }
    {
        let Some(next) = self.make(alloc, jobs, draft)? else {
            return Ok(hint);
        };
        let (standing, next) = self.standing_of(made.networks.as_slice(), hint, next);
        self.put(jobs, made, standing, at, draft, next)
    }

    /// Makes the networks of the drafts of a shard, equal ones mostly once, and finds those that have numbers.
    pub(crate) fn make_shard(
        &self,
        alloc: Global,
        jobs: &[Job],
        drafts: &[Listed],
        shard: usize,
        count: usize,
    ) -> Result<Made, AllocError>
        requires whole { IsWhole self.now }
        requires known { All (λ j. Knows self.now j.network) jobs.now }
        requires within { All (λ j. All (IsWithin (children self.now)) j.instances.now) jobs.now }
        requires count { 0 < count }
        ensures { IfOk result (λ m. AreMade self.now jobs.now m.networks.items m.places.items
            × AreNoted self.now jobs.now m.noted.items) }
    {
        let mut made = Made {
            networks: Vec::new(alloc),
            places: Vec::new(alloc),
            noted: Vec::new(alloc),
        };
        let mut by_digest: IndexMap<u64, Standing> = IndexMap::new(alloc);
        for at in 0..drafts.len() {
            let listed = drafts[at];
            if shard_of(listed.digest, count) != shard {
                continue;
            }
            let hint = match by_digest.get(&listed.digest) {
                Some(standing) => *standing,
                None => Standing::Unknown,
            };
            let standing = self.add(alloc, jobs, &mut made, hint, at, listed.draft)?;
            if matches!(hint, Standing::Unknown) {
                by_digest.insert(listed.digest, standing)?;
            }
        }
        Ok(made)
    }
}
