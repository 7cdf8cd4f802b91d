//! The values of one shard.
ghost use Rattle.std.specs.Prelude.{◌≡◌, ◌<◌, ◌++◌, Bool, List, [], false, get_or, if◌then◌else◌, length, not, take, IfOk, OnErr, OnOk};
ghost use Rattle.std.specs.List.{list_any};
ghost use Rattle.indexmap.specs.IndexSet.{insert_key};
ghost use Rattle.workers.specs.Shards.{HasTaken, home};

use indexmap::IndexSet;
use std::alloc::{AllocError, Global};
use std::hash::{FoldHasher, Hash, Hasher};

/// The number of the shard, of `count`, that a value belongs to by its hash.
pub fn shard_of<T: Hash>(value: &T, count: usize) -> usize
    requires { 0 < count }
    ensures value { result ≡ home (T.hash_input value.now) count }
    ensures within { result < count }
{
    if count == 1 {
        return 0;
    }
    let mut hasher = FoldHasher::default();
    value.hash(&mut hasher);
    (hasher.finish() >> 32) as usize % count
}

/// The values of one shard, and which of the last batch it added.
pub(crate) struct Shard<T: Eq + Hash> {
    pub(crate) values: IndexSet<T>,
    /// The number of its values before the last batch.
    known: usize,
    /// By the place in the last batch, whether it was its own and new.
    is_new: Vec<bool>,
    is_refused: bool,
}

impl<T: Eq + Hash + Drop> Drop for Shard<T> {
    fn drop(self) {
        let Shard {
            values: _,
            known: _,
            is_new: _,
            is_refused: _,
        } = self;
    }
}

impl<T: Eq + Hash + Copy> Shard<T> {
    /// An empty shard.
    pub(crate) fn new(alloc: Global) -> Shard<T>
        ensures { result.values.keys ≡ [] }
    {
        Shard {
            values: IndexSet::new(alloc),
            known: 0,
            is_new: Vec::new(alloc),
            is_refused: false,
        }
    }

    /// Whether the value at a place of the last batch was its own and new.
    pub(crate) fn is_new_at(&self, place: usize) -> bool
        requires { place < length self.now.is_new.items }
        ensures { (d : Bool) → result ≡ get_or self.now.is_new.items place d }
    {
        self.is_new[place]
    }

    /// Adds a value, unless it is there; the answer is whether it is new.
    pub(crate) fn insert(&mut self, value: T) -> Result<bool, AllocError>
        ensures keys { OnOk result (self.new.values.keys ≡ insert_key T.eq self.old.values.keys value) }
        ensures new { IfOk result (λ is_new. is_new ≡ not (list_any (T.eq value) self.old.values.keys)) }
        ensures refused { OnErr result (self.new.values.keys ≡ self.old.values.keys) }
        ensures places { self.new.is_new ≡ self.old.is_new }
    {
        let (_, is_new) = self.values.insert_full(value)?;
        Ok(is_new)
    }

    /// Adds a value if it is the shard's own and new; the answer is whether it was.
    fn take(&mut self, value: T, is_own: bool) -> Result<bool, AllocError>
        ensures keys { OnOk result (self.new.values.keys ≡ (if is_own then insert_key T.eq self.old.values.keys value else self.old.values.keys)) }
        ensures new { IfOk result (λ is_new. is_new ≡ (if is_own then not (list_any (T.eq value) self.old.values.keys) else false)) }
        ensures refused { OnErr result (self.new.values.keys ≡ self.old.values.keys) }
        ensures places { self.new.is_new ≡ self.old.is_new }
    {
        if !is_own {
            return Ok(false);
        }
        self.insert(value)
    }

    /// Adds those values of a batch that are its own and new, in order.
    fn take_own(&mut self, number: usize, count: usize, batch: &[T]) -> Result<(), AllocError>
        requires { 0 < count }
        ensures grown { (more : List T) × (self.new.values.keys ≡ self.old.values.keys ++ more) }
        ensures taken { OnOk result (HasTaken T.eq T.hash_input number count batch.now self.old.values.keys self.new.values.keys self.new.is_new.items) }
    {
        self.is_new.clear();
        for value in batch {
            let is_own = shard_of(value, count) == number;
            let is_new = self.take(*value, is_own)?;
            self.is_new.push(is_new)?;
        }
        Ok(())
    }

    /// Adds those values of a batch that are its own and new; a refusal of memory is remembered.
    pub(crate) fn take_batch(&mut self, number: usize, count: usize, batch: &[T])
        requires { 0 < count }
        ensures known { self.new.known ≡ length self.old.values.keys }
        ensures grown { (more : List T) × (self.new.values.keys ≡ self.old.values.keys ++ more) }
        ensures taken { self.new.is_refused ≡ false → HasTaken T.eq T.hash_input number count batch.now self.old.values.keys self.new.values.keys self.new.is_new.items }
    {
        let known = self.values.len();
        self.is_refused = self.take_own(number, count, batch).is_err();
        self.known = known;
    }

    /// Whether memory was refused for the last batch.
    pub(crate) fn is_refused(&self) -> bool
        ensures { result ≡ self.now.is_refused }
    {
        self.is_refused
    }

    /// Removes what it added of the last batch.
    pub(crate) fn give_back(&mut self)
        ensures { self.new.values.keys ≡ take self.old.known self.old.values.keys }
    {
        self.values.truncate(self.known);
    }

    /// Empties the shard; its room stays allocated.
    pub(crate) fn clear(&mut self)
        ensures { self.new.values.keys ≡ [] }
    {
        self.values.clear();
    }

    /// Makes room for more values.
    pub(crate) fn reserve(&mut self, more: usize) -> Result<(), AllocError>
        ensures { self.new.values.keys ≡ self.old.values.keys }
    {
        self.values.reserve(more)
    }

    /// Whether it has a value.
    pub(crate) fn contains(&self, value: &T) -> bool
        ensures { result ≡ list_any (T.eq value.now) self.now.values.keys }
    {
        self.values.contains(value)
    }
}
