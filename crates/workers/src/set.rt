//! Values in shards.
ghost use Rattle.std.specs.Prelude.{◌≡◌, ◌<◌, ◌++◌, ◌∷◌, ℕ, List, [], if◌then◌else◌, false, All, get_or, length, not, take, vec_capacity, IfOk, OnErr, OnOk};
ghost use Rattle.std.specs.List.{list_any};
ghost use Rattle.indexmap.specs.IndexSet.{insert_all, insert_key};
ghost use Rattle.workers.specs.Shards.{AreNew, AreSharded, TakesBatch};
ghost use Rattle.workers.specs.declared.shard.Shard.{Shard};

use crate::change::for_each_mut;
use crate::shard::{Shard, shard_of};
use std::alloc::{AllocError, Global};
use std::hash::Hash;
use std::marker::Model;
use std::thread::Threads;

/// Values in the order in which they were added, none of them twice.
pub struct ShardedSet<T: Eq + Hash> {
    values: Vec<T>,
    shards: Vec<Shard<T>>,
}

impl<T: Eq + Hash + Drop> Drop for ShardedSet<T> {
    fn drop(self) {
        let ShardedSet {
            values: _,
            shards: _,
        } = self;
    }
}

impl<T: Eq + Hash> Model for ShardedSet<T> {
    ghost use Rattle.std.specs.Prelude.{List};
    ghost use Rattle.workers.specs.Shards.{AreSharded};

    ghost Value = { List T };

    ghost view = { λ s. s.values.items };

    ghost invariant = { λ s. AreSharded T.eq T.hash_input s.values.items s.shards.items };
}

// Shards that have no value.
fn new_shards<T: Eq + Hash + Copy>(alloc: Global, count: usize) -> Result<Vec<Shard<T>>, AllocError>
    ensures len { IfOk result (λ v. length v.items ≡ count) }
    ensures none { IfOk result (λ v. All (λ s. s.values.keys ≡ []) v.items) }
{
    let mut shards = Vec::with_capacity(alloc, count)?;
    for _ in 0..count {
        shards.push(Shard::new(alloc))?;
    }
    Ok(shards)
}

// Each shard is emptied.
fn clear_all<T: Eq + Hash + Copy>(shards: &mut [Shard<T>])
    ensures len { length shards.new ≡ length shards.old }
    ensures none { All (λ s. s.values.keys ≡ []) shards.new }
{
    for place in 0..shards.len() {
        shards[place].clear();
    }
}

// Each shard makes room for this number of further values.
fn reserve_all<T: Eq + Hash + Copy>(shards: &mut [Shard<T>], more: usize) -> Result<(), AllocError>
    ensures len { length shards.new ≡ length shards.old }
    ensures same { (k : ℕ) (d : Shard T) → (get_or shards.new k d).values.keys ≡ (get_or shards.old k d).values.keys }
{
    for place in 0..shards.len() {
        shards[place].reserve(more)?;
    }
    Ok(())
}

// Each shard adds its own values of a batch, side by side in at most `threads` threads.
fn take_batch<T: Eq + Hash + Copy + Send + Sync, R: Threads + Sync>(
    rt: &R,
    shards: &mut [Shard<T>],
    batch: &[T],
    threads: usize,
)
    requires some { 0 < length shards.old }
    requires threads { 0 < threads }
    ensures len { length shards.new ≡ length shards.old }
    ensures each { (k : ℕ) (d : Shard T) → k < length shards.old
        → TakesBatch T.eq T.hash_input k (length shards.old) batch.now (get_or shards.old k d) (get_or shards.new k d) }
{
    let count = shards.len();
    let take = |number: usize, shard: &mut Shard<T>|
        requires { 0 < count }
        ensures { TakesBatch T.eq T.hash_input number count batch.entry.now shard.old shard.new }
    {
        shard.take_batch(number, count, batch);
    };
    for_each_mut(rt, shards, threads, &take);
}

// Whether memory was refused to a shard.
fn is_refused<T: Eq + Hash + Copy>(shards: &[Shard<T>]) -> bool
    ensures { result ≡ list_any (λ s. s.is_refused) shards.now }
{
    for shard in shards {
        if shard.is_refused() {
            return true;
        }
    }
    false
}

// Whether the value at a place of the last batch was new to its shard.
fn is_new_at<T: Eq + Hash + Copy>(shards: &[Shard<T>], place: usize) -> bool
    requires { All (λ s. place < length s.is_new.items) shards.now }
    ensures { result ≡ list_any (λ s. get_or s.is_new.items place false) shards.now }
{
    for shard in shards {
        if shard.is_new_at(place) {
            return true;
        }
    }
    false
}

// Adds a value at the end, if it is new.
fn push_if<T: Copy>(values: &mut Vec<T>, value: T, is_new: bool) -> Result<(), AllocError>
    ensures ok { OnOk result (values.new.items ≡ (if is_new then values.old.items ++ value ∷ [] else values.old.items)) }
    ensures err { OnErr result (values.new.items ≡ values.old.items) }
{
    if is_new {
        values.push(value)?;
    }
    Ok(())
}

// Adds a value at the end, if it is new; there is room for it.
fn push_in_room<T: Copy>(values: &mut Vec<T>, value: T, is_new: bool)
    requires { length values.old.items < vec_capacity values.old }
    ensures { values.new.items ≡ (if is_new then values.old.items ++ value ∷ [] else values.old.items) }
{
    if is_new && values.push(value).is_err() {
        unreachable!()
    }
}

// Adds to the values those of the last batch that were new to their shards, and notes which they are.
fn push_new<T: Eq + Hash + Copy>(
    values: &mut Vec<T>,
    shards: &[Shard<T>],
    batch: &[T],
    is_new: &mut Vec<bool>,
) -> Result<(), AllocError>
    requires long { All (λ s. length s.is_new.items ≡ length batch.now) shards.now }
    requires new { (i : ℕ) (d : T) → i < length batch.now → list_any (λ s. get_or s.is_new.items i false) shards.now
        ≡ not (list_any (T.eq (get_or batch.now i d)) (insert_all T.eq values.old.items (take i batch.now))) }
    requires none { is_new.old.items ≡ [] }
    ensures ok { OnOk result ((values.new.items ≡ insert_all T.eq values.old.items batch.now) × AreNew T.eq values.old.items batch.now is_new.new.items) }
    ensures err { OnErr result ((more : List T) × (values.new.items ≡ values.old.items ++ more)) }
{
    for place in 0..batch.len() {
        let fresh = is_new_at(shards, place);
        push_if(values, batch[place], fresh)?;
        is_new.push(fresh)?;
    }
    Ok(())
}

// Adds a batch to the values and the shards, and marks the new ones. Where memory is refused, the set still begins with
// what it had.
fn add_batch<T: Eq + Hash + Copy + Send + Sync, R: Threads + Sync>(
    rt: &R,
    values: &mut Vec<T>,
    shards: &mut [Shard<T>],
    batch: &[T],
    threads: usize,
    is_new: &mut Vec<bool>,
) -> Result<(), AllocError>
    requires sharded { AreSharded T.eq T.hash_input values.old.items shards.old }
    requires threads { 0 < threads }
    requires none { is_new.old.items ≡ [] }
    ensures sharded { OnOk result (AreSharded T.eq T.hash_input values.new.items shards.new) }
    ensures ok { OnOk result ((values.new.items ≡ insert_all T.eq values.old.items batch.now) × AreNew T.eq values.old.items batch.now is_new.new.items) }
    ensures err { OnErr result ((more : List T) × (values.new.items ≡ values.old.items ++ more)) }
    ensures len { length shards.new ≡ length shards.old }
    ensures each { (k : ℕ) (d : Shard T) → k < length shards.old
        → TakesBatch T.eq T.hash_input k (length shards.old) batch.now (get_or shards.old k d) (get_or shards.new k d) }
{
    take_batch(rt, shards, batch, threads);
    if is_refused(shards) {
        return Err(AllocError);
    }
    push_new(values, shards, batch, is_new)
}

// Each shard removes what it added of the last batch.
fn give_back<T: Eq + Hash + Copy>(shards: &mut [Shard<T>])
    ensures len { length shards.new ≡ length shards.old }
    ensures each { (k : ℕ) (d : Shard T) → k < length shards.old
        → (get_or shards.new k d).values.keys ≡ take (get_or shards.old k d).known (get_or shards.old k d).values.keys }
{
    for place in 0..shards.len() {
        shards[place].give_back();
    }
}

impl<T: Eq + Hash + Copy + Drop + Send + Sync> ShardedSet<T> {
    /// An empty set, to which this number of workers can add at once.
    pub fn new(alloc: Global, workers: usize) -> Result<ShardedSet<T>, AllocError>
        requires { 0 < workers }
        ensures { IfOk result (λ s. s ≡ []) }
    {
        let shards = new_shards(alloc, workers)?;
        Ok(ShardedSet {
            values: Vec::new(alloc),
            shards,
        })
    }

    /// The values in their order.
    pub fn values(&self) -> &[T]
        ensures { result.now ≡ self.now }
    {
        self.values.as_slice()
    }

    /// Whether a value is there.
    pub fn contains(&self, value: &T) -> bool
        ensures { result ≡ list_any (T.eq value.now) self.now }
    {
        let shard = shard_of(value, self.shards.len());
        self.shards[shard].contains(value)
    }

    /// Empties the set; its room stays allocated.
    pub fn clear(&mut self)
        ensures { self.new ≡ [] }
    {
        self.values.clear();
        clear_all(self.shards.as_mut_slice());
    }

    /// Makes room for this number of further values.
    pub fn reserve(&mut self, more: usize) -> Result<(), AllocError>
        ensures { self.new ≡ self.old }
    {
        self.values.reserve(more)?;
        let share = more / self.shards.len();
        reserve_all(self.shards.as_mut_slice(), share)
    }

    /// Adds a value, unless it is there; the answer is whether it is new.
    pub fn insert(&mut self, value: T) -> Result<bool, AllocError>
        ensures ok { OnOk result (self.new ≡ insert_key T.eq self.old value) }
        ensures new { IfOk result (λ is_new. is_new ≡ not (list_any (T.eq value) self.old)) }
        ensures err { OnErr result (self.new ≡ self.old) }
    {
        self.values.reserve(1)?;
        let shard = shard_of(&value, self.shards.len());
        let is_new = self.shards[shard].insert(value)?;
        push_in_room(&mut self.values, value, is_new);
        Ok(is_new)
    }

    /// Adds those of a batch that are not there, with the outcome of adding them in order, in at most `threads`
    /// threads. The answer marks by the place in the batch those that were new.
    pub fn insert_all<R: Threads + Sync>(
        &mut self,
        rt: &R,
        alloc: Global,
        batch: &[T],
        threads: usize,
    ) -> Result<Vec<bool>, AllocError>
        requires { 0 < threads }
        ensures ok { OnOk result (self.new ≡ insert_all T.eq self.old batch.now) }
        ensures new { IfOk result (λ is_new. AreNew T.eq self.old batch.now is_new.items) }
        ensures err { OnErr result (self.new ≡ self.old) }
    {
        let known = self.values.len();
        let mut is_new = Vec::with_capacity(alloc, batch.len())?;
        let shards = self.shards.as_mut_slice();
        match add_batch(rt, &mut self.values, shards, batch, threads, &mut is_new) {
            Ok(()) => Ok(is_new),
            Err(AllocError) => {
                self.values.truncate(known);
                give_back(self.shards.as_mut_slice());
                Err(AllocError)
            }
        }
    }
}
