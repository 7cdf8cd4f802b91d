//! A number for each value, equal values the same.
ghost use Rattle.std.specs.Prelude.{◌≡◌, ◌<◌, [], true, false, IfNone, IfOk, IfSome, OnErr, OnOk, get_or, length, not};
ghost use Rattle.std.specs.List.{list_any};
ghost use Rattle.indexmap.specs.IndexSet.{insert_key};
ghost use Rattle.network_table.specs.Interning.{AreApart, HasInterned, IsGrownBy, IsNumberOf};

use indexmap::IndexSet;
use std::alloc::{AllocError, Global};
use std::hash::Hash;
use std::marker::Model;

/// An interner: each value has a number, by the order in which values were added, and equal values have the same.
#[derive(Drop)]
pub(crate) struct Interner<T: Eq + Hash> {
    values: IndexSet<T>,
}

impl<T: Eq + Hash> Model for Interner<T> {
    ghost use Rattle.std.specs.Prelude.{List};
    ghost use Rattle.network_table.specs.Interning.{AreApart};

    ghost Value = { List T };

    ghost view = { λ s. s.values.keys };

    ghost invariant = { λ s. AreApart T.eq s.values.keys };
}

impl<T: Eq + Hash + Drop> Interner<T> {
    /// An empty interner.
    pub(crate) fn new(alloc: Global) -> Interner<T>
        ensures { result ≡ [] }
    {
        Interner {
            values: IndexSet::new(alloc),
        }
    }

    /// The number of values.
    pub(crate) fn len(&self) -> usize
        ensures { result ≡ length self.now }
    {
        self.values.len()
    }

    /// The value of a number.
    pub(crate) fn get(&self, number: usize) -> &T
        requires { number < length self.now }
        ensures { result.now ≡ get_or self.now number result.now }
    {
        &self.values.as_slice()[number]
    }

    /// The number of a value, if it has one. It takes no memory.
    pub(crate) fn number_of(&self, value: &T) -> Option<usize>
        ensures some { IfSome result (IsNumberOf T.eq self.now value.now) }
        ensures none { IfNone result (list_any (T.eq value.now) self.now ≡ false) }
    {
        self.values.get_index_of(value)
    }

    /// The number of a value, which is added if it is new, and whether it was.
    pub(crate) fn intern(&mut self, value: T) -> Result<(usize, bool), AllocError>
        ensures values { OnOk result (self.new ≡ insert_key T.eq self.old value) }
        ensures number { IfOk result (λ r. IsNumberOf T.eq self.new value r.0) }
        ensures new { IfOk result (λ r. r.1 ≡ not (list_any (T.eq value) self.old)) }
        ensures last { IfOk result (λ r. r.1 ≡ true → r.0 ≡ length self.old) }
        ensures err { OnErr result (self.new ≡ self.old) }
    {
        let (index, is_new) = self.values.insert_full(value)?;
        Ok((index, is_new))
    }

    /// The numbers of the values of a batch, of which new ones are added in order. After an error some of them are added.
    pub(crate) fn intern_all(
        &mut self,
        alloc: Global,
        batch: Vec<T>,
    ) -> Result<Vec<usize>, AllocError>
        ensures grown { IsGrownBy batch.items self.old self.new }
        ensures apart { OnOk result (AreApart T.eq self.new) }
        ensures interned { IfOk result (λ v. HasInterned T.eq batch.items self.old self.new v.items) }
    {
        let _apart = &self.values;
        let mut numbers = Vec::with_capacity(alloc, batch.len())?;
        for value in batch {
            let (number, _) = self.intern(value)?;
            numbers.push(number)?;
        }
        Ok(numbers)
    }
}
