//! Texts with numbers.
ghost use Rattle.std.specs.Prelude.{◌≡◌, [], ◌∷◌, ◌++◌, None, IfOk, OnOk, OnErr, length, take};
ghost use Rattle.hddl_meaning.specs.Names.{is_same_text};
ghost use Rattle.hddl_scope.specs.Numbers.{number_at, numbered};

use hddl_names::Kept;
use indexmap::IndexMap;
use smallvec::SmallVec;
use std::alloc::{AllocError, Global};
use std::marker::Model;

/// Up to this number of texts are compared one by one, which takes less time than a table of them.
const FEW: usize = 16;

/// A text with its number.
#[derive(Drop)]
struct Numbered {
    text: Kept,
    number: usize,
}

/// Texts, each with a number: the first that was given. Contracts see the list of the texts with their numbers.
pub struct Numbers {
    /// How many texts are looked through one by one: none in a list that was to be long.
    limit: usize,
    /// The first texts: in most lists all.
    few: Vec<Numbered>,
    /// The others.
    rest: IndexMap<Vec<u8>, usize>,
}

impl Drop for Numbers {
    fn drop(self) {
        let Numbers {
            limit: _,
            few: _,
            rest: _,
        } = self;
    }
}

impl Model for Numbers {
    ghost use Rattle.std.specs.Prelude.{◌≡◌, ◌<◌, ◌≤◌, ◌++◌, [], length};
    ghost use Rattle.hddl_scope.specs.Numbers.{Entries, entries_of, numbered};

    ghost Value = { Entries };

    ghost view = { λ numbers. numbered numbers.few.items ++ entries_of numbers.rest.entries };

    ghost invariant = { λ numbers. (numbers.limit ≤ 16) × (length numbers.few.items ≤ numbers.limit)
        × (length numbers.few.items < numbers.limit → numbers.rest.entries ≡ []) };
}

/// Whether two texts are the same. Those of one list often differ in their last bytes alone, which are looked at first.
fn is_same(text: &[u8], other: &[u8]) -> bool
    ensures { result ≡ is_same_text text.now other.now }
{
    text.last() == other.last() && text == other
}

/// The number of a text among these.
fn number_among(few: &[Numbered], text: &[u8]) -> Option<usize>
    ensures { result ≡ number_at (numbered few.now) text.now }
{
    for one in few {
        if is_same(text, one.text.as_slice()) {
            return Some(one.number);
        }
    }
    None
}

impl Numbers {
    /// No texts.
    pub fn new(alloc: Global) -> Numbers
        ensures { result ≡ [] }
    {
        Numbers {
            limit: FEW,
            few: Vec::new(alloc),
            rest: IndexMap::new(alloc),
        }
    }

    /// No texts, with room for this number.
    pub fn with_capacity(alloc: Global, capacity: usize) -> Result<Numbers, AllocError>
        ensures { IfOk result (λ numbers. numbers ≡ []) }
    {
        if capacity <= FEW {
            return Ok(Numbers {
                limit: FEW,
                few: Vec::with_capacity(alloc, capacity)?,
                rest: IndexMap::new(alloc),
            });
        }
        Ok(Numbers {
            limit: 0,
            few: Vec::new(alloc),
            rest: IndexMap::with_capacity(alloc, capacity)?,
        })
    }

    /// How many texts there are.
    pub(crate) fn len(&self) -> usize
        ensures { result ≡ length self.now }
    {
        self.few.len() + self.rest.len()
    }

    /// The number of a text.
    pub fn get(&self, text: &[u8]) -> Option<usize>
        ensures { result ≡ number_at self.now text.now }
    {
        match number_among(&self.few, text) {
            Some(number) => Some(number),
            // There are no others, so the text needn't be hashed.
            None if self.few.len() < self.limit => None,
            None => self.rest.get(text).copied(),
        }
    }

    /// Gives a number to a text that has none. Where memory is refused, the numbers are as they were.
    pub fn add(&mut self, alloc: Global, text: &[u8], number: usize) -> Result<(), AllocError>
        requires { number_at self.old text.now ≡ None }
        ensures ok { OnOk result (self.new ≡ self.old ++ (text.now, number) ∷ []) }
        ensures err { OnErr result (self.new ≡ self.old) }
    {
        if self.few.len() < self.limit {
            let text = SmallVec::from_slice(alloc, text)?;
            self.few.push(Numbered { text, number })?;
            return Ok(());
        }
        let key = Vec::from_slice(alloc, text)?;
        let _ = self.rest.insert(key, number)?;
        Ok(())
    }

    /// Leaves only the first `len` texts.
    pub(crate) fn truncate(&mut self, len: usize)
        ensures { self.new ≡ take len self.old }
    {
        self.rest.truncate(len.saturating_sub(self.few.len()));
        self.few.truncate(len);
    }
}
