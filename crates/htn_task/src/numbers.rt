//! Names with numbers.
ghost use Rattle.std.specs.Prelude.{◌≡◌, [], OnOk};
ghost use Rattle.htn_task.specs.Numbers.{entry_of, with_number};

use indexmap::IndexMap;
use std::alloc::{AllocError, Global};
use std::marker::Model;

/// Names, each with a number. Contracts see the list of the names with their numbers.
pub(crate) struct NameNumbers {
    entries: IndexMap<Vec<u8>, usize>,
}

impl Model for NameNumbers {
    ghost use Rattle.htn_task.specs.Numbers.{Entries, entries_of};

    ghost Value = { Entries };

    ghost view = { λ numbers. entries_of numbers.entries.entries };
}

// `Drop` is written by hand: a derived one is expanded, and proved, at each way out of each owner.
impl Drop for NameNumbers {
    fn drop(self) {
        let NameNumbers { entries: _ } = self;
    }
}

impl NameNumbers {
    /// No names.
    pub(crate) fn new(alloc: Global) -> NameNumbers
        ensures { result ≡ [] }
    {
        NameNumbers {
            entries: IndexMap::new(alloc),
        }
    }

    /// Gives a number to a name, unless it has one.
    pub(crate) fn add(
        &mut self,
        alloc: Global,
        name: &[u8],
        number: usize,
    ) -> Result<(), AllocError>
        ensures { OnOk result (self.new ≡ with_number self.old name.now number) }
    {
        if self.entries.contains_key(name) {
            return Ok(());
        }
        let name = Vec::from_slice(alloc, name)?;
        let _ = self.entries.insert(name, number)?;
        Ok(())
    }

    /// The number of a name.
    pub(crate) fn get(&self, name: &[u8]) -> Option<usize>
        ensures { result ≡ entry_of self.now name.now }
    {
        self.entries.get(name).copied()
    }
}
