//! States by numbers.
ghost use Rattle.std.specs.Prelude.{◌≡◌, ◌⊎◌, [], ℕ, List, slice_get, Some, IfOk, IfSome, IfNone, OnErr, OnOk};
ghost use Rattle.state_table.specs.Numberings.{IsExtension, IsNumbering};

use crate::bit_state::BitState;
use indexmap::IndexSet;
use std::alloc::{AllocError, Global};
use std::marker::Model;

/// States by number, in the order in which they were added, none of them twice.
pub struct StateTable {
    states: IndexSet<BitState>,
}

impl Drop for StateTable {
    fn drop(self) {
        let StateTable { states: _ } = self;
    }
}

impl Model for StateTable {
    ghost use Rattle.std.specs.Prelude.{List, ℕ};
    ghost use Rattle.state_table.specs.Numberings.{IsNumbering};

    ghost Value = { List (List ℕ) };

    ghost view = { λ t. t.states.keys };

    ghost invariant = { λ t. IsNumbering t.states.keys };
}

impl StateTable {
    /// A table of no states.
    pub fn new(alloc: Global) -> Self
        ensures { result ≡ [] }
    {
        StateTable {
            states: IndexSet::new(alloc),
        }
    }

    /// The states by number.
    pub fn states(&self) -> &[BitState]
        ensures value { result.now ≡ self.now }
        ensures numbering { IsNumbering self.now }
    {
        self.states.as_slice()
    }

    /// The number of a state, if it has one.
    pub fn number_of(&self, state: &BitState) -> Option<u32>
        ensures some { IfSome result (λ n. slice_get self.now n ≡ Some state.now) }
        ensures none { IfNone result ((n : ℕ) → slice_get self.now n ≡ Some state.now → ⊥) }
    {
        let place = self.states.get_index_of(state)?;
        Some(place as u32)
    }

    /// The number of a state, which gets one if it has none.
    pub fn keep(&mut self, state: BitState) -> Result<u32, AllocError>
        ensures grown { OnOk result (IsExtension self.old self.new) }
        ensures number { IfOk result (λ n. slice_get self.new n ≡ Some state) }
        ensures numbering { IsNumbering self.new }
        // No other state is numbered.
        ensures others { OnOk result ((n : ℕ) (other : List ℕ) → slice_get self.new n ≡ Some other
            → (slice_get self.old n ≡ Some other) ⊎ (other ≡ state)) }
        ensures unchanged { OnErr result (self.new ≡ self.old) }
    {
        if self.states.len() > u32::MAX as usize {
            // Every number is given. In a search this never comes: an `IndexSet` takes at most 9 * 2^28 values, and
            // answers past them as if memory had been refused. That many states take more than 25 GB.
            return self.number_of(&state).ok_or(AllocError);
        }
        let (place, _) = self.states.insert_full(state)?;
        Ok(place as u32)
    }
}
