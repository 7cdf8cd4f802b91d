//! The ids of actions, by their places.
ghost use Rattle.std.specs.Prelude.{◌≡◌, None, IfOk};
ghost use Rattle.htn_plan.specs.Ids.{IsNumbered, id_of};

use indexmap::IndexMap;
use std::alloc::{AllocError, Global};
use std::hash::{Hash, Hasher};
use std::marker::Model;

/// A place in a forest: child positions from the roots down.
#[derive(Drop)]
pub(crate) struct Place<'a> {
    positions: &'a [usize],
}

impl<'a> Model for Place<'a> {
    ghost use Rattle.std.specs.Prelude.{List, ℕ};

    ghost Value = { List ℕ };

    ghost view = { λ p. p.positions.now };
}

impl<'a> PartialEq for Place<'a> {
    ghost use Rattle.std.specs.Cmp.Lexicographic.{pointwise, nat_list_eq_equiv};
    ghost use Rattle.std.specs.Prelude.{nat_eq};
    ghost use Rattle.std.specs.Cmp.{partial_equiv_from_equiv};

    ghost eq = { pointwise nat_eq };

    ghost laws = { partial_equiv_from_equiv nat_list_eq_equiv };

    fn eq(&self, other: &Place<'a>) -> bool {
        self.positions == other.positions
    }
}

impl<'a> Eq for Place<'a> {
    ghost use Rattle.std.specs.Cmp.Lexicographic.{nat_list_eq_equiv};

    ghost laws = { nat_list_eq_equiv };
}

impl<'a> Hash for Place<'a> {
    ghost use Rattle.std.specs.Cmp.{unsigned_Decides};
    ghost use Rattle.std.specs.Hash as fed;
    ghost use Rattle.std.specs.Hash.{items_Alike, same_Alike};

    ghost hash_input = { fed.slice fed.usize };

    ghost respects_eq = { (items_Alike (same_Alike fed.usize unsigned_Decides)).fed };

    fn hash<H: Hasher>(&self, state: &mut H) {
        self.positions.hash(state);
    }
}

/// The ids of actions, by their places.
pub(crate) struct ActionIds<'a> {
    by_place: IndexMap<Place<'a>, u64>,
}

impl Drop for ActionIds<'_> {
    fn drop(self) {
        let ActionIds { by_place: _ } = self;
    }
}

impl<'a> ActionIds<'a> {
    ghost use Rattle.htn_model.specs.Tree as tree;

    pub fn new(alloc: Global) -> ActionIds<'a>
        ensures { (p : tree.Place) → id_of result p ≡ None }
    {
        ActionIds {
            by_place: IndexMap::new(alloc),
        }
    }

    /// The id of the action at a place, if it has one.
    pub fn get(&self, positions: &[usize]) -> Option<u64>
        ensures { result ≡ id_of self.now positions.now }
    {
        self.by_place.get(&Place { positions }).copied()
    }

    /// The id of the action at a place. Where it has none, it gets the next one.
    pub fn number(&mut self, positions: &'a [usize], next: u64) -> Result<u64, AllocError>
        ensures { IfOk result (λ id. IsNumbered self.old self.new positions.now next id) }
    {
        if let Some(id) = self.get(positions) {
            return Ok(id);
        }
        let _ = self.by_place.insert(Place { positions }, next)?;
        Ok(next)
    }
}
