//! Ground atoms.
ghost use Rattle.std.specs.Prelude.{◌≡◌, IfOk};
ghost use Rattle.std.specs.Cmp.Lexicographic.{slice_cmp};
ghost use Rattle.std.specs.Ordering.{as_partial_cmp, nat_cmp};

use smallvec::SmallVec;
use std::alloc::{AllocError, Global};
use std::cmp::Ordering;
use std::hash::{Hash, Hasher};
use std::marker::Model;

/// A predicate at a list of objects, all by their numbers.
pub struct Atom {
    predicate: u16,
    arguments: SmallVec<u16, 4>,
}

impl Drop for Atom {
    fn drop(self) {
        let Atom {
            predicate: _,
            arguments: _,
        } = self;
    }
}

impl Model for Atom {
    ghost use Rattle.htn_model.specs.Atom.{Atom, atom_code};

    ghost Value = { Atom };

    ghost coded = { atom_code };

    ghost view = { λ a. record { predicate = a.predicate; arguments = a.arguments.items } };
}

impl Atom {
    /// The atom of a predicate at these objects.
    pub fn new(alloc: Global, predicate: u16, arguments: &[u16]) -> Result<Self, AllocError>
        ensures { IfOk result (λ a. a ≡ record { predicate = predicate; arguments = arguments.now }) }
    {
        Ok(Atom {
            predicate,
            arguments: SmallVec::from_slice(alloc, arguments)?,
        })
    }

    /// The number of the predicate.
    pub fn predicate(&self) -> u16
        ensures { result ≡ self.now.predicate }
    {
        self.predicate
    }

    /// The numbers of the objects.
    pub fn arguments(&self) -> &[u16]
        ensures { result.now ≡ self.now.arguments }
    {
        self.arguments.as_slice()
    }
}

/// The order of two lists of objects, one by one: most have two or three, for which std's comparison by groups takes
/// longer.
fn compare_arguments(a: &[u16], b: &[u16]) -> Ordering
    ensures { result ≡ slice_cmp nat_cmp a.now b.now }
{
    let both = a.len().min(b.len());
    for i in 0..both {
        let found = a[i].cmp(&b[i]);
        if found.is_ne() {
            return found;
        }
    }
    a.len().cmp(&b.len())
}

impl Clone for Atom {
    ghost is_clone = { λ a b. b ≡ a };

    ghost is_infallible = { λ a. ⊥ };

    fn clone(&self) -> Result<Self, AllocError> {
        Ok(Atom {
            predicate: self.predicate,
            arguments: SmallVec::from_slice(
                *self.arguments.allocator(),
                self.arguments.as_slice(),
            )?,
        })
    }
}

impl PartialEq for Atom {
    ghost use Rattle.htn_model.specs.Atom.{atom_eq};
    ghost use Rattle.htn_model.specs.AtomOrder.{atom_eq-partial};

    ghost eq = { atom_eq };

    ghost laws = { atom_eq-partial };

    fn eq(&self, other: &Atom) -> bool {
        self.predicate == other.predicate && self.arguments == other.arguments
    }
}

impl Eq for Atom {
    ghost use Rattle.htn_model.specs.AtomOrder.{atom_eq-laws};

    ghost laws = { atom_eq-laws };
}

impl Ord for Atom {
    ghost use Rattle.htn_model.specs.Atom.{atom_cmp};
    ghost use Rattle.htn_model.specs.AtomOrder.{atom_cmp-total};
    ghost use Rattle.htn_task.specs.Laws.{atom_cmp-matches};
    ghost use Rattle.std.specs.Prelude.{refl};

    ghost cmp = { atom_cmp };

    ghost total = { atom_cmp-total };

    ghost matches_partial_cmp = { λ x y. refl };

    ghost matches_eq = { atom_cmp-matches };

    fn cmp(&self, other: &Atom) -> Ordering {
        match self.predicate.cmp(&other.predicate) {
            Ordering::Equal => compare_arguments(self.arguments(), other.arguments()),
            unequal => unequal,
        }
    }
}

impl PartialOrd for Atom {
    ghost use Rattle.htn_model.specs.Atom.{atom_cmp};
    ghost use Rattle.htn_task.specs.Laws.{atom_cmp-partial};

    ghost partial_cmp = { as_partial_cmp atom_cmp };

    ghost laws = { atom_cmp-partial };

    fn partial_cmp(&self, other: &Atom) -> Option<Ordering> {
        Some(self.cmp(other))
    }
}

impl Hash for Atom {
    ghost use Rattle.htn_model.specs.Atom.{atom_hash};
    ghost use Rattle.htn_task.specs.Laws.{atom_hash-Alike};

    ghost hash_input = { atom_hash };

    ghost respects_eq = { atom_hash-Alike.fed };

    fn hash<H: Hasher>(&self, state: &mut H) {
        self.predicate.hash(state);
        self.arguments.hash(state);
    }
}
