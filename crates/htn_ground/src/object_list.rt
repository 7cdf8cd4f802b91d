//! Short lists of objects.
ghost use Rattle.std.specs.Prelude.{◌≡◌, List, ℕ, [], ◌∷◌, ◌++◌, length, take, ◌-◌, OnOk, OnErr, IfOk};

use smallvec::SmallVec;
use std::alloc::{AllocError, Global};
use std::hash::{Hash, Hasher};
use std::marker::Model;

/// A list of objects by their numbers, as the arguments of a task or the values of parameters.
pub struct ObjectList {
    objects: SmallVec<u16, 4>,
}

impl Drop for ObjectList {
    fn drop(self) {
        let ObjectList { objects: _ } = self;
    }
}

impl Model for ObjectList {
    ghost use Rattle.std.specs.Prelude.{List, ℕ};

    ghost Value = { List ℕ };

    ghost view = { λ l. l.objects.items };
}

impl ObjectList {
    /// No objects.
    pub fn new(alloc: Global) -> Self
        ensures { result ≡ [] }
    {
        ObjectList {
            objects: SmallVec::new(alloc),
        }
    }

    /// A list of these objects.
    pub fn of(alloc: Global, objects: &[u16]) -> Result<Self, AllocError>
        ensures { IfOk result (λ l. l ≡ objects.now) }
    {
        Ok(ObjectList {
            objects: SmallVec::from_slice(alloc, objects)?,
        })
    }

    /// How many objects there are.
    pub fn len(&self) -> usize
        ensures { result ≡ length self.now }
    {
        self.objects.len()
    }

    /// The objects in their order.
    pub fn as_slice(&self) -> &[u16]
        ensures { result.now ≡ self.now }
    {
        self.objects.as_slice()
    }

    /// Adds an object at the end. Where memory is refused the list stays as it was.
    pub fn push(&mut self, object: u16) -> Result<(), AllocError>
        ensures ok { OnOk result (self.new ≡ self.old ++ object ∷ []) }
        ensures err { OnErr result (self.new ≡ self.old) }
    {
        self.objects.push(object)?;
        Ok(())
    }

    /// Takes the last object off, if there is one.
    pub fn pop(&mut self)
        ensures { self.new ≡ take (length self.old - 1) self.old }
    {
        let _ = self.objects.pop();
    }
}

impl Clone for ObjectList {
    ghost is_clone = { λ a b. b ≡ a };

    ghost is_infallible = { λ a. ⊥ };

    fn clone(&self) -> Result<Self, AllocError> {
        Ok(ObjectList {
            objects: SmallVec::from_slice(*self.objects.allocator(), self.objects.as_slice())?,
        })
    }
}

impl PartialEq for ObjectList {
    ghost use Rattle.std.specs.Cmp.Lexicographic.{pointwise, nat_list_eq_equiv};
    ghost use Rattle.std.specs.Prelude.{nat_eq};
    ghost use Rattle.std.specs.Cmp.{partial_equiv_from_equiv};

    ghost eq = { pointwise nat_eq };

    ghost laws = { partial_equiv_from_equiv nat_list_eq_equiv };

    fn eq(&self, other: &ObjectList) -> bool {
        self.objects == other.objects
    }
}

impl Eq for ObjectList {
    ghost use Rattle.std.specs.Cmp.Lexicographic.{nat_list_eq_equiv};

    ghost laws = { nat_list_eq_equiv };
}

impl Hash for ObjectList {
    ghost use Rattle.std.specs.Cmp.{unsigned_Decides};
    ghost use Rattle.std.specs.Hash as fed;
    ghost use Rattle.std.specs.Hash.{items_Alike, same_Alike};

    ghost hash_input = { fed.slice fed.u16 };

    ghost respects_eq = { (items_Alike (same_Alike fed.u16 unsigned_Decides)).fed };

    fn hash<H: Hasher>(&self, state: &mut H) {
        self.objects.hash(state);
    }
}
