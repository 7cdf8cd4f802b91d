//! Nodes by numbers.
ghost use Rattle.std.specs.Prelude.{◌≡◌, ◌<◌, ◌^◌, ◌++◌, ℕ, List, IfNone, IfOk, IfSome, OnOk, length, get_or};
ghost use Rattle.htn_model.specs.Problem as model;
ghost use Rattle.htn_model.specs.Choice.{child_of};
ghost use Rattle.htn_ground.specs.Views.{child_view, children_of};
ghost use Rattle.network_table.specs.Children.{AreBounds, AreKept, AreWhole, IsNumber, numbered_children};

use htn_ground::Child;
use indexmap::IndexSet;
use std::alloc::{AllocError, Global};

/// Nodes with numbers, each with a lower bound on the steps that it takes; the caller supplies the bound.
pub struct ChildTable {
    children: IndexSet<Child>,
    bounds: Vec<u32>,
}

impl Drop for ChildTable {
    fn drop(self) {
        let ChildTable {
            children: _,
            bounds: _,
        } = self;
    }
}

impl ChildTable {
    /// No node has a number.
    pub(crate) fn new(alloc: Global) -> ChildTable
        ensures whole { AreWhole result }
        ensures bounds { (measure : model.Child → ℕ) → AreBounds measure result }
    {
        ChildTable {
            children: IndexSet::new(alloc),
            bounds: Vec::new(alloc),
        }
    }

    /// The node of a number.
    pub fn child(&self, id: u32) -> &Child
        requires { id < length (numbered_children self.now) }
        ensures { child_view result.now ≡ child_of (numbered_children self.now) id }
    {
        &self.children.as_slice()[id as usize]
    }

    /// The number of a node, if it has one that a word of 32 bits holds. It takes no memory.
    pub fn number_of(&self, child: &Child) -> Option<u32>
        ensures some { IfSome result (λ id. IsNumber self.now id (child_view child.now)) }
        ensures none { IfNone result ((id : ℕ) → id < 2 ^ 32 → IsNumber self.now id (child_view child.now) → ⊥) }
    {
        let place = self.children.get_index_of(child)?;
        let Ok(id) = u32::try_from(place) else {
            return None;
        };
        Some(id)
    }

    /// The nodes in the order of their numbers.
    pub fn children(&self) -> &[Child]
        ensures { children_of result.now ≡ numbered_children self.now }
    {
        self.children.as_slice()
    }

    /// The bound of a number.
    pub fn bound(&self, id: u32) -> u32
        requires whole { AreWhole self.now }
        requires known { id < length (numbered_children self.now) }
        ensures { result ≡ get_or self.now.bounds.items id 0 }
    {
        self.bounds[id as usize]
    }

    /// The number of a node, which is added with this bound if it is new.
    pub(crate) fn keep(&mut self, child: Child, bound: u32) -> Result<u32, AllocError>
        requires { AreWhole self.old }
        ensures whole { OnOk result (AreWhole self.new) }
        ensures kept { OnOk result (AreKept self.old self.new) }
        ensures number { IfOk result (λ id. IsNumber self.new id (child_view child)) }
        ensures bounds { OnOk result ((measure : model.Child → ℕ) → measure (child_view child) ≡ bound
            → AreBounds measure self.old → AreBounds measure self.new) }
    {
        let (place, is_new) = self.children.insert_full(child)?;
        if is_new {
            self.bounds.push(bound)?;
        }
        // This never fails: an `IndexSet` takes at most 9 * 2^28 values, and answers past them as if memory had been
        // refused. That many nodes take more than 25 GB.
        let Ok(id) = u32::try_from(place) else {
            return Err(AllocError);
        };
        Ok(id)
    }
}
