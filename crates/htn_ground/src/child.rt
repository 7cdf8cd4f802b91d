//! The nodes of ground networks.
ghost use Rattle.std.specs.Prelude.{◌≡◌, ◌∷◌, ◌++◌, ◌↔◌, [], IsTrue, OnErr, OnOk, length};
ghost use Rattle.htn_ground.specs.Hashes.{children_eq};
ghost use Rattle.htn_ground.specs.Views.{child_view, children_of};

use crate::ground_task::GroundTask;
use crate::object_list::ObjectList;
use htn_task::LiteralList;
use smallvec::SmallVec;
use std::alloc::{AllocError, Global};
use std::default::MadeWith;
use std::hash::{Hash, Hasher};
use std::marker::Model;

/// A node of a ground network.
#[derive(Drop)]
pub enum Child {
    /// The step that carries a method's precondition.
    Precondition(LiteralList),
    Action(GroundTask),
    /// A compound task.
    Task(GroundTask),
}

impl Clone for Child {
    ghost is_clone = { λ a b. b ≡ a };

    ghost is_infallible = { λ a. ⊥ };

    fn clone(&self) -> Result<Self, AllocError> {
        match self {
            Child::Precondition(literals) => Ok(Child::Precondition(literals.clone()?)),
            Child::Action(task) => Ok(Child::Action(task.clone()?)),
            Child::Task(task) => Ok(Child::Task(task.clone()?)),
        }
    }
}

impl PartialEq for Child {
    ghost use Rattle.htn_model.specs.Problem.{child_eq};
    ghost use Rattle.htn_model.specs.Equality.{child_eq-laws};
    ghost use Rattle.std.specs.Cmp.{on_equiv, partial_equiv_from_equiv};
    ghost use Rattle.std.specs.Ordering.{on};
    ghost use Rattle.htn_ground.specs.Views.{child_view};

    ghost eq = { on child_view child_eq };

    ghost laws = { partial_equiv_from_equiv (on_equiv child_view child_eq-laws) };

    fn eq(&self, other: &Child) -> bool {
        match (self, other) {
            (Child::Precondition(literals), Child::Precondition(others)) => literals == others,
            (Child::Action(task), Child::Action(other)) => task == other,
            (Child::Task(task), Child::Task(other)) => task == other,
            _ => false,
        }
    }
}

impl Eq for Child {
    ghost use Rattle.htn_model.specs.Equality.{child_eq-laws};
    ghost use Rattle.std.specs.Cmp.{on_equiv};
    ghost use Rattle.htn_ground.specs.Views.{child_view};

    ghost laws = { on_equiv child_view child_eq-laws };
}

impl Hash for Child {
    ghost use Rattle.std.specs.Hash.{on_Alike};
    ghost use Rattle.htn_ground.specs.Hashes.{child_hash, child_hash-Alike};
    ghost use Rattle.htn_ground.specs.Views.{child_view};

    ghost hash_input = { λ x. child_hash (child_view x) };

    ghost respects_eq = { (on_Alike child_view child_hash-Alike).fed };

    fn hash<H: Hasher>(&self, state: &mut H) {
        match self {
            Child::Precondition(literals) => {
                0u8.hash(state);
                literals.hash(state);
            }
            Child::Action(task) => {
                1u8.hash(state);
                task.hash(state);
            }
            Child::Task(task) => {
                2u8.hash(state);
                task.hash(state);
            }
        }
    }
}

impl MadeWith<Global> for Child {
    fn made_with(alloc: Global) -> Child {
        Child::Action(GroundTask::new(0, ObjectList::new(alloc)))
    }
}

/// The nodes of a ground network, in their order.
pub struct ChildList {
    children: SmallVec<Child, 4>,
}

impl Drop for ChildList {
    fn drop(self) {
        let ChildList { children: _ } = self;
    }
}

impl Model for ChildList {
    ghost use Rattle.std.specs.Prelude.{List};
    ghost use Rattle.std.specs.Coded.{coded_list};
    ghost use Rattle.htn_model.specs.Problem as model;
    ghost use Rattle.htn_ground.specs.Views.{children_of};

    ghost Value = { List model.Child };

    ghost coded = { coded_list model.child_code };

    ghost view = { λ l. children_of l.children.items };
}

impl ChildList {
    /// No nodes.
    pub fn new(alloc: Global) -> ChildList
        ensures { result ≡ [] }
    {
        ChildList {
            children: SmallVec::new(alloc),
        }
    }

    /// How many nodes there are.
    pub fn len(&self) -> usize
        ensures { result ≡ length self.now }
    {
        self.children.len()
    }

    /// Whether there is no node.
    pub fn is_empty(&self) -> bool
        ensures { IsTrue result ↔ (self.now ≡ []) }
    {
        self.children.is_empty()
    }

    /// The nodes in their order.
    pub fn as_slice(&self) -> &[Child]
        ensures { children_of result.now ≡ self.now }
    {
        self.children.as_slice()
    }

    /// Adds a node at the end. Where memory is refused the list stays as it was.
    pub fn push(&mut self, child: Child) -> Result<(), AllocError>
        ensures ok { OnOk result (self.new ≡ self.old ++ child_view child ∷ []) }
        ensures err { OnErr result (self.new ≡ self.old) }
    {
        self.children.push(child)?;
        Ok(())
    }
}

impl Clone for ChildList {
    ghost is_clone = { λ a b. b ≡ a };

    ghost is_infallible = { λ a. ⊥ };

    fn clone(&self) -> Result<Self, AllocError> {
        let mut children = ChildList::new(*self.children.allocator());
        for child in self.as_slice() {
            children.push(child.clone()?)?;
        }
        Ok(children)
    }
}

impl PartialEq for ChildList {
    ghost use Rattle.htn_ground.specs.Hashes.{children_eq, children_eq-partial};

    ghost eq = { children_eq };

    ghost laws = { children_eq-partial };

    fn eq(&self, other: &ChildList) -> bool
        ensures value { result ≡ children_eq self.now other.now }
        ensures same { IsTrue result ↔ (self.now ≡ other.now) }
    {
        self.children == other.children
    }
}

impl Eq for ChildList {
    ghost use Rattle.htn_ground.specs.Hashes.{children_eq-laws};

    ghost laws = { children_eq-laws };
}

impl Hash for ChildList {
    ghost use Rattle.htn_ground.specs.Hashes.{children_hash, children_hash-Alike};

    ghost hash_input = { children_hash };

    ghost respects_eq = { children_hash-Alike.fed };

    fn hash<H: Hasher>(&self, state: &mut H) {
        self.children.hash(state);
    }
}
