//! Ground tasks.
ghost use Rattle.std.specs.Prelude.{◌≡◌};

use crate::object_list::ObjectList;
use std::alloc::AllocError;
use std::hash::{Hash, Hasher};
use std::marker::Model;

/// A compound task or an action, by its number, at objects. Compound tasks come first.
#[derive(Drop)]
pub struct GroundTask {
    name: u32,
    arguments: ObjectList,
}

impl Model for GroundTask {
    ghost use Rattle.htn_model.specs.Problem as model;

    ghost Value = { model.GroundTask };

    ghost coded = { model.ground_task_code };

    ghost view = { λ t. record { name = t.name; arguments = t.arguments } };
}

impl GroundTask {
    /// The task of a number at these objects.
    pub fn new(name: u32, arguments: ObjectList) -> GroundTask
        ensures { result ≡ record { name = name; arguments = arguments } }
    {
        GroundTask { name, arguments }
    }

    /// The number of the compound task or the action.
    pub fn name(&self) -> u32
        ensures { result ≡ self.now.name }
    {
        self.name
    }

    /// The objects.
    pub fn arguments(&self) -> &[u16]
        ensures { result.now ≡ self.now.arguments }
    {
        self.arguments.as_slice()
    }
}

impl Clone for GroundTask {
    ghost is_clone = { λ a b. b ≡ a };

    ghost is_infallible = { λ a. ⊥ };

    fn clone(&self) -> Result<Self, AllocError> {
        Ok(GroundTask {
            name: self.name,
            arguments: self.arguments.clone()?,
        })
    }
}

impl PartialEq for GroundTask {
    ghost use Rattle.htn_model.specs.Problem.{ground_task_eq};
    ghost use Rattle.htn_model.specs.Equality.{ground_task_eq-partial};

    ghost eq = { ground_task_eq };

    ghost laws = { ground_task_eq-partial };

    fn eq(&self, other: &GroundTask) -> bool {
        self.name == other.name && self.arguments == other.arguments
    }
}

impl Eq for GroundTask {
    ghost use Rattle.htn_model.specs.Equality.{ground_task_eq-laws};

    ghost laws = { ground_task_eq-laws };
}

impl Hash for GroundTask {
    ghost use Rattle.htn_ground.specs.Hashes.{ground_task_hash, ground_task_hash-Alike};

    ghost hash_input = { ground_task_hash };

    ghost respects_eq = { ground_task_hash-Alike.fed };

    fn hash<H: Hasher>(&self, state: &mut H) {
        self.name.hash(state);
        self.arguments.hash(state);
    }
}
