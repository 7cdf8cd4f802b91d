//! The values that the instances of a schema may have.
ghost use Rattle.std.specs.Prelude.{◌≡◌, ◌↔◌, List, ℕ, length, IfOk, IsTrue, MatchOption};
ghost use Rattle.plan_lines.specs.Found.{IsFor};
ghost use Rattle.plan_lines.specs.Values.{Allows, CanBe, HasOne, IsForRoots};

use crate::completion::instance_with;
use crate::given::bind_all;
use crate::instances::no_values;
use htn_ground::{Conditions, GroundTask, initial_conditions, method_conditions};
use htn_task::{MethodSchema, Task, TaskSchema};
use std::alloc::{AllocError, Global};
use std::marker::Model;

/// The values of the instances of one schema: of a method for a task, or of the initial network. Contracts see what the
/// values have to meet, and which of them are given.
pub struct AllowedValues {
    conditions: Conditions,
    given: Vec<Option<u16>>,
}

impl Drop for AllowedValues {
    fn drop(self) {
        let AllowedValues {
            conditions: _,
            given: _,
        } = self;
    }
}

impl Model for AllowedValues {
    ghost use Rattle.std.specs.Prelude.{◌≡◌, length};
    ghost use Rattle.plan_lines.specs.Values as model;

    ghost Value = { model.AllowedValues };

    ghost view = { λ a. record { conditions = a.conditions; given = a.given.items } };

    ghost invariant = { λ a. length a.given.items ≡ length a.conditions.parameters };
}

impl AllowedValues {
    /// Those of the instances of a method for a task; none where no values make the method's task this one.
    pub fn of_method(
        alloc: Global,
        task: &Task,
        goal: &GroundTask,
        method: &MethodSchema,
    ) -> Result<Option<AllowedValues>, AllocError>
        ensures { IfOk result (λ r. MatchOption r ((values : List ℕ) → IsFor task.now goal.now method.now values → ⊥)
            (λ allowed. (values : List ℕ) → Allows task.now allowed values ↔ IsFor task.now goal.now method.now values)) }
    {
        if method.task().name() != goal.name() {
            return Ok(None);
        }
        let mut given = no_values(alloc, method.parameters())?;
        if !bind_all(&mut given, method.task().arguments(), goal.arguments()) {
            return Ok(None);
        }
        let conditions = method_conditions(alloc, task, method)?;
        Ok(Some(AllowedValues { conditions, given }))
    }

    /// Those of the instances of the initial network.
    pub fn of_initial(alloc: Global, task: &Task) -> Result<AllowedValues, AllocError>
        ensures { IfOk result (λ allowed. (values : List ℕ) → Allows task.now allowed values ↔ IsForRoots task.now values) }
    {
        let initial = task.initial_network();
        let given = no_values(alloc, initial.parameters())?;
        let conditions = initial_conditions(alloc, task, initial)?;
        Ok(AllowedValues { conditions, given })
    }

    /// Whether any values are allowed.
    pub fn has_one(&self, alloc: Global, task: &Task) -> Result<bool, AllocError>
        ensures { IfOk result (λ b. IsTrue b ↔ HasOne (Allows task.now self.now)) }
    {
        let found = instance_with(alloc, task, &self.conditions, &self.given)?;
        Ok(found.is_some())
    }

    /// Whether a subtask of the schema is a task at some values that are allowed.
    pub fn can_be(
        &self,
        alloc: Global,
        task: &Task,
        subtask: &TaskSchema,
        goal: &GroundTask,
    ) -> Result<bool, AllocError>
        ensures { IfOk result (λ b. IsTrue b ↔ CanBe (Allows task.now self.now) subtask.now goal.now) }
    {
        if subtask.name() != goal.name() {
            return Ok(false);
        }
        let mut more = Vec::from_slice(alloc, &self.given)?;
        if !bind_all(&mut more, subtask.arguments(), goal.arguments()) {
            return Ok(false);
        }
        let found = instance_with(alloc, task, &self.conditions, &more)?;
        Ok(found.is_some())
    }
}
