//! The checks that what was found is right.
ghost use Rattle.std.specs.Prelude.{◌≡◌, false, IfOk, IsTrue};
ghost use Rattle.std.specs.List.{All, list_all};
ghost use Rattle.never_applied.specs.Fine.{IsActionRight, IsRight, IsTaskRight, is_fine};

use crate::fine::Fine;
use crate::usable::Usable;
use htn_ground::{GroundTask, Instance, action_of, counted_live_methods_of};
use htn_task::Task;
use std::alloc::{AllocError, Global};

impl Fine {
    /// Whether an action is never carried out, or fine and with effects that the facts allow.
    fn is_action_right(
        &self,
        alloc: Global,
        task: &Task,
        goal: &GroundTask,
    ) -> Result<bool, AllocError>
        ensures { IfOk result (λ b. IsTrue b → IsActionRight task.now self.now goal.now) }
    {
        let action = action_of(alloc, task, goal)?;
        match &action {
            Some(action) => {
                let is_possible = self.facts.are_possible(action.precondition.as_slice());
                Ok(!is_possible || (self.facts.has_effects(action) && self.actions.contains(goal)))
            }
            None => Ok(true),
        }
    }

    fn are_actions_right(
        &self,
        alloc: Global,
        task: &Task,
        goals: &[GroundTask],
    ) -> Result<bool, AllocError>
        ensures { IfOk result (λ b. IsTrue b → All (IsActionRight task.now self.now) goals.now) }
    {
        for goal in goals {
            let is_right = self.is_action_right(alloc, task, goal)?;
            if !is_right {
                return Ok(false);
            }
        }
        Ok(true)
    }

    /// Whether none of some instances has fine nodes only.
    fn are_lost(&self, instances: &[(Option<u64>, Instance)]) -> bool
        ensures { IsTrue result
            → All (λ p. list_all (is_fine self.now) p.1.network.children ≡ false) instances.now }
    {
        for pair in instances {
            let is_used = self.are_fine(pair.1.children().as_slice());
            if is_used {
                return false;
            }
        }
        true
    }

    /// Whether a compound task is fine, or none of its live instances has fine nodes only.
    fn is_task_right(
        &self,
        alloc: Global,
        task: &Task,
        goal: &GroundTask,
    ) -> Result<bool, AllocError>
        ensures { IfOk result (λ b. IsTrue b → IsTaskRight task.now self.now goal.now) }
    {
        let is_known = self.tasks.contains(goal);
        if is_known {
            return Ok(true);
        }
        let instances = counted_live_methods_of(alloc, task, goal)?;
        Ok(self.are_lost(&instances))
    }

    fn are_tasks_right(
        &self,
        alloc: Global,
        task: &Task,
        goals: &[GroundTask],
    ) -> Result<bool, AllocError>
        ensures { IfOk result (λ b. IsTrue b → All (IsTaskRight task.now self.now) goals.now) }
    {
        for goal in goals {
            let is_right = self.is_task_right(alloc, task, goal)?;
            if !is_right {
                return Ok(false);
            }
        }
        Ok(true)
    }

    /// Whether the facts allow the initial state and what the usable actions do, and all is fine that may be.
    pub(crate) fn is_right(
        &self,
        alloc: Global,
        task: &Task,
        usable: &Usable,
    ) -> Result<bool, AllocError>
        ensures { IfOk result (λ b. IsTrue b → IsRight task.now usable.now self.now) }
    {
        if self.is_open || !self.facts.is_within(task.initial_atoms()) {
            return Ok(false);
        }
        let are_actions_right = self.are_actions_right(alloc, task, usable.actions.as_slice())?;
        if !are_actions_right {
            return Ok(false);
        }
        let are_tasks_right = self.are_tasks_right(alloc, task, usable.tasks.as_slice())?;
        Ok(are_tasks_right)
    }
}
