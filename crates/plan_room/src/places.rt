//! At which place of a list a task comes first.
ghost use Rattle.std.specs.Prelude.{◌≡◌, None, Some, IfOk, OnOk, cond};
ghost use Rattle.htn_model.specs.Problem.{ground_task_eq};
ghost use Rattle.plan_room.specs.Links.{place_of};

use htn_ground::GroundTask;
use indexmap::IndexMap;
use std::alloc::{AllocError, Global};
use std::hash::{Hash, Hasher};
use std::marker::Model;

/// A task as the key of a map.
#[derive(Drop)]
struct TaskKey<'a> {
    task: &'a GroundTask,
}

impl<'a> Model for TaskKey<'a> {
    ghost use Rattle.htn_model.specs.Problem as model;

    ghost Value = { model.GroundTask };

    ghost view = { λ k. k.task.now };
}

impl<'a> PartialEq for TaskKey<'a> {
    ghost use Rattle.htn_model.specs.Problem.{ground_task_eq};
    ghost use Rattle.htn_model.specs.Equality.{ground_task_eq-partial};

    ghost eq = { ground_task_eq };

    ghost laws = { ground_task_eq-partial };

    fn eq(&self, other: &TaskKey<'a>) -> bool {
        self.task == other.task
    }
}

impl<'a> Eq for TaskKey<'a> {
    ghost use Rattle.htn_model.specs.Equality.{ground_task_eq-laws};

    ghost laws = { ground_task_eq-laws };
}

impl<'a> Hash for TaskKey<'a> {
    ghost use Rattle.htn_ground.specs.Hashes.{ground_task_hash, ground_task_hash-Alike};

    ghost hash_input = { ground_task_hash };

    ghost respects_eq = { ground_task_hash-Alike.fed };

    fn hash<H: Hasher>(&self, state: &mut H) {
        self.task.hash(state);
    }
}

/// The place at which each task comes first.
pub(crate) struct Places<'a> {
    first: IndexMap<TaskKey<'a>, usize>,
}

// `Drop` is written by hand: a derived one is expanded, and proved, at each way out of each owner.
impl Drop for Places<'_> {
    fn drop(self) {
        let Places { first: _ } = self;
    }
}

impl<'a> Places<'a> {
    ghost use Rattle.htn_model.specs.Problem as problem;

    /// No task comes anywhere.
    pub(crate) fn new(alloc: Global) -> Places<'a>
        ensures { (t : problem.GroundTask) → place_of result t ≡ None }
    {
        Places {
            first: IndexMap::new(alloc),
        }
    }

    /// Where a task comes first.
    pub(crate) fn place(&self, task: &GroundTask) -> Option<usize>
        ensures { result ≡ place_of self.now task.now }
    {
        self.first.get(&TaskKey { task }).copied()
    }

    /// Stores the place of a task; the answer is the one that was stored before.
    pub(crate) fn note(
        &mut self,
        task: &'a GroundTask,
        place: usize,
    ) -> Result<Option<usize>, AllocError>
        ensures before { IfOk result (λ old. old ≡ place_of self.old task.now) }
        ensures noted { OnOk result ((t : problem.GroundTask) → place_of self.new t ≡ cond (ground_task_eq task.now t) (Some place) (place_of self.old t)) }
    {
        let before = self.first.insert(TaskKey { task }, place)?;
        Ok(before)
    }
}
