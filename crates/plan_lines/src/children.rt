//! The tasks of a line's children, each with how many there are.
ghost use Rattle.std.specs.Prelude.{◌≡◌, ◌+◌, ◌<◌, Some, length, map, position, slice_get, IfOk, MatchBool};
ghost use Rattle.htn_model.specs.Problem as model;
ghost use Rattle.htn_model.specs.Problem.{ground_task_eq};
ghost use Rattle.plan_lines.specs.Left.{left_of, once, times};

use htn_ground::GroundTask;
use indexmap::IndexSet;
use std::alloc::{AllocError, Global};
use std::marker::Model;

/// The different tasks of a line's children. Contracts see the list of them.
pub(crate) struct Children {
    tasks: IndexSet<GroundTask>,
}

impl Drop for Children {
    fn drop(self) {
        let Children { tasks: _ } = self;
    }
}

impl Model for Children {
    ghost use Rattle.std.specs.Prelude.{List};
    ghost use Rattle.htn_model.specs.Problem as model;

    ghost Value = { List model.GroundTask };

    ghost view = { λ c. c.tasks.keys };
}

impl Children {
    /// How many different tasks there are.
    pub(crate) fn len(&self) -> usize
        ensures { result ≡ length self.now }
    {
        self.tasks.len()
    }

    /// The task with a number.
    pub(crate) fn task_at(&self, number: usize) -> &GroundTask
        requires { number < length self.now }
        ensures { slice_get self.now number ≡ Some result.now }
    {
        self.tasks.get_index(number).unwrap()
    }

    /// How many of a task are left.
    pub(crate) fn count(&self, left: &[usize], task: &GroundTask) -> usize
        requires { length left.now ≡ length self.now }
        ensures { result ≡ left_of self.now left.now task.now }
    {
        match self.tasks.get_index_of(task) {
            Some(number) => left[number],
            None => 0,
        }
    }

    /// Takes one of a task from what is left, if there is one.
    pub(crate) fn take(&self, left: &mut Vec<usize>, task: &GroundTask) -> bool
        requires { length left.old.items ≡ length self.now }
        ensures long { length left.new.items ≡ length self.now }
        ensures taken { MatchBool result
            ((g : model.GroundTask) → left_of self.now left.old.items g ≡ once (ground_task_eq g task.now) + left_of self.now left.new.items g)
            (left_of self.now left.old.items task.now ≡ 0) }
    {
        let Some(number) = self.tasks.get_index_of(task) else {
            return false;
        };
        if left[number] == 0 {
            return false;
        }
        left[number] -= 1;
        true
    }
}

/// The different tasks of children, and how many there are of each.
pub(crate) fn count_children(
    alloc: Global,
    children: &[&GroundTask],
) -> Result<(Children, Vec<usize>), AllocError>
    ensures long { IfOk result (λ r. length r.1.items ≡ length r.0) }
    ensures counts { IfOk result (λ r. (g : model.GroundTask) → times g (map (λ c. c.now) children.now) ≡ left_of r.0 r.1.items g) }
{
    let mut tasks = IndexSet::new(alloc);
    let mut counts: Vec<usize> = Vec::new(alloc);
    for child in children {
        let (number, is_new) = tasks.insert_full((*child).clone()?)?;
        if is_new {
            counts.push(1)?;
        } else {
            let Some(count) = counts[number].checked_add(1) else {
                return Err(AllocError);
            };
            counts[number] = count;
        }
    }
    Ok((Children { tasks }, counts))
}
