//! The instance of one number. Those before it are counted and not made, so a great number takes no more memory
//! than a small one.
ghost use Rattle.std.specs.Prelude.{◌≡◌, ◌<◌, ◌+◌, ℕ, OnOk, IfNone, IfOk, IfSome, length, slice_get};
ghost use Rattle.std.specs.List.{All};
ghost use Rattle.std.specs.List.Sorted.{IsStrictlySortedBy};
ghost use Rattle.std.specs.Ordering.{nat_cmp};
ghost use Rattle.htn_model.specs.Instances as model;
ghost use Rattle.htn_model.specs.Task.{IsMethodSchema};
ghost use Rattle.htn_ground.specs.Counted.{fitting};
ghost use Rattle.htn_ground.specs.Methods.{instances_for};
ghost use Rattle.htn_ground.specs.Search.{AreRelationsOf, completions, matches};

use crate::conditions::initial_conditions;
use crate::counts::count_completions;
use crate::ground_task::GroundTask;
use crate::instance::Instance;
use crate::instances::values_at;
use crate::methods::{conditions_for, initial_instance, method_instance, number_at};
use crate::object_list::ObjectList;
use crate::relation::Relation;
use htn_task::{MethodSchema, Task};
use std::alloc::{AllocError, Global};

/// The distance of a number past `count`; None where the number is below it, or where the count does not fit 64 bits.
fn number_past(number: u64, count: Option<u64>) -> Option<u64>
    ensures past { IfSome result (λ left. (n : ℕ) → count ≡ fitting n → number ≡ n + left) }
    ensures within { IfNone result ((n : ℕ) → count ≡ fitting n → number < n) }
{
    match count {
        Some(count) => number.checked_sub(count),
        None => None,
    }
}

/// Appends the object that the next parameter has in the completion of this number. The number then counts among the
/// completions with this object.
fn push_next(
    domains: &[ObjectList],
    relations: &[Relation],
    values: &mut ObjectList,
    number: &mut u64,
) -> Result<(), AllocError>
    requires small { length values.old < length domains.now }
    requires relations { AreRelationsOf relations.now (length domains.now) }
    requires ascending { All (IsStrictlySortedBy nat_cmp) domains.now }
    requires number { number.old < length (completions domains.now relations.now values.old) }
    ensures longer { OnOk result (length values.new ≡ length values.old + 1) }
    ensures within { OnOk result (number.new < length (completions domains.now relations.now values.new)) }
    ensures same { OnOk result (slice_get (completions domains.now relations.now values.new) number.new
        ≡ slice_get (completions domains.now relations.now values.old) number.old) }
{
    let depth = values.len();
    let objects = domains[depth].as_slice();
    for object in objects {
        values.push(*object)?;
        let count = count_completions(domains, relations, values)?;
        let Some(left) = number_past(*number, count) else {
            return Ok(());
        };
        *number = left;
        values.pop();
    }
    unreachable!()
}

/// The assignment of a number among those of which all relations hold; None where the number is past them, and then
/// their count is subtracted from it.
pub(crate) fn assignment_at(
    alloc: Global,
    domains: &[ObjectList],
    relations: &[Relation],
    number: &mut u64,
) -> Result<Option<ObjectList>, AllocError>
    requires relations { AreRelationsOf relations.now (length domains.now) }
    requires ascending { All (IsStrictlySortedBy nat_cmp) domains.now }
    ensures found { IfOk result (λ o. o ≡ slice_get (matches domains.now relations.now) number.old) }
    ensures past { IfOk result (λ o. IfNone o (number.old ≡ length (matches domains.now relations.now) + number.new)) }
{
    let mut values = ObjectList::new(alloc);
    let count = count_completions(domains, relations, &mut values)?;
    if let Some(left) = number_past(*number, count) {
        *number = left;
        return Ok(None);
    }
    while values.len() < domains.len() {
        push_next(domains, relations, &mut values, number)?;
    }
    Ok(Some(values))
}

/// The values of the instance of a number among those of a method for a ground task; None where the number is past
/// them, and then their count is subtracted from it.
fn method_values_at(
    alloc: Global,
    task: &Task,
    goal: &GroundTask,
    method: &MethodSchema,
    number: &mut u64,
) -> Result<Option<ObjectList>, AllocError>
    requires { IsMethodSchema task.now method.now }
    ensures found { IfOk result (λ o. o ≡ slice_get (instances_for task.now goal.now method.now) number.old) }
    ensures past { IfOk result (λ o. IfNone o (number.old ≡ length (instances_for task.now goal.now method.now) + number.new)) }
{
    let Some(conditions) = conditions_for(alloc, task, goal, method)? else {
        return Ok(None);
    };
    values_at(alloc, task, &conditions, number)
}

/// The instance of this number among all of a ground task's methods, in the order of `methods_of`. An
/// error means that memory was refused, or that the instance's method is past the 65,536th, as none of a
/// checked text is.
pub fn instance_at(
    alloc: Global,
    task: &Task,
    goal: &GroundTask,
    number: u64,
) -> Result<Option<Instance>, AllocError>
    ensures { IfOk result (λ o. o ≡ slice_get (model.methods_of task.now goal.now) number) }
{
    let mut left = number;
    for (place, method) in task.methods().iter().enumerate() {
        if let Some(values) = method_values_at(alloc, task, goal, method, &mut left)? {
            let instance = method_instance(alloc, task, number_at(place)?, method, values)?;
            return Ok(Some(instance));
        }
    }
    Ok(None)
}

/// The instance of this number among those of the initial network, in the order of `initials`. An
/// error means that memory was refused.
pub fn initial_at(alloc: Global, task: &Task, number: u64) -> Result<Option<Instance>, AllocError>
    ensures { IfOk result (λ o. o ≡ slice_get (model.initials task.now) number) }
{
    let conditions = initial_conditions(alloc, task, task.initial_network())?;
    let mut left = number;
    let Some(values) = values_at(alloc, task, &conditions, &mut left)? else {
        return Ok(None);
    };
    let instance = initial_instance(alloc, task, values)?;
    Ok(Some(instance))
}
