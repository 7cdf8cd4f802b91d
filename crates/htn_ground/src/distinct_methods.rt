//! The instances of a ground task's methods, and of the initial network, without those whose network an
//! earlier one has.
ghost use Rattle.std.specs.Prelude.{◌≡◌, [], IfOk, List, OnOk, length, ℕ};
ghost use Rattle.std.specs.List.{All};
ghost use Rattle.htn_model.specs.Instance as instance;
ghost use Rattle.htn_model.specs.Instances as model;
ghost use Rattle.htn_model.specs.Task.{IsMethodSchema};
ghost use Rattle.htn_ground.specs.Distinct.{ThirdIsDropped, any_network, distinct, gathered, is_live, live_methods};
ghost use Rattle.htn_ground.specs.Fixed.{IsFixed};
ghost use Rattle.htn_ground.specs.Methods.{instances_for};
ghost use Rattle.htn_ground.specs.Shown.{AreShown};

use crate::by_network::ByNetwork;
use crate::conditions::initial_conditions;
use crate::dead::is_dead;
use crate::fixed::FixedLiteral;
use crate::ground_task::GroundTask;
use crate::instance::Instance;
use crate::instances::distinct_values;
use crate::methods::{conditions_for, initial_instance, literals_for, method_instance, number_at};
use crate::object_list::ObjectList;
use crate::shown::shown_parameters;
use htn_task::{FormulaList, InitialSchema, MethodSchema, Task};
use indexmap::IndexSet;
use std::alloc::{AllocError, Global};

/// For each parameter of a method whether it occurs in the precondition step or in a subtask.
fn shown_in_method(alloc: Global, method: &MethodSchema) -> Result<Vec<bool>, AllocError>
    ensures { IfOk result (λ v. AreShown method.now.precondition method.now.network.subtasks (length method.now.parameters) v.items) }
{
    let count = method.parameters().len();
    let shown = shown_parameters(alloc, method.precondition(), method.network(), count)?;
    Ok(shown)
}

/// For each parameter of the initial network whether it occurs in a subtask.
fn shown_initially(alloc: Global, initial: &InitialSchema) -> Result<Vec<bool>, AllocError>
    ensures { IfOk result (λ v. AreShown [] initial.now.network.subtasks (length initial.now.parameters) v.items) }
{
    let empty = FormulaList::of(Vec::new(alloc));
    let count = initial.parameters().len();
    let shown = shown_parameters(alloc, &empty, initial.network(), count)?;
    Ok(shown)
}

/// Values of a method's instances for a ground task, in order: of those with one network at least the
/// first, unless it is dead.
fn distinct_values_for(
    alloc: Global,
    task: &Task,
    goal: &GroundTask,
    method: &MethodSchema,
    literals: &[FixedLiteral],
) -> Result<Vec<ObjectList>, AllocError>
    requires typed { IsMethodSchema task.now method.now }
    requires fixed { All (IsFixed task.now method.now.precondition) literals.now }
    ensures { IfOk result (λ v. (number : ℕ) (kept : List instance.Instance)
        → gathered (is_live task.now) (model.method_instance task.now number method.now) kept v.items
        ≡ gathered (is_live task.now) (model.method_instance task.now number method.now) kept (instances_for task.now goal.now method.now)) }
{
    let some = conditions_for(alloc, task, goal, method)?;
    let Some(conditions) = some else {
        return Ok(Vec::new(alloc));
    };
    let shown = shown_in_method(alloc, method)?;
    let values = distinct_values(alloc, task, &conditions, literals, &shown)?;
    Ok(values)
}

/// Puts the instances of a method at these values that are not dead into a set.
fn insert_methods(
    alloc: Global,
    task: &Task,
    number: u16,
    method: &MethodSchema,
    values: &[ObjectList],
    found: &mut IndexSet<ByNetwork>,
) -> Result<(), AllocError>
    ensures { OnOk result (found.new.keys ≡ gathered (is_live task.now) (model.method_instance task.now number method.now) found.old.keys values.now) }
{
    for choice in values {
        let instance = method_instance(alloc, task, number, method, choice.clone()?)?;
        if !is_dead(task, &instance) {
            let _ = found.insert(ByNetwork::new(instance))?;
        }
    }
    Ok(())
}

/// The instances of a set in their order.
fn instances_in(alloc: Global, found: IndexSet<ByNetwork>) -> Result<Vec<Instance>, AllocError>
    ensures { IfOk result (λ v. v.items ≡ found.keys) }
{
    let instances: Vec<Instance> = found
        .into_iter()
        .map(|one| one.into_instance())
        .collect(alloc)?;
    Ok(instances)
}

/// The instances of a ground task's methods that are not dead, in the order of all instances, without each one whose
/// network an earlier one has: no plan is better by such a one. No numbers are counted. An error means that memory was
/// refused, or that the task has more than 65,536 methods, as no checked text has.
pub fn distinct_live_methods_of(
    alloc: Global,
    task: &Task,
    goal: &GroundTask,
) -> Result<Vec<Instance>, AllocError>
    ensures { IfOk result (λ v. v.items ≡ distinct (live_methods task.now goal.now)) }
{
    let mut found = IndexSet::new(alloc);
    for (place, method) in task.methods().iter().enumerate() {
        let number = number_at(place)?;
        let literals = literals_for(alloc, task, goal, method)?;
        let values = distinct_values_for(alloc, task, goal, method, &literals)?;
        insert_methods(alloc, task, number, method, &values, &mut found)?;
    }
    let instances = instances_in(alloc, found)?;
    Ok(instances)
}

/// Puts the instances of the initial network at these values into a set.
fn insert_initials(
    alloc: Global,
    task: &Task,
    values: &[ObjectList],
    found: &mut IndexSet<ByNetwork>,
) -> Result<(), AllocError>
    ensures { OnOk result (found.new.keys ≡ gathered any_network (model.initial_instance task.now) found.old.keys values.now) }
{
    for choice in values {
        let instance = initial_instance(alloc, task, choice.clone()?)?;
        let _ = found.insert(ByNetwork::new(instance))?;
    }
    Ok(())
}

/// The instances of the initial network in order, without each one whose network an earlier one has. No numbers are
/// counted. An error means that memory was refused.
pub fn distinct_initials(alloc: Global, task: &Task) -> Result<Vec<Instance>, AllocError>
    ensures { IfOk result (λ v. v.items ≡ distinct (model.initials task.now)) }
{
    let initial = task.initial_network();
    let conditions = initial_conditions(alloc, task, initial)?;
    let shown = shown_initially(alloc, initial)?;
    let values = distinct_values(alloc, task, &conditions, &[], &shown)?;
    let mut found = IndexSet::new(alloc);
    insert_initials(alloc, task, &values, &mut found)?;
    let instances = instances_in(alloc, found)?;
    Ok(instances)
}

/// Of four instances, of which the third has the network of the first, the others are the distinct ones.
pub fn third_instance_is_dropped()
    ensures { ThirdIsDropped }
{}
