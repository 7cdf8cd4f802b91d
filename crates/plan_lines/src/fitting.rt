//! The instances of a plan file's lines that may fit into its run.
ghost use Rattle.std.specs.Prelude.{◌≡◌, ◌++◌, IfOk, OnOk, length, map};
ghost use Rattle.htn_model.specs.Instances as model;
ghost use Rattle.plan_lines.specs.Fitting.{AreToFit};
ghost use Rattle.plan_lines.specs.Found.{AreValuesToFit, IsFor};
ghost use Rattle.plan_lines.specs.Lines.{IsInitial, IsNamedInstance};

use crate::children::{Children, count_children};
use crate::ever_true::EverTrue;
use crate::given::bind_all;
use crate::instances::no_values;
use crate::matching::values_to_fit;
use crate::names::Names;
use htn_ground::{
    GroundTask, Instance, ObjectList, initial_conditions, initial_instance, method_conditions,
    method_instance,
};
use htn_task::{FormulaList, MethodSchema, Task};
use plan_text::Word;
use std::alloc::{AllocError, Global};

/// The number of a method at a place. A task that is checked from texts has at most 65,535 methods. Past them, in a
/// `Task` that is made otherwise, the answer is as if memory had been refused.
fn method_number(place: usize) -> Result<u16, AllocError>
    ensures { IfOk result (λ n. n ≡ place) }
{
    match u16::try_from(place) {
        Ok(number) => Ok(number),
        Err(_) => Err(AllocError),
    }
}

/// The values of a method's instances for a task that have the children's tasks and whose step may hold.
fn method_values(
    alloc: Global,
    task: &Task,
    ever: &EverTrue<'_>,
    goal: &GroundTask,
    method: &MethodSchema,
    children: &Children,
    counts: &[usize],
) -> Result<Vec<ObjectList>, AllocError>
    requires counts { length counts.now ≡ length children.now }
    ensures { IfOk result (λ v. AreValuesToFit task.now ever.now children.now counts.now method.now.precondition method.now.network (IsFor task.now goal.now method.now) v.items) }
{
    if method.task().name() != goal.name() {
        return Ok(Vec::new(alloc));
    }
    let mut given = no_values(alloc, method.parameters())?;
    if !bind_all(&mut given, method.task().arguments(), goal.arguments()) {
        return Ok(Vec::new(alloc));
    }
    let conditions = method_conditions(alloc, task, method)?;
    let values = values_to_fit(
        alloc,
        task,
        ever,
        &conditions,
        method.precondition(),
        method.network(),
        children,
        counts,
        &given,
    )?;
    Ok(values)
}

/// Appends the instances of a method at these values.
fn push_instances(
    alloc: Global,
    task: &Task,
    number: u16,
    method: &MethodSchema,
    values: &[ObjectList],
    found: &mut Vec<Instance>,
) -> Result<(), AllocError>
    ensures { OnOk result (found.new.items ≡ found.old.items ++ map (model.method_instance task.now number method.now) values.now) }
{
    for choice in values {
        found.push(method_instance(alloc, task, number, method, choice.clone()?)?)?;
    }
    Ok(())
}

/// The instances of a task's methods with this name that have the children's tasks as their subtasks, and whose
/// positive literals are ever true: each such network is among those of the instances.
pub fn instances_to_fit(
    alloc: Global,
    names: &Names<'_>,
    ever: &EverTrue<'_>,
    goal: &GroundTask,
    method: &Word,
    children: &[&GroundTask],
) -> Result<Vec<Instance>, AllocError>
    ensures { IfOk result (λ v. AreToFit ever.now (IsNamedInstance names.now goal.now method.now) (map (λ c. c.now) children.now) (map (λ i. i.network) v.items)) }
{
    let task = names.task();
    let (tasks, counts) = count_children(alloc, children)?;
    let methods = task.methods();
    let mut found = Vec::new(alloc);
    for (place, schema) in methods.iter().enumerate() {
        if schema.name().as_bytes() == method.as_bytes() {
            let number = method_number(place)?;
            let values = method_values(alloc, task, ever, goal, schema, &tasks, &counts)?;
            push_instances(alloc, task, number, schema, &values, &mut found)?;
        }
    }
    Ok(found)
}

/// The instances of the initial network that may fit into a run: each that has the roots' tasks.
pub fn initials_to_fit(
    alloc: Global,
    names: &Names<'_>,
    ever: &EverTrue<'_>,
    roots: &[&GroundTask],
) -> Result<Vec<Instance>, AllocError>
    ensures { IfOk result (λ v. AreToFit ever.now (IsInitial names.now) (map (λ c. c.now) roots.now) (map (λ i. i.network) v.items)) }
{
    let task = names.task();
    let (tasks, counts) = count_children(alloc, roots)?;
    let initial = task.initial_network();
    let empty = FormulaList::of(Vec::new(alloc));
    let conditions = initial_conditions(alloc, task, initial)?;
    let given = no_values(alloc, initial.parameters())?;
    let values = values_to_fit(
        alloc,
        task,
        ever,
        &conditions,
        &empty,
        initial.network(),
        &tasks,
        &counts,
        &given,
    )?;
    let mut found = Vec::new(alloc);
    for choice in &values {
        found.push(initial_instance(alloc, task, choice.clone()?)?)?;
    }
    Ok(found)
}
