//! Whether instances are those of the methods of lines.
ghost use Rattle.std.specs.Prelude.{◌≡◌, ℕ, None, Some, IfOk, IsTrue, map, slice_get};
ghost use Rattle.htn_ground.specs.Methods.{instances_for};
ghost use Rattle.htn_model.specs.Instances as model;
ghost use Rattle.htn_model.specs.PlanFile.{IsIn};
ghost use Rattle.htn_task.specs.Views.{term_of, terms_of};
ghost use Rattle.line_details.specs.Found.{IsNumbered};

use htn_ground::{
    GroundTask, Instance, ObjectList, initial_conditions, initial_instance, is_instance,
    method_conditions, method_instance,
};
use htn_task::{MethodSchema, Task, TaskSchema, Term};
use plan_text::Word;
use std::alloc::{AllocError, Global};

/// The object that a term stands for.
fn value_of(values: &[u16], term: Term) -> u16
    ensures { result ≡ model.value_of values.now (term_of term) }
{
    match term {
        Term::Parameter(place) => match values.get(place as usize) {
            Some(value) => *value,
            None => 0,
        },
        Term::Object(object) => object,
    }
}

/// The objects that terms stand for.
fn objects_of(alloc: Global, terms: &[Term], values: &[u16]) -> Result<ObjectList, AllocError>
    ensures { IfOk result (λ l. l ≡ map (model.value_of values.now) (terms_of terms.now)) }
{
    let mut objects = ObjectList::new(alloc);
    for term in terms {
        objects.push(value_of(values, *term))?;
    }
    Ok(objects)
}

/// Whether the task of a schema is this one at values.
fn is_goal(
    alloc: Global,
    schema: &TaskSchema,
    goal: &GroundTask,
    values: &[u16],
) -> Result<bool, AllocError>
    ensures { IfOk result (λ b. IsTrue b → model.ground_task values.now schema.now ≡ goal.now) }
{
    let objects = objects_of(alloc, schema.arguments(), values)?;
    let task = GroundTask::new(schema.name(), objects);
    Ok(&task == goal)
}

/// Whether these are values of an instance of a method for a task.
fn are_values(
    alloc: Global,
    task: &Task,
    goal: &GroundTask,
    method: &MethodSchema,
    values: &[u16],
) -> Result<bool, AllocError>
    ensures { IfOk result (λ b. IsTrue b → IsIn values.now (instances_for task.now goal.now method.now)) }
{
    if !is_goal(alloc, method.task(), goal, values)? {
        return Ok(false);
    }
    let conditions = method_conditions(alloc, task, method)?;
    Ok(is_instance(task, &conditions, values))
}

/// Whether two instances have the same network.
fn have_same_network(instance: &Instance, other: &Instance) -> bool
    ensures { IsTrue result → instance.now.network ≡ other.now.network }
{
    instance.children() == other.children() && instance.order() == other.order()
}

/// Whether an instance is the one that the method with its number has at its values.
fn is_made_by(
    alloc: Global,
    task: &Task,
    number: u16,
    method: &MethodSchema,
    instance: &Instance,
) -> Result<bool, AllocError>
    requires { instance.now.method ≡ Some number }
    ensures { IfOk result (λ b. IsTrue b → instance.now ≡ model.method_instance task.now number method.now instance.now.values) }
{
    let values = ObjectList::of(alloc, instance.values())?;
    let made = method_instance(alloc, task, number, method, values)?;
    Ok(have_same_network(&made, instance))
}

/// Whether a method has this name.
fn is_named(method: &MethodSchema, name: &Word) -> bool
    ensures { IsTrue result → method.now.name ≡ name.now }
{
    method.name().as_bytes() == name.as_bytes()
}

/// Whether an instance is one of a task's methods with this name.
pub(crate) fn is_method_instance(
    alloc: Global,
    task: &Task,
    goal: &GroundTask,
    name: &Word,
    instance: &Instance,
) -> Result<bool, AllocError>
    ensures { IfOk result (λ b. IsTrue b → (n : ℕ) × IsNumbered task.now goal.now name.now n instance.now) }
{
    let Some(number) = instance.method() else {
        return Ok(false);
    };
    let Some(method) = task.methods().get(number as usize) else {
        return Ok(false);
    };
    if !is_named(method, name) {
        return Ok(false);
    }
    if !are_values(alloc, task, goal, method, instance.values())? {
        return Ok(false);
    }
    let is_made = is_made_by(alloc, task, number, method, instance)?;
    Ok(is_made)
}

/// Whether an instance is the initial one at its values.
fn is_made_initially(alloc: Global, task: &Task, instance: &Instance) -> Result<bool, AllocError>
    requires { instance.now.method ≡ None }
    ensures { IfOk result (λ b. IsTrue b → instance.now ≡ model.initial_instance task.now instance.now.values) }
{
    let values = ObjectList::of(alloc, instance.values())?;
    let made = initial_instance(alloc, task, values)?;
    Ok(have_same_network(&made, instance))
}

/// Whether an instance is one of the initial network.
pub(crate) fn is_initial_instance(
    alloc: Global,
    task: &Task,
    instance: &Instance,
) -> Result<bool, AllocError>
    ensures { IfOk result (λ b. IsTrue b → (n : ℕ) × (slice_get (model.initials task.now) n ≡ Some instance.now)) }
{
    let None = instance.method() else {
        return Ok(false);
    };
    let conditions = initial_conditions(alloc, task, task.initial_network())?;
    if !is_instance(task, &conditions, instance.values()) {
        return Ok(false);
    }
    let is_made = is_made_initially(alloc, task, instance)?;
    Ok(is_made)
}
