//! Which lines of a plan file have instances.
ghost use Rattle.std.specs.Prelude.{◌≡◌, ◌↔◌, None, length, map, replicate, IfOk, IsTrue};
ghost use Rattle.htn_model.specs.Instances as model;
ghost use Rattle.plan_lines.specs.Left.{MethodShows, ShowsWith};
ghost use Rattle.plan_lines.specs.Lines.{ShowsInitial, ShowsInstance};

use crate::children::{Children, count_children};
use crate::given::bind_all;
use crate::names::Names;
use crate::search::shows;
use htn_ground::{GroundTask, initial_conditions, method_conditions};
use htn_task::{MethodSchema, Task, TaskSchema};
use plan_text::Word;
use std::alloc::{AllocError, Global};

/// References to subtasks, in their order.
pub(crate) fn references(
    alloc: Global,
    subtasks: &[TaskSchema],
) -> Result<Vec<&TaskSchema>, AllocError>
    ensures { IfOk result (λ v. map (λ s. s.now) v.items ≡ subtasks.now) }
{
    let mut all = Vec::with_capacity(alloc, subtasks.len())?;
    for subtask in subtasks {
        all.push(subtask)?;
    }
    Ok(all)
}

/// No value yet for each parameter.
pub(crate) fn no_values(alloc: Global, parameters: &[u16]) -> Result<Vec<Option<u16>>, AllocError>
    ensures { IfOk result (λ v. v.items ≡ replicate (length parameters.now) None) }
{
    let mut given = Vec::with_capacity(alloc, parameters.len())?;
    for parameter in parameters {
        let _ = parameter;
        given.push(None)?;
    }
    Ok(given)
}

/// Whether some instance of a method for a task has the children's tasks as its subtasks.
fn method_shows(
    alloc: Global,
    task: &Task,
    goal: &GroundTask,
    method: &MethodSchema,
    children: &Children,
    counts: &[usize],
) -> Result<bool, AllocError>
    requires { length counts.now ≡ length children.now }
    ensures { IfOk result (λ b. IsTrue b ↔ MethodShows task.now goal.now method.now children.now counts.now) }
{
    if method.task().name() != goal.name() {
        return Ok(false);
    }
    let mut given = no_values(alloc, method.parameters())?;
    if !bind_all(&mut given, method.task().arguments(), goal.arguments()) {
        return Ok(false);
    }
    let conditions = method_conditions(alloc, task, method)?;
    let all = references(alloc, method.network().subtasks())?;
    let left = Vec::from_slice(alloc, counts)?;
    let found = shows(alloc, task, &conditions, children, &all, &given, left)?;
    Ok(found)
}

/// Whether some instance of a task's methods with this name has the children's tasks as its subtasks.
/// Instances that can never be carried out count too.
pub fn has_instance(
    alloc: Global,
    names: &Names<'_>,
    goal: &GroundTask,
    method: &Word,
    children: &[&GroundTask],
) -> Result<bool, AllocError>
    ensures { IfOk result (λ b. IsTrue b ↔ ShowsInstance names.now goal.now method.now (map (λ c. c.now) children.now)) }
{
    let task = names.task();
    let (tasks, counts) = count_children(alloc, children)?;
    let methods = task.methods();
    for schema in methods {
        if schema.name().as_bytes() == method.as_bytes()
            && schema.network().subtasks().len() == children.len()
            && method_shows(alloc, task, goal, schema, &tasks, &counts)?
        {
            return Ok(true);
        }
    }
    Ok(false)
}

/// Whether some instance of the initial network has the roots' tasks as its tasks.
pub fn has_initial(
    alloc: Global,
    names: &Names<'_>,
    roots: &[&GroundTask],
) -> Result<bool, AllocError>
    ensures { IfOk result (λ b. IsTrue b ↔ ShowsInitial names.now (map (λ c. c.now) roots.now)) }
{
    let task = names.task();
    let initial = task.initial_network();
    let subtasks = initial.network().subtasks();
    if subtasks.len() != roots.len() {
        return Ok(false);
    }
    let (tasks, counts) = count_children(alloc, roots)?;
    let given = no_values(alloc, initial.parameters())?;
    let conditions = initial_conditions(alloc, task, initial)?;
    let all = references(alloc, subtasks)?;
    let found = shows(alloc, task, &conditions, &tasks, &all, &given, counts)?;
    Ok(found)
}
