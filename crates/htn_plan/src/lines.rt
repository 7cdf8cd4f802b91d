//! Lines of plan files.
ghost use Rattle.std.specs.Prelude.{◌≡◌, IfOk, map};
ghost use Rattle.std.specs.List.{AllByRecursion};
ghost use Rattle.htn_model.specs.PlanWord.{IsName};
ghost use Rattle.plan_text.specs.PlanFile.{IsActionLine, IsDecompositionLine, IsId};
ghost use Rattle.htn_plan.specs.Gathered as spec;
ghost use Rattle.htn_ground.specs.Naming as named;

use crate::names::{method_name, object_name, task_name};
use htn_ground::{GroundTask, Instance};
use htn_task::Task;
use plan_text::{ActionLine, DecompositionLine, Word};
use std::alloc::{AllocError, Global};

/// The names of objects.
fn object_words(alloc: Global, task: &Task, objects: &[u16]) -> Result<Vec<Word>, AllocError>
    ensures value { IfOk result (λ words. words.items ≡ map (named.object_name task.now) objects.now) }
    ensures names { IfOk result (λ words. AllByRecursion IsName words.items) }
{
    let mut words = Vec::with_capacity(alloc, objects.len())?;
    for object in objects {
        words.push(Word::from_bytes(alloc, object_name(task, *object))?)?;
    }
    Ok(words)
}

/// The line of an action.
pub(crate) fn action_line(
    alloc: Global,
    task: &Task,
    goal: &GroundTask,
    id: u64,
) -> Result<ActionLine, AllocError>
    ensures value { IfOk result (λ line. line ≡ record {
      id = id;
      name = named.task_name task.now goal.now.name;
      arguments = map (named.object_name task.now) goal.now.arguments;
    }) }
    ensures line { IfOk result IsActionLine }
{
    let name = Word::from_bytes(alloc, task_name(task, goal.name()))?;
    let arguments = object_words(alloc, task, goal.arguments())?;
    Ok(ActionLine::new(id, name, arguments))
}

/// The line of a compound task that an instance decomposes into these children.
pub(crate) fn decomposition_line(
    alloc: Global,
    task: &Task,
    goal: &GroundTask,
    instance: &Instance,
    id: u64,
    children: Vec<u64>,
) -> Result<DecompositionLine, AllocError>
    ensures value { IfOk result (λ line. line ≡ spec.line_of task.now id goal.now (spec.by_instance task.now goal.now instance.now) children.items) }
    ensures line { IfOk result IsDecompositionLine }
{
    let name = Word::from_bytes(alloc, task_name(task, goal.name()))?;
    let arguments = object_words(alloc, task, goal.arguments())?;
    let method = Word::from_bytes(alloc, method_name(task, instance.method()))?;
    Ok(DecompositionLine::new(id, name, arguments, method, children))
}
