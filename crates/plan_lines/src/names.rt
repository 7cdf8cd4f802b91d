//! What the words of a plan file name.
ghost use Rattle.std.specs.Prelude.{◌≡◌, IfOk};
ghost use Rattle.htn_ground.specs.Naming as spec;
ghost use Rattle.htn_ground.specs.Naming.{naming_of};

use htn_ground::{GroundTask, ObjectList};
use htn_task::Task;
use plan_text::Word;
use std::alloc::{AllocError, Global};
use std::marker::Model;

/// The names of a task, to look words up in. Contracts see the task.
#[derive(Drop)]
pub struct Names<'t> {
    task: &'t Task,
}

impl<'t> Model for Names<'t> {
    ghost use Rattle.htn_model.specs.Task as model;
    ghost use Rattle.htn_model.specs.TaskCode.{task_code};

    ghost Value = { model.Task };

    ghost coded = { task_code };

    ghost view = { λ n. n.task.now };
}

impl<'t> Names<'t> {
    /// The names of a task.
    pub fn new(task: &'t Task) -> Names<'t>
        ensures { result ≡ task.now }
    {
        Names { task }
    }

    /// The task itself.
    pub fn task(&self) -> &Task
        ensures { result.now ≡ self.now }
    {
        self.task
    }
}

/// The number of an object. A task that is checked from texts has at most 65,535 objects. Past them, in a `Task` that
/// is made otherwise, the answer is as if memory had been refused.
fn object_number(number: usize) -> Result<u16, AllocError>
    ensures { IfOk result (λ n. n ≡ number) }
{
    match u16::try_from(number) {
        Ok(number) => Ok(number),
        Err(_) => Err(AllocError),
    }
}

/// The number of a task or an action. A task that is checked from texts has at most 65,535 of each. Where a number is
/// past 32 bits, in a `Task` that is made otherwise, the answer is as if memory had been refused.
fn task_number(number: usize) -> Result<u32, AllocError>
    ensures { IfOk result (λ n. n ≡ number) }
{
    match u32::try_from(number) {
        Ok(number) => Ok(number),
        Err(_) => Err(AllocError),
    }
}

/// The objects that words name, if each names one.
fn objects_named(
    alloc: Global,
    task: &Task,
    words: &[Word],
) -> Result<Option<ObjectList>, AllocError>
    ensures { IfOk result (λ r. r ≡ spec.objects_named task.now words.now) }
{
    let mut objects = ObjectList::new(alloc);
    for word in words {
        let Some(number) = task.object_number(word.as_bytes()) else {
            return Ok(None);
        };
        objects.push(object_number(number)?)?;
    }
    Ok(Some(objects))
}

/// The compound task or the action that words name, at objects that words name; none where a word names nothing. Types
/// and numbers of arguments are not looked at.
pub fn task_named(
    alloc: Global,
    names: &Names<'_>,
    name: &Word,
    arguments: &[Word],
) -> Result<Option<GroundTask>, AllocError>
    ensures { IfOk result (λ r. r ≡ (naming_of names.now).named name.now arguments.now) }
{
    let task = names.task();
    let Some(number) = task.task_number(name.as_bytes()) else {
        return Ok(None);
    };
    let Some(objects) = objects_named(alloc, task, arguments)? else {
        return Ok(None);
    };
    Ok(Some(GroundTask::new(task_number(number)?, objects)))
}
