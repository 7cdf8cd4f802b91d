//! The names of the objects, tasks and methods of a task.
ghost use Rattle.std.specs.Prelude.{◌≡◌};
ghost use Rattle.htn_model.specs.PlanWord.{IsName};
ghost use Rattle.htn_ground.specs.Naming as spec;

use htn_task::Task;

/// The word for a number that names nothing.
fn unnamed() -> &'static [u8]
    ensures value { result.now ≡ spec.unnamed }
    ensures name { IsName result.now }
{
    b"?"
}

/// The name of an object.
pub(crate) fn object_name(task: &Task, object: u16) -> &[u8]
    ensures value { result.now ≡ spec.object_name task.now object }
    ensures name { IsName result.now }
{
    match task.objects().get(object as usize) {
        Some(name) => name.as_bytes(),
        None => unnamed(),
    }
}

/// The name of a compound task or an action.
pub(crate) fn task_name(task: &Task, number: u32) -> &[u8]
    ensures value { result.now ≡ spec.task_name task.now number }
    ensures name { IsName result.now }
{
    let count = task.tasks().len();
    let number = number as usize;
    if number < count {
        return task.tasks()[number].name().as_bytes();
    }
    match task.actions().get(number - count) {
        Some(action) => action.name().as_bytes(),
        None => unnamed(),
    }
}

/// The name of a method.
pub(crate) fn method_name(task: &Task, method: Option<u16>) -> &[u8]
    ensures value { result.now ≡ spec.numbered_method_name task.now method }
    ensures name { IsName result.now }
{
    let Some(number) = method else {
        return unnamed();
    };
    match task.methods().get(number as usize) {
        Some(method) => method.name().as_bytes(),
        None => unnamed(),
    }
}
