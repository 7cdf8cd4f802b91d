//! The first thing that is wrong with the words of a line by themselves.
ghost use Rattle.std.specs.Prelude.{◌≡◌, IfOk, MatchOption, MatchResult, false, length};
ghost use Rattle.std.specs.List.{zip};
ghost use Rattle.htn_model.specs.Task.{has_type, task_names};
ghost use Rattle.htn_task.specs.Numbers as numbers;
ghost use Rattle.plan_lines.specs.First.{IsFirstOrNone};
ghost use Rattle.plan_lines.specs.Words.{HasForm, IsOtherType, IsTyped, IsWordsCause, NamesNoObject};

use crate::cause::WordsCause;
use crate::names::{Names, task_named};
use htn_ground::GroundTask;
use htn_task::Task;
use plan_text::Word;
use std::alloc::{AllocError, Global};

/// The number of the compound task or the action with a name. A task that is checked from texts has at most 65,535 of
/// each. Where a number is past 32 bits, in a `Task` that is made otherwise, the answer is as if memory had been
/// refused.
fn number_of(task: &Task, name: &Word) -> Result<Option<u32>, AllocError>
    ensures { IfOk result (λ r. r ≡ numbers.number_of (task_names task.now) name.now) }
{
    let Some(number) = task.task_number(name.as_bytes()) else {
        return Ok(None);
    };
    match u32::try_from(number) {
        Ok(number) => Ok(Some(number)),
        Err(_) => Err(AllocError),
    }
}

/// The place of the first word that names no object.
pub(crate) fn first_unnamed(task: &Task, words: &[Word]) -> Option<usize>
    ensures { IsFirstOrNone (NamesNoObject task.now) words.now result }
{
    for (place, word) in words.iter().enumerate() {
        if task.object_number(word.as_bytes()).is_none() {
            return Some(place);
        }
    }
    None
}

/// Whether an object has a type.
fn has_type(task: &Task, type_number: u16, object: u16) -> bool
    ensures { result ≡ has_type task.now type_number object }
{
    task.objects_of(type_number).binary_search(&object).is_ok()
}

/// The first place at which an object hasn't the type.
fn first_other_type(task: &Task, types: &[u16], objects: &[u16]) -> Option<usize>
    requires { length types.now ≡ length objects.now }
    ensures { IsFirstOrNone (IsOtherType task.now) (zip types.now objects.now) result }
{
    for (place, type_number) in types.iter().enumerate() {
        if !has_type(task, *type_number, objects[place]) {
            return Some(place);
        }
    }
    None
}

/// Why words aren't the name of a task of a kind with as many objects as it takes arguments; none where they are.
fn form_cause(
    task: &Task,
    compound: bool,
    name: &Word,
    arguments: &[Word],
) -> Result<Option<WordsCause>, AllocError>
    ensures { IfOk result (λ r. MatchOption r (HasForm task.now compound name.now arguments.now) (IsWordsCause task.now compound name.now arguments.now)) }
{
    let Some(number) = number_of(task, name)? else {
        return Ok(Some(WordsCause::NoTask));
    };
    if task.is_compound(number) != compound {
        return Ok(Some(WordsCause::OtherKind));
    }
    let wanted = task.task_types(number).len();
    if arguments.len() != wanted {
        return Ok(Some(WordsCause::Arguments { wanted }));
    }
    match first_unnamed(task, arguments) {
        Some(place) => Ok(Some(WordsCause::NoObject { place })),
        None => Ok(None),
    }
}

/// The task of a kind that words name at objects of its types, or why they name none.
pub fn typed_task(
    alloc: Global,
    names: &Names<'_>,
    compound: bool,
    name: &Word,
    arguments: &[Word],
) -> Result<Result<GroundTask, WordsCause>, AllocError>
    ensures { IfOk result (λ r. MatchResult r (IsTyped names.now compound name.now arguments.now) (IsWordsCause names.now compound name.now arguments.now)) }
{
    let task = names.task();
    if let Some(cause) = form_cause(task, compound, name, arguments)? {
        return Ok(Err(cause));
    }
    let Some(goal) = task_named(alloc, names, name, arguments)? else {
        // The name is that of a task, and each argument is an object.
        unreachable!()
    };
    match first_other_type(task, task.task_types(goal.name()), goal.arguments()) {
        Some(place) => Ok(Err(WordsCause::ObjectType { place })),
        None => Ok(Ok(goal)),
    }
}
