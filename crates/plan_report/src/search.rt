//! The search for the cause of a line without an instance. What it finds is not proved; of action lines it is the
//! proved cause of `plan_lines`.

use crate::cause::LineCause;
use crate::words::words_of;
use htn_ground::GroundTask;
use htn_task::{MethodSchema, Task, TaskSchema};
use plan_findings::PlanCase;
use plan_lines::{AllowedValues, Names, WordsCause, action_cause, task_named, typed_task};
use plan_text::{Forest, Word};
use std::alloc::{AllocError, Global};

/// The tasks of some lines, or the first place at which the words of a line name none, and why.
enum Children {
    Named(Vec<GroundTask>),
    Unnamed { child: usize, cause: WordsCause },
}

/// The values that an instance may have, its subtasks, and the tasks of the children.
#[derive(Clone, Copy)]
struct Network<'a> {
    task: &'a Task,
    allowed: &'a AllowedValues,
    subtasks: &'a [TaskSchema],
    children: &'a [GroundTask],
}

/// Why words name no task at objects.
fn unnamed_cause(task: &Task, name: &Word, arguments: &[Word]) -> WordsCause {
    if task.task_number(name.as_bytes()).is_none() {
        return WordsCause::NoTask;
    }
    for (place, word) in arguments.iter().enumerate() {
        if task.object_number(word.as_bytes()).is_none() {
            return WordsCause::NoObject { place };
        }
    }
    WordsCause::NoTask
}

/// The tasks of some lines.
fn children_of(
    alloc: Global,
    case: &PlanCase<'_>,
    names: &Names<'_>,
    lines: &[usize],
) -> Result<Children, AllocError> {
    let mut tasks = Vec::with_capacity(alloc, lines.len())?;
    for (child, line) in lines.iter().enumerate() {
        let Some(words) = words_of(case, *line) else {
            let cause = WordsCause::NoTask;
            return Ok(Children::Unnamed { child, cause });
        };
        match task_named(alloc, names, words.name, words.arguments)? {
            Some(task) => tasks.push(task)?,
            None => {
                let cause = unnamed_cause(case.task, words.name, words.arguments);
                return Ok(Children::Unnamed { child, cause });
            }
        }
    }
    Ok(Children::Named(tasks))
}

/// How many times a child is compared with a subtask, for each child and each subtask of a network, and in any network.
/// Where more would be needed to find what is missing, the reason says less.
const TRIES_EACH: usize = 16;

const TRIES_ALWAYS: usize = 10_000;

/// How many comparisons are left for a network.
fn tries_for(network: &Network<'_>) -> usize {
    let parts = network
        .children
        .len()
        .saturating_add(network.subtasks.len());
    parts
        .saturating_mul(TRIES_EACH)
        .saturating_add(TRIES_ALWAYS)
}

/// Whether one of some children can be a subtask, or the comparisons are used up.
fn may_be_one(
    alloc: Global,
    network: &Network<'_>,
    subtask: &TaskSchema,
    children: &[GroundTask],
    tries: &mut usize,
) -> Result<bool, AllocError> {
    for child in children {
        if *tries == 0 || network.allowed.can_be(alloc, network.task, subtask, child)? {
            return Ok(true);
        }
        *tries = tries.saturating_sub(1);
    }
    Ok(false)
}

/// Whether a child can be one of some subtasks, or the comparisons are used up.
fn may_be_some(
    alloc: Global,
    network: &Network<'_>,
    child: &GroundTask,
    subtasks: &[TaskSchema],
    tries: &mut usize,
) -> Result<bool, AllocError> {
    for subtask in subtasks {
        if *tries == 0 || network.allowed.can_be(alloc, network.task, subtask, child)? {
            return Ok(true);
        }
        *tries = tries.saturating_sub(1);
    }
    Ok(false)
}

/// The first subtask that none of the children can be. The child at the subtask's own place is tried first, since most
/// plans list children in their order.
fn first_missed(
    alloc: Global,
    network: &Network<'_>,
    tries: &mut usize,
) -> Result<Option<usize>, AllocError> {
    for (place, subtask) in network.subtasks.iter().enumerate() {
        let middle = place.min(network.children.len());
        let (before, from) = network.children.split_at(middle);
        let is_met = may_be_one(alloc, network, subtask, from, tries)?
            || may_be_one(alloc, network, subtask, before, tries)?;
        if !is_met {
            return Ok(Some(place));
        }
    }
    Ok(None)
}

/// The first child that can be none of the subtasks. The subtask at the child's own place is tried first.
fn first_foreign(
    alloc: Global,
    network: &Network<'_>,
    tries: &mut usize,
) -> Result<Option<usize>, AllocError> {
    for (place, child) in network.children.iter().enumerate() {
        let middle = place.min(network.subtasks.len());
        let (before, from) = network.subtasks.split_at(middle);
        let is_one = may_be_some(alloc, network, child, from, tries)?
            || may_be_some(alloc, network, child, before, tries)?;
        if !is_one {
            return Ok(Some(place));
        }
    }
    Ok(None)
}

/// Why children aren't the subtasks of an instance with allowed values.
fn network_cause(alloc: Global, network: &Network<'_>) -> Result<LineCause, AllocError> {
    if !network.allowed.has_one(alloc, network.task)? {
        return Ok(LineCause::NoInstance);
    }
    let mut tries = tries_for(network);
    let missed = first_missed(alloc, network, &mut tries)?;
    let wanted = network.subtasks.len();
    if network.children.len() != wanted {
        return Ok(LineCause::Children {
            wanted,
            subtask: missed,
        });
    }
    if let Some(child) = first_foreign(alloc, network, &mut tries)? {
        return Ok(LineCause::Child {
            child,
            subtask: missed,
        });
    }
    match missed {
        Some(subtask) => Ok(LineCause::Subtask { subtask }),
        None => Ok(LineCause::NoValues),
    }
}

/// The method with a name.
fn named_method<'t>(task: &'t Task, name: &Word) -> Option<&'t MethodSchema> {
    let number = task.method_number(name.as_bytes())?;
    task.methods().get(number)
}

/// The cause of a decomposition line that has no instance and is for this task by this method.
fn method_cause(
    alloc: Global,
    case: &PlanCase<'_>,
    goal: &GroundTask,
    method: &MethodSchema,
    lines: &[usize],
) -> Result<LineCause, AllocError> {
    if method.task().name() != goal.name() {
        return Ok(LineCause::OtherTask);
    }
    let names = Names::new(case.task);
    let children = match children_of(alloc, case, &names, lines)? {
        Children::Named(tasks) => tasks,
        Children::Unnamed { child, cause } => {
            return Ok(LineCause::ChildWords { child, cause });
        }
    };
    let Some(allowed) = AllowedValues::of_method(alloc, case.task, goal, method)? else {
        return Ok(LineCause::NoInstance);
    };
    let network = Network {
        task: case.task,
        allowed: &allowed,
        subtasks: method.network().subtasks(),
        children: children.as_slice(),
    };
    let cause = network_cause(alloc, &network)?;
    Ok(cause)
}

/// The cause of a decomposition line that has no instance.
pub(crate) fn decomposition_cause(
    alloc: Global,
    case: &PlanCase<'_>,
    forest: &Forest,
    place: usize,
) -> Result<LineCause, AllocError> {
    let Some(line) = case.file.decompositions().get(place) else {
        return Ok(LineCause::NoValues);
    };
    let names = Names::new(case.task);
    let goal = match typed_task(alloc, &names, true, line.task(), line.arguments())? {
        Ok(goal) => goal,
        Err(cause) => return Ok(LineCause::Words(cause)),
    };
    let Some(method) = named_method(case.task, line.method()) else {
        return Ok(LineCause::NoMethod);
    };
    method_cause(alloc, case, &goal, method, forest.children(place))
}

/// The cause of a root line that has no instance.
pub(crate) fn root_cause(
    alloc: Global,
    case: &PlanCase<'_>,
    forest: &Forest,
) -> Result<LineCause, AllocError> {
    let names = Names::new(case.task);
    let children = match children_of(alloc, case, &names, forest.roots())? {
        Children::Named(tasks) => tasks,
        Children::Unnamed { child, cause } => {
            return Ok(LineCause::ChildWords { child, cause });
        }
    };
    let allowed = AllowedValues::of_initial(alloc, case.task)?;
    let network = Network {
        task: case.task,
        allowed: &allowed,
        subtasks: case.task.initial_network().network().subtasks(),
        children: children.as_slice(),
    };
    let cause = network_cause(alloc, &network)?;
    Ok(cause)
}

/// The cause of an action line; none where it has an instance.
pub(crate) fn action_line_cause(
    alloc: Global,
    case: &PlanCase<'_>,
    number: usize,
) -> Result<Option<WordsCause>, AllocError> {
    match case.file.actions().get(number) {
        Some(line) => action_cause(alloc, case.task, line),
        None => Ok(None),
    }
}
