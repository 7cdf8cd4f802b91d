//! Why a line has no instance.

use crate::cause::LineCause;
use crate::children::{Lister, child_unknown, no_child, no_instance, no_subtask, other_number};
use crate::message::Message;
use crate::reason::Reason;
use crate::schemas::{listed, meant, method_named, methods_of};
use crate::search::{action_line_cause, decomposition_cause, root_cause};
use crate::spots::in_domain;
use crate::words::{words_of, words_reason};
use hddl_words::MethodText;
use plan_findings::PlanCase;
use plan_lines::WordsCause;
use plan_messages::PlacedPlan;
use plan_text::{DecompositionLine, Forest, PlanFile};
use std::alloc::{AllocError, Global};

/// The number of the line with an id.
fn line_number(file: &PlanFile, id: u64) -> usize {
    let actions = file.actions();
    for (number, line) in actions.iter().enumerate() {
        if line.id() == id {
            return number;
        }
    }
    for (place, line) in file.decompositions().iter().enumerate() {
        if line.id() == id {
            return actions.len() + place;
        }
    }
    0
}

/// The reason with the methods of the line's task.
fn with_methods(
    alloc: Global,
    case: &PlanCase<'_>,
    line: &DecompositionLine,
    reason: Reason,
) -> Result<Reason, AllocError> {
    let mine = methods_of(alloc, case.domain, line.task())?;
    if mine.is_empty() {
        return Ok(reason);
    }
    let (subject, verb) = if mine.len() == 1 {
        ("the method of ", " is ")
    } else {
        ("the methods of ", " are ")
    };
    let message = Message::new(alloc)
        .say(subject)
        .name(line.task().as_bytes())
        .say(verb);
    Ok(reason.help(listed(message, mine.as_slice(), " and ")))
}

/// That the domain has no such method.
fn no_method(
    alloc: Global,
    case: &PlanCase<'_>,
    plan: &PlacedPlan<'_>,
    lister: &Lister<'_>,
    line: &DecompositionLine,
) -> Result<Reason, AllocError> {
    let message = Message::new(alloc)
        .say("the domain has no method ")
        .name(line.method().as_bytes());
    let reason = Reason::new(alloc, lister.word(plan), message);
    let mine = methods_of(alloc, case.domain, line.task())?;
    match meant(alloc, line.method(), mine.as_slice())? {
        Some(message) => Ok(reason.help(message)),
        None => with_methods(alloc, case, line, reason),
    }
}

/// That the method is one of another task.
fn other_task(
    alloc: Global,
    case: &PlanCase<'_>,
    plan: &PlacedPlan<'_>,
    lister: &Lister<'_>,
    method: &MethodText,
    line: &DecompositionLine,
) -> Result<Reason, AllocError> {
    let message = Message::new(alloc)
        .name(method.name.text())
        .say(" is a method of the task ")
        .name(method.task.name.text());
    let mut reason = Reason::new(alloc, lister.word(plan), message);
    reason.label = Message::new(alloc)
        .say("and this line is of ")
        .name(line.task().as_bytes());
    let here = Message::new(alloc).say("here");
    let reason = reason.note(in_domain(method.task.name.place()), here);
    with_methods(alloc, case, line, reason)
}

/// That the method isn't one for the line's arguments.
fn no_arguments(
    alloc: Global,
    plan: &PlacedPlan<'_>,
    lister: &Lister<'_>,
    method: &MethodText,
) -> Reason {
    let message = Message::new(alloc)
        .name(method.name.text())
        .say(" isn't a method for these arguments");
    let task = Message::new(alloc).say("its task");
    Reason::new(alloc, lister.word(plan), message).note(in_domain(method.task.name.place()), task)
}

/// What is wrong with the words of a listed line.
fn child_words(
    alloc: Global,
    case: &PlanCase<'_>,
    plan: &PlacedPlan<'_>,
    lister: &Lister<'_>,
    child: usize,
    cause: WordsCause,
) -> Result<Reason, AllocError> {
    let line = lister.lines.get(child).copied().unwrap_or(0);
    match words_of(case, line) {
        Some(words) => {
            let why = words_reason(alloc, case, plan, &words, cause)?;
            Ok(child_unknown(alloc, plan, lister, child, why))
        }
        None => Ok(no_instance(alloc, plan, lister, 0)),
    }
}

/// What is wrong with the children of a line or with the roots, of which `place` stands for the parameters.
fn network_reason(
    alloc: Global,
    case: &PlanCase<'_>,
    plan: &PlacedPlan<'_>,
    lister: &Lister<'_>,
    place: usize,
    cause: LineCause,
) -> Result<Reason, AllocError> {
    match cause {
        LineCause::Children { wanted, subtask } => {
            other_number(alloc, plan, lister, wanted, subtask)
        }
        LineCause::Child { child, subtask } => {
            no_subtask(alloc, case, plan, lister, child, subtask)
        }
        LineCause::Subtask { subtask } => no_child(alloc, plan, lister, subtask),
        LineCause::ChildWords { child, cause } => {
            child_words(alloc, case, plan, lister, child, cause)
        }
        _ => Ok(no_instance(alloc, plan, lister, place)),
    }
}

/// Why a decomposition line has no instance, of which this is the cause.
fn decomposition_reason<'a>(
    alloc: Global,
    case: &PlanCase<'a>,
    plan: &PlacedPlan<'_>,
    forest: &'a Forest,
    place: usize,
    cause: LineCause,
) -> Result<Option<Reason>, AllocError> {
    let Some(line) = case.file.decompositions().get(place) else {
        return Ok(None);
    };
    let number = case.file.actions().len() + place;
    let method = method_named(alloc, case.domain, line.method().as_bytes())?;
    let lister = Lister {
        line: Some(number),
        method,
        arguments: line.arguments(),
        subtasks: match method {
            Some(method) => method.network.subtasks.as_slice(),
            None => &[],
        },
        ids: line.children(),
        lines: forest.children(place),
    };
    let Some(method) = method else {
        return Ok(Some(no_method(alloc, case, plan, &lister, line)?));
    };
    let reason = match cause {
        LineCause::NoMethod => no_method(alloc, case, plan, &lister, line)?,
        LineCause::OtherTask => other_task(alloc, case, plan, &lister, method, line)?,
        LineCause::NoInstance => no_arguments(alloc, plan, &lister, method),
        _ => network_reason(alloc, case, plan, &lister, method.name.place(), cause)?,
    };
    Ok(Some(reason))
}

/// Why the root line has no instance, of which this is the cause.
fn root_reason<'a>(
    alloc: Global,
    case: &PlanCase<'a>,
    plan: &PlacedPlan<'_>,
    forest: &'a Forest,
    cause: LineCause,
) -> Result<Option<Reason>, AllocError> {
    let htn = &case.problem.htn;
    let lister = Lister {
        line: None,
        method: None,
        arguments: &[],
        subtasks: htn.network.subtasks.as_slice(),
        ids: case.file.roots(),
        lines: forest.roots(),
    };
    let reason = network_reason(alloc, case, plan, &lister, htn.place, cause)?;
    Ok(Some(reason))
}

/// Why the line with an id, or the root line where none is given, has no instance; none where that isn't known. An error
/// where memory was refused.
pub(crate) fn line_reason<'a>(
    alloc: Global,
    case: &PlanCase<'a>,
    plan: &PlacedPlan<'_>,
    forest: &'a Forest,
    name: Option<u64>,
) -> Result<Option<Reason>, AllocError> {
    let Some(id) = name else {
        let cause = root_cause(alloc, case, forest)?;
        return root_reason(alloc, case, plan, forest, cause);
    };
    let number = line_number(case.file, id);
    let actions = case.file.actions().len();
    if number < actions {
        return match action_line_cause(alloc, case, number)? {
            Some(cause) => own_reason(alloc, case, plan, number, cause),
            None => Ok(None),
        };
    }
    let place = number - actions;
    match decomposition_cause(alloc, case, forest, place)? {
        LineCause::Words(cause) => own_reason(alloc, case, plan, number, cause),
        cause => decomposition_reason(alloc, case, plan, forest, place, cause),
    }
}

/// What is wrong with the words of a line itself.
fn own_reason(
    alloc: Global,
    case: &PlanCase<'_>,
    plan: &PlacedPlan<'_>,
    number: usize,
    cause: WordsCause,
) -> Result<Option<Reason>, AllocError> {
    let Some(words) = words_of(case, number) else {
        return Ok(None);
    };
    let reason = words_reason(alloc, case, plan, &words, cause)?;
    Ok(Some(reason))
}
