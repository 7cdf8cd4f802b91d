//! Preconditions of methods that hold at no place that is left.

use crate::arrangement::Scene;
use crate::message::Message;
use crate::reason::Reason;
use crate::schemas::{listed, method_named};
use crate::spots::{in_domain, whole_line, word_at};
use crate::words::bracketed;
use hddl_words::MethodText;
use htn_task::Literal;
use plan_findings::{PlanCase, action_tasks, literal_core, literal_text, precondition_places};
use plan_lines::{Outcome, run};
use room_causes::Unmet;
use std::alloc::{AllocError, Global};

/// The method of a line, by the line's number.
pub(crate) fn method_of<'a>(
    alloc: Global,
    case: &PlanCase<'a>,
    line: usize,
) -> Result<Option<&'a MethodText>, AllocError> {
    let place = line.saturating_sub(case.file.actions().len());
    match case.file.decompositions().get(place) {
        Some(decomposition) => {
            method_named(alloc, case.domain, decomposition.method().as_bytes())
        }
        None => Ok(None),
    }
}

/// Where the literal of a number is written in the precondition of a method, or else the method's name.
pub(crate) fn literal_place(
    alloc: Global,
    case: &PlanCase<'_>,
    method: &MethodText,
    number: usize,
) -> Result<usize, AllocError> {
    let places = precondition_places(alloc, case.task, method.precondition.as_slice())?;
    Ok(
        places
            .as_slice()
            .get(number)
            .copied()
            .unwrap_or(method.name.place()),
    )
}

/// The texts of literals.
pub(crate) fn texts_of(
    alloc: Global,
    case: &PlanCase<'_>,
    literals: &[Literal],
) -> Result<Vec<Vec<u8>>, AllocError> {
    let mut texts = Vec::with_capacity(alloc, literals.len())?;
    for literal in literals {
        texts.push(literal_text(alloc, case.task, literal)?)?;
    }
    Ok(texts)
}

/// The message with texts after it.
pub(crate) fn with_texts(
    alloc: Global,
    message: Message,
    texts: &[Vec<u8>],
) -> Result<Message, AllocError> {
    let mut names = Vec::with_capacity(alloc, texts.len())?;
    for text in texts {
        names.push(text.as_slice())?;
    }
    Ok(listed(message, names.as_slice(), " and "))
}

/// The number of the action that last made a literal false, if one did.
fn turned_by(
    alloc: Global,
    case: &PlanCase<'_>,
    literal: &Literal,
) -> Result<Option<usize>, AllocError> {
    let tasks = action_tasks(alloc, case.task, case.file)?;
    match run(alloc, case.task, tasks.as_slice())? {
        Outcome::Runs(turns) => {
            let last = turns.last_gap(literal, tasks.len());
            Ok(last.filter(|gap| *gap < tasks.len()))
        }
        Outcome::Fails(_) => Ok(None),
    }
}

/// Whether a literal says that something is false.
fn is_negative(literal: &Literal) -> bool {
    matches!(literal, Literal::Negative(_) | Literal::Different(_, _))
}

/// The reason with a note at the action that made a literal false, if one did.
fn with_turn(
    alloc: Global,
    scene: &Scene<'_>,
    literal: &Literal,
    reason: Reason,
) -> Result<Reason, AllocError> {
    let Some(number) = turned_by(alloc, &scene.case, literal)? else {
        return Ok(reason);
    };
    let Some(line) = scene.case.file.actions().get(number) else {
        return Ok(reason);
    };
    let core = literal_core(alloc, scene.case.task, literal)?;
    let action = bracketed(alloc, line.name().as_bytes(), line.arguments())?;
    let message = Message::new(alloc)
        .name(core.as_slice())
        .say(if is_negative(literal) {
            " becomes true here: "
        } else {
            " becomes false here: "
        })
        .plain(action.as_slice());
    Ok(reason.note(word_at(&scene.plan, number, 0), message))
}

/// The message with what is so of a precondition after it, and where that is.
fn never(
    alloc: Global,
    scene: &Scene<'_>,
    unmet: &Unmet,
    message: Message,
) -> Result<Message, AllocError> {
    let last = scene.case.file.actions().len();
    let literals = unmet.literals.as_slice();
    let one = match unmet.literal {
        Some(number) => literals.get(number),
        None => None,
    };
    let message = match one {
        Some(literal) => {
            let text = literal_text(alloc, scene.case.task, literal)?;
            message.name(text.as_slice())
        }
        None => {
            let texts = texts_of(alloc, &scene.case, literals)?;
            with_texts(alloc, message, texts.as_slice())?
        }
    };
    if unmet.from > 0 && unmet.from == last {
        return Ok(message.say(if one.is_some() {
            " is false at the end"
        } else {
            " are not true together at the end"
        }));
    }
    let message = message.say(if one.is_some() {
        " is never true"
    } else {
        " are never true together"
    });
    if unmet.from == 0 {
        return Ok(message.say(" at any point of the plan"));
    }
    scene.gap(message.say(" at any point "), unmet.from)
}

/// That the precondition of a line's method holds at no place that is left.
pub(crate) fn unmet_reason(
    alloc: Global,
    scene: &Scene<'_>,
    line: usize,
    unmet: &Unmet,
) -> Result<Reason, AllocError> {
    let message = Message::new(alloc).say("the precondition of ");
    let method = method_of(alloc, &scene.case, line)?;
    let message = match method {
        Some(method) => message.name(method.name.text()),
        None => message.say("this line"),
    };
    let message = never(alloc, scene, unmet, message.say(" has no place: "))?;
    let reason = Reason::new(alloc, whole_line(&scene.plan, line), message);
    let number = unmet.literal.unwrap_or(0);
    let reason = match method {
        Some(method) => reason.note(
            in_domain(literal_place(alloc, &scene.case, method, number)?),
            Message::new(alloc).say("it needs this"),
        ),
        None => reason,
    };
    match unmet.literals.as_slice().get(number) {
        Some(literal) if unmet.literal.is_some() => with_turn(alloc, scene, literal, reason),
        _ => Ok(reason),
    }
}
