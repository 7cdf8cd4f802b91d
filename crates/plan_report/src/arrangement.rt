//! Why the lines of a plan file can't be arranged.

use crate::message::Message;
use crate::reason::{Mark, Reason};
use crate::spots::{in_domain, in_problem, root_word, whole_line, word_at};
use crate::unmet::{literal_place, method_of, texts_of, unmet_reason, with_texts};
use crate::words::{bracketed, words_of};
use hddl_words::SubtaskText;
use htn_task::Literal;
use htn_verify::room_cause;
use plan_findings::PlanCase;
use plan_messages::PlacedPlan;
use room_causes::{Conflict, Node, OrderConflict};
use std::alloc::{AllocError, Global};

/// A plan that is judged, with its text.
#[derive(Clone, Copy)]
pub(crate) struct Scene<'a> {
    pub(crate) alloc: Global,
    pub(crate) case: PlanCase<'a>,
    pub(crate) plan: PlacedPlan<'a>,
}

impl Scene<'_> {
    /// The message with a line after it, as `task 10 (deliver flour farm)`.
    fn line(&self, message: Message, line: usize) -> Result<Message, AllocError> {
        let Some(words) = words_of(&self.case, line) else {
            return Ok(message.say("a line"));
        };
        let text = bracketed(self.alloc, words.name.as_bytes(), words.arguments)?;
        let kind = if words.is_compound {
            "task "
        } else {
            "action "
        };
        Ok(
            message
                .say(kind)
                .number(self.id(line))
                .say(" ")
                .plain(text.as_slice()),
        )
    }

    /// The message with a gap after it, as `after action 1 (set-p)`.
    pub(crate) fn gap(&self, message: Message, gap: usize) -> Result<Message, AllocError> {
        match gap.checked_sub(1) {
            Some(action) => self.line(message.say("after "), action),
            None => Ok(message.say("at the start")),
        }
    }

    /// The id of a line.
    fn id(&self, line: usize) -> u64 {
        let actions = self.case.file.actions();
        if let Some(action) = actions.get(line) {
            return action.id();
        }
        let place = line.saturating_sub(actions.len());
        match self.case.file.decompositions().get(place) {
            Some(decomposition) => decomposition.id(),
            None => 0,
        }
    }

    /// Whether a line is one of an action.
    fn is_action(&self, line: usize) -> bool {
        line < self.case.file.actions().len()
    }
}

/// A subtask of the network of a line, or of `:htn`, by its position among the network's nodes, of which the
/// precondition is the first where there is one.
fn subtask_at<'a>(
    alloc: Global,
    scene: &Scene<'a>,
    line: Option<usize>,
    position: usize,
    has_step: bool,
) -> Result<Option<&'a SubtaskText>, AllocError> {
    let number = if has_step {
        position.saturating_sub(1)
    } else {
        position
    };
    let subtasks = match line {
        Some(line) => match method_of(alloc, &scene.case, line)? {
            Some(method) => method.network.subtasks.as_slice(),
            None => return Ok(None),
        },
        None => scene.case.problem.htn.network.subtasks.as_slice(),
    };
    Ok(subtasks.get(number))
}

/// Whether the network of a line has its precondition as its first node.
fn has_step(scene: &Scene<'_>, line: Option<usize>) -> bool {
    let Some(line) = line else {
        return false;
    };
    let place = line.saturating_sub(scene.case.file.actions().len());
    let Some(decomposition) = scene.case.file.decompositions().get(place) else {
        return false;
    };
    let task = scene.case.task;
    match task.method_number(decomposition.method().as_bytes()) {
        Some(number) => match task.methods().get(number) {
            Some(method) => plan_findings::has_step(method.precondition()),
            None => false,
        },
        None => false,
    }
}

/// The message about a line that has to be done before another, with its place.
fn line_before(
    scene: &Scene<'_>,
    line: usize,
    conflict: &OrderConflict,
) -> Result<(Mark, Message), AllocError> {
    let message = scene.line(Message::new(scene.alloc), line)?;
    let message = message.say(" has to be done before it");
    let mark = word_at(&scene.plan, line, 0);
    if scene.is_action(line) {
        return Ok((mark, message));
    }
    let message = match conflict.late {
        Some(action) => scene
            .line(message.say(", and "), action)?
            .say(" is below it"),
        None => scene.gap(message.say(", and can be done only "), conflict.from)?,
    };
    Ok((mark, message))
}

/// The message about a precondition that has to hold before a line, with its place.
fn precondition_before(
    scene: &Scene<'_>,
    line: Option<usize>,
    literals: &[Literal],
    conflict: &OrderConflict,
) -> Result<(Mark, Message), AllocError> {
    let alloc = scene.alloc;
    let message = Message::new(alloc).say("the precondition of ");
    let method = match line {
        Some(line) => method_of(alloc, &scene.case, line)?,
        None => None,
    };
    let (mark, message) = match method {
        Some(method) => (
            in_domain(literal_place(alloc, &scene.case, method, 0)?),
            message.name(method.name.text()),
        ),
        None => (
            in_problem(scene.case.problem.htn.place),
            message.name(b":htn"),
        ),
    };
    let message = message.say(" has to hold before it, and first holds ");
    let message = scene.gap(message, conflict.from)?.say(": ");
    let texts = texts_of(alloc, &scene.case, literals)?;
    let message = with_texts(alloc, message, texts.as_slice())?;
    Ok((mark, message))
}

/// The reason with a note on what has to come first.
fn with_first(
    scene: &Scene<'_>,
    line: Option<usize>,
    conflict: &OrderConflict,
    reason: Reason,
) -> Result<Reason, AllocError> {
    let (mark, message) = match &conflict.first {
        Node::Line(first) => line_before(scene, *first, conflict)?,
        Node::Precondition(literals) => {
            precondition_before(scene, line, literals.as_slice(), conflict)?
        }
    };
    Ok(reason.note(mark, message))
}

/// The reason with a note where the order of two subtasks is written.
fn with_order(
    scene: &Scene<'_>,
    line: Option<usize>,
    conflict: &OrderConflict,
    reason: Reason,
) -> Result<Reason, AllocError> {
    let Node::Line(first) = &conflict.first else {
        return Ok(reason);
    };
    let alloc = scene.alloc;
    let step = has_step(scene, line);
    let Some(subtask) = subtask_at(alloc, scene, line, conflict.after, step)? else {
        return Ok(reason);
    };
    let Some(words) = words_of(&scene.case, *first) else {
        return Ok(reason);
    };
    let text = bracketed(alloc, words.name.as_bytes(), words.arguments)?;
    let message = Message::new(alloc)
        .say("the order: this subtask comes after ")
        .name(text.as_slice());
    let place = subtask.task.name.place();
    let mark = if line.is_some() {
        in_domain(place)
    } else {
        in_problem(place)
    };
    Ok(reason.note(mark, message))
}

/// That an action comes before what has to be done first.
fn early_reason(
    scene: &Scene<'_>,
    line: Option<usize>,
    conflict: &OrderConflict,
    early: usize,
) -> Result<Reason, AllocError> {
    let alloc = scene.alloc;
    let message = Message::new(alloc)
        .say("action ")
        .number(scene.id(early))
        .say(" comes too early");
    let mark = whole_line(&scene.plan, early);
    let reason = Reason::new(alloc, mark, message);
    let second = conflict.second;
    let reason = if second == early {
        reason
    } else {
        let message = Message::new(alloc).say("it belongs to ");
        reason.note(
            word_at(&scene.plan, second, 0),
            scene.line(message, second)?,
        )
    };
    let reason = with_first(scene, line, conflict, reason)?;
    let is_of_lines = matches!(&conflict.first, Node::Line(_));
    match line {
        Some(line) if !is_of_lines => with_method(scene, line, reason),
        _ => with_order(scene, line, conflict, reason),
    }
}

/// The reason with a note at the line of a method.
fn with_method(scene: &Scene<'_>, line: usize, reason: Reason) -> Result<Reason, AllocError> {
    let alloc = scene.alloc;
    let message = Message::new(alloc).say("the line of ");
    let message = match method_of(alloc, &scene.case, line)? {
        Some(method) => message.name(method.name.text()),
        None => message.say("the method"),
    };
    Ok(reason.note(word_at(&scene.plan, line, 0), message))
}

/// That a line has no room, although each line below it has.
fn plain_reason(scene: &Scene<'_>, line: Option<usize>) -> Reason {
    let message = Message::new(scene.alloc).say(
        "this line can't be arranged, although each line below it can by itself",
    );
    let mark = match line {
        Some(line) => whole_line(&scene.plan, line),
        None => root_word(&scene.plan, 0),
    };
    Reason::new(scene.alloc, mark, message)
}

/// What is in the way where two nodes are in the wrong order.
fn order_reason(
    scene: &Scene<'_>,
    line: Option<usize>,
    conflict: &OrderConflict,
) -> Result<Reason, AllocError> {
    if let Some(early) = conflict.early {
        return early_reason(scene, line, conflict, early);
    }
    let reason = match &conflict.unmet {
        Some(unmet) => unmet_reason(scene.alloc, scene, conflict.second, unmet)?,
        None => plain_reason(scene, Some(conflict.second)),
    };
    let reason = with_first(scene, line, conflict, reason)?;
    with_order(scene, line, conflict, reason)
}

/// Why the lines of a file can't be arranged; none where they can. An error where memory was refused.
pub(crate) fn arrangement_reason<'a>(
    alloc: Global,
    case: &PlanCase<'a>,
    plan: &PlacedPlan<'a>,
) -> Result<Option<Reason>, AllocError> {
    let Some(cause) = room_cause(alloc, case.task, case.file)? else {
        return Ok(None);
    };
    let scene = Scene {
        alloc,
        case: PlanCase {
            task: case.task,
            domain: case.domain,
            problem: case.problem,
            file: case.file,
        },
        plan: PlacedPlan {
            text: plan.text,
            file: plan.file,
            places: plan.places,
        },
    };
    let line = cause.line;
    let reason = match &cause.conflict {
        Some(Conflict::Order(conflict)) => order_reason(&scene, line, conflict)?,
        Some(Conflict::Precondition(unmet)) => match line {
            Some(line) => unmet_reason(alloc, &scene, line, unmet)?,
            None => plain_reason(&scene, None),
        },
        None => plain_reason(&scene, line),
    };
    Ok(Some(reason))
}
