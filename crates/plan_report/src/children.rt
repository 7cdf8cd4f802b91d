//! What is wrong with the children of a line, or with the roots.

use crate::message::Message;
use crate::reason::{Mark, Reason};
use crate::spots::{in_domain, in_problem, root_word, word_at};
use crate::words::{bracketed, words_of};
use hddl_names::fold;
use hddl_words::{AtomText, MethodText, SubtaskText, Term};
use plan_findings::PlanCase;
use plan_messages::PlacedPlan;
use plan_text::Word;
use std::alloc::{AllocError, Global};

/// What lists lines: a decomposition line with its method, or the root line.
#[derive(Clone, Copy)]
pub(crate) struct Lister<'a> {
    /// The number of the line, and none of the root line.
    pub(crate) line: Option<usize>,
    pub(crate) method: Option<&'a MethodText>,
    pub(crate) arguments: &'a [Word],
    pub(crate) subtasks: &'a [SubtaskText],
    /// The ids that are listed.
    pub(crate) ids: &'a [u64],
    /// The numbers of these lines.
    pub(crate) lines: &'a [usize],
}

impl Lister<'_> {
    /// The word that stands before the ids: the method, or `root`.
    pub(crate) fn word(&self, plan: &PlacedPlan<'_>) -> Mark {
        match self.line {
            Some(line) => word_at(plan, line, self.arguments.len().saturating_add(3)),
            None => root_word(plan, 0),
        }
    }

    /// The id of a child.
    fn child_word(&self, plan: &PlacedPlan<'_>, child: usize) -> Mark {
        match self.line {
            Some(line) => {
                let before = self.arguments.len().saturating_add(4);
                word_at(plan, line, before.saturating_add(child))
            }
            None => root_word(plan, child.saturating_add(1)),
        }
    }

    /// The message with the name of the method, or with `:htn`, after it.
    fn named(&self, message: Message) -> Message {
        match self.method {
            Some(method) => message.name(method.name.text()),
            None => message.name(b":htn"),
        }
    }

    /// A place of the text that has the network.
    fn at(&self, place: usize) -> Mark {
        if self.method.is_some() {
            in_domain(place)
        } else {
            in_problem(place)
        }
    }
}

/// The argument that stands for a variable of a method's task.
fn value_of<'a>(
    alloc: Global,
    method: Option<&MethodText>,
    arguments: &'a [Word],
    variable: &[u8],
) -> Result<Option<&'a Word>, AllocError> {
    let Some(method) = method else {
        return Ok(None);
    };
    let wanted = fold(alloc, variable)?;
    for (place, term) in method.task.terms.as_slice().iter().enumerate() {
        if let Term::Variable(known) = term {
            let text = fold(alloc, known.text())?;
            if text.as_slice() == wanted.as_slice() {
                return Ok(arguments.get(place));
            }
        }
    }
    Ok(None)
}

/// Adds a term after a blank, with the argument of the line where it has one, and says whether it has.
fn push_term(
    alloc: Global,
    text: &mut Vec<u8>,
    lister: &Lister<'_>,
    term: &Term,
) -> Result<bool, AllocError> {
    text.push(b' ')?;
    match term {
        Term::Object(name) => {
            text.extend_from_slice(name.text())?;
            Ok(false)
        }
        Term::Variable(variable) => {
            let value = value_of(alloc, lister.method, lister.arguments, variable.text())?;
            match value {
                Some(word) => {
                    text.extend_from_slice(word.as_bytes())?;
                    Ok(true)
                }
                None => {
                    text.extend_from_slice(variable.text())?;
                    Ok(false)
                }
            }
        }
    }
}

/// A subtask as the line's arguments fill it in, and whether they do.
fn filled(
    alloc: Global,
    lister: &Lister<'_>,
    task: &AtomText,
) -> Result<(Vec<u8>, bool), AllocError> {
    let mut text = Vec::from_slice(alloc, b"(")?;
    text.extend_from_slice(task.name.text())?;
    let mut is_filled = false;
    for term in task.terms.as_slice() {
        let has_value = push_term(alloc, &mut text, lister, term)?;
        is_filled = is_filled || has_value;
    }
    text.push(b')')?;
    Ok((text, is_filled))
}

/// The reason with a note at the subtask that no child is, if there is one.
fn with_subtask(
    alloc: Global,
    lister: &Lister<'_>,
    subtask: Option<usize>,
    reason: Reason,
) -> Result<Reason, AllocError> {
    let Some(number) = subtask else {
        return Ok(reason);
    };
    let Some(missing) = lister.subtasks.get(number) else {
        return Ok(reason);
    };
    let (text, is_filled) = filled(alloc, lister, &missing.task)?;
    let message = Message::new(alloc).say("no child is this subtask");
    let message = if is_filled {
        message.say(", ").name(text.as_slice())
    } else {
        message
    };
    Ok(reason.note(lister.at(missing.task.name.place()), message))
}

/// That another number of children is listed than the network has subtasks.
pub(crate) fn other_number(
    alloc: Global,
    plan: &PlacedPlan<'_>,
    lister: &Lister<'_>,
    wanted: usize,
    subtask: Option<usize>,
) -> Result<Reason, AllocError> {
    let message = lister
        .named(Message::new(alloc))
        .say(" has ")
        .count(wanted, "subtask")
        .say(", and this line lists ")
        .number(lister.ids.len() as u64);
    let reason = Reason::new(alloc, lister.word(plan), message);
    with_subtask(alloc, lister, subtask, reason)
}

/// Whether a subtask has the name of a word.
fn has_name(alloc: Global, subtask: &SubtaskText, word: &Word) -> Result<bool, AllocError> {
    let text = fold(alloc, subtask.task.name.text())?;
    Ok(text.as_slice() == word.as_bytes())
}

/// The subtask of a number as the line's arguments fill it in, where it has the name of a word.
fn wanted_text(
    alloc: Global,
    lister: &Lister<'_>,
    subtask: Option<usize>,
    word: &Word,
) -> Result<Option<Vec<u8>>, AllocError> {
    let Some(number) = subtask else {
        return Ok(None);
    };
    let Some(missing) = lister.subtasks.get(number) else {
        return Ok(None);
    };
    if !has_name(alloc, missing, word)? {
        return Ok(None);
    }
    let (text, _) = filled(alloc, lister, &missing.task)?;
    Ok(Some(text))
}

/// That a child is no subtask.
pub(crate) fn no_subtask(
    alloc: Global,
    case: &PlanCase<'_>,
    plan: &PlacedPlan<'_>,
    lister: &Lister<'_>,
    child: usize,
    subtask: Option<usize>,
) -> Result<Reason, AllocError> {
    let line = lister.lines.get(child).copied().unwrap_or(0);
    let id = lister.ids.get(child).copied().unwrap_or(0);
    let message = Message::new(alloc).say("line ").number(id).say(" is ");
    let Some(words) = words_of(case, line) else {
        let message = lister.named(message.say("no subtask of "));
        return Ok(Reason::new(alloc, lister.word(plan), message));
    };
    let text = bracketed(alloc, words.name.as_bytes(), words.arguments)?;
    let message = message.name(text.as_slice());
    let message = match wanted_text(alloc, lister, subtask, words.name)? {
        Some(wanted) => lister
            .named(message.say(", and "))
            .say(" wants ")
            .name(wanted.as_slice()),
        None => lister.named(message.say(", which is no subtask of ")),
    };
    let here = Message::new(alloc).say("line ").number(id);
    let reason = Reason::new(alloc, lister.child_word(plan, child), message).note(
        word_at(plan, line, 0),
        here,
    );
    with_subtask(alloc, lister, subtask, reason)
}

/// That no child is a subtask, though each child can be some.
pub(crate) fn no_child(
    alloc: Global,
    plan: &PlacedPlan<'_>,
    lister: &Lister<'_>,
    subtask: usize,
) -> Result<Reason, AllocError> {
    let message = lister.named(Message::new(alloc).say(
        "no line that this one lists is a subtask of ",
    ));
    let reason = Reason::new(alloc, lister.word(plan), message);
    with_subtask(alloc, lister, Some(subtask), reason)
}

/// That no values of the parameters fit all children together.
pub(crate) fn no_instance(
    alloc: Global,
    plan: &PlacedPlan<'_>,
    lister: &Lister<'_>,
    place: usize,
) -> Reason {
    let message = lister
        .named(Message::new(alloc))
        .say(" has no instance with these children");
    let parameters = Message::new(alloc).say("its parameters");
    Reason::new(alloc, lister.word(plan), message).note(lister.at(place), parameters)
}

/// That the words of a child name nothing.
pub(crate) fn child_unknown(
    alloc: Global,
    plan: &PlacedPlan<'_>,
    lister: &Lister<'_>,
    child: usize,
    why: Reason,
) -> Reason {
    let id = lister.ids.get(child).copied().unwrap_or(0);
    let message = Message::new(alloc)
        .say("line ")
        .number(id)
        .say(" can't be carried out by anything");
    let mark = lister.child_word(plan, child);
    let mut reason = Reason::new(alloc, mark, message).note(why.mark, why.message);
    reason.is_refused = reason.is_refused || why.is_refused;
    reason
}
