//! Sections of the domain by the words of a plan, and names that are near to a word.

use crate::message::Message;
use diagnostics::nearest;
use hddl_names::fold;
use hddl_words::{ActionText, DomainText, MethodText, Name, TaskText, VariableGroup};
use plan_text::Word;
use std::alloc::{AllocError, Global};

/// Whether a name is a word, in lower case.
pub(crate) fn is_named(alloc: Global, name: &Name, word: &[u8]) -> Result<bool, AllocError> {
    let text = fold(alloc, name.text())?;
    Ok(text.as_slice() == word)
}

/// The action of a name.
pub(crate) fn action_named<'d>(
    alloc: Global,
    domain: &'d DomainText,
    word: &Word,
) -> Result<Option<&'d ActionText>, AllocError> {
    for action in domain.actions.as_slice() {
        if is_named(alloc, &action.name, word.as_bytes())? {
            return Ok(Some(action));
        }
    }
    Ok(None)
}

/// The compound task of a name.
pub(crate) fn task_named<'d>(
    alloc: Global,
    domain: &'d DomainText,
    word: &Word,
) -> Result<Option<&'d TaskText>, AllocError> {
    for task in domain.tasks.as_slice() {
        if is_named(alloc, &task.name, word.as_bytes())? {
            return Ok(Some(task));
        }
    }
    Ok(None)
}

/// The method of a name.
pub(crate) fn method_named<'d>(
    alloc: Global,
    domain: &'d DomainText,
    word: &[u8],
) -> Result<Option<&'d MethodText>, AllocError> {
    for method in domain.methods.as_slice() {
        if is_named(alloc, &method.name, word)? {
            return Ok(Some(method));
        }
    }
    Ok(None)
}

/// The name of the parameter of a number, its type, and where it stands.
pub(crate) fn parameter_at(
    groups: &[VariableGroup],
    number: usize,
) -> Option<(&[u8], &[u8], usize)> {
    let mut left = number;
    for group in groups {
        let variables = group.variables.as_slice();
        if let Some(variable) = variables.get(left) {
            let of_type = match &group.of_type {
                Some(name) => name.text(),
                None => b"object",
            };
            return Some((variable.text(), of_type, variable.place()));
        }
        left = left.saturating_sub(variables.len());
    }
    None
}

/// The names of the methods of a task.
pub(crate) fn methods_of<'d>(
    alloc: Global,
    domain: &'d DomainText,
    task: &Word,
) -> Result<Vec<&'d [u8]>, AllocError> {
    let mut names = Vec::new(alloc);
    for method in domain.methods.as_slice() {
        if is_named(alloc, &method.task.name, task.as_bytes())? {
            names.push(method.name.text())?;
        }
    }
    Ok(names)
}

/// The message with names after it: `a`, `b` and `c`.
pub(crate) fn listed(message: Message, names: &[&[u8]], last: &str) -> Message {
    let mut message = message;
    for (number, name) in names.iter().enumerate() {
        if number > 0 {
            let is_last = number + 1 == names.len();
            message = message.say(if is_last { last } else { ", " });
        }
        message = message.name(name);
    }
    message
}

/// What may be meant by a word, if some of the names are near to it.
pub(crate) fn meant(
    alloc: Global,
    word: &Word,
    names: &[&[u8]],
) -> Result<Option<Message>, AllocError> {
    let found = nearest(alloc, word.as_bytes(), names)?;
    if found.is_empty() {
        return Ok(None);
    }
    let mut near = Vec::new(alloc);
    for number in found.as_slice() {
        if let Some(name) = names.get(*number) {
            near.push(*name)?;
        }
    }
    let message = Message::new(alloc).say("did you mean ");
    Ok(Some(listed(message, near.as_slice(), " or ").say("?")))
}
