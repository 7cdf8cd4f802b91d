//! What is wrong with the words of a line.

use crate::message::Message;
use crate::reason::{Mark, Reason};
use crate::schemas::{action_named, meant, parameter_at, task_named};
use crate::spots::{in_domain, word_at};
use hddl_words::{DomainText, ProblemText, VariableGroup};
use plan_findings::PlanCase;
use plan_lines::WordsCause;
use plan_messages::PlacedPlan;
use plan_text::Word;
use std::alloc::{AllocError, Global};

/// The words of a line that name a task.
#[derive(Clone, Copy)]
pub(crate) struct TaskWords<'a> {
    /// The number of the line.
    pub(crate) line: usize,
    pub(crate) name: &'a Word,
    pub(crate) arguments: &'a [Word],
    pub(crate) is_compound: bool,
}

/// The words of a line, by its number.
pub(crate) fn words_of<'a>(case: &PlanCase<'a>, line: usize) -> Option<TaskWords<'a>> {
    let actions = case.file.actions();
    if let Some(action) = actions.get(line) {
        return Some(TaskWords {
            line,
            name: action.name(),
            arguments: action.arguments(),
            is_compound: false,
        });
    }
    let place = line.saturating_sub(actions.len());
    let decomposition = case.file.decompositions().get(place)?;
    Some(TaskWords {
        line,
        name: decomposition.task(),
        arguments: decomposition.arguments(),
        is_compound: true,
    })
}

/// Words after a blank each, as `deliver flour farm`.
pub(crate) fn spaced(
    alloc: Global,
    name: &[u8],
    arguments: &[Word],
) -> Result<Vec<u8>, AllocError> {
    let mut text = Vec::from_slice(alloc, name)?;
    for word in arguments {
        text.push(b' ')?;
        text.extend_from_slice(word.as_bytes())?;
    }
    Ok(text)
}

/// Words in brackets, as `(deliver flour farm)`.
pub(crate) fn bracketed(
    alloc: Global,
    name: &[u8],
    arguments: &[Word],
) -> Result<Vec<u8>, AllocError> {
    let words = spaced(alloc, name, arguments)?;
    let mut text = Vec::from_slice(alloc, b"(")?;
    text.extend_from_slice(words.as_slice())?;
    text.push(b')')?;
    Ok(text)
}

/// The names of the compound tasks, or of the actions.
fn names_of<'d>(
    alloc: Global,
    domain: &'d DomainText,
    is_compound: bool,
) -> Result<Vec<&'d [u8]>, AllocError> {
    let mut names = Vec::new(alloc);
    if is_compound {
        for task in domain.tasks.as_slice() {
            names.push(task.name.text())?;
        }
        return Ok(names);
    }
    for action in domain.actions.as_slice() {
        names.push(action.name.text())?;
    }
    Ok(names)
}

/// The names of all objects and constants.
fn object_names<'d>(
    alloc: Global,
    domain: &'d DomainText,
    problem: &'d ProblemText,
) -> Result<Vec<&'d [u8]>, AllocError> {
    let mut names = Vec::new(alloc);
    for group in domain.constants.as_slice() {
        for name in group.names.as_slice() {
            names.push(name.text())?;
        }
    }
    for group in problem.objects.as_slice() {
        for name in group.names.as_slice() {
            names.push(name.text())?;
        }
    }
    Ok(names)
}

/// That the domain has no such task or action.
fn unknown(alloc: Global, mark: Mark, words: &TaskWords<'_>) -> Reason {
    let kind = if words.is_compound {
        "compound task "
    } else {
        "action "
    };
    let message = Message::new(alloc)
        .say("the domain has no ")
        .say(kind)
        .name(words.name.as_bytes());
    Reason::new(alloc, mark, message)
}

/// Whether a name looks like one of a planner's own compiled model.
fn is_compiled(name: &[u8]) -> bool {
    name.starts_with(b"__")
}

/// What may be meant by a name that nothing has.
fn with_near_names(
    alloc: Global,
    domain: &DomainText,
    words: &TaskWords<'_>,
    reason: Reason,
) -> Result<Reason, AllocError> {
    if is_compiled(words.name.as_bytes()) {
        let message = Message::new(alloc).say(
            "this looks like a name of a planner's own compiled model: let it write the plan of the original one",
        );
        return Ok(reason.help(message));
    }
    let names = names_of(alloc, domain, words.is_compound)?;
    Ok(match meant(alloc, words.name, names.as_slice())? {
        Some(message) => reason.help(message),
        None => reason,
    })
}

/// What a name is that names something of the other kind.
fn other_kind(alloc: Global, words: &TaskWords<'_>, reason: Reason) -> Reason {
    let message = Message::new(alloc).name(words.name.as_bytes());
    reason.help(message.say(if words.is_compound {
        " is an action: it has no method"
    } else {
        " is a compound task: it needs a method and its children"
    }))
}

/// The parameters that the task or the action declares, and where its name stands.
fn declared<'d>(
    alloc: Global,
    domain: &'d DomainText,
    words: &TaskWords<'_>,
) -> Result<Option<(&'d [VariableGroup], usize)>, AllocError> {
    if words.is_compound {
        return Ok(match task_named(alloc, domain, words.name)? {
            Some(task) => Some((task.parameters.as_slice(), task.name.place())),
            None => None,
        });
    }
    Ok(match action_named(alloc, domain, words.name)? {
        Some(action) => Some((action.parameters.as_slice(), action.name.place())),
        None => None,
    })
}

/// That another number of arguments is wanted.
fn arity(
    alloc: Global,
    case: &PlanCase<'_>,
    mark: Mark,
    words: &TaskWords<'_>,
    wanted: usize,
) -> Result<Reason, AllocError> {
    let given = words.arguments.len();
    let message = Message::new(alloc)
        .name(words.name.as_bytes())
        .say(" takes ")
        .count(wanted, "argument")
        .say(", and ")
        .number(given as u64)
        .say(if given == 1 {
            " stands here"
        } else {
            " stand here"
        });
    let reason = Reason::new(alloc, mark, message);
    let here = Message::new(alloc).say("it is declared here");
    Ok(match declared(alloc, case.domain, words)? {
        Some((_, place)) => reason.note(in_domain(place), here),
        None => reason,
    })
}

/// That an argument is no object.
fn no_object(
    alloc: Global,
    case: &PlanCase<'_>,
    mark: Mark,
    word: &Word,
) -> Result<Reason, AllocError> {
    let message = Message::new(alloc)
        .say("no object is named ")
        .name(word.as_bytes());
    let reason = Reason::new(alloc, mark, message);
    let names = object_names(alloc, case.domain, case.problem)?;
    Ok(match meant(alloc, word, names.as_slice())? {
        Some(message) => reason.help(message),
        None => reason,
    })
}

/// That an argument has another type than its parameter.
fn other_type(
    alloc: Global,
    case: &PlanCase<'_>,
    mark: Mark,
    words: &TaskWords<'_>,
    place: usize,
    word: &Word,
) -> Result<Reason, AllocError> {
    let message = Message::new(alloc).name(word.as_bytes());
    let found = match declared(alloc, case.domain, words)? {
        Some((groups, _)) => parameter_at(groups, place),
        None => None,
    };
    let Some((variable, of_type, declared)) = found else {
        let message = message.say(" has another type than this argument wants");
        return Ok(Reason::new(alloc, mark, message));
    };
    let message = message
        .say(" isn't of the type ")
        .name(of_type)
        .say(" that ")
        .name(variable)
        .say(" of ")
        .name(words.name.as_bytes())
        .say(" wants");
    let parameter = Message::new(alloc).say("it stands for this parameter");
    Ok(Reason::new(alloc, mark, message).note(in_domain(declared), parameter))
}

/// That the parameters can't have these values.
fn no_values(alloc: Global, mark: Mark, words: &TaskWords<'_>) -> Reason {
    let message = Message::new(alloc)
        .say("the parameters of ")
        .name(words.name.as_bytes())
        .say(" can't have these values");
    Reason::new(alloc, mark, message)
}

/// What is wrong with the words of a line.
pub(crate) fn words_reason(
    alloc: Global,
    case: &PlanCase<'_>,
    plan: &PlacedPlan<'_>,
    words: &TaskWords<'_>,
    cause: WordsCause,
) -> Result<Reason, AllocError> {
    let name = word_at(plan, words.line, 1);
    match cause {
        WordsCause::NoTask => {
            with_near_names(alloc, case.domain, words, unknown(alloc, name, words))
        }
        WordsCause::OtherKind => Ok(other_kind(alloc, words, unknown(alloc, name, words))),
        WordsCause::Arguments { wanted } => arity(alloc, case, name, words, wanted),
        WordsCause::NoObject { place } => {
            let mark = word_at(plan, words.line, place.saturating_add(2));
            match words.arguments.get(place) {
                Some(word) => no_object(alloc, case, mark, word),
                None => Ok(no_values(alloc, name, words)),
            }
        }
        WordsCause::ObjectType { place } => {
            let mark = word_at(plan, words.line, place.saturating_add(2));
            match words.arguments.get(place) {
                Some(word) => other_type(alloc, case, mark, words, place, word),
                None => Ok(no_values(alloc, name, words)),
            }
        }
        WordsCause::Equality { .. } | WordsCause::AtomType => Ok(no_values(alloc, name, words)),
    }
}
