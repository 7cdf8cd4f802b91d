//! Errors that own their words, and the errors that are written of them.

ghost use Rattle.std.specs.Prelude.{IfOk};
ghost use Rattle.plan_messages.specs.Errors.{IsError};

use crate::message::{Message, parts_of};
use diagnostics::{Diagnostic, Note, Remark, RemarkKind, Role, Severity, Spot, Where};
use hddl_meaning::Source as Side;
use pair_messages::{At, spot_of};
use plan_messages::PlanTexts;
use std::alloc::{AllocError, Global};

/// A word of one of the texts.
#[derive(Clone, Copy)]
pub(crate) struct Mark {
    pub(crate) role: Role,
    pub(crate) place: usize,
    /// How many bytes of a plan's text are underlined; of the other texts it is the word at the place.
    pub(crate) len: usize,
}

/// A message about a place.
#[derive(Drop)]
pub(crate) struct Saying {
    pub(crate) mark: Mark,
    pub(crate) message: Message,
}

/// Why lines are refused: an error that owns its words.
#[derive(Drop)]
pub(crate) struct Reason {
    pub(crate) mark: Mark,
    pub(crate) message: Message,
    pub(crate) label: Message,
    pub(crate) help: Vec<Message>,
    pub(crate) notes: Vec<Saying>,
    /// Whether memory was refused for a help, for a note, or for a message of either.
    pub(crate) is_refused: bool,
}

impl Reason {
    pub(crate) fn new(alloc: Global, mark: Mark, message: Message) -> Reason {
        Reason {
            mark,
            message,
            label: Message::new(alloc),
            help: Vec::new(alloc),
            notes: Vec::new(alloc),
            is_refused: false,
        }
    }

    /// The error with a note more.
    pub(crate) fn note(self, mark: Mark, message: Message) -> Reason {
        let mut reason = self;
        let is_short = message.is_refused;
        if reason.notes.push(Saying { mark, message }).is_err() || is_short {
            reason.is_refused = true;
        }
        reason
    }

    /// The error with more that says what to do.
    pub(crate) fn help(self, message: Message) -> Reason {
        let mut reason = self;
        let is_short = message.is_refused;
        if reason.help.push(message).is_err() || is_short {
            reason.is_refused = true;
        }
        reason
    }
}

/// A place of the plan's text.
fn plan_spot<'a>(texts: &PlanTexts<'a>, mark: Mark) -> Spot<'a> {
    let source = texts.plan.text;
    Spot {
        source,
        place: mark.place.min(source.lines.text().len()),
        word_len: mark.len,
    }
}

/// The word that is marked.
fn spot_at<'a>(texts: &PlanTexts<'a>, mark: Mark) -> Spot<'a> {
    let place = mark.place;
    match mark.role {
        Role::Plan => plan_spot(texts, mark),
        Role::Domain => spot_of(
            &texts.pair,
            At {
                source: Side::Domain,
                place,
            },
        ),
        Role::Problem => spot_of(
            &texts.pair,
            At {
                source: Side::Problem,
                place,
            },
        ),
    }
}

/// What to do, as it is written.
fn remarks_of<'a>(alloc: Global, help: &'a [Message]) -> Result<Vec<Remark<'a>>, AllocError> {
    let mut remarks = Vec::with_capacity(alloc, help.len())?;
    for message in help {
        remarks.push(Remark {
            kind: RemarkKind::Help,
            message: parts_of(alloc, message)?,
        })?;
    }
    Ok(remarks)
}

/// The notes, as they are written.
fn notes_of<'a>(
    alloc: Global,
    texts: &PlanTexts<'a>,
    sayings: &'a [Saying],
) -> Result<Vec<Note<'a>>, AllocError> {
    let mut notes = Vec::with_capacity(alloc, sayings.len())?;
    for saying in sayings {
        notes.push(Note {
            spot: spot_at(texts, saying.mark),
            message: parts_of(alloc, &saying.message)?,
        })?;
    }
    Ok(notes)
}

/// The error of a reason with the name of a verdict, as it is written. An error where memory was refused.
pub(crate) fn reason_error<'a>(
    alloc: Global,
    texts: &PlanTexts<'a>,
    code: &'a str,
    reason: &'a Reason,
) -> Result<Diagnostic<'a>, AllocError>
    ensures { IfOk result (λ d. IsError code.now d) }
{
    if reason.is_refused {
        return Err(AllocError);
    }
    Ok(Diagnostic {
        severity: Severity::Error,
        code,
        about: Where::Place(spot_at(texts, reason.mark)),
        message: parts_of(alloc, &reason.message)?,
        label: parts_of(alloc, &reason.label)?,
        remarks: remarks_of(alloc, reason.help.as_slice())?,
        notes: notes_of(alloc, texts, reason.notes.as_slice())?,
    })
}
