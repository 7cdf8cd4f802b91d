//! Since when a literal is false, and what makes it true.

use crate::saying::Saying;
use crate::texts::{PlanTexts, action_place, in_problem};
use crate::words::word_from;
use diagnostics::{Part, Spot};
use plan_causes::{FalseLiteral, Sign, Standing};
use plan_text::{ActionLine, Word};
use std::alloc::{AllocError, Global};
use std::str;

/// The number that an action line begins with.
fn action_number<'a>(texts: &PlanTexts<'a>, number: usize) -> Option<Spot<'a>> {
    let place = action_place(&texts.plan, number)?;
    Some(word_from(texts.plan.text, place))
}

/// A word of a text without backticks.
fn plain<'a>(word: &'a Word) -> Part<'a> {
    match str::from_utf8(word.as_bytes()) {
        Ok(text) => Part::Words(text),
        Err(_) => Part::Words("?"),
    }
}

/// Adds the action of a line, as `(stack a b)`.
fn push_action<'a>(parts: &mut Vec<Part<'a>>, line: &'a ActionLine) -> Result<(), AllocError> {
    parts.push(Part::Words("("))?;
    parts.push(plain(line.name()))?;
    for word in line.arguments() {
        parts.push(Part::Words(" "))?;
        parts.push(plain(word))?;
    }
    parts.push(Part::Words(")"))?;
    Ok(())
}

/// That an action made the literal false, and which.
fn turned_message<'a>(
    alloc: Global,
    texts: &PlanTexts<'a>,
    literal: &'a FalseLiteral,
    number: usize,
) -> Result<Vec<Part<'a>>, AllocError> {
    let words = if literal.sign == Sign::Negative {
        " becomes true here: "
    } else {
        " becomes false here: "
    };
    let mut parts = vec![in alloc; Part::Name(literal.atom.as_slice()), Part::Words(words)]?;
    if let Some(line) = texts.plan.file.actions().get(number) {
        push_action(&mut parts, line)?;
    }
    Ok(parts)
}

/// That an atom is false from the start.
fn false_message<'a>(
    alloc: Global,
    literal: &'a FalseLiteral,
) -> Result<Vec<Part<'a>>, AllocError> {
    let mut parts = vec![in alloc;
        Part::Name(literal.atom.as_slice()),
        Part::Words(" is false from the start"),
    ]?;
    if let Some(name) = &literal.unchanged {
        parts.push(Part::Words(", and no action changes "))?;
        parts.push(Part::Name(name.as_slice()))?;
    }
    Ok(parts)
}

/// That an atom is true from the start.
fn true_message<'a>(alloc: Global, literal: &'a FalseLiteral) -> Result<Vec<Part<'a>>, AllocError> {
    let parts = vec![in alloc;
        Part::Name(literal.atom.as_slice()),
        Part::Words(" is true from the start"),
    ]?;
    Ok(parts)
}

/// Says that a literal is false from the start.
fn say_from_start<'a>(
    alloc: Global,
    texts: &PlanTexts<'a>,
    saying: &mut Saying<'a>,
    literal: &'a FalseLiteral,
) -> Result<(), AllocError> {
    match literal.sign {
        Sign::Positive => saying.remark(false_message(alloc, literal)?),
        Sign::Negative => {
            let message = true_message(alloc, literal)?;
            match literal.initial {
                Some(place) => saying.note(Some(in_problem(&texts.pair, place)), message),
                None => saying.remark(message),
            }
        }
        Sign::Same => { saying.remark(vec![in alloc; Part::Words("the two sides are different")]?) }
        Sign::Different => {
            saying.remark(vec![in alloc; Part::Words("the two sides are one object")]?)
        }
    }
}

/// Says since when a literal is false.
pub(crate) fn say_since<'a>(
    alloc: Global,
    texts: &PlanTexts<'a>,
    saying: &mut Saying<'a>,
    literal: &'a FalseLiteral,
) -> Result<(), AllocError> {
    match literal.standing {
        Standing::FalseSince(number) => {
            let message = turned_message(alloc, texts, literal, number)?;
            saying.note(action_number(texts, number), message)
        }
        Standing::False => say_from_start(alloc, texts, saying, literal),
        Standing::Holds => Ok(()),
    }
}

/// Says which action makes a literal true next, if one does.
pub(crate) fn say_next<'a>(
    alloc: Global,
    texts: &PlanTexts<'a>,
    saying: &mut Saying<'a>,
    literal: &'a FalseLiteral,
    next: Option<usize>,
) -> Result<(), AllocError> {
    let Some(number) = next else {
        return Ok(());
    };
    let after = if literal.sign == Sign::Negative {
        " false"
    } else {
        " true"
    };
    let message = vec![in alloc;
        Part::Words("the next action that makes "),
        Part::Name(literal.atom.as_slice()),
        Part::Words(after),
    ]?;
    saying.note(action_number(texts, number), message)
}
