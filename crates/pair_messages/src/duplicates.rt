//! Names that stand twice.

ghost use Rattle.std.specs.Prelude.{◌≡◌, [], IfOk};
ghost use Rattle.diagnostics.specs.Offers.{offered, offered_by};

use crate::declared::{Declared, declared_at};
use crate::index::PairIndex;
use crate::phrases::{Section, section_parts};
use crate::remarks::help;
use crate::texts::word_of;
use diagnostics::{Part, Remark};
use hddl_meaning::At;
use std::alloc::{AllocError, Global};

/// What is declared where a name stands twice.
fn declared_of<'a>(index: &PairIndex<'a>, at: At) -> Option<Declared<'a>> {
    declared_at(index.texts.domain_tree, index.texts.problem_tree, at)
}

/// What a declaration of the domain declares.
fn what_of<'a>(declared: Option<Declared<'a>>) -> Option<&'a str> {
    match declared {
        Some(Declared::Predicate) => Some("the predicate "),
        Some(Declared::Method) => Some("the method "),
        Some(Declared::Task | Declared::Action) => Some("the task or action "),
        _ => None,
    }
}

/// The message for something in a section that stands twice, as a parameter or a label.
fn stands_twice<'a>(
    alloc: Global,
    what: &'a str,
    word: &'a [u8],
    section: Section<'a>,
) -> Result<Vec<Part<'a>>, AllocError> {
    let (kind, name) = section_parts(section);
    let parts = [
        Part::Words(what),
        Part::Name(word),
        Part::Words(" of "),
        kind,
        name,
        Part::Words(" stands twice"),
    ];
    Vec::from_slice(alloc, &parts)
}

/// The message for a name that stands twice.
pub(crate) fn twice_message<'a>(
    alloc: Global,
    index: &PairIndex<'a>,
    at: At,
) -> Result<Vec<Part<'a>>, AllocError> {
    let word = word_of(index.texts, at);
    let declared = declared_of(index, at);
    if let Some(what) = what_of(declared) {
        let parts = [
            Part::Words(what),
            Part::Name(word),
            Part::Words(" is declared twice"),
        ];
        return Vec::from_slice(alloc, &parts);
    }
    match declared {
        Some(Declared::Parameter(section)) => {
            stands_twice(alloc, "the parameter ", word, section)
        }
        Some(Declared::Subtask(section)) => stands_twice(alloc, "the label ", word, section),
        _ => Vec::from_slice(
            alloc,
            &[Part::Name(word), Part::Words(" is in force already")],
        ),
    }
}

/// Whether a declaration of the domain stands twice, not something within one.
pub(crate) fn is_declared_twice(index: &PairIndex<'_>, at: At) -> bool {
    what_of(declared_of(index, at)).is_some()
}

/// What stands beside the carets below a name that stands twice.
pub(crate) fn twice_label<'a>(
    alloc: Global,
    index: &PairIndex<'a>,
    at: At,
) -> Result<Vec<Part<'a>>, AllocError> {
    if !is_declared_twice(index, at) {
        return Ok(Vec::new(alloc));
    }
    let parts: [Part<'a>; 1] = [Part::Words("declared again here")];
    Vec::from_slice(alloc, &parts)
}

/// Why a task can't have the name of an action.
fn one_name<'a>(alloc: Global) -> Result<Vec<Part<'a>>, AllocError>
    ensures { IfOk result (λ parts. offered_by parts.items ≡ []) }
{
    let parts = vec![in alloc; Part::Words("a task and an action can't have one name")]?;
    Ok(parts)
}

/// What is remarked of a name that stands twice.
pub(crate) fn twice_remarks<'a>(
    alloc: Global,
    index: &PairIndex<'a>,
    at: At,
) -> Result<Vec<Remark<'a>>, AllocError>
    ensures { IfOk result (λ remarks. offered remarks.items ≡ []) }
{
    match declared_of(index, at) {
        Some(Declared::Task | Declared::Action) => {
            let why = one_name(alloc)?;
            let remarks = help(alloc, why)?;
            Ok(remarks)
        }
        _ => Ok(Vec::new(alloc)),
    }
}
