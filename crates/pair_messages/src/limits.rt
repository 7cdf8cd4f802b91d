//! More of something than the limit.

use crate::declared::{Declared, declared_at};
use crate::index::PairIndex;
use crate::variables::places_of;
use diagnostics::Part;
use hddl_meaning::At;
use hddl_words::VariableGroup;
use std::alloc::{AllocError, Global};

/// The most parameters of a list.
const MOST_PARAMETERS: usize = 32;

/// Whether the variable past the limit of a `forall` stands at a place.
fn is_past(alloc: Global, groups: &[VariableGroup], place: usize) -> Result<bool, AllocError> {
    let places = places_of(alloc, groups)?;
    match places.get(MOST_PARAMETERS) {
        Some(past) => Ok(past.variable.place() == place),
        None => Ok(false),
    }
}

/// What there is too much of.
fn words_of<'a>(declared: Option<Declared<'_>>) -> &'a str {
    match declared {
        Some(Declared::Type) => "more than 65,535 types",
        Some(Declared::Object) => "more than 65,535 objects",
        Some(Declared::Predicate) => "more than 65,535 predicates",
        Some(Declared::Task) => "more than 65,535 compound tasks",
        Some(Declared::Method) => "more than 65,535 methods",
        Some(Declared::Action) => "more than 65,535 actions",
        Some(Declared::PredicateParameter | Declared::Parameter(_)) => "more than 32 parameters",
        Some(Declared::Quantified(_)) => "more than 65,535 variables in force",
        Some(Declared::Subtask(_)) => "more than 10,000 subtasks",
        None => "more than the limit",
    }
}

/// The message for more of something than the limit.
pub(crate) fn limit_message<'a>(
    alloc: Global,
    index: &PairIndex<'a>,
    at: At,
) -> Result<Vec<Part<'a>>, AllocError> {
    let texts = index.texts;
    let declared = declared_at(texts.domain_tree, texts.problem_tree, at);
    let mut words = words_of(declared);
    if let Some(Declared::Quantified(groups)) = declared
        && is_past(alloc, groups, at.place)?
    {
        words = "more than 32 variables of a `forall`";
    }
    let parts: [Part<'a>; 1] = [Part::Words(words)];
    Vec::from_slice(alloc, &parts)
}
