//! What is declared at a place.

use crate::phrases::Section;
use hddl_locate::{
    action_by, condition_by, method_by, predicate_by, subtask_by, task_by, typed_name_at,
    typed_or_type_at, typed_variable_at,
};
use hddl_meaning::{At, Source as Side};
use hddl_words::{Condition, DomainText, NetworkText, ProblemText, VariableGroup};

/// As deep as brackets are open in a text, at most.
const MOST_DEPTH: usize = 64;

/// What is declared at a place.
#[derive(Clone, Copy)]
pub(crate) enum Declared<'a> {
    Predicate,
    Method,
    Task,
    Action,
    Type,
    Object,
    /// A parameter of a predicate.
    PredicateParameter,
    Parameter(Section<'a>),
    /// A variable of a `forall`, with those that it declares.
    Quantified(&'a [VariableGroup]),
    /// A subtask, at its label or its name.
    Subtask(Section<'a>),
}

/// A variable of a `forall` in a condition.
fn in_conditions(conditions: &[Condition], place: usize) -> Option<Declared<'_>> {
    let mut inner = conditions;
    for _ in 0..MOST_DEPTH {
        let Condition::Forall(groups, body) = condition_by(inner, place)? else {
            return None;
        };
        if typed_variable_at(groups.as_slice(), place).is_some() {
            return Some(Declared::Quantified(groups.as_slice()));
        }
        inner = body.as_slice();
    }
    None
}

/// A subtask of a network.
fn in_network<'a>(
    section: Section<'a>,
    network: &NetworkText,
    place: usize,
) -> Option<Declared<'a>> {
    let subtask = subtask_by(network.subtasks.as_slice(), place)?;
    if subtask.place() == place {
        Some(Declared::Subtask(section))
    } else {
        None
    }
}

/// A parameter of a section.
fn in_parameters<'a>(section: Section<'a>, place: usize) -> Option<Declared<'a>> {
    let _ = typed_variable_at(section.parameters(), place)?;
    Some(Declared::Parameter(section))
}

/// What is declared at a place of a method.
fn in_methods(domain: &DomainText, place: usize) -> Option<Declared<'_>> {
    let method = method_by(domain.methods.as_slice(), place)?;
    if method.name.place() == place {
        return Some(Declared::Method);
    }
    let section = Section::Method(method);
    match in_parameters(section, place) {
        Some(found) => Some(found),
        None => match in_network(section, &method.network, place) {
            Some(found) => Some(found),
            None => in_conditions(method.precondition.as_slice(), place),
        },
    }
}

/// What is declared at a place of an action.
fn in_actions(domain: &DomainText, place: usize) -> Option<Declared<'_>> {
    let action = action_by(domain.actions.as_slice(), place)?;
    if action.name.place() == place {
        return Some(Declared::Action);
    }
    match in_parameters(Section::Action(action), place) {
        Some(found) => Some(found),
        None => in_conditions(action.precondition.as_slice(), place),
    }
}

/// What is declared at a place of a predicate or a compound task.
fn in_names(domain: &DomainText, place: usize) -> Option<Declared<'_>> {
    if let Some(predicate) = predicate_by(domain.predicates.as_slice(), place) {
        if predicate.name.place() == place {
            return Some(Declared::Predicate);
        }
        if typed_variable_at(predicate.parameters.as_slice(), place).is_some() {
            return Some(Declared::PredicateParameter);
        }
    }
    let task = task_by(domain.tasks.as_slice(), place)?;
    if task.name.place() == place {
        Some(Declared::Task)
    } else {
        None
    }
}

/// What is declared at a place of a domain.
fn in_domain(domain: &DomainText, place: usize) -> Option<Declared<'_>> {
    if typed_or_type_at(domain.types.as_slice(), place).is_some() {
        return Some(Declared::Type);
    }
    if typed_name_at(domain.constants.as_slice(), place).is_some() {
        return Some(Declared::Object);
    }
    match in_names(domain, place) {
        Some(found) => Some(found),
        None => match in_methods(domain, place) {
            Some(found) => Some(found),
            None => in_actions(domain, place),
        },
    }
}

/// What is declared at a place of a problem.
fn in_problem(problem: &ProblemText, place: usize) -> Option<Declared<'_>> {
    if typed_name_at(problem.objects.as_slice(), place).is_some() {
        return Some(Declared::Object);
    }
    let section = Section::Htn(&problem.htn);
    match in_parameters(section, place) {
        Some(found) => Some(found),
        None => match in_network(section, &problem.htn.network, place) {
            Some(found) => Some(found),
            None => in_conditions(problem.goal.as_slice(), place),
        },
    }
}

/// What is declared at a place of a pair.
pub(crate) fn declared_at<'a>(
    domain: &'a DomainText,
    problem: &'a ProblemText,
    at: At,
) -> Option<Declared<'a>> {
    match at.source {
        Side::Domain => in_domain(domain, at.place),
        Side::Problem => in_problem(problem, at.place),
    }
}
