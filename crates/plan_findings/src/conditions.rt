//! Where the literals of a precondition or a goal are written.

ghost use Rattle.std.specs.Prelude.{◌≡◌, IfOk, OnOk};
ghost use Rattle.plan_findings.specs.Conditions as spec;
ghost use Rattle.plan_findings.specs.Conditions.{AddsAmong, AreAmong};

use hddl_names::fold;
use hddl_words::{Condition, Name, ProblemText, Term, VariableGroup};
use htn_task::Task;
use indexmap::IndexMap;
use std::alloc::{AllocError, Global};

/// The place of a term.
fn term_place(term: &Term) -> usize
    ensures { result ≡ spec.term_place term.now }
{
    match term {
        Term::Variable(variable) => variable.place(),
        Term::Object(name) => name.place(),
    }
}

/// How many objects a type has.
fn object_count(alloc: Global, task: &Task, of_type: &Option<Name>) -> Result<usize, AllocError> {
    let text = match of_type {
        Some(name) => fold(alloc, name.text())?,
        None => fold(alloc, b"object")?,
    };
    let Some(number) = task.type_number(text.as_slice()) else {
        return Ok(0);
    };
    match u16::try_from(number) {
        Ok(number) => Ok(task.objects_of(number).len()),
        Err(_) => Ok(0),
    }
}

/// How many choices of objects quantified variables have.
fn choice_count(alloc: Global, task: &Task, groups: &[VariableGroup]) -> Result<usize, AllocError> {
    let mut count: usize = 1;
    for group in groups {
        let objects = object_count(alloc, task, &group.of_type)?;
        for _ in group.variables.as_slice() {
            count = count.saturating_mul(objects);
        }
    }
    Ok(count)
}

/// Adds places a number of times.
fn push_repeated(places: &mut Vec<usize>, block: &[usize], count: usize) -> Result<(), AllocError>
    ensures { OnOk result (AddsAmong places.old.items places.new.items block.now) }
{
    if block.is_empty() {
        return Ok(());
    }
    for pushed in 0..count {
        let _ = pushed;
        places.extend_from_slice(block)?;
    }
    Ok(())
}

/// Adds the place of each literal that a condition stands for: those of a `forall` once for each choice of objects.
fn push_places(
    alloc: Global,
    task: &Task,
    condition: &Condition,
    places: &mut Vec<usize>,
) -> Result<(), AllocError>
    ensures { OnOk result (AddsAmong places.old.items places.new.items (spec.places_in condition.now)) }
{
    match condition {
        Condition::Literal(literal) => {
            places.push(literal.atom.name.place())?;
            Ok(())
        }
        Condition::Equality(equality) => {
            places.push(term_place(&equality.left))?;
            Ok(())
        }
        Condition::Forall(groups, body) => {
            let mut block = Vec::new(alloc);
            for part in body.as_slice() {
                push_places(alloc, task, part, &mut block)?;
            }
            let count = choice_count(alloc, task, groups.as_slice())?;
            push_repeated(places, block.as_slice(), count)?;
            Ok(())
        }
    }
}

/// Adds the places of a condition of a precondition, unless it is an equality outside every `forall`.
fn push_held(
    alloc: Global,
    task: &Task,
    condition: &Condition,
    places: &mut Vec<usize>,
) -> Result<(), AllocError>
    ensures { OnOk result (AddsAmong places.old.items places.new.items (spec.places_in condition.now)) }
{
    if matches!(condition, Condition::Equality(_)) {
        return Ok(());
    }
    push_places(alloc, task, condition, places)
}

/// The place of each literal of a goal, in the literals' order.
pub(crate) fn goal_places(
    alloc: Global,
    task: &Task,
    goal: &[Condition],
) -> Result<Vec<usize>, AllocError>
    ensures { IfOk result (λ v. AreAmong v.items (spec.places_of goal.now)) }
{
    let mut places = Vec::new(alloc);
    for condition in goal {
        push_places(alloc, task, condition, &mut places)?;
    }
    Ok(places)
}

/// The place of each literal of a precondition that holds in states: of all but the equalities outside every `forall`.
pub fn precondition_places(
    alloc: Global,
    task: &Task,
    precondition: &[Condition],
) -> Result<Vec<usize>, AllocError>
    ensures { IfOk result (λ v. AreAmong v.items (spec.places_of precondition.now)) }
{
    let mut places = Vec::new(alloc);
    for condition in precondition {
        push_held(alloc, task, condition, &mut places)?;
    }
    Ok(places)
}

/// Adds the name of a term in lower case, after a blank.
fn push_term(alloc: Global, text: &mut Vec<u8>, term: &Term) -> Result<(), AllocError> {
    text.push(b' ')?;
    let word = match term {
        Term::Variable(variable) => variable.text(),
        Term::Object(name) => name.text(),
    };
    text.extend_from_slice(fold(alloc, word)?.as_slice())?;
    Ok(())
}

/// Where each initial fact is written first, by the fact in lower case, as `(full box)`.
pub(crate) fn initial_places(
    alloc: Global,
    problem: &ProblemText,
) -> Result<IndexMap<Vec<u8>, usize>, AllocError> {
    let mut places = IndexMap::new(alloc);
    for atom in problem.init.as_slice() {
        let mut text = Vec::new(alloc);
        text.push(b'(')?;
        text.extend_from_slice(fold(alloc, atom.name.text())?.as_slice())?;
        for term in atom.terms.as_slice() {
            push_term(alloc, &mut text, term)?;
        }
        text.push(b')')?;
        if !places.contains_key(&text) {
            places.insert(text, atom.name.place())?;
        }
    }
    Ok(places)
}
