//! The parameters that occur in a schema's network.
ghost use Rattle.std.specs.Prelude.{◌≡◌, IfOk, get_or, not, true};
ghost use Rattle.std.specs.List.{list_any};
ghost use Rattle.htn_model.specs.Instances.{state_formulas};
ghost use Rattle.htn_model.specs.Schema as model;
ghost use Rattle.htn_task.specs.Formulas.{formula_of};
ghost use Rattle.htn_task.specs.Views.{term_of, terms_of};
ghost use Rattle.htn_ground.specs.Shown.{AreHiddenFrom, AreShown, is_parameter, stands_in, stands_in_task};

use crate::literals::is_equation;
use htn_task::{Formula, FormulaList, NetworkSchema, TaskSchema, Term};
use std::alloc::{AllocError, Global};

/// Whether a term is the parameter of this number.
fn is_parameter(term: Term, place: usize) -> bool
    ensures { result ≡ is_parameter place (term_of term) }
{
    match term {
        Term::Parameter(number) => number as usize == place,
        Term::Object(_) => false,
    }
}

fn stands_in_terms(terms: &[Term], place: usize) -> bool
    ensures { result ≡ list_any (is_parameter place) (terms_of terms.now) }
{
    for term in terms {
        if is_parameter(*term, place) {
            return true;
        }
    }
    false
}

/// Whether a parameter occurs in a formula.
fn stands_in(formula: &Formula, place: usize) -> bool
    ensures { result ≡ stands_in place (formula_of formula.now) }
{
    match formula {
        Formula::Literal(_, atom) => stands_in_terms(atom.arguments(), place),
        Formula::Equation(equality) => {
            is_parameter(equality.left(), place) || is_parameter(equality.right(), place)
        }
        Formula::ForAll(_, body) => {
            for part in body {
                if stands_in(part, place) {
                    return true;
                }
            }
            false
        }
    }
}

/// Whether a parameter occurs in the literals of a precondition step.
fn stands_in_step(precondition: &FormulaList, place: usize) -> bool
    ensures { result ≡ list_any (stands_in place) (state_formulas precondition.now) }
{
    for formula in precondition.as_slice() {
        if !is_equation(formula) && stands_in(formula, place) {
            return true;
        }
    }
    false
}

fn stands_in_subtasks(subtasks: &[TaskSchema], place: usize) -> bool
    ensures { result ≡ list_any (stands_in_task place) subtasks.now }
{
    for subtask in subtasks {
        if stands_in_terms(subtask.arguments(), place) {
            return true;
        }
    }
    false
}

/// For each of the first `count` parameters whether it occurs in the precondition step or in a subtask.
pub fn shown_parameters(
    alloc: Global,
    precondition: &FormulaList,
    network: &NetworkSchema,
    count: usize,
) -> Result<Vec<bool>, AllocError>
    ensures { IfOk result (λ shown. AreShown precondition.now network.now.subtasks count shown.items) }
{
    let mut shown = Vec::new(alloc);
    for place in 0..count {
        shown.push(
            stands_in_step(precondition, place) || stands_in_subtasks(network.subtasks(), place),
        )?;
    }
    Ok(shown)
}

/// Whether a parameter is one of those that are not shown.
pub fn is_hidden(shown: &[bool], place: usize) -> bool
    ensures { result ≡ not (get_or shown.now place true) }
{
    match shown.get(place) {
        Some(is_shown) => !*is_shown,
        None => false,
    }
}

/// A place from which on no parameter is shown.
pub(crate) fn hidden_from(shown: &[bool]) -> usize
    ensures { AreHiddenFrom shown.now result }
{
    let mut place = shown.len();
    while place > 0 && !shown[place - 1] {
        place -= 1;
    }
    place
}
