//! How many nodes the solution of a valid plan file has.

ghost use Rattle.std.specs.Prelude.{◌≡◌, count_by, length};
ghost use Rattle.htn_model.specs.Instances as model;
ghost use Rattle.htn_task.specs.Formulas.{formula_of};
ghost use Rattle.plan_findings.specs.Steps as spec;

use htn_task::{Formula, FormulaList, Task};
use plan_causes::Counts;
use plan_text::{DecompositionLine, PlanFile};

/// Whether a formula is an equality outside every `forall`.
fn is_equation(formula: &Formula) -> bool
    ensures { result ≡ model.is_equation (formula_of formula.now) }
{
    match formula {
        Formula::Equation(_) => true,
        Formula::Literal(_, _) | Formula::ForAll(_, _) => false,
    }
}

/// Whether a precondition takes a step: it has more than equalities.
pub fn has_step(precondition: &FormulaList) -> bool
    ensures { result ≡ model.has_step precondition.now }
{
    for formula in precondition.as_slice() {
        if !is_equation(formula) {
            return true;
        }
    }
    false
}

/// Whether the method of a line has a precondition that takes a step.
fn takes_step(task: &Task, line: &DecompositionLine) -> bool
    ensures { result ≡ spec.takes_step task.now line.now }
{
    let Some(number) = task.method_number(line.method().as_bytes()) else {
        return false;
    };
    match task.methods().get(number) {
        Some(method) => has_step(method.precondition()),
        None => false,
    }
}

/// How many nodes of each kind the solution of a valid plan file has: its action lines, its decomposition lines, and
/// those of them whose method has a precondition of more than equalities.
pub fn counts_of(task: &Task, file: &PlanFile) -> Counts
    ensures actions { result.actions ≡ length file.now.actions }
    ensures tasks { result.tasks ≡ length file.now.decompositions }
    ensures steps { result.steps ≡ count_by (spec.takes_step task.now) file.now.decompositions }
{
    Counts {
        actions: file.actions().len(),
        tasks: file.decompositions().len(),
        steps: file
            .decompositions()
            .iter()
            .filter(|line| takes_step(task, line))
            .count(),
    }
}
