//! Dead instances, whose precondition step has a literal that no action can make true, and the static literals of
//! preconditions.
ghost use Rattle.std.specs.Prelude.{◌≡◌, IfOk};
ghost use Rattle.std.specs.List.{All};
ghost use Rattle.htn_model.specs.Exhaustion as model;
ghost use Rattle.htn_model.specs.Grounding.{problem_of};
ghost use Rattle.htn_ground.specs.Fixed.{IsFixed, schema_of};
ghost use Rattle.htn_ground.specs.Views.{child_view};

use crate::child::Child;
use crate::fixed::FixedLiteral;
use crate::instance::Instance;
use htn_task::{AtomSchema, Formula, FormulaList, Task};
use std::alloc::{AllocError, Global};

/// Whether a node is a precondition step with a dead literal.
fn is_dead_child(task: &Task, child: &Child) -> bool
    ensures { result ≡ model.is_dead_child (problem_of task.now) (child_view child.now) }
{
    match child {
        Child::Precondition(literals) => task.has_dead_literal(literals.as_slice()),
        Child::Action(_) | Child::Task(_) => false,
    }
}

/// Whether an instance can never be carried out, as its precondition step has a dead literal.
pub(crate) fn is_dead(task: &Task, instance: &Instance) -> bool
    ensures { result ≡ model.is_dead (problem_of task.now) instance.now.network }
{
    for child in instance.children().as_slice() {
        if is_dead_child(task, child) {
            return true;
        }
    }
    false
}

/// A literal over the terms of a schema.
fn fixed_literal(
    alloc: Global,
    is_positive: bool,
    atom: &AtomSchema,
) -> Result<FixedLiteral, AllocError>
    ensures sign { IfOk result (λ l. l.is_positive ≡ is_positive) }
    ensures atom { IfOk result (λ l. schema_of l ≡ atom.now) }
{
    Ok(FixedLiteral {
        is_positive,
        predicate: atom.predicate(),
        arguments: Vec::from_slice(alloc, atom.arguments())?,
    })
}

/// The static literals of a precondition.
pub(crate) fn fixed_literals(
    alloc: Global,
    task: &Task,
    precondition: &FormulaList,
) -> Result<Vec<FixedLiteral>, AllocError>
    ensures { IfOk result (λ v. All (IsFixed task.now precondition.now) v.items) }
{
    let mut literals = Vec::new(alloc);
    for formula in precondition.as_slice() {
        if let Formula::Literal(is_positive, atom) = formula {
            if !task.is_fluent(atom.predicate()) {
                literals.push(fixed_literal(alloc, *is_positive, atom)?)?;
            }
        }
    }
    Ok(literals)
}
