//! Whether a task has no plan of any size.
ghost use Rattle.std.specs.Prelude.{◌≡◌, false, IfOk, IsSome, IsTrue};
ghost use Rattle.std.specs.List.{All, list_all};
ghost use Rattle.htn_ground.specs.Distinct.{distinct};
ghost use Rattle.htn_model.specs.Exhaustion.{IsUnsolvable};
ghost use Rattle.htn_model.specs.Grounding.{problem_of};
ghost use Rattle.htn_task.specs.Literals.{literals_of};
ghost use Rattle.heuristics.specs.Facts.{are_possible};
ghost use Rattle.never_applied.specs.Fine.{AreFine, facts_of, is_fine};

use crate::answer::NoPlan;
use crate::facts::Facts;
use crate::fine::Fine;
use htn_ground::{Instance, distinct_initials, goal_literals};
use htn_task::{Literal, Task, Term};
use std::alloc::{AllocError, Global};

/// The first of some literals that is never so.
fn impossible_in(facts: &Facts, literals: &[Literal]) -> Result<Option<Literal>, AllocError>
    ensures { IfOk result (λ o. IsSome o → are_possible (facts_of facts.now) (literals_of literals.now) ≡ false) }
{
    for literal in literals {
        if !facts.is_possible(literal) {
            return Ok(Some(literal.clone()?));
        }
    }
    Ok(None)
}

/// Whether each of some networks has a node that no plan has.
fn are_all_lost(fine: &Fine, initials: &[Instance]) -> bool
    ensures { IsTrue result → All (λ i. list_all (is_fine fine.now) i.network.children ≡ false) initials.now }
{
    for initial in initials {
        let is_used = fine.are_fine(initial.children().as_slice());
        if is_used {
            return false;
        }
    }
    true
}

/// Whether all terms are objects.
fn are_objects(terms: &[Term]) -> bool {
    for term in terms {
        if let Term::Parameter(_) = term {
            return false;
        }
    }
    true
}

/// The place of the first subtask of the initial network that names no parameter and that no plan has.
fn lost_subtask(task: &Task, fine: &Fine, initials: &[Instance]) -> Option<usize> {
    let Some(initial) = initials.first() else {
        return None;
    };
    let subtasks = task.initial_network().network().subtasks();
    let nodes = initial.children().as_slice();
    for (place, subtask) in subtasks.iter().enumerate() {
        let node = nodes.get(place)?;
        if are_objects(subtask.arguments()) && !fine.is_fine(node) {
            return Some(place);
        }
    }
    None
}

/// Why no initial network is carried out.
fn initial_reason(task: &Task, fine: &Fine, initials: &[Instance]) -> NoPlan {
    match lost_subtask(task, fine, initials) {
        Some(place) => NoPlan::Subtask(place),
        None => NoPlan::Initial,
    }
}

/// Why a task has no plan; none where it may have one.
pub(crate) fn no_plan(alloc: Global, task: &Task, fine: &Fine) -> Result<Option<NoPlan>, AllocError>
    ensures { IfOk result (λ o. IsSome o → AreFine task.now fine.now → IsUnsolvable (problem_of task.now)) }
{
    let goal = goal_literals(alloc, task)?;
    let lost = impossible_in(&fine.facts, goal.as_slice())?;
    if let Some(literal) = lost {
        return Ok(Some(NoPlan::Goal(literal)));
    }
    let initials = distinct_initials(alloc, task)?;
    let is_lost = are_all_lost(fine, &initials);
    if !is_lost {
        return Ok(None);
    }
    Ok(Some(initial_reason(task, fine, &initials)))
}
