//! The plan file of a solution.
ghost use Rattle.std.specs.Prelude.{◌≡◌, ◌+◌, IfOk};
ghost use Rattle.std.specs.List.{AllByRecursion};
ghost use Rattle.htn_ground.specs.Trees.{solution_of};
ghost use Rattle.htn_model.specs.Numbered.{numbered};
ghost use Rattle.plan_text.specs.PlanFile.{IsActionLine, IsDecompositionLine};
ghost use Rattle.htn_model.specs.Grounding.{problem_of};
ghost use Rattle.htn_model.specs.Shadow.{IsShadow};
ghost use Rattle.htn_model.specs.Tree.{AreTrees, IsSolution};
ghost use Rattle.htn_ground.specs.Naming.{naming_of};

use crate::actions::number_actions;
use crate::compounds::{count_compounds, number_compounds};
use crate::preorder::preorder;
use htn_ground::Solution;
use htn_task::Task;
use plan_text::{ActionLine, DecompositionLine, PlanFile};
use std::alloc::{AllocError, Global};

/// How many ids there are. So many lines that their number doesn't fit could not be held either.
fn total(actions: usize, compounds: usize) -> Result<u64, AllocError>
    ensures { IfOk result (λ n. n ≡ actions + compounds) }
{
    match actions.checked_add(compounds) {
        Some(total) => Ok(total as u64),
        None => Err(AllocError),
    }
}

fn plan_file(
    actions: Vec<ActionLine>,
    roots: Vec<u64>,
    decompositions: Vec<DecompositionLine>,
) -> PlanFile
    requires actions { AllByRecursion IsActionLine actions.items }
    requires decompositions { AllByRecursion IsDecompositionLine decompositions.items }
    ensures { result ≡ record { actions = actions.items; roots = roots.items; decompositions = decompositions.items } }
{
    PlanFile::new(actions, roots, decompositions)
}

/// The plan file of a solution: its actions, numbered 0, 1, .. in order of execution, and then its compound nodes in
/// preorder. Roots and children are in declared order. Precondition steps are left out. Nodes are named by their
/// instances, which have to be instances of the task. The file of a solution of the task is a shadow of it. An error
/// comes only where memory was refused.
pub fn file_of(alloc: Global, task: &Task, solution: &Solution) -> Result<PlanFile, AllocError>
    ensures value { IfOk result (λ file. AreTrees (problem_of task.now) (solution_of task.now solution.now).trees
        → file ≡ numbered (naming_of task.now) (solution_of task.now solution.now)) }
    ensures shadow { IfOk result (λ file. IsSolution (problem_of task.now) (solution_of task.now solution.now)
        → IsShadow (naming_of task.now) file (solution_of task.now solution.now)) }
{
    // A call on the task, so that the proof knows it to be well typed.
    let _typed = task.objects();
    let (actions, ids) = number_actions(alloc, task, solution)?;
    let items = preorder(alloc, &solution.trees, &ids)?;
    let end = total(actions.len(), count_compounds(&items))?;
    let (roots, decompositions) = number_compounds(alloc, task, items, end)?;
    Ok(plan_file(actions, roots, decompositions))
}
