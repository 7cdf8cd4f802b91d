//! Whether the lines of a plan file can be arranged as a solution wants them.
ghost use Rattle.std.specs.Prelude.{◌≡◌, ◌+◌, ◌↔◌, IfOk, IsTrue, length, take, true};
ghost use Rattle.htn_ground.specs.Naming.{naming_of};
ghost use Rattle.htn_model.specs.Grounding.{problem_of};
ghost use Rattle.htn_model.specs.Shadow.{IsAccepted};
ghost use Rattle.htn_model.specs.Verdict.{AllHave, Ends};
ghost use Rattle.htn_verify.specs.Tasks.{task_at};
ghost use Rattle.plan_text.specs.Forest.{IsForestOf};
ghost use Rattle.plan_text.specs.Plans.{AreTasks};
ghost use Rattle.plan_lines.specs.Run.{IsHistoryOf};

use crate::placed_lines::PlacedLines;
use htn_ground::GroundTask;
use htn_task::Task;
use plan_lines::{EverTrue, Turns};
use plan_room::forest_fits;
use plan_text::{Forest, PlanFile};
use std::alloc::{AllocError, Global};

/// Whether the lines of a file that run to the goal can be arranged so that the file is that of a solution.
pub(crate) fn is_arranged(
    alloc: Global,
    task: &Task,
    file: &PlanFile,
    forest: &Forest,
    tasks: &[GroundTask],
    turns: &Turns<'_>,
) -> Result<bool, AllocError>
    requires forest { IsForestOf file.now forest.now }
    requires tasks { AreTasks (naming_of task.now) file.now (task_at tasks.now) }
    requires count { length tasks.now ≡ length file.now.actions + length file.now.decompositions }
    requires have { AllHave (naming_of task.now) (problem_of task.now) file.now }
    requires ends { Ends (naming_of task.now) (problem_of task.now) file.now true }
    requires history { IsHistoryOf (problem_of task.now) (take (length file.now.actions) tasks.now) turns.now }
    ensures { IfOk result (λ b. IsTrue b ↔ IsAccepted (naming_of task.now) (problem_of task.now) file.now) }
{
    let _initial = task.initial_atoms();
    let ever = EverTrue::of(alloc, turns)?;
    let lines = PlacedLines {
        alloc,
        task,
        file,
        forest,
        tasks,
        turns,
        ever: &ever,
    };
    let fits = forest_fits(alloc, &lines)?;
    Ok(fits)
}
