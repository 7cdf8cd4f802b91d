//! Why the lines of a plan file can't be arranged.
ghost use Rattle.std.specs.Prelude.{◌≡◌, ◌+◌, ⊤, IfOk, MatchOption, Some, length, map, take, true};
ghost use Rattle.htn_ground.specs.Naming.{naming_of};
ghost use Rattle.htn_model.specs.Grounding.{problem_of};
ghost use Rattle.htn_model.specs.Verdict.{AllHave, Ends};
ghost use Rattle.htn_verify.specs.Named as spec;
ghost use Rattle.htn_verify.specs.Placed.{placed_lines};
ghost use Rattle.htn_verify.specs.Rooms.{IsCauseOf};
ghost use Rattle.htn_verify.specs.Tasks.{task_at};
ghost use Rattle.plan_text.specs.Forest.{IsForestOf};
ghost use Rattle.plan_text.specs.Plans.{AreTasks};
ghost use Rattle.plan_lines.specs.Run.{IsHistoryOf};
ghost use Rattle.room_causes.specs.Conflicts.{IsRoomCause};

use crate::faults::fault_of;
use crate::named::{named_tasks, tasks_alone};
use crate::placed_lines::PlacedLines;
use htn_ground::{GroundTask, goal_literals};
use htn_task::Task;
use plan_lines::{EverTrue, Names, Outcome, Turns, run};
use plan_text::{Forest, PlanFile, forest_of};
use room_causes::{RoomCause, room_cause_of};
use std::alloc::{AllocError, Global};

/// Why the lines of a file that run to the goal have no room; none where they have.
fn arranged_cause(
    alloc: Global,
    task: &Task,
    file: &PlanFile,
    forest: &Forest,
    tasks: &[GroundTask],
    turns: &Turns<'_>,
) -> Result<Option<RoomCause>, AllocError>
    requires forest { IsForestOf file.now forest.now }
    requires tasks { AreTasks (naming_of task.now) file.now (task_at tasks.now) }
    requires count { length tasks.now ≡ length file.now.actions + length file.now.decompositions }
    requires ends { Ends (naming_of task.now) (problem_of task.now) file.now true }
    requires history { IsHistoryOf (problem_of task.now) (take (length file.now.actions) tasks.now) turns.now }
    ensures { IfOk result (λ r. MatchOption r ⊤ (IsRoomCause (placed_lines task.now file.now forest.now tasks.now))) }
{
    let _initial = task.initial_atoms();
    let ever = EverTrue::of(alloc, turns)?;
    let lines = PlacedLines {
        alloc,
        task,
        file,
        forest,
        tasks,
        turns,
        ever: &ever,
    };
    let cause = room_cause_of(alloc, &lines)?;
    Ok(cause)
}

/// The cause of a missing arrangement for a forest of lines that have instances, with the lines' tasks; None where the
/// lines do not run to the goal.
fn run_cause(
    alloc: Global,
    task: &Task,
    file: &PlanFile,
    forest: &Forest,
    tasks: &[GroundTask],
) -> Result<Option<RoomCause>, AllocError>
    requires forest { IsForestOf file.now forest.now }
    requires tasks { map Some tasks.now ≡ spec.named_tasks (naming_of task.now) file.now }
    requires have { AllHave (naming_of task.now) (problem_of task.now) file.now }
    ensures { IfOk result (λ r. MatchOption r ⊤ (IsCauseOf task.now file.now)) }
{
    let actions = file.actions();
    let last = actions.len();
    let turns = match run(alloc, task, &tasks[..last])? {
        Outcome::Fails(_) => return Ok(None),
        Outcome::Runs(turns) => turns,
    };
    let goal = goal_literals(alloc, task)?;
    if !turns.holds(goal.as_slice(), last) {
        return Ok(None);
    }
    let cause = arranged_cause(alloc, task, file, forest, tasks, &turns)?;
    Ok(cause)
}

/// Why the lines of a file can't be arranged, if they are a forest, each has an instance, and they run to the goal.
pub fn room_cause(
    alloc: Global,
    task: &Task,
    file: &PlanFile,
) -> Result<Option<RoomCause>, AllocError>
    ensures { IfOk result (λ r. MatchOption r ⊤ (IsCauseOf task.now file.now)) }
{
    let Some(forest) = forest_of(alloc, file)? else {
        return Ok(None);
    };
    let names = Names::new(task);
    let named = named_tasks(alloc, &names, file)?;
    if let Some(fault) = fault_of(alloc, &names, file, &forest, &named)? {
        let _fault = fault;
        return Ok(None);
    }
    let tasks = tasks_alone(alloc, named)?;
    let cause = run_cause(alloc, task, file, &forest, &tasks)?;
    Ok(cause)
}
