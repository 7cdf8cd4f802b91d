//! The instances of a valid file's lines, and the gaps of their steps.
ghost use Rattle.std.specs.Prelude.{◌≡◌, ◌+◌, IfOk, IfSome, Some, length, map, take, true};
ghost use Rattle.htn_ground.specs.Naming.{naming_of};
ghost use Rattle.htn_model.specs.Grounding.{problem_of};
ghost use Rattle.htn_model.specs.Verdict.{AllHave, Ends};
ghost use Rattle.htn_verify.specs.Named as spec;
ghost use Rattle.htn_verify.specs.Tasks.{task_at};
ghost use Rattle.line_details.specs.Found.{AreFound};
ghost use Rattle.plan_text.specs.Forest.{IsForestOf};
ghost use Rattle.plan_text.specs.Plans.{AreTasks};
ghost use Rattle.plan_lines.specs.Run.{IsHistoryOf};

use crate::faults::fault_of;
use crate::named::{named_tasks, tasks_alone};
use crate::placed_lines::PlacedLines;
use htn_ground::{GroundTask, goal_literals};
use htn_task::Task;
use line_details::{Entries, find_details};
use plan_lines::{EverTrue, Names, Outcome, Turns, run};
use plan_text::{Forest, PlanFile, forest_of};
use std::alloc::{AllocError, Global};

/// Details of the lines of a file that run to the goal, if some are found.
fn arranged_details(
    alloc: Global,
    task: &Task,
    file: &PlanFile,
    forest: &Forest,
    tasks: &[GroundTask],
    turns: &Turns<'_>,
) -> Result<Option<Entries>, AllocError>
    requires forest { IsForestOf file.now forest.now }
    requires tasks { AreTasks (naming_of task.now) file.now (task_at tasks.now) }
    requires count { length tasks.now ≡ length file.now.actions + length file.now.decompositions }
    requires ends { Ends (naming_of task.now) (problem_of task.now) file.now true }
    requires history { IsHistoryOf (problem_of task.now) (take (length file.now.actions) tasks.now) turns.now }
    ensures { IfOk result (λ r. IfSome r (λ found. AreFound task.now file.now found.root found.lines.items)) }
{
    let _initial = task.initial_atoms();
    let ever = EverTrue::of(alloc, turns)?;
    let lines = PlacedLines {
        alloc,
        task,
        file,
        forest,
        tasks,
        turns,
        ever: &ever,
    };
    let found = find_details(alloc, task, file, &lines)?;
    Ok(found)
}

/// Details of a forest of lines that have instances, with the lines' tasks; none where the lines do not run to the
/// goal.
fn run_details(
    alloc: Global,
    task: &Task,
    file: &PlanFile,
    forest: &Forest,
    tasks: &[GroundTask],
) -> Result<Option<Entries>, AllocError>
    requires forest { IsForestOf file.now forest.now }
    requires tasks { map Some tasks.now ≡ spec.named_tasks (naming_of task.now) file.now }
    requires have { AllHave (naming_of task.now) (problem_of task.now) file.now }
    ensures { IfOk result (λ r. IfSome r (λ found. AreFound task.now file.now found.root found.lines.items)) }
{
    let actions = file.actions();
    let last = actions.len();
    let turns = match run(alloc, task, &tasks[..last])? {
        Outcome::Fails(_) => return Ok(None),
        Outcome::Runs(turns) => turns,
    };
    let goal = goal_literals(alloc, task)?;
    if !turns.holds(goal.as_slice(), last) {
        return Ok(None);
    }
    let found = arranged_details(alloc, task, file, forest, tasks, &turns)?;
    Ok(found)
}

/// Of a valid file details, if some are found: the instance of each line, with the gaps of its steps. None where the
/// file is not valid.
pub fn file_details(
    alloc: Global,
    task: &Task,
    file: &PlanFile,
) -> Result<Option<Entries>, AllocError>
    ensures { IfOk result (λ r. IfSome r (λ found. AreFound task.now file.now found.root found.lines.items)) }
{
    let Some(forest) = forest_of(alloc, file)? else {
        return Ok(None);
    };
    let names = Names::new(task);
    let named = named_tasks(alloc, &names, file)?;
    if let Some(fault) = fault_of(alloc, &names, file, &forest, &named)? {
        let _fault = fault;
        return Ok(None);
    }
    let tasks = tasks_alone(alloc, named)?;
    let found = run_details(alloc, task, file, &forest, &tasks)?;
    Ok(found)
}
