//! The verdict of a plan file.
ghost use Rattle.std.specs.Prelude.{◌≡◌, Some, map, IfOk};
ghost use Rattle.htn_ground.specs.Naming.{naming_of};
ghost use Rattle.htn_model.specs.Grounding.{problem_of};
ghost use Rattle.htn_model.specs.Verdict.{AllHave, IsVerdict};
ghost use Rattle.htn_verify.specs.Named as spec;
ghost use Rattle.htn_verify.specs.Verdicts.{verdict_of};
ghost use Rattle.plan_text.specs.Forest.{IsForestOf};

use crate::arrangement::is_arranged;
use crate::faults::fault_of;
use crate::named::{named_tasks, tasks_alone};
use crate::verdict::Verdict;
use htn_ground::{GroundTask, goal_literals};
use htn_task::Task;
use plan_lines::{Names, Outcome, run};
use plan_text::{Forest, PlanFile, forest_of};
use std::alloc::{AllocError, Global};

/// The verdict on a forest of lines that have instances, with the lines' tasks.
fn run_verdict(
    alloc: Global,
    task: &Task,
    file: &PlanFile,
    forest: &Forest,
    tasks: &[GroundTask],
) -> Result<Verdict, AllocError>
    requires forest { IsForestOf file.now forest.now }
    requires tasks { map Some tasks.now ≡ spec.named_tasks (naming_of task.now) file.now }
    requires have { AllHave (naming_of task.now) (problem_of task.now) file.now }
    ensures { IfOk result (λ verdict. IsVerdict (naming_of task.now) (problem_of task.now) file.now (verdict_of verdict)) }
{
    let actions = file.actions();
    let last = actions.len();
    let turns = match run(alloc, task, &tasks[..last])? {
        Outcome::Fails(line) => return Ok(Verdict::NotExecutable(actions[line].id())),
        Outcome::Runs(turns) => turns,
    };
    let goal = goal_literals(alloc, task)?;
    if !turns.holds(goal.as_slice(), last) {
        return Ok(Verdict::GoalFails);
    }
    if !is_arranged(alloc, task, file, forest, tasks, &turns)? {
        return Ok(Verdict::NoArrangement);
    }
    Ok(Verdict::Valid)
}

/// The verdict on a plan file for a task: the first of all conditions that holds.
pub fn verify(alloc: Global, task: &Task, file: &PlanFile) -> Result<Verdict, AllocError>
    ensures { IfOk result (λ verdict. IsVerdict (naming_of task.now) (problem_of task.now) file.now (verdict_of verdict)) }
{
    let Some(forest) = forest_of(alloc, file)? else {
        return Ok(Verdict::Structure);
    };
    let names = Names::new(task);
    let named = named_tasks(alloc, &names, file)?;
    if let Some(fault) = fault_of(alloc, &names, file, &forest, &named)? {
        return Ok(fault);
    }
    let tasks = tasks_alone(alloc, named)?;
    let verdict = run_verdict(alloc, task, file, &forest, &tasks)?;
    Ok(verdict)
}
