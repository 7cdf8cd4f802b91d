//! The tasks that the action lines of a plan name.

ghost use Rattle.std.specs.Prelude.{◌≡◌, ◌++◌, map, IfOk, OnOk};
ghost use Rattle.std.specs.List.{flat_map};
ghost use Rattle.std.specs.Option.{option_to_list};
ghost use Rattle.htn_ground.specs.Naming.{naming_of};
ghost use Rattle.plan_findings.specs.Causes.{action_task, tasks_of};

use htn_ground::GroundTask;
use htn_task::Task;
use plan_lines::{Names, task_named};
use plan_text::{ActionLine, PlanFile};
use std::alloc::{AllocError, Global};

/// Adds what the words of action lines name.
fn add_named(
    alloc: Global,
    names: &Names<'_>,
    lines: &[ActionLine],
    named: &mut Vec<Option<GroundTask>>,
) -> Result<(), AllocError>
    ensures { OnOk result (named.new.items ≡ named.old.items ++ map (action_task (naming_of names.now)) lines.now) }
{
    for line in lines {
        let task = task_named(alloc, names, line.name(), line.arguments())?;
        named.push(task)?;
    }
    Ok(())
}

/// The tasks alone, of the lines whose words name one.
fn tasks_alone(alloc: Global, named: Vec<Option<GroundTask>>) -> Result<Vec<GroundTask>, AllocError>
    ensures { IfOk result (λ v. v.items ≡ flat_map option_to_list named.items) }
{
    named.into_iter().flatten().collect(alloc)
}

/// The tasks that the action lines of a plan file name, in their order; a line whose words name none has none.
pub fn action_tasks(
    alloc: Global,
    task: &Task,
    file: &PlanFile,
) -> Result<Vec<GroundTask>, AllocError>
    ensures { IfOk result (λ v. v.items ≡ tasks_of task.now file.now) }
{
    let names = Names::new(task);
    let mut named = Vec::new(alloc);
    add_named(alloc, &names, file.actions(), &mut named)?;
    let tasks = tasks_alone(alloc, named)?;
    Ok(tasks)
}
