//! The first line of a file that has no instance.
ghost use Rattle.std.specs.Prelude.{◌≡◌, ◌↔◌, List, option_map, map, IfOk, IsTrue, MatchOption};
ghost use Rattle.htn_ground.specs.Naming.{naming_of};
ghost use Rattle.htn_model.specs.Grounding.{problem_of};
ghost use Rattle.htn_model.specs.Problem as model;
ghost use Rattle.htn_model.specs.Verdict.{AllHave, IsVerdict, action_lines, decomposition_lines};
ghost use Rattle.htn_verify.specs.Faults.{IsFaultIn, NamesAction, NamesInitial, NamesInstance};
ghost use Rattle.htn_verify.specs.Named.{named_at, named_tasks};
ghost use Rattle.htn_verify.specs.Tasks.{HaveTasks};
ghost use Rattle.htn_verify.specs.Verdicts.{verdict_of};
ghost use Rattle.plan_text.specs.Forest.{IsForestOf};

use crate::verdict::Verdict;
use htn_ground::{GroundTask, action_of};
use plan_lines::{Names, has_initial, has_instance};
use plan_text::{Forest, PlanFile, Word};
use std::alloc::{AllocError, Global};

/// The task that the words of a line name, if they name one.
fn task_at(named: &[Option<GroundTask>], line: usize) -> Option<&GroundTask>
    ensures { option_map (λ r. r.now) result ≡ named_at named.now line }
{
    match named.get(line) {
        Some(Some(task)) => Some(task),
        _ => None,
    }
}

/// The tasks of several lines, if the words of each name one.
fn tasks_at<'t>(
    alloc: Global,
    named: &'t [Option<GroundTask>],
    lines: &[usize],
) -> Result<Option<Vec<&'t GroundTask>>, AllocError>
    ensures { IfOk result (λ r. MatchOption r
        ((tasks : List model.GroundTask) → HaveTasks (named_at named.now) lines.now tasks → ⊥)
        (λ v. HaveTasks (named_at named.now) lines.now (map (λ t. t.now) v.items))) }
{
    let mut tasks = Vec::with_capacity(alloc, lines.len())?;
    for line in lines {
        match task_at(named, *line) {
            Some(task) => tasks.push(task)?,
            None => return Ok(None),
        }
    }
    Ok(Some(tasks))
}

/// Whether an action line names an action at objects that are an instance of it.
fn names_action(
    alloc: Global,
    names: &Names<'_>,
    named: &[Option<GroundTask>],
    line: usize,
) -> Result<bool, AllocError>
    ensures { IfOk result (λ b. IsTrue b ↔ NamesAction (problem_of names.now) (named_at named.now) line) }
{
    let Some(task) = task_at(named, line) else {
        return Ok(false);
    };
    let action = action_of(alloc, names.task(), task)?;
    Ok(action.is_some())
}

/// Whether a decomposition line and its children name what an instance of the method has.
fn names_instance(
    alloc: Global,
    names: &Names<'_>,
    named: &[Option<GroundTask>],
    line: usize,
    method: &Word,
    children: &[usize],
) -> Result<bool, AllocError>
    ensures { IfOk result (λ b. IsTrue b ↔ NamesInstance (naming_of names.now) (problem_of names.now) (named_at named.now) line method.now children.now) }
{
    let Some(task) = task_at(named, line) else {
        return Ok(false);
    };
    let Some(tasks) = tasks_at(alloc, named, children)? else {
        return Ok(false);
    };
    let found = has_instance(alloc, names, task, method, tasks.as_slice())?;
    Ok(found)
}

/// Whether the roots' lines name what an instance of the initial network has.
fn names_initial(
    alloc: Global,
    names: &Names<'_>,
    named: &[Option<GroundTask>],
    roots: &[usize],
) -> Result<bool, AllocError>
    ensures { IfOk result (λ b. IsTrue b ↔ NamesInitial (problem_of names.now) (named_at named.now) roots.now) }
{
    let Some(tasks) = tasks_at(alloc, named, roots)? else {
        return Ok(false);
    };
    let found = has_initial(alloc, names, tasks.as_slice())?;
    Ok(found)
}

/// The first action line that has no instance.
fn faulty_action(
    alloc: Global,
    names: &Names<'_>,
    file: &PlanFile,
    named: &[Option<GroundTask>],
) -> Result<Option<u64>, AllocError>
    requires { named.now ≡ named_tasks (naming_of names.now) file.now }
    ensures { IfOk result (IsFaultIn (naming_of names.now) (problem_of names.now) file.now (action_lines file.now.actions)) }
{
    let lines = file.actions();
    for (number, line) in lines.iter().enumerate() {
        if !names_action(alloc, names, named, number)? {
            return Ok(Some(line.id()));
        }
    }
    Ok(None)
}

/// The first decomposition line that has no instance.
fn faulty_decomposition(
    alloc: Global,
    names: &Names<'_>,
    file: &PlanFile,
    forest: &Forest,
    named: &[Option<GroundTask>],
) -> Result<Option<u64>, AllocError>
    requires forest { IsForestOf file.now forest.now }
    requires named { named.now ≡ named_tasks (naming_of names.now) file.now }
    ensures { IfOk result (IsFaultIn (naming_of names.now) (problem_of names.now) file.now (decomposition_lines file.now.decompositions)) }
{
    let actions = file.actions().len();
    let lines = file.decompositions();
    for (place, line) in lines.iter().enumerate() {
        let children = forest.children(place);
        if !names_instance(
            alloc,
            names,
            named,
            actions + place,
            line.method(),
            children,
        )? {
            return Ok(Some(line.id()));
        }
    }
    Ok(None)
}

/// The verdict on a forest of lines one of which has no instance; none where all have.
pub(crate) fn fault_of(
    alloc: Global,
    names: &Names<'_>,
    file: &PlanFile,
    forest: &Forest,
    named: &[Option<GroundTask>],
) -> Result<Option<Verdict>, AllocError>
    requires forest { IsForestOf file.now forest.now }
    requires named { named.now ≡ named_tasks (naming_of names.now) file.now }
    ensures { IfOk result (λ r. MatchOption r
        (AllHave (naming_of names.now) (problem_of names.now) file.now)
        (λ v. IsVerdict (naming_of names.now) (problem_of names.now) file.now (verdict_of v))) }
{
    if let Some(id) = faulty_action(alloc, names, file, named)? {
        return Ok(Some(Verdict::NoInstance(Some(id))));
    }
    if let Some(id) = faulty_decomposition(alloc, names, file, forest, named)? {
        return Ok(Some(Verdict::NoInstance(Some(id))));
    }
    if !names_initial(alloc, names, named, forest.roots())? {
        return Ok(Some(Verdict::NoInstance(None)));
    }
    Ok(None)
}
