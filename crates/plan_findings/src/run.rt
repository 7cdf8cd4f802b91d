//! What the actions of a plan change.

ghost use Rattle.std.specs.Prelude.{◌≡◌, ◌&&◌, not, map, IfOk, Some};
ghost use Rattle.std.specs.List.{filter};
ghost use Rattle.htn_model.specs.Grounding.{problem_of};
ghost use Rattle.htn_model.specs.State as model;
ghost use Rattle.plan_findings.specs.Causes.{tasks_of};
ghost use Rattle.plan_findings.specs.Runs as spec;
ghost use Rattle.plan_findings.specs.Runs.{AreChangesOf, AreFacts, AreFirstChanges, IsChangeBy, IsChangeIn, IsRunOf};
ghost use Rattle.plan_causes.specs.Facts.{words_of};
ghost use Rattle.plan_lines.specs.Run.{IsFailing, IsHistoryOf, run_tasks};
ghost use Rattle.plan_lines.specs.Turns.{IsHistory, truth};

use crate::atoms::{object_name, predicate_name};
use crate::tasks::action_tasks;
use htn_ground::{GroundTask, action_of};
use htn_task::{Action, Atom, Literal, Task};
use plan_causes::{Change, Fact, Run};
use plan_lines::{Outcome, Turns, run};
use plan_text::PlanFile;
use std::alloc::{AllocError, Global};

/// The words of an atom.
fn fact_of<'a>(alloc: Global, task: &'a Task, atom: &Atom) -> Result<Fact<'a>, AllocError>
    ensures { IfOk result (λ f. words_of f ≡ spec.fact_words task.now atom.now) }
{
    let mut words = Vec::with_capacity(alloc, atom.arguments().len().saturating_add(1))?;
    words.push(predicate_name(task, atom.predicate()))?;
    for object in atom.arguments() {
        words.push(object_name(task, *object))?;
    }
    Ok(Fact { words })
}

/// Atoms as facts, in the order of their words.
fn facts_of<'a>(alloc: Global, task: &'a Task, atoms: &[&Atom]) -> Result<Vec<Fact<'a>>, AllocError>
    ensures { IfOk result (λ v. AreFacts task.now (map (λ a. a.now) atoms.now) v.items) }
{
    let mut facts = Vec::with_capacity(alloc, atoms.len())?;
    for atom in atoms {
        let fact = fact_of(alloc, task, atom)?;
        facts.push(fact)?;
    }
    facts.sort_unstable();
    Ok(facts)
}

/// The atoms that are true at first and may change.
fn initial_fluents(alloc: Global, task: &Task) -> Result<Vec<&Atom>, AllocError>
    ensures { IfOk result (λ v. map (λ a. a.now) v.items ≡ spec.initial_fluents task.now) }
{
    let mut atoms = Vec::new(alloc);
    for atom in task.initial_atoms().atoms() {
        if task.is_fluent(atom.predicate()) {
            atoms.push(atom)?;
        }
    }
    Ok(atoms)
}

/// Whether an atom is true after some actions.
fn is_true(turns: &Turns<'_>, atom: &Atom, gap: usize) -> Result<bool, AllocError>
    requires { IsHistory turns.now }
    ensures { IfOk result (λ b. b ≡ truth turns.now atom.now gap) }
{
    let literal = Literal::Positive(atom.clone()?);
    Ok(turns.holds(&[literal], gap))
}

/// The atoms that an action makes true and that were false before.
fn added_atoms<'b>(
    alloc: Global,
    turns: &Turns<'_>,
    action: &'b Action,
    gap: usize,
) -> Result<Vec<&'b Atom>, AllocError>
    requires { IsHistory turns.now }
    ensures { IfOk result (λ v. map (λ a. a.now) v.items ≡ filter (λ a. not (truth turns.now a gap)) (model.atoms_of action.now.adds)) }
{
    let mut atoms = Vec::new(alloc);
    for atom in action.adds.atoms() {
        let was = is_true(turns, atom, gap)?;
        if !was {
            atoms.push(atom)?;
        }
    }
    Ok(atoms)
}

/// Whether an atom that an action deletes becomes false.
fn is_lost(turns: &Turns<'_>, action: &Action, atom: &Atom, gap: usize) -> Result<bool, AllocError>
    requires { IsHistory turns.now }
    ensures { IfOk result (λ b. b ≡ (not (model.contains action.now.adds atom.now) && truth turns.now atom.now gap)) }
{
    if action.adds.contains(atom) {
        return Ok(false);
    }
    let was = is_true(turns, atom, gap)?;
    Ok(was)
}

/// The atoms that an action makes false and that were true before.
fn deleted_atoms<'b>(
    alloc: Global,
    turns: &Turns<'_>,
    action: &'b Action,
    gap: usize,
) -> Result<Vec<&'b Atom>, AllocError>
    requires { IsHistory turns.now }
    ensures { IfOk result (λ v. map (λ a. a.now) v.items
        ≡ filter (λ a. not (model.contains action.now.adds a) && truth turns.now a gap) (model.atoms_of action.now.deletes)) }
{
    let mut atoms = Vec::new(alloc);
    for atom in action.deletes.atoms() {
        let lost = is_lost(turns, action, atom, gap)?;
        if lost {
            atoms.push(atom)?;
        }
    }
    Ok(atoms)
}

/// What an action changes in the state of a gap.
fn change_in<'a>(
    alloc: Global,
    task: &'a Task,
    turns: &Turns<'_>,
    action: &Action,
    gap: usize,
) -> Result<Change<'a>, AllocError>
    requires { IsHistory turns.now }
    ensures { IfOk result (IsChangeIn task.now turns.now gap action.now) }
{
    let new = added_atoms(alloc, turns, action, gap)?;
    let old = deleted_atoms(alloc, turns, action, gap)?;
    let added = facts_of(alloc, task, new.as_slice())?;
    let deleted = facts_of(alloc, task, old.as_slice())?;
    Ok(Change { added, deleted })
}

/// What a task changes in the state of a gap, if it can be carried out there.
fn change_by<'a>(
    alloc: Global,
    task: &'a Task,
    turns: &Turns<'_>,
    goal: &GroundTask,
    gap: usize,
) -> Result<Change<'a>, AllocError>
    requires { IsHistory turns.now }
    ensures { IfOk result (IsChangeBy task.now turns.now gap goal.now) }
{
    let found = action_of(alloc, task, goal)?;
    let Some(action) = found else {
        return Ok(Change {
            added: Vec::new(alloc),
            deleted: Vec::new(alloc),
        });
    };
    let change = change_in(alloc, task, turns, &action, gap)?;
    Ok(change)
}

/// What each of some tasks changes, of which all can be carried out.
fn changes_of<'a>(
    alloc: Global,
    task: &'a Task,
    tasks: &[GroundTask],
    turns: &Turns<'_>,
) -> Result<Vec<Change<'a>>, AllocError>
    requires { IsHistoryOf (problem_of task.now) tasks.now turns.now }
    ensures { IfOk result (λ v. AreChangesOf task.now tasks.now v.items) }
{
    let mut changes = Vec::new(alloc);
    for (gap, goal) in tasks.iter().enumerate() {
        let change = change_by(alloc, task, turns, goal, gap)?;
        changes.push(change)?;
    }
    Ok(changes)
}

/// The same without their history.
fn first_changes<'a>(
    alloc: Global,
    task: &'a Task,
    tasks: &[GroundTask],
) -> Result<Vec<Change<'a>>, AllocError>
    requires { (state : model.State) × (run_tasks (problem_of task.now) task.now.initial_atoms tasks.now ≡ Some state) }
    ensures { IfOk result (λ v. AreChangesOf task.now tasks.now v.items) }
{
    let outcome = run(alloc, task, tasks)?;
    match outcome {
        Outcome::Runs(turns) => changes_of(alloc, task, tasks, &turns),
        Outcome::Fails(_) => Ok(Vec::new(alloc)),
    }
}

/// What each task changes that comes before one that can't be carried out.
fn changes_before<'a>(
    alloc: Global,
    task: &'a Task,
    tasks: &[GroundTask],
    number: usize,
) -> Result<Vec<Change<'a>>, AllocError>
    requires { IsFailing (problem_of task.now) tasks.now number }
    ensures { IfOk result (λ v. AreFirstChanges task.now tasks.now v.items) }
{
    let done = &tasks[..number];
    let changes = first_changes(alloc, task, done)?;
    Ok(changes)
}

/// What each of some tasks changes, up to the first that can't be carried out.
fn run_changes<'a>(
    alloc: Global,
    task: &'a Task,
    tasks: &[GroundTask],
) -> Result<Vec<Change<'a>>, AllocError>
    ensures { IfOk result (λ v. AreFirstChanges task.now tasks.now v.items) }
{
    let outcome = run(alloc, task, tasks)?;
    match outcome {
        Outcome::Runs(turns) => {
            let changes = changes_of(alloc, task, tasks, &turns)?;
            Ok(changes)
        }
        Outcome::Fails(number) => changes_before(alloc, task, tasks, number),
    }
}

/// The run of a plan's action lines, as far as they can be carried out. An error where memory was refused.
pub fn run_of<'a>(alloc: Global, task: &'a Task, file: &PlanFile) -> Result<Run<'a>, AllocError>
    ensures { IfOk result (IsRunOf task.now (tasks_of task.now file.now)) }
{
    let tasks = action_tasks(alloc, task, file)?;
    let fluents = initial_fluents(alloc, task)?;
    let start = facts_of(alloc, task, fluents.as_slice())?;
    let changes = run_changes(alloc, task, tasks.as_slice())?;
    Ok(Run { start, changes })
}
