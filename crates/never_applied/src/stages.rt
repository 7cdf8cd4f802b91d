//! What a plan may use, less and less by turns.
ghost use Rattle.std.specs.Prelude.{IfOk, IfSome};
ghost use Rattle.task_graph.specs.Graph.{IsGraph};
ghost use Rattle.never_applied.specs.Fine.{AreFine};
ghost use Rattle.never_applied.specs.Used.{AreUsed};
ghost use Rattle.never_applied.specs.Never.{AreFindings};
ghost use Rattle.never_applied.specs.Stages.{IsStage};

use crate::answer::Findings;
use crate::find::find_fine;
use crate::fine::Fine;
use crate::no_plan::no_plan;
use crate::unused::Search;
use crate::usable::Usable;
use htn_task::Task;
use std::alloc::{AllocError, Global};
use task_graph::{TaskGraph, enumerate};

/// The most times that what a plan may use is made less.
const MOST_STAGES: usize = 30;

/// The most that is listed of the decomposition graph: its compound tasks, their networks, and the nodes of these.
const MOST_LISTED: u64 = 4_000_000;

/// The nodes that a plan may have, and what arises by them.
#[derive(Drop)]
struct Stage {
    fine: Fine,
    usable: Usable,
}

/// A stage that comes after another.
#[derive(Drop)]
struct Step {
    stage: Stage,
    /// As much may be used in it as in the one before it, so that nothing more falls away.
    is_last: bool,
}

/// All that arises from the initial networks; none where too much would have to be listed.
fn all_usable(alloc: Global, task: &Task, graph: &TaskGraph) -> Result<Option<Usable>, AllocError>
    requires { IsGraph task.now graph.now }
    ensures { IfOk result (λ o. IfSome o (AreUsed task.now)) }
{
    let _typed = task.initial_atoms();
    let barred = graph.barred_actions(alloc)?;
    let open = Fine::open(alloc, barred)?;
    let found = Usable::of(alloc, task, &open)?;
    Ok(found)
}

/// The nodes that a plan may have which uses this only; none if what is found is not right.
fn fine_of(
    alloc: Global,
    task: &Task,
    graph: &TaskGraph,
    usable: &Usable,
) -> Result<Option<Fine>, AllocError>
    ensures { IfOk result (λ o. IfSome o (λ f. AreUsed task.now usable.now → AreFine task.now f)) }
{
    let _typed = task.initial_atoms();
    let fine = find_fine(alloc, task, graph, usable)?;
    let is_right = fine.is_right(alloc, task, usable)?;
    if is_right {
        return Ok(Some(fine));
    }
    Ok(None)
}

/// What arises by nodes that a plan may have.
fn stage_by(alloc: Global, task: &Task, fine: Fine) -> Result<Option<Stage>, AllocError>
    requires { AreFine task.now fine }
    ensures { IfOk result (λ o. IfSome o (IsStage task.now)) }
{
    let _typed = task.initial_atoms();
    let gathered = Usable::of(alloc, task, &fine)?;
    match gathered {
        Some(usable) => Ok(Some(Stage { fine, usable })),
        None => Ok(None),
    }
}

/// The stage after one in which a plan may use this only.
fn stage_after(
    alloc: Global,
    task: &Task,
    graph: &TaskGraph,
    usable: &Usable,
) -> Result<Option<Stage>, AllocError>
    requires { AreUsed task.now usable.now }
    ensures { IfOk result (λ o. IfSome o (IsStage task.now)) }
{
    let judged = fine_of(alloc, task, graph, usable)?;
    match judged {
        Some(fine) => stage_by(alloc, task, fine),
        None => Ok(None),
    }
}

/// The stage after another, and whether nothing more falls away in it.
fn step_after(
    alloc: Global,
    task: &Task,
    graph: &TaskGraph,
    usable: &Usable,
) -> Result<Option<Step>, AllocError>
    requires { AreUsed task.now usable.now }
    ensures { IfOk result (λ o. IfSome o (λ s. IsStage task.now s.stage)) }
{
    let found = stage_after(alloc, task, graph, usable)?;
    match found {
        Some(stage) => {
            let is_last = stage.usable.is_as_large(usable);
            Ok(Some(Step { stage, is_last }))
        }
        None => Ok(None),
    }
}

/// The stage after another, unless nothing more falls away in this one.
fn next_step(
    alloc: Global,
    task: &Task,
    graph: &TaskGraph,
    step: Step,
) -> Result<Option<Step>, AllocError>
    requires { IsStage task.now step.stage }
    ensures { IfOk result (λ o. IfSome o (λ s. IsStage task.now s.stage)) }
{
    if step.is_last {
        return Ok(Some(step));
    }
    step_after(alloc, task, graph, &step.stage.usable)
}

/// The stage from which on nothing more falls away, or the last that is looked at.
fn last_step(
    alloc: Global,
    task: &Task,
    graph: &TaskGraph,
    first: &Usable,
) -> Result<Option<Step>, AllocError>
    requires { AreUsed task.now first.now }
    ensures { IfOk result (λ o. IfSome o (λ s. IsStage task.now s.stage)) }
{
    let mut found = step_after(alloc, task, graph, first)?;
    for _ in 0..MOST_STAGES {
        let Some(step) = found else {
            return Ok(None);
        };
        found = next_step(alloc, task, graph, step)?;
    }
    Ok(found)
}

/// What no plan uses, by the last stage; causes by the first.
fn findings_of(
    alloc: Global,
    task: &Task,
    graph: &TaskGraph,
    first: &Fine,
    last: Stage,
) -> Result<Option<Findings>, AllocError>
    requires { IsStage task.now last }
    ensures { IfOk result (λ o. IfSome o (AreFindings task.now)) }
{
    let search = Search {
        alloc,
        task,
        graph,
        first,
        usable: &last.usable,
    };
    let found = search.unused()?;
    let Some((methods, actions)) = found else {
        return Ok(None);
    };
    let no_plan = no_plan(alloc, task, &last.fine)?;
    let facts = last.fine.facts.possible.atoms().len();
    Ok(Some(Findings {
        no_plan,
        methods,
        actions,
        usable: last.usable,
        facts,
    }))
}

/// What no plan uses, where this is the first stage.
fn findings_after(
    alloc: Global,
    task: &Task,
    graph: &TaskGraph,
    first: &Stage,
) -> Result<Option<Findings>, AllocError>
    requires { IsStage task.now first.now }
    ensures { IfOk result (λ o. IfSome o (AreFindings task.now)) }
{
    let found = last_step(alloc, task, graph, &first.usable)?;
    match found {
        Some(last) => findings_of(alloc, task, graph, &first.fine, last.stage),
        None => Ok(None),
    }
}

/// What no plan uses, where this is all that arises.
fn findings_by(
    alloc: Global,
    task: &Task,
    graph: &TaskGraph,
    all: &Usable,
) -> Result<Option<Findings>, AllocError>
    requires { AreUsed task.now all.now }
    ensures { IfOk result (λ o. IfSome o (AreFindings task.now)) }
{
    let judged = stage_after(alloc, task, graph, all)?;
    match judged {
        Some(first) => findings_after(alloc, task, graph, &first),
        None => Ok(None),
    }
}

/// What no plan uses, by the decomposition graph; none where not all of that is listed.
fn findings_in(
    alloc: Global,
    task: &Task,
    graph: &TaskGraph,
) -> Result<Option<Findings>, AllocError>
    requires { IsGraph task.now graph.now }
    ensures { IfOk result (λ o. IfSome o (AreFindings task.now)) }
{
    if graph.listed() < graph.nodes().len() {
        return Ok(None);
    }
    let arising = all_usable(alloc, task, graph)?;
    match arising {
        Some(all) => findings_by(alloc, task, graph, &all),
        None => Ok(None),
    }
}

/// The methods and actions that no plan of a task uses, whatever its size. None where more than a million instances
/// would have to be listed, or a decomposition graph of more than four million tasks, networks and nodes.
pub fn find_unused(alloc: Global, task: &Task) -> Result<Option<Findings>, AllocError>
    ensures { IfOk result (λ o. IfSome o (AreFindings task.now)) }
{
    let graph = enumerate(alloc, task, MOST_LISTED)?;
    findings_in(alloc, task, &graph)
}
