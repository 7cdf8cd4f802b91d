//! The ground networks of instances.
ghost use Rattle.std.specs.Prelude.{◌≡◌, IfOk};
ghost use Rattle.htn_model.specs.Instances as model;
ghost use Rattle.htn_ground.specs.Views.{child_view};

use crate::child::{Child, ChildList};
use crate::literals::{ground_task, is_equation, state_literals};
use htn_order::Order;
use htn_task::{FormulaList, NetworkSchema, Task, TaskSchema};
use std::alloc::{AllocError, Global};

/// Whether a precondition takes a step: it has more than equalities.
fn has_step(precondition: &FormulaList) -> bool
    ensures { result ≡ model.has_step precondition.now }
{
    for formula in precondition.as_slice() {
        if !is_equation(formula) {
            return true;
        }
    }
    false
}

/// A subtask as a node.
fn child_for(
    alloc: Global,
    task: &Task,
    subtask: &TaskSchema,
    values: &[u16],
) -> Result<Child, AllocError>
    ensures { IfOk result (λ c. child_view c ≡ model.child_of task.now (model.ground_task values.now subtask.now)) }
{
    let ground = ground_task(alloc, subtask, values)?;
    if task.is_compound(subtask.name()) {
        return Ok(Child::Task(ground));
    }
    Ok(Child::Action(ground))
}

/// The precondition step, if there is one.
fn steps_for(
    alloc: Global,
    task: &Task,
    precondition: &FormulaList,
    values: &[u16],
) -> Result<ChildList, AllocError>
    ensures { IfOk result (λ l. l ≡ model.steps_of task.now values.now precondition.now) }
{
    let mut children = ChildList::new(alloc);
    if has_step(precondition) {
        let literals = state_literals(alloc, task, precondition, values)?;
        children.push(Child::Precondition(literals))?;
    }
    Ok(children)
}

/// The children of an instance: the precondition step, if there is one, and then the subtasks.
pub(crate) fn children_for(
    alloc: Global,
    task: &Task,
    precondition: &FormulaList,
    network: &NetworkSchema,
    values: &[u16],
) -> Result<ChildList, AllocError>
    ensures { IfOk result (λ l. l ≡ (model.network_of task.now values.now precondition.now network.now).children) }
{
    let mut children = steps_for(alloc, task, precondition, values)?;
    for subtask in network.subtasks() {
        children.push(child_for(alloc, task, subtask, values)?)?;
    }
    Ok(children)
}

/// The order of an instance's children, the step before all others.
pub(crate) fn order_for(
    alloc: Global,
    precondition: &FormulaList,
    network: &NetworkSchema,
) -> Result<Order, AllocError>
    ensures { IfOk result (λ o. o ≡ model.order_with_step precondition.now network.now.order) }
{
    let order = network.order();
    let _size = order.size();
    if !has_step(precondition) {
        let same = order.clone()?;
        return Ok(same);
    }
    let longer = order.with_first(alloc)?;
    Ok(longer)
}
