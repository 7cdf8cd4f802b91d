//! The state after a step or an action.
ghost use Rattle.std.specs.Prelude.{◌≡◌, All, IfOk, None, Some, cond, map};
ghost use Rattle.std.specs.Arc.{arc_value};
ghost use Rattle.std.specs.Option.{option_map};
ghost use Rattle.htn_model.specs.Choice.{first_free_compound};
ghost use Rattle.htn_model.specs.Grounding.{problem_of};
ghost use Rattle.htn_model.specs.Instances as model;
ghost use Rattle.htn_model.specs.Literal.{holds};
ghost use Rattle.htn_model.specs.Problem as problem;
ghost use Rattle.htn_model.specs.Problem.{is_before};
ghost use Rattle.htn_ground.specs.Views.{child_view};
ghost use Rattle.htn_net.specs.Choices.{IsPerformance};
ghost use Rattle.htn_walk.specs.Live.{live_numbers, numbers};

use crate::choice::Performance;
use crate::config::Config;
use htn_ground::{Child, GroundTask, action_of};
use htn_task::{LiteralList, State, Task};
use std::alloc::{AllocError, Global};
use std::sync::Arc;

/// The state of a configuration, where the literals of a step hold in it.
fn perform_step(config: &Config, literals: &LiteralList) -> Result<Option<Arc<State>>, AllocError>
    ensures { IfOk result (λ o. option_map (λ s. arc_value s) o ≡ cond (holds config.now.state literals.now) (Some config.now.state) None) }
{
    if !config.state().holds(literals.as_slice()) {
        return Ok(None);
    }
    let state = config.shared_state()?;
    Ok(Some(state))
}

/// The state after an action, where there is one and its literals hold.
fn perform_action(
    alloc: Global,
    task: &Task,
    config: &Config,
    goal: &GroundTask,
) -> Result<Option<Arc<State>>, AllocError>
    ensures { IfOk result (λ o. option_map (λ s. arc_value s) o ≡ problem.perform_action config.now.state (model.action_of task.now goal.now)) }
{
    let Some(action) = action_of(alloc, task, goal)? else {
        return Ok(None);
    };
    if !config.state().holds(action.precondition.as_slice()) {
        return Ok(None);
    }
    let after = config.state().after(&action)?;
    let state = Arc::new(alloc, after)?;
    Ok(Some(state))
}

/// The state after a step or an action at a configuration, where its literals hold.
pub(crate) fn perform(
    alloc: Global,
    task: &Task,
    config: &Config,
    node: &Child,
) -> Result<Option<Arc<State>>, AllocError>
    ensures { IfOk result (λ o. option_map (λ s. arc_value s) o ≡ problem.perform (problem_of task.now) config.now.state (child_view node.now)) }
{
    match node {
        Child::Precondition(literals) => perform_step(config, literals),
        Child::Action(goal) => perform_action(alloc, task, config, goal),
        Child::Task(_) => Ok(None),
    }
}

/// The free steps and actions whose literals hold, by their numbers among the free nodes.
pub(crate) fn performances(
    alloc: Global,
    task: &Task,
    config: &Config,
) -> Result<Vec<Performance>, AllocError>
    requires { first_free_compound config.now.open_nodes (is_before config.now.order) ≡ None }
    ensures each { IfOk result (λ found. All (IsPerformance (problem_of task.now) config.now) found.items) }
    ensures numbers { IfOk result (λ found. map (λ p. p.number) found.items ≡ numbers (problem_of task.now) config.now) }
    ensures live { IfOk result (λ found. map (λ p. p.number) found.items ≡ live_numbers (problem_of task.now) config.now) }
{
    let free = config.order().free_positions(alloc)?;
    let mut found = Vec::new(alloc);
    for (number, position) in free.iter().enumerate() {
        if let Some(state) = perform(alloc, task, config, config.node_at(*position))? {
            found.push(Performance {
                number: number as u64,
                position: *position,
                state,
            })?;
        }
    }
    Ok(found)
}
