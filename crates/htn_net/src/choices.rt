//! The choices of a configuration.
ghost use Rattle.std.specs.Prelude.{◌≡◌, All, IfOk, None, map};
ghost use Rattle.std.specs.List.{enumerate_from};
ghost use Rattle.std.specs.Option.{option_map};
ghost use Rattle.htn_model.specs.Choice.{child_of, first_free_compound};
ghost use Rattle.htn_model.specs.Grounding.{problem_of};
ghost use Rattle.htn_model.specs.Machine as machine;
ghost use Rattle.htn_model.specs.Problem.{is_before};
ghost use Rattle.htn_net.specs.Choices.{IsChoice, choice_of, decomposed_choices};
ghost use Rattle.htn_walk.specs.Live.{live_numbers, numbers};

use crate::choice::Choice;
use crate::config::Config;
use crate::perform::performances;
use htn_ground::{Instance, live_methods_of, methods_of};
use htn_task::Task;
use htn_walk::Change;
use std::alloc::{AllocError, Global};

/// Each instance with its number.
fn numbered(alloc: Global, instances: Vec<Instance>) -> Result<Vec<(u64, Instance)>, AllocError>
    ensures { IfOk result (λ v. v.items ≡ enumerate_from 0 instances.items) }
{
    let mut found = Vec::new(alloc);
    for instance in instances {
        let number = found.len() as u64;
        found.push((number, instance))?;
    }
    Ok(found)
}

/// A choice for each numbered instance of the task at a position.
fn decomposed_choices(
    alloc: Global,
    position: usize,
    instances: Vec<(u64, Instance)>,
) -> Result<Vec<Choice>, AllocError>
    ensures { IfOk result (λ v. v.items ≡ decomposed_choices position instances.items) }
{
    let mut choices = Vec::new(alloc);
    for (number, instance) in instances {
        choices.push(Choice {
            number,
            position,
            change: Change::Decomposed(instance),
        })?;
    }
    Ok(choices)
}

/// The free steps and actions whose literals hold.
fn performed_choices(alloc: Global, task: &Task, config: &Config) -> Result<Vec<Choice>, AllocError>
    requires { first_free_compound config.now.open_nodes (is_before config.now.order) ≡ None }
    ensures each { IfOk result (λ choices. All (IsChoice (problem_of task.now) config.now) choices.items) }
    ensures numbers { IfOk result (λ choices. map (λ x. x.number) choices.items ≡ numbers (problem_of task.now) config.now) }
    ensures live { IfOk result (λ choices. map (λ x. x.number) choices.items ≡ live_numbers (problem_of task.now) config.now) }
{
    let found = performances(alloc, task, config)?;
    let choices: Vec<Choice> = found
        .into_iter()
        .map(|performance| performance.into_choice())
        .collect(alloc)?;
    Ok(choices)
}

impl Config {
    /// The choices of this configuration, by ascending numbers: all instances of the first free
    /// compound task; or, where none is free, those free nodes whose literals hold, each with its
    /// number among all the free ones.
    pub fn choices(&self, alloc: Global, task: &Task) -> Result<Vec<Choice>, AllocError>
        ensures each { IfOk result (λ choices. All (IsChoice (problem_of task.now) self.now) choices.items) }
        ensures numbers { IfOk result (λ choices. map (λ x. x.number) choices.items ≡ numbers (problem_of task.now) self.now) }
    {
        match self.first_free_task() {
            Some((position, goal)) => {
                let instances = methods_of(alloc, task, goal)?;
                decomposed_choices(alloc, position, numbered(alloc, instances)?)
            }
            None => performed_choices(alloc, task, self),
        }
    }

    /// The choices of this configuration that are not dead, by ascending numbers. An instance is dead if its step has a
    /// literal that is false initially and that no effect changes. An error means that memory was refused, or that the
    /// number of an instance that is not dead is past 64 bits: each of them is listed with its number.
    pub fn live_choices(&self, alloc: Global, task: &Task) -> Result<Vec<Choice>, AllocError>
        ensures each { IfOk result (λ choices. All (IsChoice (problem_of task.now) self.now) choices.items) }
        ensures numbers { IfOk result (λ choices. map (λ x. x.number) choices.items ≡ live_numbers (problem_of task.now) self.now) }
    {
        match self.first_free_task() {
            Some((position, goal)) => {
                let instances = live_methods_of(alloc, task, goal)?;
                decomposed_choices(alloc, position, instances)
            }
            None => performed_choices(alloc, task, self),
        }
    }
}
