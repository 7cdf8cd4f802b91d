//! The steps of a configuration.
ghost use Rattle.std.specs.Prelude.{◌≡◌, ℕ, IfOk, IfSome, None, Some};
ghost use Rattle.std.specs.Option.{option_map};
ghost use Rattle.htn_model.specs.Choice.{first_free_compound};
ghost use Rattle.htn_model.specs.Grounding.{problem_of};
ghost use Rattle.htn_model.specs.Machine as machine;
ghost use Rattle.htn_model.specs.Problem.{is_before};
ghost use Rattle.htn_walk.specs.Choices.{IsNumberOf, chosen_of};
ghost use Rattle.htn_net.specs.Choices.{IsChoice};
ghost use Rattle.htn_walk.specs.Listed.{choose_listed, number_at};

use crate::choice::Choice;
use crate::config::Config;
use crate::perform::perform;
use htn_ground::{distinct_live_methods_of, instance_at};
use htn_task::Task;
use htn_walk::Change;
use std::alloc::{AllocError, Global};

/// What a number chooses where no compound task is free: the position of an open node, and what the step does with
/// it.
fn choose_free(
    alloc: Global,
    task: &Task,
    config: &Config,
    number: u64,
) -> Result<Option<(usize, Change)>, AllocError>
    requires { first_free_compound config.now.open_nodes (is_before config.now.order) ≡ None }
    ensures choice { IfOk result (λ o. option_map (chosen_of config.now) o ≡ machine.choose (problem_of task.now) config.now number) }
    ensures number { IfOk result (λ o. IfSome o (IsNumberOf task.now config.now number)) }
{
    let Some(position) = config.order().nth_free(number as usize) else {
        return Ok(None);
    };
    let Some(state) = perform(alloc, task, config, config.node_at(position))? else {
        return Ok(None);
    };
    Ok(Some((position, Change::Performed(state))))
}

impl Config {
    /// The choice of a number: the position of an open node, and the change that the step makes there; None where the
    /// configuration does not allow the number. No other instance is made, so their numbers need not fit 64 bits. An
    /// error means that memory was refused, or that the instance's method is past the 65,536th, as none of a checked
    /// text is.
    pub fn choose(
        &self,
        alloc: Global,
        task: &Task,
        number: u64,
    ) -> Result<Option<(usize, Change)>, AllocError>
        ensures choice { IfOk result (λ o. option_map (chosen_of self.now) o ≡ machine.choose (problem_of task.now) self.now number) }
        ensures number { IfOk result (λ o. IfSome o (IsNumberOf task.now self.now number)) }
    {
        let Some((position, goal)) = self.first_free_task() else {
            return choose_free(alloc, task, self, number);
        };
        let Some(instance) = instance_at(alloc, task, goal, number)? else {
            return Ok(None);
        };
        Ok(Some((position, Change::Decomposed(instance))))
    }

    /// The choice of a rank in a search, which lists each network of the instances that are not dead once; None where
    /// no instance of this rank is listed. No numbers are counted.
    pub fn choose_listed(
        &self,
        alloc: Global,
        task: &Task,
        rank: u64,
    ) -> Result<Option<(usize, Change)>, AllocError>
        ensures choice { IfOk result (λ o. option_map (chosen_of self.now) o ≡ choose_listed task.now self.now rank) }
        ensures number { IfOk result (λ o. IfSome o (λ x. (number : ℕ) × (number_at task.now self.now rank ≡ Some number) × IsNumberOf task.now self.now number x)) }
    {
        let Some((position, goal)) = self.first_free_task() else {
            return choose_free(alloc, task, self, rank);
        };
        let mut listed = distinct_live_methods_of(alloc, task, goal)?;
        let place = rank as usize;
        if place >= listed.len() {
            return Ok(None);
        }
        let instance = listed.swap_remove(place);
        Ok(Some((position, Change::Decomposed(instance))))
    }

    /// The configuration after this step at the open node of a position.
    pub fn after(
        &self,
        alloc: Global,
        task: &Task,
        position: usize,
        change: &Change,
    ) -> Result<Config, AllocError>
        requires { (number : ℕ) × (machine.choose (problem_of task.now) self.now number ≡ Some (chosen_of self.now (position, change.now))) }
        ensures { IfOk result (λ next. next ≡ machine.result_of self.now (chosen_of self.now (position, change.now))) }
    {
        let _initial = task.initial_atoms();
        match change {
            Change::Decomposed(instance) => self.decomposed(alloc, position, instance),
            Change::Performed(state) => self.performed(alloc, position, state),
        }
    }

    /// The configuration that a choice leads to.
    pub fn step(&self, alloc: Global, task: &Task, choice: &Choice) -> Result<Config, AllocError>
        requires { IsChoice (problem_of task.now) self.now choice.now }
        ensures { IfOk result (λ next. machine.step_by (problem_of task.now) self.now choice.now.number ≡ Some next) }
    {
        let next = self.after(alloc, task, choice.position, &choice.change)?;
        Ok(next)
    }
}
