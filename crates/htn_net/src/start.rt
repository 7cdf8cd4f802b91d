//! The configuration at the start.
ghost use Rattle.std.specs.Prelude.{◌≡◌, Contains, IfOk};
ghost use Rattle.std.specs.Arc.{arc_value};
ghost use Rattle.htn_model.specs.Grounding.{problem_of};
ghost use Rattle.htn_model.specs.Instances as model;
ghost use Rattle.htn_model.specs.Machine.{start};
ghost use Rattle.htn_model.specs.Task.{IsWellTyped};

use crate::config::Config;
use htn_ground::Instance;
use htn_task::{State, Task};
use std::alloc::{AllocError, Global};
use std::sync::Arc;

/// The state at the start.
fn initial_state(alloc: Global, task: &Task) -> Result<Arc<State>, AllocError>
    ensures state { IfOk result (λ s. arc_value s ≡ task.now.initial_atoms) }
    ensures typed { IsWellTyped task.now }
{
    let state = Arc::new(alloc, task.initial_atoms().clone()?)?;
    Ok(state)
}

impl Config {
    /// The initial configuration of an instance of the initial network: its nodes are open in the initial state.
    pub fn start(alloc: Global, task: &Task, instance: &Instance) -> Result<Config, AllocError>
        requires { Contains (model.initials task.now) instance.now }
        ensures { IfOk result (λ c. c ≡ start (problem_of task.now) instance.now.network) }
    {
        let state = initial_state(alloc, task)?;
        let config = Config::of(state, instance)?;
        Ok(config)
    }
}
