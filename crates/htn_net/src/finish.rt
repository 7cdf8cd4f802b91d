//! Whether a word finishes.
ghost use Rattle.std.specs.Prelude.{◌-◌, ◌<◌, ◌↔◌, IfOk, IsTrue, false, true};
ghost use Rattle.htn_model.specs.Grounding.{problem_of};
ghost use Rattle.htn_model.specs.Machine.{Finishes};

use crate::config::Config;
use htn_ground::{goal_literals, initial_at};
use htn_task::Task;
use std::alloc::{AllocError, Global};

/// Whether a word finishes: the numbers lead from an initial network to no open nodes with the goal
/// true. An error means that memory was refused, or that a number chooses an instance of a method past
/// the 65,536th, as none of a checked text is.
pub fn finishes(alloc: Global, task: &Task, word: &[u64]) -> Result<bool, AllocError>
    ensures { IfOk result (λ finishes. IsTrue finishes ↔ Finishes (problem_of task.now) word.now) }
{
    let _typed = task.objects();
    let Some((initial, numbers)) = word.split_first() else {
        return Ok(false);
    };
    let Some(instance) = initial_at(alloc, task, *initial)? else {
        return Ok(false);
    };
    let mut config = Config::start(alloc, task, &instance)?;
    for number in numbers {
        let Some((position, change)) = config.choose(alloc, task, *number)? else {
            return Ok(false);
        };
        let next = config.after(alloc, task, position, &change)?;
        config = next;
    }
    let goal = goal_literals(alloc, task)?;
    Ok(config.is_done(&goal))
}
