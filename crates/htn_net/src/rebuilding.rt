//! The solution of a word that finishes.
ghost use Rattle.htn_ground.specs.Trees.{solution_of};
ghost use Rattle.htn_model.specs.Grounding.{problem_of};
ghost use Rattle.htn_model.specs.Instances.{initials};
ghost use Rattle.htn_model.specs.Machine.{Finishes};
ghost use Rattle.htn_model.specs.Machine.{choose, start, FinishesFrom};
ghost use Rattle.htn_walk.specs.Rebuilt.{IsSolutionOf};
ghost use Rattle.htn_walk.specs.Trail.{AreWithin};
ghost use Rattle.htn_walk.specs.Walk.{IsOneOn, recorded};
ghost use Rattle.std.specs.Prelude.{IfOk};
ghost use Rattle.std.specs.Prelude.{◌≡◌, ◌<◌, ◌∷◌, ℕ, Contains, IfOk, IsSome, Some, length, slice_get};

use crate::config::Config;
use htn_ground::{Instance, Solution, initial_at};
use htn_task::Task;
use htn_walk::{Walk, grow_back, start_walk};
use std::alloc::{AllocError, Global};

/// The walk after one number, whose choice is computed at the current configuration.
fn follow(
    alloc: Global,
    task: &Task,
    walk: Walk,
    config: &Config,
    number: u64,
) -> Result<(Walk, Config), AllocError>
    requires same { config.now ≡ walk.config }
    requires chosen { IsSome (choose (problem_of task.now) walk.config number) }
    requires placed { length walk.places.items ≡ length walk.config.open_nodes }
    ensures one { IfOk result (λ r. IsOneOn task.now number walk r.0) }
    ensures same { IfOk result (λ r. r.1 ≡ r.0.config) }
{
    let Some((position, change)) = config.choose(alloc, task, number)? else {
        unreachable!()
    };
    let next = config.after(alloc, task, position, &change)?;
    let walk = walk.take(alloc, task, position, change)?;
    Ok((walk, next))
}

/// The walk along all numbers of a finishing word, from an initial network on: it has recorded the
/// word's solution.
pub(crate) fn walk_along(
    alloc: Global,
    task: &Task,
    initial: &Instance,
    numbers: &[u64],
) -> Result<Walk, AllocError>
    requires initial { Contains (initials task.now) initial.now }
    requires finishes { FinishesFrom (problem_of task.now) numbers.now (start (problem_of task.now) initial.now.network) }
    ensures within { IfOk result (λ walk. AreWithin walk.trail.items 0) }
    ensures solved { IfOk result (λ walk. (number : ℕ) → slice_get (problem_of task.now).initials number ≡ Some initial.now.network
        → IsSolutionOf (problem_of task.now) (number ∷ numbers.now) (recorded task.now number walk)) }
{
    let _typed = task.objects();
    let mut walk = start_walk(alloc, task, initial)?;
    let mut config = Config::start(alloc, task, initial)?;
    for number in numbers {
        (walk, config) = follow(alloc, task, walk, &config, *number)?;
    }
    Ok(walk)
}

/// The solution whose code is the word: its trees, and the order of its actions and steps. An error means
/// that memory was refused, or that a number chooses an instance of a method past the 65,536th, as none of
/// a checked text is.
pub fn rebuild(alloc: Global, task: &Task, word: &[u64]) -> Result<Solution, AllocError>
    requires { Finishes (problem_of task.now) word.now }
    ensures { IfOk result (λ s. IsSolutionOf (problem_of task.now) word.now (solution_of task.now s)) }
{
    let _typed = task.objects();
    let Some((number, numbers)) = word.split_first() else {
        unreachable!()
    };
    let Some(initial) = initial_at(alloc, task, *number)? else {
        unreachable!()
    };
    let walk = walk_along(alloc, task, &initial, numbers)?;
    let trees = grow_back(alloc, walk.trail)?;
    Ok(Solution {
        initial,
        trees,
        linearisation: walk.visits,
    })
}
