//! A walk along a word of ranks that a search found.
ghost use Rattle.std.specs.Prelude.{◌≡◌, ◌<◌, ◌∷◌, ℕ, Contains, IfOk, IsSome, Some, length, slice_get};
ghost use Rattle.htn_model.specs.Grounding.{problem_of};
ghost use Rattle.htn_model.specs.Instances.{initials};
ghost use Rattle.htn_model.specs.Machine.{start};
ghost use Rattle.htn_walk.specs.Listed.{choose_listed, number_of};
ghost use Rattle.htn_walk.specs.Rebuilt.{IsSolutionOf};
ghost use Rattle.htn_walk.specs.Trail.{AreWithin};
ghost use Rattle.htn_walk.specs.Told.{FinishesListed, told};
ghost use Rattle.htn_walk.specs.Walk.{IsOneOn, recorded};
ghost use Rattle.task_machine.specs.Tables.{AreTables};

use crate::chosen::choose_by_rank;
use htn_ground::Instance;
use htn_task::Task;
use htn_walk::{Walk, start_walk};
use std::alloc::{AllocError, Global};
use task_machine::Tables;

/// The walk after one rank, whose instance is taken from the tables if they have it.
fn follow_listed(
    alloc: Global,
    task: &Task,
    tables: &Tables,
    walk: Walk,
    rank: u64,
) -> Result<Walk, AllocError>
    requires own { AreTables task.now tables.now }
    requires chosen { IsSome (choose_listed task.now walk.config rank) }
    requires placed { length walk.places.items ≡ length walk.config.open_nodes }
    ensures { IfOk result (IsOneOn task.now (number_of task.now walk.config rank) walk) }
{
    let (position, change) = choose_by_rank(alloc, task, tables, &walk.config, rank)?;
    walk.take(alloc, task, position, change)
}

/// The walk along all ranks of a word that a search with these tables found, from an initial network on: it has
/// recorded the word's solution.
pub(crate) fn walk_listed(
    alloc: Global,
    task: &Task,
    tables: &Tables,
    initial: &Instance,
    ranks: &[u64],
) -> Result<Walk, AllocError>
    requires own { AreTables task.now tables.now }
    requires initial { Contains (initials task.now) initial.now }
    requires finishes { FinishesListed task.now (start (problem_of task.now) initial.now.network) ranks.now }
    ensures within { IfOk result (λ walk. AreWithin walk.trail.items 0) }
    ensures solved { IfOk result (λ walk. (number : ℕ) → slice_get (problem_of task.now).initials number ≡ Some initial.now.network
        → IsSolutionOf (problem_of task.now) (number ∷ told task.now (start (problem_of task.now) initial.now.network) ranks.now) (recorded task.now number walk)) }
{
    let _typed = task.objects();
    let mut walk = start_walk(alloc, task, initial)?;
    for rank in ranks {
        walk = follow_listed(alloc, task, tables, walk, *rank)?;
    }
    Ok(walk)
}
