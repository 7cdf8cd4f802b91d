//! The choice of a rank, by the tables of a search.
ghost use Rattle.std.specs.Prelude.{◌≡◌, ℕ, IfOk, IsSome, Some, slice_get};
ghost use Rattle.htn_ground.specs.Distinct.{distinct, live_methods};
ghost use Rattle.htn_walk.specs.Choices.{IsChosen};
ghost use Rattle.htn_walk.specs.Listed.{choose_listed, number_at};
ghost use Rattle.task_machine.specs.Tables.{AreTables};

use htn_ground::{GroundTask, Instance, distinct_live_methods_of};
use htn_task::Task;
use htn_walk::{Change, Front};
use std::alloc::{AllocError, Global};
use task_machine::Tables;

/// The instance of a rank, from the tables; it is computed again only where they do not have it.
fn listed_instance(
    alloc: Global,
    task: &Task,
    tables: &Tables,
    goal: &GroundTask,
    rank: u64,
) -> Result<Instance, AllocError>
    requires own { AreTables task.now tables.now }
    requires listed { IsSome (slice_get (distinct (live_methods task.now goal.now)) rank) }
    ensures { IfOk result (λ i. slice_get (distinct (live_methods task.now goal.now)) rank ≡ Some i) }
{
    if let Some(instance) = tables.listed_instance(alloc, goal, rank as usize)? {
        return Ok(instance);
    }
    let mut listed = distinct_live_methods_of(alloc, task, goal)?;
    Ok(listed.swap_remove(rank as usize))
}

/// The open node that a rank chooses, by position, and its change: an instance that replaces it, or the state after it.
pub(crate) fn choose_by_rank(
    alloc: Global,
    task: &Task,
    tables: &Tables,
    front: &Front,
    rank: u64,
) -> Result<(usize, Change), AllocError>
    requires own { AreTables task.now tables.now }
    requires chosen { IsSome (choose_listed task.now front.now rank) }
    ensures { IfOk result (λ x.
        (number : ℕ) × (number_at task.now front.now rank ≡ Some number) × IsChosen task.now front.now number x) }
{
    let Some((position, goal)) = front.first_free_task() else {
        return front.choose_free(alloc, task, rank);
    };
    let instance = listed_instance(alloc, task, tables, goal, rank)?;
    Ok((position, Change::Decomposed(instance)))
}
