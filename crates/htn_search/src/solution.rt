//! The solution of a word that a search found.
ghost use Rattle.std.specs.Prelude.{IfOk};
ghost use Rattle.htn_ground.specs.Trees.{solution_of};
ghost use Rattle.htn_model.specs.Grounding.{problem_of};
ghost use Rattle.htn_walk.specs.Listed.{listing_machine};
ghost use Rattle.htn_walk.specs.Rebuilt.{IsSolutionOf};
ghost use Rattle.htn_walk.specs.Told.{told_word};
ghost use Rattle.task_machine.specs.Tables.{AreTables};
ghost use Rattle.word_machine.specs.Machine.{IsFinishing};

use crate::walk::walk_listed;
use htn_ground::{Solution, distinct_initials};
use htn_task::Task;
use htn_walk::grow_back;
use std::alloc::{AllocError, Global};
use task_machine::Tables;

/// The solution of a word of ranks that finishes. It is made from the instances, which the tables of the
/// search have, and no number is counted.
pub(crate) fn rebuild_listed(
    alloc: Global,
    task: &Task,
    tables: &Tables,
    ranks: &[u64],
) -> Result<Solution, AllocError>
    requires own { AreTables task.now tables.now }
    requires finishing { IsFinishing (listing_machine task.now) ranks.now }
    ensures { IfOk result (λ s. IsSolutionOf (problem_of task.now) (told_word task.now ranks.now) (solution_of task.now s)) }
{
    let _typed = task.objects();
    let Some((rank, ranks)) = ranks.split_first() else {
        unreachable!()
    };
    let mut listed = distinct_initials(alloc, task)?;
    let initial = listed.swap_remove(*rank as usize);
    let walk = walk_listed(alloc, task, tables, &initial, ranks)?;
    let trees = grow_back(alloc, walk.trail)?;
    Ok(Solution {
        initial,
        trees,
        linearisation: walk.visits,
    })
}
