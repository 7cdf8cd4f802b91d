//! How many nodes the solution of a valid plan file has.

ghost use Rattle.std.specs.Prelude.{◌≡◌, ◌∷◌, [], ◌+◌, ◌-◌, ◌^◌, IfOk, min};
ghost use Rattle.pair_messages.specs.Counts.{numbers_of};

use diagnostics::Part;
use pair_messages::push_count;
use plan_causes::Counts;
use std::alloc::{AllocError, Global};

/// The line that counts the nodes of the solution of a valid plan file: actions, decomposed tasks, precondition steps,
/// and all of them, as far as a word holds their number. An error where memory was refused.
pub fn counts_line<'a>(alloc: Global, counts: Counts) -> Result<Vec<Part<'a>>, AllocError>
    ensures { IfOk result (λ line. numbers_of line.items
        ≡ counts.actions ∷ counts.tasks ∷ counts.steps ∷ min (min (counts.actions + counts.tasks) (2 ^ 64 - 1) + counts.steps) (2 ^ 64 - 1) ∷ []) }
{
    let mut parts = Vec::new(alloc);
    push_count(&mut parts, counts.actions, " action, ", " actions, ")?;
    push_count(
        &mut parts,
        counts.tasks,
        " decomposed task and ",
        " decomposed tasks and ",
    )?;
    push_count(
        &mut parts,
        counts.steps,
        " precondition step: a solution of ",
        " precondition steps: a solution of ",
    )?;
    let all = counts
        .actions
        .saturating_add(counts.tasks)
        .saturating_add(counts.steps);
    push_count(&mut parts, all, " node", " nodes")?;
    Ok(parts)
}
