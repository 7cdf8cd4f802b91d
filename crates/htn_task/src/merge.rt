//! The atoms of a state after an action, in one pass.
ghost use Rattle.std.specs.Prelude.{◌≡◌, IfOk};
ghost use Rattle.htn_task.specs.Merge.{kept, merge};

use crate::atom::Atom;
use crate::state::State;
use std::alloc::{AllocError, Global};

/// The atoms of `state` that are not in `deletes`, merged with `adds`; each list is ascending.
pub(crate) fn merge_effects(
    alloc: Global,
    state: &[Atom],
    deletes: &State,
    adds: &[Atom],
) -> Result<Vec<Atom>, AllocError>
    ensures { IfOk result (λ v. v.items ≡ merge (kept deletes.now state.now) adds.now) }
{
    let mut merged = Vec::with_capacity(alloc, state.len())?;
    let mut added = 0;
    for atom in state {
        if deletes.contains(atom) {
            continue;
        }
        while added < adds.len() && adds[added] < *atom {
            merged.push(adds[added].clone()?)?;
            added += 1;
        }
        if added < adds.len() && adds[added] == *atom {
            added += 1;
        }
        merged.push(atom.clone()?)?;
    }
    while added < adds.len() {
        merged.push(adds[added].clone()?)?;
        added += 1;
    }
    Ok(merged)
}
