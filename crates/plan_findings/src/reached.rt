//! Lines that the root line reaches.

use indexmap::{IndexMap, IndexSet};
use plan_text::PlanFile;
use std::alloc::{AllocError, Global};

/// The number of the decomposition line of each id.
fn decompositions(alloc: Global, file: &PlanFile) -> Result<IndexMap<u64, usize>, AllocError> {
    let mut numbers = IndexMap::new(alloc);
    for (number, line) in file.decompositions().iter().enumerate() {
        numbers.insert(line.id(), number)?;
    }
    Ok(numbers)
}

/// Adds ids to a set.
fn add_all(reached: &mut IndexSet<u64>, ids: &[u64]) -> Result<(), AllocError> {
    for id in ids {
        let _ = reached.insert(*id)?;
    }
    Ok(())
}

/// The ids that the root line reaches.
fn reached_ids(alloc: Global, file: &PlanFile) -> Result<IndexSet<u64>, AllocError> {
    let numbers = decompositions(alloc, file)?;
    let mut reached = IndexSet::new(alloc);
    add_all(&mut reached, file.roots())?;
    let mut at = 0;
    for _ in 0..u64::MAX {
        let Some(id) = reached.get_index(at).copied() else {
            break;
        };
        if let Some(number) = numbers.get(&id) {
            if let Some(line) = file.decompositions().get(*number) {
                add_all(&mut reached, line.children())?;
            }
        }
        at = at.saturating_add(1);
    }
    Ok(reached)
}

/// The id of the first line that the root line doesn't reach: of action lines before decomposition lines.
pub(crate) fn unreached_id(alloc: Global, file: &PlanFile) -> Result<Option<u64>, AllocError> {
    let reached = reached_ids(alloc, file)?;
    for line in file.actions() {
        if !reached.contains(&line.id()) {
            return Ok(Some(line.id()));
        }
    }
    for line in file.decompositions() {
        if !reached.contains(&line.id()) {
            return Ok(Some(line.id()));
        }
    }
    Ok(None)
}
