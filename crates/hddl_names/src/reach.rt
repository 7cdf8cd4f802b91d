//! What a number leads to along pairs.
ghost use Rattle.std.specs.Prelude.{◌≡◌, ◌<◌, length, nat_eq, IfOk, OnOk, All};
ghost use Rattle.indexmap.specs.IndexSet.{insert_all};
ghost use Rattle.hddl_names.specs.Reach.{IsReached, AreReached};

use crate::rows::Rows;
use indexmap::IndexSet;
use std::alloc::{AllocError, Global};

/// Adds the numbers that are not there.
pub fn add_all(found: &mut IndexSet<usize>, numbers: &[usize]) -> Result<(), AllocError>
    ensures { OnOk result (found.new.keys ≡ insert_all nat_eq found.old.keys numbers.now) }
{
    for number in numbers {
        let _ = found.insert(*number)?;
    }
    Ok(())
}

/// The numbers and all that they lead to, each once. It takes the time of a pass over their rows.
pub fn all_reached(
    alloc: Global,
    rows: &Rows,
    starts: &[usize],
) -> Result<IndexSet<usize>, AllocError>
    requires { All (λ t. t < length rows.now) starts.now }
    ensures { IfOk result (λ found. AreReached rows.now starts.now found.keys) }
{
    let mut found = IndexSet::new(alloc);
    add_all(&mut found, starts)?;
    for i in 0..rows.len() {
        match found.get_index(i) {
            Some(number) => {
                let row = rows.row(*number);
                add_all(&mut found, row)?;
            }
            None => return Ok(found),
        }
    }
    Ok(found)
}

/// The number and all that it leads to, each once. It takes the time of a pass over their rows.
pub fn reached(alloc: Global, rows: &Rows, start: usize) -> Result<IndexSet<usize>, AllocError>
    requires { start < length rows.now }
    ensures { IfOk result (λ found. IsReached rows.now start found.keys) }
{
    let starts = [start];
    let found = all_reached(alloc, rows, starts.as_slice())?;
    Ok(found)
}
