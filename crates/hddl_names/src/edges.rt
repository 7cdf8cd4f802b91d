//! Rows that are made from pairs.
ghost use Rattle.std.specs.Prelude.{◌≡◌, ℕ, length, map, IfOk, Contains, ◌↔◌};
ghost use Rattle.htn_order.specs.Closure.{AreBelow};
ghost use Rattle.hddl_names.specs.Rows.{AreRows, turned as turned_pairs, HasSame};

use crate::rows::Rows;
use indexmap::IndexSet;
use std::alloc::{AllocError, Global};

/// Each pair once.
fn distinct_pairs(
    alloc: Global,
    pairs: &[(usize, usize)],
) -> Result<IndexSet<(usize, usize)>, AllocError>
    ensures { IfOk result (λ set. HasSame set.keys pairs.now) }
{
    let mut set = IndexSet::new(alloc);
    for pair in pairs {
        let _ = set.insert(*pair)?;
    }
    Ok(set)
}

/// For each number the list of those that it is paired with, where no pair stands twice.
fn listed(alloc: Global, size: usize, pairs: &[(usize, usize)]) -> Result<Rows, AllocError>
    requires { AreBelow size pairs.now }
    ensures len { IfOk result (λ rows. length rows ≡ size) }
    ensures rows { IfOk result (AreRows pairs.now) }
{
    let mut rows = Rows::new(alloc, size)?;
    for pair in pairs {
        rows.push(pair.0, pair.1)?;
    }
    Ok(rows)
}

/// For each number below a size the list of those that it is paired with, each once.
pub fn rows_of(alloc: Global, size: usize, pairs: &[(usize, usize)]) -> Result<Rows, AllocError>
    requires { AreBelow size pairs.now }
    ensures len { IfOk result (λ rows. length rows ≡ size) }
    ensures rows { IfOk result (AreRows pairs.now) }
{
    let set = distinct_pairs(alloc, pairs)?;
    let rows = listed(alloc, size, set.as_slice())?;
    Ok(rows)
}

/// The pairs the other way round.
pub fn turned(alloc: Global, pairs: &[(usize, usize)]) -> Result<Vec<(usize, usize)>, AllocError>
    ensures { IfOk result (λ all. all.items ≡ turned_pairs pairs.now) }
{
    pairs.iter().map(|pair| (pair.1, pair.0)).collect(alloc)
}
