//! Lists of numbers, one for each number below a size.
ghost use Rattle.std.specs.Prelude.{◌≡◌, ℕ, ◌<◌, ◌++◌, ◌∷◌, [], length, get_or, slice_set, replicate, IfOk, OnOk};
ghost use Rattle.hddl_names.specs.Rows.{AreWithin};

use std::alloc::{AllocError, Global};
use std::marker::Model;

/// For each number below a size, a list of such numbers. Contracts see the lists.
#[derive(Drop)]
pub struct Rows {
    rows: Vec<Vec<usize>>,
}

impl Model for Rows {
    ghost use Rattle.std.specs.Prelude.{List, ℕ};
    ghost use Rattle.hddl_names.specs.Rows.{AreWithin, lists_of};

    ghost Value = { List (List ℕ) };

    ghost view = { λ rows. lists_of rows.rows.items };

    ghost invariant = { λ rows. AreWithin (lists_of rows.rows.items) };
}

impl Rows {
    /// Empty lists.
    pub fn new(alloc: Global, size: usize) -> Result<Rows, AllocError>
        ensures { IfOk result (λ rows. rows ≡ replicate size []) }
    {
        let mut rows = Vec::new(alloc);
        for i in 0..size {
            let _row = i;
            rows.push(Vec::new(alloc))?;
        }
        Ok(Rows { rows })
    }

    /// How many lists there are.
    pub fn len(&self) -> usize
        ensures { result ≡ length self.now }
    {
        self.rows.len()
    }

    /// The list of a number.
    pub fn row(&self, number: usize) -> &[usize]
        requires { number < length self.now }
        ensures value { result.now ≡ get_or self.now number [] }
        ensures within { AreWithin self.now }
    {
        self.rows[number].as_slice()
    }

    /// The list of a number, empty where it has none.
    pub fn row_or_empty(&self, number: usize) -> &[usize]
        ensures { result.now ≡ get_or self.now number [] }
    {
        match self.rows.get(number) {
            Some(row) => row.as_slice(),
            None => &[],
        }
    }

    /// Adds a number to the list of another.
    pub fn push(&mut self, number: usize, item: usize) -> Result<(), AllocError>
        requires number { number < length self.old }
        requires item { item < length self.old }
        ensures { OnOk result (self.new ≡ slice_set self.old number (get_or self.old number [] ++ item ∷ [])) }
    {
        self.rows[number].push(item)?;
        Ok(())
    }
}
