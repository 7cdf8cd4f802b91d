//! The literals that at least one node of a network gives.
ghost use Rattle.std.specs.Prelude.{◌≡◌, ◌||◌, ℕ, Option, IfOk, OnOk};
ghost use Rattle.std.specs.Option.{option_map};
ghost use Rattle.htn_model.specs.Problem.{Network};
ghost use Rattle.heuristics.specs.Places.{AreGiven, ArePlaces, has_given};
ghost use Rattle.heuristics.specs.Rows.{gives_by};

use crate::marks::{add_marks, is_marked};
use crate::needs::Needs;
use crate::places::Place;
use crate::rows::Row;
use std::alloc::{AllocError, Global};

/// The numbers of the literals that one of some nodes gives.
#[derive(Drop)]
pub struct Given {
    /// One of the nodes has no row, so it gives every literal.
    is_all: bool,
    /// As the bits of words.
    marks: Vec<u64>,
}

impl Given {
    /// Adds the literals that a node gives by its row.
    fn add(&mut self, row: Option<&Row>) -> Result<(), AllocError>
        ensures { OnOk result ((number : Option ℕ) → has_given self.new number
            ≡ (has_given self.old number || gives_by (option_map (λ r. r.now) row.entry) number)) }
    {
        match row {
            Some(row) => add_marks(&mut self.marks, row.gives.as_slice())?,
            None => self.is_all = true,
        }
        Ok(())
    }

    /// Whether one of the nodes gives the literal of a number.
    pub fn has(&self, number: Option<usize>) -> bool
        ensures { result ≡ has_given self.now number }
    {
        if self.is_all {
            return true;
        }
        match number {
            Some(number) => is_marked(self.marks.as_slice(), number),
            None => false,
        }
    }
}

impl Needs {
    /// The literals that at least one node of these places gives.
    pub fn given_at(&self, alloc: Global, places: &[Place]) -> Result<Given, AllocError>
        ensures { IfOk result (λ given. (n : Network) → ArePlaces self.now places.now n → AreGiven self.now n given) }
    {
        let mut given = Given {
            is_all: false,
            marks: Vec::new(alloc),
        };
        for place in places {
            given.add(self.row_at(*place))?;
        }
        Ok(given)
    }
}
