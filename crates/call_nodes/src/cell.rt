//! A node before a list, as a key.
use std::hash::{Hash, Hasher};

/// The number of a node, and of the list behind it.
#[derive(Clone, Copy, Drop)]
pub struct Cell {
    pub first: u32,
    pub rest: u32,
}

impl PartialEq for Cell {
    ghost use Rattle.call_nodes.specs.Cells.{cell_eq, cell_eq-partial};

    ghost eq = { cell_eq };

    ghost laws = { cell_eq-partial };

    fn eq(&self, other: &Cell) -> bool {
        self.first == other.first && self.rest == other.rest
    }
}

impl Eq for Cell {
    ghost use Rattle.call_nodes.specs.Cells.{cell_eq-laws};

    ghost laws = { cell_eq-laws };
}

impl Hash for Cell {
    ghost use Rattle.call_nodes.specs.Cells.{cell_hash, cell_hash-Alike};

    ghost hash_input = { cell_hash };

    ghost respects_eq = { cell_hash-Alike.fed };

    fn hash<H: Hasher>(&self, state: &mut H) {
        self.first.hash(state);
        self.rest.hash(state);
    }
}
