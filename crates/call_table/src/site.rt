//! Numbers in a state, as keys.
use std::hash::{Hash, Hasher};

/// A block, or a list of blocks, in a state, each by number.
#[derive(Clone, Copy, Drop)]
pub struct Site {
    pub state: u32,
    pub number: u32,
}

impl PartialEq for Site {
    ghost use Rattle.call_table.specs.Sites.{site_eq, site_eq-partial};

    ghost eq = { site_eq };

    ghost laws = { site_eq-partial };

    fn eq(&self, other: &Site) -> bool {
        self.state == other.state && self.number == other.number
    }
}

impl Eq for Site {
    ghost use Rattle.call_table.specs.Sites.{site_eq-laws};

    ghost laws = { site_eq-laws };
}

impl Hash for Site {
    ghost use Rattle.call_table.specs.Sites.{site_hash, site_hash-Alike};

    ghost hash_input = { site_hash };

    ghost respects_eq = { site_hash-Alike.fed };

    fn hash<H: Hasher>(&self, state: &mut H) {
        self.state.hash(state);
        self.number.hash(state);
    }
}
