//! Lower bounds on the steps that are left from a configuration.
ghost use Rattle.std.specs.Prelude.{◌≡◌};
ghost use Rattle.word_machine.specs.Answer.{measure_of};
ghost use Rattle.word_machine.specs.Ranks.{IsOwned};

use crate::bounds::Bounds;
use crate::machine::Machine;
use crate::watch::News;

/// The lower bound that a search uses.
#[derive(Clone, Copy, Debug)]
pub enum Measure {
    /// The number of open nodes.
    OpenNodes,
    /// The machine's own bound.
    LowerBound,
}

/// Which successors a search needs: those with at most this many steps left by the measure, or all where there is no
/// limit.
#[derive(Clone, Copy, Debug)]
pub struct Horizon {
    pub measure: Measure,
    pub most_left: Option<u64>,
}

/// The bound of a search, the measure that it uses, and whether it is known that no word finishes within the bound.
#[derive(Clone, Copy, Debug)]
pub struct Limits {
    pub bounds: Bounds,
    pub measure: Measure,
    pub none_within: bool,
    /// The search is given up once its closed list has more configurations.
    pub most_kept: usize,
    /// No word finishes in fewer steps than these. It is for the watch of the search alone.
    pub none_below: u64,
}

impl Limits {
    /// What a watch is given of a search with this number of configurations.
    pub fn news(&self, configurations: usize) -> News
        ensures { result ≡ record { bound = self.now.bounds.nodes; configurations = configurations; none_below = self.now.none_below } }
    {
        News {
            bound: self.bounds.nodes,
            configurations,
            none_below: self.none_below,
        }
    }
}

/// How many steps are left at least, by this measure.
pub fn measured<M: Machine>(
    machine: &M,
    tables: &M::Tables,
    measure: Measure,
    at: M::Configuration,
) -> u64
    requires own { M.owns machine.now tables.now }
    requires owned { IsOwned (M.meaning machine.now tables.now) (M.belongs machine.now) at }
    ensures { result ≡ measure_of (M.words machine.now) (M.estimate machine.now) measure ((M.meaning machine.now tables.now).point at) }
{
    match measure {
        Measure::OpenNodes => machine.open_len(tables, at),
        Measure::LowerBound => machine.lower_bound(tables, at),
    }
}
