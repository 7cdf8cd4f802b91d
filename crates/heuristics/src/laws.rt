//! Laws of lower bounds.
ghost use Rattle.heuristics.specs.Heuristic.{ConsistentIsAdmissible, DeadEndsAreConsistent, GreaterIsConsistent, GreaterIsEstimate, NothingIsConsistent, OneIsTooMany, OpenNodesAreConsistent};

/// A consistent bound is admissible (J. Pearl, *Heuristics*, 1984, for unit costs).
pub fn consistent_is_admissible()
    ensures { ConsistentIsAdmissible }
{}

/// A step closes one open node at most.
pub fn open_nodes_are_consistent()
    ensures { OpenNodesAreConsistent }
{}

/// Any number is a lower bound on the steps of a configuration that never finishes.
pub fn dead_ends_are_consistent()
    ensures { DeadEndsAreConsistent }
{}

/// Consistent bounds are closed under their maximum.
pub fn greater_is_consistent()
    ensures { GreaterIsConsistent }
{}

/// The maximum of an estimate and any consistent bound is an estimate.
pub fn greater_is_estimate()
    ensures { GreaterIsEstimate }
{}

/// Two worked bounds: no step, and one step everywhere.
pub fn worked_bounds_hold()
    ensures nothing { NothingIsConsistent }
    ensures one { OneIsTooMany }
{}
