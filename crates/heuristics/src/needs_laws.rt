//! Laws of outlooks: what a search may conclude from one.
ghost use Rattle.heuristics.specs.NeedsBounds.{NeedsAreBounds};
ghost use Rattle.heuristics.specs.Chains.{ChainsNeed};
ghost use Rattle.heuristics.specs.Needs.{NeedsStay};

/// A configuration of which a need is false never ends: so it is with each successor, and it is not done.
pub fn needs_stay()
    ensures { NeedsStay }
{}

/// The bounds by a lower measure and an outlook are lower bounds on the steps that are left.
pub fn needs_are_bounds()
    ensures { NeedsAreBounds }
{}

/// With a node before all others, a totally ordered network needs the wants of that node, and those needs of the others
/// that the node does not give.
pub fn chains_need()
    ensures { ChainsNeed }
{}
