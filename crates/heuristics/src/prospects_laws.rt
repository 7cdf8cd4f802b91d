//! Laws of prospects: what a search may conclude from them.
ghost use Rattle.heuristics.specs.Prospects.{AllProspectsHold};

/// The bounds by prospects are lower bounds on the steps that are left, and where a configuration may be reached, its
/// nodes and its state determine whether it may end.
pub fn prospects_hold()
    ensures { AllProspectsHold }
{}
