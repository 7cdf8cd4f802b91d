//! What relaxed reachability is good for.
ghost use Rattle.heuristics.specs.ReachExamples.{BlockedNodesStay, FactsAreApart, ReachedAreApart};
ghost use Rattle.heuristics.specs.Reach.{ReachStays, ReachedStays};

/// Where a configuration has a node that never ends, among known nodes and in a state within the facts, each
/// configuration after it has one too, and none of them is done.
pub fn reach_stays()
    ensures { ReachStays }
{}

/// A live step from a configuration that may be reached leads to one that may be; and whether such a configuration may
/// end is determined by its nodes alone.
pub fn reached_stays()
    ensures { ReachedStays }
{}

/// The definitions on small examples.
pub fn reach_examples_hold()
    ensures facts { FactsAreApart }
    ensures nodes { BlockedNodesStay }
    ensures reached { ReachedAreApart }
{}
