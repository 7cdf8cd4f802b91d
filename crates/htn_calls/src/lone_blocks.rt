//! The blocks of networks: the parts into which a network is cut wherever all nodes before are before all nodes after. A
//! totally ordered network has one for each node. Each function here is a law, with an empty body.

ghost use Rattle.htn_calls.specs.Ordered.{LoneReplaced, OrderedSplit};

/// The blocks of a totally ordered network are its nodes, each alone.
pub fn ordered_networks_split()
    ensures { OrderedSplit }
{}

/// Where one node alone is open, a network in its place is all that is open then.
pub fn lone_nodes_are_replaced()
    ensures { LoneReplaced }
{}
