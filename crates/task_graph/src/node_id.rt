//! Ids of nodes.
ghost use Rattle.std.specs.Prelude.{◌≡◌, Some};
ghost use Rattle.std.specs.Option.{option_map};
ghost use Rattle.task_graph.specs.Ids.{small_id};

/// The id of a node of a task graph: its place in the order in which nodes were found.
#[derive(Clone, Copy, PartialEq, Eq, Debug)]
pub struct NodeId {
    pub index: u32,
}

impl NodeId {
    /// The id of the node at a place; none past 2^32.
    pub(crate) fn at(place: usize) -> Option<NodeId>
        ensures { option_map (λ i. i.index) result ≡ small_id (Some place) }
    {
        match u32::try_from(place) {
            Ok(index) => Some(NodeId { index }),
            Err(_) => None,
        }
    }
}
