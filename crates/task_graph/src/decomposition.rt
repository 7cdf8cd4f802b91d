//! Decompositions of compound tasks.

use crate::node_id::NodeId;
use htn_ground::ChildList;
use htn_order::Order;

/// One way to decompose a compound task: the network of an instance of one of its methods.
pub struct Decomposition {
    /// The compound task.
    pub task: NodeId,
    /// The ids of the network's nodes, in their order.
    pub nodes: Vec<NodeId>,
    /// The nodes themselves.
    pub children: ChildList,
    /// Which nodes are before which others.
    pub order: Order,
}

impl Drop for Decomposition {
    fn drop(self) {
        let Decomposition {
            task: _,
            nodes: _,
            children: _,
            order: _,
        } = self;
    }
}
