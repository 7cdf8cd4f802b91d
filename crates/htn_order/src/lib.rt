//! Closed orders on the nodes of a task network: which nodes must come before which others.
//!
//! An [`Order`] is a strict partial order on the positions of a network, closed under transitivity.
//! It is made from the ordering pairs of a network by [`close`], or by [`close_chain`] where the
//! list of nodes is ordered as it stands, and it follows a decomposition by [`Order::replaced`].
//! A total order in the sequence of the list takes no memory, and any other one a bit for each two
//! positions.
#![tactic(auto)]

mod bit_rows;
mod closure;
mod lanes;
mod order;
mod sequence;
mod words;

pub use closure::{OrderFault, close, close_chain};
pub use order::Order;
