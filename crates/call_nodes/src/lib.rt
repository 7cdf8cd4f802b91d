//! The nodes of totally ordered networks by number, with what each does, and lists of nodes by number.
//!
//! Where each network is totally ordered, what is open is a list of nodes, of which the first is free. [`CallNodes`]
//! numbers nodes and lists of nodes as they are met, equal ones once. Of each node it knows the [`Operator`]: an
//! action and a precondition step are compiled to numbers of atoms, and the instances of a compound task are listed
//! when they are asked for. A list is a node before another list, so that lists share their ends.
#![tactic(auto)]

mod call_nodes;
mod cell;
mod list_table;
mod operator;

pub use call_nodes::CallNodes;
pub use list_table::ListTable;
pub use operator::Operator;
