//! Task networks by numbers, and the successors of each in a search.
//!
//! A [`ChildTable`] gives each node a number, and a [`NetworkTable`] each network of such numbers with its order;
//! totally ordered networks share their nodes ([`Entry`]). By its number a network has its count of nodes, the sum of a
//! bound on its nodes and, once it is found, its [`Expansion`]: the networks in which an instance replaces the first
//! free compound task or, where none is free, those without one of the free nodes. An expansion is the same in every
//! state, so it is found once.
#![tactic(auto)]

mod assemble;
mod child_table;
mod draft;
mod expand;
mod expand_all;
mod expansion;
mod interner;
mod keep_all;
mod laws;
mod made;
mod network;
mod network_set;
mod notes;
mod table;

pub use child_table::ChildTable;
pub use draft::Job;
pub use expansion::{Expansion, Removal};
pub use laws::{numbers_differ, numbers_stay, replaces_as_model};
pub use network::Network;
pub use network_set::{Entry, Link};
pub use table::NetworkTable;
