//! Heuristics of a planning task: lower bounds on the steps that a word must still have, and which configurations never
//! finish. What a heuristic is stands in `specs/Heuristic`, and each bound is a module, found without proof and checked
//! over the task decomposition graph.
//!
//! [`TreeSizes`], minimum decomposition sizes, are a measure on nodes: a precondition step and an action count 1, and a
//! compound task no more than 1 and what the nodes of any of its decompositions count together. The sum over the open
//! nodes of a configuration is then a lower bound on the steps that are left ([`measures_are_bounds`]).
//!
//! [`RelaxedReach`] says which literals may become true in the delete relaxation, each fact on its own: an action whose
//! preconditions may all be true makes its effects possible, and an atom that becomes false may still be true. An
//! action or a precondition step with an impossible literal is never carried out, and a compound task each of whose
//! instances has such a node never ends ([`reach_stays`]). In a reachable configuration its nodes alone decide whether
//! it may end ([`reached_stays`]). Only fluent atoms are listed.
//!
//! [`Needs`] are necessary conditions of task networks. A node *wants* the literals that have to hold at some time
//! before it has ended, and *gives* the literals that may become true through it. A network *needs* a literal, which
//! has to hold initially, if some node wants it and no other node that may come before gives it, or if the goal wants
//! it and no node gives it. A configuration in which a need is false never ends, and neither does any after it
//! ([`needs_stay`]).
//!
//! [`Prospects`] join reach and needs. A [`NeedsTable`] stores the needs of each numbered network as compiled literals,
//! so a test of a state decides whether a configuration may end. The row of a node, its wants and whether it never
//! ends, are found once for each numbered node, and a network's needs are derived from those of its nodes. The needs of
//! a totally ordered network are derived from its first node and the needs of the network of the others.
//!
//! A further bound joins the others by [`greater_is_estimate`]: its module proves that it is consistent or, where it
//! finds configurations that never finish, that these are dead ends ([`dead_ends_are_consistent`]).
#![tactic(auto)]

mod chained;
mod facts;
mod find_needs;
mod find_reach;
mod given;
mod keep_up_all;
mod laws;
mod least_sizes;
mod leaves;
mod marks;
mod needed;
mod needed_literals;
mod needs;
mod needs_check;
mod needs_laws;
mod needs_of;
mod needs_table;
mod node;
mod places;
mod prospects;
mod prospects_laws;
mod reach;
mod reach_check;
mod reach_laws;
mod reach_of;
mod rows;
mod sizes_check;
mod sizes_laws;
mod tasks;
mod tree_sizes;
mod want_table;
mod wants;

pub use given::Given;
pub use laws::{
    consistent_is_admissible, dead_ends_are_consistent, greater_is_consistent, greater_is_estimate,
    open_nodes_are_consistent, worked_bounds_hold,
};
pub use needs::Needs;
pub use needs_laws::{chains_need, needs_are_bounds, needs_stay};
pub use needs_table::NeedsTable;
pub use places::Place;
pub use prospects::Prospects;
pub use prospects_laws::prospects_hold;
pub use reach::RelaxedReach;
pub use reach_laws::{reach_examples_hold, reach_stays, reached_stays};
pub use sizes_laws::{measures_are_bounds, states_last};
pub use task_graph::enumerate;
pub use tree_sizes::TreeSizes;
