//! The task decomposition graph of a planning task (Bercher, Behnke, Höller and Biundo, An Admissible HTN Planning
//! Heuristic, 2017): its ground tasks, actions and precondition steps, and how compound tasks decompose into them.
//!
//! A [`TaskGraph`] numbers nodes in the order in which they are found, equal ones once: first those of the initial
//! networks, then those of the decompositions of each compound task in turn. An action is ground as soon as it has an
//! id. Of a compound task all decompositions are listed or none: the networks of its instances that are live, of equal
//! ones the first, but for those with an action that is never carried out.
//!
//! [`TaskGraph::extend`] lists further compound tasks, in the order of their ids, up to a limit on what all listed ones
//! take together. It continues where the last call ended: ids stay valid, and nothing is listed twice.
#![tactic(auto)]

mod decomposition;
mod extend;
mod graph;
mod grounding;
mod grow;
mod node_id;

pub use decomposition::Decomposition;
pub use extend::enumerate;
pub use graph::TaskGraph;
pub use node_id::NodeId;
