//! Finds a table of calls in frames, bounds by it, and a word that is likely the least one that finishes, of a task
//! whose networks are totally ordered.
//!
//! There a configuration is a state and a list of nodes, and what happens inside the first node has nothing to do
//! with the nodes behind it. So a node that begins in a state is a *call*: what it can do is explored once, whoever
//! calls, as compilers summarise procedures and parsers chart phrases. A call is in the part of the state in the
//! node's frame, the atoms that it, or anything below it, reads or writes: what it never looks at makes no other call.
//! The search is best first by the least steps of a word through an item ([`Finder`]). Values and the word are of whole
//! states, and rest on calls that are lifted to them. Nothing that it finds is proved: who takes it checks it.
#![tactic(auto)]

mod chart;
mod components;
mod find;
mod found;
mod masks;
mod parts;
mod reads;
mod table;
mod trail;
mod values;
mod whole;

pub use chart::Progress;
pub use find::Finder;
pub use found::{Found, OUT_OF_REACH};
