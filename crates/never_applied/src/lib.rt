//! What no plan of a task uses, whatever its size, and whether it has a plan at all, by relaxed reachability.
//!
//! What a plan may use arises from the initial networks. Of that, each fact is taken on its own: an action whose
//! preconditions may all be true makes its effects possible, a step or an action with an impossible literal is never
//! carried out, and a compound task ends only where all nodes of an instance do. Less arises without the nodes that
//! never end, and of that less again is possible, until nothing more falls away. How this is found is not proved: it is
//! checked. Nor are the causes ([`Cause`], [`NoPlan`]) part of any contract.
#![tactic(auto)]

mod answer;
mod ends;
mod facts;
mod find;
mod fine;
mod no_plan;
mod right;
mod stages;
mod tallies;
mod tally;
mod unused;
mod usable;

pub use answer::{Cause, Findings, NoPlan, Unused};
pub use stages::find_unused;
pub use usable::Usable;
