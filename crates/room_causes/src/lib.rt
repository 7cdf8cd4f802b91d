//! Why the lines of a plan file have no room: the deepest line that has none, and the conflict below it.
#![tactic(auto)]

mod actions;
mod cause;
mod conflict;
mod instances;
mod nodes;
mod order;
mod reading;
mod room;
mod unmet;

pub use cause::{Conflict, Node, OrderConflict, RoomCause, Unmet};
pub use room::room_cause_of;
