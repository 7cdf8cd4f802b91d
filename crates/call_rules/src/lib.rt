//! The rules by which the nodes of a task's totally ordered networks step, and the bounds by tables of calls over these
//! rules, of whole states or in frames. The definitions are in `specs/`; each function here is a law about them, with
//! an empty body.
#![tactic(auto)]

mod frames;
mod laws;

pub use frames::{
    framed_numbers_bound, framed_values_below, frames_lift, lifted_below, nodes_are_local,
    rules_are_local, states_have_parts, worked_frames_hold,
};
pub use laws::{
    listing_steps, lone_rules_hold, measures_bound, numbers_bound, tables_bound, values_bound,
    walks_are_ordered,
};
