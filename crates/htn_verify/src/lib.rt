//! The verifier of plan files.
#![tactic(auto)]

mod arrangement;
mod details;
mod faults;
mod laws;
mod named;
mod placed_lines;
mod room;
mod verdict;
mod verifier;

pub use details::file_details;
pub use laws::{instances_by_tasks, runs_are_of_lines};
pub use room::room_cause;
pub use verdict::Verdict;
pub use verifier::verify;
