//! The least finishing word of a totally ordered task, where a table of its calls shows it.
#![tactic(auto)]

mod calls;
mod ordered;
mod trial;
mod watch;

pub use calls::Calls;
pub use watch::CallWatch;
