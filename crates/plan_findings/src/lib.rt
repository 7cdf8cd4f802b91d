//! The findings behind a plan file's verdict: numbers of lines, literals that are false, and the changes of its run.
#![tactic(auto)]

mod atoms;
mod case;
mod cause;
mod conditions;
mod counts;
mod literals;
mod reached;
mod run;
mod tasks;

pub use atoms::{core_text as literal_core, literal_text};
pub use case::PlanCase;
pub use cause::{run_reason, structure_reason};
pub use conditions::precondition_places;
pub use counts::{counts_of, has_step};
pub use run::run_of;
pub use tasks::action_tasks;
