//! Warnings of a domain and a problem by their texts: what is never used, and what is said twice.
#![tactic(auto)]

mod effects;
mod first;
mod known;
mod laws;
mod messages;
mod objects;
mod order;
mod parameters;
mod parts;
mod predicates;
mod report;
mod spots;
mod tasks;
mod tell;
mod types;
mod warning;

pub use laws::worked_examples_hold;
pub use messages::{warning_diagnostic, warning_diagnostics};
pub use report::{other_domain, warnings_of};
pub use warning::{Warning, WarningKind};
