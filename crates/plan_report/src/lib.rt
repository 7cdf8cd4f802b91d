//! Why a plan has its verdict, or why its text is refused, as the bytes of a report.
#![tactic(auto)]

mod arrangement;
mod cause;
mod children;
mod faults;
mod line;
mod message;
mod reason;
mod report;
mod schemas;
mod search;
mod shorter;
mod spots;
mod unmet;
mod words;

pub use plan_messages::{PairTexts, PlacedPlan, PlanTexts};
pub use report::{ReportStyle, explain, explain_fault};
