//! Diagnostics of a text that spells no domain or no problem, each at a column that is the same number for all who
//! count.
#![tactic(auto)]

mod brackets;
mod candidates;
mod columns;
mod grammar;
mod instead;
mod message;
mod near;
mod noted;
mod said;
mod spots;
mod words;

pub use columns::columns_agree;
pub use message::text_diagnostic;
