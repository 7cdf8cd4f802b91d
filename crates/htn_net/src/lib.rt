//! The plain program that says what the word machine of a planning task is: configurations with their choices and their
//! steps, one number at a time; whether a word finishes, and the solution of one that does.
//!
//! Callers and tests use it. The search steps over numbered states and networks, and calls nothing of this but for
//! [`word_of_ranks`], by which a word that it found is told in a task's own numbers.
#![tactic(auto)]

mod choice;
mod choices;
mod config;
mod finish;
mod numbers;
mod perform;
mod rebuilding;
mod splice;
mod start;
mod step;

pub use choice::Choice;
pub use config::Config;
pub use finish::finishes;
pub use htn_walk::{Change, fewer_numbers_suffice, found_answers, machine_is_lawful};
pub use numbers::word_of_ranks;
pub use rebuilding::rebuild;
