//! The planning task of a domain and a problem that fit together.
#![tactic(auto)]

mod formula;
mod labels;
mod network;
mod number;
mod objects;
mod schema;
mod scope;
mod state;
mod task;
mod term;
mod types;

pub use task::build;
