//! The word machine of a planning task over numbered states and networks.
#![tactic(auto)]

mod configuration;
mod expand;
mod instances;
mod listing;
mod machine;
mod performer;
mod prepare;
mod prepare_all;
mod slots;
mod tables;

pub use configuration::{Configuration, Reached};
pub use listing::{Listing, Source};
pub use machine::TaskMachine;
pub use performer::Performer;
pub use tables::Tables;
