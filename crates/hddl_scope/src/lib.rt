//! Names and variables as they are compared, those that occur twice or are too many, and the variables in force.
#![tactic(auto)]

mod distinct;
mod findings;
mod in_force;
mod limits;
mod lists;
mod mention;
mod numbers;
mod ranks;
mod repeated;
mod scope;

pub use distinct::past_distinct;
pub use findings::Findings;
pub use in_force::Scope;
pub use limits::{MOST_DECLARATIONS, MOST_PARAMETERS, MOST_SUBTASKS, first_past};
pub use lists::{method_names, names_in, predicate_names, task_names, types_in, variables_in};
pub use mention::Mention;
pub use numbers::Numbers;
pub use ranks::in_order;
pub use repeated::repeats;
pub use scope::{Declared, parameters};
