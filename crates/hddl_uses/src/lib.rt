//! Every use of a name is checked against what is declared: types, atoms, tasks, arguments, conditions and networks.
#![tactic(auto)]

mod arguments;
mod conditions;
mod context;
mod cycles;
mod declared;
mod labels;
mod mentions;
mod networks;
mod quantifiers;
mod signatures;
mod types;
mod uses;

pub use conditions::check_conditions;
pub use context::Context;
pub use declared::Declarations;
pub use mentions::{check_different, check_limit};
pub use networks::check_network;
pub use quantifiers::{check_count, check_repeats};
pub use types::{check_name_types, check_variable_types};
pub use uses::{check_atoms, check_constraints, check_decomposed, check_effects, check_tasks_used};
