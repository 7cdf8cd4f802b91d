//! Tables of calls by numbers, and what is checked of a call by itself.
//!
//! A call is a block of a task network that begins in a state. A [`CallTable`] lists for some calls in which states
//! they end and at what cost ([`Exit`]), and below which number of steps they end nowhere else (the floor). Whether
//! lists of blocks are met by a call's places is looked up ([`is_met`]). Lists of blocks have numbers ([`BlockLists`]),
//! and share their ends. Values of lists in states, which may be found in any way, are checked to be estimates by the
//! table ([`are_estimates`]), and looked up ([`value_of`]).
#![tactic(auto)]

mod call;
mod estimates;
mod follow;
mod lists;
mod maps;
mod site;

pub use call::{Call, CallTable, Exit, Place, Rule};
pub use estimates::{are_estimates, value_of};
pub use follow::{are_exits_met, are_rules_met, covers, is_met};
pub use lists::{BlockLists, Link};
pub use maps::{exits_of, places_of};
pub use site::Site;
