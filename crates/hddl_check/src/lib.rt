//! Checks that a domain and a problem fit together.
#![tactic(auto)]

mod cycles;
mod declarations;
mod faults;
mod objects;
mod pair;
mod schemas;
mod shape;

pub use hddl_meaning::{At, CheckFault, Source};
pub use hddl_words::{DomainText, ProblemText};
pub use htn_task::Task;
pub use pair::{all_faults, check, named_faults_are_unique};
