//! Diagnostics of the faults of a domain and a problem, and counts of the declarations of the two.
#![tactic(auto)]

mod advice;
mod arguments;
mod around;
mod asked;
mod clashes;
mod compared;
mod cycle;
mod declared;
mod duplicates;
mod firsts;
mod fits;
mod index;
mod known;
mod limits;
mod listed;
mod names;
mod near;
mod notes;
mod objects;
mod orders;
mod pair;
mod phrases;
mod places;
mod remarks;
mod spoken;
mod stands;
mod summary;
mod texts;
mod twins;
mod types;
mod variables;
mod walks;

pub use hddl_meaning::{At, CheckFault};
pub use index::PairIndex;
pub use pair::pair_diagnostic;
pub use phrases::push_count;
pub use summary::{domain_summary, problem_summary};
pub use texts::{PairTexts, spot_of};
