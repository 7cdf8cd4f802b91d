//! The report of `check`: from the bytes of a domain, and of a problem if there is one, to all that is wrong with them
//! and to what no plan of them uses.
#![tactic(auto)]

mod alone;
mod arguments;
mod causes;
mod goal;
mod order;
mod pair;
mod reach;
mod reach_summary;
mod reach_warnings;
mod read;
mod report;
mod schemas;
mod summary;
mod tell;
mod texts;
mod warnings;

pub use diagnostics::Format;
pub use report::{Checked, Finding, Options};
pub use texts::{Input, check_texts};
