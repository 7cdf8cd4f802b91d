//! What is found of the lines of a valid plan file (which instance of its method each is, and how many actions come
//! before each precondition step), and whether it is right, line by line.
#![tactic(auto)]

mod certificate;
mod details;
mod entry;
mod instances;
mod laws;
mod placing;
mod room;

pub use certificate::is_certificate;
pub use details::{Entries, checked, find_details};
pub use entry::Entry;
pub use laws::{
    certificates_decide, certificates_fit, lines_are_detailed, valid_files_have_details,
    worked_details_hold,
};
