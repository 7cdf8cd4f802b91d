//! What the runs of `htnplan` answer, and the runs that do not search: from the bytes of texts to the bytes of a plan's
//! verdict, of the report of a check, of an explanation or of a picture.
#![tactic(auto)]

mod caption;
mod check;
mod details;
mod explain;
mod explanation;
mod inputs;
mod judge;
mod laws;
mod outcome;
mod page;
mod sight;
mod text_lines;
mod texts;
mod tree;
mod verdict;

pub use check::run_check;
pub use check_report::{Finding, Format, Input, Options};
pub use explain::{Explained, run_explain};
pub use htn_command::Drawing;
pub use htn_plan::{Out, Sink, Verdict};
pub use judge::run_verify;
pub use laws::{
    answers_are_unique, answers_exist, faulty_texts_have_no_answer, faulty_texts_have_no_verdict,
    named_faults_are_listed_first, plans_are_valid, verdicts_are_unique, verdicts_exist,
};
pub use outcome::{Outcome, RunFault, Watched};
pub use plan_report::ReportStyle;
pub use texts::task_of;
pub use tree::{Drawn, Look, run_tree};
pub use verdict::{put_id, write_verdict};
