//! `htnplan` as a library: from the bytes of a domain and a problem, and of a plan to be verified, explained or drawn, or
//! from the words of a command line, to the bytes of the answer.
#![tactic(auto)]

mod answer;
mod clock;
mod explain_files;
mod fault_line;
mod laws;
mod line;
mod plan_files;
mod process;
mod progress;
mod reply;
mod run;
mod source;
mod stop;
mod tree_files;
mod words;

pub use fault_line::write_fault;
pub use htn_review::{
    Drawing, Drawn, Explained, Finding, Format, Input, Look, Options, Out, Outcome, ReportStyle,
    RunFault, Sink, Verdict, Watched, answers_are_unique, answers_exist,
    faulty_texts_have_no_answer, faulty_texts_have_no_verdict, plans_are_valid, run_check,
    run_explain, run_tree, run_verify, verdicts_are_unique, verdicts_exist,
};
pub use htn_search::{Bounds, Gate, News, NoGate, NoWatch, Watch};
pub use laws::quiet_requests_show_nothing;
pub use process::{ProcessFault, flush, wants_colour, words_of};
pub use run::{run_plan, run_task, run_task_watched};
pub use source::{Disk, MAX_BYTES_READ, ReadFault, Source};
pub use words::run_words;
