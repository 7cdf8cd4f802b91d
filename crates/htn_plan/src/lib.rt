//! The plan file of a solution: the file that the plan writer prints.
#![tactic(auto)]

mod actions;
mod compounds;
mod file;
mod ids;
mod lines;
mod names;
mod preorder;

pub use file::file_of;
pub use htn_verify::{Verdict, verify};
pub use plan_text::{
    ActionLine, DecompositionLine, MAX_BYTES, Out, PlanFault, PlanFile, Sink, Word, WriteFault,
    one_file, put_all, read_plan, reads_back, write_plan,
};
