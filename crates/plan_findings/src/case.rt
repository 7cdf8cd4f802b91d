//! A plan that is judged.

use hddl_words::{DomainText, ProblemText};
use htn_task::Task;
use plan_text::PlanFile;

/// A plan file with the task that it is for, and the trees of that.
#[derive(Clone, Copy, Drop)]
pub struct PlanCase<'a> {
    pub task: &'a Task,
    pub domain: &'a DomainText,
    pub problem: &'a ProblemText,
    pub file: &'a PlanFile,
}
