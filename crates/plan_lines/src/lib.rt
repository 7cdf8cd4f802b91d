//! The lines of plan files: the tasks that their words name, the run of their actions, and the instances that their
//! children show, or why an action line has none.
#![tactic(auto)]

mod action;
mod allowed_values;
mod cause;
mod children;
mod completing;
mod completion;
mod course;
mod ever;
mod ever_true;
mod fitting;
mod given;
mod history;
mod instances;
mod joining;
mod matching;
mod names;
mod search;
mod words;

pub use action::action_cause;
pub use allowed_values::AllowedValues;
pub use cause::WordsCause;
pub use course::{Outcome, run};
pub use ever_true::EverTrue;
pub use fitting::{initials_to_fit, instances_to_fit};
pub use history::Turns;
pub use instances::{has_initial, has_instance};
pub use names::{Names, task_named};
pub use words::typed_task;
