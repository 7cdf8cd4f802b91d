//! The search for a task's least solution, and the solution of a word.
#![tactic(auto)]

mod answer;
mod chosen;
mod solution;
mod solve;
mod walk;

pub use answer::{Answer, Known};
pub use htn_net::{finishes, rebuild};
pub use solve::{find_word, search, search_watched, search_with_tables};
pub use word_machine::{Bounds, Found, Gate, News, NoGate, NoWatch, SearchFault, Watch};
