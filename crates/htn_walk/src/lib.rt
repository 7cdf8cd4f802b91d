//! The word machine of a planning task by its laws, and walks along its words.
//!
//! A search over the word machine of a task's problem answers the problem ([`found_answers`]), also where the machine
//! has fewer numbers ([`fewer_numbers_suffice`]). A [`Walk`] follows a finishing word and records what each number
//! chooses; from that the solution of the word is built backwards ([`grow_back`]).
#![tactic(auto)]

mod answer;
mod change;
mod front;
mod places;
mod trail;
mod walk;

pub use answer::{fewer_numbers_suffice, found_answers, machine_is_lawful};
pub use change::Change;
pub use front::Front;
pub use trail::{Move, grow_back};
pub use walk::{Walk, start_walk};
