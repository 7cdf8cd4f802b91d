//! The command line of `htnplan`: what its words ask for.
#![tactic(auto)]

mod choice;
mod laws;
mod misuse;
mod refusal;
mod request;

pub use choice::{Colour, Drawing};
pub use diagnostics::Format;
pub use laws::{requests_are_unique, worked_lines_hold};
pub use refusal::Refusal;
pub use request::{Request, parse};
