//! Whether a word is the least finishing one of a task whose networks are totally ordered, by a table of calls in
//! frames.
//!
//! Where each node has a mask ([`Frames`]), a call is a node in the part of a state in the node's frame. A table of such
//! calls, values and a word ([`FramedProposal`]) may be found in any way. Each is checked in one pass ([`is_least`]):
//! each step and action reads and writes only what is in its frame; the rules of each call are those of its node in its
//! state; the calls are closed in the frames of their nodes; the calls in whole states, by which values and the way of
//! the word are checked, are lifted from them; no value is more than the estimate by these; and along the word each
//! lesser rank leads to where more steps are left, by the values, than the word has.
#![tactic(auto)]

mod check;
mod frames;
mod least;
mod looked;
mod masks;
mod parts;
mod proposal;
mod reads;
mod rules;
mod walk;
mod whole;

pub use frames::Frames;
pub use least::is_least;
pub use masks::{is_inside, lifted, united, within};
pub use proposal::{FramedProposal, Proposal};
