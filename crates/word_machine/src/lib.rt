//! The least finishing word of a word machine, by a search in levels or by a certificate.
//!
//! A level is expanded by several workers: the answer is that of one worker who expands it in order. Workers draw the
//! pieces of a level from a [`Desk`], each number once, and report there the places at which they found something; the
//! least place reported is seen by all.
#![tactic(auto, using(std::proofs::lemmas::Grind::common_steps))]

mod advance;
mod bounds;
mod certificate;
mod chain;
mod closed;
mod deepen;
mod desk;
mod dive;
mod edge;
mod expand;
mod fault;
mod found;
mod growth;
mod in_order;
mod level_merge;
pub mod machine;
mod measure;
mod merge;
mod overshoots;
mod piece;
mod search;
mod steps;
mod threads;
mod view;
mod watch;
mod word;
mod work;
mod worker;
mod workers_level;

pub use bounds::Bounds;
pub use certificate::{certificates_hold, worked_certificate_holds};
pub use chain::Chain;
pub use closed::{Measured, Origin, Successor};
pub use deepen::{Effort, find_word_deepening, find_word_in, find_word_watched};
pub use desk::{Closed, Desk, Pass};
pub use fault::LevelFault;
pub use found::{Ending, Found, SearchFault};
pub use in_order::{Expanded, expand_in_order};
pub use machine::Machine;
pub use measure::{Horizon, Measure};
pub use search::find_word;
pub use watch::{News, NoWatch, Watch};
pub use work::{Expand, Gate, NoGate};
pub use worker::Level;
pub use workers_level::{ExpandedLevel, expand_level};
