//! Why a plan file has its verdict, as errors of its text, of the domain's and of the problem's, at the words of its
//! lines.
#![tactic(auto)]

mod counts;
mod errors;
mod explained;
mod lines;
mod mentions;
mod numbers;
mod placed_plan;
mod run_errors;
mod saying;
mod sighting;
mod since;
mod single;
mod structure;
mod texts;
mod words;

pub use counts::counts_line;
pub use explained::explanation;
pub use lines::run_lines;
pub use mentions::{Mention, definitions, listings};
pub use pair_messages::PairTexts;
pub use placed_plan::PlacedPlan;
pub use sighting::{Sighting, sightings};
pub use texts::PlanTexts;
pub use words::{word_from, words_from};
