//! Whether the lines of a plan file have room below one another, from gap to gap of its action lines.
#![tactic(auto)]

mod below;
mod bound;
mod deepest;
mod ends;
mod finder;
mod fits;
mod frames;
mod guess;
mod lines;
mod links;
mod matching;
mod memo;
mod places;
mod rooms;
mod sequence;
mod standing;
mod window;

pub use below::takes_line;
pub use deepest::deepest_without_room;
pub use ends::Ends;
pub use finder::{PlacedLine, find_places};
pub use fits::forest_fits;
pub use frames::children_of;
pub use lines::PlanLines;
