//! The picture of a plan file: its forest as rows from the top down.
#![tactic(auto)]

mod firsts;
mod laws;
mod order;
mod picture;
mod row;
mod walk;

pub use laws::{lines_have_one_row, outlines_are_forests, small_forest};
pub use picture::{Picture, picture_of};
pub use row::{MAX_BARS, Row};
pub use walk::children_at;
