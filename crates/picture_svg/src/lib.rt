//! Pictures of plan files as SVG.
#![tactic(auto)]

mod as_svg;
mod columns;
mod escape;
mod laws;
mod layout;
mod middles;
mod numbers;
mod shapes;
mod style;
mod widths;

pub use as_svg::svg;
pub use laws::{layouts_are_clear, layouts_are_one, svg_is_tame, words_are_text};
pub use layout::{Area, Edge, Layout, layout_of};
