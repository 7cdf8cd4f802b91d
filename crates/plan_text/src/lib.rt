//! Plan texts: the plan of a hierarchical task network as the hierarchical track of the International Planning
//! Competition 2020 writes it, read and written, and whether its lines are a forest.
#![tactic(auto)]

mod cut;
mod draft;
mod fault;
mod forest;
mod forest_laws;
mod ids;
mod laws;
mod line;
mod number;
mod out;
mod piece;
mod places;
mod plan_file;
mod reader;
mod walk;
mod word;
mod writer;

pub use cut::MAX_BYTES;
pub use fault::PlanFault;
pub use forest::{Forest, forest_of};
pub use forest_laws::forests_are_trees;
pub use laws::{one_file, reads_back};
pub use out::{Out, Sink};
pub use places::{LinePlaces, line_places};
pub use plan_file::{ActionLine, DecompositionLine, PlanFile};
pub use reader::read_plan;
pub use word::Word;
pub use writer::{WriteFault, put_all, write_plan};
