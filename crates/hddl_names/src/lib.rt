//! The names of a domain and a problem with their numbers, and the types that the names have.
#![tactic(auto)]

mod closure;
mod condensed;
mod declared_types;
mod edges;
mod hierarchy;
mod intervals;
mod members;
mod names;
mod number_set;
mod pairs;
mod ranks;
mod reach;
mod rows;
mod text;
mod vocabulary;

pub use declared_types::DeclaredTypes;
pub use hierarchy::TypeHierarchy;
pub use members::ObjectsByType;
pub use names::Names;
pub use text::{Folded, Kept, fold, fold_into, fold_to_vec};
pub use vocabulary::Vocabulary;
