//! Checked planning tasks: the declarations of a domain and a problem, by numbers, and the ground atoms, the literals
//! and the states that they speak of.
#![tactic(auto)]

mod action;
mod atom;
mod dead;
mod fluents;
mod formula;
mod literal;
mod merge;
mod name;
mod numbers;
mod schema;
mod state;
mod task;
mod task_numbers;
mod term;
mod type_uses;

pub use action::Action;
pub use atom::Atom;
pub use formula::{Formula, FormulaList};
pub use literal::{Literal, LiteralList};
pub use name::Name;
pub use schema::{ActionSchema, InitialSchema, MethodSchema, NetworkSchema};
pub use state::State;
pub use task::{Declaration, ObjectType, Task, TaskParts};
pub use term::{AtomSchema, EqualitySchema, TaskSchema, Term, TermList};
pub use type_uses::named_types;
