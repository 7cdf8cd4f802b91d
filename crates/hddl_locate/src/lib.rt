//! The items of a domain or a problem at a place: names, variables and arguments that begin there, and the last
//! declaration, condition or subtask that doesn't begin after it.
#![tactic(auto)]

mod locate;

pub use locate::{
    action_by, argument_at, atom_by, condition_by, equality_by, literal_by, method_by, name_at,
    ordering_by, predicate_by, subtask_by, task_by, term_place, typed_name_at, typed_or_type_at,
    typed_variable_at,
};
