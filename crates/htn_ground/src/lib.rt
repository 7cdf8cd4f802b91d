//! The instances of a planning task's schemas, in their order and with their numbers, and the decomposition trees over
//! them.
#![tactic(auto)]

mod at_number;
mod by_network;
mod candidates;
mod child;
mod conditions;
mod counts;
mod dead;
mod distinct;
mod distinct_methods;
mod fixed;
mod ground_task;
mod instance;
mod instances;
mod literals;
mod methods;
mod narrowed;
mod network;
mod node;
mod object_list;
mod relation;
mod search;
mod shown;

pub use at_number::{initial_at, instance_at};
pub use child::{Child, ChildList};
pub use conditions::{Conditions, Place, initial_conditions, method_conditions};
pub use distinct_methods::{
    distinct_initials, distinct_live_methods_of, third_instance_is_dropped,
};
pub use ground_task::GroundTask;
pub use instance::Instance;
pub use instances::is_instance;
pub use literals::goal_literals;
pub use methods::{
    action_of, counted_live_methods_of, initial_instance, initials, live_methods_of,
    method_instance, methods_of,
};
pub use node::{Node, Solution};
pub use object_list::ObjectList;
pub use shown::{is_hidden, shown_parameters};
