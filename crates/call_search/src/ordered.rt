//! Whether networks are totally ordered.

use htn_order::Order;
use htn_task::{NetworkSchema, Task};

/// Whether each subtask of a network is before all later ones.
fn is_ordered(network: &NetworkSchema) -> bool {
    *network.order() == Order::chain(network.subtasks().len())
}

/// Whether all networks of a task are totally ordered. Calls are looked for only then; nothing else rests on it.
pub(crate) fn are_ordered(task: &Task) -> bool {
    for method in task.methods() {
        if !is_ordered(method.network()) {
            return false;
        }
    }
    is_ordered(task.initial_network().network())
}
