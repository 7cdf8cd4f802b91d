//! What a step does at the node that its number chooses.

use htn_ground::Instance;
use htn_task::State;
use std::sync::Arc;

/// The change that a step makes at the node that its number chooses.
#[derive(Drop)]
pub enum Change {
    /// A compound task is decomposed: the nodes of this instance take its place.
    Decomposed(Instance),
    /// A precondition step or an action is carried out: it leaves the network, and this is the state afterwards.
    Performed(Arc<State>),
}
