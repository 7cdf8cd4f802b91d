//! The findings about a task.

use crate::usable::Usable;
use htn_task::Literal;

/// Why a task has no plan of any size.
#[derive(Drop)]
pub enum NoPlan {
    /// This literal of the goal is never so.
    Goal(Literal),
    /// Nothing carries out the subtask of the initial network at this place, which names no parameter.
    Subtask(usize),
    /// Each initial network has a node that nothing carries out, or there is none.
    Initial,
}

/// Why no plan uses a method or an action, by the tasks and actions that are reachable from the initial networks before
/// any are removed.
#[derive(Clone, Copy)]
pub enum Cause {
    /// It follows from what else no plan uses.
    Follows,
    /// Its task arises, and its parameters have no values for that.
    NoInstance,
    /// The literal at this place of its precondition is never so in any of its instances, which are counted.
    Literal { place: usize, instances: usize },
    /// In each of its instances some literal is never so.
    EachInstance { instances: usize },
}

/// A method or an action that no plan uses.
#[derive(Clone, Copy)]
pub struct Unused {
    /// Its place among the task's methods, or among its actions.
    pub place: usize,
    pub cause: Cause,
}

/// The methods and actions that no plan of a task uses, whatever its size.
pub struct Findings {
    /// Why there is no plan; none where there may be one.
    pub no_plan: Option<NoPlan>,
    /// Methods that no plan uses, of tasks that some network has as a subtask.
    pub methods: Vec<Unused>,
    /// Actions that no plan uses, and that some network has as a subtask.
    pub actions: Vec<Unused>,
    /// The tasks, actions and methods that a plan may use.
    pub usable: Usable,
    /// The number of atoms that may be true, each on its own.
    pub facts: usize,
}

impl Drop for Findings {
    fn drop(self) {
        let Findings {
            no_plan: _,
            methods: _,
            actions: _,
            usable: _,
            facts: _,
        } = self;
    }
}
