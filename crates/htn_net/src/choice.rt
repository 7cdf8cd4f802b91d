//! What a number of a configuration stands for.

ghost use Rattle.std.specs.Prelude.{◌≡◌};
ghost use Rattle.htn_walk.specs.declared.change.Change.TheVariants.{Performed};

use htn_task::State;
use htn_walk::Change;
use std::sync::Arc;

/// The choice of a number in a configuration: the open node that it chooses, and the change that the step makes there.
#[derive(Drop)]
pub struct Choice {
    /// The number of the instance among those of the first free compound task; or, where no compound
    /// task is free, that of the node among the free ones.
    pub number: u64,
    /// The position of the node among the open ones.
    pub position: usize,
    pub change: Change,
}

impl Choice {
    /// Its number. It takes no memory.
    pub fn number(&self) -> u64
        ensures { result ≡ self.now.number }
    {
        self.number
    }
}

/// A free step or action is carried out.
#[derive(Drop)]
pub(crate) struct Performance {
    /// Its number among the free nodes.
    pub(crate) number: u64,
    /// Its position among the open nodes.
    pub(crate) position: usize,
    /// The state afterwards.
    pub(crate) state: Arc<State>,
}

impl Performance {
    pub(crate) fn into_choice(self) -> Choice
        ensures { result ≡ record { number = self.number; position = self.position; change = Performed self.state } }
    {
        Choice {
            number: self.number,
            position: self.position,
            change: Change::Performed(self.state),
        }
    }
}
