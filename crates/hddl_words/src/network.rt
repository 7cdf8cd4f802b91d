//! Task networks.

use crate::condition::EqualityText;
use crate::items::Items;
use crate::name::Name;
use crate::term::AtomText;

/// A subtask of a network.
#[derive(Debug)]
pub struct SubtaskText {
    /// Its name for `:ordering`, as `s1` in `(s1 (go t1 c))`.
    pub label: Option<Name>,
    /// The task or action with its arguments.
    pub task: AtomText,
}

impl Drop for SubtaskText {
    fn drop(self) {
        let SubtaskText { label: _, task: _ } = self;
    }
}

/// The subtask that has the first name comes before the one that has the second.
#[derive(Debug)]
pub struct OrderingText {
    pub before: Name,
    pub after: Name,
}

impl Drop for OrderingText {
    fn drop(self) {
        let OrderingText {
            before: _,
            after: _,
        } = self;
    }
}

/// The network of a method or of `:htn`. What isn't written is empty.
#[derive(Debug)]
pub struct NetworkText {
    /// Whether the order of the list is an order of the subtasks too, as under `:ordered-subtasks` and
    /// `:ordered-tasks`.
    pub is_ordered: bool,
    pub subtasks: Items<SubtaskText>,
    /// The pairs of `:ordering` or `:order`.
    pub orderings: Items<OrderingText>,
    pub constraints: Items<EqualityText>,
}

impl Drop for NetworkText {
    fn drop(self) {
        let NetworkText {
            is_ordered: _,
            subtasks: _,
            orderings: _,
            constraints: _,
        } = self;
    }
}

impl SubtaskText {
    ghost use Rattle.std.specs.Prelude.{◌≡◌};
    ghost use Rattle.hddl_words.specs.Places.{place_of};

    /// The place of the first word in its bracket: its label, or its task's name.
    pub fn place(&self) -> usize
        ensures { result ≡ place_of self.now }
    {
        match &self.label {
            Some(label) => label.place(),
            None => self.task.name.place(),
        }
    }
}
