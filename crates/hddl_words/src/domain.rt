//! The tree of a domain's text.

use crate::condition::{Condition, LiteralText};
use crate::items::Items;
use crate::name::Name;
use crate::network::NetworkText;
use crate::requirement::Requirement;
use crate::term::{AtomText, NameGroup, VariableGroup};

/// The declaration of a predicate.
#[derive(Debug)]
pub struct PredicateText {
    pub name: Name,
    pub parameters: Items<VariableGroup>,
}

impl Drop for PredicateText {
    fn drop(self) {
        let PredicateText {
            name: _,
            parameters: _,
        } = self;
    }
}

/// The declaration of a compound task.
#[derive(Debug)]
pub struct TaskText {
    pub name: Name,
    pub parameters: Items<VariableGroup>,
}

impl Drop for TaskText {
    fn drop(self) {
        let TaskText {
            name: _,
            parameters: _,
        } = self;
    }
}

/// A method: a way to decompose a compound task.
pub struct MethodText {
    /// The byte offset of its opening bracket.
    pub place: usize,
    pub name: Name,
    pub parameters: Items<VariableGroup>,
    /// The task that it decomposes.
    pub task: AtomText,
    pub precondition: Items<Condition>,
    pub network: NetworkText,
}

impl Drop for MethodText {
    fn drop(self) {
        let MethodText {
            place: _,
            name: _,
            parameters: _,
            task: _,
            precondition: _,
            network: _,
        } = self;
    }
}

/// An action: a primitive task.
pub struct ActionText {
    pub name: Name,
    pub parameters: Items<VariableGroup>,
    pub precondition: Items<Condition>,
    pub effect: Items<LiteralText>,
}

impl Drop for ActionText {
    fn drop(self) {
        let ActionText {
            name: _,
            parameters: _,
            precondition: _,
            effect: _,
        } = self;
    }
}

/// The tree of a domain's text. The sections of each kind stand in the order of the text.
pub struct DomainText {
    pub name: Name,
    pub requirements: Items<Requirement>,
    /// A group's type is the parent of its names.
    pub types: Items<NameGroup>,
    pub constants: Items<NameGroup>,
    pub predicates: Items<PredicateText>,
    pub tasks: Items<TaskText>,
    pub methods: Items<MethodText>,
    pub actions: Items<ActionText>,
}

impl Drop for DomainText {
    fn drop(self) {
        let DomainText {
            name: _,
            requirements: _,
            types: _,
            constants: _,
            predicates: _,
            tasks: _,
            methods: _,
            actions: _,
        } = self;
    }
}
