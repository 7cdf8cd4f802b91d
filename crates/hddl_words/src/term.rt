//! Terms, atoms and typed groups.

use crate::items::Items;
use crate::name::Name;
use crate::variable::Variable;

/// A term: a variable, or the name of a constant or object.
#[derive(Debug, Drop)]
pub enum Term {
    Variable(Variable),
    Object(Name),
}

/// A name before terms: a predicate's atom, or a task or action with its arguments.
#[derive(Debug)]
pub struct AtomText {
    pub name: Name,
    pub terms: Items<Term>,
}

impl Drop for AtomText {
    fn drop(self) {
        let AtomText { name: _, terms: _ } = self;
    }
}

/// Names that share a type, as `a b - t`. Only the last group of a list may be without one.
#[derive(Debug)]
pub struct NameGroup {
    /// At least one.
    pub names: Items<Name>,
    pub of_type: Option<Name>,
}

impl Drop for NameGroup {
    fn drop(self) {
        let NameGroup {
            names: _,
            of_type: _,
        } = self;
    }
}

/// Variables that share a type, as `?a ?b - t`. Only the last group of a list may be without one.
#[derive(Debug)]
pub struct VariableGroup {
    /// At least one.
    pub variables: Items<Variable>,
    pub of_type: Option<Name>,
}

impl Drop for VariableGroup {
    fn drop(self) {
        let VariableGroup {
            variables: _,
            of_type: _,
        } = self;
    }
}
