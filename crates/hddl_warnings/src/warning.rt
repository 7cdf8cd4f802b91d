//! A warning as data.

use hddl_meaning::At;

/// What a warning is of. With a problem all are looked for, and without one those of which nothing else is said.
#[derive(Debug, Clone, Copy, PartialEq, Eq)]
pub enum WarningKind {
    /// The problem is one of another domain. The name of the domain in the problem; only with a problem.
    OtherDomain,
    /// A parameter of a method or action that stands nowhere else in it. The parameter.
    UnusedParameter,
    /// An effect of an action on an atom on which an earlier one has the opposite effect. The name of the predicate.
    AddedAndDeleted,
    /// A compound task that is a subtask somewhere, and that no method decomposes. Its name in its declaration.
    NoMethod,
    /// A type that nothing has and that isn't above another one. Its name in its declaration; only with a problem.
    UnusedType,
    /// A predicate of which there is no atom. Its name in its declaration; only with a problem.
    UnusedPredicate,
    /// A predicate of which no precondition and no goal has an atom, though there is one elsewhere. Its name in its
    /// declaration; only with a problem.
    UntestedPredicate,
    /// A compound task that is no subtask. Its name in its declaration; only with a problem.
    UnusedTask,
    /// An action that is no subtask. Its name in its declaration; only with a problem.
    UnusedAction,
    /// A constant or object of which there is an earlier declaration. The later one; only with a problem.
    DeclaredAgain,
}

/// What a text warns of, and where: a byte offset in one of the texts.
#[derive(Debug, Clone, Copy)]
pub struct Warning {
    pub kind: WarningKind,
    pub at: At,
}
