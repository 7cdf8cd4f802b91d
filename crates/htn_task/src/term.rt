//! Terms, and atoms, equalities and tasks over them.
ghost use Rattle.std.specs.Prelude.{◌≡◌};
ghost use Rattle.htn_task.specs.Views.{term_of, terms_of};

use std::marker::Model;

/// An argument: a parameter or a quantified variable by its number, or an object.
#[derive(Clone, Copy, Debug)]
pub enum Term {
    /// A parameter of the schema, by its place. The variables of a `forall` are numbered on after
    /// the parameters and the variables of each `forall` around it.
    Parameter(u16),
    /// An object, by its number.
    Object(u16),
}

/// The arguments of an atom or a task.
#[derive(Drop)]
pub struct TermList {
    terms: Vec<Term>,
}

impl Model for TermList {
    ghost use Rattle.std.specs.Prelude.{List};
    ghost use Rattle.std.specs.Coded.{coded_list};
    ghost use Rattle.htn_model.specs.Schema as model;
    ghost use Rattle.htn_model.specs.TaskCode.{term_code};
    ghost use Rattle.htn_task.specs.Views.{terms_of};

    ghost Value = { List model.Term };

    ghost coded = { coded_list term_code };

    ghost view = { λ l. terms_of l.terms.items };
}

impl TermList {
    /// The list of these terms.
    pub fn of(terms: Vec<Term>) -> TermList
        ensures { result ≡ terms_of terms.items }
    {
        TermList { terms }
    }

    /// The terms in their order.
    pub fn as_slice(&self) -> &[Term]
        ensures { terms_of result.now ≡ self.now }
    {
        &self.terms
    }
}

/// A predicate at terms.
#[derive(Drop)]
pub struct AtomSchema {
    predicate: u16,
    arguments: TermList,
}

impl Model for AtomSchema {
    ghost use Rattle.htn_model.specs.Schema as model;
    ghost use Rattle.htn_model.specs.TaskCode.{atom_schema_code};

    ghost Value = { model.AtomSchema };

    ghost coded = { atom_schema_code };

    ghost view = { λ a. record { predicate = a.predicate; arguments = a.arguments } };
}

impl AtomSchema {
    pub fn new(predicate: u16, arguments: TermList) -> AtomSchema
        ensures { result ≡ record { predicate = predicate; arguments = arguments } }
    {
        AtomSchema {
            predicate,
            arguments,
        }
    }

    /// The number of the predicate.
    pub fn predicate(&self) -> u16
        ensures { result ≡ self.now.predicate }
    {
        self.predicate
    }

    pub fn arguments(&self) -> &[Term]
        ensures { terms_of result.now ≡ self.now.arguments }
    {
        self.arguments.as_slice()
    }
}

/// Two terms that are to be the same object, or different ones.
#[derive(Drop)]
pub struct EqualitySchema {
    is_positive: bool,
    left: Term,
    right: Term,
}

impl Model for EqualitySchema {
    ghost use Rattle.htn_model.specs.Schema as model;
    ghost use Rattle.htn_model.specs.TaskCode.{equality_schema_code};
    ghost use Rattle.htn_task.specs.Views.{term_of};

    ghost Value = { model.EqualitySchema };

    ghost coded = { equality_schema_code };

    ghost view = { λ e. record { is_positive = e.is_positive; left = term_of e.left; right = term_of e.right } };
}

impl EqualitySchema {
    pub fn new(is_positive: bool, left: Term, right: Term) -> EqualitySchema
        ensures { result ≡ record { is_positive = is_positive; left = term_of left; right = term_of right } }
    {
        EqualitySchema {
            is_positive,
            left,
            right,
        }
    }

    /// Whether the terms are to be the same object.
    pub fn is_positive(&self) -> bool
        ensures { result ≡ self.now.is_positive }
    {
        self.is_positive
    }

    pub fn left(&self) -> Term
        ensures { term_of result ≡ self.now.left }
    {
        self.left
    }

    pub fn right(&self) -> Term
        ensures { term_of result ≡ self.now.right }
    {
        self.right
    }
}

/// A compound task or an action at terms.
#[derive(Drop)]
pub struct TaskSchema {
    name: u32,
    arguments: TermList,
}

impl Model for TaskSchema {
    ghost use Rattle.htn_model.specs.Schema as model;
    ghost use Rattle.htn_model.specs.TaskCode.{task_schema_code};

    ghost Value = { model.TaskSchema };

    ghost coded = { task_schema_code };

    ghost view = { λ s. record { name = s.name; arguments = s.arguments } };
}

impl TaskSchema {
    pub fn new(name: u32, arguments: TermList) -> TaskSchema
        ensures { result ≡ record { name = name; arguments = arguments } }
    {
        TaskSchema { name, arguments }
    }

    /// The number of the task: compound tasks come first, and then actions.
    pub fn name(&self) -> u32
        ensures { result ≡ self.now.name }
    {
        self.name
    }

    pub fn arguments(&self) -> &[Term]
        ensures { terms_of result.now ≡ self.now.arguments }
    {
        self.arguments.as_slice()
    }
}
