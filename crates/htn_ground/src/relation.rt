//! Equalities and negated equalities between the parameters of a schema.
ghost use Rattle.std.specs.Prelude.{◌≡◌, ◌≤◌, ◌==◌, Bool, ℕ, IfNone, IfSome, length, true};
ghost use Rattle.std.specs.Bool.{beq};
ghost use Rattle.htn_ground.specs.Search.{is_equality, relation_depth, relation_holds, relation_single, relation_start, single_of, term_after};
ghost use Rattle.htn_task.specs.Views.{term_of};

use crate::instances::single_of;
use htn_task::Term;

/// A parameter: the object that it stands for, if it has a value.
fn term_after(values: &[u16], parameter: u16) -> Term
    ensures { term_of result ≡ term_after values.now parameter }
{
    match values.get(parameter as usize) {
        Some(object) => Term::Object(*object),
        None => Term::Parameter(parameter),
    }
}

/// The object beside a parameter, where that is the only parameter of an equality.
pub(crate) fn object_beside(left: Term, right: Term, place: usize) -> Option<u16>
    ensures some { IfSome result (λ x. (positive : Bool) (o : ℕ) → single_of positive (term_of left) (term_of right) place o ≡ beq positive (o == x)) }
    ensures none { IfNone result ((positive : Bool) (o : ℕ) → single_of positive (term_of left) (term_of right) place o ≡ true) }
{
    match (left, right) {
        (Term::Object(object), Term::Parameter(parameter))
        | (Term::Parameter(parameter), Term::Object(object)) => {
            if parameter as usize == place {
                Some(object)
            } else {
                None
            }
        }
        _ => None,
    }
}

/// A relation between two parameters, by their places.
#[derive(Clone, Copy)]
pub(crate) enum Relation {
    Same(u16, u16),
    Different(u16, u16),
}

impl Relation {
    /// How many parameters have to have values before the relation can be read.
    pub(crate) fn depth(&self) -> usize
        ensures { result ≡ relation_depth self.now }
    {
        match self {
            Relation::Same(a, b) | Relation::Different(a, b) => (*a).max(*b) as usize + 1,
        }
    }

    /// Its first parameter.
    pub(crate) fn start(&self) -> usize
        ensures { result ≡ relation_start self.now }
    {
        match self {
            Relation::Same(a, b) | Relation::Different(a, b) => (*a).min(*b) as usize,
        }
    }

    /// Whether it is an equality, and no negated one.
    pub(crate) fn is_equality(&self) -> bool
        ensures { result ≡ is_equality self.now }
    {
        match self {
            Relation::Same(_, _) => true,
            Relation::Different(_, _) => false,
        }
    }

    /// The object that an object at a place has to be, or not to be: the value of the other parameter,
    /// where the relation names the place and that has one.
    pub(crate) fn other_value(&self, values: &[u16], place: usize) -> Option<u16>
        ensures some { IfSome result (λ x. (o : ℕ) → relation_single values.now self.now place o ≡ beq (is_equality self.now) (o == x)) }
        ensures none { IfNone result ((o : ℕ) → relation_single values.now self.now place o ≡ true) }
    {
        match self {
            Relation::Same(a, b) | Relation::Different(a, b) => {
                object_beside(term_after(values, *a), term_after(values, *b), place)
            }
        }
    }

    /// Whether the relation allows an object at a place, where its other parameter has a value.
    pub(crate) fn allows(&self, values: &[u16], place: usize, object: u16) -> bool
        ensures { result ≡ relation_single values.now self.now place object }
    {
        match self {
            Relation::Same(a, b) => {
                let left = term_after(values, *a);
                let right = term_after(values, *b);
                single_of(true, left, right, place, object)
            }
            Relation::Different(a, b) => {
                let left = term_after(values, *a);
                let right = term_after(values, *b);
                single_of(false, left, right, place, object)
            }
        }
    }

    /// Whether the relation holds of the values.
    pub(crate) fn holds(&self, values: &[u16]) -> bool
        requires { relation_depth self.now ≤ length values.now }
        ensures { result ≡ relation_holds self.now values.now }
    {
        match self {
            Relation::Same(a, b) => values[*a as usize] == values[*b as usize],
            Relation::Different(a, b) => values[*a as usize] != values[*b as usize],
        }
    }
}
