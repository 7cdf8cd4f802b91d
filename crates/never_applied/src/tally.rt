//! What is the same in all instances of a method or an action.

use crate::answer::Cause;
use crate::facts::Facts;
use htn_ground::ObjectList;
use htn_task::{Atom, AtomSchema, Formula, Literal, Term};
use std::alloc::{AllocError, Global};

/// What was seen of the instances of a method or an action.
#[derive(Drop)]
pub(crate) struct Tally {
    /// Whether its task, or it, arises.
    pub(crate) arises: bool,
    pub(crate) instances: usize,
    /// Whether some instance has no literal that is never so.
    pub(crate) is_free: bool,
    /// For each formula of the precondition, whether it is a literal that is never so in any of the instances.
    pub(crate) blamed: Vec<bool>,
}

/// The object that a term stands for.
fn value_of(values: &[u16], term: Term) -> u16 {
    match term {
        Term::Parameter(place) => match values.get(place as usize) {
            Some(value) => *value,
            None => 0,
        },
        Term::Object(object) => object,
    }
}

/// An atom at the objects that its parameters stand for.
fn ground_atom(alloc: Global, atom: &AtomSchema, values: &[u16]) -> Result<Atom, AllocError> {
    let mut arguments = ObjectList::new(alloc);
    for term in atom.arguments() {
        arguments.push(value_of(values, *term))?;
    }
    let ground = Atom::new(alloc, atom.predicate(), arguments.as_slice())?;
    Ok(ground)
}

/// Whether a formula is a literal that is never so at these values.
fn is_never(
    alloc: Global,
    facts: &Facts,
    formula: &Formula,
    values: &[u16],
) -> Result<bool, AllocError> {
    let Formula::Literal(is_positive, atom) = formula else {
        return Ok(false);
    };
    let ground = ground_atom(alloc, atom, values)?;
    let literal = if *is_positive {
        Literal::Positive(ground)
    } else {
        Literal::Negative(ground)
    };
    Ok(!facts.is_possible(&literal))
}

impl Tally {
    /// Nothing was seen, and each formula may be to blame.
    pub(crate) fn new(alloc: Global, formulas: &[Formula]) -> Result<Tally, AllocError> {
        let mut blamed = Vec::with_capacity(alloc, formulas.len())?;
        for _ in formulas {
            blamed.push(true)?;
        }
        Ok(Tally {
            arises: false,
            instances: 0,
            is_free: false,
            blamed,
        })
    }

    /// A formula is not to blame.
    fn acquit(&mut self, place: usize) {
        if let Some(blamed) = self.blamed.get_mut(place) {
            *blamed = false;
        }
    }

    /// Adds an instance at these values.
    pub(crate) fn add(
        &mut self,
        alloc: Global,
        facts: &Facts,
        formulas: &[Formula],
        values: &[u16],
    ) -> Result<(), AllocError> {
        self.instances = self.instances.saturating_add(1);
        for (place, formula) in formulas.iter().enumerate() {
            let may_blame = self.blamed.get(place) == Some(&true);
            if may_blame && !is_never(alloc, facts, formula, values)? {
                self.acquit(place);
            }
        }
        Ok(())
    }

    /// The cause that all this is.
    pub(crate) fn cause(&self) -> Cause {
        let instances = self.instances;
        if instances == 0 {
            if self.arises {
                return Cause::NoInstance;
            }
            return Cause::Follows;
        }
        for (place, blamed) in self.blamed.iter().enumerate() {
            if *blamed {
                return Cause::Literal { place, instances };
            }
        }
        if self.is_free {
            return Cause::Follows;
        }
        Cause::EachInstance { instances }
    }
}
