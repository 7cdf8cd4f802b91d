//! Static literals, and the values that they rule out.
ghost use Rattle.std.specs.Prelude.{◌≡◌, IfOk, IsTrue, not, length};
ghost use Rattle.htn_ground.specs.Search.{fixed_holds, is_bound, is_ruled_out_so_far};

use crate::conditions::is_among;
use crate::literals::ground_arguments;
use htn_task::{Atom, State, Term};
use std::alloc::AllocError;

/// A literal of a schema whose predicate no effect names.
#[derive(Drop)]
pub(crate) struct FixedLiteral {
    pub(crate) is_positive: bool,
    pub(crate) predicate: u16,
    pub(crate) arguments: Vec<Term>,
}

impl FixedLiteral {
    /// Whether all its arguments have values.
    pub(crate) fn is_bound(&self, count: usize) -> bool
        ensures { result ≡ is_bound count self.now }
    {
        for term in &self.arguments {
            if !is_among(count, *term) {
                return false;
            }
        }
        true
    }

    /// Whether it is false in a state.
    fn fails(&self, state: &State, values: &[u16]) -> Result<bool, AllocError>
        ensures { IfOk result (λ fails. fails ≡ not (fixed_holds state.now values.now self.now)) }
    {
        let alloc = *self.arguments.allocator();
        let arguments = ground_arguments(alloc, &self.arguments, values)?;
        let atom = Atom::new(alloc, self.predicate, arguments.as_slice())?;
        let is_true = state.contains(&atom);
        Ok(is_true != self.is_positive)
    }
}

/// Whether some literal all of whose arguments have values is false.
pub(crate) fn is_ruled_out(
    literals: &[FixedLiteral],
    state: &State,
    values: &[u16],
) -> Result<bool, AllocError>
    ensures { IfOk result (λ dead. dead ≡ is_ruled_out_so_far state.now literals.now values.now) }
{
    for literal in literals {
        if literal.is_bound(values.len()) && literal.fails(state, values)? {
            return Ok(true);
        }
    }
    Ok(false)
}
