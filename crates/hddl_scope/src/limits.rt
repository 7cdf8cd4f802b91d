//! Limits on how much there may be.
ghost use Rattle.hddl_scope.specs.Findings.{Finds};
ghost use Rattle.hddl_meaning.specs.Items.{IsPast};

use crate::mention::Mention;

/// The most declarations of each kind, and the most variables in force at once.
pub const MOST_DECLARATIONS: usize = 65_535;

/// The most parameters of one predicate, method, action, initial network or `forall`.
pub const MOST_PARAMETERS: usize = 32;

/// The most subtasks of one network.
pub const MOST_SUBTASKS: usize = 10_000;

/// The place of the first name past the limit, if there are more.
pub fn first_past(limit: usize, mentions: &[Mention<'_>]) -> Option<usize>
    ensures { Finds (IsPast limit mentions.now) result }
{
    match mentions.get(limit) {
        Some(mention) => Some(mention.place()),
        None => None,
    }
}
