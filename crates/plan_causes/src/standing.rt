//! The truth of literals in a gap of a run, and since when.

ghost use Rattle.std.specs.Prelude.{IfOk};
ghost use Rattle.htn_task.specs.Literals.{literal_of, literals_of};
ghost use Rattle.plan_causes.specs.Causes.{AreStandings, StandsIn};
ghost use Rattle.plan_lines.specs.Turns.{IsHistory};

use htn_task::Literal;
use plan_lines::Turns;
use std::alloc::{AllocError, Global};

/// The truth of a literal after some actions of a run, and since when it is false.
#[derive(Clone, Copy, PartialEq, Eq, Debug)]
pub enum Standing {
    /// It holds.
    Holds,
    /// It is false from the start.
    False,
    /// It is false since the action of this number, which made it so.
    FalseSince(usize),
}

/// The truth of a literal in a gap, and since when it is false.
fn standing_in(turns: &Turns<'_>, literal: &Literal, gap: usize) -> Standing
    requires { IsHistory turns.now }
    ensures { StandsIn turns.now gap (literal_of literal.now) result }
{
    match turns.last_gap(literal, gap) {
        Some(last) if last == gap => Standing::Holds,
        Some(last) => Standing::FalseSince(last),
        None => Standing::False,
    }
}

/// The truth of each of some literals in a gap.
pub(crate) fn standings_in(
    alloc: Global,
    turns: &Turns<'_>,
    literals: &[Literal],
    gap: usize,
) -> Result<Vec<Standing>, AllocError>
    requires { IsHistory turns.now }
    ensures { IfOk result (λ v. AreStandings (StandsIn turns.now gap) (literals_of literals.now) v.items) }
{
    let mut standings = Vec::new(alloc);
    for literal in literals {
        standings.push(standing_in(turns, literal, gap))?;
    }
    Ok(standings)
}
