//! The texts of a plan that is explained.

ghost use Rattle.std.specs.Prelude.{◌≡◌, slice_get};
ghost use Rattle.pair_messages.specs.Heads.{IsSpotAt, problem_text};
ghost use Rattle.plan_messages.specs.Places.{IsOnLineOf};

use crate::placed_plan::PlacedPlan;
use crate::words::{word_from, words_from};
use diagnostics::{Spot, Where};
use hddl_meaning::Source;
use pair_messages::{At, PairTexts, spot_of};

/// A domain, a problem and a plan, as texts and as they were read.
#[derive(Clone, Copy, Drop)]
pub struct PlanTexts<'a> {
    pub pair: PairTexts<'a>,
    pub plan: PlacedPlan<'a>,
}

/// The next word of the plan from a place on, or the plan as a whole where there is none.
pub(crate) fn word_or_whole<'a>(plan: &PlacedPlan<'a>, place: Option<usize>) -> Where<'a>
    ensures { IsOnLineOf plan.now place result }
{
    match place {
        Some(place) => Where::Place(word_from(plan.text, place)),
        None => Where::Text(plan.text),
    }
}

/// The words of a line of the plan from a place on, or the plan as a whole where there is none.
pub(crate) fn words_or_whole<'a>(plan: &PlacedPlan<'a>, place: Option<usize>) -> Where<'a>
    ensures { IsOnLineOf plan.now place result }
{
    match place {
        Some(place) => Where::Place(words_from(plan.text, place)),
        None => Where::Text(plan.text),
    }
}

/// Where an action line begins.
pub(crate) fn action_place(plan: &PlacedPlan<'_>, number: usize) -> Option<usize>
    ensures { result ≡ slice_get plan.now.places.now.actions.items number }
{
    plan.places.actions.as_slice().get(number).copied()
}

/// Where the root line begins.
pub(crate) fn root_place(plan: &PlacedPlan<'_>) -> Option<usize>
    ensures { result ≡ slice_get plan.now.places.now.roots.items 0 }
{
    plan.places.roots.as_slice().first().copied()
}

/// A place of the problem.
pub(crate) fn in_problem<'a>(pair: &PairTexts<'a>, place: usize) -> Spot<'a>
    ensures { IsSpotAt (problem_text pair.now) place result }
{
    spot_of(
        pair,
        At {
            source: Source::Problem,
            place,
        },
    )
}

/// A place of the domain.
pub(crate) fn in_domain<'a>(pair: &PairTexts<'a>, place: usize) -> Spot<'a>
    ensures { IsSpotAt pair.now.domain.now place result }
{
    spot_of(
        pair,
        At {
            source: Source::Domain,
            place,
        },
    )
}
