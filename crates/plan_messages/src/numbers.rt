//! Where numbers of lines stand.

ghost use Rattle.std.specs.Prelude.{IfOk};
ghost use Rattle.htn_model.specs.PlanFile.{IsWithoutRepeats};
ghost use Rattle.plan_messages.specs.Numbers.{HasSightings};
ghost use Rattle.plan_messages.specs.Places.{IsPlaceOf};
ghost use Rattle.plan_messages.specs.Mentions.{defined_at, listed_at};

use crate::mentions::{definitions, listings};
use crate::placed_plan::PlacedPlan;
use crate::sighting::{Sighting, sightings};
use std::alloc::{AllocError, Global};

/// Where lines begin with numbers.
pub(crate) fn defined<'a>(
    alloc: Global,
    plan: &PlacedPlan<'_>,
    ids: &[u64],
) -> Result<Vec<Option<Sighting>>, AllocError>
    requires { IsWithoutRepeats ids.now }
    ensures { IfOk result (λ v. HasSightings plan.now (defined_at plan.now) ids.now v.items) }
{
    let mentions = definitions(alloc, plan)?;
    let seen = sightings(alloc, ids, mentions.as_slice())?;
    Ok(seen)
}

/// Where lines list numbers.
pub(crate) fn listed<'a>(
    alloc: Global,
    plan: &PlacedPlan<'_>,
    ids: &[u64],
) -> Result<Vec<Option<Sighting>>, AllocError>
    requires { IsWithoutRepeats ids.now }
    ensures { IfOk result (λ v. HasSightings plan.now (listed_at plan.now) ids.now v.items) }
{
    let mentions = listings(alloc, plan)?;
    let seen = sightings(alloc, ids, mentions.as_slice())?;
    Ok(seen)
}

/// Where the first line with a number begins with it.
pub(crate) fn number_place(
    alloc: Global,
    plan: &PlacedPlan<'_>,
    id: u64,
) -> Result<Option<usize>, AllocError>
    ensures { IfOk result (λ place. IsPlaceOf plan.now (defined_at plan.now) id place) }
{
    let seen = defined(alloc, plan, &[id])?;
    match seen.as_slice().first() {
        Some(Some(sighting)) => Ok(Some(sighting.first)),
        _ => Ok(None),
    }
}
