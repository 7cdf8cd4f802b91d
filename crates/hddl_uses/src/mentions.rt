//! Checks of lists of names.
ghost use Rattle.std.specs.Prelude.{◌≡◌, map, OnOk};
ghost use Rattle.std.specs.List.{fold};
ghost use Rattle.hddl_scope.specs.Findings.{Adds, keep};
ghost use Rattle.hddl_uses.specs.Contexts.{duplicate_at, Fails, PassedOver};
ghost use Rattle.hddl_uses.specs.Parts.{Different, Limited};

use crate::context::Context;
use hddl_meaning::CheckFault;
use hddl_scope::{Findings, Mention, first_past, repeats};
use std::alloc::AllocError;

/// A fault at each place at which a name stands again.
pub(crate) fn push_repeats(
    context: &Context<'_, '_>,
    places: &[usize],
    found: &mut Findings,
) -> Result<(), AllocError>
    ensures { OnOk result (found.new ≡ fold keep found.old (map (duplicate_at context.now.source) places.now)) }
{
    for place in places {
        found.push(CheckFault::Duplicate(context.at(*place)))?;
    }
    Ok(())
}

/// Names that stand again.
pub fn check_different(
    context: &Context<'_, '_>,
    mentions: &[Mention<'_>],
    found: &mut Findings,
) -> Result<(), AllocError>
    ensures { OnOk result (Adds (PassedOver context.now (Different mentions.now)) (Fails context.now (Different mentions.now)) found.old found.new) }
{
    let places = repeats(context.alloc, mentions)?;
    push_repeats(context, &places, found)?;
    Ok(())
}

/// The first name past a limit.
pub fn check_limit(
    context: &Context<'_, '_>,
    limit: usize,
    mentions: &[Mention<'_>],
    found: &mut Findings,
) -> Result<(), AllocError>
    ensures { OnOk result (Adds (PassedOver context.now (Limited limit mentions.now)) (Fails context.now (Limited limit mentions.now)) found.old found.new) }
{
    if let Some(place) = first_past(limit, mentions) {
        found.push(CheckFault::TooMany(context.at(place)))?;
    }
    Ok(())
}
