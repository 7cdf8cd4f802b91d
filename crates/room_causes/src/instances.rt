//! The instances that a line may stand for.
ghost use Rattle.std.specs.Prelude.{◌≡◌, ◌<◌, Some, IfOk, length, slice_get};
ghost use Rattle.std.specs.Cow.{cow_slice_items};
ghost use Rattle.plan_room.specs.Frames.{IsLine};
ghost use Rattle.room_causes.specs.Conflicts.{AreOnesOf};

use htn_ground::Instance;
use plan_room::PlanLines;
use std::alloc::AllocError;
use std::borrow::CowSlice;

/// The instances that a line, or the root line, may stand for.
pub(crate) fn instances_of<L: PlanLines>(
    lines: &L,
    line: usize,
) -> Result<CowSlice<'_, Instance>, AllocError>
    requires line { IsLine (L.lines lines.now) line }
    ensures { IfOk result (λ v. AreOnesOf (L.lines lines.now) line (cow_slice_items v)) }
{
    if line < lines.count() {
        let instances = lines.instances(line)?;
        Ok(instances)
    } else {
        let initials = lines.initials()?;
        Ok(CowSlice::Owned(initials))
    }
}

/// The instance with a number.
pub(crate) fn instance_at<'n>(instances: &'n CowSlice<'_, Instance>, number: usize) -> &'n Instance
    requires { number < length (cow_slice_items instances.now) }
    ensures { slice_get (cow_slice_items instances.now) number ≡ Some result.now }
{
    let instances = instances.as_slice();
    &instances[number]
}
