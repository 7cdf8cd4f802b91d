//! The numbers of networks that were made of drafts.
ghost use Rattle.std.specs.Prelude.{◌≡◌, IfSome, Some, slice_get};

use crate::draft::Draft;

/// The number of a draft's network.
#[derive(Clone, Copy, Drop)]
pub(crate) struct Known {
    pub(crate) draft: Draft,
    pub(crate) number: u32,
}

/// The numbers of drafts, as far as they are known, with the place of the first draft of a job.
#[derive(Clone, Copy, Drop)]
pub(crate) struct Notes<'a> {
    pub(crate) noted: &'a [Option<Known>],
    pub(crate) job: usize,
    pub(crate) first: usize,
}

/// The number of the draft at a place, if it is known.
pub(crate) fn noted_number(noted: &[Option<Known>], at: usize, draft: Draft) -> Option<u32>
    ensures { IfSome result (λ n. (k : Known) × (slice_get noted.now at ≡ Some (Some k)) × (k.number ≡ n)
        × (k.draft ≡ draft)) }
{
    if at >= noted.len() {
        return None;
    }
    let known = noted[at]?;
    if known.draft.job == draft.job
        && known.draft.position == draft.position
        && known.draft.instance == draft.instance
    {
        return Some(known.number);
    }
    None
}
