//! Limits on how many different names there may be.
ghost use Rattle.std.specs.Prelude.{◌≡◌, ◌↔◌, None, IfOk, IsTrue, length};
ghost use Rattle.hddl_scope.specs.Findings.{Finds};
ghost use Rattle.hddl_scope.specs.Numbers.{number_at};
ghost use Rattle.hddl_scope.specs.Repeats.{AreNamesOf, IsPastAfter};

use crate::limits::MOST_DECLARATIONS;
use crate::mention::Mention;
use crate::numbers::Numbers;
use crate::repeated::note;
use std::alloc::{AllocError, Global};

/// The names of mentions, with room for more of them.
fn names_of(alloc: Global, mentions: &[Mention<'_>], more: usize) -> Result<Numbers, AllocError>
    ensures { IfOk result (λ known. AreNamesOf known mentions.now) }
{
    let capacity = mentions.len().saturating_add(more);
    let mut known = Numbers::with_capacity(alloc, capacity)?;
    for mention in mentions {
        note(alloc, &mut known, mention)?;
    }
    Ok(known)
}

/// Whether there are as many names as there may be, and this is another one.
fn is_past(known: &Numbers, mention: &Mention<'_>) -> bool
    ensures { IsTrue result ↔ ((length known.now ≡ 65535) × (number_at known.now mention.now.text ≡ None)) }
{
    known.len() == MOST_DECLARATIONS && known.get(mention.text()).is_none()
}

/// The place of the first name past the limit, where the first names were there before.
pub fn past_distinct(
    alloc: Global,
    first: &[Mention<'_>],
    mentions: &[Mention<'_>],
) -> Result<Option<usize>, AllocError>
    ensures { IfOk result (Finds (IsPastAfter first.now mentions.now)) }
{
    let mut known = names_of(alloc, first, mentions.len())?;
    for mention in mentions {
        if is_past(&known, mention) {
            return Ok(Some(mention.place()));
        }
        note(alloc, &mut known, mention)?;
    }
    Ok(None)
}
