//! Warnings of declared names, by what is used.
ghost use Rattle.std.specs.Prelude.{◌≡◌, ◌↔◌, true, IsTrue, None, OnOk, is_some};
ghost use Rattle.hddl_scope.specs.Numbers.{number_at};
ghost use Rattle.hddl_warnings.specs.Tells.{IsListedBut, IsUnlisted, Tells};
ghost use Rattle.hddl_warnings.specs.Warnings as spec;

use crate::warning::{Warning, WarningKind};
use hddl_meaning::{At, Source};
use hddl_scope::{Mention, Numbers};
use std::alloc::AllocError;

/// A warning at a place of the domain.
pub(crate) fn in_domain(kind: WarningKind, place: usize) -> Warning
    ensures { result ≡ spec.in_domain kind place }
{
    Warning {
        kind,
        at: At {
            source: Source::Domain,
            place,
        },
    }
}

/// Whether a text isn't known.
fn is_unknown(known: &Numbers, text: &[u8]) -> bool
    ensures { IsTrue result ↔ (number_at known.now text.now ≡ None) }
{
    known.get(text).is_none()
}

/// Whether a text is known to the first and not to the second.
fn is_between(present: &Numbers, absent: &Numbers, text: &[u8]) -> bool
    ensures { IsTrue result ↔ ((is_some (number_at present.now text.now) ≡ true) × (number_at absent.now text.now ≡ None)) }
{
    present.get(text).is_some() && absent.get(text).is_none()
}

/// Adds a warning where it holds.
pub(crate) fn tell_if(
    out: &mut Vec<Warning>,
    holds: bool,
    warning: Warning,
) -> Result<(), AllocError>
    ensures { OnOk result (Tells out.old.items out.new.items (λ w. (holds ≡ true) × (w ≡ warning))) }
{
    if !holds {
        return Ok(());
    }
    out.push(warning)?;
    Ok(())
}

/// Warns of each name that isn't known.
pub(crate) fn tell_unlisted(
    out: &mut Vec<Warning>,
    kind: WarningKind,
    declared: &[Mention<'_>],
    known: &Numbers,
) -> Result<(), AllocError>
    ensures { OnOk result (Tells out.old.items out.new.items (IsUnlisted kind declared.now known.now)) }
{
    for mention in declared {
        let is_told = is_unknown(known, mention.text());
        let warning = in_domain(kind, mention.place());
        tell_if(out, is_told, warning)?;
    }
    Ok(())
}

/// Warns of each name that is known to the first, and not to the second.
pub(crate) fn tell_listed_but(
    out: &mut Vec<Warning>,
    kind: WarningKind,
    declared: &[Mention<'_>],
    present: &Numbers,
    absent: &Numbers,
) -> Result<(), AllocError>
    ensures { OnOk result (Tells out.old.items out.new.items (IsListedBut kind declared.now present.now absent.now)) }
{
    for mention in declared {
        let is_told = is_between(present, absent, mention.text());
        let warning = in_domain(kind, mention.place());
        tell_if(out, is_told, warning)?;
    }
    Ok(())
}
