//! Diagnostics in the order of the texts.
ghost use Rattle.std.specs.Prelude.{◌≡◌, IfOk};
ghost use Rattle.check_report.specs.Order as spec;

use diagnostics::{Diagnostic, Role, Where};
use std::alloc::AllocError;

/// The place of a text among texts.
fn role_rank(role: Role) -> usize
    ensures { result ≡ spec.role_rank role }
{
    match role {
        Role::Domain => 0,
        Role::Problem => 1,
        Role::Plan => 2,
    }
}

/// The place of a diagnostic among texts, and in its text.
fn rank(about: &Where<'_>) -> (usize, usize)
    ensures { result ≡ (spec.text_rank about.now, spec.place_in about.now) }
{
    match about {
        Where::Text(source) => (role_rank(source.role), 0),
        Where::Place(spot) => (role_rank(spot.source.role), spot.place),
    }
}

/// Two lists of diagnostics as one, in the order of the texts.
pub(crate) fn in_order<'a>(
    some: Vec<Diagnostic<'a>>,
    others: Vec<Diagnostic<'a>>,
) -> Result<Vec<Diagnostic<'a>>, AllocError>
    ensures { IfOk result (λ all. spec.AreByPlace some.entry.items others.entry.items all.items) }
{
    let mut all = some;
    let mut more = others;
    all.append(&mut more)?;
    all.sort_by_key(|diagnostic| rank(&diagnostic.about))?;
    Ok(all)
}
