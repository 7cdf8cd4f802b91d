//! Diagnostics grouped by equal texts, whatever their places.

ghost use Rattle.std.specs.Prelude.{◌≡◌, ◌<◌, [], ◌++◌, OnOk, IfOk, map, length};
ghost use Rattle.diagnostics.specs.Groups.{first_saying, folded, members_of, picked, JoinsAt};
ghost use Rattle.diagnostics.specs.Written.{saying as saying_of};

use crate::diagnostic::{Diagnostic, Where};
use crate::ink::say_in;
use crate::lines::say_message;
use crate::text::{say_code, severity_style, severity_word};
use indexmap::IndexSet;
use std::alloc::{AllocError, Global};

/// The text of a diagnostic without its places: severity, message and code.
fn saying(alloc: Global, diagnostic: &Diagnostic<'_>) -> Result<Vec<u8>, AllocError>
    ensures { IfOk result (λ bytes. bytes.items ≡ saying_of diagnostic.now) }
{
    let mut out = Vec::new(alloc);
    let severity = diagnostic.severity;
    say_in(
        &mut out,
        false,
        severity_style(severity),
        severity_word(severity),
    )?;
    say_message(&mut out, false, diagnostic.message.as_slice())?;
    say_code(&mut out, false, diagnostic.code)?;
    Ok(out)
}

/// Adds the diagnostic at an index to the group of those with the same text, which may be new.
fn join(
    alloc: Global,
    said: &mut IndexSet<Vec<u8>>,
    groups: &mut Vec<Vec<usize>>,
    diagnostics: &[Diagnostic<'_>],
    index: usize,
) -> Result<(), AllocError>
    requires inside { index < length diagnostics.now }
    requires same { map (λ v. v.items) said.old.keys ≡ map (first_saying saying_of) (members_of diagnostics.now groups.old.items) }
    ensures said { OnOk result (map (λ v. v.items) said.new.keys ≡ map (first_saying saying_of) (members_of diagnostics.now groups.new.items)) }
    ensures joined { OnOk result (JoinsAt saying_of diagnostics.now index (members_of diagnostics.now groups.old.items) (members_of diagnostics.now groups.new.items)) }
{
    let key = saying(alloc, &diagnostics[index])?;
    let (at, _is_new) = said.insert_full(key)?;
    if at < groups.len() {
        groups[at].push(index)?;
        return Ok(());
    }
    let mut group = Vec::new(alloc);
    group.push(index)?;
    groups.push(group)?;
    Ok(())
}

/// The groups of some diagnostics, each by the indices of its own, in the order of their first ones.
pub(crate) fn groups_of(
    alloc: Global,
    diagnostics: &[Diagnostic<'_>],
) -> Result<Vec<Vec<usize>>, AllocError>
    ensures { IfOk result (λ groups. members_of diagnostics.now groups.items ≡ folded saying_of diagnostics.now) }
{
    let mut said = IndexSet::new(alloc);
    let mut groups = Vec::new(alloc);
    for index in 0..diagnostics.len() {
        join(alloc, &mut said, &mut groups, diagnostics, index)?;
    }
    Ok(groups)
}

/// What the diagnostics at some indices are about; an index past the end has none.
pub(crate) fn places_at<'a>(
    alloc: Global,
    diagnostics: &[Diagnostic<'a>],
    indices: &[usize],
) -> Result<Vec<Where<'a>>, AllocError>
    ensures { IfOk result (λ places. places.items ≡ map (λ d. d.about) (picked diagnostics.now indices.now)) }
{
    let mut places = Vec::new(alloc);
    for index in indices {
        if let Some(diagnostic) = diagnostics.get(*index) {
            places.push(diagnostic.about)?;
        }
    }
    Ok(places)
}
