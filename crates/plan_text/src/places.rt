//! The places of a plan file's lines in its text.

ghost use Rattle.std.specs.Prelude.{◌≡◌, ◌≤◌, ◌++◌, length, List, Some, true, false, MatchOption, OnOk, IfOk, IfSome, IfNone};
ghost use Rattle.htn_model.specs.PlanFile.{PlanFile};
ghost use Rattle.plan_text.specs.FileText.{body, FileText};
ghost use Rattle.plan_text.specs.Line as line_spec;
ghost use Rattle.plan_text.specs.Piece as spec;
ghost use Rattle.plan_text.specs.Places.{AreFound, AreKinds, ArePlaces, is_action, is_decomposition, is_roots, place_if};
ghost use Rattle.plan_text.specs.Seen.{seen, seen_kind};

use crate::cut::{Lines, MAX_BYTES, words_of};
use crate::line::{LineKind, kind_of};
use crate::piece::Piece;
use crate::reader::{count_to_end, skip_start};
use std::alloc::{AllocError, Global};

/// Where the lines of a plan file begin, as offsets in bytes from 0.
#[derive(Debug)]
pub struct LinePlaces {
    /// Of each action line, in their order.
    pub actions: Vec<usize>,
    /// Of the line that names the roots, alone.
    pub roots: Vec<usize>,
    /// Of each decomposition line, in their order.
    pub decompositions: Vec<usize>,
}

impl Drop for LinePlaces {
    fn drop(self) {
        let LinePlaces {
            actions: _,
            roots: _,
            decompositions: _,
        } = self;
    }
}

/// Adds the place of a line of a kind.
fn add_place(
    places: &mut LinePlaces,
    place: usize,
    kind: &LineKind<'_, '_>,
) -> Result<(), AllocError>
    ensures actions { OnOk result (places.new.actions.items ≡ places.old.actions.items ++ place_if is_action place (seen_kind kind.now)) }
    ensures roots { OnOk result (places.new.roots.items ≡ places.old.roots.items ++ place_if is_roots place (seen_kind kind.now)) }
    ensures decompositions { OnOk result (places.new.decompositions.items ≡ places.old.decompositions.items ++ place_if is_decomposition place (seen_kind kind.now)) }
{
    match kind {
        LineKind::Blank => Ok(()),
        LineKind::Roots(_) => {
            places.roots.push(place)?;
            Ok(())
        }
        LineKind::Action { .. } => {
            places.actions.push(place)?;
            Ok(())
        }
        LineKind::Decomposition { .. } => {
            places.decompositions.push(place)?;
            Ok(())
        }
    }
}

/// Adds the place of a line, and says whether it is of some kind.
fn add_line(alloc: Global, places: &mut LinePlaces, line: Piece<'_>) -> Result<bool, AllocError>
    ensures added { IfOk result (λ is_of_kind. is_of_kind ≡ true → (kind : line_spec.LineKind) × line_spec.IsOfKind (spec.words (seen line.entry)) kind
        × (places.new.actions.items ≡ places.old.actions.items ++ place_if is_action line.entry.place kind)
        × (places.new.roots.items ≡ places.old.roots.items ++ place_if is_roots line.entry.place kind)
        × (places.new.decompositions.items ≡ places.old.decompositions.items ++ place_if is_decomposition line.entry.place kind)) }
    ensures none { IfOk result (λ is_of_kind. is_of_kind ≡ false → (kind : line_spec.LineKind) → line_spec.IsOfKind (spec.words (seen line.entry)) kind → ⊥) }
{
    let words = words_of(alloc, line)?;
    match kind_of(words.as_slice()) {
        Some(kind) => {
            add_place(places, line.place, &kind)?;
            Ok(true)
        }
        None => Ok(false),
    }
}

/// The places of lines; none where one of them is of no kind.
fn places_in(alloc: Global, lines: Lines<'_>) -> Result<Option<LinePlaces>, AllocError>
    ensures found { IfOk result (λ found. IfSome found (AreFound lines.entry)) }
    ensures none { IfOk result (λ found. IfNone found ((kinds : List line_spec.LineKind) → AreKinds lines.entry kinds → ⊥)) }
{
    let mut places = LinePlaces {
        actions: Vec::new(alloc),
        roots: Vec::new(alloc),
        decompositions: Vec::new(alloc),
    };
    let mut lines = lines;
    while let Some(line) = lines.next() {
        let is_of_kind = add_line(alloc, &mut places, line)?;
        if !is_of_kind {
            return Ok(None);
        }
    }
    Ok(Some(places))
}

/// The lines between the markers, if the text is not too long and has them.
fn body_of(text: &[u8]) -> Option<Lines<'_>>
    ensures found { IfSome result (λ lines. body text.now ≡ Some lines) }
    ensures none { IfNone result ((file : PlanFile) → FileText file text.now → ⊥) }
{
    if text.len() > MAX_BYTES {
        return None;
    }
    let mut lines = Lines::new(text);
    if !skip_start(&mut lines) {
        return None;
    }
    match count_to_end(&lines) {
        Some(count) => Some(lines.limited(count)),
        None => None,
    }
}

/// Where the lines of the plan file stand that a text holds; none only where it holds no file. An error where memory was
/// refused.
pub fn line_places(alloc: Global, text: &[u8]) -> Result<Option<LinePlaces>, AllocError>
    ensures found { IfOk result (λ found. IfSome found (λ places. (file : PlanFile) → FileText file text.now → ArePlaces file text.now places)) }
    ensures none { IfOk result (λ found. IfNone found ((file : PlanFile) → FileText file text.now → ⊥)) }
{
    let Some(lines) = body_of(text) else {
        return Ok(None);
    };
    let found = places_in(alloc, lines)?;
    Ok(found)
}
