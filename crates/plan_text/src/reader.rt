//! Reads plan texts.

ghost use Rattle.std.specs.Prelude.{◌≡◌, ◌≢◌, ◌≤◌, length, take, not, position, MatchBool, MatchOption, OnOk, IfOk, IfErr};
ghost use Rattle.plan_text.specs.Piece as spec;
ghost use Rattle.plan_text.specs.FileText.{is_marker, after_start, before_end, body, HoldsFile, FileText};
ghost use Rattle.plan_text.specs.Line.{LineKind, is_legal, IsLegal, IsLine};
ghost use Rattle.plan_text.specs.Adding.{with_line, IsRead, IsByteFault};
ghost use Rattle.plan_text.specs.Fault.{IsFaultOf, HasFaultyLine, IsFaultyBody, FaultAt};
ghost use Rattle.htn_model.specs.PlanFile.{PlanFile};
ghost use Rattle.plan_text.specs.Seen.{seen};

use crate::cut::{Lines, MAX_BYTES, Words, is_blank, words_of};
use crate::draft::Draft;
use crate::fault::PlanFault;
use crate::line::kind_of;
use crate::piece::Piece;
use crate::plan_file::PlanFile;
use std::alloc::Global;

/// Whether the marker is the line's one word.
fn is_marker(line: Piece<'_>, marker: &[u8]) -> bool
    ensures { result ≡ is_marker marker.now (seen line.entry) }
{
    let mut words = Words::new(line);
    match words.next() {
        Some(word) => word.bytes == marker && words.next().is_none(),
        None => false,
    }
}

/// Skips the lines up to the start marker, and answers whether it is there.
pub(crate) fn skip_start(lines: &mut Lines<'_>) -> bool
    ensures { MatchBool result (after_start lines.old ≡ Some lines.new) (after_start lines.old ≡ None) }
{
    while let Some(line) = lines.next() {
        if is_marker(line, b"==>") {
            return true;
        }
    }
    false
}

/// The number of lines before the end marker.
pub(crate) fn count_to_end(lines: &Lines<'_>) -> Option<usize>
    ensures { MatchOption result (before_end lines.now ≡ None) (λ count. before_end lines.now ≡ Some (take count lines.now)) }
{
    let mut count = 0;
    let mut left = lines.again();
    while let Some(line) = left.next() {
        if is_marker(line, b"<==") {
            return Some(count);
        }
        count += 1;
    }
    None
}

/// Whether a byte may stand between the markers.
fn is_legal(byte: u8) -> bool
    ensures { result ≡ is_legal byte }
{
    is_blank(byte) || byte.is_ascii_graphic()
}

/// Where the first byte stands that may not.
fn illegal_in(bytes: &[u8]) -> Option<usize>
    ensures { result ≡ position (λ byte. not (is_legal byte)) bytes.now }
{
    bytes.iter().position(|byte| !is_legal(*byte))
}

/// Refuses a line with a byte that may not stand in it.
fn check_bytes(line: &Piece<'_>) -> Result<(), PlanFault>
    ensures legal { OnOk result (IsLegal (seen line.now)) }
    ensures fault { IfErr result (λ fault. IsByteFault fault (seen line.now)) }
{
    match illegal_in(line.bytes) {
        Some(index) => Err(PlanFault::NotAscii(line.place + index)),
        None => Ok(()),
    }
}

/// Reads one line between the markers.
fn read_line(alloc: Global, draft: &mut Draft, line: Piece<'_>) -> Result<(), PlanFault>
    ensures read { OnOk result ((kind : LineKind) × IsLine (seen line.entry) kind × (draft.new ≡ with_line draft.old kind)) }
    ensures once { OnOk result (length draft.new.root_lists ≤ 1) }
    ensures fault { IfErr result (λ fault. IsFaultOf fault draft.old.root_lists (seen line.entry)) }
{
    check_bytes(&line)?;
    let words = words_of(alloc, line)?;
    match kind_of(words.as_slice()) {
        Some(kind) => draft.add(alloc, line.place, kind),
        None => Err(PlanFault::BadLine(line.place)),
    }
}

/// Reads the lines between the markers, in their order.
fn read_lines(alloc: Global, lines: Lines<'_>) -> Result<Draft, PlanFault>
    ensures read { IfOk result (λ draft. IsRead lines.entry draft) }
    ensures fault { IfErr result (λ fault. HasFaultyLine lines.entry fault) }
{
    let mut draft = Draft::new(alloc);
    let mut lines = lines;
    while let Some(line) = lines.next() {
        read_line(alloc, &mut draft, line)?;
    }
    Ok(draft)
}

/// The file that the lines between the markers hold.
fn read_body(alloc: Global, lines: Lines<'_>) -> Result<PlanFile, PlanFault>
    ensures file { IfOk result (λ file. HoldsFile file lines.entry) }
    ensures fault { IfErr result (λ fault. IsFaultyBody fault lines.entry) }
{
    let draft = read_lines(alloc, lines)?;
    let Draft {
        actions,
        roots,
        decompositions,
    } = draft;
    match roots {
        Some(roots) => Ok(PlanFile::new(actions, roots, decompositions)),
        None => Err(PlanFault::NoRoot),
    }
}

/// The lines between the markers.
fn body_of(text: &[u8]) -> Result<Lines<'_>, PlanFault>
    ensures short { OnOk result (length text.now ≤ spec.max_bytes) }
    ensures body { IfOk result (λ lines. body text.now ≡ Some lines) }
    ensures fault { IfErr result (λ fault. FaultAt fault text.now) }
{
    if text.len() > MAX_BYTES {
        return Err(PlanFault::TooLong(MAX_BYTES));
    }
    let mut lines = Lines::new(text);
    if !skip_start(&mut lines) {
        return Err(PlanFault::NoStart);
    }
    match count_to_end(&lines) {
        Some(count) => Ok(lines.limited(count)),
        None => Err(PlanFault::NoEnd),
    }
}

/// Reads a plan text of the hierarchical track of the International Planning Competition 2020.
///
/// ` and a line `<==`. => The plan is between a line `==>` and a line `<==`.=>` and a line `<==`. Blank lines, blanks,
/// round brackets, the case of letters, the order of lines of different kinds and leading zeros are free. An `Err`
/// other than `OutOfMemory` names the first fault.
pub fn read_plan(alloc: Global, text: &[u8]) -> Result<PlanFile, PlanFault>
    // What is read is what the text holds, and it holds nothing else.
    ensures found { IfOk result (λ file. FileText file text.now) }
    ensures only { IfOk result (λ file. (other : PlanFile) → FileText other text.now → other ≡ file) }
    // A text is refused, unless memory runs out, only if it holds no file.
    ensures refused { IfErr result (λ fault. fault ≢ PlanFault.OutOfMemory → (file : PlanFile) → FileText file text.now → ⊥) }
    // It has the fault, at its place.
    ensures fault { IfErr result (λ fault. FaultAt fault text.now) }
{
    let lines = body_of(text)?;
    read_body(alloc, lines)
}
