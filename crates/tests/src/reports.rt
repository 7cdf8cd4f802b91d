//! Tests of reports.

use crate::sources::source_of;
use diagnostics::{Diagnostic, Note, Part, Role, Severity, Source, Spot, Where, text_report};
use std::alloc::{AllocError, Global};

const TEXT: &[u8] = b"(p)\n\t(q ?x)\n\t(q ?y)\n";

/// A word of one byte at a place of a text, or at the end of a shorter one.
fn byte_at<'a>(source: &'a Source<'a>, place: usize) -> Spot<'a> {
    Spot {
        source,
        place: place.min(source.lines.text().len()),
        word_len: 1,
    }
}

/// A warning of a text, with a note at a place.
fn counted<'a>(
    alloc: Global,
    source: &'a Source<'a>,
    place: usize,
) -> Result<Diagnostic<'a>, AllocError> {
    let message = vec![in alloc; Part::Words("the "), Part::Words("first")]?;
    let spot = byte_at(source, place);
    let notes = vec![in alloc; Note { spot, message }]?;
    let message = vec![in alloc; Part::Number(7), Part::Words(" facts")]?;
    Ok(Diagnostic {
        severity: Severity::Warning,
        code: "Many",
        about: Where::Text(source),
        message,
        label: Vec::new(alloc),
        remarks: Vec::new(alloc),
        notes,
    })
}

const NOTED: &[u8] = b"d.hddl: warning: 7 facts [Many]
d.hddl:1:2: note: the first
    1 | (p)
      |  ^
      = also at d.hddl

no errors, 2 warnings
";

fn are_warnings_reported(alloc: Global, source: &Source<'_>) -> Result<bool, AllocError> {
    let mut warnings = Vec::new(alloc);
    warnings.push(counted(alloc, source, 1)?)?;
    warnings.push(counted(alloc, source, 6)?)?;
    let text = text_report(alloc, warnings.as_slice(), &[], 0, false)?;
    Ok(text.as_slice() == NOTED)
}

#[test]
fn warnings_without_a_place(rt: HostRuntime) -> Result<(), AllocError> {
    let source = source_of(rt.alloc(), Role::Domain, "d.hddl", TEXT)?;
    assert!(rt; are_warnings_reported(rt.alloc(), &source)?);
    Ok(())
}
