//! Methods and actions that no plan uses.
ghost use Rattle.std.specs.Prelude.{◌≡◌, IfOk};
ghost use Rattle.hddl_meaning.specs.declared.fault.Source.TheVariants as side;
ghost use Rattle.check_report.specs.ReachWarnings as spec;

use diagnostics::{Diagnostic, Note, Part, Remark, RemarkKind, Severity, Where};
use hddl_meaning::Source;
use hddl_words::{Condition, Name};
use never_applied::Cause;
use pair_messages::{At, PairTexts, spot_of};
use std::alloc::{AllocError, Global};

/// A method or an action of a domain.
#[derive(Clone, Copy)]
pub(crate) struct Schema<'a> {
    /// What it is, and a blank.
    pub(crate) kind: &'static str,
    pub(crate) name: &'a Name,
    pub(crate) precondition: &'a [Condition],
}

/// A place of the domain.
fn in_domain(place: usize) -> At
    ensures { result ≡ record { source = side.Domain; place = place } }
{
    At {
        source: Source::Domain,
        place,
    }
}

/// Whether a method or an action is unused for a reason of its own, and doesn't follow from others.
pub(crate) fn is_cause(cause: Cause) -> bool
    ensures { result ≡ spec.is_cause cause }
{
    match cause {
        Cause::Follows => false,
        Cause::NoInstance | Cause::Literal { .. } | Cause::EachInstance { .. } => true,
    }
}

/// Adds in which instances something is so: `many` stands before their number.
fn push_instances<'a>(
    parts: &mut Vec<Part<'a>>,
    many: &'a str,
    count: usize,
) -> Result<(), AllocError> {
    if count == 1 {
        parts.push(Part::Words("in its only instance"))?;
        return Ok(());
    }
    parts.push(Part::Words(many))?;
    parts.push(Part::Number(count as u64))?;
    parts.push(Part::Words(" instances"))?;
    Ok(())
}

/// The message of each cause.
fn message<'a>(alloc: Global, schema: Schema<'a>) -> Result<Vec<Part<'a>>, AllocError> {
    let parts = vec![in alloc;
        Part::Words("no plan of this problem uses the "),
        Part::Words(schema.kind),
        Part::Name(schema.name.text()),
    ]?;
    Ok(parts)
}

/// What a cause has to say without a place.
fn remarks_of<'a>(alloc: Global, cause: Cause) -> Result<Vec<Remark<'a>>, AllocError> {
    let mut remarks = Vec::new(alloc);
    let mut message = Vec::new(alloc);
    match cause {
        Cause::NoInstance => {
            message.push(Part::Words("its parameters have no values for the tasks that arise"))?;
        }
        Cause::EachInstance { instances } => {
            push_instances(&mut message, "in each of its ", instances)?;
            message.push(Part::Words(" some literal is never true"))?;
        }
        Cause::Literal { .. } | Cause::Follows => return Ok(remarks),
    }
    remarks.push(Remark {
        kind: RemarkKind::Help,
        message,
    })?;
    Ok(remarks)
}

/// The literal that is to blame, where there is one.
fn notes_of<'a>(
    alloc: Global,
    texts: &PairTexts<'a>,
    schema: Schema<'a>,
    cause: Cause,
) -> Result<Vec<Note<'a>>, AllocError> {
    let mut notes = Vec::new(alloc);
    let Cause::Literal { place, instances } = cause else {
        return Ok(notes);
    };
    let Some(Condition::Literal(literal)) = schema.precondition.get(place) else {
        return Ok(notes);
    };
    let said = if literal.is_positive {
        "this is never true "
    } else {
        "this is never false "
    };
    let mut message = vec![in alloc; Part::Words(said)]?;
    push_instances(&mut message, "in any of its ", instances)?;
    notes.push(Note {
        spot: spot_of(texts, in_domain(literal.atom.name.place())),
        message,
    })?;
    Ok(notes)
}

/// The warning of a method or an action that no plan uses, about its name.
pub(crate) fn cause_warning<'a>(
    alloc: Global,
    texts: &PairTexts<'a>,
    schema: Schema<'a>,
    cause: Cause,
) -> Result<Diagnostic<'a>, AllocError>
    ensures { IfOk result (spec.IsNeverAppliedWarning texts.now schema.entry.name.now.place) }
{
    Ok(Diagnostic {
        severity: Severity::Warning,
        code: "NeverApplied",
        about: Where::Place(spot_of(texts, in_domain(schema.name.place()))),
        message: message(alloc, schema)?,
        label: Vec::new(alloc),
        remarks: remarks_of(alloc, cause)?,
        notes: notes_of(alloc, texts, schema, cause)?,
    })
}
