//! The diagnostic of a fault of a pair.

ghost use Rattle.std.specs.Prelude.{◌≡◌, ◌≢◌, [], IfOk};
ghost use Rattle.diagnostics.specs.declared.diagnostic.Severity.TheVariants.{Error};
ghost use Rattle.pair_messages.specs.Heads as spec;
ghost use Rattle.pair_messages.specs.Offers.{OffersMeant};
ghost use Rattle.pair_messages.specs.Notes.{AreNotes};

use crate::advice::remarks_of;
use crate::index::PairIndex;
use crate::places::notes_of;
use crate::spoken::{label_of, message_of};
use crate::texts::{at_of, spot_of, wide_spot};
use diagnostics::{Diagnostic, Part, Severity, Where};
use hddl_meaning::{CheckFault, Source as Side};
use std::alloc::{AllocError, Global};

/// The name of a fault.
fn code_of(fault: CheckFault) -> &'static str
    ensures { result.now ≡ spec.code_of fault }
{
    match fault {
        CheckFault::Duplicate(_) => "Duplicate",
        CheckFault::UnknownType(_) => "UnknownType",
        CheckFault::TypeCycle(_) => "TypeCycle",
        CheckFault::UnknownName(_) => "UnknownName",
        CheckFault::Arity(_) => "Arity",
        CheckFault::TypeClash(_) => "TypeClash",
        CheckFault::OrderCycle(_) => "OrderCycle",
        CheckFault::UnknownSubtask(_) => "UnknownSubtask",
        CheckFault::TooMany(_) => "TooMany",
        CheckFault::OutOfMemory => "OutOfMemory",
    }
}

/// How many bytes are underlined where a network's order has a cycle: its bracket with its keyword.
fn bracket_len(side: Side) -> usize {
    match side {
        Side::Domain => "(:method".len(),
        Side::Problem => "(:htn".len(),
    }
}

/// What a fault is about: its place, or the domain's text where it has none.
fn about<'a>(index: &PairIndex<'a>, fault: CheckFault) -> Where<'a>
    ensures { spec.IsAbout index.now.texts.now (spec.at_of fault) result }
{
    match fault {
        CheckFault::OrderCycle(at) => {
            Where::Place(wide_spot(index.texts, at, bracket_len(at.source)))
        }
        _ => match at_of(fault) {
            Some(at) => Where::Place(spot_of(index.texts, at)),
            None => Where::Text(index.texts.domain),
        },
    }
}

/// A message, or the name of the fault where it is empty.
fn never_empty<'a>(
    alloc: Global,
    message: Vec<Part<'a>>,
    code: &'a str,
) -> Result<Vec<Part<'a>>, AllocError>
    ensures { IfOk result (λ m. m.items ≢ []) }
{
    if message.is_empty() {
        return Ok(vec![in alloc; Part::Words(code)]?);
    }
    Ok(message)
}

/// The message of a fault, which is never empty.
fn some_message<'a>(
    alloc: Global,
    index: &PairIndex<'a>,
    fault: CheckFault,
) -> Result<Vec<Part<'a>>, AllocError>
    ensures { IfOk result (λ m. m.items ≢ []) }
{
    let message = message_of(alloc, index, fault)?;
    never_empty(alloc, message, code_of(fault))
}

/// The diagnostic of a fault of a pair: an error at the fault's place, with the fault's name as its code. An error
/// where memory was refused.
///
/// Names are shown as they are written. Only the first 1,024 variables of a typed list are examined, and the first 32
/// are shown. The rank is the number of faults before it: near names are offered, and cycles of types shown, for the
/// first 200 faults, and for fewer where that would compare names with more than some 100 million pairs of bytes.
pub fn pair_diagnostic<'a>(
    alloc: Global,
    index: &PairIndex<'a>,
    rank: usize,
    fault: CheckFault,
) -> Result<Diagnostic<'a>, AllocError>
    ensures severity { IfOk result (λ d. d.severity ≡ Error) }
    ensures code { IfOk result (λ d. d.code.now ≡ spec.code_of fault) }
    // A place past the end of a text is shown at its end.
    ensures place { IfOk result (λ d. spec.IsAbout index.now.texts.now (spec.at_of fault) d.about) }
    ensures message { IfOk result (λ d. d.message.items ≢ []) }
    // Each name that `did you mean` offers is declared and of the kind that is required there, and none is nearer.
    ensures offers { IfOk result (λ d. OffersMeant index.now.texts.now fault d.remarks.items) }
    // Each note is at the first declaration of a name that the fault has, or that is offered for it; at the section
    // around a variable that isn't in force; and those of an order with a cycle stand at pairs that are one.
    ensures notes { IfOk result (λ d. AreNotes index.now.texts.now fault d.remarks.items d.notes.items) }
{
    let remarks = remarks_of(alloc, index, rank, fault)?;
    let notes = notes_of(alloc, index, fault, remarks.as_slice())?;
    let label = label_of(alloc, index, rank, fault)?;
    let message = some_message(alloc, index, fault)?;
    Ok(Diagnostic {
        severity: Severity::Error,
        code: code_of(fault),
        about: about(index, fault),
        message,
        label,
        remarks,
        notes,
    })
}
