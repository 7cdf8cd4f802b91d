//! Faults as diagnostics.
ghost use Rattle.std.specs.Prelude.{◌≡◌, ◌≢◌, [], IfOk, true, false};
ghost use Rattle.std.specs.List.{AllZip};
ghost use Rattle.check_report.specs.Told.{named};
ghost use Rattle.check_report.specs.Saying.{AreErrors, TellsPair, TellsText};

use diagnostics::{Diagnostic, Source};
use hddl_meaning::CheckFault;
use hddl_words::TextFault;
use pair_messages::{PairIndex, PairTexts, pair_diagnostic};
use std::alloc::{AllocError, Global};
use text_messages::text_diagnostic;

/// The error of a text's fault.
pub(crate) fn text_error<'a>(
    alloc: Global,
    source: &'a Source<'a>,
    fault: TextFault,
) -> Result<Diagnostic<'a>, AllocError>
    ensures { IfOk result (TellsText (named source.now) fault) }
{
    let error = text_diagnostic(alloc, source, fault)?;
    Ok(error)
}

/// The error of a text's fault, alone.
pub(crate) fn text_errors<'a>(
    alloc: Global,
    source: &'a Source<'a>,
    fault: TextFault,
) -> Result<Vec<Diagnostic<'a>>, AllocError>
    ensures { IfOk result (λ errors. AreErrors (named source.now) fault errors.items) }
{
    let error = text_error(alloc, source, fault)?;
    let mut errors = Vec::new(alloc);
    errors.push(error)?;
    Ok(errors)
}

/// The error of a pair's fault, with this many faults before it.
fn pair_error<'a>(
    alloc: Global,
    index: &PairIndex<'a>,
    rank: usize,
    fault: CheckFault,
) -> Result<Diagnostic<'a>, AllocError>
    ensures { IfOk result (TellsPair index.now.texts.now fault) }
{
    let error = pair_diagnostic(alloc, index, rank, fault)?;
    Ok(error)
}

/// Whether there are faults.
pub(crate) fn has_faults(faults: &[CheckFault]) -> bool
    ensures some { result ≡ true → faults.now ≢ [] }
    ensures none { result ≡ false → faults.now ≡ [] }
{
    match faults {
        [] => false,
        [_, ..] => true,
    }
}

/// The errors of the faults of two trees, in their order.
pub(crate) fn tree_errors<'a>(
    alloc: Global,
    texts: &'a PairTexts<'a>,
    faults: &[CheckFault],
) -> Result<Vec<Diagnostic<'a>>, AllocError>
    ensures { IfOk result (λ errors. AllZip (TellsPair texts.now) faults.now errors.items) }
{
    let index = PairIndex::new(alloc, texts)?;
    let errors = pair_errors(alloc, &index, faults)?;
    Ok(errors)
}

/// The errors of a pair's faults, in their order.
fn pair_errors<'a>(
    alloc: Global,
    index: &PairIndex<'a>,
    faults: &[CheckFault],
) -> Result<Vec<Diagnostic<'a>>, AllocError>
    ensures { IfOk result (λ errors. AllZip (TellsPair index.now.texts.now) faults.now errors.items) }
{
    let mut errors = Vec::new(alloc);
    for fault in faults {
        let rank = errors.len();
        errors.push(pair_error(alloc, index, rank, *fault)?)?;
    }
    Ok(errors)
}
