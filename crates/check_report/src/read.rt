//! Trees of texts, or their faults.
ghost use Rattle.std.specs.Prelude.{IfOk, MatchResult};
ghost use Rattle.hddl_text.specs.Grammar.{DerivesDomain, DerivesProblem};
ghost use Rattle.hddl_text.specs.Spelling.{Spells};
ghost use Rattle.check_report.specs.Alone.{no_problem};
ghost use Rattle.check_report.specs.Texts.{IsFaulty};

use hddl_text::{read_domain, read_problem};
use hddl_words::{DomainText, ProblemText, TextFault};
use std::alloc::{AllocError, Global};

/// The tree of a domain's text, or its fault. An error where memory was refused.
pub(crate) fn domain_of(
    alloc: Global,
    text: &[u8],
) -> Result<Result<DomainText, TextFault>, AllocError>
    ensures { IfOk result (λ read. MatchResult read (Spells DerivesDomain text.now) (IsFaulty DerivesDomain text.now)) }
{
    match read_domain(alloc, text) {
        Ok(tree) => Ok(Ok(tree)),
        Err(fault) => match fault {
            TextFault::OutOfMemory => Err(AllocError),
            _ => Ok(Err(fault)),
        },
    }
}

/// The tree of a problem's text, or its fault. An error where memory was refused.
pub(crate) fn problem_of(
    alloc: Global,
    text: &[u8],
) -> Result<Result<ProblemText, TextFault>, AllocError>
    ensures { IfOk result (λ read. MatchResult read (Spells DerivesProblem text.now) (IsFaulty DerivesProblem text.now)) }
{
    match read_problem(alloc, text) {
        Ok(tree) => Ok(Ok(tree)),
        Err(fault) => match fault {
            TextFault::OutOfMemory => Err(AllocError),
            _ => Ok(Err(fault)),
        },
    }
}

/// The tree of a problem that declares nothing.
pub(crate) fn empty_problem(alloc: Global) -> Result<ProblemText, AllocError>
    ensures { IfOk result (Spells DerivesProblem no_problem) }
{
    // The text is a problem's, so it is memory alone that may be refused.
    match read_problem(alloc, b"(define (problem none) (:domain none) (:htn))") {
        Ok(tree) => Ok(tree),
        Err(_) => Err(AllocError),
    }
}
