//! The check of a domain alone.
ghost use Rattle.std.specs.Prelude.{◌≡◌, None, IfOk};
ghost use Rattle.hddl_text.specs.Grammar.{DerivesDomain, DerivesProblem};
ghost use Rattle.hddl_text.specs.Spelling.{Spells};
ghost use Rattle.check_report.specs.Alone.{no_problem};
ghost use Rattle.check_report.specs.Checks.{Checks};
ghost use Rattle.check_report.specs.Texts.{AreOwnFaults, AreOwnWarnings};
ghost use Rattle.check_report.specs.Told.{named};
ghost use Rattle.check_report.specs.Saying.{TellsTrees, WarnsBefore};

use crate::arguments::{argument_places, is_own};
use crate::read::{domain_of, empty_problem};
use crate::report::{Checked, Options, report};
use crate::summary::domain_lines;
use crate::tell::{has_faults, text_errors, tree_errors};
use crate::warnings::warn_unless;
use diagnostics::{Diagnostic, Source};
use hddl_check::all_faults;
use hddl_meaning::CheckFault;
use hddl_words::{DomainText, ProblemText};
use pair_messages::PairTexts;
use std::alloc::{AllocError, Global};

/// The report of a domain alone.
pub(crate) fn check_domain(
    alloc: Global,
    domain: &Source<'_>,
    options: Options,
) -> Result<Checked, AllocError>
    ensures { IfOk result (Checks (named domain.now) None options) }
{
    match domain_of(alloc, domain.lines.text())? {
        Ok(tree) => {
            let empty = empty_problem(alloc)?;
            let texts = PairTexts {
                domain,
                problem: None,
                domain_tree: &tree,
                problem_tree: &empty,
            };
            check_tree(alloc, &texts, options)
        }
        Err(fault) => {
            let told = text_errors(alloc, domain, fault)?;
            let checked = report(alloc, told.as_slice(), &[], None, options)?;
            Ok(checked)
        }
    }
}

/// The report of a domain's tree.
fn check_tree(alloc: Global, texts: &PairTexts<'_>, options: Options) -> Result<Checked, AllocError>
    requires alone { texts.now.problem ≡ None }
    requires domain_spelled { Spells DerivesDomain texts.now.domain.now.lines texts.now.domain_tree.now }
    requires problem_spelled { Spells DerivesProblem no_problem texts.now.problem_tree.now }
    ensures { IfOk result (Checks (named texts.now.domain.now) None options) }
{
    let told = tell_tree(alloc, texts)?;
    let summary = domain_lines(alloc, texts.domain_tree)?;
    let checked = report(alloc, told.as_slice(), summary.as_slice(), None, options)?;
    Ok(checked)
}

/// The diagnostics of a domain's tree.
fn tell_tree<'a>(alloc: Global, texts: &'a PairTexts<'a>) -> Result<Vec<Diagnostic<'a>>, AllocError>
    ensures { IfOk result (λ told. TellsTrees texts.now (AreOwnFaults texts.now.domain.now.lines texts.now.domain_tree.now texts.now.problem_tree.now)
        (AreOwnWarnings texts.now.domain_tree.now) told.items) }
{
    let text = texts.domain.lines.text();
    let faults = own_faults(alloc, text, texts.domain_tree, texts.problem_tree)?;
    let errors = tree_errors(alloc, texts, faults.as_slice())?;
    let told = tell_own(alloc, texts, faults.as_slice(), errors)?;
    Ok(told)
}

/// Warnings, where there are no faults, and then the errors.
fn tell_own<'a>(
    alloc: Global,
    texts: &PairTexts<'a>,
    faults: &[CheckFault],
    errors: Vec<Diagnostic<'a>>,
) -> Result<Vec<Diagnostic<'a>>, AllocError>
    ensures { IfOk result (λ told. WarnsBefore texts.now (AreOwnWarnings texts.now.domain_tree.now faults.now) errors.entry.items told.items) }
{
    let mut errors = errors;
    let mut told = warn_unless(alloc, has_faults(faults), texts, None)?;
    told.append(&mut errors)?;
    Ok(told)
}

/// The faults that a domain has beside an empty problem, but for objects that aren't declared.
fn own_faults(
    alloc: Global,
    text: &[u8],
    domain: &DomainText,
    empty: &ProblemText,
) -> Result<Vec<CheckFault>, AllocError>
    ensures { IfOk result (λ faults. AreOwnFaults text.now domain.now empty.now faults.items) }
{
    let arguments = argument_places(alloc, text)?;
    let mut faults = all_faults(alloc, domain, empty)?;
    faults.retain(|fault| is_own(&arguments, *fault));
    Ok(faults)
}
