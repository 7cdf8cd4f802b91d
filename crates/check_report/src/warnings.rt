//! Warnings of texts.
ghost use Rattle.std.specs.Prelude.{◌≡◌, [], IfOk, true, false, option_map};
ghost use Rattle.std.specs.List.{AllZip};
ghost use Rattle.hddl_warnings.specs.Warnings.{IsOtherDomain, IsWarning};
ghost use Rattle.check_report.specs.Texts.{AreExactly};
ghost use Rattle.check_report.specs.Saying.{TellsExactly, WarnsPair};

use diagnostics::Diagnostic;
use hddl_warnings::{Warning, other_domain, warning_diagnostics, warnings_of};
use hddl_words::ProblemText;
use pair_messages::PairTexts;
use std::alloc::{AllocError, Global};

/// The warning that a problem is one of another domain, if it is.
fn other_of(alloc: Global, texts: &PairTexts<'_>) -> Result<Vec<Warning>, AllocError>
    ensures { IfOk result (λ ws. AreExactly (IsOtherDomain texts.now.domain_tree.now texts.now.problem_tree.now) ws.items) }
{
    let mut warnings = Vec::new(alloc);
    let Some(warning) = other_domain(alloc, texts.domain_tree, texts.problem_tree)? else {
        return Ok(warnings);
    };
    warnings.push(warning)?;
    Ok(warnings)
}

/// Warnings as diagnostics, in their order.
fn tell<'a>(
    alloc: Global,
    texts: &PairTexts<'a>,
    problem_tree: Option<&'a ProblemText>,
    warnings: &[Warning],
) -> Result<Vec<Diagnostic<'a>>, AllocError>
    ensures { IfOk result (λ told. AllZip (WarnsPair texts.now) warnings.now told.items) }
{
    let told = warning_diagnostics(
        alloc,
        texts.domain,
        texts.problem,
        texts.domain_tree,
        problem_tree,
        warnings,
    )?;
    Ok(told)
}

/// Warns of a problem of another domain.
pub(crate) fn warn_of_other<'a>(
    alloc: Global,
    texts: &PairTexts<'a>,
) -> Result<Vec<Diagnostic<'a>>, AllocError>
    ensures { IfOk result (λ told. TellsExactly texts.now (IsOtherDomain texts.now.domain_tree.now texts.now.problem_tree.now) told.items) }
{
    let warnings = other_of(alloc, texts)?;
    let told = tell(alloc, texts, Some(texts.problem_tree), warnings.as_slice())?;
    Ok(told)
}

/// Warns of what is never used, and of what is said twice.
fn warn<'a>(
    alloc: Global,
    texts: &PairTexts<'a>,
    problem_tree: Option<&'a ProblemText>,
) -> Result<Vec<Diagnostic<'a>>, AllocError>
    ensures { IfOk result (λ told. TellsExactly texts.now (IsWarning texts.now.domain_tree.now (option_map (λ p. p.now) problem_tree.entry)) told.items) }
{
    let warnings = warnings_of(alloc, texts.domain_tree, problem_tree)?;
    let told = tell(alloc, texts, problem_tree, warnings.as_slice())?;
    Ok(told)
}

/// Warns of these things, unless the texts are faulty.
pub(crate) fn warn_unless<'a>(
    alloc: Global,
    is_faulty: bool,
    texts: &PairTexts<'a>,
    problem_tree: Option<&'a ProblemText>,
) -> Result<Vec<Diagnostic<'a>>, AllocError>
    ensures none { is_faulty ≡ true → IfOk result (λ told. told.items ≡ []) }
    ensures all { is_faulty ≡ false → IfOk result (λ told. TellsExactly texts.now (IsWarning texts.now.domain_tree.now (option_map (λ p. p.now) problem_tree.entry)) told.items) }
{
    if is_faulty {
        return Ok(Vec::new(alloc));
    }
    warn(alloc, texts, problem_tree)
}
