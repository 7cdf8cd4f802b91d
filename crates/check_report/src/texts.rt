//! The check of a domain's text, and of a problem's text if there is one.
ghost use Rattle.std.specs.Prelude.{◌≡◌, ◌≢◌, None, Some, IfOk};
ghost use Rattle.check_report.specs.Checks.{AreRefused, Checks, bytes_of, domain_named, problem_named};
ghost use Rattle.check_report.specs.Texts.{FitTogether};
ghost use Rattle.check_report.specs.Told.{named};

use crate::alone::check_domain;
use crate::pair::check_pair;
use crate::report::{Checked, Finding, Options};
use diagnostics::{Lines, Role, Source};
use std::alloc::{AllocError, Global};

/// A text with the name of its file, as the command line gives it.
#[derive(Clone, Copy)]
pub struct Input<'a> {
    pub name: &'a str,
    pub text: &'a [u8],
}

/// A text with its lines.
fn source_of<'a>(alloc: Global, role: Role, input: Input<'a>) -> Result<Source<'a>, AllocError>
    ensures { IfOk result (λ source. named source ≡ record { role = role; name = input.entry.name.now; bytes = input.entry.text.now }) }
{
    Ok(Source {
        role,
        name: input.name,
        lines: Lines::new(alloc, input.text)?,
    })
}

/// The report of a domain, and of a problem if there is one.
fn check_inputs(
    alloc: Global,
    domain: Input<'_>,
    problem: Option<Input<'_>>,
    options: Options,
) -> Result<Checked, AllocError>
    ensures { IfOk result (Checks (domain_named domain.entry) (problem_named problem.entry) options) }
{
    let domain = source_of(alloc, Role::Domain, domain)?;
    match problem {
        Some(problem) => {
            let problem = source_of(alloc, Role::Problem, problem)?;
            check_pair(alloc, &domain, &problem, options)
        }
        None => check_domain(alloc, &domain, options),
    }
}

/// All that is wrong with a domain, and with a problem if there is one: the report, which finds an error exactly where a
/// text is refused or the two don't fit together.
///
/// For a text that spells no tree the first fault is reported, and for both texts where both spell none. For two trees
/// all faults are reported, by place, the domain's first. For a domain alone the report has the faults that it has with
/// a problem that declares nothing, but for those of undeclared objects, which a problem may declare. An error where
/// memory was refused.
pub fn check_texts(
    alloc: Global,
    domain: Input<'_>,
    problem: Option<Input<'_>>,
    options: Options,
) -> Result<Checked, AllocError>
    // The errors of the report are exactly the faults of the texts.
    ensures report { IfOk result (Checks (domain_named domain.entry) (problem_named problem.entry) options) }
    // With an error the texts are refused.
    ensures refused { IfOk result (λ c. c.finding ≡ Finding.Faulty → AreRefused domain.entry.text.now (bytes_of (problem_named problem.entry))) }
    // Without one they fit together.
    ensures fits { IfOk result (λ c. c.finding ≢ Finding.Faulty → FitTogether domain.entry.text.now (bytes_of (problem_named problem.entry))) }
{
    let checked = check_inputs(alloc, domain, problem, options)?;
    Ok(checked)
}
