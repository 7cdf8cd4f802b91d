//! What no plan of a domain and a problem uses.
ghost use Rattle.std.specs.Prelude.{◌≡◌, IfOk, IsSomeAnd, None, true, false};
ghost use Rattle.hddl_meaning.specs.Building.{IsTaskOf};
ghost use Rattle.check_report.specs.Reach as spec;
ghost use Rattle.check_report.specs.Asked.{AreReachTold, IsReachOf, findings_of};

use crate::reach_warnings::reach_warnings;
use diagnostics::{Diagnostic, Reached};
use hddl_check::check;
use hddl_words::{DomainText, ProblemText};
use htn_task::Task;
use never_applied::{Findings, find_unused};
use pair_messages::PairTexts;
use std::alloc::{AllocError, Global};

/// What no plan uses of a domain and a problem that fit together.
pub(crate) struct Reach {
    /// The task of the two.
    pub(crate) task: Task,
    /// None where too much would have to be listed.
    pub(crate) findings: Option<Findings>,
}

impl Drop for Reach {
    fn drop(self) {
        let Reach {
            task: _,
            findings: _,
        } = self;
    }
}

/// The task of two trees that fit together.
fn task_of(alloc: Global, domain: &DomainText, problem: &ProblemText) -> Result<Task, AllocError>
    ensures { IfOk result (IsTaskOf domain.now problem.now) }
{
    // Of two that fit together it is memory alone that may be refused.
    match check(alloc, domain, problem) {
        Ok(task) => Ok(task),
        Err(_) => Err(AllocError),
    }
}

/// What no plan uses of two trees that fit together.
fn reach_of(alloc: Global, domain: &DomainText, problem: &ProblemText) -> Result<Reach, AllocError>
    ensures { IfOk result (IsReachOf domain.now problem.now) }
{
    let task = task_of(alloc, domain, problem)?;
    let findings = find_unused(alloc, &task)?;
    Ok(Reach { task, findings })
}

/// What no plan uses of two trees, unless they are faulty.
pub(crate) fn reach_unless(
    alloc: Global,
    is_faulty: bool,
    domain: &DomainText,
    problem: &ProblemText,
) -> Result<Option<Reach>, AllocError>
    ensures none { is_faulty ≡ true → IfOk result (λ reach. reach ≡ None) }
    ensures all { is_faulty ≡ false → IfOk result (λ reach. IsSomeAnd reach (IsReachOf domain.now problem.now)) }
{
    if is_faulty {
        return Ok(None);
    }
    let reach = reach_of(alloc, domain, problem)?;
    Ok(Some(reach))
}

/// How much a plan may use.
fn reached_by(findings: &Findings) -> Reached
    ensures { result ≡ spec.reached_by findings.now }
{
    Reached {
        actions: findings.usable.actions.len(),
        methods: findings.usable.instances,
        facts: findings.facts,
        no_plan: findings.no_plan.is_some(),
    }
}

/// How much a plan may use, where it is known.
pub(crate) fn reached(reach: &Option<Reach>) -> Option<Reached>
    ensures { result ≡ spec.reached_of (findings_of reach.now) }
{
    match reach {
        Some(known) => match &known.findings {
            Some(findings) => Some(reached_by(findings)),
            None => None,
        },
        None => None,
    }
}

/// Warns of what no plan uses, where it is known.
pub(crate) fn warn_of_reach<'a>(
    alloc: Global,
    texts: &PairTexts<'a>,
    reach: &Option<Reach>,
) -> Result<Vec<Diagnostic<'a>>, AllocError>
    ensures { IfOk result (λ told. AreReachTold texts.now reach.now told.items) }
{
    match reach {
        Some(known) => match &known.findings {
            Some(findings) => reach_warnings(alloc, texts, &known.task, findings),
            None => Ok(Vec::new(alloc)),
        },
        None => Ok(Vec::new(alloc)),
    }
}
