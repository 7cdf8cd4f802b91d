//! The task of two texts.
ghost use Rattle.std.specs.Prelude.{List, ℕ, IfOk, IfErr};
ghost use Rattle.hddl_meaning.specs.Building.{IsTaskOf};
ghost use Rattle.hddl_meaning.specs.Items.{IsWellTypedPair};
ghost use Rattle.hddl_text.specs.Grammar.{DerivesDomain, DerivesProblem};
ghost use Rattle.hddl_text.specs.Spelling.{Spells};
ghost use Rattle.hddl_words.specs.declared.domain.DomainText.{DomainText};
ghost use Rattle.word_machine.specs.declared.bounds.Bounds.{Bounds};
ghost use Rattle.htn_review.specs.Headline.{IsTaskOfTexts, Refuses};
ghost use Rattle.htn_review.specs.Named.{IsNamedOf};
ghost use Rattle.htn_review.specs.Sights.{IsPairOf};

use crate::outcome::RunFault;
use hddl_check::check;
use hddl_meaning::CheckFault;
use hddl_text::{DomainText, ProblemText, TextFault, read_domain, read_problem};
use htn_task::Task;
use std::alloc::Global;

/// The trees of a domain and a problem that fit together, and their task.
pub(crate) struct Pair {
    pub(crate) domain: DomainText,
    pub(crate) problem: ProblemText,
    pub(crate) task: Task,
}

impl Drop for Pair {
    fn drop(self) {
        let Pair {
            domain: _,
            problem: _,
            task: _,
        } = self;
    }
}

/// Reads the domain, then the problem, and then checks the pair.
pub(crate) fn pair_of(alloc: Global, domain: &[u8], problem: &[u8]) -> Result<Pair, RunFault>
    ensures pair { IfOk result (IsPairOf domain.now problem.now) }
    ensures refused { IfErr result (λ fault. (bounds : Bounds) → Refuses domain.now problem.now bounds fault) }
{
    let domain_tree = domain_of(alloc, domain)?;
    let problem_tree = problem_of(alloc, problem)?;
    let task = task_of_trees(alloc, &domain_tree, &problem_tree)?;
    Ok(Pair {
        domain: domain_tree,
        problem: problem_tree,
        task,
    })
}

/// Reads the domain, then the problem, and then checks the pair.
pub fn task_of(alloc: Global, domain: &[u8], problem: &[u8]) -> Result<Task, RunFault>
    ensures task { IfOk result (IsTaskOfTexts domain.now problem.now) }
    ensures refused { IfErr result (λ fault. (bounds : Bounds) → Refuses domain.now problem.now bounds fault) }
    // Of several faults of the pair it is the one that a check lists first.
    ensures named { IfErr result (IsNamedOf domain.now problem.now) }
{
    let domain_tree = domain_of(alloc, domain)?;
    let problem_tree = problem_of(alloc, problem)?;
    let task = task_of_trees(alloc, &domain_tree, &problem_tree)?;
    Ok(task)
}

// Checks the pair.
fn task_of_trees(
    alloc: Global,
    domain: &DomainText,
    problem: &ProblemText,
) -> Result<Task, RunFault>
    ensures fits { IfOk result (λ _. IsWellTypedPair domain.now problem.now) }
    ensures task { IfOk result (IsTaskOf domain.now problem.now) }
    ensures refused { IfErr result (λ fault. (first second : List ℕ) (bounds : Bounds)
        → Spells DerivesDomain first domain.now → Spells DerivesProblem second problem.now → Refuses first second bounds fault) }
    ensures named { IfErr result (λ fault. (first second : List ℕ)
        → Spells DerivesDomain first domain.now → Spells DerivesProblem second problem.now → IsNamedOf first second fault) }
{
    match check(alloc, domain, problem) {
        Ok(task) => Ok(task),
        Err(fault) => match fault {
            CheckFault::OutOfMemory => Err(RunFault::OutOfMemory),
            _ => Err(RunFault::Check(fault)),
        },
    }
}

fn domain_of(alloc: Global, text: &[u8]) -> Result<DomainText, RunFault>
    ensures spelled { IfOk result (Spells DerivesDomain text.now) }
    ensures refused { IfErr result (λ fault. (problem : List ℕ) (bounds : Bounds) → Refuses text.now problem bounds fault) }
    ensures named { IfErr result (λ fault. (problem : List ℕ) → IsNamedOf text.now problem fault) }
{
    match read_domain(alloc, text) {
        Ok(tree) => Ok(tree),
        Err(fault) => match fault {
            TextFault::OutOfMemory => Err(RunFault::OutOfMemory),
            _ => Err(RunFault::Domain(fault)),
        },
    }
}

// It is a problem's fault only beside a domain that is spelled.
fn problem_of(alloc: Global, text: &[u8]) -> Result<ProblemText, RunFault>
    ensures spelled { IfOk result (Spells DerivesProblem text.now) }
    ensures refused { IfErr result (λ fault. (domain : List ℕ) (tree : DomainText) (bounds : Bounds)
        → Spells DerivesDomain domain tree → Refuses domain text.now bounds fault) }
    ensures named { IfErr result (λ fault. (domain : List ℕ) → IsNamedOf domain text.now fault) }
{
    match read_problem(alloc, text) {
        Ok(tree) => Ok(tree),
        Err(fault) => match fault {
            TextFault::OutOfMemory => Err(RunFault::OutOfMemory),
            _ => Err(RunFault::Problem(fault)),
        },
    }
}
