//! All warnings of a domain and a problem.
ghost use Rattle.std.specs.Prelude.{◌≡◌, ◌↔◌, IfOk, IsSomeAnd, MatchOption, OnOk, option_map};
ghost use Rattle.std.specs.List.Sorted.{IsStrictlySortedBy};
ghost use Rattle.hddl_meaning.specs.Mentions.{IsIn, folded};
ghost use Rattle.hddl_meaning.specs.Names.{is_same_text};
ghost use Rattle.hddl_warnings.specs.Order.{warning_cmp};
ghost use Rattle.hddl_warnings.specs.Tells.{Tells};
ghost use Rattle.hddl_warnings.specs.Warnings.{IsOtherDomain, IsWarning, IsWarningOfPair};
ghost use Rattle.hddl_warnings.specs.declared.warning.Warning.{Warning as WarningText};

use crate::effects::tell_effects;
use crate::objects::tell_objects;
use crate::parameters::tell_schemas;
use crate::predicates::{all_parts, tell_predicates};
use crate::tasks::{tell_no_methods, tell_unused_tasks};
use crate::types::tell_types;
use crate::warning::{Warning, WarningKind};
use hddl_meaning::{At, Source};
use hddl_names::fold;
use hddl_words::{DomainText, ProblemText};
use std::alloc::{AllocError, Global};

/// Whether a problem names the domain.
fn is_own_domain(
    alloc: Global,
    domain: &DomainText,
    problem: &ProblemText,
) -> Result<bool, AllocError>
    ensures { IfOk result (λ own. own ≡ is_same_text (folded problem.now.domain.text) (folded domain.now.name.text)) }
{
    let named = fold(alloc, problem.domain.text())?;
    let given = fold(alloc, domain.name.text())?;
    Ok(named.as_slice() == given.as_slice())
}

/// The warning that a problem is one of another domain, if it is. It holds beside errors too. An error where memory
/// was refused.
pub fn other_domain(
    alloc: Global,
    domain: &DomainText,
    problem: &ProblemText,
) -> Result<Option<Warning>, AllocError>
    ensures { IfOk result (λ told. MatchOption told ((w : WarningText) → IsOtherDomain domain.now problem.now w → ⊥) (IsOtherDomain domain.now problem.now)) }
{
    let own = is_own_domain(alloc, domain, problem)?;
    if own {
        return Ok(None);
    }
    Ok(Some(Warning {
        kind: WarningKind::OtherDomain,
        at: At {
            source: Source::Problem,
            place: problem.domain.place(),
        },
    }))
}

/// Warns of what is looked for with a problem alone.
fn tell_pair(
    alloc: Global,
    out: &mut Vec<Warning>,
    domain: &DomainText,
    problem: &ProblemText,
) -> Result<(), AllocError>
    ensures { OnOk result (Tells out.old.items out.new.items (IsWarningOfPair domain.now problem.now)) }
{
    let parts = all_parts(alloc, domain, problem)?;
    tell_types(alloc, out, domain, problem, &parts.groups)?;
    tell_predicates(alloc, out, domain, problem, &parts.atoms)?;
    tell_unused_tasks(alloc, out, domain, problem)?;
    tell_objects(alloc, out, domain, problem)?;
    Ok(())
}

/// Warns of what is looked for with a problem alone, if there is a problem.
fn tell_with(
    alloc: Global,
    out: &mut Vec<Warning>,
    domain: &DomainText,
    problem: Option<&ProblemText>,
) -> Result<(), AllocError>
    ensures { OnOk result (Tells out.old.items out.new.items (λ w. IsSomeAnd (option_map (λ p. p.now) problem.entry) (λ p. IsWarningOfPair domain.now p w))) }
{
    let Some(problem) = problem else {
        return Ok(());
    };
    tell_pair(alloc, out, domain, problem)?;
    Ok(())
}

/// Exactly the warnings that hold of a domain, and with a problem those of both, but for that of another domain; each
/// once, the domain's before the problem's, by place. An error where memory was refused.
pub fn warnings_of(
    alloc: Global,
    domain: &DomainText,
    problem: Option<&ProblemText>,
) -> Result<Vec<Warning>, AllocError>
    ensures exactly { IfOk result (λ found. (w : WarningText) → IsIn w found.items ↔ IsWarning domain.now (option_map (λ p. p.now) problem.entry) w) }
    ensures ordered { IfOk result (λ found. IsStrictlySortedBy warning_cmp found.items) }
{
    let mut found = Vec::new(alloc);
    tell_schemas(alloc, &mut found, domain)?;
    tell_effects(alloc, &mut found, domain)?;
    tell_no_methods(alloc, &mut found, domain, problem)?;
    tell_with(alloc, &mut found, domain, problem)?;
    found.sort_unstable();
    found.dedup();
    Ok(found)
}
