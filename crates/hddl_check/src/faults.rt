//! Faults of a domain and a problem.
ghost use Rattle.std.specs.Prelude.{◌≡◌, MatchOption, OnOk};
ghost use Rattle.hddl_meaning.specs.Building.{vocabulary_of};
ghost use Rattle.hddl_names.specs.Members.{AreDeclaredTypes};
ghost use Rattle.hddl_uses.specs.Declarations.{AreDeclarationsOf};
ghost use Rattle.hddl_scope.specs.Findings.{Adds};
ghost use Rattle.hddl_uses.specs.Known.{AreKnown};
ghost use Rattle.hddl_check.specs.TextParts.{PartFails};

use crate::shape::{check_domain, check_problem};
use hddl_meaning::Source;
use hddl_names::{DeclaredTypes, TypeHierarchy, Vocabulary};
use hddl_scope::Findings;
use hddl_uses::{Context, Declarations};
use hddl_words::{DomainText, ProblemText};
use std::alloc::{AllocError, Global};

/// Faults of the two texts, other than cycles of types.
pub(crate) fn check_texts<'a, 'd>(
    alloc: Global,
    domain: &'a DomainText,
    problem: &'a ProblemText,
    vocabulary: &'a Vocabulary,
    types: &'a TypeHierarchy<'a>,
    objects: Option<&'a DeclaredTypes>,
    declared: &'a Declarations<'d>,
    found: &mut Findings,
) -> Result<(), AllocError>
    requires vocabulary { vocabulary.now ≡ vocabulary_of domain.now problem.now }
    requires types { types.now ≡ domain.now }
    requires objects { MatchOption objects (AreKnown domain.now problem.now → ⊥) (λ o. AreKnown domain.now problem.now × AreDeclaredTypes domain.now problem.now o.now) }
    requires declared { AreDeclarationsOf domain.now declared.now }
    ensures { OnOk result (Adds (λ _. ⊥) (PartFails domain.now problem.now) found.old found.new) }
{
    let in_domain = Context {
        alloc,
        source: Source::Domain,
        domain,
        problem,
        vocabulary,
        types,
        objects,
        declared,
    };
    check_domain(&in_domain, found)?;
    let in_problem = Context {
        alloc,
        source: Source::Problem,
        domain,
        problem,
        vocabulary,
        types,
        objects,
        declared,
    };
    check_problem(&in_problem, found)?;
    Ok(())
}
