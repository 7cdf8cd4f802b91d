//! Whether a domain and a problem fit together, and the task that they are.
ghost use Rattle.std.specs.Prelude.{◌≡◌, ◌≢◌, ◌⊎◌, ◌↔◌, [], true, slice_get, Contains, IfOk, IfErr, IfSome, MatchOption, OnOk};
ghost use Rattle.hddl_meaning.specs.Building.{IsTaskOf, vocabulary_of};
ghost use Rattle.hddl_meaning.specs.Items.{FailsAt, IsWellTypedPair};
ghost use Rattle.hddl_meaning.specs.declared.fault.CheckFault.TheVariants.{OutOfMemory};
ghost use Rattle.hddl_meaning.specs.declared.fault.CheckFault.{CheckFault};
ghost use Rattle.hddl_check.specs.Faults.{IsFirst, IsLeftOut, IsNamed, PairFails};
ghost use Rattle.hddl_check.specs.TextParts.{PartFails};
ghost use Rattle.hddl_names.specs.Members.{AreDeclaredTypes};
ghost use Rattle.hddl_scope.specs.Findings.{Adds, Finds};
ghost use Rattle.hddl_scope.specs.Ranks.{AreInOrder};
ghost use Rattle.hddl_uses.specs.Known.{AreKnown};

use crate::cycles::check_cycles;
use crate::faults::check_texts;
use crate::objects::known_objects;
use hddl_build::build;
use hddl_meaning::CheckFault;
use hddl_names::{DeclaredTypes, TypeHierarchy, Vocabulary};
use hddl_scope::{Findings, in_order};
use hddl_uses::Declarations;
use hddl_words::{DomainText, ProblemText};
use htn_task::Task;
use std::alloc::{AllocError, Global};

/// Faults of the two texts of a pair, other than cycles of types.
fn check_with(
    alloc: Global,
    problem: &ProblemText,
    vocabulary: &Vocabulary,
    types: &TypeHierarchy,
    objects: Option<&DeclaredTypes>,
    found: &mut Findings,
) -> Result<(), AllocError>
    requires vocabulary { vocabulary.now ≡ vocabulary_of types.now problem.now }
    requires objects { MatchOption objects (AreKnown types.now problem.now → ⊥) (λ o. AreKnown types.now problem.now × AreDeclaredTypes types.now problem.now o.now) }
    ensures { OnOk result (Adds (λ _. ⊥) (PartFails types.now problem.now) found.old found.new) }
{
    let domain = types.domain();
    let declared = Declarations::of(alloc, domain)?;
    check_texts(
        alloc, domain, problem, vocabulary, types, objects, &declared, found,
    )?;
    Ok(())
}

/// Faults of a pair.
fn check_pair(
    alloc: Global,
    problem: &ProblemText,
    vocabulary: &Vocabulary,
    types: &TypeHierarchy,
    found: &mut Findings,
) -> Result<(), AllocError>
    requires { vocabulary.now ≡ vocabulary_of types.now problem.now }
    ensures added { OnOk result (Adds (λ _. ⊥) (PairFails types.now problem.now) found.old found.new) }
    ensures known { OnOk result (AreKnown types.now problem.now ⊎ (AreKnown types.now problem.now → ⊥)) }
{
    check_cycles(alloc, types, found)?;
    let objects = known_objects(alloc, problem, vocabulary, types)?;
    check_with(alloc, problem, vocabulary, types, objects.as_ref(), found)?;
    Ok(())
}

/// Adds the faults of a pair.
fn find_faults(
    alloc: Global,
    domain: &DomainText,
    problem: &ProblemText,
    vocabulary: &Vocabulary,
    found: &mut Findings,
) -> Result<(), AllocError>
    requires { vocabulary.now ≡ vocabulary_of domain.now problem.now }
    ensures added { OnOk result (Adds (λ _. ⊥) (PairFails domain.now problem.now) found.old found.new) }
    ensures known { OnOk result (AreKnown domain.now problem.now ⊎ (AreKnown domain.now problem.now → ⊥)) }
{
    let types = TypeHierarchy::of(alloc, domain, vocabulary)?;
    check_pair(alloc, problem, vocabulary, &types, found)?;
    Ok(())
}

/// The first fault of a pair.
fn fault_of(
    alloc: Global,
    domain: &DomainText,
    problem: &ProblemText,
    vocabulary: &Vocabulary,
) -> Result<Option<CheckFault>, AllocError>
    requires { vocabulary.now ≡ vocabulary_of domain.now problem.now }
    ensures finds { IfOk result (Finds (PairFails domain.now problem.now)) }
    ensures first { IfOk result (λ fault. IfSome fault (IsFirst domain.now problem.now)) }
    ensures named { IfOk result (λ fault. IfSome fault (IsNamed domain.now problem.now)) }
{
    let mut found = Findings::first(alloc);
    find_faults(alloc, domain, problem, vocabulary, &mut found)?;
    Ok(found.faults().first().copied())
}

/// The task of a pair that fits together.
fn task_of(
    alloc: Global,
    domain: &DomainText,
    problem: &ProblemText,
    vocabulary: &Vocabulary,
) -> Result<Task, AllocError>
    requires fits { IsWellTypedPair domain.now problem.now }
    requires vocabulary { vocabulary.now ≡ vocabulary_of domain.now problem.now }
    requires known { AreKnown domain.now problem.now }
    ensures { IfOk result (IsTaskOf domain.now problem.now) }
{
    let types = TypeHierarchy::of(alloc, domain, vocabulary)?;
    build(alloc, domain, problem, vocabulary, &types)
}

/// The task of a pair, or a fault, or an error where memory was refused.
fn answer_with(
    alloc: Global,
    domain: &DomainText,
    problem: &ProblemText,
    vocabulary: &Vocabulary,
) -> Result<Result<Task, CheckFault>, AllocError>
    requires vocabulary { vocabulary.now ≡ vocabulary_of domain.now problem.now }
    ensures fits { IfOk result (λ answer. IfOk answer (λ _. IsWellTypedPair domain.now problem.now)) }
    ensures task { IfOk result (λ answer. IfOk answer (IsTaskOf domain.now problem.now)) }
    ensures fault { IfOk result (λ answer. IfErr answer (FailsAt domain.now problem.now)) }
    ensures first { IfOk result (λ answer. IfErr answer (IsFirst domain.now problem.now)) }
    ensures named { IfOk result (λ answer. IfErr answer (IsNamed domain.now problem.now)) }
{
    let fault = fault_of(alloc, domain, problem, vocabulary)?;
    if let Some(fault) = fault {
        return Ok(Err(fault));
    }
    let task = task_of(alloc, domain, problem, vocabulary)?;
    Ok(Ok(task))
}

/// The task of a pair, or a fault, or an error where memory was refused, with a vocabulary of its own.
fn answer_of(
    alloc: Global,
    domain: &DomainText,
    problem: &ProblemText,
) -> Result<Result<Task, CheckFault>, AllocError>
    ensures fits { IfOk result (λ answer. IfOk answer (λ _. IsWellTypedPair domain.now problem.now)) }
    ensures task { IfOk result (λ answer. IfOk answer (IsTaskOf domain.now problem.now)) }
    ensures fault { IfOk result (λ answer. IfErr answer (FailsAt domain.now problem.now)) }
    ensures first { IfOk result (λ answer. IfErr answer (IsFirst domain.now problem.now)) }
    ensures named { IfOk result (λ answer. IfErr answer (IsNamed domain.now problem.now)) }
{
    let vocabulary = Vocabulary::of(alloc, domain, problem)?;
    answer_with(alloc, domain, problem, &vocabulary)
}

/// The task of a domain and a problem that fit together.
///
/// Of several faults it is the one that comes first in the texts, the domain before the problem, with two exceptions.
/// Where a type of a constant or an object isn't declared, or there are more than 65,536 of them, clashes of constants
/// and objects aren't looked for. And where parameters stand after the precondition, a variable that is a parameter and
/// stands twice among `forall`s inside one another is named at the parameter.
pub fn check(alloc: Global, domain: &DomainText, problem: &ProblemText) -> Result<Task, CheckFault>
    ensures fits { IfOk result (λ _. IsWellTypedPair domain.now problem.now) }
    ensures task { IfOk result (IsTaskOf domain.now problem.now) }
    // The fault holds at its place.
    ensures fault { IfErr result (λ fault. fault ≢ OutOfMemory → FailsAt domain.now problem.now fault) }
    // None comes before it, but for those that aren't looked for.
    ensures first { IfErr result (λ fault. fault ≢ OutOfMemory → IsFirst domain.now problem.now fault) }
    // It is the first of those that are looked for.
    ensures named { IfErr result (λ fault. fault ≢ OutOfMemory → IsNamed domain.now problem.now fault) }
{
    match answer_of(alloc, domain, problem) {
        Ok(answer) => answer,
        Err(_) => Err(CheckFault::OutOfMemory),
    }
}

/// All faults of a pair, in the order in which they are found.
fn found_with(
    alloc: Global,
    domain: &DomainText,
    problem: &ProblemText,
    vocabulary: &Vocabulary,
) -> Result<Findings, AllocError>
    requires vocabulary { vocabulary.now ≡ vocabulary_of domain.now problem.now }
    ensures added { IfOk result (Adds (λ _. ⊥) (PairFails domain.now problem.now) (record { keeps_all = true; faults = [] })) }
    ensures known { OnOk result (AreKnown domain.now problem.now ⊎ (AreKnown domain.now problem.now → ⊥)) }
{
    let mut found = Findings::all(alloc);
    find_faults(alloc, domain, problem, vocabulary, &mut found)?;
    Ok(found)
}

/// All faults of a pair, in the order in which they are found, with a vocabulary of its own.
fn all_found(
    alloc: Global,
    domain: &DomainText,
    problem: &ProblemText,
) -> Result<Findings, AllocError>
    ensures added { IfOk result (Adds (λ _. ⊥) (PairFails domain.now problem.now) (record { keeps_all = true; faults = [] })) }
    ensures known { OnOk result (AreKnown domain.now problem.now ⊎ (AreKnown domain.now problem.now → ⊥)) }
{
    let vocabulary = Vocabulary::of(alloc, domain, problem)?;
    found_with(alloc, domain, problem, &vocabulary)
}

/// All faults of a domain and a problem, each once, by their places, the domain's before the problem's: none exactly
/// where they fit together.
///
/// Those that `check` doesn't look for aren't looked for either: clashes of constants and objects where a type of one
/// of them isn't declared or there are more than 65,536 of them, and a name that stands again after one of that name
/// whose place is past it, as where parameters stand after a precondition, but for the place of that parameter.
pub fn all_faults(
    alloc: Global,
    domain: &DomainText,
    problem: &ProblemText,
) -> Result<Vec<CheckFault>, AllocError>
    // Each fault that is listed holds at its place.
    ensures sound { IfOk result (λ faults. (f : CheckFault) → Contains faults.items f → FailsAt domain.now problem.now f) }
    // Each that holds is listed, unless it isn't looked for.
    ensures complete { IfOk result (λ faults. (f : CheckFault) → FailsAt domain.now problem.now f → Contains faults.items f ⊎ IsLeftOut domain.now problem.now f) }
    // None is listed where the two fit together.
    ensures none { IfOk result (λ faults. (faults.items ≡ []) ↔ IsWellTypedPair domain.now problem.now) }
    // They come in the order of the texts, and none twice.
    ensures order { IfOk result (λ faults. AreInOrder faults.items) }
    // None comes before the first, but for those that aren't looked for.
    ensures first { IfOk result (λ faults. IfSome (slice_get faults.items 0) (IsFirst domain.now problem.now)) }
    // Those that are looked for are listed, and no others.
    ensures found { IfOk result (λ faults. (f : CheckFault) → Contains faults.items f ↔ PairFails domain.now problem.now f) }
    // The first is the fault that `check` names.
    ensures named { IfOk result (λ faults. IfSome (slice_get faults.items 0) (IsNamed domain.now problem.now)) }
{
    let found = all_found(alloc, domain, problem)?;
    let faults = in_order(alloc, found.faults())?;
    Ok(faults)
}

/// The two texts determine the fault that is named: `check` names the one that `all_faults` lists first.
pub fn named_faults_are_unique()
    ensures unique { (d : DomainText) (p : ProblemText) (f g : CheckFault) → IsNamed d p f → IsNamed d p g → f ≡ g }
{}
