//! Cycles of types.
ghost use Rattle.std.specs.Prelude.{◌≡◌, Contains, OnOk, map};
ghost use Rattle.std.specs.List.{fold};
ghost use Rattle.hddl_meaning.specs.Mentions.{Typed, mention_of, typed_names};
ghost use Rattle.hddl_meaning.specs.Names.{optional_mention};
ghost use Rattle.hddl_names.specs.Cycles.{typed_name};
ghost use Rattle.hddl_check.specs.Cycles.{CycleFails, IsCycleFault, cycle_at};
ghost use Rattle.hddl_scope.specs.Findings.{Adds, AddsAny, keep};

use hddl_meaning::{At, CheckFault, Source};
use hddl_names::TypeHierarchy;
use hddl_scope::Findings;
use hddl_words::{Name, NameGroup};
use std::alloc::{AllocError, Global};

/// A type that is below itself, at one of its names.
fn cycle_at(name: &Name) -> CheckFault
    ensures { result ≡ cycle_at (mention_of name.now) }
{
    CheckFault::TypeCycle(At {
        source: Source::Domain,
        place: name.place(),
    })
}

/// The parent that is written for a type.
fn push_parent(parent: &Option<Name>, found: &mut Findings) -> Result<(), AllocError>
    ensures { OnOk result (found.new ≡ fold keep found.old (map cycle_at (optional_mention parent.now))) }
{
    if let Some(name) = parent {
        found.push(cycle_at(name))?;
    }
    Ok(())
}

/// The name of a type and that of its parent, where their declaration lies on a cycle.
fn check_declaration(
    alloc: Global,
    types: &TypeHierarchy,
    name: &Name,
    parent: &Option<Name>,
    found: &mut Findings,
) -> Result<(), AllocError>
    requires { Contains (typed_names types.now.types) (typed_name parent.now name.now) }
    ensures { OnOk result (Adds (λ _. ⊥) (CycleFails types.now (typed_name parent.now name.now)) found.old found.new) }
{
    let cyclic = types.lies_on_cycle(alloc, name, parent)?;
    if !cyclic {
        return Ok(());
    }
    found.push(cycle_at(name))?;
    push_parent(parent, found)?;
    Ok(())
}

/// The names of types with one parent whose declarations lie on cycles, and the parent.
fn check_declarations(
    alloc: Global,
    types: &TypeHierarchy,
    names: &[Name],
    parent: &Option<Name>,
    found: &mut Findings,
) -> Result<(), AllocError>
    requires { (x : Typed) → Contains (map (typed_name parent.now) names.now) x → Contains (typed_names types.now.types) x }
    ensures { OnOk result (AddsAny (λ _ _. ⊥) (CycleFails types.now) (map (typed_name parent.now) names.now) found.old found.new) }
{
    for name in names {
        check_declaration(alloc, types, name, parent, found)?;
    }
    Ok(())
}

/// Cycles of the types in these groups.
fn check_groups(
    alloc: Global,
    types: &TypeHierarchy,
    groups: &[NameGroup],
    found: &mut Findings,
) -> Result<(), AllocError>
    requires { groups.now ≡ types.now.types }
    ensures { OnOk result (AddsAny (λ _ _. ⊥) (CycleFails types.now) (typed_names groups.now) found.old found.new) }
{
    for group in groups {
        check_declarations(alloc, types, group.names.as_slice(), &group.of_type, found)?;
    }
    Ok(())
}

/// Cycles of types.
pub(crate) fn check_cycles(
    alloc: Global,
    types: &TypeHierarchy,
    found: &mut Findings,
) -> Result<(), AllocError>
    ensures { OnOk result (Adds (λ _. ⊥) (IsCycleFault types.now) found.old found.new) }
{
    let groups = types.domain().types.as_slice();
    check_groups(alloc, types, groups, found)?;
    Ok(())
}
