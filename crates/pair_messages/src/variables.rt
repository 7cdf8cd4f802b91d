//! Variables in force.

ghost use Rattle.std.specs.Prelude.{◌≡◌, List, ◌++◌, IfOk, OnOk, map, true};
ghost use Rattle.std.specs.List.{All};
ghost use Rattle.hddl_meaning.specs.Mentions.{folded, Text};
ghost use Rattle.diagnostics.specs.Near.{names_of};
ghost use Rattle.pair_messages.specs.Bindings.{AreAllIn, IsBindingIn, group_texts, variables_in};
ghost use Rattle.pair_messages.specs.Offers.{variable_texts};
ghost use Rattle.pair_messages.specs.Stands.{in_force};

use crate::stands::InForce;
use hddl_words::{Name, Variable, VariableGroup};
use std::alloc::{AllocError, Global};

/// The most variables of a typed list that are looked at. A list of more than 32 is a fault, but for a compound task's.
pub(crate) const MOST_LOOKED_AT: usize = 1024;

/// A variable with the type that is written for it.
#[derive(Clone, Copy, Drop)]
pub(crate) struct Binding<'a> {
    pub(crate) variable: &'a Variable,
    pub(crate) of_type: &'a Option<Name>,
    pub(crate) is_quantified: bool,
}

/// Adds variables of a group, until as many of the list as the limit says were looked at, and returns how many were.
fn push_bound<'a>(
    bindings: &mut Vec<Binding<'a>>,
    group: &'a VariableGroup,
    is_quantified: bool,
    before: usize,
) -> Result<usize, AllocError>
    ensures { OnOk result ((names : List Text) → All (IsBindingIn names) bindings.old.items → AreAllIn (map (λ x. folded x.text) group.now.variables) names → All (IsBindingIn names) bindings.new.items) }
{
    let mut looked_at = before;
    for variable in group.variables.as_slice() {
        if looked_at >= MOST_LOOKED_AT {
            return Ok(looked_at);
        }
        bindings.push(Binding {
            variable,
            of_type: &group.of_type,
            is_quantified,
        })?;
        looked_at = looked_at.saturating_add(1);
    }
    Ok(looked_at)
}

/// Adds the first variables of a typed list.
fn push_bindings<'a>(
    bindings: &mut Vec<Binding<'a>>,
    groups: &'a [VariableGroup],
    is_quantified: bool,
) -> Result<(), AllocError>
    ensures { OnOk result ((names : List Text) → All (IsBindingIn names) bindings.old.items → AreAllIn (group_texts groups.now) names → All (IsBindingIn names) bindings.new.items) }
{
    let mut looked_at: usize = 0;
    for group in groups {
        if looked_at >= MOST_LOOKED_AT {
            return Ok(());
        }
        looked_at = push_bound(bindings, group, is_quantified, looked_at)?;
    }
    Ok(())
}

/// The places of a declaration.
pub(crate) fn places_of<'a>(
    alloc: Global,
    groups: &'a [VariableGroup],
) -> Result<Vec<Binding<'a>>, AllocError> {
    let mut places = Vec::new(alloc);
    push_bindings(&mut places, groups, false)?;
    Ok(places)
}

/// The variables in force.
pub(crate) fn bindings_of<'a>(
    alloc: Global,
    scope: &InForce<'a>,
) -> Result<Vec<Binding<'a>>, AllocError>
    ensures { IfOk result (λ bindings. All (IsBindingIn (variable_texts (in_force scope.now))) bindings.items) }
{
    let mut bindings = Vec::new(alloc);
    push_bindings(&mut bindings, scope.section.parameters(), false)?;
    for groups in scope.quantified.as_slice() {
        push_bindings(&mut bindings, groups, true)?;
    }
    Ok(bindings)
}

/// Adds the variables of a group.
fn push_group<'a>(names: &mut Vec<&'a [u8]>, variables: &'a [Variable]) -> Result<(), AllocError>
    ensures { OnOk result (names_of names.new.items ≡ names_of names.old.items ++ map (λ x. x.text) variables.now) }
{
    for variable in variables {
        names.push(variable.text())?;
    }
    Ok(())
}

/// Adds the variables of a typed list.
fn push_variables<'a>(
    names: &mut Vec<&'a [u8]>,
    groups: &'a [VariableGroup],
) -> Result<(), AllocError>
    ensures { OnOk result (names_of names.new.items ≡ names_of names.old.items ++ variables_in groups.now) }
{
    for group in groups {
        push_group(names, group.variables.as_slice())?;
    }
    Ok(())
}

/// All variables in force, as they are written.
pub(crate) fn names_in_force<'a>(
    alloc: Global,
    scope: &InForce<'a>,
) -> Result<Vec<&'a [u8]>, AllocError>
    ensures { IfOk result (λ names. map folded (names_of names.items) ≡ variable_texts (in_force scope.now)) }
{
    let mut names = Vec::new(alloc);
    push_variables(&mut names, scope.section.parameters())?;
    for groups in scope.quantified.as_slice() {
        push_variables(&mut names, groups)?;
    }
    Ok(names)
}

/// Whether two names are the same, in whatever case.
pub(crate) fn is_same(name: &[u8], other: &[u8]) -> bool
    ensures { result ≡ true → folded name.now ≡ folded other.now }
{
    name.eq_ignore_ascii_case(other)
}

/// The first variable of a name.
pub(crate) fn binding_in<'a>(bindings: &[Binding<'a>], text: &[u8]) -> Option<Binding<'a>> {
    for binding in bindings {
        if is_same(binding.variable.text(), text) {
            return Some(*binding);
        }
    }
    None
}
