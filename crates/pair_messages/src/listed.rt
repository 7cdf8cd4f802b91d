//! The first variable or label of a name in a list.

ghost use Rattle.std.specs.Prelude.{◌≡◌, ◌++◌, true, IfOk, IfSome, Some};
ghost use Rattle.std.specs.List.{flat_map};
ghost use Rattle.hddl_meaning.specs.Items.{variable_mentions};
ghost use Rattle.hddl_meaning.specs.Mentions.{mentions_of, typed_variables};
ghost use Rattle.hddl_meaning.specs.Names.{optional_mention};
ghost use Rattle.pair_messages.specs.Notes.{first_place};
ghost use Rattle.pair_messages.specs.Stands.{in_force};

use crate::phrases::count_variables;
use crate::stands::InForce;
use crate::variables::MOST_LOOKED_AT;
use hddl_names::fold;
use hddl_scope::{Mention, variables_in};
use hddl_words::{Name, SubtaskText, VariableGroup};
use std::alloc::{AllocError, Global};

/// Whether a typed list has so few variables that all are looked at.
fn is_short(groups: &[VariableGroup]) -> bool {
    match count_variables(groups) {
        Some(count) => count <= MOST_LOOKED_AT,
        None => false,
    }
}

/// The first place of a text among some names.
#[tactic(auto, using(crate::proofs::FirstPlaces::first_step))]
fn place_in(mentions: &[Mention<'_>], text: &[u8]) -> Option<usize>
    ensures { result ≡ first_place mentions.now text.now }
{
    for mention in mentions {
        if text == mention.text() {
            return Some(mention.place());
        }
    }
    None
}

/// The variables of a typed list; none where there are too many.
pub(crate) fn few_variables<'a>(
    alloc: Global,
    groups: &'a [VariableGroup],
) -> Result<Option<Vec<Mention<'a>>>, AllocError>
    ensures { IfOk result (λ found. IfSome found (λ v. v.items ≡ mentions_of (typed_variables groups.now))) }
{
    if !is_short(groups) {
        return Ok(None);
    }
    let mentions = variables_in(alloc, groups)?;
    Ok(Some(mentions))
}

/// Where the first variable of a typed list with a text is, among not too many.
pub(crate) fn first_variable(
    alloc: Global,
    groups: &[VariableGroup],
    text: &[u8],
) -> Result<Option<usize>, AllocError>
    ensures { IfOk result (λ found. IfSome found (λ place. first_place (mentions_of (typed_variables groups.now)) text.now ≡ Some place)) }
{
    let few = few_variables(alloc, groups)?;
    match few {
        Some(mentions) => Ok(place_in(mentions.as_slice(), text)),
        None => Ok(None),
    }
}

/// Adds the variables of a typed list, if there are not too many, and returns whether it did.
fn add_few<'a>(
    alloc: Global,
    all: &mut Vec<Mention<'a>>,
    groups: &'a [VariableGroup],
) -> Result<bool, AllocError>
    ensures { IfOk result (λ added. added ≡ true → all.new.items ≡ all.old.items ++ mentions_of (typed_variables groups.now)) }
{
    let few = few_variables(alloc, groups)?;
    let Some(mut more) = few else {
        return Ok(false);
    };
    all.append(&mut more)?;
    Ok(true)
}

/// The variables in force; none where there are too many.
fn few_in_force<'a>(
    alloc: Global,
    scope: &InForce<'a>,
) -> Result<Option<Vec<Mention<'a>>>, AllocError>
    ensures { IfOk result (λ found. IfSome found (λ v. v.items ≡ variable_mentions (in_force scope.now))) }
{
    let own = few_variables(alloc, scope.section.parameters())?;
    let Some(mut all) = own else {
        return Ok(None);
    };
    for groups in scope.quantified.as_slice() {
        let is_added = add_few(alloc, &mut all, groups)?;
        if !is_added {
            return Ok(None);
        }
    }
    Ok(Some(all))
}

/// Where the first variable in force with a text is declared, among not too many.
pub(crate) fn first_in_force(
    alloc: Global,
    scope: &InForce<'_>,
    text: &[u8],
) -> Result<Option<usize>, AllocError>
    ensures { IfOk result (λ found. IfSome found (λ place. first_place (variable_mentions (in_force scope.now)) text.now ≡ Some place)) }
{
    let few = few_in_force(alloc, scope)?;
    match few {
        Some(mentions) => Ok(place_in(mentions.as_slice(), text)),
        None => Ok(None),
    }
}

/// The place of a label, if it has a text.
fn label_place(
    alloc: Global,
    label: &Option<Name>,
    text: &[u8],
) -> Result<Option<usize>, AllocError>
    ensures { IfOk result (λ found. found ≡ first_place (optional_mention label.now) text.now) }
{
    let Some(name) = label else {
        return Ok(None);
    };
    let folded = fold(alloc, name.text())?;
    if text == folded.as_slice() {
        return Ok(Some(name.place()));
    }
    Ok(None)
}

/// Where the first label of a text is, among the first subtasks.
pub(crate) fn first_label(
    alloc: Global,
    subtasks: &[SubtaskText],
    text: &[u8],
) -> Result<Option<usize>, AllocError>
    ensures { IfOk result (λ found. IfSome found (λ place. first_place (flat_map (λ s. optional_mention s.label) subtasks.now) text.now ≡ Some place)) }
{
    let mut looked_at: usize = 0;
    for subtask in subtasks {
        if looked_at >= MOST_LOOKED_AT {
            return Ok(None);
        }
        looked_at = looked_at.saturating_add(1);
        let found = label_place(alloc, &subtask.label, text)?;
        if found.is_some() {
            return Ok(found);
        }
    }
    Ok(None)
}
