//! Where the first of the names is that stand twice.

ghost use Rattle.std.specs.Prelude.{◌≡◌, IfOk, IfSome};
ghost use Rattle.hddl_meaning.specs.Items.{declaration_lists};
ghost use Rattle.pair_messages.specs.Notes.{name_lists, IsFirstIn};
ghost use Rattle.pair_messages.specs.Stands.{IsSectionOf};

use crate::declared::{Declared, declared_at};
use crate::index::PairIndex;
use crate::listed::{first_label, first_variable};
use crate::orders::network_by;
use crate::phrases::Section;
use hddl_locate::{action_by, method_by};
use hddl_meaning::{At, Source as Side};
use std::alloc::{AllocError, Global};

/// The earlier of the first task and the first action of a name.
fn first_task_or_action(index: &PairIndex<'_>, text: &[u8]) -> Option<usize>
    ensures { IfSome result (IsFirstIn (declaration_lists index.now.texts.now.domain_tree.now Side.Domain) text.now) }
{
    let task = index.first_called.tasks.get(text);
    let action = index.first_called.actions.get(text);
    match (task, action) {
        (Some(one), Some(other)) if other < one => action,
        (None, _) => action,
        _ => task,
    }
}

/// Where the first declaration of the domain of this kind and name is.
fn first_declared(
    index: &PairIndex<'_>,
    declared: Option<Declared<'_>>,
    text: &[u8],
) -> Option<usize>
    ensures { IfSome result (IsFirstIn (declaration_lists index.now.texts.now.domain_tree.now Side.Domain) text.now) }
{
    match declared {
        Some(Declared::Predicate) => index.first_called.predicates.get(text),
        Some(Declared::Method) => index.first_called.methods.get(text),
        Some(Declared::Task | Declared::Action) => first_task_or_action(index, text),
        _ => None,
    }
}

/// Where the first declaration of this kind and name in a text is.
fn first_in_text(
    index: &PairIndex<'_>,
    side: Side,
    declared: Option<Declared<'_>>,
    text: &[u8],
) -> Option<usize>
    ensures { IfSome result (IsFirstIn (name_lists index.now.texts.now.domain_tree.now index.now.texts.now.problem_tree.now side) text.now) }
{
    match side {
        Side::Domain => first_declared(index, declared, text),
        Side::Problem => None,
    }
}

/// The section of the domain, of the same kind as another, that begins last before a place.
fn domain_section<'a>(
    index: &PairIndex<'a>,
    section: Section<'_>,
    place: usize,
) -> Option<Section<'a>>
    ensures { IfSome result (IsSectionOf index.now.texts.now.domain_tree.now index.now.texts.now.problem_tree.now Side.Domain) }
{
    let domain = index.texts.domain_tree;
    match section {
        Section::Action(_) => {
            let action = action_by(domain.actions.as_slice(), place)?;
            Some(Section::Action(action))
        }
        _ => {
            let method = method_by(domain.methods.as_slice(), place)?;
            Some(Section::Method(method))
        }
    }
}

/// The section of a text, of the same kind as another, that begins last before a place.
fn section_like<'a>(index: &PairIndex<'a>, section: Section<'_>, at: At) -> Option<Section<'a>>
    ensures { IfSome result (IsSectionOf index.now.texts.now.domain_tree.now index.now.texts.now.problem_tree.now at.source) }
{
    match at.source {
        Side::Domain => domain_section(index, section, at.place),
        Side::Problem => Some(Section::Htn(&index.texts.problem_tree.htn)),
    }
}

/// Where the first parameter of a name is in the section around a place.
fn first_parameter(
    alloc: Global,
    index: &PairIndex<'_>,
    section: Section<'_>,
    at: At,
    text: &[u8],
) -> Result<Option<usize>, AllocError>
    ensures { IfOk result (λ found. IfSome found (IsFirstIn (name_lists index.now.texts.now.domain_tree.now index.now.texts.now.problem_tree.now at.source) text.now)) }
{
    let Some(own) = section_like(index, section, at) else {
        return Ok(None);
    };
    let found = first_variable(alloc, own.parameters(), text)?;
    Ok(found)
}

/// Where the first label of a name is in the network around a place.
fn first_twin_label(
    alloc: Global,
    index: &PairIndex<'_>,
    at: At,
    text: &[u8],
) -> Result<Option<usize>, AllocError>
    ensures { IfOk result (λ found. IfSome found (IsFirstIn (name_lists index.now.texts.now.domain_tree.now index.now.texts.now.problem_tree.now at.source) text.now)) }
{
    let Some(network) = network_by(index, at) else {
        return Ok(None);
    };
    let found = first_label(alloc, network.subtasks.as_slice(), text)?;
    Ok(found)
}

/// Where the first of a name is among those of the kind and the list of the one at a place.
pub(crate) fn first_twin(
    alloc: Global,
    index: &PairIndex<'_>,
    at: At,
    text: &[u8],
) -> Result<Option<usize>, AllocError>
    ensures { IfOk result (λ found. IfSome found (IsFirstIn (name_lists index.now.texts.now.domain_tree.now index.now.texts.now.problem_tree.now at.source) text.now)) }
{
    let declared = declared_at(index.texts.domain_tree, index.texts.problem_tree, at);
    match declared {
        Some(Declared::Parameter(section)) => first_parameter(alloc, index, section, at, text),
        Some(Declared::Subtask(_)) => first_twin_label(alloc, index, at, text),
        _ => Ok(first_in_text(index, at.source, declared, text)),
    }
}
