//! Notes at the sections around places, and at the pairs of their orders.

ghost use Rattle.std.specs.Prelude.{◌≡◌, ◌⊎◌, ℕ, List, [], ◌∷◌, ◌++◌, IfOk, IfSome, OnOk, map};
ghost use Rattle.std.specs.List.{All, AllZip, flat_map};
ghost use Rattle.hddl_words.specs.declared.network.NetworkText.{NetworkText as NetworkTree};
ghost use Rattle.hddl_words.specs.declared.network.OrderingText.{OrderingText as OrderingTree};
ghost use Rattle.hddl_meaning.specs.Items.{networks_in};
ghost use Rattle.hddl_meaning.specs.Mentions.{IsIn};
ghost use Rattle.hddl_meaning.specs.Uses.{schema_of_action, schema_of_method};
ghost use Rattle.pair_messages.specs.declared.stands.Stand.{Stand as Found};
ghost use Rattle.pair_messages.specs.Firsts.{listed as listed_notes, IsNoteAt};
ghost use Rattle.pair_messages.specs.Notes.{ordering_of, AreOfCycle, IsAtOrdering, IsSectionAround};
ghost use Rattle.pair_messages.specs.Stands.{StandsIn};

use crate::asked::{Asked, cycle_of};
use crate::index::PairIndex;
use crate::notes::{listed, note_at};
use crate::orders::asked_message;
use crate::phrases::{Section, push_typed, section_parts};
use crate::stands::{in_action, in_method, in_network};
use diagnostics::{Note, Part};
use hddl_locate::{action_by, method_by};
use hddl_meaning::{At, Source as Side};
use hddl_words::{ActionText, DomainText, MethodText, NetworkText, ProblemText};
use std::alloc::{AllocError, Global};

/// The method around what stands at a place.
fn method_around<'a>(
    alloc: Global,
    domain: &'a DomainText,
    place: usize,
) -> Result<Option<&'a MethodText>, AllocError>
    ensures { IfOk result (λ found. IfSome found (λ m. IsIn m.now domain.now.methods × ((x : Found) × StandsIn (schema_of_method m.now) place x))) }
{
    let Some(method) = method_by(domain.methods.as_slice(), place) else {
        return Ok(None);
    };
    let found = in_method(alloc, method, place)?;
    match found {
        Some(_item) => Ok(Some(method)),
        None => Ok(None),
    }
}

/// The action around what stands at a place.
fn action_around<'a>(
    alloc: Global,
    domain: &'a DomainText,
    place: usize,
) -> Result<Option<&'a ActionText>, AllocError>
    ensures { IfOk result (λ found. IfSome found (λ a. IsIn a.now domain.now.actions × ((x : Found) × StandsIn (schema_of_action a.now) place x))) }
{
    let Some(action) = action_by(domain.actions.as_slice(), place) else {
        return Ok(None);
    };
    let found = in_action(alloc, action, place)?;
    match found {
        Some(_item) => Ok(Some(action)),
        None => Ok(None),
    }
}

/// The method or the action around what stands at a place of the domain, and where its name is.
fn around_in_domain<'a>(
    alloc: Global,
    index: &PairIndex<'a>,
    place: usize,
) -> Result<Option<(Section<'a>, usize)>, AllocError>
    ensures { IfOk result (λ found. IfSome found (λ s. IsSectionAround index.now.texts.now.domain_tree.now index.now.texts.now.problem_tree.now (record { source = Side.Domain; place = place }) (record { source = Side.Domain; place = s.1 }))) }
{
    let method = method_around(alloc, index.texts.domain_tree, place)?;
    if let Some(method) = method {
        return Ok(Some((Section::Method(method), method.name.place())));
    }
    let action = action_around(alloc, index.texts.domain_tree, place)?;
    match action {
        Some(action) => Ok(Some((Section::Action(action), action.name.place()))),
        None => Ok(None),
    }
}

/// `:htn`, if it is around what stands at a place of the problem, and where its bracket is.
fn around_in_problem<'a>(
    alloc: Global,
    index: &PairIndex<'a>,
    place: usize,
) -> Option<(Section<'a>, usize)>
    ensures { IfSome result (λ s. IsSectionAround index.now.texts.now.domain_tree.now index.now.texts.now.problem_tree.now (record { source = Side.Problem; place = place }) (record { source = Side.Problem; place = s.1 })) }
{
    let htn = &index.texts.problem_tree.htn;
    match in_network(alloc, Section::Htn(htn), &htn.network, place) {
        Some(_item) => Some((Section::Htn(htn), htn.place)),
        None => None,
    }
}

/// The section around what stands at a place, and where its name or its bracket is.
fn section_around<'a>(
    alloc: Global,
    index: &PairIndex<'a>,
    at: At,
) -> Result<Option<(Section<'a>, usize)>, AllocError>
    ensures { IfOk result (λ found. IfSome found (λ s. IsSectionAround index.now.texts.now.domain_tree.now index.now.texts.now.problem_tree.now at (record { source = at.source; place = s.1 }))) }
{
    match at.source {
        Side::Domain => around_in_domain(alloc, index, at.place),
        Side::Problem => Ok(around_in_problem(alloc, index, at.place)),
    }
}

/// What is said of a section's parameters.
fn parameters_message<'a>(
    alloc: Global,
    section: Section<'a>,
) -> Result<Vec<Part<'a>>, AllocError> {
    let (kind, name) = section_parts(section);
    let start = [
        Part::Words("the parameters of "),
        kind,
        name,
        Part::Words(" are ("),
    ];
    let mut parts = Vec::from_slice(alloc, &start)?;
    push_typed(&mut parts, "", section.parameters())?;
    parts.push(Part::Words(")"))?;
    Ok(parts)
}

/// A note at the section around what stands at a place.
fn section_note<'a>(
    alloc: Global,
    index: &PairIndex<'a>,
    at: At,
) -> Result<Option<Note<'a>>, AllocError>
    ensures { IfOk result (λ found. IfSome found (IsNoteAt index.now.texts.now (IsSectionAround index.now.texts.now.domain_tree.now index.now.texts.now.problem_tree.now at))) }
{
    let found = section_around(alloc, index, at)?;
    let Some(around) = found else {
        return Ok(None);
    };
    let message = parameters_message(alloc, around.0)?;
    let here = At {
        source: at.source,
        place: around.1,
    };
    Ok(Some(note_at(index, here, message)))
}

/// A note at the section around what stands at a place, with its parameters.
pub(crate) fn section_notes<'a>(
    alloc: Global,
    index: &PairIndex<'a>,
    at: At,
) -> Result<Vec<Note<'a>>, AllocError>
    ensures { IfOk result (λ notes. All (IsNoteAt index.now.texts.now (IsSectionAround index.now.texts.now.domain_tree.now index.now.texts.now.problem_tree.now at)) notes.items) }
{
    let note = section_note(alloc, index, at)?;
    let notes = listed(alloc, note)?;
    Ok(notes)
}

/// The network of the method that begins at a place of the domain.
fn method_network(domain: &DomainText, place: usize) -> Option<&NetworkText>
    ensures { IfSome result (λ n. IsIn {X = ℕ × NetworkTree} (place, n.now) (map (λ m. (m.place, m.network)) domain.now.methods)) }
{
    let method = method_by(domain.methods.as_slice(), place)?;
    if method.place == place {
        return Some(&method.network);
    }
    None
}

/// The network of `:htn`, if that begins at a place of the problem.
fn htn_network(problem: &ProblemText, place: usize) -> Option<&NetworkText>
    ensures { IfSome result (λ n. IsIn {X = ℕ × NetworkTree} (place, n.now) ((problem.now.htn.place, problem.now.htn.network) ∷ [])) }
{
    if problem.htn.place == place {
        return Some(&problem.htn.network);
    }
    None
}

/// The network of the method, or of `:htn`, that begins at a place.
fn network_at<'a>(index: &PairIndex<'a>, at: At) -> Option<&'a NetworkText>
    ensures { IfSome result (λ n. IsIn (at.place, n.now) (networks_in index.now.texts.now.domain_tree.now index.now.texts.now.problem_tree.now at.source)) }
{
    match at.source {
        Side::Domain => method_network(index.texts.domain_tree, at.place),
        Side::Problem => htn_network(index.texts.problem_tree, at.place),
    }
}

/// A note where a pair of a cycle is asked for, if that is in `:ordering`.
fn pair_note<'a>(
    alloc: Global,
    index: &PairIndex<'a>,
    text: Side,
    network: &'a NetworkText,
    pair: Asked<'a>,
) -> Result<Option<Note<'a>>, AllocError>
    ensures { IfOk result (λ found. AllZip (IsAtOrdering index.now.texts.now text) (ordering_of pair.entry) (listed_notes found)) }
{
    let Some(ordering) = pair.ordering else {
        return Ok(None);
    };
    let message = asked_message(alloc, network, pair)?;
    let here = At {
        source: text,
        place: ordering.before.place(),
    };
    Ok(Some(note_at(index, here, message)))
}

/// Adds a note where a pair of a cycle is asked for.
fn add_pair_note<'a>(
    alloc: Global,
    index: &PairIndex<'a>,
    text: Side,
    network: &'a NetworkText,
    notes: &mut Vec<Note<'a>>,
    pair: Asked<'a>,
) -> Result<(), AllocError>
    ensures { OnOk result ((before : List OrderingTree) → AllZip (IsAtOrdering index.now.texts.now text) before notes.old.items
        → AllZip (IsAtOrdering index.now.texts.now text) (before ++ ordering_of pair.entry) notes.new.items) }
{
    let found = pair_note(alloc, index, text, network, pair)?;
    if let Some(note) = found {
        notes.push(note)?;
    }
    Ok(())
}

/// Notes where the pairs of a cycle are asked for.
fn pair_notes<'a>(
    alloc: Global,
    index: &PairIndex<'a>,
    text: Side,
    network: &'a NetworkText,
    cycle: &[Asked<'a>],
) -> Result<Vec<Note<'a>>, AllocError>
    ensures { IfOk result (λ notes. AllZip (IsAtOrdering index.now.texts.now text) (flat_map ordering_of cycle.now) notes.items) }
{
    let mut notes = Vec::new(alloc);
    for pair in cycle {
        add_pair_note(alloc, index, text, network, &mut notes, *pair)?;
    }
    Ok(notes)
}

/// Notes where the pairs of a cycle of an order are asked for.
pub(crate) fn cycle_notes<'a>(
    alloc: Global,
    index: &PairIndex<'a>,
    at: At,
) -> Result<Vec<Note<'a>>, AllocError>
    ensures { IfOk result (λ notes. (notes.items ≡ []) ⊎ AreOfCycle index.now.texts.now at notes.items) }
{
    let Some(network) = network_at(index, at) else {
        return Ok(Vec::new(alloc));
    };
    let cycle = cycle_of(alloc, network)?;
    let notes = pair_notes(alloc, index, at.source, network, cycle.as_slice())?;
    Ok(notes)
}
