//! Orders of subtasks: cycles, and names that no subtask has.

ghost use Rattle.std.specs.Prelude.{◌≡◌, [], ◌++◌, IfOk, IfSome, OnOk, false};
ghost use Rattle.std.specs.List.{All};
ghost use Rattle.hddl_meaning.specs.Items.{label_mentions, ordering_names};
ghost use Rattle.hddl_meaning.specs.Mentions.{IsIn, texts};
ghost use Rattle.diagnostics.specs.Near.{names_of};
ghost use Rattle.diagnostics.specs.Offers.{begins_question, offered, offered_by};
ghost use Rattle.pair_messages.specs.Offers.{label_text, label_texts, IsForLabel, IsForOrdering, IsNearest};
ghost use Rattle.pair_messages.specs.Stands.{IsNetworkIn, IsNetworkOf, IsSectionOf};

use crate::asked::{Asked, cycle_of};
use crate::index::PairIndex;
use crate::near::{may_offer, nearest_within};
use crate::phrases::{Section, plain, section_parts};
use crate::remarks::{fact, help};
use crate::texts::word_of;
use diagnostics::{Part, Remark, did_you_mean, push_names};
use hddl_locate::{method_by, ordering_by};
use hddl_meaning::{At, Source as Side};
use hddl_words::{Name, NetworkText};
use std::alloc::{AllocError, Global};

/// The most labels that are listed.
const MOST_LISTED: usize = 8;

/// The network of a section.
fn network_of<'a>(section: Section<'a>) -> Option<&'a NetworkText>
    ensures { IfSome result (λ n. IsNetworkOf section.entry n.now) }
{
    match section {
        Section::Method(method) => Some(&method.network),
        Section::Htn(htn) => Some(&htn.network),
        _ => None,
    }
}

/// The section whose network may stand around a place.
fn section_by<'a>(index: &PairIndex<'a>, at: At) -> Option<Section<'a>>
    ensures { IfSome result (IsSectionOf index.now.texts.now.domain_tree.now index.now.texts.now.problem_tree.now at.source) }
{
    match at.source {
        Side::Domain => {
            let method = method_by(index.texts.domain_tree.methods.as_slice(), at.place)?;
            Some(Section::Method(method))
        }
        Side::Problem => Some(Section::Htn(&index.texts.problem_tree.htn)),
    }
}

/// The network that may stand around a place.
pub(crate) fn network_by<'a>(index: &PairIndex<'a>, at: At) -> Option<&'a NetworkText>
    ensures { IfSome result (λ n. IsNetworkIn index.now.texts.now.domain_tree.now index.now.texts.now.problem_tree.now at.source n.now) }
{
    let section = section_by(index, at)?;
    let network = network_of(section)?;
    Some(network)
}

/// What a subtask is called: its label, or its task.
fn called<'a>(network: &'a NetworkText, position: usize) -> &'a [u8] {
    match network.subtasks.as_slice().get(position) {
        Some(subtask) => match &subtask.label {
            Some(label) => label.text(),
            None => subtask.task.name.text(),
        },
        None => b"?",
    }
}

/// The subtasks of a cycle, from one back to itself.
fn way_label<'a>(
    alloc: Global,
    network: &'a NetworkText,
    cycle: &[Asked<'a>],
) -> Result<Vec<Part<'a>>, AllocError> {
    let mut label = Vec::new(alloc);
    if let Some(first) = cycle.first() {
        label.push(plain(called(network, first.before)))?;
    }
    for pair in cycle {
        label.extend_from_slice(&[Part::Words(" < "), plain(called(network, pair.after))])?;
    }
    Ok(label)
}

/// What stands beside the carets below a network whose order has a cycle: the cycle.
pub(crate) fn order_label<'a>(
    alloc: Global,
    index: &PairIndex<'a>,
    at: At,
) -> Result<Vec<Part<'a>>, AllocError> {
    let Some(network) = network_by(index, at) else {
        return Ok(Vec::new(alloc));
    };
    let cycle = cycle_of(alloc, network)?;
    way_label(alloc, network, cycle.as_slice())
}

/// What is said of a pair of a cycle where it is asked for.
pub(crate) fn asked_message<'a>(
    alloc: Global,
    network: &'a NetworkText,
    pair: Asked<'a>,
) -> Result<Vec<Part<'a>>, AllocError> {
    let parts = [
        Part::Name(called(network, pair.before)),
        Part::Words(" before "),
        Part::Name(called(network, pair.after)),
        Part::Words(" is asked for here"),
    ];
    Vec::from_slice(alloc, &parts)
}

/// What a section around a place is called.
fn section_words<'a>(index: &PairIndex<'a>, at: At) -> (Part<'a>, Part<'a>) {
    match section_by(index, at) {
        Some(section) => section_parts(section),
        None => (Part::Words("the network"), Part::Words("")),
    }
}

/// The message for a network whose order has a cycle.
pub(crate) fn order_message<'a>(
    alloc: Global,
    index: &PairIndex<'a>,
    at: At,
) -> Result<Vec<Part<'a>>, AllocError> {
    let (kind, name) = section_words(index, at);
    let parts = [
        Part::Words("the order of the subtasks of "),
        kind,
        name,
        Part::Words(" has a cycle"),
    ];
    Vec::from_slice(alloc, &parts)
}

/// That a list of subtasks is an order.
fn is_order<'a>(alloc: Global) -> Result<Vec<Part<'a>>, AllocError>
    ensures { IfOk result (λ parts. offered_by parts.items ≡ []) }
{
    let parts = vec![in alloc; Part::Words("the list of `:ordered-subtasks` is an order itself")]?;
    Ok(parts)
}

/// What is remarked of a network whose order has a cycle.
pub(crate) fn order_remarks<'a>(
    alloc: Global,
    index: &PairIndex<'a>,
    at: At,
) -> Result<Vec<Remark<'a>>, AllocError>
    ensures { IfOk result (λ remarks. offered remarks.items ≡ []) }
{
    match network_by(index, at) {
        Some(network) if network.is_ordered => {
            let parts = is_order(alloc)?;
            let remarks = fact(alloc, parts)?;
            Ok(remarks)
        }
        _ => Ok(Vec::new(alloc)),
    }
}

/// Adds a label, if there is one.
fn push_label<'a>(labels: &mut Vec<&'a [u8]>, label: &'a Option<Name>) -> Result<(), AllocError>
    ensures { OnOk result (names_of labels.new.items ≡ names_of labels.old.items ++ label_text label.now) }
{
    if let Some(name) = label {
        labels.push(name.text())?;
    }
    Ok(())
}

/// The labels of a network.
fn labels_in<'a>(alloc: Global, network: &'a NetworkText) -> Result<Vec<&'a [u8]>, AllocError>
    ensures { IfOk result (λ labels. names_of labels.items ≡ label_texts network.now) }
{
    let mut labels = Vec::new(alloc);
    for subtask in network.subtasks.as_slice() {
        push_label(&mut labels, &subtask.label)?;
    }
    Ok(labels)
}

/// How a label is written.
fn write_label<'a>(
    alloc: Global,
    network: &'a NetworkText,
    word: &'a [u8],
) -> Result<Vec<Part<'a>>, AllocError>
    ensures { IfOk result (λ parts. offered_by parts.items ≡ []) }
{
    let task: &'a [u8] = match network.subtasks.as_slice().first() {
        Some(subtask) => subtask.task.name.text(),
        None => b"go",
    };
    Ok(vec![in alloc;
        Part::Words("a label stands before the subtask's bracket: `("),
        plain(word),
        Part::Words(" ("),
        plain(task),
        Part::Words(" ..))`"),
    ]?)
}

/// The name in an ordering of a network that stands at a place.
fn ordered_at<'a>(network: &'a NetworkText, place: usize) -> Option<&'a Name>
    ensures { IfSome result (λ x. IsIn x.now (ordering_names network.now) × (x.now.place ≡ place)) }
{
    let ordering = ordering_by(network.orderings.as_slice(), place)?;
    if ordering.before.place() == place {
        return Some(&ordering.before);
    }
    if ordering.after.place() == place {
        return Some(&ordering.after);
    }
    None
}

/// The words before a list of labels.
fn label_words<'a>(count: usize) -> &'a str
    ensures { begins_question result.now ≡ false }
{
    if count == 1 {
        "the label is "
    } else {
        "the labels are "
    }
}

/// All labels.
fn list_labels<'a>(alloc: Global, labels: &[&'a [u8]]) -> Result<Vec<Part<'a>>, AllocError>
    ensures { IfOk result (λ parts. offered_by parts.items ≡ []) }
{
    let mut parts = vec![in alloc; Part::Words(label_words(labels.len()))]?;
    push_names(&mut parts, labels, " and ")?;
    Ok(parts)
}

/// What helps with a name that no subtask has: the nearest labels, or all of them if they are few.
fn label_help<'a>(
    alloc: Global,
    rank: usize,
    network: &'a NetworkText,
    word: &'a [u8],
) -> Result<Option<Vec<Part<'a>>>, AllocError>
    ensures { IfOk result (λ parts. IfSome parts (λ parts. All (IsNearest word.now (texts (label_mentions network.now))) (offered_by parts.items))) }
{
    let labels = labels_in(alloc, network)?;
    if labels.is_empty() {
        let how = write_label(alloc, network, word)?;
        return Ok(Some(how));
    }
    let all = labels.as_slice();
    let near = nearest_within(alloc, rank, word, all)?;
    let nearest = near.as_slice();
    if !nearest.is_empty() {
        let question = did_you_mean(alloc, nearest)?;
        return Ok(Some(question));
    }
    if all.len() > MOST_LISTED {
        return Ok(None);
    }
    let list = list_labels(alloc, all)?;
    Ok(Some(list))
}

/// What helps with a name that no subtask has; nothing where there are many subtasks and many faults come before it.
fn few_label_help<'a>(
    alloc: Global,
    rank: usize,
    network: &'a NetworkText,
    word: &'a [u8],
) -> Result<Option<Vec<Part<'a>>>, AllocError>
    ensures { IfOk result (λ parts. IfSome parts (λ parts. All (IsNearest word.now (texts (label_mentions network.now))) (offered_by parts.items))) }
{
    let count = network.subtasks.len();
    if count > MOST_LISTED && !may_offer(rank, word, count) {
        return Ok(None);
    }
    let help = label_help(alloc, rank, network, word)?;
    Ok(help)
}

/// What helps with the name in an ordering that stands at a place.
fn ordering_help<'a>(
    alloc: Global,
    rank: usize,
    network: &'a NetworkText,
    place: usize,
) -> Result<Option<Vec<Part<'a>>>, AllocError>
    ensures { IfOk result (λ parts. IfSome parts (λ parts. All (IsForOrdering network.now place) (offered_by parts.items))) }
{
    let Some(name) = ordered_at(network, place) else {
        return Ok(None);
    };
    let word = name.text();
    let help = few_label_help(alloc, rank, network, word)?;
    Ok(help)
}

/// What helps with a name at a place, in an ordering that no subtask has.
fn subtask_help<'a>(
    alloc: Global,
    index: &PairIndex<'a>,
    rank: usize,
    at: At,
) -> Result<Option<Vec<Part<'a>>>, AllocError>
    ensures { IfOk result (λ parts. IfSome parts (λ parts. All (IsForLabel index.now.texts.now.domain_tree.now index.now.texts.now.problem_tree.now at) (offered_by parts.items))) }
{
    let Some(network) = network_by(index, at) else {
        return Ok(None);
    };
    let help = ordering_help(alloc, rank, network, at.place)?;
    Ok(help)
}

/// The message for a name in an ordering that no subtask has.
pub(crate) fn subtask_message<'a>(
    alloc: Global,
    index: &PairIndex<'a>,
    at: At,
) -> Result<Vec<Part<'a>>, AllocError> {
    let (kind, name) = section_words(index, at);
    let parts = [
        Part::Words("no subtask of "),
        kind,
        name,
        Part::Words(" has the label "),
        Part::Name(word_of(index.texts, at)),
    ];
    Vec::from_slice(alloc, &parts)
}

/// What is remarked of a name in an ordering that no subtask has.
pub(crate) fn subtask_remarks<'a>(
    alloc: Global,
    index: &PairIndex<'a>,
    rank: usize,
    at: At,
) -> Result<Vec<Remark<'a>>, AllocError>
    ensures { IfOk result (λ remarks. All (IsForLabel index.now.texts.now.domain_tree.now index.now.texts.now.problem_tree.now at) (offered remarks.items)) }
{
    let found = subtask_help(alloc, index, rank, at)?;
    match found {
        Some(parts) => {
            let remarks = help(alloc, parts)?;
            Ok(remarks)
        }
        None => Ok(Vec::new(alloc)),
    }
}
