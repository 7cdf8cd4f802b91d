//! What a picture says of the lines of a valid plan beyond what the plan says.
ghost use Rattle.std.specs.Prelude.{◌≡◌, ◌++◌, IfOk, IfSome, OnOk, map, option_map, slice_index};
ghost use Rattle.std.specs.List.{enumerate_from, flat_map, list_any};
ghost use Rattle.htn_ground.specs.Naming as naming;
ghost use Rattle.htn_ground.specs.Views.{child_view, children_of};
ghost use Rattle.htn_task.specs.Literals.{literals_of};
ghost use Rattle.htn_task.specs.Views.{term_of, terms_of};
ghost use Rattle.htn_review.specs.Details as spec;
ghost use Rattle.htn_review.specs.Sights as sights;
ghost use Rattle.htn_review.specs.Details.{ShowSolution, ShowsInstance, seen_condition, seen_setting};
ghost use Rattle.line_details.specs.Entries.{spans_of};
ghost use Rattle.plan_findings.specs.Words as words;
ghost use Rattle.plan_text.specs.Forest.{lists_of};

use hddl_text::DomainText;
use hddl_words::{Variable, VariableGroup};
use htn_ground::Child;
use htn_plan::PlanFile;
use htn_task::{Literal, LiteralList, Task, Term};
use htn_verify::file_details;
use line_details::Entry;
use picture_text::{Condition, Detail, Setting};
use plan_findings::literal_text;
use std::alloc::{AllocError, Global};

// Adds variables as they are written.
fn push_names(
    alloc: Global,
    names: &mut Vec<Vec<u8>>,
    variables: &[Variable],
) -> Result<(), AllocError>
    ensures { OnOk result (lists_of names.new.items ≡ lists_of names.old.items ++ map (λ v. v.text) variables.now) }
{
    for variable in variables {
        names.push(Vec::from_slice(alloc, variable.text())?)?;
    }
    Ok(())
}

// The parameters of a method as they are written.
fn names_of(alloc: Global, groups: &[VariableGroup]) -> Result<Vec<Vec<u8>>, AllocError>
    ensures { IfOk result (λ names. lists_of names.items ≡ spec.names_of groups.now) }
{
    let mut names = Vec::new(alloc);
    for group in groups {
        push_names(alloc, &mut names, group.variables.as_slice())?;
    }
    Ok(names)
}

// Whether a term is the parameter at a place.
fn is_parameter(term: Term, place: usize) -> bool
    ensures { result ≡ spec.is_parameter place (term_of term) }
{
    match term {
        Term::Parameter(number) => number as usize == place,
        Term::Object(_) => false,
    }
}

// Whether the parameter at a place is among some arguments.
fn is_among(arguments: &[Term], place: usize) -> bool
    ensures { result ≡ list_any (λ term. spec.is_parameter place (term_of term)) arguments.now }
{
    arguments.iter().any(|term| is_parameter(*term, place))
}

// The name of an object.
fn object_name(task: &Task, object: u16) -> &[u8]
    ensures { result.now ≡ naming.object_name task.now object }
{
    match task.objects().get(object as usize) {
        Some(name) => name.as_bytes(),
        None => b"?",
    }
}

// The value at a place.
fn value_at(values: &[u16], place: usize) -> u16
    ensures { result ≡ slice_index values.now place }
{
    match values.get(place) {
        Some(value) => *value,
        None => 0,
    }
}

// A parameter with its value.
fn setting_of(
    alloc: Global,
    task: &Task,
    parameter: &[u8],
    value: u16,
) -> Result<Setting, AllocError>
    ensures { IfOk result (λ setting. seen_setting setting ≡ (parameter.now, naming.object_name task.now value)) }
{
    let name = Vec::from_slice(alloc, parameter)?;
    let object = Vec::from_slice(alloc, object_name(task, value))?;
    Ok(Setting { name, object })
}

// Those parameters with their values that are not among some arguments.
fn settings_of(
    alloc: Global,
    task: &Task,
    names: &[Vec<u8>],
    arguments: &[Term],
    values: &[u16],
) -> Result<Vec<Setting>, AllocError>
    ensures { IfOk result (λ settings. map seen_setting settings.items
        ≡ flat_map (spec.setting_if task.now (terms_of arguments.now) values.now) (enumerate_from 0 (lists_of names.now))) }
{
    let mut settings = Vec::new(alloc);
    for place in 0..names.len() {
        let name = &names[place];
        if is_among(arguments, place) {
            continue;
        }
        let setting = setting_of(alloc, task, name.as_slice(), value_at(values, place))?;
        settings.push(setting)?;
    }
    Ok(settings)
}

// Literals as they are written.
fn texts_of(alloc: Global, task: &Task, literals: &[Literal]) -> Result<Vec<Vec<u8>>, AllocError>
    ensures { IfOk result (λ texts. lists_of texts.items ≡ map (words.literal_text task.now) (literals_of literals.now)) }
{
    let mut texts = Vec::with_capacity(alloc, literals.len())?;
    for literal in literals {
        texts.push(literal_text(alloc, task, literal)?)?;
    }
    Ok(texts)
}

// The literals of a step, with the gap in which it is tested.
fn condition_of(
    alloc: Global,
    task: &Task,
    gap: usize,
    literals: &LiteralList,
) -> Result<Condition, AllocError>
    ensures { IfOk result (λ condition. seen_condition condition ≡ (map (words.literal_text task.now) literals.now, gap)) }
{
    let texts = texts_of(alloc, task, literals.as_slice())?;
    Ok(Condition {
        literals: texts,
        gap,
    })
}

// The same of a node of a network, where that is a step.
fn condition_at(
    alloc: Global,
    task: &Task,
    gap: usize,
    node: &Child,
) -> Result<Option<Condition>, AllocError>
    ensures { IfOk result (λ condition. option_map seen_condition condition ≡ spec.condition_at task.now gap (child_view node.now)) }
{
    match node {
        Child::Precondition(literals) => {
            let condition = condition_of(alloc, task, gap, literals)?;
            Ok(Some(condition))
        }
        Child::Action(_) => Ok(None),
        Child::Task(_) => Ok(None),
    }
}

// The same of the first node of a network.
fn condition_in(
    alloc: Global,
    task: &Task,
    gap: usize,
    nodes: &[Child],
) -> Result<Option<Condition>, AllocError>
    ensures { IfOk result (λ condition. option_map seen_condition condition ≡ spec.condition_in task.now gap (children_of nodes.now)) }
{
    if nodes.is_empty() {
        return Ok(None);
    }
    let condition = condition_at(alloc, task, gap, &nodes[0])?;
    Ok(condition)
}

// What an entry says of its line. There is no entry whose method has no number.
fn detail_of(
    alloc: Global,
    domain: &DomainText,
    task: &Task,
    entry: &Entry,
) -> Result<Option<Detail>, AllocError>
    ensures { IfOk result (λ found. IfSome found (ShowsInstance domain.now task.now entry.now.instance ((spans_of entry.now).start 0))) }
{
    let Some(number) = entry.instance.method() else {
        return Ok(None);
    };
    let Some(text) = domain.methods.as_slice().get(number as usize) else {
        return Ok(None);
    };
    let Some(method) = task.methods().get(number as usize) else {
        return Ok(None);
    };
    let names = names_of(alloc, text.parameters.as_slice())?;
    let values = entry.instance.values();
    let settings = settings_of(alloc, task, &names, method.task().arguments(), values)?;
    let nodes = entry.instance.children().as_slice();
    let condition = condition_in(alloc, task, entry.start_at(0), nodes)?;
    Ok(Some(Detail {
        settings,
        condition,
    }))
}

// What entries say of their lines.
fn details_of_entries(
    alloc: Global,
    domain: &DomainText,
    task: &Task,
    entries: &[Entry],
) -> Result<Option<Vec<Detail>>, AllocError>
    ensures { IfOk result (λ r. IfSome r (λ found. sights.ShowEntries domain.now task.now entries.now found.items)) }
{
    let mut found = Vec::with_capacity(alloc, entries.len())?;
    for entry in entries {
        let Some(detail) = detail_of(alloc, domain, task, entry)? else {
            return Ok(None);
        };
        found.push(detail)?;
    }
    Ok(Some(found))
}

/// What a solution whose shadow a file is says of each decomposition line; none where the file is not valid, or where
/// no solution is found that is shown to be one.
pub(crate) fn details_of(
    alloc: Global,
    domain: &DomainText,
    task: &Task,
    file: &PlanFile,
) -> Result<Option<Vec<Detail>>, AllocError>
    ensures { IfOk result (λ r. IfSome r (λ found. ShowSolution domain.now task.now file.now found.items)) }
{
    let Some(entries) = file_details(alloc, task, file)? else {
        return Ok(None);
    };
    let found = details_of_entries(alloc, domain, task, &entries.lines)?;
    Ok(found)
}
