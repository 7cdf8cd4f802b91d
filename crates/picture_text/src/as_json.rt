//! Pictures as JSON.

ghost use Rattle.std.specs.Prelude.{◌≡◌, ◌∷◌, ◌++◌, [], IsUtf8, Some, codes, get_or, map, option_map, string_bytes, IfOk, OnOk};
ghost use Rattle.std.specs.List.{flat_map};
ghost use Rattle.diagnostics.specs.Json.{with_members, array_of, count, object_of, IsReadAs};
ghost use Rattle.plan_text.specs.Forest.{lists_of};
ghost use Rattle.picture_text.specs.Json as spec;
ghost use Rattle.plan_picture.specs.Seen.{seen};
ghost use Rattle.picture_text.specs.SeenLine.{seen_line};
ghost use Rattle.serde_json.specs.Data.{string};
ghost use Rattle.serde_json.specs.View.{view, members_view};
ghost use Rattle.diagnostics.specs.Shown as shown_spec;

use crate::caption::Caption;
use crate::detail::{Condition, Detail, Setting, detail_at};
use crate::line::{Line, id_at, line_at};
use crate::words::say;
use plan_picture::{Picture, Row, children_at};
use plan_text::{ActionLine, DecompositionLine, PlanFile, Word};
use serde_json::{Map, Value, put};
use std::alloc::{AllocError, Global};

/// Bytes as they are shown.
fn shown_text(alloc: Global, words: &[u8]) -> Result<String, AllocError>
    ensures { IfOk result (λ text. string_bytes text ≡ map shown_spec.shown words.now) }
{
    let mut bytes = Vec::new(alloc);
    say(&mut bytes, words)?;
    String::from_utf8_lossy(alloc, bytes.as_slice())
}

/// A word, as it is shown.
fn word_value(alloc: Global, word: &[u8]) -> Result<Value, AllocError>
    ensures { IfOk result (λ v. view v ≡ spec.word_json word.now) }
{
    Ok(Value::String(shown_text(alloc, word)?))
}

/// A name with its arguments.
fn task_value(alloc: Global, name: &Word, arguments: &[Word]) -> Result<Value, AllocError>
    ensures { IfOk result (λ v. view v ≡ spec.task_json name.now arguments.now) }
{
    let mut list = Vec::new(alloc);
    list.push(word_value(alloc, name.as_bytes())?)?;
    for argument in arguments {
        list.push(word_value(alloc, argument.as_bytes())?)?;
    }
    Ok(Value::Array(list))
}

/// The ids of lines.
fn ids_value(alloc: Global, file: &PlanFile, numbers: &[usize]) -> Result<Value, AllocError>
    ensures { IfOk result (λ v. view v ≡ spec.ids_json file.now numbers.now) }
{
    let mut list = Vec::new(alloc);
    for number in numbers {
        list.push(Value::from(id_at(file, *number)))?;
    }
    Ok(Value::Array(list))
}

/// The ids of the actions, in the order in which they are carried out.
fn actions_value(alloc: Global, actions: &[ActionLine]) -> Result<Value, AllocError>
    ensures { IfOk result (λ v. view v ≡ array_of (map (λ line. count line.id) actions.now)) }
{
    let mut list = Vec::new(alloc);
    for action in actions {
        list.push(Value::from(action.id()))?;
    }
    Ok(Value::Array(list))
}

/// The id of a line's parent; a root has none.
fn parent_value(file: &PlanFile, parent: Option<usize>) -> Value
    ensures { view result ≡ spec.parent_json file.now parent }
{
    match parent {
        Some(parent) => Value::from(id_at(file, parent)),
        None => Value::Null,
    }
}

/// Adds what an action line is, which has this number among the lines.
fn put_action(
    map: &mut Map<String, Value>,
    alloc: Global,
    number: usize,
    line: &ActionLine,
) -> Result<(), AllocError>
    ensures { OnOk result (members_view map.new.entries ≡ with_members (members_view map.old.entries) ((codes "kind", string (codes "action")) ∷ (codes "task", spec.task_json line.now.name line.now.arguments) ∷ (codes "position", count number) ∷ [])) }
{
    put(map, alloc, "kind", Value::try_from_str(alloc, "action")?)?;
    put(
        map,
        alloc,
        "task",
        task_value(alloc, line.name(), line.arguments())?,
    )?;
    put(map, alloc, "position", Value::from(number))?;
    Ok(())
}

/// Adds what a decomposition line is, whose children these are.
fn put_task(
    map: &mut Map<String, Value>,
    alloc: Global,
    file: &PlanFile,
    children: &[usize],
    line: &DecompositionLine,
) -> Result<(), AllocError>
    ensures { OnOk result (members_view map.new.entries ≡ with_members (members_view map.old.entries) ((codes "kind", string (codes "task")) ∷ (codes "task", spec.task_json line.now.task line.now.arguments) ∷ (codes "method", spec.word_json line.now.method) ∷ (codes "children", spec.ids_json file.now children.now) ∷ [])) }
{
    put(map, alloc, "kind", Value::try_from_str(alloc, "task")?)?;
    put(
        map,
        alloc,
        "task",
        task_value(alloc, line.task(), line.arguments())?,
    )?;
    put(
        map,
        alloc,
        "method",
        word_value(alloc, line.method().as_bytes())?,
    )?;
    put(map, alloc, "children", ids_value(alloc, file, children)?)?;
    Ok(())
}

/// Adds what a line is, whose children these are.
fn put_line(
    map: &mut Map<String, Value>,
    alloc: Global,
    file: &PlanFile,
    children: &[usize],
    number: usize,
    line: Line<'_>,
) -> Result<(), AllocError>
    ensures { OnOk result (members_view map.new.entries ≡ with_members (members_view map.old.entries) (spec.line_members file.now children.now number (seen_line line.entry))) }
{
    match line {
        Line::Action(action) => put_action(map, alloc, number, action),
        Line::Task(task) => put_task(map, alloc, file, children, task),
    }
}

/// The parameters of a line's method that its task does not show, with their values.
fn settings_value(alloc: Global, settings: &[Setting]) -> Result<Value, AllocError>
    ensures { IfOk result (λ v. view v ≡ object_of (map spec.setting_member settings.now)) }
{
    let mut members = Map::new(alloc);
    for setting in settings {
        let name = shown_text(alloc, setting.name.as_slice())?;
        let object = word_value(alloc, setting.object.as_slice())?;
        put(&mut members, alloc, name.as_str(), object)?;
    }
    Ok(Value::Object(members))
}

/// The literals of a precondition.
fn literals_value(alloc: Global, literals: &[Vec<u8>]) -> Result<Value, AllocError>
    ensures { IfOk result (λ v. view v ≡ array_of (map spec.word_json (lists_of literals.now))) }
{
    let mut list = Vec::new(alloc);
    for literal in literals {
        list.push(word_value(alloc, literal.as_slice())?)?;
    }
    Ok(Value::Array(list))
}

/// A precondition: its literals, and how many actions are carried out before it is tested.
fn condition_value(alloc: Global, condition: &Condition) -> Result<Value, AllocError>
    ensures { IfOk result (λ v. view v ≡ spec.condition_json condition.now) }
{
    let mut map = Map::new(alloc);
    put(
        &mut map,
        alloc,
        "literals",
        literals_value(alloc, condition.literals.as_slice())?,
    )?;
    put(&mut map, alloc, "gap", Value::from(condition.gap))?;
    Ok(Value::Object(map))
}

/// Adds the precondition of a line's method, if that has one.
fn put_condition(
    map: &mut Map<String, Value>,
    alloc: Global,
    condition: Option<&Condition>,
) -> Result<(), AllocError>
    ensures { OnOk result (members_view map.new.entries ≡ with_members (members_view map.old.entries) (spec.condition_members (option_map (λ c. c.now) condition.entry))) }
{
    match condition {
        Some(condition) => put(
            map,
            alloc,
            "precondition",
            condition_value(alloc, condition)?,
        ),
        None => Ok(()),
    }
}

/// Adds what a solution says of a line, if anything is known of it.
fn put_detail(
    map: &mut Map<String, Value>,
    alloc: Global,
    detail: Option<&Detail>,
) -> Result<(), AllocError>
    ensures { OnOk result (members_view map.new.entries ≡ with_members (members_view map.old.entries) (spec.detail_members (option_map (λ d. d.now) detail.entry))) }
{
    match detail {
        Some(detail) => {
            let settings = settings_value(alloc, detail.settings.as_slice())?;
            put(map, alloc, "parameters", settings)?;
            put_condition(map, alloc, detail.condition.as_ref())
        }
        None => Ok(()),
    }
}

/// A line in its place, which stands on some line of the plan's text.
fn node_value(
    alloc: Global,
    file: &PlanFile,
    children: &[Vec<usize>],
    row: &Row,
    place: usize,
    detail: Option<&Detail>,
    line: Line<'_>,
) -> Result<Value, AllocError>
    ensures { IfOk result (λ v. view v ≡ spec.node_json file.now (lists_of children.now) (seen row.now) place (option_map (λ d. d.now) detail.entry) (seen_line line.entry)) }
{
    let below = children_at(children, file.actions().len(), row.line);
    let mut map = Map::new(alloc);
    put(&mut map, alloc, "id", Value::from(line.id()))?;
    put(&mut map, alloc, "line", Value::from(place))?;
    put(&mut map, alloc, "parent", parent_value(file, row.parent))?;
    put_line(&mut map, alloc, file, below, row.line, line)?;
    put_detail(&mut map, alloc, detail)?;
    Ok(Value::Object(map))
}

/// The number at a place; 0 past the end.
fn number_at(numbers: &[usize], place: usize) -> usize
    ensures { result ≡ get_or numbers.now place 0 }
{
    match numbers.get(place) {
        Some(number) => *number,
        None => 0,
    }
}

/// Adds the line of a row, if there is such a line.
fn push_node(
    list: &mut Vec<Value>,
    alloc: Global,
    lines: &[usize],
    details: Option<&[Detail]>,
    file: &PlanFile,
    children: &[Vec<usize>],
    row: &Row,
) -> Result<(), AllocError>
    ensures { OnOk result (map view list.new.items ≡ map view list.old.items ++ spec.row_json lines.now (option_map (λ d. d.now) details.entry) file.now (lists_of children.now) (seen row.now)) }
{
    match line_at(file, row.line) {
        Some(line) => {
            let place = number_at(lines, row.line);
            let detail = detail_at(details, file.actions().len(), row.line);
            list.push(node_value(alloc, file, children, row, place, detail, line)?)?;
            Ok(())
        }
        None => Ok(()),
    }
}

/// The lines from the top down.
fn nodes_value(
    alloc: Global,
    lines: &[usize],
    details: Option<&[Detail]>,
    picture: &Picture<'_>,
) -> Result<Value, AllocError>
    ensures { IfOk result (λ v. view v ≡ array_of (flat_map (λ r. spec.row_json lines.now (option_map (λ d. d.now) details.entry) picture.now.file.now (lists_of picture.now.children.items) (seen r)) picture.now.rows.items)) }
{
    let file = picture.file;
    let children = picture.children.as_slice();
    let mut list = Vec::new(alloc);
    for row in picture.rows.as_slice() {
        push_node(&mut list, alloc, lines, details, file, children, row)?;
    }
    Ok(Value::Array(list))
}

/// Adds what the picture is of.
fn put_caption(
    map: &mut Map<String, Value>,
    alloc: Global,
    caption: &Caption<'_>,
) -> Result<(), AllocError>
    ensures { OnOk result (members_view map.new.entries ≡ with_members (members_view map.old.entries) (spec.caption_members caption.now)) }
{
    put(
        map,
        alloc,
        "format",
        Value::try_from_str(alloc, "htnplan-tree")?,
    )?;
    put(map, alloc, "version", Value::from(1usize))?;
    put(
        map,
        alloc,
        "domain",
        Value::try_from_str(alloc, caption.domain)?,
    )?;
    put(
        map,
        alloc,
        "problem",
        Value::try_from_str(alloc, caption.problem)?,
    )?;
    put(
        map,
        alloc,
        "verdict",
        Value::try_from_str(alloc, caption.verdict)?,
    )?;
    Ok(())
}

/// Adds the actions, the roots and the lines of a picture.
fn put_lines(
    map: &mut Map<String, Value>,
    alloc: Global,
    lines: &[usize],
    details: Option<&[Detail]>,
    picture: &Picture<'_>,
) -> Result<(), AllocError>
    ensures { OnOk result (members_view map.new.entries ≡ with_members (members_view map.old.entries) (spec.lines_members lines.now (option_map (λ d. d.now) details.entry) picture.now)) }
{
    put(
        map,
        alloc,
        "actions",
        actions_value(alloc, picture.file.actions())?,
    )?;
    put(
        map,
        alloc,
        "roots",
        ids_value(alloc, picture.file, picture.roots.as_slice())?,
    )?;
    put(
        map,
        alloc,
        "nodes",
        nodes_value(alloc, lines, details, picture)?,
    )?;
    Ok(())
}

/// The whole picture.
fn picture_value(
    alloc: Global,
    caption: &Caption<'_>,
    lines: &[usize],
    details: Option<&[Detail]>,
    picture: &Picture<'_>,
) -> Result<Value, AllocError>
    ensures { IfOk result (λ v. view v ≡ spec.picture_json caption.now lines.now (option_map (λ d. d.now) details.entry) picture.now) }
{
    let mut map = Map::new(alloc);
    put_caption(&mut map, alloc, caption)?;
    put_lines(&mut map, alloc, lines, details, picture)?;
    Ok(Value::Object(map))
}

/// The picture for tools: one object of JSON on one line, whose members are in the order of their names. Its lines are
/// a flat list, so nothing nests as deep as the plan. `lines` are the lines of the plan's text on which its lines stand,
/// by their numbers. With the details of a solution a task has the values of parameters, and the precondition of its
/// method, if that has one.
pub fn json(
    alloc: Global,
    caption: &Caption<'_>,
    lines: &[usize],
    details: Option<&[Detail]>,
    picture: &Picture<'_>,
) -> Result<Vec<u8>, AllocError>
    ensures bytes { IfOk result (λ text. text.items ≡ spec.json_bytes caption.now lines.now (option_map (λ d. d.now) details.entry) picture.now) }
    ensures utf8 { IfOk result (λ text. IsUtf8 text.items) }
    ensures reads_back { IfOk result (λ text. IsReadAs (spec.picture_json caption.now lines.now (option_map (λ d. d.now) details.entry) picture.now) text.items) }
{
    let mut text = picture_value(alloc, caption, lines, details, picture)?.to_vec(alloc)?;
    text.push(b'\n')?;
    Ok(text)
}
