//! Pictures in the language of graphviz.

ghost use Rattle.std.specs.Prelude.{◌≡◌, ◌++◌, Some, map, codes, IfOk, OnOk};
ghost use Rattle.std.specs.List.{flat_map};
ghost use Rattle.plan_text.specs.Forest.{lists_of};
ghost use Rattle.picture_text.specs.Dot as spec;
ghost use Rattle.picture_text.specs.Lines as lines;
ghost use Rattle.picture_text.specs.SeenLine.{seen_line};
ghost use Rattle.diagnostics.specs.Shown as shown_spec;

use crate::caption::Caption;
use crate::line::{Line, id_at, line_at};
use crate::words::{is_marked, say, say_number, say_task};
use plan_picture::{Picture, Row, children_at};
use plan_text::PlanFile;
use std::alloc::{AllocError, Global};

/// Bytes of a label, a quote and a backslash after a backslash.
fn say_escaped(out: &mut Vec<u8>, words: &[u8]) -> Result<(), AllocError>
    ensures { OnOk result (out.new.items ≡ out.old.items ++ flat_map spec.escape words.now) }
{
    for byte in words {
        if *byte == b'"' || *byte == b'\\' {
            out.push(b'\\')?;
        }
        out.push(*byte)?;
    }
    Ok(())
}

/// Words in quotes, each byte as it is shown.
fn say_quoted(out: &mut Vec<u8>, alloc: Global, words: &str) -> Result<(), AllocError>
    ensures { OnOk result (out.new.items ≡ out.old.items ++ spec.quoted (map shown_spec.shown words.now)) }
{
    let mut bytes = Vec::new(alloc);
    say(&mut bytes, words.as_bytes())?;
    out.extend_from_slice(b"\"")?;
    say_escaped(out, bytes.as_slice())?;
    out.extend_from_slice(b"\"")
}

/// The name of a line's node.
fn say_node_name(out: &mut Vec<u8>, id: u64) -> Result<(), AllocError>
    ensures { OnOk result (out.new.items ≡ out.old.items ++ spec.node_name id) }
{
    out.extend_from_slice(b"n")?;
    say_number(out, id)
}

/// The words of a line: its name with its arguments.
pub fn words_of(alloc: Global, line: Line<'_>) -> Result<Vec<u8>, AllocError>
    ensures { IfOk result (λ words. words.items ≡ spec.words_of (seen_line line.entry)) }
{
    let mut words = Vec::new(alloc);
    match line {
        Line::Action(action) => say_task(&mut words, action.name(), action.arguments())?,
        Line::Task(task) => say_task(&mut words, task.task(), task.arguments())?,
    }
    Ok(words)
}

/// What a label has before its words: the position of an action.
fn say_position(out: &mut Vec<u8>, position: usize, line: Line<'_>) -> Result<(), AllocError>
    ensures { OnOk result (out.new.items ≡ out.old.items ++ spec.position position (seen_line line.entry)) }
{
    match line {
        Line::Action(_) => {
            say_number(out, position as u64)?;
            out.extend_from_slice(b"  ")
        }
        Line::Task(_) => Ok(()),
    }
}

/// What a label has after its words: the method of a task, on a line of its own.
fn say_method(out: &mut Vec<u8>, alloc: Global, line: Line<'_>) -> Result<(), AllocError>
    ensures { OnOk result (out.new.items ≡ out.old.items ++ spec.method (seen_line line.entry)) }
{
    match line {
        Line::Action(_) => Ok(()),
        Line::Task(task) => {
            let mut bytes = Vec::new(alloc);
            say(&mut bytes, task.method().as_bytes())?;
            out.extend_from_slice(b"\\n")?;
            say_escaped(out, bytes.as_slice())
        }
    }
}

/// The label of a line.
fn say_label(
    out: &mut Vec<u8>,
    alloc: Global,
    position: usize,
    line: Line<'_>,
) -> Result<(), AllocError>
    ensures { OnOk result (out.new.items ≡ out.old.items ++ spec.label position (seen_line line.entry)) }
{
    let words = words_of(alloc, line)?;
    out.extend_from_slice(b"\"")?;
    say_position(out, position, line)?;
    say_escaped(out, words.as_slice())?;
    say_method(out, alloc, line)?;
    out.extend_from_slice(b"\"")
}

/// The colours of a line.
fn colours(is_marked: bool, line: Line<'_>) -> &'static [u8]
    ensures { result.now ≡ spec.colours is_marked (seen_line line.entry) }
{
    match (is_marked, line) {
        (false, Line::Action(_)) => b", fillcolor=\"#ecfdf5\", color=\"#34d399\"",
        (true, Line::Action(_)) => b", fillcolor=\"#fee2e2\", color=\"#dc2626\"",
        (false, Line::Task(_)) => b"",
        (true, Line::Task(_)) => b", color=\"#dc2626\"",
    }
}

/// The node of a line.
fn say_line(
    out: &mut Vec<u8>,
    alloc: Global,
    caption: &Caption<'_>,
    number: usize,
    line: Line<'_>,
) -> Result<(), AllocError>
    ensures { OnOk result (out.new.items ≡ out.old.items ++ spec.node caption.now.mark number (Some (seen_line line.entry))) }
{
    out.extend_from_slice(b"  ")?;
    say_node_name(out, line.id())?;
    out.extend_from_slice(b" [label=")?;
    say_label(out, alloc, number, line)?;
    out.extend_from_slice(colours(is_marked(caption, line.id()), line))?;
    out.extend_from_slice(b"];\n")
}

/// The node of the line with a number, if there is such a line.
fn say_node(
    out: &mut Vec<u8>,
    alloc: Global,
    caption: &Caption<'_>,
    file: &PlanFile,
    number: usize,
) -> Result<(), AllocError>
    ensures { OnOk result (out.new.items ≡ out.old.items ++ spec.node caption.now.mark number (lines.line_at file.now number)) }
{
    match line_at(file, number) {
        Some(line) => say_line(out, alloc, caption, number, line),
        None => Ok(()),
    }
}

/// An edge from the problem to the line with an id.
fn say_root_edge(out: &mut Vec<u8>, id: u64) -> Result<(), AllocError>
    ensures { OnOk result (out.new.items ≡ out.old.items ++ spec.edge (codes "root") id) }
{
    out.extend_from_slice(b"  root -> ")?;
    say_node_name(out, id)?;
    out.extend_from_slice(b";\n")
}

/// An edge between the lines with two ids.
fn say_edge(out: &mut Vec<u8>, from: u64, to: u64) -> Result<(), AllocError>
    ensures { OnOk result (out.new.items ≡ out.old.items ++ spec.edge (spec.node_name from) to) }
{
    out.extend_from_slice(b"  ")?;
    say_node_name(out, from)?;
    out.extend_from_slice(b" -> ")?;
    say_node_name(out, to)?;
    out.extend_from_slice(b";\n")
}

/// The edges from the line with a number to its children.
fn say_edges(
    out: &mut Vec<u8>,
    file: &PlanFile,
    children: &[Vec<usize>],
    number: usize,
) -> Result<(), AllocError>
    ensures { OnOk result (out.new.items ≡ out.old.items ++ spec.edges file.now (lists_of children.now) number) }
{
    let from = id_at(file, number);
    for child in children_at(children, file.actions().len(), number) {
        say_edge(out, from, id_at(file, *child))?;
    }
    Ok(())
}

/// How all of it is laid out, and how nodes and edges look.
fn say_looks(out: &mut Vec<u8>) -> Result<(), AllocError>
    ensures { OnOk result (out.new.items ≡ out.old.items ++ (spec.layout ++ (spec.node_style ++ spec.edge_style))) }
{
    out.extend_from_slice(b"  rankdir=LR; ordering=out; nodesep=0.15; ranksep=0.5;\n")?;
    out.extend_from_slice(
        b"  node [shape=box, style=\"rounded,filled\", fillcolor=\"#eef2ff\", color=\"#c7d2fe\", ",
    )?;
    out.extend_from_slice(b"fontname=\"Helvetica\", fontsize=11, height=0.3];\n")?;
    out.extend_from_slice(b"  edge [color=\"#94a3b8\", arrowsize=0.5];\n")
}

/// The title, the looks, and the node of the problem.
fn say_head(out: &mut Vec<u8>, alloc: Global, problem: &str) -> Result<(), AllocError>
    ensures { OnOk result (out.new.items ≡ out.old.items ++ spec.head (map shown_spec.shown problem.now)) }
{
    out.extend_from_slice(b"digraph ")?;
    say_quoted(out, alloc, problem)?;
    out.extend_from_slice(b" {\n")?;
    say_looks(out)?;
    out.extend_from_slice(b"  root [label=")?;
    say_quoted(out, alloc, problem)?;
    out.extend_from_slice(b", fillcolor=\"#ffffff\"];\n")
}

/// The nodes of all rows.
fn say_nodes(
    out: &mut Vec<u8>,
    alloc: Global,
    caption: &Caption<'_>,
    file: &PlanFile,
    rows: &[Row],
) -> Result<(), AllocError>
    ensures { OnOk result (out.new.items ≡ out.old.items ++ flat_map (λ r. spec.node caption.now.mark r.line (lines.line_at file.now r.line)) rows.now) }
{
    for row in rows {
        say_node(out, alloc, caption, file, row.line)?;
    }
    Ok(())
}

/// The edges from the problem.
fn say_root_edges(out: &mut Vec<u8>, file: &PlanFile, roots: &[usize]) -> Result<(), AllocError>
    ensures { OnOk result (out.new.items ≡ out.old.items ++ flat_map (λ root. spec.edge (codes "root") (lines.id_at file.now root)) roots.now) }
{
    for root in roots {
        say_root_edge(out, id_at(file, *root))?;
    }
    Ok(())
}

/// The edges from all rows.
fn say_all_edges(
    out: &mut Vec<u8>,
    file: &PlanFile,
    children: &[Vec<usize>],
    rows: &[Row],
) -> Result<(), AllocError>
    ensures { OnOk result (out.new.items ≡ out.old.items ++ flat_map (λ r. spec.edges file.now (lists_of children.now) r.line) rows.now) }
{
    for row in rows {
        say_edges(out, file, children, row.line)?;
    }
    Ok(())
}

/// The picture in the language of graphviz: a node for the problem and one for each line, named by its id, and an edge
/// from each line to each of its children.
pub fn dot(
    alloc: Global,
    caption: &Caption<'_>,
    picture: &Picture<'_>,
) -> Result<Vec<u8>, AllocError>
    ensures { IfOk result (λ text. text.items ≡ spec.dot_bytes caption.now picture.now) }
{
    let mut out = Vec::new(alloc);
    let rows = picture.rows.as_slice();
    say_head(&mut out, alloc, caption.problem)?;
    say_nodes(&mut out, alloc, caption, picture.file, rows)?;
    say_root_edges(&mut out, picture.file, picture.roots.as_slice())?;
    say_all_edges(&mut out, picture.file, picture.children.as_slice(), rows)?;
    out.extend_from_slice(b"}\n")?;
    Ok(out)
}
