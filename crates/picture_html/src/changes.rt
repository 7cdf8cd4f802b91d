//! The run: what each action makes true and false.

ghost use Rattle.std.specs.Prelude.{◌≡◌, ◌++◌, map, option_map, OnOk};
ghost use Rattle.std.specs.List.{flat_map};
ghost use Rattle.picture_html.specs.Changes as spec;
ghost use Rattle.picture_html.specs.Label.{spaced};

use crate::escape::say_clean;
use crate::label::{say_between, say_name};
use plan_causes::{Change, Fact, Run};
use plan_text::{ActionLine, PlanFile};
use std::alloc::AllocError;

/// Each word after a blank.
fn say_spaced(out: &mut Vec<u8>, words: &[&[u8]]) -> Result<(), AllocError>
    ensures { OnOk result (out.new.items ≡ out.old.items ++ flat_map spaced (map (λ w. w.now) words.now)) }
{
    for word in words {
        out.push(b' ')?;
        say_clean(out, word)?;
    }
    Ok(())
}

/// Words with a blank between any two.
fn say_joined(out: &mut Vec<u8>, words: &[&[u8]]) -> Result<(), AllocError>
    ensures { OnOk result (out.new.items ≡ out.old.items ++ spec.joined (map (λ w. w.now) words.now)) }
{
    if let [first, others @ ..] = words {
        say_clean(out, first)?;
        say_spaced(out, others)?;
    }
    Ok(())
}

/// A fact, as `(on a b)`.
fn say_fact(out: &mut Vec<u8>, fact: &Fact<'_>) -> Result<(), AllocError>
    ensures { OnOk result (out.new.items ≡ out.old.items ++ spec.fact fact.now) }
{
    out.extend_from_slice(b"<span>(")?;
    say_joined(out, fact.words.as_slice())?;
    out.extend_from_slice(b")</span> ")?;
    Ok(())
}

/// Facts, one after another.
fn say_facts(out: &mut Vec<u8>, facts: &[Fact<'_>]) -> Result<(), AllocError>
    ensures { OnOk result (out.new.items ≡ out.old.items ++ flat_map spec.fact facts.now) }
{
    for fact in facts {
        say_fact(out, fact)?;
    }
    Ok(())
}

/// What becomes true, and what becomes false.
fn say_change(out: &mut Vec<u8>, added: &[Fact<'_>], deleted: &[Fact<'_>]) -> Result<(), AllocError>
    ensures { OnOk result (out.new.items ≡ out.old.items ++ spec.change added.now deleted.now) }
{
    out.extend_from_slice(b"<td class=\"add\">")?;
    say_facts(out, added)?;
    out.extend_from_slice(b"</td><td class=\"del\">")?;
    say_facts(out, deleted)?;
    out.extend_from_slice(b"</td></tr>\n")?;
    Ok(())
}

/// The row of what is true at first.
fn say_start(out: &mut Vec<u8>, facts: &[Fact<'_>]) -> Result<(), AllocError>
    ensures { OnOk result (out.new.items ≡ out.old.items ++ spec.start_row facts.now) }
{
    out.extend_from_slice(b"<tr><td></td><td>at the start</td>")?;
    say_change(out, facts, &[])?;
    Ok(())
}

/// The row of an action.
fn say_action(
    out: &mut Vec<u8>,
    position: usize,
    line: &ActionLine,
    change: &Change<'_>,
) -> Result<(), AllocError>
    ensures { OnOk result (out.new.items ≡ out.old.items ++ spec.action_row position line.now change.now) }
{
    say_between(out, b"<tr><td>", position, b"</td><td>")?;
    say_name(out, line.name(), line.arguments())?;
    out.extend_from_slice(b"</td>")?;
    say_change(out, change.added.as_slice(), change.deleted.as_slice())?;
    Ok(())
}

/// The rows of the actions that are carried out.
fn say_actions(
    out: &mut Vec<u8>,
    lines: &[ActionLine],
    changes: &[Change<'_>],
) -> Result<(), AllocError>
    ensures { OnOk result (out.new.items ≡ out.old.items ++ spec.action_rows 0 lines.now changes.now) }
{
    let count = lines.len().min(changes.len());
    for position in 0..count {
        say_action(out, position, &lines[position], &changes[position])?;
    }
    Ok(())
}

/// The table of a run.
fn say_table(out: &mut Vec<u8>, file: &PlanFile, run: &Run<'_>) -> Result<(), AllocError>
    ensures { OnOk result (out.new.items ≡ out.old.items ++ spec.table file.now run.now) }
{
    out.extend_from_slice(
        b"<h2>Run</h2>\n<div class=\"run\">\n<table>\n<tr><th></th><th>action</th>",
    )?;
    out.extend_from_slice(b"<th>becomes true</th><th>becomes false</th></tr>\n")?;
    say_start(out, run.start.as_slice())?;
    say_actions(out, file.actions(), run.changes.as_slice())?;
    out.extend_from_slice(b"</table>\n</div>\n")?;
    Ok(())
}

/// The table of a run, if it is shown.
pub(crate) fn say_run(
    out: &mut Vec<u8>,
    file: &PlanFile,
    run: Option<&Run<'_>>,
) -> Result<(), AllocError>
    ensures { OnOk result (out.new.items ≡ out.old.items ++ spec.run file.now (option_map (λ r. r.now) run.entry)) }
{
    match run {
        Some(run) => say_table(out, file, run),
        None => Ok(()),
    }
}
