//! The run of a plan as people read it.

ghost use Rattle.std.specs.Prelude.{◌≡◌, ◌++◌, ◌∷◌, IfOk, OnOk, length, map, max};
ghost use Rattle.std.specs.Fmt.{decimal};
ghost use Rattle.std.specs.List.{flat_map, fold, zip};
ghost use Rattle.plan_causes.specs.Facts.{words_of};
ghost use Rattle.diagnostics.specs.Shown as places;
ghost use Rattle.plan_messages.specs.RunText as spec;

use diagnostics::shown;
use itoa::Buffer;
use plan_causes::{Change, Fact, Run};
use plan_text::{ActionLine, PlanFile, Word};
use std::alloc::{AllocError, Global};

/// The most columns that actions are padded to, so that one long line doesn't lengthen all others.
const MOST_PADDED: usize = 60;

/// Adds bytes, each as it is shown.
fn push_shown(text: &mut Vec<u8>, bytes: &[u8]) -> Result<(), AllocError>
    ensures { OnOk result (text.new.items ≡ text.old.items ++ map places.shown bytes.now) }
{
    for byte in bytes {
        text.push(shown(*byte))?;
    }
    Ok(())
}

/// Adds blanks.
fn push_blanks(text: &mut Vec<u8>, count: usize) -> Result<(), AllocError>
    ensures { OnOk result (text.new.items ≡ text.old.items ++ spec.blanks count) }
{
    for pushed in 0..count {
        let _ = pushed;
        text.push(b' ')?;
    }
    Ok(())
}

/// Adds words, each after a blank.
fn push_spaced(text: &mut Vec<u8>, words: &[&[u8]]) -> Result<(), AllocError>
    ensures { OnOk result (text.new.items ≡ text.old.items ++ flat_map (λ w. 32 ∷ map places.shown w) (map (λ w. w.now) words.now)) }
{
    for word in words {
        text.push(b' ')?;
        push_shown(text, word)?;
    }
    Ok(())
}

/// Adds words with a blank between any two.
fn push_words(text: &mut Vec<u8>, words: &[&[u8]]) -> Result<(), AllocError>
    ensures { OnOk result (text.new.items ≡ text.old.items ++ spec.shown_words (map (λ w. w.now) words.now)) }
{
    if let [first, others @ ..] = words {
        push_shown(text, first)?;
        push_spaced(text, others)?;
    }
    Ok(())
}

/// Adds a fact after a blank and a mark, as ` +(on a b)`.
fn push_fact(text: &mut Vec<u8>, mark: &[u8], fact: &Fact<'_>) -> Result<(), AllocError>
    ensures { OnOk result (text.new.items ≡ text.old.items ++ spec.fact_text mark.now fact.now) }
{
    text.push(b' ')?;
    text.extend_from_slice(mark)?;
    text.push(b'(')?;
    push_words(text, fact.words.as_slice())?;
    text.push(b')')?;
    Ok(())
}

/// Adds facts.
fn push_facts(text: &mut Vec<u8>, mark: &[u8], facts: &[Fact<'_>]) -> Result<(), AllocError>
    ensures { OnOk result (text.new.items ≡ text.old.items ++ flat_map (spec.fact_text mark.now) facts.now) }
{
    for fact in facts {
        push_fact(text, mark, fact)?;
    }
    Ok(())
}

/// Adds what an action changes.
fn push_change(text: &mut Vec<u8>, change: &Change<'_>) -> Result<(), AllocError>
    ensures { OnOk result (text.new.items ≡ text.old.items ++ spec.change_text change.now) }
{
    let added = change.added.as_slice();
    let deleted = change.deleted.as_slice();
    if added.is_empty() && deleted.is_empty() {
        text.extend_from_slice(b" no change")?;
        return Ok(());
    }
    push_facts(text, b"+", added)?;
    push_facts(text, b"-", deleted)?;
    Ok(())
}

/// Adds what is true at first.
fn push_start(text: &mut Vec<u8>, facts: &[Fact<'_>]) -> Result<(), AllocError>
    ensures { OnOk result (text.new.items ≡ text.old.items ++ spec.start_text facts.now) }
{
    if facts.is_empty() {
        text.extend_from_slice(b" ")?;
        return Ok(());
    }
    push_facts(text, b"", facts)?;
    Ok(())
}

/// Adds the arguments of an action, each after a blank.
fn push_arguments(text: &mut Vec<u8>, words: &[Word]) -> Result<(), AllocError>
    ensures { OnOk result (text.new.items ≡ text.old.items ++ flat_map (λ w. 32 ∷ map places.shown w) words.now) }
{
    for word in words {
        text.push(b' ')?;
        push_shown(text, word.as_bytes())?;
    }
    Ok(())
}

/// Adds the words of an action, as `stack a b`.
fn push_action(text: &mut Vec<u8>, line: &ActionLine) -> Result<(), AllocError>
    ensures { OnOk result (text.new.items ≡ text.old.items ++ spec.action_text line.now) }
{
    push_shown(text, line.name().as_bytes())?;
    push_arguments(text, line.arguments())?;
    Ok(())
}

/// How many columns a number takes.
fn number_width(line: &ActionLine) -> usize
    ensures { result ≡ spec.number_width line.now }
{
    let mut buffer = Buffer::new();
    buffer.format(line.id()).as_bytes().len()
}

/// How many columns the words of an action take, as far as others are padded.
fn action_width(line: &ActionLine) -> usize
    ensures { result ≡ spec.action_width line.now }
{
    let mut width = line.name().as_bytes().len();
    for word in line.arguments() {
        width = width
            .saturating_add(word.as_bytes().len())
            .saturating_add(1);
    }
    width.min(MOST_PADDED)
}

/// The columns of a run: how wide the widest number is, and the widest action.
#[derive(Clone, Copy)]
pub(crate) struct Columns {
    pub(crate) number: usize,
    pub(crate) words: usize,
}

/// How wide the widest number is.
fn number_column(lines: &[ActionLine]) -> usize
    ensures { result ≡ fold (λ widest line. max widest (spec.number_width line)) 0 lines.now }
{
    let mut widest = 0;
    for line in lines {
        widest = widest.max(number_width(line));
    }
    widest
}

/// How wide the widest action is.
fn words_column(lines: &[ActionLine]) -> usize
    ensures { result ≡ fold (λ widest line. max widest (spec.action_width line)) 5 lines.now }
{
    let mut widest = b"start".len();
    for line in lines {
        widest = widest.max(action_width(line));
    }
    widest
}

/// The columns of action lines.
fn columns_of(lines: &[ActionLine]) -> Columns
    ensures { result ≡ spec.columns_of lines.now }
{
    Columns {
        number: number_column(lines),
        words: words_column(lines),
    }
}

/// Adds an action with its number, in columns.
fn push_columns(text: &mut Vec<u8>, columns: Columns, line: &ActionLine) -> Result<(), AllocError>
    ensures { OnOk result (text.new.items ≡ text.old.items ++ spec.action_columns columns line.now) }
{
    let mut buffer = Buffer::new();
    push_blanks(text, columns.number.saturating_sub(number_width(line)))?;
    text.extend_from_slice(buffer.format(line.id()).as_bytes())?;
    text.extend_from_slice(b"  ")?;
    push_action(text, line)?;
    push_blanks(text, columns.words.saturating_sub(action_width(line)))?;
    Ok(())
}

/// Adds the line of an action.
fn push_action_line(
    text: &mut Vec<u8>,
    columns: Columns,
    line: &ActionLine,
    change: &Change<'_>,
) -> Result<(), AllocError>
    ensures { OnOk result (text.new.items ≡ text.old.items ++ spec.action_line columns (line.now, change.now)) }
{
    push_columns(text, columns, line)?;
    text.push(b' ')?;
    push_change(text, change)?;
    text.push(b'\n')?;
    Ok(())
}

/// Adds the line of what is true at first.
fn push_start_line(
    text: &mut Vec<u8>,
    columns: Columns,
    facts: &[Fact<'_>],
) -> Result<(), AllocError>
    ensures { OnOk result (text.new.items ≡ text.old.items ++ spec.start_line columns facts.now) }
{
    push_blanks(text, columns.number)?;
    text.extend_from_slice(b"  start")?;
    push_blanks(text, columns.words.saturating_sub(b"start".len()))?;
    text.push(b' ')?;
    push_start(text, facts)?;
    text.push(b'\n')?;
    Ok(())
}

/// Adds the lines of actions.
fn push_action_lines(
    text: &mut Vec<u8>,
    columns: Columns,
    lines: &[ActionLine],
    changes: &[Change<'_>],
) -> Result<(), AllocError>
    ensures { OnOk result (text.new.items ≡ text.old.items ++ flat_map (spec.action_line columns) (zip lines.now changes.now)) }
{
    let count = lines.len().min(changes.len());
    for number in 0..count {
        push_action_line(text, columns, &lines[number], &changes[number])?;
    }
    Ok(())
}

/// The lines of a run of a plan's action lines: the atoms that are true initially and may change, and then for each
/// action the atoms that it makes true and those that it makes false. An error where memory was refused.
pub fn run_lines(alloc: Global, file: &PlanFile, run: &Run<'_>) -> Result<Vec<u8>, AllocError>
    ensures { IfOk result (λ v. v.items ≡ spec.run_text file.now run.now) }
{
    let lines = file.actions();
    let count = run.changes.len().min(lines.len());
    let columns = columns_of(&lines[..count]);
    let mut text = Vec::new(alloc);
    push_start_line(&mut text, columns, run.start.as_slice())?;
    push_action_lines(&mut text, columns, lines, run.changes.as_slice())?;
    Ok(text)
}
