//! What is said of a line: its sign, its words, its id and what is wrong with it.

ghost use Rattle.std.specs.Prelude.{◌≡◌, ◌++◌, OnOk};
ghost use Rattle.std.specs.List.{flat_map};
ghost use Rattle.picture_text.specs.SeenLine.{seen_line};
ghost use Rattle.picture_html.specs.Label as spec;

use crate::escape::say_clean;
use picture_text::{Line, Mark, say_number};
use plan_text::Word;
use std::alloc::AllocError;

/// A number between two texts.
pub(crate) fn say_between(
    out: &mut Vec<u8>,
    before: &[u8],
    number: usize,
    after: &[u8],
) -> Result<(), AllocError>
    ensures { OnOk result (out.new.items ≡ out.old.items ++ spec.between before.now number after.now) }
{
    out.extend_from_slice(before)?;
    say_number(out, number as u64)?;
    out.extend_from_slice(after)
}

/// Words between two texts.
pub(crate) fn say_words_between(
    out: &mut Vec<u8>,
    before: &[u8],
    words: &[u8],
    after: &[u8],
) -> Result<(), AllocError>
    ensures { OnOk result (out.new.items ≡ out.old.items ++ spec.words_between before.now words.now after.now) }
{
    out.extend_from_slice(before)?;
    say_clean(out, words)?;
    out.extend_from_slice(after)
}

/// Each word after a blank.
fn say_arguments(out: &mut Vec<u8>, words: &[Word]) -> Result<(), AllocError>
    ensures { OnOk result (out.new.items ≡ out.old.items ++ flat_map spec.spaced words.now) }
{
    for word in words {
        out.push(b' ')?;
        say_clean(out, word.as_bytes())?;
    }
    Ok(())
}

/// A name with its arguments.
pub(crate) fn say_name(out: &mut Vec<u8>, name: &Word, arguments: &[Word]) -> Result<(), AllocError>
    ensures { OnOk result (out.new.items ≡ out.old.items ++ spec.name_text name.now arguments.now) }
{
    say_words_between(out, b"<b>", name.as_bytes(), b"</b>")?;
    say_arguments(out, arguments)
}

/// The words of a line, and the method of a task.
fn say_words(out: &mut Vec<u8>, line: Line<'_>) -> Result<(), AllocError>
    ensures { OnOk result (out.new.items ≡ out.old.items ++ spec.words (seen_line line.entry)) }
{
    match line {
        Line::Action(action) => say_name(out, action.name(), action.arguments()),
        Line::Task(task) => {
            say_name(out, task.task(), task.arguments())?;
            say_words_between(out, b" <em>", task.method().as_bytes(), b"</em>")
        }
    }
}

/// An id.
fn say_id_text(out: &mut Vec<u8>, id: u64) -> Result<(), AllocError>
    ensures { OnOk result (out.new.items ≡ out.old.items ++ spec.id_text id) }
{
    out.extend_from_slice(b" <small>#")?;
    say_number(out, id)?;
    out.extend_from_slice(b"</small>")
}

/// A line's id, of an action where that isn't its position.
fn say_id(out: &mut Vec<u8>, position: usize, line: Line<'_>) -> Result<(), AllocError>
    ensures { OnOk result (out.new.items ≡ out.old.items ++ spec.id position (seen_line line.entry)) }
{
    match line {
        Line::Action(action) => {
            if action.id() == position as u64 {
                return Ok(());
            }
            say_id_text(out, action.id())
        }
        Line::Task(task) => say_id_text(out, task.id()),
    }
}

/// What is wrong with a line.
fn say_flag(out: &mut Vec<u8>, mark: Option<Mark<'_>>) -> Result<(), AllocError>
    ensures { OnOk result (out.new.items ≡ out.old.items ++ spec.flag mark.entry) }
{
    match mark {
        Some(mark) => say_words_between(out, b" <mark>", mark.cause.as_bytes(), b"</mark>"),
        None => Ok(()),
    }
}

/// The sign of a line: the position of an action, or the sign of a task.
fn say_sign(out: &mut Vec<u8>, number: usize, line: Line<'_>) -> Result<(), AllocError>
    ensures { OnOk result (out.new.items ≡ out.old.items ++ spec.sign number (seen_line line.entry)) }
{
    match line {
        Line::Action(_) => say_between(out, b"<b class=\"no\">", number, b"</b>"),
        Line::Task(_) => out.extend_from_slice(b"<b class=\"sign\"></b>"),
    }
}

/// How many more lines a line is below than its indent shows, if any.
fn say_cut(out: &mut Vec<u8>, count: usize) -> Result<(), AllocError>
    ensures { OnOk result (out.new.items ≡ out.old.items ++ spec.cut count) }
{
    if count == 0 {
        return Ok(());
    }
    say_between(out, b"<small>+", count, b"</small>")
}

/// The words of a line, its id and what is wrong with it.
fn say_text(
    out: &mut Vec<u8>,
    mark: Option<Mark<'_>>,
    number: usize,
    line: Line<'_>,
) -> Result<(), AllocError>
    ensures { OnOk result (out.new.items ≡ out.old.items ++ spec.text mark.entry number (seen_line line.entry)) }
{
    say_words(out, line)?;
    say_id(out, number, line)?;
    say_flag(out, mark)
}

/// What stands before the words of a line that is below some lines more than its indent shows.
fn say_front(
    out: &mut Vec<u8>,
    more: usize,
    number: usize,
    line: Line<'_>,
) -> Result<(), AllocError>
    ensures { OnOk result (out.new.items ≡ out.old.items ++ spec.front more number (seen_line line.entry)) }
{
    out.extend_from_slice(b"<span class=\"label\">")?;
    say_cut(out, more)?;
    say_sign(out, number, line)?;
    out.extend_from_slice(b"<span>")
}

/// The label of a line that is below some lines more than its indent shows.
pub(crate) fn say_label(
    out: &mut Vec<u8>,
    mark: Option<Mark<'_>>,
    more: usize,
    number: usize,
    line: Line<'_>,
) -> Result<(), AllocError>
    ensures { OnOk result (out.new.items ≡ out.old.items ++ spec.label mark.entry more number (seen_line line.entry)) }
{
    say_front(out, more, number, line)?;
    say_text(out, mark, number, line)?;
    out.extend_from_slice(b"</span></span>")
}
