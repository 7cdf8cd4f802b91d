//! Words as they are shown.

ghost use Rattle.std.specs.Prelude.{◌≡◌, ◌++◌, ◌-◌, length, map, replicate, OnOk};
ghost use Rattle.std.specs.List.{flat_map};
ghost use Rattle.std.specs.Fmt.{decimal};
ghost use Rattle.diagnostics.specs.Shown as shown_spec;
ghost use Rattle.picture_text.specs.Words as spec;

use crate::caption::{Caption, Mark};
use diagnostics::shown;
use itoa::Buffer;
use plan_text::Word;
use std::alloc::AllocError;

/// Words, of which each byte is written as it is shown.
pub fn say(out: &mut Vec<u8>, words: &[u8]) -> Result<(), AllocError>
    ensures { OnOk result (out.new.items ≡ out.old.items ++ map shown_spec.shown words.now) }
{
    for byte in words {
        out.push(shown(*byte))?;
    }
    Ok(())
}

/// A number in decimal.
pub fn say_number(out: &mut Vec<u8>, number: u64) -> Result<(), AllocError>
    ensures { OnOk result (out.new.items ≡ out.old.items ++ decimal number) }
{
    let mut buffer = Buffer::new();
    out.extend_from_slice(buffer.format(number).as_bytes())
}

/// A number in decimal, right in a column of some width.
pub(crate) fn say_in_column(
    out: &mut Vec<u8>,
    width: usize,
    number: usize,
) -> Result<(), AllocError>
    ensures { OnOk result (out.new.items ≡ out.old.items ++ (replicate (width - length (decimal number)) 32 ++ decimal number)) }
{
    let mut buffer = Buffer::new();
    let digits = buffer.format(number).as_bytes();
    say_blanks(out, width.saturating_sub(digits.len()))?;
    out.extend_from_slice(digits)
}

/// Some blanks.
pub(crate) fn say_blanks(out: &mut Vec<u8>, count: usize) -> Result<(), AllocError>
    ensures { OnOk result (out.new.items ≡ out.old.items ++ replicate count 32) }
{
    for written in 0..count {
        let _written = written;
        out.push(b' ')?;
    }
    Ok(())
}

/// Each word after a blank.
fn say_arguments(out: &mut Vec<u8>, words: &[Word]) -> Result<(), AllocError>
    ensures { OnOk result (out.new.items ≡ out.old.items ++ flat_map spec.spaced words.now) }
{
    for word in words {
        out.push(b' ')?;
        say(out, word.as_bytes())?;
    }
    Ok(())
}

/// A name with its arguments.
pub fn say_task(out: &mut Vec<u8>, name: &Word, arguments: &[Word]) -> Result<(), AllocError>
    ensures { OnOk result (out.new.items ≡ out.old.items ++ spec.task_words name.now arguments.now) }
{
    say(out, name.as_bytes())?;
    say_arguments(out, arguments)
}

/// The mark of the line with an id, if it has one.
pub fn mark_of<'a>(caption: &Caption<'a>, id: u64) -> Option<Mark<'a>>
    ensures { result ≡ spec.mark_of caption.now.mark id }
{
    match caption.mark {
        Some(mark) if mark.id == id => Some(mark),
        _ => None,
    }
}

/// Whether the line with an id is marked.
pub fn is_marked(caption: &Caption<'_>, id: u64) -> bool
    ensures { result ≡ spec.is_marked caption.now.mark id }
{
    match caption.mark {
        Some(mark) => mark.id == id,
        None => false,
    }
}
