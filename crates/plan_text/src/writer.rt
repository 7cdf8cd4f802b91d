//! Writes plan files.

ghost use Rattle.std.specs.Prelude.{map};
ghost use Rattle.std.specs.List.{flat_map};
ghost use Rattle.std.specs.Fmt.{decimal};
ghost use Rattle.plan_text.specs.Out.{Writes};
ghost use Rattle.plan_text.specs.Written.{spaced, line_of, action_words, root_words, decomposition_words, written};
ghost use Rattle.plan_text.specs.Parts.{head_text, tail_text, action_text, decomposition_text};

use crate::out::Out;
use crate::plan_file::{ActionLine, DecompositionLine, PlanFile};
use crate::word::Word;
use itoa::Buffer;
use thiserror::Error;

/// Why a plan file was not written whole.
#[derive(Clone, Copy, Debug, Error, PartialEq, Eq)]
pub enum WriteFault {
    /// The output failed.
    #[error("the output cannot be written")]
    Device,
}

/// Writes all of the bytes, and takes no memory. At a fault the output has failed, and has a beginning of them.
pub fn put_all<O: Out>(out: &mut O, bytes: &[u8]) -> Result<(), WriteFault>
    ensures { Writes (O.contents out.old) (O.contents out.new) (O.has_failed out.old) (O.has_failed out.new) result bytes.now }
{
    let mut rest = bytes;
    while !rest.is_empty() {
        match out.put(rest) {
            Some(count) => rest = &rest[count..],
            None => return Err(WriteFault::Device),
        }
    }
    Ok(())
}

/// A space and a word.
fn put_spaced<O: Out>(out: &mut O, word: &[u8]) -> Result<(), WriteFault>
    ensures { Writes (O.contents out.old) (O.contents out.new) (O.has_failed out.old) (O.has_failed out.new) result (spaced word.now) }
{
    put_all(out, b" ")?;
    put_all(out, word)
}

/// A number in decimal.
fn put_number<O: Out>(out: &mut O, number: u64) -> Result<(), WriteFault>
    ensures { Writes (O.contents out.old) (O.contents out.new) (O.has_failed out.old) (O.has_failed out.new) result (decimal number) }
{
    let mut buffer = Buffer::new();
    put_all(out, buffer.format(number).as_bytes())
}

/// A space and a number in decimal.
fn put_spaced_number<O: Out>(out: &mut O, number: u64) -> Result<(), WriteFault>
    ensures { Writes (O.contents out.old) (O.contents out.new) (O.has_failed out.old) (O.has_failed out.new) result (spaced (decimal number)) }
{
    let mut buffer = Buffer::new();
    put_spaced(out, buffer.format(number).as_bytes())
}

/// Each word after a space.
fn put_words<O: Out>(out: &mut O, words: &[Word]) -> Result<(), WriteFault>
    ensures { Writes (O.contents out.old) (O.contents out.new) (O.has_failed out.old) (O.has_failed out.new) result (flat_map spaced words.now) }
{
    for word in words {
        put_spaced(out, word.as_bytes())?;
    }
    Ok(())
}

/// Each number after a space.
fn put_numbers<O: Out>(out: &mut O, numbers: &[u64]) -> Result<(), WriteFault>
    ensures { Writes (O.contents out.old) (O.contents out.new) (O.has_failed out.old) (O.has_failed out.new) result (flat_map spaced (map decimal numbers.now)) }
{
    for number in numbers {
        put_spaced_number(out, *number)?;
    }
    Ok(())
}

/// An id and a name with its arguments.
fn put_head<O: Out>(out: &mut O, id: u64, name: &Word, arguments: &[Word]) -> Result<(), WriteFault>
    ensures { Writes (O.contents out.old) (O.contents out.new) (O.has_failed out.old) (O.has_failed out.new) result (head_text id name.now arguments.now) }
{
    put_number(out, id)?;
    put_spaced(out, name.as_bytes())?;
    put_words(out, arguments)
}

/// The arrow, a method and its children.
fn put_tail<O: Out>(out: &mut O, method: &Word, children: &[u64]) -> Result<(), WriteFault>
    ensures { Writes (O.contents out.old) (O.contents out.new) (O.has_failed out.old) (O.has_failed out.new) result (tail_text method.now children.now) }
{
    put_spaced(out, b"->")?;
    put_spaced(out, method.as_bytes())?;
    put_numbers(out, children)
}

fn put_action<O: Out>(out: &mut O, line: &ActionLine) -> Result<(), WriteFault>
    ensures { Writes (O.contents out.old) (O.contents out.new) (O.has_failed out.old) (O.has_failed out.new) result (line_of (action_words line.now)) }
{
    put_head(out, line.id(), line.name(), line.arguments())?;
    put_all(out, b"\n")
}

fn put_roots<O: Out>(out: &mut O, roots: &[u64]) -> Result<(), WriteFault>
    ensures { Writes (O.contents out.old) (O.contents out.new) (O.has_failed out.old) (O.has_failed out.new) result (line_of (root_words roots.now)) }
{
    put_all(out, b"root")?;
    put_numbers(out, roots)?;
    put_all(out, b"\n")
}

fn put_decomposition<O: Out>(out: &mut O, line: &DecompositionLine) -> Result<(), WriteFault>
    ensures { Writes (O.contents out.old) (O.contents out.new) (O.has_failed out.old) (O.has_failed out.new) result (line_of (decomposition_words line.now)) }
{
    put_head(out, line.id(), line.task(), line.arguments())?;
    put_tail(out, line.method(), line.children())?;
    put_all(out, b"\n")
}

fn put_actions<O: Out>(out: &mut O, lines: &[ActionLine]) -> Result<(), WriteFault>
    ensures { Writes (O.contents out.old) (O.contents out.new) (O.has_failed out.old) (O.has_failed out.new) result (flat_map action_text lines.now) }
{
    for line in lines {
        put_action(out, line)?;
    }
    Ok(())
}

fn put_decompositions<O: Out>(out: &mut O, lines: &[DecompositionLine]) -> Result<(), WriteFault>
    ensures { Writes (O.contents out.old) (O.contents out.new) (O.has_failed out.old) (O.has_failed out.new) result (flat_map decomposition_text lines.now) }
{
    for line in lines {
        put_decomposition(out, line)?;
    }
    Ok(())
}

/// Writes a plan file, and takes no memory for it.
///
/// An `Err` comes only where the output has failed. A beginning of the text is then in it.
pub fn write_plan<O: Out>(file: &PlanFile, out: &mut O) -> Result<(), WriteFault>
    ensures { Writes (O.contents out.old) (O.contents out.new) (O.has_failed out.old) (O.has_failed out.new) result (written file.now) }
{
    put_all(out, b"==>\n")?;
    put_actions(out, file.actions())?;
    put_roots(out, file.roots())?;
    put_decompositions(out, file.decompositions())?;
    put_all(out, b"<==\n")
}
