//! Why a plan has its verdict, as lines.

ghost use Rattle.std.specs.Prelude.{◌≡◌, ◌++◌, OnOk};
ghost use Rattle.picture_html.specs.Why as spec;

use crate::escape::say_byte;
use diagnostics::shown;
use std::alloc::AllocError;

/// A byte as it is shown, and a line feed as it is.
fn line_byte(byte: u8) -> u8
    ensures { result ≡ spec.line_byte byte }
{
    if byte == b'\n' { byte } else { shown(byte) }
}

/// Lines, none of whose bytes is markup.
fn say_lines(out: &mut Vec<u8>, lines: &[u8]) -> Result<(), AllocError>
    ensures { OnOk result (out.new.items ≡ out.old.items ++ spec.clean_lines lines.now) }
{
    for byte in lines {
        say_byte(out, line_byte(*byte))?;
    }
    Ok(())
}

/// What these lines begin with.
fn begin_of(verdict: &str) -> &'static [u8]
    ensures { result.now ≡ spec.begin verdict.now }
{
    if verdict == "valid" {
        b"<pre class=\"why\">"
    } else {
        b"<pre class=\"why no\">"
    }
}

/// The lines that say why a plan has its verdict, if there are some.
pub(crate) fn say_why(out: &mut Vec<u8>, verdict: &str, lines: &[u8]) -> Result<(), AllocError>
    ensures { OnOk result (out.new.items ≡ out.old.items ++ spec.why verdict.now lines.now) }
{
    if lines.is_empty() {
        return Ok(());
    }
    out.extend_from_slice(begin_of(verdict))?;
    say_lines(out, lines)?;
    out.extend_from_slice(b"</pre>\n")?;
    Ok(())
}
