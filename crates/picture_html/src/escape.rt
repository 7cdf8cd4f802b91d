//! Words among markup.

ghost use Rattle.std.specs.Prelude.{◌≡◌, ◌++◌, OnOk};
ghost use Rattle.picture_svg.specs.Escape as markup;
ghost use Rattle.picture_html.specs.Label as spec;

use diagnostics::shown;
use std::alloc::AllocError;

/// A byte, or its name.
pub(crate) fn say_byte(out: &mut Vec<u8>, byte: u8) -> Result<(), AllocError>
    ensures { OnOk result (out.new.items ≡ out.old.items ++ markup.escape byte) }
{
    match byte {
        b'<' => out.extend_from_slice(b"&lt;"),
        b'>' => out.extend_from_slice(b"&gt;"),
        b'&' => out.extend_from_slice(b"&amp;"),
        b'"' => out.extend_from_slice(b"&quot;"),
        _ => {
            out.push(byte)?;
            Ok(())
        }
    }
}

/// Words as they are shown, none of whose bytes is markup.
pub(crate) fn say_clean(out: &mut Vec<u8>, words: &[u8]) -> Result<(), AllocError>
    ensures { OnOk result (out.new.items ≡ out.old.items ++ spec.clean words.now) }
{
    for byte in words {
        say_byte(out, shown(*byte))?;
    }
    Ok(())
}
