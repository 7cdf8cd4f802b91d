//! The time of a line beside it: its bars, and where the precondition of its method is tested.

ghost use Rattle.std.specs.Prelude.{◌≡◌, ◌++◌, option_map, OnOk};
ghost use Rattle.std.specs.List.{flat_map};
ghost use Rattle.picture_html.specs.Time as spec;

use crate::bars::Bar;
use crate::label::say_between;
use picture_text::Condition;
use std::alloc::AllocError;

/// Where a bar is.
fn say_extent(out: &mut Vec<u8>, first: usize, last: usize) -> Result<(), AllocError>
    ensures { OnOk result (out.new.items ≡ out.old.items ++ spec.extent first last) }
{
    say_between(out, b" style=\"--a:", first, b";--b:")?;
    say_between(out, b"", last, b"\"></i>")
}

/// A bar.
fn say_bar(out: &mut Vec<u8>, bar: Bar) -> Result<(), AllocError>
    ensures { OnOk result (out.new.items ≡ out.old.items ++ spec.bar_text bar) }
{
    out.extend_from_slice(b"<i")?;
    say_extent(out, bar.first, bar.last)
}

/// The line that links bars, where there are at least two.
fn say_link(out: &mut Vec<u8>, bars: &[Bar]) -> Result<(), AllocError>
    ensures { OnOk result (out.new.items ≡ out.old.items ++ spec.link bars.now) }
{
    if bars.len() < 2 {
        return Ok(());
    }
    out.extend_from_slice(b"<i class=\"link\"")?;
    let first = &bars[0];
    let last = &bars[bars.len() - 1];
    say_extent(out, first.first, last.last)
}

/// Bars, one after another.
fn say_bars(out: &mut Vec<u8>, bars: &[Bar]) -> Result<(), AllocError>
    ensures { OnOk result (out.new.items ≡ out.old.items ++ flat_map spec.bar_text bars.now) }
{
    for bar in bars {
        say_bar(out, *bar)?;
    }
    Ok(())
}

/// The sign before the position at which the precondition of a line's method is tested, if it has one.
fn say_test(out: &mut Vec<u8>, condition: Option<&Condition>) -> Result<(), AllocError>
    ensures { OnOk result (out.new.items ≡ out.old.items ++ spec.test (option_map (λ c. c.now) condition.entry)) }
{
    match condition {
        Some(condition) => say_between(
            out,
            b"<i class=\"p\" style=\"--a:",
            condition.gap,
            b"\"></i>",
        ),
        None => Ok(()),
    }
}

/// The time of a line: the bars, the line that links them, and the sign of a test.
pub(crate) fn say_time(
    out: &mut Vec<u8>,
    bars: &[Bar],
    condition: Option<&Condition>,
) -> Result<(), AllocError>
    ensures { OnOk result (out.new.items ≡ out.old.items ++ spec.time bars.now (option_map (λ c. c.now) condition.entry)) }
{
    out.extend_from_slice(b"<span class=\"time\">")?;
    say_link(out, bars)?;
    say_bars(out, bars)?;
    say_test(out, condition)?;
    out.extend_from_slice(b"</span>")
}
