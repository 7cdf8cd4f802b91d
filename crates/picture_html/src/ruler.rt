//! The numbers above the time line.

ghost use Rattle.std.specs.Prelude.{◌≡◌, ◌++◌, ◌<◌, OnOk};
ghost use Rattle.picture_html.specs.Ruler as spec;

use crate::label::say_between;
use std::alloc::AllocError;

/// How far the numbers are from one another, where there are some positions.
pub(crate) fn step_of(positions: usize) -> usize
    ensures value { result ≡ spec.step_of positions }
    ensures some { 0 < result }
{
    if positions <= 30 {
        1
    } else if positions <= 150 {
        5
    } else if positions <= 1500 {
        50
    } else if positions <= 15000 {
        500
    } else {
        5000
    }
}

/// A number at its position.
fn say_tick(out: &mut Vec<u8>, position: usize) -> Result<(), AllocError>
    ensures { OnOk result (out.new.items ≡ out.old.items ++ spec.tick position) }
{
    say_between(out, b"<u style=\"--a:", position, b"\">")?;
    say_between(out, b"", position, b"</u>")
}

/// The same if a step divides it.
fn say_tick_at(out: &mut Vec<u8>, step: usize, position: usize) -> Result<(), AllocError>
    requires { 0 < step }
    ensures { OnOk result (out.new.items ≡ out.old.items ++ spec.tick_at step position) }
{
    if position % step == 0 {
        return say_tick(out, position);
    }
    Ok(())
}

/// The numbers above some positions.
pub(crate) fn say_ticks(out: &mut Vec<u8>, positions: usize) -> Result<(), AllocError>
    ensures { OnOk result (out.new.items ≡ out.old.items ++ spec.ticks positions) }
{
    let step = step_of(positions);
    for position in 0..positions {
        say_tick_at(out, step, position)?;
    }
    Ok(())
}
