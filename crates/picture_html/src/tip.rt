//! What a solution says of a line, as it is shown where one points at its row.

ghost use Rattle.std.specs.Prelude.{◌≡◌, ◌++◌, option_map, OnOk};
ghost use Rattle.std.specs.List.{flat_map, list_any};
ghost use Rattle.picture_html.specs.Tip as spec;
ghost use Rattle.plan_text.specs.Forest.{lists_of};

use crate::escape::say_clean;
use picture_text::{Condition, Detail, Setting, say_moment};
use std::alloc::AllocError;

/// A parameter and its value, on a line of their own.
fn say_setting(out: &mut Vec<u8>, setting: &Setting) -> Result<(), AllocError>
    ensures { OnOk result (out.new.items ≡ out.old.items ++ spec.setting_line setting.now) }
{
    say_clean(out, setting.name.as_slice())?;
    out.extend_from_slice(b" = ")?;
    say_clean(out, setting.object.as_slice())?;
    out.extend_from_slice(b"\n")
}

/// Parameters and their values.
fn say_settings(out: &mut Vec<u8>, settings: &[Setting]) -> Result<(), AllocError>
    ensures { OnOk result (out.new.items ≡ out.old.items ++ flat_map spec.setting_line settings.now) }
{
    for setting in settings {
        say_setting(out, setting)?;
    }
    Ok(())
}

/// Literals, each on a line of its own.
fn say_literals(out: &mut Vec<u8>, literals: &[Vec<u8>]) -> Result<(), AllocError>
    ensures { OnOk result (out.new.items ≡ out.old.items ++ flat_map spec.literal_line (lists_of literals.now)) }
{
    for literal in literals {
        say_clean(out, literal.as_slice())?;
        out.push(b'\n')?;
    }
    Ok(())
}

/// When the precondition of a line's method is tested, and its literals, if it has one.
fn say_condition(out: &mut Vec<u8>, condition: Option<&Condition>) -> Result<(), AllocError>
    ensures { OnOk result (out.new.items ≡ out.old.items ++ spec.condition_lines (option_map (λ c. c.now) condition.entry)) }
{
    match condition {
        Some(condition) => {
            out.extend_from_slice(b"precondition")?;
            say_moment(out, condition.gap)?;
            out.extend_from_slice(b":\n")?;
            say_literals(out, condition.literals.as_slice())
        }
        None => Ok(()),
    }
}

/// What a solution says of a line, if anything is known of it.
pub(crate) fn say_tip(out: &mut Vec<u8>, detail: Option<&Detail>) -> Result<(), AllocError>
    ensures { OnOk result (out.new.items ≡ out.old.items ++ spec.tip (option_map (λ d. d.now) detail.entry)) }
{
    match detail {
        Some(detail) => {
            out.extend_from_slice(b"<span class=\"tip\">")?;
            say_settings(out, detail.settings.as_slice())?;
            say_condition(out, detail.condition.as_ref())?;
            out.extend_from_slice(b"</span>")
        }
        None => Ok(()),
    }
}

/// Whether a line's method has a precondition.
fn is_tested(detail: &Detail) -> bool
    ensures { result ≡ spec.is_tested detail.now }
{
    detail.condition.is_some()
}

/// Whether one of some lines' methods has a precondition.
fn is_any_tested(details: &[Detail]) -> bool
    ensures { result ≡ list_any spec.is_tested details.now }
{
    for detail in details {
        if is_tested(detail) {
            return true;
        }
    }
    false
}

/// Whether some line's method has a precondition.
pub(crate) fn are_tested(details: Option<&[Detail]>) -> bool
    ensures { result ≡ spec.are_tested (option_map (λ d. d.now) details.entry) }
{
    match details {
        Some(details) => is_any_tested(details),
        None => false,
    }
}
