//! What a solution says of the lines of a plan, beyond what the plan's file says.

ghost use Rattle.std.specs.Prelude.{◌≡◌, ◌++◌, option_map, OnOk};
ghost use Rattle.std.specs.List.{flat_map};
ghost use Rattle.picture_text.specs.Details as spec;
ghost use Rattle.picture_text.specs.Words.{spaced};
ghost use Rattle.plan_text.specs.Forest.{lists_of};

use crate::words::{say, say_number};
use std::alloc::AllocError;

/// A parameter of a line's method that the line's task does not show, with its value.
pub struct Setting {
    /// The parameter as it is written, `?other`.
    pub name: Vec<u8>,
    /// The object that is its value.
    pub object: Vec<u8>,
}

impl Drop for Setting {
    fn drop(self) {
        let Setting { name: _, object: _ } = self;
    }
}

/// The precondition of a line's method.
pub struct Condition {
    /// Its literals as they are written at objects: `(at truck junction)`.
    pub literals: Vec<Vec<u8>>,
    /// How many actions are carried out before it is tested.
    pub gap: usize,
}

impl Drop for Condition {
    fn drop(self) {
        let Condition {
            literals: _,
            gap: _,
        } = self;
    }
}

/// What a solution says of a decomposition line, beyond what a plan file says.
pub struct Detail {
    /// The parameters of its method that its task does not show.
    pub settings: Vec<Setting>,
    /// The precondition of its method, if that has one.
    pub condition: Option<Condition>,
}

impl Drop for Detail {
    fn drop(self) {
        let Detail {
            settings: _,
            condition: _,
        } = self;
    }
}

/// What is said of the line with a number, where details are those of the lines behind the actions.
pub fn detail_at<'a>(
    details: Option<&'a [Detail]>,
    actions: usize,
    number: usize,
) -> Option<&'a Detail>
    ensures { option_map (λ d. d.now) result ≡ spec.detail_at (option_map (λ d. d.now) details.entry) actions number }
{
    match details {
        Some(details) => {
            if number < actions {
                return None;
            }
            details.get(number - actions)
        }
        None => None,
    }
}

/// The parameters of a line's method that its task does not show.
pub fn settings_of<'a>(detail: Option<&'a Detail>) -> &'a [Setting]
    ensures { result.now ≡ spec.settings_of (option_map (λ d. d.now) detail.entry) }
{
    match detail {
        Some(detail) => detail.settings.as_slice(),
        None => &[],
    }
}

/// The precondition of a line's method.
pub fn condition_of<'a>(detail: Option<&'a Detail>) -> Option<&'a Condition>
    ensures { option_map (λ c. c.now) result ≡ spec.condition_of (option_map (λ d. d.now) detail.entry) }
{
    match detail {
        Some(detail) => detail.condition.as_ref(),
        None => None,
    }
}

/// A parameter and its value, with a sign between the two.
pub fn say_setting(out: &mut Vec<u8>, sign: &[u8], setting: &Setting) -> Result<(), AllocError>
    ensures { OnOk result (out.new.items ≡ out.old.items ++ spec.setting_words sign.now setting.now) }
{
    say(out, setting.name.as_slice())?;
    out.extend_from_slice(sign)?;
    say(out, setting.object.as_slice())
}

/// Each literal after a blank.
fn say_spaced(out: &mut Vec<u8>, literals: &[Vec<u8>]) -> Result<(), AllocError>
    ensures { OnOk result (out.new.items ≡ out.old.items ++ flat_map spaced (lists_of literals.now)) }
{
    for literal in literals {
        out.push(b' ')?;
        say(out, literal.as_slice())?;
    }
    Ok(())
}

/// Literals with a blank between any two.
fn say_literals(out: &mut Vec<u8>, literals: &[Vec<u8>]) -> Result<(), AllocError>
    ensures { OnOk result (out.new.items ≡ out.old.items ++ spec.joined (lists_of literals.now)) }
{
    if let [first, others @ ..] = literals {
        say(out, first.as_slice())?;
        say_spaced(out, others)?;
    }
    Ok(())
}

/// When a precondition is tested: at the start, or after the last of some actions.
pub fn say_moment(out: &mut Vec<u8>, gap: usize) -> Result<(), AllocError>
    ensures { OnOk result (out.new.items ≡ out.old.items ++ spec.moment gap) }
{
    if gap == 0 {
        return out.extend_from_slice(b" at the start");
    }
    out.extend_from_slice(b" after ")?;
    say_number(out, (gap - 1) as u64)
}

/// A precondition, and when it is tested.
pub fn say_condition(out: &mut Vec<u8>, condition: &Condition) -> Result<(), AllocError>
    ensures { OnOk result (out.new.items ≡ out.old.items ++ spec.condition_words condition.now) }
{
    say_literals(out, condition.literals.as_slice())?;
    say_moment(out, condition.gap)
}
