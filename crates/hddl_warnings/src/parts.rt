//! What conditions use: their atoms, the sides of their equalities and the variables of their `forall`s.
ghost use Rattle.std.specs.Prelude.{◌≡◌, [], OnOk, IfOk};
ghost use Rattle.hddl_warnings.specs.Parts.{AddsParts, AddsConditions, HasParts};

use hddl_words::{AtomText, Condition, Term, VariableGroup};
use std::alloc::{AllocError, Global};

/// The parts of conditions, in the order of the text.
#[derive(Drop)]
pub(crate) struct Parts<'a> {
    pub atoms: Vec<&'a AtomText>,
    pub sides: Vec<&'a Term>,
    /// The variables that `forall`s declare.
    pub groups: Vec<&'a VariableGroup>,
}

impl<'a> Parts<'a> {
    /// No parts.
    pub fn new(alloc: Global) -> Parts<'a>
        ensures atoms { result.atoms.items ≡ [] }
        ensures sides { result.sides.items ≡ [] }
        ensures groups { result.groups.items ≡ [] }
    {
        Parts {
            atoms: Vec::new(alloc),
            sides: Vec::new(alloc),
            groups: Vec::new(alloc),
        }
    }
}

/// Adds the parts of a condition, or some of them where memory is refused.
fn push_condition<'a>(parts: &mut Parts<'a>, condition: &'a Condition) -> Result<(), AllocError>
    ensures { OnOk result (AddsParts parts.old parts.new condition.now) }
{
    match condition {
        Condition::Literal(literal) => {
            parts.atoms.push(&literal.atom)?;
            Ok(())
        }
        Condition::Equality(equality) => {
            parts.sides.push(&equality.left)?;
            parts.sides.push(&equality.right)?;
            Ok(())
        }
        Condition::Forall(groups, body) => {
            for group in groups.as_slice() {
                parts.groups.push(group)?;
            }
            for part in body.as_slice() {
                push_condition(parts, part)?;
            }
            Ok(())
        }
    }
}

/// Adds the parts of conditions, or some of them where memory is refused.
pub(crate) fn push_conditions<'a>(
    parts: &mut Parts<'a>,
    conditions: &'a [Condition],
) -> Result<(), AllocError>
    ensures { OnOk result (AddsConditions parts.old parts.new conditions.now) }
{
    for condition in conditions {
        push_condition(parts, condition)?;
    }
    Ok(())
}

/// The parts of conditions.
pub(crate) fn parts_of<'a>(
    alloc: Global,
    conditions: &'a [Condition],
) -> Result<Parts<'a>, AllocError>
    ensures { IfOk result (λ parts. HasParts parts conditions.now) }
{
    let mut parts = Parts::new(alloc);
    push_conditions(&mut parts, conditions)?;
    Ok(parts)
}
