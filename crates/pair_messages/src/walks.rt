//! Ways from a type up through its parents.

use crate::index::{PairIndex, Type};
use crate::phrases::written_type;
use crate::variables::is_same;
use hddl_names::fold;
use hddl_words::Name;
use std::alloc::{AllocError, Global};

/// The most types of a way that are looked at, and the most parents of each.
const MOST_STEPS: usize = 64;

/// A type on a way: its name as it is written, and the step that led to it.
#[derive(Clone, Copy, Drop)]
struct Step<'a> {
    name: &'a [u8],
    from: Option<usize>,
}

/// Whether a type is among the steps.
fn has_step(steps: &[Step<'_>], name: &[u8]) -> bool {
    steps.iter().any(|step| is_same(step.name, name))
}

/// The type of a name.
fn type_named<'b, 'a>(
    alloc: Global,
    index: &'b PairIndex<'a>,
    name: &[u8],
) -> Result<Option<&'b Type<'a>>, AllocError> {
    let text = fold(alloc, name)?;
    Ok(index.typed.types.get(text.as_slice()))
}

/// Adds the parents of the type of a step that are new.
fn push_parents<'a>(
    alloc: Global,
    index: &PairIndex<'a>,
    steps: &mut Vec<Step<'a>>,
    from: usize,
    name: &[u8],
) -> Result<(), AllocError> {
    let Some(known) = type_named(alloc, index, name)? else {
        return Ok(());
    };
    for parent in known.parents.iter().take(MOST_STEPS) {
        let parent: &'a Option<Name> = parent;
        let above = written_type(parent);
        if !has_step(steps.as_slice(), above) {
            steps.push(Step {
                name: above,
                from: Some(from),
            })?;
        }
    }
    Ok(())
}

/// Whether a type is another one or below it. Only the first `MOST_STEPS` types from it upwards are visited; false
/// where the other one is not among these.
pub(crate) fn is_below<'a>(
    alloc: Global,
    index: &PairIndex<'a>,
    name: &'a [u8],
    other: &[u8],
) -> Result<bool, AllocError> {
    let mut steps = vec![in alloc; Step { name, from: None }]?;
    for at in 0..MOST_STEPS {
        let Some(step) = steps.get(at).copied() else {
            return Ok(false);
        };
        if is_same(step.name, other) {
            return Ok(true);
        }
        push_parents(alloc, index, &mut steps, at, step.name)?;
    }
    Ok(false)
}

/// Whether a type has a parent of a name.
fn has_parent(
    alloc: Global,
    index: &PairIndex<'_>,
    name: &[u8],
    parent: &[u8],
) -> Result<bool, AllocError> {
    let Some(known) = type_named(alloc, index, name)? else {
        return Ok(false);
    };
    for one in known.parents.iter().take(MOST_STEPS) {
        if is_same(written_type(one), parent) {
            return Ok(true);
        }
    }
    Ok(false)
}

/// The names of the steps that led to one, the last first.
fn way_to<'a>(alloc: Global, steps: &[Step<'a>], last: usize) -> Result<Vec<&'a [u8]>, AllocError> {
    let mut way = Vec::new(alloc);
    let mut at = Some(last);
    for _ in 0..steps.len() {
        let Some(step) = at.and_then(|number| steps.get(number)) else {
            break;
        };
        way.push(step.name)?;
        at = step.from;
    }
    Ok(way)
}

/// The types of a shortest cycle through a type, from its last one up to the type itself; none where the first 64 types
/// above it don't lead back.
pub(crate) fn cycle_through<'a>(
    alloc: Global,
    index: &PairIndex<'a>,
    name: &'a [u8],
) -> Result<Vec<&'a [u8]>, AllocError> {
    let mut steps = vec![in alloc; Step { name, from: None }]?;
    for at in 0..MOST_STEPS {
        let Some(step) = steps.get(at).copied() else {
            return Ok(Vec::new(alloc));
        };
        if has_parent(alloc, index, step.name, name)? {
            return way_to(alloc, steps.as_slice(), at);
        }
        push_parents(alloc, index, &mut steps, at, step.name)?;
    }
    Ok(Vec::new(alloc))
}
