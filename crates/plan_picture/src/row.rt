//! Rows of a picture.

ghost use Rattle.std.specs.Prelude.{◌≡◌, IfOk};
ghost use Rattle.plan_picture.specs.Rows as spec;

use std::alloc::AllocError;

/// The most bars of a row.
pub const MAX_BARS: usize = 40;

/// A line of a plan file in its place.
#[derive(Debug, Drop)]
pub struct Row {
    /// The line's number: its place among the action lines and then the decomposition lines.
    pub line: usize,
    /// The number of the line that it is a child of.
    pub parent: Option<usize>,
    /// How many lines it is below.
    pub depth: usize,
    /// Of the lines that it is below, from the top, whether each is the last of its siblings; at most `MAX_BARS`.
    pub above: Vec<bool>,
    /// Whether it is the last of its siblings.
    pub is_last: bool,
}

/// For the lines above the children of a row, whether each is the last of its siblings.
pub(crate) fn bars_below(row: &Row) -> Result<Vec<bool>, AllocError>
    ensures { IfOk result (λ bars. bars.items ≡ spec.with_bar row.now.above.items row.now.is_last) }
{
    let mut bars = row.above.clone()?;
    if bars.len() < MAX_BARS {
        bars.push(row.is_last)?;
    }
    Ok(bars)
}
