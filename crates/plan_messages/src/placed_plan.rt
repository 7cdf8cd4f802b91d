//! A plan file with its text.

use diagnostics::Source;
use plan_text::{LinePlaces, PlanFile};

/// A plan file with its text.
#[derive(Clone, Copy, Drop)]
pub struct PlacedPlan<'a> {
    pub text: &'a Source<'a>,
    pub file: &'a PlanFile,
    /// Where the lines of the file begin.
    pub places: &'a LinePlaces,
}
