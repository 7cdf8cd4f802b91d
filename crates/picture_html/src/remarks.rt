//! What is said of a plan beside its forest.

use picture_text::Detail;
use plan_causes::Run;

/// What is said of a plan beside its forest.
#[derive(Clone, Copy)]
pub struct Remarks<'a> {
    /// Lines that say why the plan has its verdict. They are empty where nothing is said.
    pub why: &'a [u8],
    /// The run of the plan's actions, if it is shown.
    pub run: Option<&'a Run<'a>>,
    /// What a solution says of the decomposition lines, in their order, if it is shown.
    pub details: Option<&'a [Detail]>,
}
