//! What plans may use, counted.

/// How much a plan may use, and whether there is none.
#[derive(Clone, Copy, Debug, PartialEq, Eq)]
pub struct Reached {
    pub actions: usize,
    /// Instances of methods.
    pub methods: usize,
    pub facts: usize,
    pub no_plan: bool,
}
