//! The caption of a picture.

/// The plan's domain and problem, and the verdict on it.
#[derive(Clone, Copy, Debug)]
pub struct Caption<'a> {
    /// The domain's name.
    pub domain: &'a str,
    /// The problem's name.
    pub problem: &'a str,
    /// The verdict, as `invalid: NotExecutable 1`.
    pub verdict: &'a str,
    /// The line that the verdict names, if it names one.
    pub mark: Option<Mark<'a>>,
}

/// A line with the word for its fault.
#[derive(Clone, Copy, Debug)]
pub struct Mark<'a> {
    /// The line's id.
    pub id: u64,
    /// The word for the line's fault, as `NotExecutable`.
    pub cause: &'a str,
}
