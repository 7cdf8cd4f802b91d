//! How a report is written.

/// The form of a report.
#[derive(Clone, Copy, Debug, PartialEq, Eq)]
pub enum Format {
    /// For people.
    Text,
    /// The first line of each diagnostic, for editors.
    Short,
    /// One object of JSON, for tools.
    Json,
}
