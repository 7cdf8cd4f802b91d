//! Lines and columns.

/// A line and a column, both counted from 1.
#[derive(Clone, Copy, Debug, PartialEq, Eq)]
pub struct Position {
    pub line: usize,
    /// One more than the bytes of the line that stand before.
    pub column: usize,
}
