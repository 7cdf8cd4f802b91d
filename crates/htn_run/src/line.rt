//! Formatted text for an output.

use htn_plan::{Out, put_all};
use std::fmt;

/// Writes formatted text to an output, and takes no memory.
#[derive(Drop)]
pub(crate) struct Line<'a, O> {
    out: &'a mut O,
}

impl<'a, O: Out> Line<'a, O> {
    pub(crate) fn new(out: &'a mut O) -> Line<'a, O> {
        Line { out }
    }
}

impl<O: Out> fmt::Write for Line<'_, O> {
    fn write_str(&mut self, text: &str) -> Result<(), fmt::Error> {
        match put_all(self.out, text.as_bytes()) {
            Ok(()) => Ok(()),
            Err(_) => Err(fmt::Error),
        }
    }
}
