//! Texts with the names of their files.

use diagnostics::{Lines, Role, Source};
use std::alloc::{AllocError, Global};

pub(crate) fn source_of<'a>(
    alloc: Global,
    role: Role,
    name: &'a str,
    text: &'a [u8],
) -> Result<Source<'a>, AllocError> {
    let lines = Lines::new(alloc, text)?;
    Ok(Source { role, name, lines })
}
