//! Nearest names.

use diagnostics::nearest;
use std::alloc::AllocError;

#[test]
fn nearest_names(rt: HostRuntime) -> Result<(), AllocError> {
    let names: [&[u8]; 3] = [b"on-table", b"stable", b"NOTABLE"];
    let found = nearest(rt.alloc(), b"ontable", &names)?;
    assert!(rt; found.as_slice() == [0, 2].as_slice());
    Ok(())
}
