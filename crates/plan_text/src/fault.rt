//! Why a plan text is refused.

use std::alloc::{AllocError, AllocFailed};
use thiserror::Error;

/// The faults of plan texts. Places are bytes from the text's beginning, counted from 0.
#[derive(Clone, Copy, Debug, Error, PartialEq, Eq)]
pub enum PlanFault {
    /// No line is the start marker `==>`.
    #[error("NoStart")]
    NoStart,
    /// No line after the start marker is the end marker `<==`.
    #[error("NoEnd")]
    NoEnd,
    /// The line that begins at the place is of no kind.
    #[error("BadLine at {0}")]
    BadLine(usize),
    /// The line that begins at the place names the roots a second time.
    #[error("TwoRoots at {0}")]
    TwoRoots(usize),
    /// No line between the markers names the roots.
    #[error("NoRoot")]
    NoRoot,
    /// The id, root or child at the place is above 18,446,744,073,709,551,615.
    #[error("NumberTooLarge at {0}")]
    NumberTooLarge(usize),
    /// The byte at the place, between the markers, is neither a blank nor printable.
    #[error("NotAscii at {0}")]
    NotAscii(usize),
    /// The text has more bytes than the place, which is the limit.
    #[error("TooLong at {0}")]
    TooLong(usize),
    /// An allocation was refused.
    #[error("OutOfMemory")]
    OutOfMemory,
}

impl From<AllocError> for PlanFault {
    ghost use Rattle.std.specs.Prelude.{◌≡◌};
    ghost use Rattle.plan_text.specs.declared.fault.PlanFault.TheVariants.{OutOfMemory};

    ghost from_gives = { λ _ e. e ≡ OutOfMemory };

    fn from(_error: AllocError) -> PlanFault {
        PlanFault::OutOfMemory
    }
}

impl<T: Drop> From<AllocFailed<T>> for PlanFault {
    ghost use Rattle.std.specs.Prelude.{◌≡◌};
    ghost use Rattle.plan_text.specs.declared.fault.PlanFault.TheVariants.{OutOfMemory};

    ghost from_gives = { λ _ e. e ≡ OutOfMemory };

    fn from(_error: AllocFailed<T>) -> PlanFault {
        PlanFault::OutOfMemory
    }
}
