//! Why an HDDL text is refused.

use std::alloc::{AllocError, AllocFailed};
use thiserror::Error;

/// Why an HDDL text is refused. Every place is a byte offset from 0.
#[derive(Debug, Clone, Copy, PartialEq, Eq, Error)]
pub enum TextFault {
    /// A byte outside comments that is neither a blank nor a printable ASCII character. Its place.
    #[error("NotAscii at {0}")]
    NotAscii(usize),
    /// A word of no kind, as `?`, `:`, `->` or `<=`. The place of its first byte.
    #[error("BadWord at {0}")]
    BadWord(usize),
    /// A bracket isn't closed. The place of the innermost bracket that is open at the end of the text.
    #[error("Unclosed at {0}")]
    Unclosed(usize),
    /// A closing bracket where none is open. Its place.
    #[error("ExtraClose at {0}")]
    ExtraClose(usize),
    /// Brackets nest more than 64 deep. The place of the opening bracket that would be the 65th open one.
    #[error("TooDeep at {0}")]
    TooDeep(usize),
    /// A word that the grammar doesn't allow where it stands. Its place, or the text's length where the text has no
    /// word.
    #[error("Expected at {0}")]
    Expected(usize),
    /// A word that means what this profile of HDDL leaves out. Its place.
    #[error("Unsupported at {0}")]
    Unsupported(usize),
    /// The text has more than 16,777,216 bytes. That number.
    #[error("TooLong at {0}")]
    TooLong(usize),
    /// Memory was refused.
    #[error("OutOfMemory")]
    OutOfMemory,
}

impl From<AllocError> for TextFault {
    ghost use Rattle.std.specs.Prelude.{◌≡◌};
    ghost use Rattle.hddl_words.specs.declared.fault.TextFault.TheVariants.{OutOfMemory};

    ghost from_gives = { λ _ e. e ≡ OutOfMemory };

    fn from(_error: AllocError) -> TextFault {
        TextFault::OutOfMemory
    }
}

impl<T: Drop> From<AllocFailed<T>> for TextFault {
    ghost use Rattle.std.specs.Prelude.{◌≡◌};
    ghost use Rattle.hddl_words.specs.declared.fault.TextFault.TheVariants.{OutOfMemory};

    ghost from_gives = { λ _ e. e ≡ OutOfMemory };

    fn from(_error: AllocFailed<T>) -> TextFault {
        TextFault::OutOfMemory
    }
}
