//! Why a level could not be expanded.

use std::alloc::AllocError;
use std::convert::From;
use thiserror::Error;

/// Why a level could not be expanded. What was lent is as it was, and the same call can be made again.
#[derive(Clone, Copy, PartialEq, Eq, Debug, Error)]
pub enum LevelFault {
    /// Some growth of memory was refused.
    #[error("OutOfMemory")]
    OutOfMemory,
    /// The start of a thread was refused, and no growth. It never comes with one worker.
    #[error("NoThread")]
    NoThread,
}

impl From<AllocError> for LevelFault {
    ghost use Rattle.std.specs.Prelude.{◌≡◌};
    ghost use Rattle.word_machine.specs.declared.fault.LevelFault.TheVariants.{OutOfMemory};

    ghost from_gives = { λ _ e. e ≡ OutOfMemory };

    fn from(_error: AllocError) -> LevelFault {
        LevelFault::OutOfMemory
    }
}
