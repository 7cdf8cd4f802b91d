//! What a search answers, and why it may not.

ghost use Rattle.std.specs.Prelude.{◌≡◌, None};
ghost use Rattle.word_machine.specs.Answer.{ending_of, found_of};
ghost use Rattle.word_machine.specs.declared.found.Outcome.TheVariants.{Past};

use crate::fault::LevelFault;
use std::alloc::AllocError;
use std::convert::From;
use thiserror::Error;

/// The answer of a search within a bound on the steps.
#[derive(Debug, Drop)]
pub enum Found {
    /// The finishing word that is shortest and then least.
    Word(Vec<u64>),
    /// No word finishes within the bound.
    None,
    /// No word finishes at all.
    Unsolvable,
}

/// How a watched search ended.
#[derive(Debug, Drop)]
pub enum Ending {
    /// It has an answer.
    Answer(Found),
    /// It was given up. No word finishes in fewer steps than these.
    GivenUp { none_below: u64 },
    /// Its watch stopped it. No word finishes in fewer steps than these.
    Stopped { none_below: u64 },
}

/// How a search within a bound ended, by some measure of the steps that are left.
#[derive(Drop)]
pub enum Outcome {
    /// The finishing word that is shortest and then least.
    Finished(Vec<u64>),
    /// No word finishes within the bound, nor in fewer steps than `least`; some configuration past the bound was
    /// pruned. `wide` is for speed alone: the bound that admits as many of the pruned configurations as this search
    /// had; None where fewer were near the bound.
    Past { least: u64, wide: Option<u64> },
    /// No word finishes, and nothing was pruned.
    Exhausted,
    /// The search was given up.
    GivenUp,
    /// The watch stopped it.
    Stopped,
}

impl Outcome {
    /// No word finishes in fewer steps than these, and some configuration was pruned.
    pub fn past(steps: u64) -> Outcome
        ensures { result ≡ Past steps None }
    {
        Outcome::Past {
            least: steps,
            wide: None,
        }
    }

    /// The answer, where the measure is the number of open nodes; None if the search was given up or stopped.
    pub fn found(self) -> Option<Found>
        ensures { result ≡ found_of self }
    {
        match self {
            Outcome::Finished(word) => Some(Found::Word(word)),
            Outcome::Past { .. } => Some(Found::None),
            Outcome::Exhausted => Some(Found::Unsolvable),
            Outcome::GivenUp | Outcome::Stopped => None,
        }
    }

    /// The ending of a search by the open nodes, where no word finishes in fewer steps than `none_below`.
    pub fn ending(self, none_below: u64) -> Ending
        ensures { result ≡ ending_of none_below self }
    {
        match self {
            Outcome::Finished(word) => Ending::Answer(Found::Word(word)),
            Outcome::Past { .. } => Ending::Answer(Found::None),
            Outcome::Exhausted => Ending::Answer(Found::Unsolvable),
            Outcome::GivenUp => Ending::GivenUp { none_below },
            Outcome::Stopped => Ending::Stopped { none_below },
        }
    }
}

/// Why a search has no answer. The same call can be made again.
#[derive(Clone, Copy, PartialEq, Eq, Debug, Error)]
pub enum SearchFault {
    /// Memory was refused.
    #[error("OutOfMemory")]
    OutOfMemory,
    /// The start of a thread was refused, and no memory was.
    #[error("NoThread")]
    NoThread,
}

impl From<AllocError> for SearchFault {
    ghost use Rattle.std.specs.Prelude.{◌≡◌};
    ghost use Rattle.word_machine.specs.declared.found.SearchFault.TheVariants.{OutOfMemory};

    ghost from_gives = { λ _ e. e ≡ OutOfMemory };

    fn from(_error: AllocError) -> SearchFault {
        SearchFault::OutOfMemory
    }
}

impl From<LevelFault> for SearchFault {
    ghost use Rattle.std.specs.Prelude.{◌≡◌};
    ghost use Rattle.word_machine.specs.Fault.{fault_of};

    ghost from_gives = { λ fault e. e ≡ fault_of fault };

    fn from(fault: LevelFault) -> SearchFault {
        match fault {
            LevelFault::OutOfMemory => SearchFault::OutOfMemory,
            LevelFault::NoThread => SearchFault::NoThread,
        }
    }
}
