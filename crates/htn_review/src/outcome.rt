//! How a run ends.

use hddl_meaning::CheckFault;
use hddl_text::TextFault;
use htn_plan::{PlanFault, WriteFault};
use std::alloc::AllocError;
use thiserror::Error;
use word_machine::SearchFault;

/// The outcome of a run.
#[derive(Debug, Clone, Copy, PartialEq, Eq)]
pub enum Outcome {
    /// A plan.
    Found,
    /// No plan within the bound.
    NoPlan,
    /// No plan of any size.
    Unsolvable,
}

/// The outcome of a watched run.
#[derive(Debug, Clone, Copy, PartialEq, Eq)]
pub enum Watched {
    /// The answer.
    Known(Outcome),
    /// The watch stopped the search: no plan has at most this number of nodes, if there is one.
    Unknown { none_within: Option<u64> },
}

/// Why a run has no answer.
#[derive(Debug, Clone, Copy, PartialEq, Eq, Error)]
pub enum RunFault {
    /// The domain's text is refused.
    #[error("domain: {0}")]
    Domain(TextFault),
    /// The problem's text is refused.
    #[error("problem: {0}")]
    Problem(TextFault),
    /// The domain and the problem don't fit together.
    #[error("{0}")]
    Check(CheckFault),
    /// The plan's text is refused.
    #[error("plan: {0}")]
    Plan(PlanFault),
    /// Memory was refused.
    #[error("OutOfMemory")]
    OutOfMemory,
    /// The start of a thread was refused.
    #[error("NoThread")]
    NoThread,
    /// The output failed.
    #[error("output: cannot be written")]
    Output,
}

impl From<AllocError> for RunFault {
    ghost use Rattle.std.specs.Prelude.{◌≡◌};
    ghost use Rattle.htn_review.specs.declared.outcome.RunFault.TheVariants.{OutOfMemory};

    ghost from_gives = { λ _ e. e ≡ OutOfMemory };

    fn from(_error: AllocError) -> RunFault {
        RunFault::OutOfMemory
    }
}

impl From<WriteFault> for RunFault {
    ghost use Rattle.std.specs.Prelude.{◌≡◌};
    ghost use Rattle.htn_review.specs.declared.outcome.RunFault.TheVariants.{Output};

    ghost from_gives = { λ _ e. e ≡ Output };

    fn from(_error: WriteFault) -> RunFault {
        RunFault::Output
    }
}

impl From<SearchFault> for RunFault {
    ghost use Rattle.std.specs.Prelude.{◌≡◌};
    ghost use Rattle.htn_review.specs.Faults.{of_search};

    ghost from_gives = { λ fault e. e ≡ of_search fault };

    fn from(fault: SearchFault) -> RunFault {
        match fault {
            SearchFault::OutOfMemory => RunFault::OutOfMemory,
            SearchFault::NoThread => RunFault::NoThread,
        }
    }
}
