//! Why a plan is refused: numbers with which its lines are no forest; which literals are false when its run fails,
//! since when, and which action makes them true; and these findings as data.
#![tactic(auto)]

mod cause;
mod counts;
mod laws;
mod literals;
mod reason;
mod run;
mod setter;
mod standing;
mod structure;

pub use cause::{RunCause, run_cause};
pub use counts::Counts;
pub use laws::wrong_ids_are_found;
pub use literals::{FalseLiteral, Sign};
pub use reason::{Cause, FailedAction};
pub use run::{Change, Fact, Run};
pub use setter::next_setter;
pub use standing::Standing;
pub use structure::{WrongIds, wrong_ids};
