//! The answers to requests.

use check_report::Finding;
use htn_plan::{Out, Verdict, WriteFault, put_all};
use htn_review::{Drawn, Explained, Outcome, Watched, write_verdict};

/// The answer to a request.
#[derive(Debug, Drop)]
pub(crate) enum Reply {
    /// The result of the search for a plan.
    Planned(Watched),
    /// The verdict on a plan.
    Verified(Verdict),
    /// The result of the check of texts.
    Checked(Finding),
    /// The result of the explanation of a plan.
    Explained(Explained),
    /// The result of drawing the tree of a plan.
    Drawn(Drawn),
}

impl Reply {
    ghost use Rattle.std.specs.Prelude.{◌≡◌};
    ghost use Rattle.htn_run.specs.Lines.{GetsLine};
    ghost use Rattle.htn_run.specs.Requests.{AddsBeside, status_of};

    /// Writes on the standard error why a tree has no picture, and returns the status of the program. A write that
    /// fails there changes nothing. For any other answer nothing is written.
    pub(crate) fn conclude<E: Out>(&self, err: &mut E) -> u8
        ensures status { result ≡ status_of self.now }
        ensures beside { AddsBeside self.now (GetsLine (E.contents err.old) (E.contents err.new) (E.has_failed err.new)) (err.new ≡ err.old) }
    {
        self.write_beside(err);
        self.status()
    }

    fn write_beside<E: Out>(&self, err: &mut E)
        ensures { AddsBeside self.now (GetsLine (E.contents err.old) (E.contents err.new) (E.has_failed err.new)) (err.new ≡ err.old) }
    {
        match self {
            Reply::Drawn(Drawn::Judged(Verdict::Structure)) => {
                let _refused: Result<(), WriteFault> = write_verdict(Verdict::Structure, err);
            }
            Reply::Drawn(Drawn::Refused(report)) => {
                let _refused: Result<(), WriteFault> = put_all(err, report.as_slice());
            }
            _ => {}
        }
    }

    /// The status of the program: 0 for a plan, for `valid` and for texts that are sound, 3 for texts with an error, 6
    /// where the answer is unknown, and 1 for any other. That of an explanation or of a picture is the status of its
    /// verdict.
    pub(crate) fn status(&self) -> u8
        ensures { result ≡ status_of self.now }
    {
        match self {
            Reply::Planned(Watched::Known(Outcome::Found))
            | Reply::Verified(Verdict::Valid)
            | Reply::Checked(Finding::Sound)
            | Reply::Explained(Explained::Judged(Verdict::Valid))
            | Reply::Drawn(Drawn::Judged(Verdict::Valid)) => 0,
            Reply::Checked(Finding::Faulty)
            | Reply::Explained(Explained::Refused)
            | Reply::Drawn(Drawn::Refused(_)) => 3,
            Reply::Planned(Watched::Unknown { .. }) => 6,
            _ => 1,
        }
    }
}
