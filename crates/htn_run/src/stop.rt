//! How the run of a command line ends without an answer.

use crate::fault_line::write_fault;
use htn_plan::{Out, WriteFault, put_all};
use htn_review::RunFault;

/// One of the texts of a request.
#[derive(Debug, Clone, Copy)]
pub(crate) enum Text {
    Domain,
    Problem,
    Plan,
}

/// Why there is no answer.
#[derive(Debug, Clone, Copy)]
pub(crate) enum Stop {
    /// The file of this text can't be read.
    Unreadable(Text),
    /// The run has a fault.
    Run(RunFault),
}

impl From<RunFault> for Stop {
    ghost use Rattle.std.specs.Prelude.{◌≡◌};
    ghost use Rattle.htn_run.specs.declared.stop.Stop.TheVariants.{Run};

    ghost from_gives = { λ fault e. e ≡ Run fault };

    fn from(fault: RunFault) -> Stop {
        Stop::Run(fault)
    }
}

impl Stop {
    ghost use Rattle.std.specs.Prelude.{◌≡◌};
    ghost use Rattle.plan_text.specs.Out.{Writes};
    ghost use Rattle.htn_run.specs.Lines.{GetsLine, line_of, unread_line};
    ghost use Rattle.htn_run.specs.Stops.{status_of};

    /// Writes the line on the standard error, and answers the status. A write that fails there changes nothing.
    pub(crate) fn tell<E: Out>(&self, err: &mut E) -> u8
        ensures status { result ≡ status_of self.now }
        ensures line { GetsLine (E.contents err.old) (E.contents err.new) (E.has_failed err.new) (line_of self.now) }
    {
        let _refused: Result<(), WriteFault> = self.write_line(err);
        self.status()
    }

    fn write_line<O: Out>(&self, out: &mut O) -> Result<(), WriteFault>
        ensures { Writes (O.contents out.old) (O.contents out.new) (O.has_failed out.old) (O.has_failed out.new) result (line_of self.now) }
    {
        match self {
            Stop::Unreadable(Text::Domain) => put_all(out, b"domain: cannot be read\n"),
            Stop::Unreadable(Text::Problem) => put_all(out, b"problem: cannot be read\n"),
            Stop::Unreadable(Text::Plan) => put_all(out, b"plan: cannot be read\n"),
            Stop::Run(fault) => write_fault(out, *fault),
        }
    }

    fn status(&self) -> u8
        ensures { result ≡ status_of self.now }
    {
        match self {
            Stop::Unreadable(_) | Stop::Run(RunFault::Output) => 5,
            Stop::Run(RunFault::OutOfMemory | RunFault::NoThread) => 4,
            Stop::Run(_) => 3,
        }
    }
}
