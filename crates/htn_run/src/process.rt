//! The parts of a process around its run: the words before it, and the flush of its output after it.
ghost use Rattle.std.specs.Prelude.{◌≡◌, ◌≢◌, ◌⊎◌, IfErr, codes};
ghost use Rattle.htn_run.specs.Lines.{GetsLine};

use htn_plan::{Out, Sink, WriteFault, put_all};
use std::alloc::{AllocError, Global};
use std::env;
use std::env::{Env, VarError};
use std::io::{ErrorKind, Write};
use thiserror::Error;

/// Why a process runs nothing, or doesn't end as its run did.
#[derive(Debug, Clone, Copy, PartialEq, Eq, Error)]
pub enum ProcessFault {
    /// An argument is not UTF-8.
    #[error("error: an argument is not UTF-8")]
    NotText,
    /// Memory was refused before the run.
    #[error("OutOfMemory")]
    OutOfMemory,
    /// An answer can't be flushed.
    #[error("output: cannot be written")]
    Output,
}

impl From<AllocError> for ProcessFault {
    ghost use Rattle.std.specs.Prelude.{◌≡◌};
    ghost use Rattle.htn_run.specs.declared.process.ProcessFault.TheVariants.{OutOfMemory};

    ghost from_gives = { λ _ e. e ≡ OutOfMemory };

    fn from(_error: AllocError) -> ProcessFault {
        ProcessFault::OutOfMemory
    }
}

impl ProcessFault {
    ghost use Rattle.std.specs.Prelude.{◌≡◌};
    ghost use Rattle.plan_text.specs.Out.{Writes};
    ghost use Rattle.htn_run.specs.Lines.{GetsLine};
    ghost use Rattle.htn_run.specs.Process.{line_of, status_of};

    /// Writes the line on the standard error, and returns the status: 2 for words that are no text, 4 for refused
    /// memory, and 5 for the output. A write that fails there changes nothing.
    pub fn tell<E: Out>(&self, err: &mut E) -> u8
        ensures status { result ≡ status_of self.now }
        ensures line { GetsLine (E.contents err.old) (E.contents err.new) (E.has_failed err.new) (line_of self.now) }
    {
        let _refused: Result<(), WriteFault> = self.write_line(err);
        match self {
            ProcessFault::NotText => 2,
            ProcessFault::OutOfMemory => 4,
            ProcessFault::Output => 5,
        }
    }

    fn write_line<O: Out>(&self, out: &mut O) -> Result<(), WriteFault>
        ensures { Writes (O.contents out.old) (O.contents out.new) (O.has_failed out.old) (O.has_failed out.new) result (line_of self.now) }
    {
        match self {
            ProcessFault::NotText => put_all(out, b"error: an argument is not UTF-8\n"),
            ProcessFault::OutOfMemory => put_all(out, b"OutOfMemory\n"),
            ProcessFault::Output => put_all(out, b"output: cannot be written\n"),
        }
    }
}

/// The words of a process, of which the first is the program's name: `NotText` where one is not UTF-8, and
/// `OutOfMemory`.
pub fn words_of<V: Env>(alloc: Global, env: &V) -> Result<Vec<String>, ProcessFault>
    ensures { IfErr result (λ fault. fault ≢ ProcessFault.Output) }
{
    match env::args(&(env, alloc)) {
        Ok(words) => Ok(words.collect(alloc)?),
        Err(error) if error.kind() == ErrorKind::InvalidData => Err(ProcessFault::NotText),
        Err(_) => Err(ProcessFault::OutOfMemory),
    }
}

/// Whether the environment lets a terminal have colours: `NO_COLOR` isn't set, or to nothing, and `TERM` isn't `dumb`. No
/// where memory is refused.
pub fn wants_colour<V: Env>(alloc: Global, env: &V) -> bool {
    let is_unwanted = match env::var(&(env, alloc), "NO_COLOR") {
        Ok(value) => !value.is_empty(),
        Err(fault) => !matches!(fault, VarError::NotPresent),
    };
    if is_unwanted {
        return false;
    }
    match env::var(&(env, alloc), "TERM") {
        Ok(name) => name.as_str() != "dumb",
        Err(fault) => matches!(fault, VarError::NotPresent),
    }
}

/// Flushes the output after a run with this status, and answers the status of the program. An answer, a report or
/// `unknown` that can't be flushed is status 5, with the line on the standard error. A run that wrote none of these, with
/// status 2, 4 or 5, keeps its status, and nothing more is written.
pub fn flush<W: Write + Drop, E: Out>(status: u8, out: Sink<W>, err: &mut E) -> u8
    ensures kept { result ≡ status ⊎ (result ≡ 5) }
    ensures told { (status ≡ 2) ⊎ (status ≡ 4) ⊎ (status ≡ 5) → result ≡ status }
    ensures quiet { result ≡ status → err.new ≡ err.old }
    ensures line { result ≢ status → GetsLine (E.contents err.old) (E.contents err.new) (E.has_failed err.new) (codes "output: cannot be written\n") }
{
    let mut writer = out.into_inner();
    let is_refused = matches!(status, 2 | 4 | 5);
    if writer.flush().is_err() && !is_refused {
        return ProcessFault::Output.tell(err);
    }
    status
}
