//! The program `htnplan`.
#![tactic(auto)]

use htn_run::{Disk, ProcessFault, Sink, flush, run_words, wants_colour, words_of};
use std::io::{BufWriter, IsTerminal};
use std::process::ExitCode;

fn main(rt: HostRuntime) -> ExitCode {
    let alloc = rt.alloc();
    let mut err = Sink::new(rt.stderr());
    let words = match words_of(alloc, &rt) {
        Ok(words) => words,
        Err(fault) => return ExitCode::from(fault.tell(&mut err)),
    };
    let stdout = rt.stdout();
    let is_coloured = stdout.is_terminal() && wants_colour(alloc, &rt);
    let Ok(writer) = BufWriter::new(alloc, stdout) else {
        return ExitCode::from(ProcessFault::OutOfMemory.tell(&mut err));
    };
    let mut files = Disk { files: &rt };
    let mut out = if is_coloured {
        Sink::coloured(writer)
    } else {
        Sink::new(writer)
    };
    let status = run_words(&rt, alloc, words.as_slice(), &mut files, &mut out, &mut err);
    ExitCode::from(flush(status, out, &mut err))
}
