//! What texts are asked for, with the answers as they are printed.

use hddl_text::{read_domain, read_problem};
use htn_command::{Refusal, parse};
use plan_text::{PlanFile, Sink, read_plan, write_plan};
use std::alloc::{AllocError, Global};
use std::fmt::Display;
use std::process::Abort;

/// What reads a text.
#[derive(Clone, Copy)]
pub(crate) enum Reader {
    Domain,
    Problem,
    Plan,
}

/// The fault of a text, or `ok`. The answer for a plan without a fault is the text that is written of it.
fn read(alloc: Global, reader: Reader, text: &[u8]) -> Result<String, AllocError> {
    match reader {
        Reader::Domain => fault_line(alloc, read_domain(alloc, text).err()),
        Reader::Problem => fault_line(alloc, read_problem(alloc, text).err()),
        Reader::Plan => match read_plan(alloc, text) {
            Ok(file) => rewritten(alloc, &file),
            Err(fault) => fault.to_string(alloc),
        },
    }
}

/// What is printed of a fault, or `ok`.
fn fault_line<F: Display + Drop>(alloc: Global, fault: Option<F>) -> Result<String, AllocError> {
    match fault {
        Some(fault) => fault.to_string(alloc),
        None => String::from_str(alloc, "ok"),
    }
}

fn rewritten(alloc: Global, file: &PlanFile) -> Result<String, AllocError> {
    let mut sink = Sink::new(Vec::new(alloc));
    match write_plan(file, &mut sink) {
        Ok(()) => String::from_utf8_lossy(alloc, sink.into_inner().as_slice()),
        Err(fault) => fault.to_string(alloc),
    }
}

/// Expects an answer of a text that is one byte, this often.
pub(crate) fn expect_run<R: Abort>(
    rt: &R,
    alloc: Global,
    reader: Reader,
    run: (u8, usize),
    expected: &str,
) -> Result<(), AllocError> {
    let (byte, len) = run;
    let text = vec![in alloc; byte; len]?;
    let found = read(alloc, reader, text.as_slice())?;
    assert!(rt;
        found.as_str() == expected,
        "{len} bytes {byte}, found: {found}"
    );
    Ok(())
}

/// `request`, or the status of a command line that asks for none.
pub(crate) fn status_of(alloc: Global, line: &str) -> Result<String, AllocError> {
    let words = words_of(alloc, line)?;
    let status = match parse(alloc, words.as_slice()) {
        Ok(_) => "request",
        Err(Refusal::Help(_) | Refusal::Version(_)) => "0",
        Err(Refusal::Words(_)) => "2",
        Err(Refusal::OutOfMemory) => "OutOfMemory",
    };
    String::from_str(alloc, status)
}

/// The request of a command line, or the text that is shown for it.
pub(crate) fn shown(alloc: Global, line: &str) -> Result<String, AllocError> {
    let words = words_of(alloc, line)?;
    match parse(alloc, words.as_slice()) {
        Ok(request) => format!(in alloc; "{request:?}"),
        Err(Refusal::Help(text) | Refusal::Version(text) | Refusal::Words(text)) => {
            text.to_string(alloc)
        }
        Err(Refusal::OutOfMemory) => String::from_str(alloc, "OutOfMemory"),
    }
}

fn words_of(alloc: Global, line: &str) -> Result<Vec<String>, AllocError> {
    let mut words = Vec::new(alloc);
    for word in line.split(' ') {
        words.push(String::from_str(alloc, word)?)?;
    }
    Ok(words)
}
