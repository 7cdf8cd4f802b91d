//! The parts of a process around its run.

use htn_run::{ProcessFault, Sink, flush, words_of};
use std::alloc::Global;
use std::env::{Env, FillError};
use std::io;
use std::io::{ErrorKind, Write};

// The program's name, and one word in bytes.
#[derive(Drop)]
struct Arguments<'a> {
    word: &'a [u8],
}

impl<'a> Env for Arguments<'a> {
    fn arg(&self, i: usize, buf: &mut [u8]) -> Result<usize, FillError> {
        let word = match i {
            0 => b"htnplan".as_slice(),
            1 => self.word,
            _ => return Err(FillError::NotPresent),
        };
        if buf.len() < word.len() {
            return Err(FillError::TooLong);
        }
        buf[..word.len()].copy_from_slice(word);
        Ok(word.len())
    }

    fn var(&self, _name: &str, _buf: &mut [u8]) -> Result<usize, FillError> {
        Err(FillError::NotPresent)
    }

    fn var_at(&self, _i: usize, _buf: &mut [u8]) -> Result<usize, FillError> {
        Err(FillError::NotPresent)
    }
}

fn print_words<R: Print>(rt: &R, alloc: Global, word: &[u8]) -> io::Result<()> {
    match words_of(alloc, &Arguments { word }) {
        Ok(words) => println!(rt; "words: {words:?}"),
        Err(fault) => println!(rt; "{fault}"),
    }
}

// Its line on an output, the same by its `Display`, and the status.
fn print_fault<R: Print>(rt: &R, fault: ProcessFault) -> io::Result<()> {
    let status = fault.tell(&mut Sink::new(io::writer(rt)));
    println!(rt; "{fault}")?;
    println!(rt; "status {status}")
}

// Takes what is written, and can't be flushed.
#[derive(Drop)]
struct Stuck;

impl Write for Stuck {
    fn write(&mut self, bytes: &[u8]) -> io::Result<usize> {
        Ok(bytes.len())
    }

    fn flush(&mut self) -> io::Result<()> {
        Err(io::Error::from(ErrorKind::StorageFull))
    }
}

// What is said of an answer that is not flushed, and the status before and after.
fn print_flush<R: Print>(rt: &R, status: u8) -> io::Result<()> {
    let found = flush(status, Sink::new(Stuck), &mut Sink::new(io::writer(rt)));
    println!(rt; "status {status}, not flushed: {found}")
}

/// Prints the words of a process, its faults, and its status after a flush.
pub fn print_parts<R: Print>(rt: &R, alloc: Global) -> io::Result<()> {
    print_words(rt, alloc, "é".as_bytes())?;
    print_words(rt, alloc, b"\xff".as_slice())?;
    print_fault(rt, ProcessFault::NotText)?;
    print_fault(rt, ProcessFault::OutOfMemory)?;
    print_fault(rt, ProcessFault::Output)?;
    for status in [0, 1, 2, 3, 5, 6] {
        print_flush(rt, status)?;
    }
    let mut err = Sink::new(io::writer(rt));
    let found = flush(0, Sink::new(Vec::new(alloc)), &mut err);
    println!(rt; "status 0, flushed: {found}")
}
