//! Command lines whose outputs have little room, and the files that they ask for.

use crate::runs::number_of;
use crate::words_of;
use htn_run::{Disk, ReadFault, Sink, Source, run_words};
use std::alloc::Global;
use std::io::{ErrorKind, Write};
use std::rt::Files;
use std::sync::Wait;
use std::thread::Threads;
use std::time::Clock;
use std::{fs, io};

/// A writer that takes at most `step` bytes at a time, and `room` in all.
#[derive(Drop)]
pub struct Narrow {
    pub taken: Vec<u8>,
    pub step: usize,
    pub room: usize,
}

impl Write for Narrow {
    fn write(&mut self, bytes: &[u8]) -> io::Result<usize> {
        let count = bytes.len().min(self.step).min(self.room);
        self.taken.extend_from_slice(&bytes[..count])?;
        self.room -= count;
        Ok(count)
    }

    fn flush(&mut self) -> io::Result<()> {
        Ok(())
    }
}

// The files of the system, where `full` is refused memory, and the standard input can't be read. Each name that is
// asked for is noted.
#[derive(Drop)]
struct Noted<'a, F: Files> {
    files: Disk<'a, F>,
    asked: String,
}

impl<'a, F: Files> Source for Noted<'a, F> {
    ghost use Rattle.std.specs.Prelude.{None};
    ghost use Rattle.htn_run.specs.Files.{Untold};

    ghost files = { λ _ _. Untold };

    ghost reads = { λ _. None };

    fn read(&mut self, alloc: Global, name: &str) -> Result<Vec<u8>, ReadFault> {
        if self.asked.push(' ').is_err() || self.asked.push_str(name).is_err() {
            return Err(ReadFault::OutOfMemory);
        }
        match name {
            "full" => Err(ReadFault::OutOfMemory),
            "/dev/stdin" => Err(ReadFault::Unreadable),
            _ => self.files.read(alloc, name),
        }
    }
}

// Prints the names of the files that were asked for, the standard output, the standard error and the status.
fn print_end<R: Print>(rt: &R, asked: &str, out: &[u8], err: &[u8], status: u8) -> io::Result<()> {
    let out = str::from_utf8(out).unwrap_or("no text");
    let err = str::from_utf8(err).unwrap_or("no text");
    println!(rt; "asked for:{asked}|{out}|{err}|{status}")
}

// Runs a command line whose outputs take `room` and `room_of_errors` bytes.
fn print_line<R: Threads + Wait + Clock + Sync + Files + Print>(
    rt: &R,
    alloc: Global,
    line: &str,
    room: usize,
    room_of_errors: usize,
) -> io::Result<()> {
    let words = words_of(alloc, line)?;
    let mut files = Noted {
        files: Disk { files: rt },
        asked: String::new(alloc),
    };
    let mut out = Sink::new(Narrow {
        taken: Vec::new(alloc),
        step: 1_000,
        room,
    });
    let mut err = Sink::new(Narrow {
        taken: Vec::new(alloc),
        step: 1_000,
        room: room_of_errors,
    });
    let status = run_words(rt, alloc, words.as_slice(), &mut files, &mut out, &mut err);
    let printed = out.into_inner().taken;
    let errors = err.into_inner().taken;
    print_end(
        rt,
        files.asked.as_str(),
        printed.as_slice(),
        errors.as_slice(),
        status,
    )
}

// The bytes that the standard output of a row takes, those that its standard error takes, and its words.
fn rooms_of(row: &str) -> Option<(u64, u64, &str)> {
    let (room, rest) = number_of(row)?;
    let (room_of_errors, words) = number_of(rest)?;
    Some((room, room_of_errors, words))
}

// Runs each row.
fn print_rows<R: Threads + Wait + Clock + Sync + Files + Print>(
    rt: &R,
    alloc: Global,
    rows: &str,
) -> io::Result<()> {
    for row in rows.lines() {
        println!(rt; "> {row}")?;
        let Some((room, room_of_errors, words)) = rooms_of(row) else {
            return Err(io::Error::from(ErrorKind::InvalidInput));
        };
        print_line(rt, alloc, words, room as usize, room_of_errors as usize)?;
    }
    Ok(())
}

/// Runs the command lines of `outputs.txt`.
pub fn print_outputs<R: Threads + Wait + Clock + Sync + Files + Print + AllocGlobal>(
    rt: &R,
) -> io::Result<()> {
    let rows = fs::read_to_string(rt, "outputs.txt")?;
    print_rows(rt, rt.alloc(), rows.as_str())
}
