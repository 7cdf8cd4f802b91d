//! Where the bytes of the files come from.

use std::alloc::Global;
use std::fs;
use std::io::{ErrorKind, Read};
use std::rt::Files;

/// How many bytes of a file are read at most: one more than a text may have.
pub const MAX_BYTES_READ: u64 = 16_777_217;

/// Why a file was not read.
#[derive(Debug, Clone, Copy, PartialEq, Eq)]
pub enum ReadFault {
    /// It can't be read.
    Unreadable,
    /// Memory was refused.
    OutOfMemory,
}

/// Files by their names.
pub trait Source {
    ghost use Rattle.std.specs.Prelude.{◌≡◌, ℕ, List, [], ◌∷◌, Option, IfOk, IfErr};
    ghost use Rattle.htn_run.specs.Files.{File, MayFail, MayGive, Notes};
    ghost use Rattle.htn_run.specs.declared.source.ReadFault.TheVariants.{Unreadable};

    /// What it has under each name, as far as the source's contract says.
    ghost files: { Self → List ℕ → File };

    /// The names that were read so far, in order, or None where the source's contract does not say.
    ghost reads: { Self → Option (List (List ℕ)) };

    /// The first 16,777,217 bytes of a file, or all if it has fewer. A read changes no file.
    fn read(&mut self, alloc: Global, name: &str) -> Result<Vec<u8>, ReadFault>
        ensures bytes { IfOk result (λ bytes. MayGive (files self.old name.now) bytes.items) }
        ensures unreadable { IfErr result (λ fault. fault ≡ Unreadable → MayFail (files self.old name.now)) }
        ensures kept { (other : List ℕ) → files self.new other ≡ files self.old other }
        ensures noted { Notes (reads self.old) (reads self.new) (name.now ∷ []) };
}

/// The files of the system. No contract can say what they hold, or which were read.
#[derive(Drop)]
pub struct Disk<'a, F: Files> {
    pub files: &'a F,
}

impl<'a, F: Files> Source for Disk<'a, F> {
    ghost use Rattle.std.specs.Prelude.{None};
    ghost use Rattle.htn_run.specs.Files.{Untold};

    ghost files = { λ _ _. Untold };

    ghost reads = { λ _. None };

    fn read(&mut self, alloc: Global, name: &str) -> Result<Vec<u8>, ReadFault> {
        let Ok(file) = fs::open(self.files, name) else {
            return Err(ReadFault::Unreadable);
        };
        let mut bytes = Vec::new(alloc);
        match file.take(MAX_BYTES_READ).read_to_end(&mut bytes) {
            Ok(_) => Ok(bytes),
            Err(error) if error.kind() == ErrorKind::OutOfMemory => Err(ReadFault::OutOfMemory),
            Err(_) => Err(ReadFault::Unreadable),
        }
    }
}
