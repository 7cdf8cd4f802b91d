//! The words of plan files.

ghost use Rattle.std.specs.Prelude.{◌≡◌, map, IfOk};
ghost use Rattle.std.specs.Char.{to_ascii_lowercase};

use smallvec::SmallVec;
use std::alloc::{AllocError, Global};
use std::marker::Model;

/// A name, an argument or a method of a plan file, as bytes.
#[derive(Debug)]
pub struct Word {
    /// Most words are short, and need no allocation.
    bytes: SmallVec<u8, 16>,
}

impl Drop for Word {
    fn drop(self) {
        let Word { bytes: _ } = self;
    }
}

impl Model for Word {
    ghost use Rattle.std.specs.Prelude.{List, ℕ};

    ghost Value = { List ℕ };

    ghost view = { λ w. w.bytes.items };
}

impl Word {
    /// A word of these bytes.
    pub fn from_bytes(alloc: Global, bytes: &[u8]) -> Result<Word, AllocError>
        ensures { IfOk result (λ word. word ≡ bytes.now) }
    {
        let bytes = SmallVec::from_slice(alloc, bytes)?;
        Ok(Word { bytes })
    }

    /// A word of these bytes, with the letters A to Z in lower case.
    pub fn folded(alloc: Global, bytes: &[u8]) -> Result<Word, AllocError>
        ensures { IfOk result (λ word. word ≡ map to_ascii_lowercase bytes.now) }
    {
        let mut folded = SmallVec::new(alloc);
        for byte in bytes {
            folded.push(byte.to_ascii_lowercase())?;
        }
        Ok(Word { bytes: folded })
    }

    pub fn as_bytes(&self) -> &[u8]
        ensures { result.now ≡ self.now }
    {
        self.bytes.as_slice()
    }
}
