//! Outputs whose contracts say which bytes they took.

use std::io::Write;

/// An output that takes bytes, and that may fail.
pub trait Out {
    ghost use Rattle.std.specs.Prelude.{◌≡◌, ◌≤◌, ◌<◌, ℕ, Bool, true, false, List, Option, length, take, IfSome, IfNone};
    ghost use Rattle.std.specs.Io.KnownBytes.{Keeps, Appends};

    /// The bytes that it took so far, or None where the output's contract does not say.
    ghost contents: { Self → Option (List ℕ) };

    /// Whether it has failed. It then takes no more bytes.
    ghost has_failed: { Self → Bool };

    /// Takes the first n of the bytes, at least one, and answers n. Or takes none and answers None, and has failed from
    /// then on.
    fn put(&mut self, bytes: &[u8]) -> Option<usize>
        requires { 0 < length bytes.now }
        ensures count { IfSome result (λ n. (1 ≤ n) × (n ≤ length bytes.now)) }
        ensures taken { IfSome result (λ n. Appends (contents self.old) (contents self.new) (take n bytes.now)) }
        ensures worked { IfSome result (λ n. has_failed self.old ≡ false) }
        ensures works { IfSome result (λ n. has_failed self.new ≡ has_failed self.old) }
        ensures kept { IfNone result (Keeps (contents self.old) (contents self.new)) }
        ensures failed { IfNone result (has_failed self.new ≡ true) };

    /// Whether what it takes may have colours: no, unless an output says so itself.
    fn takes_colour(&self) -> bool {
        false
    }
}

/// An output over a writer of std. It fails where a write answers an error or takes no byte.
#[derive(Drop)]
pub struct Sink<W> {
    writer: W,
    failed: bool,
    is_coloured: bool,
}

impl<W> Sink<W> {
    ghost use Rattle.std.specs.Prelude.{◌≡◌, false};
    ghost use Rattle.plan_text.specs.Sink.{sink_writer, sink_failed};

    pub fn new(writer: W) -> Sink<W>
        ensures writer { sink_writer result ≡ writer }
        ensures works { sink_failed result ≡ false }
    {
        Sink {
            writer,
            failed: false,
            is_coloured: false,
        }
    }

    /// An output over a writer to a terminal, which takes colours.
    pub fn coloured(writer: W) -> Sink<W>
        ensures writer { sink_writer result ≡ writer }
        ensures works { sink_failed result ≡ false }
    {
        Sink {
            writer,
            failed: false,
            is_coloured: true,
        }
    }

    /// Whether a write has failed.
    pub fn has_failed(&self) -> bool
        ensures { result ≡ sink_failed self.now }
    {
        self.failed
    }

    /// The writer, with all that was written to it.
    pub fn into_inner(self) -> W
        ensures { result ≡ sink_writer self }
    {
        self.writer
    }
}

impl<W: Write> Out for Sink<W> {
    ghost use Rattle.plan_text.specs.Sink.{sink_writer, sink_failed};

    ghost contents = { λ s. W.contents (sink_writer s) };

    ghost has_failed = { sink_failed };

    fn put(&mut self, bytes: &[u8]) -> Option<usize> {
        if self.failed {
            return None;
        }
        match self.writer.write(bytes) {
            Ok(0) | Err(_) => {
                self.failed = true;
                None
            }
            Ok(count) => Some(count),
        }
    }

    fn takes_colour(&self) -> bool {
        self.is_coloured
    }
}
