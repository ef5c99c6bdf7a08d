//! Sinks: where the bytes of a terminal go.
ghost use Rattle.std.specs.Io.{WritesAtMost};
ghost use Rattle.std.specs.Io.KnownBytes.{Keeps, WriteAppends};
ghost use Rattle.std.specs.Prelude.{◌≡◌, ◌<◌, ℕ, List, Option, None, length, OnOk, is_err};
ghost use Rattle.teco_io.specs.Sink.{Counts, takes_nothing};

use std::io::{self, Write};

/// What takes bytes, and shows them by a flush.
///
/// Each writer is a sink. It tells neither what it has flushed nor when it failed, so its two calls are a line each, which no
/// contract covers. What is proved of a terminal is proved over each sink, also over one that tells both, as [`crate::MemorySink`].
pub trait Sink {
    // the bytes that it took, where it tells them
    ghost taken: { Self → Option (List ℕ) };

    // the bytes that it has flushed, where it tells them
    ghost flushed: { Self → Option (List ℕ) };

    // how often a call has failed, modulo 2^64, where it tells
    ghost failures: { Self → Option ℕ };

    /// Takes a beginning of some bytes, and says how many. An error takes none; it is a failure, and so is a write that takes none.
    fn write(&mut self, bytes: &[u8]) -> io::Result<usize>
        requires some { 0 < length bytes.now }
        ensures within { WritesAtMost result bytes.now }
        ensures taken { WriteAppends (taken self.old) (taken self.new) result bytes.now }
        ensures failures { Counts (failures self.old) (failures self.new) (takes_nothing result) };

    /// Flushes all that it took. An error is a failure.
    fn flush(&mut self) -> io::Result<()>
        ensures taken { Keeps (taken self.old) (taken self.new) }
        ensures flushed { OnOk result (flushed self.new ≡ taken self.new) }
        ensures failures { Counts (failures self.old) (failures self.new) (is_err result) };
}

impl<W: Write> Sink for W {
    ghost taken = { W.contents };

    ghost flushed = { W.contents };

    ghost failures = { λ _. None };

    fn write(&mut self, bytes: &[u8]) -> io::Result<usize> {
        Write::write(self, bytes)
    }

    fn flush(&mut self) -> io::Result<()> {
        Write::flush(self)
    }
}
