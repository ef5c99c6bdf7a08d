//! A sink that keeps its bytes in memory.
ghost use Rattle.std.specs.Prelude.{◌≡◌, ◌≤◌, [], Some, take, vec_len};

use crate::sink::Sink;
use std::alloc::Global;
use std::io::{self, ErrorKind};

/// A sink that keeps what it takes. It tells which of its bytes are flushed, and how often it failed. A growth that is refused is a
/// failure.
#[derive(Drop)]
pub struct MemorySink {
    bytes: Vec<u8>,
    flushed: usize,
    failures: u64,
    ghost within: { flushed ≤ vec_len bytes },
}

impl MemorySink {
    /// A sink that has taken nothing. Takes no memory.
    pub fn new(alloc: Global) -> MemorySink
        ensures taken { ⟦<MemorySink as Sink>⟧.taken result ≡ Some [] }
        ensures flushed { ⟦<MemorySink as Sink>⟧.flushed result ≡ Some [] }
        ensures failures { ⟦<MemorySink as Sink>⟧.failures result ≡ Some 0 }
    {
        MemorySink {
            bytes: Vec::new(alloc),
            flushed: 0,
            failures: 0,
        }
    }

    /// All that it has flushed.
    pub fn flushed(&self) -> &[u8]
        ensures { ⟦<MemorySink as Sink>⟧.flushed self.now ≡ Some result.now }
    {
        &self.bytes[..self.flushed]
    }
}

impl Sink for MemorySink {
    ghost taken = { λ sink. Some sink.bytes.items };

    ghost flushed = { λ sink. Some (take sink.flushed sink.bytes.items) };

    ghost failures = { λ sink. Some sink.failures };

    fn write(&mut self, bytes: &[u8]) -> io::Result<usize> {
        if self.bytes.extend_from_slice(bytes).is_err() {
            self.failures = self.failures.wrapping_add(1);
            return Err(io::Error::from(ErrorKind::OutOfMemory));
        }
        Ok(bytes.len())
    }

    fn flush(&mut self) -> io::Result<()> {
        self.flushed = self.bytes.len();
        Ok(())
    }
}
