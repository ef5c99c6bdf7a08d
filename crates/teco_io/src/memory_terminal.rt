//! A terminal that keeps its bytes in memory.
ghost use Rattle.std.specs.Prelude.{◌≡◌, ℕ, [], Some, OnErr};
ghost use Rattle.teco_io.specs.Terminal.{Puts};

use crate::terminal::{Terminal, TerminalFault};
use std::alloc::Global;
use std::mem;

/// A terminal that keeps all that is shown. A growth that is refused is a failure, and then nothing is added.
#[derive(Drop)]
pub struct MemoryTerminal {
    bytes: Vec<u8>,
    failures: u64,
}

impl MemoryTerminal {
    /// A terminal that has shown nothing. Takes no memory.
    pub fn new(alloc: Global) -> MemoryTerminal
        ensures shown { (⟦<MemoryTerminal as Terminal>⟧.screen result).shown ≡ Some [] }
        ensures failures { (⟦<MemoryTerminal as Terminal>⟧.screen result).failures ≡ 0 }
    {
        MemoryTerminal {
            bytes: Vec::new(alloc),
            failures: 0,
        }
    }

    /// All that it has shown.
    pub fn bytes(&self) -> &[u8]
        ensures { (⟦<MemoryTerminal as Terminal>⟧.screen self.now).shown ≡ Some result.now }
    {
        self.bytes.as_slice()
    }

    /// Hands over all that it has shown, and begins anew. Takes no memory.
    pub fn take(&mut self) -> Vec<u8>
        ensures taken { (⟦<MemoryTerminal as Terminal>⟧.screen self.old).shown ≡ Some result.items }
        ensures empty { (⟦<MemoryTerminal as Terminal>⟧.screen self.new).shown ≡ Some [] }
        ensures failures { (⟦<MemoryTerminal as Terminal>⟧.screen self.new).failures
            ≡ (⟦<MemoryTerminal as Terminal>⟧.screen self.old).failures }
    {
        let alloc = *self.bytes.allocator();
        mem::replace(&mut self.bytes, Vec::new(alloc))
    }
}

impl Terminal for MemoryTerminal {
    ghost screen = { λ terminal. record { shown = Some terminal.bytes.items; failures = terminal.failures } };

    fn put(&mut self, bytes: &[u8]) -> Result<(), TerminalFault>
        ensures puts { Puts (⟦<MemoryTerminal as Terminal>⟧.screen self.old)
            (⟦<MemoryTerminal as Terminal>⟧.screen self.new) bytes.now result }
        ensures nothing_added { OnErr result
            ((⟦<MemoryTerminal as Terminal>⟧.screen self.new).shown
            ≡ (⟦<MemoryTerminal as Terminal>⟧.screen self.old).shown) }
    {
        if self.bytes.extend_from_slice(bytes).is_err() {
            self.failures = self.failures.wrapping_add(1);
            return Err(TerminalFault);
        }
        Ok(())
    }
}
