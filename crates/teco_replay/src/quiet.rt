//! A terminal for what is run again.
ghost use Rattle.std.specs.Prelude.{None};

use teco_io::{Terminal, TerminalFault};

/// A terminal that shows nothing and never fails: what is run again was seen when it was run.
#[derive(Clone, Copy)]
pub struct Quiet;

impl Terminal for Quiet {
    ghost screen = { λ _. record {
      shown = None;
      failures = 0;
    } };

    fn put(&mut self, _bytes: &[u8]) -> Result<(), TerminalFault> {
        Ok(())
    }
}
