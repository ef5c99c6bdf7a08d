//! A terminal over a writer.
ghost use Rattle.std.specs.Io.KnownBytes.{Appends};
ghost use Rattle.std.specs.Prelude.{◌≡◌, ℕ, List, OnErr, OnOk, is_err};
ghost use Rattle.teco_io.specs.Sink.{Counts, sink_of};
ghost use Rattle.teco_io.specs.Terminal.{IsFrontOf, Puts};

use crate::sink::Sink;
use crate::terminal::{Terminal, TerminalFault};

/// A terminal that writes all that is shown to a writer, or to another sink, and flushes it after each put.
///
/// What the sink has taken is what the terminal shows. After a put that is done all of it is flushed. A put fails where a write
/// or the flush of its sink fails, and only there.
#[derive(Drop)]
pub struct WriterTerminal<S: Sink + Drop> {
    sink: S,
    failures: u64,
}

impl<S: Sink + Drop> WriterTerminal<S> {
    /// A terminal that goes on after what the sink has taken.
    pub fn new(sink: S) -> WriterTerminal<S>
        ensures sink { sink_of result ≡ sink }
        ensures shown { (⟦<WriterTerminal<S> as Terminal>⟧.screen result).shown ≡ S.taken sink }
        ensures failures { (⟦<WriterTerminal<S> as Terminal>⟧.screen result).failures ≡ 0 }
    {
        WriterTerminal { sink, failures: 0 }
    }

    /// What it writes to.
    pub fn sink(&self) -> &S
        ensures sink { result.now ≡ sink_of self.now }
        ensures shown { (⟦<WriterTerminal<S> as Terminal>⟧.screen self.now).shown ≡ S.taken result.now }
    {
        &self.sink
    }
}

/// Writes the bytes and flushes. Where it fails, a beginning of them is written.
fn write_flushed<S: Sink>(sink: &mut S, bytes: &[u8]) -> Result<(), TerminalFault>
    ensures ok { OnOk result (Appends (S.taken sink.old) (S.taken sink.new) bytes.now) }
    ensures err { OnErr result ((front : List ℕ) × IsFrontOf front bytes.now
        × Appends (S.taken sink.old) (S.taken sink.new) front) }
    ensures flushed { OnOk result (S.flushed sink.new ≡ S.taken sink.new) }
    ensures failures { Counts (S.failures sink.old) (S.failures sink.new) (is_err result) }
{
    let mut at = 0;
    while at < bytes.len() {
        match sink.write(&bytes[at..]) {
            Ok(0) => return Err(TerminalFault),
            Ok(n) => at += n,
            Err(_) => return Err(TerminalFault),
        }
    }
    match sink.flush() {
        Ok(()) => Ok(()),
        Err(_) => Err(TerminalFault),
    }
}

impl<S: Sink + Drop> Terminal for WriterTerminal<S> {
    ghost screen = { λ terminal. record { shown = S.taken terminal.sink; failures = terminal.failures } };

    fn put(&mut self, bytes: &[u8]) -> Result<(), TerminalFault>
        ensures puts { Puts (⟦<WriterTerminal<S> as Terminal>⟧.screen self.old)
            (⟦<WriterTerminal<S> as Terminal>⟧.screen self.new) bytes.now result }
        ensures flushed { OnOk result (S.flushed (sink_of self.new)
            ≡ (⟦<WriterTerminal<S> as Terminal>⟧.screen self.new).shown) }
        ensures failures { Counts (S.failures (sink_of self.old)) (S.failures (sink_of self.new))
            (is_err result) }
    {
        let written = write_flushed(&mut self.sink, bytes);
        if written.is_err() {
            self.failures = self.failures.wrapping_add(1);
        }
        written
    }
}
