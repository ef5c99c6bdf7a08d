//! Standard output whose reader may leave, and what is told then on standard error: nothing.
use std::cell::Cell;
use std::io::{self, ErrorKind, Write};

/// A writer that notes if its reader has left, as `head` does once it has its lines.
#[derive(Drop)]
pub struct Piped<'a, W: Write + Drop> {
    writer: W,
    has_left: &'a Cell<bool>,
}

impl<'a, W: Write + Drop> Piped<'a, W> {
    pub fn new(writer: W, has_left: &'a Cell<bool>) -> Piped<'a, W> {
        Piped { writer, has_left }
    }

    fn note<A>(&self, done: &io::Result<A>) {
        if matches!(done, Err(error) if error.kind() == ErrorKind::BrokenPipe) {
            self.has_left.set(true);
        }
    }
}

impl<W: Write + Drop> Write for Piped<'_, W> {
    ghost contents = { λ piped. W.contents piped.writer };

    fn write(&mut self, bytes: &[u8]) -> io::Result<usize> {
        let written = self.writer.write(bytes);
        self.note(&written);
        written
    }

    fn flush(&mut self) -> io::Result<()> {
        let flushed = self.writer.flush();
        self.note(&flushed);
        flushed
    }
}

/// A writer that is silent once the reader of another has left. Whoever leaves has what was wanted, so there is nothing to tell.
#[derive(Drop)]
pub struct UntilLeft<'a, W: Write + Drop> {
    writer: W,
    has_left: &'a Cell<bool>,
}

impl<'a, W: Write + Drop> UntilLeft<'a, W> {
    pub fn new(writer: W, has_left: &'a Cell<bool>) -> UntilLeft<'a, W> {
        UntilLeft { writer, has_left }
    }
}

impl<W: Write + Drop> Write for UntilLeft<'_, W> {
    fn write(&mut self, bytes: &[u8]) -> io::Result<usize> {
        if self.has_left.get() {
            return Ok(bytes.len());
        }
        self.writer.write(bytes)
    }

    fn flush(&mut self) -> io::Result<()> {
        self.writer.flush()
    }
}
