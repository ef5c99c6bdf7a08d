//! Terminals whose puts are refused or fail.
use crate::tests::assert_of;
use crate::tests::bytes::are;
use std::io::{self, Write};
use teco_io::{MemorySink, MemoryTerminal, Terminal, WriterTerminal};

/// Whether a put is done; one that is refused adds nothing, and the same put can be tried again.
fn puts_again(terminal: &mut MemoryTerminal, bytes: &[u8]) -> bool {
    let before = terminal.bytes().len();
    terminal.put(bytes).is_ok() || terminal.bytes().len() == before && terminal.put(bytes).is_ok()
}

/// Whether what was shown is handed over, and the terminal then begins anew.
fn keeps(terminal: &mut MemoryTerminal) -> bool {
    puts_again(terminal, b"1")
        && puts_again(terminal, b"")
        && puts_again(terminal, b"=23456789012345\r\n")
        && are(&terminal.take(), b"1=23456789012345\r\n")
        && puts_again(terminal, b"2")
        && are(terminal.bytes(), b"2")
}

/// Whether bytes are put and flushed, where a growth that is refused the first time isn't the second.
fn flushes(terminal: &mut WriterTerminal<MemorySink>, bytes: &[u8], flushed: &[u8]) -> bool {
    let is_put = terminal.put(bytes).is_ok() || terminal.put(bytes).is_ok();
    is_put && are(terminal.sink().flushed(), flushed)
}

#[test]
fn keeps_and_flushes_what_is_shown(rt: HostRuntime) {
    let mut kept = MemoryTerminal::new(rt.alloc());
    let mut terminal = WriterTerminal::new(MemorySink::new(rt.alloc()));
    let held = keeps(&mut kept)
        && flushes(&mut terminal, b"hi", b"hi")
        && flushes(&mut terminal, b"!", b"hi!");
    assert!(rt; held);
}

/// How a writer fails.
#[derive(Clone, Copy)]
enum Fault {
    /// A write past its room is an error.
    Write,
    /// A write past its room takes nothing.
    TakesNothing,
    /// Each flush is an error.
    Flush,
}

/// Takes at most two bytes a write, and `left` in all. What it took is shown by a flush alone.
#[derive(Drop)]
struct Narrow {
    taken: [u8; 8],
    len: usize,
    shown: usize,
    left: usize,
    fault: Fault,
}

impl Write for Narrow {
    fn write(&mut self, bytes: &[u8]) -> io::Result<usize> {
        if self.left == 0 && matches!(self.fault, Fault::Write) {
            return Err(io::Error::from(io::ErrorKind::Other));
        }
        let left = self.left;
        let n = left.min(2).min(bytes.len());
        for byte in &bytes[..n] {
            if self.len < 8 {
                self.taken[self.len] = *byte;
                self.len += 1;
            }
        }
        self.left = left - n;
        Ok(n)
    }

    fn flush(&mut self) -> io::Result<()> {
        if matches!(self.fault, Fault::Flush) {
            return Err(io::Error::from(io::ErrorKind::Other));
        }
        self.shown = self.len;
        Ok(())
    }
}

/// How many bytes a writer takes, how it fails, whether `hello` and then `!` could be put on a terminal over it, and what it has and
/// what it has shown after that.
type Row<'a> = (usize, Fault, bool, bool, &'a str, &'a str);

static ROWS: [Row<'static>; 5] = [
    (8, Fault::Write, true, true, "hello!", "hello!"),
    (5, Fault::Write, true, false, "hello", "hello"),
    (3, Fault::TakesNothing, false, false, "hel", ""),
    (3, Fault::Write, false, false, "hel", ""),
    (8, Fault::Flush, false, false, "hello!", ""),
];

/// Whether `hello` and then `!` are put as the row says on a terminal over its writer.
fn takes(row: &Row) -> bool {
    let (left, fault, hello, mark, taken, shown) = *row;
    let mut terminal = WriterTerminal::new(Narrow {
        taken: [0; 8],
        len: 0,
        shown: 0,
        left,
        fault,
    });
    let put = terminal.put(b"hello").is_ok() == hello && terminal.put(b"!").is_ok() == mark;
    let writer = terminal.sink();
    put && are(&writer.taken[..writer.len.min(8)], taken.as_bytes())
        && are(&writer.taken[..writer.shown.min(8)], shown.as_bytes())
}

#[test]
fn writes_all_or_fails(rt: HostRuntime) {
    for row in &ROWS {
        assert_of(&rt, row.4, takes(row));
    }
}
