//! Readers that fail, and what their source gives.
use std::io;
use std::io::Read;
use teco_io::{ReaderSource, Source};

/// Gives one byte a read, but fails at its second read, and ends after its fourth.
#[derive(Drop)]
struct Stumbling {
    reads: u8,
}

impl Read for Stumbling {
    fn read(&mut self, piece: &mut [u8]) -> io::Result<usize> {
        let reads = self.reads;
        if reads >= 4 || piece.is_empty() {
            return Ok(0);
        }
        self.reads = reads + 1;
        if reads == 1 {
            return Err(io::Error::from(io::ErrorKind::Other));
        }
        piece[0] = b'a' + reads;
        Ok(1)
    }
}

/// Whether a source gives this, a read for each byte, into room for four: a letter alone, nothing where that is `-`, and an error where it
/// is `!`. A read into no room, which is `0`, gives nothing.
fn gives(mut source: ReaderSource<Stumbling>, script: &[u8]) -> bool {
    let mut room = [0; 4];
    let mut held = true;
    for wanted in script {
        let len = if *wanted == b'0' { 0 } else { 4 };
        let is_so = match source.read(&mut room[..len]) {
            Ok(0) => *wanted == b'-' || len == 0,
            Ok(n) => n == 1 && room[0] == *wanted,
            Err(_) => *wanted == b'!',
        };
        held = held && is_so;
    }
    held
}

/// The second is of at most one byte: the last that may come, and the failure after it.
#[test]
fn fails_where_the_reader_does_and_after_the_most_bytes(rt: HostRuntime) {
    let held = gives(ReaderSource::new(Stumbling { reads: 0 }), b"a!c0d-")
        && gives(ReaderSource::up_to(Stumbling { reads: 2 }, 1), b"c!");
    assert!(rt; held);
}
