//! A source over a reader.
ghost use Rattle.std.specs.Prelude.{◌≡◌, ◌-◌, ◌^◌, false};

use crate::source::{Source, SourceFault};
use std::io::Read;

/// A source that gives the bytes of a reader, at most 2^64-1 of them, and fails after them.
///
/// An error of the reader is a failure.
#[derive(Drop)]
pub struct ReaderSource<R: Read + Drop> {
    reader: R,
    left: u64,
    ended: bool,
    failures: u64,
}

impl<R: Read + Drop> ReaderSource<R> {
    /// A source of all that the reader has left.
    pub fn new(reader: R) -> ReaderSource<R>
        ensures coming { ⟦<ReaderSource<R> as Source>⟧.coming result ≡ R.remaining reader }
        ensures bound { ⟦<ReaderSource<R> as Source>⟧.bound result ≡ 2 ^ 64 - 1 }
        ensures ended { ⟦<ReaderSource<R> as Source>⟧.ended result ≡ false }
        ensures failures { ⟦<ReaderSource<R> as Source>⟧.failures result ≡ 0 }
    {
        ReaderSource::up_to(reader, u64::MAX)
    }

    /// The same, but after so many bytes every read fails.
    pub fn up_to(reader: R, most: u64) -> ReaderSource<R>
        ensures coming { ⟦<ReaderSource<R> as Source>⟧.coming result ≡ R.remaining reader }
        ensures bound { ⟦<ReaderSource<R> as Source>⟧.bound result ≡ most }
        ensures ended { ⟦<ReaderSource<R> as Source>⟧.ended result ≡ false }
        ensures failures { ⟦<ReaderSource<R> as Source>⟧.failures result ≡ 0 }
    {
        ReaderSource {
            reader,
            left: most,
            ended: false,
            failures: 0,
        }
    }
}

impl<R: Read + Drop> Source for ReaderSource<R> {
    ghost coming = { λ source. R.remaining source.reader };

    ghost bound = { λ source. source.left };

    ghost ended = { λ source. source.ended };

    ghost failures = { λ source. source.failures };

    fn read(&mut self, piece: &mut [u8]) -> Result<usize, SourceFault> {
        if piece.is_empty() {
            return Ok(0);
        }
        if self.left == 0 {
            self.failures = self.failures.wrapping_add(1);
            return Err(SourceFault);
        }
        let most = usize::min(piece.len(), self.left as usize);
        match self.reader.read(&mut piece[..most]) {
            Ok(n) => {
                self.left -= n as u64;
                self.ended |= n == 0;
                Ok(n)
            }
            Err(_) => {
                self.failures = self.failures.wrapping_add(1);
                Err(SourceFault)
            }
        }
    }
}
