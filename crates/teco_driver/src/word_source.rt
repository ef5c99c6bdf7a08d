//! A source over the commands of a word.
ghost use Rattle.std.specs.Prelude.{◌≡◌, Some, false, length};

use teco_io::{Source, SourceFault};

/// A source that gives bytes which are had already, as many in a read as there is room for. It lends them, so it takes no memory, and no
/// read of it fails.
#[derive(Drop)]
pub struct WordSource<'a> {
    rest: &'a [u8],
    ended: bool,
}

impl<'a> WordSource<'a> {
    /// A source of these bytes.
    pub fn new(bytes: &'a [u8]) -> WordSource<'a>
        ensures coming { ⟦<WordSource<'a> as Source>⟧.coming result ≡ Some bytes.now }
        ensures bound { ⟦<WordSource<'a> as Source>⟧.bound result ≡ length bytes.now }
        ensures ended { ⟦<WordSource<'a> as Source>⟧.ended result ≡ false }
    {
        WordSource {
            rest: bytes,
            ended: false,
        }
    }
}

impl Source for WordSource<'_> {
    ghost coming = { λ source. Some source.rest.now };

    ghost bound = { λ source. length source.rest.now };

    ghost ended = { λ source. source.ended };

    // the bytes are here already, so nothing can fail
    ghost failures = { λ _. 0 };

    fn read(&mut self, piece: &mut [u8]) -> Result<usize, SourceFault> {
        if piece.is_empty() {
            return Ok(0);
        }
        let n = piece.len().min(self.rest.len());
        if n == 0 {
            self.ended = true;
            return Ok(0);
        }
        let (front, rest) = self.rest.split_at(n);
        piece[..n].copy_from_slice(front);
        self.rest = rest;
        Ok(n)
    }
}
