//! Short texts, which lie where they are held and take no memory.
ghost use Rattle.std.specs.Prelude.{◌≡◌, ◌+◌, ◌≤◌, length, take, drop};
ghost use Rattle.teco_gap.specs.Gap.{text};

use std::marker::Model;
use teco_gap::GapBuffer;

/// The most bytes of a short text: so many that a change which holds one is no larger than one that holds a text in memory.
pub const SHORT_LIMIT: usize = 23;

/// A text of at most [`SHORT_LIMIT`] bytes, which lie in it.
///
/// A clause sees it as its bytes.
#[derive(Drop)]
pub struct ShortText {
    bytes: [u8; SHORT_LIMIT],
    len: u8,
}

impl Model for ShortText {
    ghost use Rattle.std.specs.Prelude.{ℕ, List};
    ghost use Rattle.teco_store.specs.ShortText.{bytes_of, IsShort};

    ghost Value = { List ℕ };

    ghost view = { bytes_of };

    ghost invariant = { IsShort };
}

impl ShortText {
    // The `count` bytes of a buffer at `at`.
    pub(crate) fn copied(buffer: &GapBuffer, at: usize, count: usize) -> ShortText
        requires within { at + count ≤ length (text buffer.now) }
        requires short { count ≤ SHORT_LIMIT }
        ensures { result ≡ take count (drop at (text buffer.now)) }
    {
        // This shows that the text has less than 2^63 bytes.
        let _cap = buffer.cap();
        let mut bytes = [0; SHORT_LIMIT];
        for i in 0..count {
            bytes[i] = buffer.get(at + i);
        }
        ShortText {
            bytes,
            len: count as u8,
        }
    }

    // How many bytes it has.
    pub(crate) fn len(&self) -> usize
        ensures value { result ≡ length self.now }
        ensures short { result ≤ SHORT_LIMIT }
    {
        usize::from(self.len)
    }

    // Its bytes.
    pub(crate) fn as_slice(&self) -> &[u8]
        ensures value { result.now ≡ self.now }
        ensures short { length result.now ≤ SHORT_LIMIT }
    {
        &self.bytes[..usize::from(self.len)]
    }
}
