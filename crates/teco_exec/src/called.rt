//! Copies of texts that are called.
ghost use Rattle.std.specs.Prelude.{◌≡◌, ◌≤◌, IfOk, length, take};

use std::alloc::{AllocError, Global};

/// The most bytes of a text that is called without memory of its own.
pub(crate) const SHORT_LIMIT: usize = 128;

/// Copies a short text to the beginning of a room. What is in the room after it means nothing.
#[inline(always)]
pub(crate) fn copy_short(text: &[u8], room: &mut [u8; SHORT_LIMIT])
    requires { length text.now ≤ SHORT_LIMIT }
    ensures same { take (length text.now) room.new ≡ text.now }
    ensures places { length room.new ≡ SHORT_LIMIT }
{
    room[..text.len()].copy_from_slice(text);
}

/// The most bytes of a room that is kept for the next copy.
const SPARE_LIMIT: usize = 4096;

/// The room of a copy that is no longer run, for the next one.
#[derive(Drop)]
pub(crate) struct Spare {
    room: Option<Vec<u8>>,
}

impl Spare {
    /// There is no room yet. Takes no memory.
    pub fn new() -> Spare {
        Spare { room: None }
    }

    /// A copy of a text. It takes memory only if there is no room for it.
    pub fn copy(&mut self, alloc: Global, text: &[u8]) -> Result<Vec<u8>, AllocError>
        ensures { IfOk result (λ copy. copy.items ≡ text.now) }
    {
        if let Some(mut room) = self.room.take() {
            if text.len() <= room.capacity() {
                room.clear();
                room.extend_from_slice(text)?;
                return Ok(room);
            }
        }
        Vec::from_slice(alloc, text)
    }

    /// Keeps the room of a copy, unless it is large.
    pub fn keep(&mut self, copy: Vec<u8>) {
        if copy.capacity() <= SPARE_LIMIT {
            self.room = Some(copy);
        }
    }
}
