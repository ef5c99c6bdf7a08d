//! Bytes of a buffer are exchanged for others, in memory that was found before.
ghost use Rattle.std.specs.Prelude.{◌≡◌, ◌+◌, ◌≤◌, ◌++◌, [], length, take, drop};
ghost use Rattle.std.specs.Vec.{vec_capacity};
ghost use Rattle.teco_gap.specs.Gap.{text};
ghost use Rattle.teco_store.specs.State.{replaced};

use crate::pages::{append_within, part};
use crate::short_text::{SHORT_LIMIT, ShortText};
use teco_gap::GapBuffer;

// Puts the `there` bytes at `at` after those that are held, which have room for them. The buffer's gap stays where it is.
fn hold(buffer: &GapBuffer, at: usize, there: usize, held: &mut Vec<u8>)
    requires within { at + there ≤ length (text buffer.now) }
    requires room { length held.old.items + there ≤ vec_capacity held.old }
    ensures items { held.new.items ≡ held.old.items ++ take there (drop at (text buffer.now)) }
    ensures room { vec_capacity held.old ≤ vec_capacity held.new }
{
    // This shows that the text has less than 2^63 bytes.
    let _cap = buffer.cap();
    let (before, after) = buffer.halves();
    let (before, after) = part(before, after, at, at + there);
    append_within(held, before);
    append_within(held, after);
}

// Puts `ins` for the `there` bytes at `at`, and gives those that stood there in `held`, which is empty.
pub(crate) fn exchange(
    buffer: &mut GapBuffer,
    at: usize,
    there: usize,
    ins: &[u8],
    mut held: Vec<u8>,
) -> Vec<u8>
    requires within { at + there ≤ length (text buffer.old) }
    requires fits { length (text buffer.old) + length ins.now ≤ buffer.old.cap + there }
    requires empty { held.items ≡ [] }
    requires room { there + length ins.now ≤ vec_capacity held }
    ensures text { text buffer.new ≡ replaced (text buffer.old) at (at + there) ins.now }
    ensures cap { buffer.new.cap ≡ buffer.old.cap }
    ensures held { result.items ≡ take there (drop at (text buffer.old)) }
    ensures room { length ins.now + there ≤ vec_capacity result }
{
    // This shows that the text has less than 2^63 bytes.
    let _cap = buffer.cap();
    hold(buffer, at, there, &mut held);
    buffer.splice(at, there, ins);
    held
}

// Puts `ins` for the `there` bytes at `at`, which are few, and gives those that stood there.
pub(crate) fn exchange_short(
    buffer: &mut GapBuffer,
    at: usize,
    there: usize,
    ins: &[u8],
) -> ShortText
    requires within { at + there ≤ length (text buffer.old) }
    requires fits { length (text buffer.old) + length ins.now ≤ buffer.old.cap + there }
    requires short { there ≤ SHORT_LIMIT }
    ensures text { text buffer.new ≡ replaced (text buffer.old) at (at + there) ins.now }
    ensures cap { buffer.new.cap ≡ buffer.old.cap }
    ensures held { result ≡ take there (drop at (text buffer.old)) }
{
    let held = ShortText::copied(buffer, at, there);
    buffer.splice(at, there, ins);
    held
}

// Puts the bytes that are held in their place, and gives those that stood there, in the same memory.
pub(crate) fn swap_bytes(
    buffer: &mut GapBuffer,
    at: usize,
    there: usize,
    mut held: Vec<u8>,
) -> Vec<u8>
    requires within { at + there ≤ length (text buffer.old) }
    requires fits { length (text buffer.old) + length held.items ≤ buffer.old.cap + there }
    requires room { there + length held.items ≤ vec_capacity held }
    ensures text { text buffer.new ≡ replaced (text buffer.old) at (at + there) held.items }
    ensures cap { buffer.new.cap ≡ buffer.old.cap }
    ensures held { result.items ≡ take there (drop at (text buffer.old)) }
    ensures room { length held.items + there ≤ vec_capacity result }
{
    // This shows that the text has less than 2^63 bytes.
    let _cap = buffer.cap();
    let count = held.len();
    hold(buffer, at, there, &mut held);
    buffer.splice(at, there, &held[..count]);
    held.rotate_left(count);
    held.truncate(there);
    held
}
