//! A terminal over the room of a caller, and what is copied into one.
ghost use Rattle.std.specs.Prelude.{◌≡◌, ◌≤◌, ◌<◌, ◌+◌, ◌↔◌, ◌++◌, ◌∷◌, length, take, drop, IsErr, Some};
ghost use Rattle.teco_io.specs.Terminal.{Puts};
ghost use Rattle.teco_ffi.specs.Rooms.{filled};
ghost use Rattle.teco_store.specs.Slices.{bytes_in};

use crate::halves::{bytes_from, halves_from};
use teco_io::{Terminal, TerminalFault};
use teco_store::Slices;

/// A terminal that writes to a room. A put that finds too little room left is a failure, and then nothing is written.
///
/// A run is proved for any terminal, and tells of it only what it shows. So that it keeps the room, a room shows, for clauses, three
/// things: which one it is, how long it is, and then the bytes.
#[derive(Drop)]
pub struct Room<'a> {
    pub room: &'a mut [u8],
    pub count: usize,
    pub failures: u64,
    ghost within: { count ≤ length room.now },
}

impl<'a> Room<'a> {
    /// Nothing is typed yet.
    pub fn new(room: &'a mut [u8]) -> Room<'a>
        ensures same_reference { result.room.ghost_name ≡ room.entry.ghost_name }
        ensures same { result.room.now ≡ room.old }
        ensures none { result.count ≡ 0 }
    {
        Room {
            room,
            count: 0,
            failures: 0,
        }
    }
}

impl<'a> Terminal for Room<'a> {
    ghost screen = { λ t. record { shown = Some (t.room.ghost_name ∷ length t.room.now ∷ take t.count t.room.now); failures = t.failures } };

    fn put(&mut self, bytes: &[u8]) -> Result<(), TerminalFault>
        ensures puts { Puts (⟦<Room<'a> as Terminal>⟧.screen self.old) (⟦<Room<'a> as Terminal>⟧.screen self.new)
            bytes.now result }
        ensures fails { IsErr result ↔ (length self.old.room.now < self.old.count + length bytes.now) }
    {
        let left = self.room.len() - self.count;
        if left < bytes.len() {
            self.failures = self.failures.wrapping_add(1);
            return Err(TerminalFault);
        }
        let end = self.count + bytes.len();
        self.room[self.count..end].copy_from_slice(bytes);
        self.count = end;
        Ok(())
    }
}

/// Copies as many of the bytes as there is room for.
pub fn copy_front(room: &mut [u8], bytes: &[u8])
    ensures { room.new ≡ filled room.old bytes.now }
{
    let n = bytes.len().min(room.len());
    room[..n].copy_from_slice(&bytes[..n]);
}

/// Copies as much of a text in two parts as there is room for.
pub fn copy_halves(room: &mut [u8], before: &[u8], after: &[u8])
    ensures { room.new ≡ filled room.old (before.now ++ after.now) }
{
    let split = before.len().min(room.len());
    let (first, second) = room.split_at_mut(split);
    copy_front(first, before);
    copy_front(second, after);
}

/// Copies a text in two parts from a place on, as much as there is room for, and tells how long it is from there.
pub fn copy_from(room: &mut [u8], before: &[u8], after: &[u8], from: usize) -> usize
    ensures length { result ≡ length (drop from (before.now ++ after.now)) }
    ensures room { room.new ≡ filled room.old (drop from (before.now ++ after.now)) }
{
    let (before, after) = halves_from(before, after, from);
    copy_halves(room, before, after);
    before.len() + after.len()
}

/// Copies as many of the bytes as there is room for behind the first `at` bytes of the room.
fn copy_behind(room: &mut [u8], at: usize, bytes: &[u8])
    requires { at ≤ length room.old }
    ensures { room.new ≡ take at room.old ++ filled (drop at room.old) bytes.now }
{
    copy_front(&mut room[at..], bytes);
}

/// Copies an output from a place on, as much as there is room for, and tells how long it is from there.
pub fn copy_output(room: &mut [u8], output: Slices<'_>, from: usize) -> usize
    ensures length { result ≡ length (drop from (bytes_in output.entry)) }
    ensures room { room.new ≡ filled room.old (drop from (bytes_in output.entry)) }
{
    let mut left = output;
    let mut past = from;
    let mut count = 0;
    while let Some((slice, others)) = left.split_first() {
        let bytes = bytes_from(slice, past);
        copy_behind(room, count, bytes);
        count += bytes.len().min(room.len() - count);
        past = past.saturating_sub(slice.len());
        left = others;
    }
    output.len().saturating_sub(from)
}
