//! Cutting the stream of commands.
ghost use Rattle.std.specs.Prelude.{◌≡◌, ℕ, ◌≤◌, [], ◌++◌, drop, vec_len, List, IfOk, OnOk, OnErr};
ghost use Rattle.teco_serve.specs.Cut.{AsksFirst, Cuts, IsHeld, value_of};
ghost use Rattle.teco_scan.specs.Stream.{asks_of};

use std::alloc::Global;
use std::marker::Model;
use teco_core::NoMemory;
use teco_scan::{HistoryMove, move_asked, pair_end};

/// What a text of the stream asks.
#[derive(Drop)]
pub enum Asked {
    /// To run the text, which includes the first ESC of its pair.
    Run(Vec<u8>),
    /// So many undos.
    Undo(u32),
    /// So many redos.
    Redo(u32),
    /// A rewind to this step.
    Rewind(u32),
}

/// What a text asks.
fn asked_in(alloc: Global, text: &[u8]) -> Result<Asked, NoMemory>
    ensures { IfOk result (λ asked. value_of asked ≡ asks_of text.now) }
{
    match move_asked(text) {
        Some(HistoryMove::Undo(n)) => Ok(Asked::Undo(n)),
        Some(HistoryMove::Redo(n)) => Ok(Asked::Redo(n)),
        Some(HistoryMove::Rewind(step)) => Ok(Asked::Rewind(step)),
        None => Ok(Asked::Run(Vec::from_slice(alloc, text)?)),
    }
}

/// Drops the bytes before `start` if they are at least as many as those from there on. Gives the place of the first byte that is held.
fn compacted(bytes: &mut Vec<u8>, start: usize) -> usize
    requires { start ≤ vec_len bytes.old }
    ensures within { result ≤ vec_len bytes.new }
    ensures held { drop result bytes.new.items ≡ drop start bytes.old.items }
{
    let held = bytes.len() - start;
    if start < held {
        return start;
    }
    bytes.copy_within(start.., 0);
    bytes.truncate(held);
    0
}

/// What has come of the stream and is not cut off yet: the held bytes.
///
/// However the stream comes in pieces, each byte is looked at once for a pair, and moved a bounded number of times.
#[derive(Drop)]
pub struct Splitter {
    bytes: Vec<u8>,
    // the held bytes are those from here on
    start: usize,
    // no pair ends within so many of them
    looked: usize,
}

impl Model for Splitter {
    ghost Value = { List ℕ };

    ghost view = { λ splitter. drop splitter.start splitter.bytes.items };

    ghost invariant = { λ splitter. IsHeld splitter.bytes.items splitter.start splitter.looked };
}

impl Splitter {
    /// Holds nothing. Takes no memory.
    pub fn new(alloc: Global) -> Splitter
        ensures { result ≡ [] }
    {
        Splitter {
            bytes: Vec::new(alloc),
            start: 0,
            looked: 0,
        }
    }

    /// The held bytes. Takes no memory.
    pub fn held(&self) -> &[u8]
        ensures { result.now ≡ self.now }
    {
        &self.bytes.as_slice()[self.start..]
    }

    /// The next piece of the stream. Where memory is refused, the held bytes are as before.
    pub fn feed(&mut self, piece: &[u8]) -> Result<(), NoMemory>
        ensures ok { OnOk result (self.new ≡ self.old ++ piece.now) }
        ensures err { OnErr result (self.new ≡ self.old) }
    {
        self.bytes.extend_from_slice(piece)
    }

    /// What the text up to the leftmost pair asks, which is cut off with its pair; none where no pair is held.
    /// Where memory is refused, the held bytes are as before.
    pub fn next(&mut self) -> Result<Option<Asked>, NoMemory>
        ensures cut { IfOk result (λ cut. Cuts self.old cut self.new) }
        ensures first { IfOk result (λ cut. AsksFirst self.old cut self.new) }
        ensures err { OnErr result (self.new ≡ self.old) }
    {
        let held = &self.bytes.as_slice()[self.start..];
        let Some(at) = pair_end(held, self.looked) else {
            self.looked = held.len();
            return Ok(None);
        };
        self.looked = at;
        let asked = asked_in(*self.bytes.allocator(), &held[..at])?;
        self.looked = 0;
        self.start = compacted(&mut self.bytes, self.start + at + 1);
        Ok(Some(asked))
    }
}
