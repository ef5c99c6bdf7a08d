//! A source over memory.
ghost use Rattle.std.specs.Prelude.{◌≡◌, ◌≤◌, ◌<◌, ◌↔◌, ℕ, List, [], Some, drop, false, true, length, slice_index, min, take, vec_len, ◌⊎◌, IfOk, IsErr, OnErr, is_err};
ghost use Rattle.std.specs.List.{concat};
ghost use Rattle.teco_io.specs.Terminal.{count_after};
ghost use Rattle.teco_io.specs.Pieces.{given_by, left_by, pieces_at};

use crate::copying::copy_to_front;
use crate::source::{Source, SourceFault};
use std::marker::Model;

/// A source that gives its bytes piece by piece, one piece a read, or a longer one in parts; then it ends or, by choice, fails.
#[derive(Drop)]
pub struct MemorySource {
    bytes: Vec<u8>,
    // where pieces end; a cut that is not past the place is left out
    cuts: Vec<usize>,
    fails: bool,
    at: usize,
    next_cut: usize,
    ended: bool,
    failures: u64,
    ghost within: { at ≤ vec_len bytes },
}

impl Model for MemorySource {
    ghost use Rattle.std.specs.Prelude.{drop};
    ghost use Rattle.teco_io.specs.Pieces.{Pieces, pieces_at};

    ghost Value = { Pieces };

    ghost view = { λ source. record {
      pieces = pieces_at source.at (drop source.at source.bytes.items) (drop source.next_cut source.cuts.items);
      fails = source.fails;
      ended = source.ended;
      failures = source.failures;
    } };
}

impl MemorySource {
    /// The pieces of the bytes that end at the cuts, which rise, and at the end. Without `fails` it ends after them.
    pub fn new(bytes: Vec<u8>, cuts: Vec<usize>, fails: bool) -> MemorySource
        ensures pieces { result.pieces ≡ pieces_at 0 bytes.items cuts.items }
        ensures fails { result.fails ≡ fails }
        ensures coming { ⟦<MemorySource as Source>⟧.coming result ≡ Some bytes.items }
        ensures bound { ⟦<MemorySource as Source>⟧.bound result ≡ vec_len bytes }
        ensures ended { ⟦<MemorySource as Source>⟧.ended result ≡ false }
        ensures failures { ⟦<MemorySource as Source>⟧.failures result ≡ 0 }
    {
        MemorySource {
            bytes,
            cuts,
            fails,
            at: 0,
            next_cut: 0,
            ended: false,
            failures: 0,
        }
    }
}

/// The place of the first cut, from `next` on, that is past `at`; the number of cuts where there is none.
fn cut_past(cuts: &[usize], next: usize, at: usize) -> usize
    ensures past { result < length cuts.now → at < slice_index cuts.now result }
    ensures same { (bs : List ℕ)
        → pieces_at at bs (drop result cuts.now) ≡ pieces_at at bs (drop next cuts.now) }
{
    let mut place = next;
    while place < cuts.len() && cuts[place] <= at {
        place += 1;
    }
    place
}

/// Where the piece at `at` ends: at that cut, if there is one before the end of the bytes, which are `len`.
fn piece_end(cuts: &[usize], cut: usize, at: usize, len: usize) -> usize
    requires more { at < len }
    requires past { cut < length cuts.now → at < slice_index cuts.now cut }
    ensures last { length cuts.now ≤ cut → result ≡ len }
    ensures cut { cut < length cuts.now → result ≡ min (slice_index cuts.now cut) len }
{
    if cut < cuts.len() && cuts[cut] < len {
        return cuts[cut];
    }
    len
}

impl MemorySource {
    /// Gives the first piece, or as much of it as there is room for; or it ends or fails where none is left.
    fn give(&mut self, room: &mut [u8]) -> Result<usize, SourceFault>
        ensures fits { IfOk result (λ n. n ≤ length room.new) }
        ensures gives { IfOk result (λ n. take n room.new ≡ given_by (length room.old) self.old.pieces) }
        ensures leaves { self.new.pieces ≡ left_by (length room.old) self.old.pieces }
        ensures ends { IfOk result
            (λ n. n ≡ 0 → 0 < length room.new → (self.new.ended ≡ true) × (self.new.pieces ≡ [])) }
        ensures goes_on { IfOk result
            (λ n. (0 < n) ⊎ (length room.new ≡ 0) → self.new.ended ≡ self.old.ended) }
        ensures fails { IsErr result ↔
            ((0 < length room.old) × (self.old.pieces ≡ []) × (self.old.fails ≡ true)) }
        ensures err { OnErr result (self.new.ended ≡ self.old.ended) }
        ensures count { self.new.failures ≡ count_after (is_err result) self.old.failures }
        ensures keeps { self.new.fails ≡ self.old.fails }
    {
        let left = self.bytes.len() - self.at;
        if room.is_empty() {
            return Ok(0);
        }
        if left == 0 {
            if self.fails {
                self.failures = self.failures.wrapping_add(1);
                return Err(SourceFault);
            }
            self.ended = true;
            return Ok(0);
        }
        self.next_cut = cut_past(self.cuts.as_slice(), self.next_cut, self.at);
        let end = piece_end(
            self.cuts.as_slice(),
            self.next_cut,
            self.at,
            self.bytes.len(),
        );
        let n = room.len().min(end - self.at);
        copy_to_front(room, &self.bytes, self.at, n);
        self.at += n;
        Ok(n)
    }
}

impl Source for MemorySource {
    ghost coming = { λ source. Some (concat source.pieces) };

    ghost bound = { λ source. length (concat source.pieces) };

    ghost ended = { λ source. source.ended };

    ghost failures = { λ source. source.failures };

    fn read(&mut self, piece: &mut [u8]) -> Result<usize, SourceFault> {
        self.give(piece)
    }
}
