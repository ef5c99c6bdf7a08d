//! A region beside the allocator that it came from, so that it can grow and is given back.
ghost use Rattle.std.specs.Prelude.{◌≡◌, ◌+◌, ◌^◌, ◌<◌, ◌≤◌, [], ◌++◌, length, take, drop, replicate, IfOk, OnOk, OnErr};
ghost use Rattle.teco_gap.specs.Gap.{around};

use super::NoMemory;
use super::moves::{cut, fill, move_gap};
use super::region::Region;
use std::alloc::Global;

// The fewest bytes that are written ahead.
const AHEAD: usize = 4096;

pub(crate) struct Block {
    pub(crate) region: Region<Global>,
    pub(crate) cap: usize,
    alloc: Global,
    ghost of_cap: { region.cap ≡ cap },
    ghost of_alloc: { region.alloc ≡ alloc },
}

impl Drop for Block {
    fn drop(self) {
        let Block {
            region,
            cap: _,
            alloc,
        } = self;
        region.free(&alloc);
    }
}

impl Block {
    // A block of `cap` bytes, of which none is written.
    pub(crate) fn new(alloc: Global, cap: usize) -> Result<Block, NoMemory>
        requires { cap < 2 ^ 63 }
        ensures { IfOk result (λ b. (b.region.bytes ≡ []) × (b.cap ≡ cap)) }
    {
        match Region::allocate(&alloc, cap) {
            Some(region) => Ok(Block { region, cap, alloc }),
            None => Err(NoMemory),
        }
    }

    // Makes the capacity `cap`. What is written stays, wherever it lies then.
    pub(crate) fn grow(&mut self, cap: usize) -> Result<(), NoMemory>
        requires { (self.old.cap ≤ cap) × (cap < 2 ^ 63) }
        ensures bytes { self.new.region.bytes ≡ self.old.region.bytes }
        ensures ok { OnOk result (self.new.cap ≡ cap) }
        ensures err { OnErr result (self.new.cap ≡ self.old.cap) }
    {
        if !self.region.grow(&self.alloc, cap) {
            return Err(NoMemory);
        }
        self.cap = cap;
        Ok(())
    }

    // Writes `n` zeros after the bytes that are written.
    fn with_zeros(self, n: usize) -> Block
        requires { length self.region.bytes + n ≤ self.cap }
        ensures bytes { result.region.bytes ≡ self.region.bytes ++ replicate n 0 }
        ensures cap { result.cap ≡ self.cap }
    {
        let Block {
            mut region,
            cap,
            alloc,
        } = self;
        for _written in 0..n {
            region.put(0);
        }
        Block { region, cap, alloc }
    }

    // Makes the gap from `gap` to `tail` longer by at least `lacking`, and returns where it ends then.
    // It is made longer by at least 4,096 bytes and by at least an eighth of what follows it, as far as there is room, so that few
    // inserts move that.
    #[inline(never)]
    pub(crate) fn widened(self, gap: usize, tail: usize, lacking: usize) -> (Block, usize)
        requires gap { (gap ≤ tail) × (tail ≤ length self.region.bytes) }
        requires fits { length self.region.bytes + lacking ≤ self.cap }
        ensures wider { (tail + lacking ≤ result.1) × (result.1 ≤ length result.0.region.bytes) }
        ensures same { around result.0.region.bytes gap result.1 ≡ around self.region.bytes gap tail }
        ensures cap { result.0.cap ≡ self.cap }
    {
        let written = self.region.bytes().len();
        let more = ahead(lacking, written - tail, self.cap - written);
        let mut block = self.with_zeros(more);
        let tail = move_gap(block.region.bytes_mut(), written, written + more, tail);
        (block, tail)
    }

    // Puts `ins` in place of the `del` bytes at `at`, and returns the gap after it, which was `gap..tail`.
    #[inline(always)]
    #[tactic(auto, using(crate::proofs::Around::after_splice))]
    pub(crate) fn splice(
        &mut self,
        gap: usize,
        tail: usize,
        at: usize,
        del: usize,
        ins: &[u8],
    ) -> (usize, usize)
        requires gap { (gap ≤ tail) × (tail ≤ length self.old.region.bytes) }
        requires inside { at + del ≤ length (around self.old.region.bytes gap tail) }
        requires fits { gap + length ins.now ≤ tail + del }
        ensures gap { (result.0 ≤ result.1) × (result.1 ≤ length self.new.region.bytes) }
        ensures before { take result.0 self.new.region.bytes
            ≡ take at (around self.old.region.bytes gap tail) ++ ins.now }
        ensures after { drop result.1 self.new.region.bytes
            ≡ drop (at + del) (around self.old.region.bytes gap tail) }
        ensures cap { self.new.cap ≡ self.old.cap }
    {
        let bytes = self.region.bytes_mut();
        let end = cut(bytes, gap, tail, at, del);
        fill(bytes, at, ins);
        (at + ins.len(), end)
    }
}

// How many bytes to write where `lacking` have to be, `after` follow the gap, and there is room for `room`.
fn ahead(lacking: usize, after: usize, room: usize) -> usize
    requires { lacking ≤ room }
    ensures { (lacking ≤ result) × (result ≤ room) }
{
    lacking.max(after / 8).max(AHEAD).min(room)
}
