//! Where bytes come from.
ghost use Rattle.std.specs.Prelude.{◌≡◌, ◌≤◌, ◌<◌, ◌⊎◌, ℕ, List, Option, Bool, [], length, take, true, false, IfOk, OnErr};
ghost use Rattle.teco_io.specs.Source.{Gives, HasEnded};

use thiserror::Error;

/// A read failed. The source's count of failures rose too.
#[derive(Debug, Drop, Error)]
#[error("cannot read")]
pub struct SourceFault;

/// Where bytes come from: the commands, or the input.
pub trait Source {
    // the bytes still to come, where the source tells them
    ghost coming: { Self → Option (List ℕ) };

    // no more bytes than this come
    ghost bound: { Self → ℕ };

    // it has come to its end
    ghost ended: { Self → Bool };

    // how often a read has failed, modulo 2^64
    ghost failures: { Self → ℕ };

    /// Reads into the front of the piece, and says how many bytes it read. Where a piece with room gets none, the source has ended.
    /// A read that fails gives no byte, and the count of failures rises by one.
    fn read(&mut self, piece: &mut [u8]) -> Result<usize, SourceFault>
        ensures fits { IfOk result (λ n. n ≤ length piece.new) }
        ensures ok { IfOk result
            (λ n. Gives coming bound failures self.old self.new (take n piece.new) false) }
        ensures ends { IfOk result
            (λ n. n ≡ 0 → 0 < length piece.new → HasEnded (coming self.new) (ended self.new)) }
        ensures goes_on { IfOk result
            (λ n. (0 < n) ⊎ (length piece.new ≡ 0) → ended self.new ≡ ended self.old) }
        ensures err { OnErr result
            (Gives coming bound failures self.old self.new [] true × (ended self.new ≡ ended self.old)) };
}
