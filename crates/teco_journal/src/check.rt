//! The check of a line: a digest of the check before it and the line.
ghost use Rattle.std.specs.Prelude.{◌≡◌};
ghost use Rattle.teco_journal.specs.Lines.{check_of};

use sha2::{Digest, Sha256};

/// How many bytes a check has, as it is written.
pub const CHECK_LENGTH: usize = 16;

/// The check of a line behind the check before it: the first eight bytes of their SHA-256, in hex.
pub fn check_of(last: &[u8], words: &[u8]) -> [u8; CHECK_LENGTH]
    ensures { result ≡ check_of last.now words.now }
{
    let mut hasher = Sha256::new();
    hasher.update(last);
    hasher.update(words);
    let digest = hasher.finalize();
    let mut check = [0; CHECK_LENGTH];
    // A digest has 32 bytes, so the lengths fit.
    let _fits = hex::encode_to_slice(&digest[..CHECK_LENGTH / 2], &mut check);
    check
}
