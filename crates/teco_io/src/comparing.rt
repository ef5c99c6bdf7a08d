//! Whether a source gives just some bytes.
ghost use Rattle.std.specs.Prelude.{◌≡◌, ◌++◌, IfSome, true, false};
ghost use Rattle.teco_io.specs.Source.{Gives, HasEnded};

use crate::source::Source;

/// The most bytes of a piece.
const PIECE: usize = 1 << 16;

/// What comes after these bytes in others, if the others begin with them.
fn after_front<'a>(bytes: &'a [u8], front: &[u8]) -> Option<&'a [u8]>
    ensures { IfSome result (λ left. bytes.now ≡ front.now ++ left.now) }
{
    let (head, left) = bytes.split_at_checked(front.len())?;
    if head == front { Some(left) } else { None }
}

/// What comes after a piece in two parts, one after the other, if they begin with it.
fn after_piece<'a>(parts: (&'a [u8], &'a [u8]), piece: &[u8]) -> Option<(&'a [u8], &'a [u8])>
    ensures { IfSome result (λ left. parts.entry.0.now ++ parts.entry.1.now ≡ piece.now ++ (left.0.now ++ left.1.now)) }
{
    if let Some(front) = after_front(parts.0, piece) {
        return Some((front, parts.1));
    }
    let rest = after_front(piece, parts.0)?;
    let back = after_front(parts.1, rest)?;
    Some((&[], back))
}

/// Whether a source gives the bytes of these two parts, one after the other, and no more.
// Out of line, so that its piece is on the stack for this call alone.
#[inline(never)]
pub fn gives_just<S: Source>(source: &mut S, bytes: (&[u8], &[u8])) -> bool
    ensures given { result ≡ true → Gives S.coming S.bound S.failures source.old source.new
        (bytes.entry.0.now ++ bytes.entry.1.now) false }
    ensures ended { result ≡ true → HasEnded (S.coming source.new) (S.ended source.new) }
{
    let mut piece = [0; PIECE];
    let mut left = bytes;
    'pieces: loop {
        let Ok(n) = source.read(&mut piece) else {
            return false;
        };
        if n == 0 {
            return left.0.is_empty() && left.1.is_empty();
        }
        let Some(rest) = after_piece(left, &piece[..n]) else {
            return false;
        };
        left = rest;
    }
}
