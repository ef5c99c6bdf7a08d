//! Whether a file has the bytes that are to be written to it.
ghost use Rattle.std.specs.Prelude.{◌≡◌, ◌++◌, IfSome, Some, false, true};
ghost use Rattle.teco_fs.specs.Disk.{Files};
ghost use Rattle.teco_fs.specs.Seen.{KeepsDisk, disk_seen};
ghost use Rattle.teco_io.specs.Source.{Gives, HasEnded};
ghost use Rattle.teco_store.specs.Slices.{bytes_in};

use crate::Disk;
use teco_io::Source;
use teco_store::Slices;

/// The most bytes of a piece.
const PIECE: usize = 1 << 16;

/// What comes after these bytes in others, if the others begin with them.
fn after_front<'a>(bytes: &'a [u8], front: &[u8]) -> Option<&'a [u8]>
    ensures { IfSome result (λ left. bytes.now ≡ front.now ++ left.now) }
{
    let (head, left) = bytes.split_at_checked(front.len())?;
    if head == front { Some(left) } else { None }
}

/// What comes after a piece in a slice and others, one after another, if they begin with it.
fn after_piece<'a>(
    slice: &'a [u8],
    others: Slices<'a>,
    piece: &[u8],
) -> Option<(&'a [u8], Slices<'a>)>
    ensures { IfSome result (λ left. slice.entry.now ++ bytes_in others.entry ≡ piece.now ++ (left.0.now ++ bytes_in left.1)) }
{
    let mut front = slice;
    let mut left = others;
    let mut wanted = piece;
    'slices: loop {
        if let Some(back) = after_front(front, wanted) {
            return Some((back, left));
        }
        let after = after_front(wanted, front)?;
        let (next, rest) = left.split_first()?;
        wanted = after;
        front = next;
        left = rest;
    }
}

/// Whether a source gives the bytes of an output, and no more.
// Out of line, so that its piece is on the stack for this call alone.
#[inline(never)]
fn gives_just<S: Source>(source: &mut S, bytes: Slices<'_>) -> bool
    ensures given { result ≡ true → Gives S.coming S.bound S.failures source.old source.new (bytes_in bytes.entry) false }
    ensures ended { result ≡ true → HasEnded (S.coming source.new) (S.ended source.new) }
{
    let mut piece = [0; PIECE];
    let mut front: &[u8] = &[];
    let mut left = bytes;
    'pieces: loop {
        let Ok(n) = source.read(&mut piece) else {
            return false;
        };
        if n == 0 {
            return front.is_empty() && left.len() == 0;
        }
        let Some((back, others)) = after_piece(front, left, &piece[..n]) else {
            return false;
        };
        front = back;
        left = others;
    }
}

/// Whether a file has these bytes.
pub fn has_bytes<D: Disk>(name: &str, bytes: Slices<'_>, disk: &mut D) -> bool
    ensures same { result ≡ true → (before : Files) → (D.seen disk.old).files ≡ Some before
        → before name.now ≡ Some (bytes_in bytes.entry) }
    ensures keeps { let seen = disk_seen D.Disk D.Input.Source in
        KeepsDisk (seen disk.old) (seen disk.new) }
{
    if !disk.may_have(name, bytes.len()) {
        return false;
    }
    match disk.reopen(name) {
        Ok(mut source) => gives_just(&mut source, bytes),
        Err(_) => false,
    }
}
