//! Line ends of a text that lies in two halves.
ghost use Rattle.std.specs.Prelude.{◌≡◌, ◌++◌, ◌≤◌, length};
ghost use Rattle.memchr.specs.Find.{IsFirst, IsLast, Passes};
ghost use Rattle.teco_core.specs.Ascii.{is_line_end};

use crate::passing::{Test, first_passing, last_passing};
use teco_core::is_line_end;

/// The test that a byte ends a line.
struct LineEnd;

impl Test for LineEnd {
    ghost admits = { λ _. is_line_end };

    #[inline]
    fn admits(&self, byte: u8) -> bool {
        is_line_end(byte)
    }
}

/// The first line end at or after a place of the text that the two halves are together.
pub fn first_line_end(halves: (&[u8], &[u8]), from: usize) -> Option<usize>
    requires { from ≤ length (halves.0.now ++ halves.1.now) }
    ensures { let text = halves.entry.0.now ++ halves.entry.1.now in
        IsFirst (Passes is_line_end text) from (length text) result }
{
    let (before, after) = halves;
    let cut = before.len();
    if from >= cut {
        let place = first_passing(&LineEnd, &after[from - cut..])?;
        return Some(from + place);
    }
    if let Some(place) = first_passing(&LineEnd, &before[from..]) {
        return Some(from + place);
    }
    let place = first_passing(&LineEnd, after)?;
    Some(cut + place)
}

/// The last line end before a place of the text that the two halves are together.
pub fn last_line_end(halves: (&[u8], &[u8]), to: usize) -> Option<usize>
    requires { to ≤ length (halves.0.now ++ halves.1.now) }
    ensures { let text = halves.entry.0.now ++ halves.entry.1.now in
        IsLast (Passes is_line_end text) 0 to result }
{
    let (before, after) = halves;
    let cut = before.len();
    if to <= cut {
        return last_passing(&LineEnd, &before[..to]);
    }
    if let Some(place) = last_passing(&LineEnd, &after[..to - cut]) {
        return Some(cut + place);
    }
    last_passing(&LineEnd, before)
}
