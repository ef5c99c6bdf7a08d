//! Windows of a text, told from a needle by a number that rolls on from one window to the next.
ghost use Rattle.std.specs.Prelude.{◌≡◌, ◌+◌, ◌*◌, ◌%◌, ◌^◌, ◌<◌, ◌≤◌, length, slice_index};
ghost use Rattle.memchr.specs.Find.{IsFirst, IsLast};

use crate::joined::Joined;

/// A prime, so that few windows that differ have the same number.
const MODULUS: u64 = 4_294_967_291;
/// Its powers have all remainders but 0.
const BASE: u64 = 314_159_265;

/// A needle, as windows of its length are told from it.
#[derive(Clone, Copy)]
pub(crate) struct Needle {
    len: usize,
    number: u64,
    /// Times a byte, it takes that byte out of a number as it leaves the window.
    leaving: u64,
}

/// The byte at a place; 0 where the text doesn't reach it.
#[inline]
fn byte_at(text: &Joined, at: usize) -> u8
    ensures { result ≡ slice_index text.now at }
{
    text.get(at).unwrap_or(0)
}

impl Needle {
    ghost use Rattle.teco_search.specs.Window.{window_number, IsLike, IsLeaving, IsNeedleOf};

    /// The number of so many bytes from a place on.
    fn number_of(text: &Joined, start: usize, len: usize) -> u64
        requires { start + len < 2 ^ 64 }
        ensures { result ≡ window_number text.now start len }
    {
        let mut number = 0;
        'bytes: for i in 0..len {
            number = (number * BASE + u64::from(byte_at(text, start + i))) % MODULUS;
        }
        number
    }

    /// What takes the first byte out of the number of a window this long and one byte more.
    fn leaving(len: usize) -> u64
        ensures { IsLeaving result len }
    {
        let mut power = 1;
        'powers: for _power in 0..len {
            power = power * BASE % MODULUS;
        }
        MODULUS - power
    }

    /// The needle that some bytes are.
    pub(crate) fn of(bytes: &[u8]) -> Needle
        ensures { IsNeedleOf result bytes.now }
    {
        let len = bytes.len();
        Needle {
            len,
            number: Needle::number_of(&Joined::new(bytes, &[]), 0, len),
            leaving: Needle::leaving(len),
        }
    }

    /// The number of the window after the one that starts at a place.
    #[inline]
    fn rolled(&self, number: u64, text: &Joined, start: usize) -> u64
        requires number { number ≡ window_number text.now start self.now.len }
        requires leaving { IsLeaving self.now.leaving self.now.len }
        requires room { start + self.now.len < 2 ^ 64 }
        ensures { result ≡ window_number text.now (start + 1) self.now.len }
    {
        let entering = u64::from(byte_at(text, start + self.len));
        let left = u64::from(byte_at(text, start)) * self.leaving;
        (number * BASE + entering + left) % MODULUS
    }

    /// The first place in a range whose window has the needle's number.
    pub(crate) fn first_like(&self, text: &Joined, from: usize, to: usize) -> Option<usize>
        requires leaving { IsLeaving self.now.leaving self.now.len }
        requires some { from ≤ to }
        requires room { to + self.now.len < 2 ^ 64 }
        ensures { IsFirst (IsLike text.now self.now) from to result }
    {
        let mut number = Needle::number_of(text, from, self.len);
        'starts: for start in from..to {
            if number == self.number {
                return Some(start);
            }
            number = self.rolled(number, text, start);
        }
        None
    }

    /// The last place in a range whose window has the needle's number.
    pub(crate) fn last_like(&self, text: &Joined, from: usize, to: usize) -> Option<usize>
        requires leaving { IsLeaving self.now.leaving self.now.len }
        requires some { from ≤ to }
        requires room { to + self.now.len < 2 ^ 64 }
        ensures { IsLast (IsLike text.now self.now) from to result }
    {
        let mut number = Needle::number_of(text, from, self.len);
        let mut last = None;
        'starts: for start in from..to {
            if number == self.number {
                last = Some(start);
            }
            number = self.rolled(number, text, start);
        }
        last
    }
}
