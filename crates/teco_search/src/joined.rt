//! A text that lies in two halves.
ghost use Rattle.std.specs.Prelude.{◌≡◌, ◌++◌, ◌+◌, ◌^◌, ◌<◌, ◌≤◌, ℕ, List, length, slice_get, IfSome, IsTrue, ◌↔◌};
ghost use Rattle.memchr.specs.Find.{OccursAt, Passes, is_byte, IsFirst, IsLast};
ghost use Rattle.teco_search.specs.ByteSet.{AreBytes, contains};

use crate::byte_set::ByteSet;
use memchr::memchr;
use std::marker::Model;

/// Two slices, seen as the one text that they are together.
#[derive(Drop)]
pub(crate) struct Joined<'t> {
    before: &'t [u8],
    after: &'t [u8],
}

impl<'t> Model for Joined<'t> {
    ghost Value = { List ℕ };

    ghost view = { λ j. j.before.now ++ j.after.now };

    ghost invariant = { λ j. AreBytes (j.before.now ++ j.after.now) };
}

impl<'t> Joined<'t> {
    #[inline(always)]
    pub(crate) fn new(before: &'t [u8], after: &'t [u8]) -> Self
        ensures { result ≡ before.now ++ after.now }
    {
        Joined { before, after }
    }

    /// How many bytes the text has.
    #[inline]
    pub(crate) fn len(&self) -> usize
        ensures value { result ≡ length self.now }
        ensures room { result + 1 < 2 ^ 64 }
        ensures bytes { AreBytes self.now }
    {
        self.before.len() + self.after.len()
    }

    /// The byte at a place, if the text reaches it.
    #[inline]
    pub(crate) fn get(&self, at: usize) -> Option<u8>
        ensures value { result ≡ slice_get self.now at }
        ensures within { IfSome result (λ _. (at < length self.now) × (at + 1 < 2 ^ 64)) }
    {
        if at < self.before.len() {
            Some(self.before[at])
        } else {
            self.after.get(at - self.before.len()).copied()
        }
    }

    /// The two halves.
    #[inline(always)]
    pub(crate) fn halves(&self) -> (&'t [u8], &'t [u8])
        ensures { result.0.now ++ result.1.now ≡ self.now }
    {
        (self.before, self.after)
    }

    /// The first place at or after one that has this byte.
    #[inline(always)]
    pub(crate) fn first_byte(&self, byte: u8, from: usize) -> Option<usize>
        requires { from ≤ length self.now }
        ensures value { IsFirst (Passes (is_byte byte) self.now) from (length self.now) result }
        ensures within { IfSome result (λ place. place + 1 < 2 ^ 64) }
    {
        let cut = self.before.len();
        if from >= cut {
            let place = memchr(byte, &self.after[from - cut..])?;
            return Some(from + place);
        }
        if let Some(place) = memchr(byte, &self.before[from..]) {
            return Some(from + place);
        }
        let place = memchr(byte, self.after)?;
        Some(cut + place)
    }

    /// The first place at or after one whose byte is in a set.
    #[inline]
    pub(crate) fn first_of(&self, set: &ByteSet, from: usize) -> Option<usize>
        requires { from ≤ length self.now }
        ensures { IsFirst (Passes (contains set.now) self.now) from (length self.now) result }
    {
        let cut = self.before.len();
        if from >= cut {
            let place = set.first_in(&self.after[from - cut..])?;
            return Some(from + place);
        }
        if let Some(place) = set.first_in(&self.before[from..]) {
            return Some(from + place);
        }
        let place = set.first_in(self.after)?;
        Some(cut + place)
    }

    /// The last place before one whose byte is in a set.
    #[inline]
    pub(crate) fn last_of(&self, set: &ByteSet, to: usize) -> Option<usize>
        requires { to ≤ length self.now }
        ensures { IsLast (Passes (contains set.now) self.now) 0 to result }
    {
        let cut = self.before.len();
        if to <= cut {
            return set.last_in(&self.before[..to]);
        }
        if let Some(place) = set.last_in(&self.after[..to - cut]) {
            return Some(cut + place);
        }
        set.last_in(self.before)
    }

    /// Whether a place has these bytes.
    pub(crate) fn has(&self, at: usize, bytes: &[u8]) -> bool
        ensures holds { IsTrue result ↔ OccursAt self.now bytes.now at }
        ensures within { IsTrue result → at + length bytes.now < 2 ^ 64 }
    {
        let len = self.len();
        if at > len || bytes.len() > len - at {
            return false;
        }
        'bytes: for (i, byte) in bytes.iter().enumerate() {
            if self.get(at + i) != Some(*byte) {
                return false;
            }
        }
        true
    }
}
