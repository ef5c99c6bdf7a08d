//! Searching bytes that admit themselves alone, in each half at the speed of a substring search.
ghost use Rattle.std.specs.Prelude.{◌≡◌, ◌+◌, ◌^◌, ◌<◌, ◌≤◌, length, IfSome};
ghost use Rattle.memchr.specs.Find.{IsFirst, IsLast, OccursAt, FindsNeedle, FindsLastNeedleBy};

use crate::joined::Joined;
use crate::window::Needle;
use memchr::memmem::{Finder, FinderRev};

/// So many starts are looked at one by one. More are told by their numbers, which takes as long as some 30 comparisons.
const FEW: usize = 32;

/// The first place in a range that has the bytes, by comparing them at each.
fn first_compared(text: &Joined, bytes: &[u8], from: usize, to: usize) -> Option<usize>
    ensures { IsFirst (OccursAt text.now bytes.now) from to result }
{
    'starts: for start in from..to {
        if text.has(start, bytes) {
            return Some(start);
        }
    }
    None
}

/// The first place in a range that has the bytes, by comparing them where the window has their number.
fn first_told(text: &Joined, bytes: &[u8], from: usize, to: usize) -> Option<usize>
    requires { to + length bytes.now < 2 ^ 64 }
    ensures { IsFirst (OccursAt text.now bytes.now) from to result }
{
    let needle = Needle::of(bytes);
    let mut start = from;
    'starts: while start < to {
        let Some(like) = needle.first_like(text, start, to) else {
            return None;
        };
        if text.has(like, bytes) {
            return Some(like);
        }
        start = like + 1;
    }
    None
}

/// The first place in a range that has the bytes.
fn first_across(text: &Joined, bytes: &[u8], from: usize, to: usize) -> Option<usize>
    ensures { IsFirst (OccursAt text.now bytes.now) from to result }
{
    let end = to.min((text.len() + 1).saturating_sub(bytes.len()));
    if end.saturating_sub(from) <= FEW {
        first_compared(text, bytes, from, end)
    } else {
        first_told(text, bytes, from, end)
    }
}

/// The last place in a range that has the bytes, by comparing them at each.
fn last_compared(text: &Joined, bytes: &[u8], from: usize, to: usize) -> Option<usize>
    ensures { IsLast (OccursAt text.now bytes.now) from to result }
{
    let mut start = to;
    'starts: while start > from {
        start -= 1;
        if text.has(start, bytes) {
            return Some(start);
        }
    }
    None
}

/// The last place in a range that has the bytes, by comparing them where the window has their number.
fn last_told(text: &Joined, bytes: &[u8], from: usize, to: usize) -> Option<usize>
    requires { to + length bytes.now < 2 ^ 64 }
    ensures { IsLast (OccursAt text.now bytes.now) from to result }
{
    let needle = Needle::of(bytes);
    let mut end = to;
    'ends: while from < end {
        let Some(like) = needle.last_like(text, from, end) else {
            return None;
        };
        if text.has(like, bytes) {
            return Some(like);
        }
        end = like;
    }
    None
}

/// The last place in a range that has the bytes.
fn last_across(text: &Joined, bytes: &[u8], from: usize, to: usize) -> Option<usize>
    ensures { IsLast (OccursAt text.now bytes.now) from to result }
{
    let end = to.min((text.len() + 1).saturating_sub(bytes.len()));
    if end.saturating_sub(from) <= FEW {
        last_compared(text, bytes, from, end)
    } else {
        last_told(text, bytes, from, end)
    }
}

/// The first place at or after one that has the bytes. The starts whose match lies across both halves are looked at apart.
pub(crate) fn first_from(finder: &Finder, text: &Joined, from: usize) -> Option<usize>
    requires some { 0 < length finder.now }
    requires within { from ≤ length text.now }
    ensures value { FindsNeedle text.now finder.now from result }
    ensures fits { IfSome result (λ start. start + length finder.now < 2 ^ 64) }
{
    let (before, after) = text.halves();
    let cut = before.len();
    if from >= cut {
        let start = finder.find(&after[from - cut..])?;
        return Some(from + start);
    }
    if let Some(start) = finder.find(&before[from..]) {
        return Some(from + start);
    }
    let bytes = finder.needle();
    let across = cut.saturating_sub(bytes.len() - 1);
    if let Some(start) = first_across(text, bytes, from.max(across), cut) {
        return Some(start);
    }
    let start = finder.find(after)?;
    Some(cut + start)
}

/// The last place that has the bytes, where they end at or before another.
pub(crate) fn last_by(finder: &FinderRev, text: &Joined, to: usize) -> Option<usize>
    requires some { 0 < length finder.now }
    requires within { to ≤ length text.now }
    ensures { FindsLastNeedleBy text.now finder.now to result }
{
    let (before, after) = text.halves();
    let cut = before.len();
    if to <= cut {
        return finder.rfind(&before[..to]);
    }
    if let Some(start) = finder.rfind(&after[..to - cut]) {
        return Some(cut + start);
    }
    let bytes = finder.needle();
    let across = cut.saturating_sub(bytes.len() - 1);
    let end = cut.min(to.saturating_sub(bytes.len() - 1));
    if let Some(start) = last_across(text, bytes, across, end) {
        return Some(start);
    }
    finder.rfind(before)
}
