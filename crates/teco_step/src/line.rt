//! Places of lines.
ghost use Rattle.std.specs.Prelude.{◌≡◌, ◌<◌, ◌≤◌, ◌++◌, length, drop, take, reverse, slice_get, slice_index};
ghost use Rattle.teco_step.specs.Line.{one_past, line, line_ends_from};

use teco_search::{first_line_end, last_line_end};

/// The byte at a place of a text in two halves.
pub(crate) fn byte_at(before: &[u8], after: &[u8], place: usize) -> u8
    requires { place < length (before.now ++ after.now) }
    ensures { result ≡ slice_index (before.now ++ after.now) place }
{
    if place < before.len() {
        return before[place];
    }
    after[place - before.len()]
}

/// One past the first line end from a place on, after passing over `skip` of them; the length where there are fewer.
fn line_ahead(before: &[u8], after: &[u8], from: usize, skip: u32) -> usize
    requires { from ≤ length (before.now ++ after.now) }
    ensures value { let text = before.now ++ after.now in
        result ≡ one_past (slice_get (line_ends_from from (drop from text)) skip) (length text) }
    ensures within { result ≤ length (before.now ++ after.now) }
{
    let mut left = skip;
    let mut place = from;
    'ends: while let Some(end) = first_line_end((before, after), place) {
        if left == 0 {
            return end + 1;
        }
        left -= 1;
        place = end + 1;
    }
    before.len() + after.len()
}

/// One past the last line end before a place, after passing over `skip` of them backward; 0 where there are fewer.
fn line_back(before: &[u8], after: &[u8], from: usize, skip: u32) -> usize
    requires { from ≤ length (before.now ++ after.now) }
    ensures value { let text = before.now ++ after.now in
        result ≡ one_past (slice_get (reverse (line_ends_from 0 (take from text))) skip) 0 }
    ensures within { result ≤ length (before.now ++ after.now) }
{
    let mut left = skip;
    let mut place = from;
    'ends: while let Some(end) = last_line_end((before, after), place) {
        if left == 0 {
            return end + 1;
        }
        left -= 1;
        place = end;
    }
    0
}

/// The place of line `n`, as seen from a place of a text in two halves. Takes no memory, and the time of the way there.
pub fn line_place(before: &[u8], after: &[u8], from: usize, n: i32) -> usize
    requires { from ≤ length (before.now ++ after.now) }
    ensures value { result ≡ line (before.now ++ after.now) from n }
    ensures within { result ≤ length (before.now ++ after.now) }
{
    let skip = n.unsigned_abs();
    if n > 0 {
        return line_ahead(before, after, from, skip - 1);
    }
    line_back(before, after, from, skip)
}
