//! Pages of the input, and how they are written.
ghost use Rattle.std.specs.Prelude.{◌≡◌, ◌+◌, ◌-◌, ◌<◌, ◌≤◌, ◌^◌, ◌++◌, ◌↔◌, length, take, drop, OnOk, OnErr, IsTrue, if◌then◌else◌};
ghost use Rattle.std.specs.Vec.{vec_capacity};
ghost use Rattle.teco_gap.specs.Gap.{text};
ghost use Rattle.teco_store.specs.Page.{page_of, is_ended, form_feed_if};
ghost use Rattle.teco_store.specs.State.{IsEnd};

use memchr::{memchr, memchr3};
use teco_core::FILE_LIMIT;
use teco_gap::GapBuffer;

const LINE_FEED: u8 = 10;

const VERTICAL_TAB: u8 = 11;

const FORM_FEED: u8 = 12;

/// A page of the input, and whether a form feed ended it.
#[derive(Clone, Copy)]
pub(crate) struct Page<'a> {
    pub(crate) bytes: &'a [u8],
    pub(crate) form_feed: bool,
}

/// How many bytes the next page has, and whether a form feed ends it.
#[derive(Clone, Copy)]
pub struct PageSpan {
    pub len: usize,
    pub form_feed: bool,
}

// The next page of what is left of the input. No more than the page is looked at, and the byte after it.
pub(crate) fn next_page(left: &[u8], lines: usize) -> Page<'_>
    ensures bytes { result.bytes.now ≡ page_of lines left.now }
    ensures form_feed { result.form_feed ≡ is_ended lines left.now }
    ensures within { length result.bytes.now + (if result.form_feed then 1 else 0) ≤ length left.now }
{
    if lines == 0 {
        page_to_form_feed(left)
    } else {
        page_of_lines(left, lines)
    }
}

// The next page, where lines don't end it.
fn page_to_form_feed(left: &[u8]) -> Page<'_>
    ensures bytes { result.bytes.now ≡ page_of 0 left.now }
    ensures form_feed { result.form_feed ≡ is_ended 0 left.now }
    ensures within { length result.bytes.now + (if result.form_feed then 1 else 0) ≤ length left.now }
{
    match memchr(FORM_FEED, left) {
        None => Page {
            bytes: left,
            form_feed: false,
        },
        Some(end) => Page {
            bytes: &left[..end],
            form_feed: true,
        },
    }
}

// The next page, where it ends after so many lines too.
fn page_of_lines(left: &[u8], lines: usize) -> Page<'_>
    requires { 0 < lines }
    ensures bytes { result.bytes.now ≡ page_of lines left.now }
    ensures form_feed { result.form_feed ≡ is_ended lines left.now }
    ensures within { length result.bytes.now + (if result.form_feed then 1 else 0) ≤ length left.now }
{
    let mut end = 0;
    for _line in 0..lines {
        let Some(more) = memchr3(LINE_FEED, VERTICAL_TAB, FORM_FEED, &left[end..]) else {
            return Page {
                bytes: left,
                form_feed: false,
            };
        };
        let at = end + more;
        if left[at] == FORM_FEED {
            return Page {
                bytes: &left[..at],
                form_feed: true,
            };
        }
        end = at + 1;
    }
    Page {
        bytes: &left[..end],
        form_feed: false,
    }
}

// Puts a page in place of the text of a buffer, which has room for it.
pub(crate) fn replace_text(buffer: &mut GapBuffer, page: &[u8])
    requires { length page.now ≤ buffer.old.cap }
    ensures text { text buffer.new ≡ page.now }
    ensures cap { buffer.new.cap ≡ buffer.old.cap }
{
    let len = buffer.len();
    buffer.splice(0, len, page);
}

/// Whether so many more bytes would pass a limit.
pub fn is_past(limit: usize, there: usize, more: usize) -> bool
    requires { there ≤ limit }
    ensures { IsTrue result ↔ (limit < there + more) }
{
    more > limit - there
}

// A form feed, where one is to be written.
pub(crate) fn form_feed_bytes(form_feed: bool) -> &'static [u8]
    ensures { result.now ≡ form_feed_if form_feed }
{
    if form_feed { b"\x0c" } else { b"" }
}

// Appends bytes for which there is room.
pub(crate) fn append_within(bytes: &mut Vec<u8>, more: &[u8])
    requires { length bytes.old.items + length more.now ≤ vec_capacity bytes.old }
    ensures items { bytes.new.items ≡ bytes.old.items ++ more.now }
    ensures capacity { vec_capacity bytes.old ≤ vec_capacity bytes.new }
{
    if bytes.extend_from_slice(more).is_err() {
        unreachable!();
    }
}

// Where an output of so many bytes ends once more are written; none where that is past the limit.
pub(crate) fn end_after(shown: usize, more: usize) -> Option<usize>
    requires { shown ≤ FILE_LIMIT }
    ensures { IsEnd result (shown + more) }
{
    if is_past(FILE_LIMIT, shown, more) {
        return None;
    }
    Some(shown + more)
}

/// The bytes between two places of a text in two parts, in two parts.
pub fn part<'a>(before: &'a [u8], after: &'a [u8], from: usize, to: usize) -> (&'a [u8], &'a [u8])
    requires ordered { from ≤ to }
    requires there { to ≤ length (before.now ++ after.now) }
    ensures joined { result.0.now ++ result.1.now ≡ drop from (take to (before.now ++ after.now)) }
    ensures long { length result.0.now + length result.1.now ≡ to - from }
{
    let middle = before.len();
    (
        &before[from.min(middle)..to.min(middle)],
        &after[from.saturating_sub(middle)..to.saturating_sub(middle)],
    )
}
