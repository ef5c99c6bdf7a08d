//! Bytes in memory of their own. Where memory was refused, it is asked for a second time.
use std::alloc::Global;
use teco_core::Profile;
use teco_io::{FailAfter, WriterTerminal};
use teco_scan::Text;

/// Puts a part at the end.
pub(crate) fn put(bytes: &mut Vec<u8>, part: &[u8]) {
    let _ = bytes.extend_from_slice(part).is_ok() || bytes.extend_from_slice(part).is_ok();
}

/// Parts after one another.
pub(crate) fn joined(alloc: Global, parts: &[&[u8]]) -> Vec<u8> {
    let mut bytes = Vec::new(alloc);
    for part in parts {
        put(&mut bytes, part);
    }
    bytes
}

/// Whether bytes are these.
pub(crate) fn are(bytes: &[u8], wanted: &[u8]) -> bool {
    bytes == wanted
}

/// Whether there are bytes, and they are these.
pub(crate) fn are_there(found: Option<&[u8]>, wanted: &[u8]) -> bool {
    match found {
        Some(bytes) => are(bytes, wanted),
        None => false,
    }
}

/// Whether a text is this.
pub(crate) fn is(text: &str, wanted: &str) -> bool {
    text == wanted
}

/// Whether a text has this in it.
pub(crate) fn has(text: &str, part: &str) -> bool {
    text.contains(part)
}

/// The first byte of a text, or 0.
pub(crate) fn first_of(text: &str) -> u8 {
    match text.as_bytes() {
        [first, ..] => *first,
        [] => 0,
    }
}

/// A terminal that shows what it is given, as far as it has room. All tests that run strings have this one.
pub(crate) type Screen = WriterTerminal<FailAfter>;

/// A screen that takes so many bytes, and then fails.
pub(crate) fn screen_of(alloc: Global, room: usize) -> Screen {
    let mut bytes = Vec::new(alloc);
    let _ = bytes.resize(room, 0).is_ok() || bytes.resize(room, 0).is_ok();
    WriterTerminal::new(FailAfter::new(bytes))
}

/// A screen with room for all that a test types.
pub(crate) fn wide_screen(alloc: Global) -> Screen {
    screen_of(alloc, 10_000)
}

/// What a screen shows.
pub(crate) fn shown_on(screen: &Screen) -> &[u8] {
    screen.sink().before()
}

/// Whether a screen shows this text alone.
pub(crate) fn is_typed(screen: &Screen, typed: &str) -> bool {
    are(shown_on(screen), typed.as_bytes())
}

/// Whether two parts are these bytes, one after the other.
pub(crate) fn are_both(parts: (&[u8], &[u8]), bytes: &[u8]) -> bool {
    let (front, rest) = bytes.split_at(parts.0.len().min(bytes.len()));
    are(parts.0, front) && are(parts.1, rest)
}

/// Bytes that are read in the language that is meant where none is said.
pub(crate) fn named_text(bytes: &[u8]) -> Text<'_> {
    Text {
        profile: Profile::Named,
        bytes,
    }
}
