//! The stream of commands: where a text ends, and whether it asks a move in the history.
ghost use Rattle.std.specs.List.{list_all, prefix_len, suffix_len};
ghost use Rattle.std.specs.Prelude.{◌≡◌, ◌+◌, ◌-◌, ◌≤◌, ◌<◌, [], length, take, drop, slice_index, MatchOption, IsTrue};
ghost use Rattle.teco_core.specs.Ascii.{is_digit};
ghost use Rattle.teco_core.specs.Number.{digits_value};
ghost use Rattle.teco_core.specs.declared.ascii.TheConstants.{ESC};
ghost use Rattle.teco_scan.specs.Stream.{IsText, asks_history, ends_in_escape, history_asked, move_asked, texts_of, times, without_fillers_after, without_fillers_before};

use teco_core::{ESC, decimal, is_filler};

/// The byte that asks undos.
pub const UNDO: u8 = b'{';
/// The byte that asks redos.
pub const REDO: u8 = b'}';
/// The byte that asks a rewind.
pub const REWIND: u8 = b'~';

/// A move in the history, which a text of the stream asks.
#[derive(Clone, Copy)]
pub enum HistoryMove {
    /// So many undos.
    Undo(u32),
    /// So many redos.
    Redo(u32),
    /// A rewind to this step.
    Rewind(u32),
}

fn after_fillers(bytes: &[u8]) -> &[u8]
    ensures { result.now ≡ without_fillers_before bytes.now }
{
    let mut start = 0;
    while start < bytes.len() && is_filler(bytes[start]) {
        start += 1;
    }
    &bytes[start..]
}

fn before_fillers(bytes: &[u8]) -> &[u8]
    ensures { result.now ≡ without_fillers_after bytes.now }
{
    let mut end = bytes.len();
    while end > 0 && is_filler(bytes[end - 1]) {
        end -= 1;
    }
    &bytes[..end]
}

fn are_digits(bytes: &[u8]) -> bool
    ensures { result ≡ list_all is_digit bytes.now }
{
    bytes.iter().all(|byte| byte.is_ascii_digit())
}

/// The number that the digits say, of which there are at most 9; 0 where there are none.
fn number(digits: &[u8]) -> u32
    requires few { length digits.now ≤ 9 }
    requires digits { IsTrue (list_all is_digit digits.now) }
    ensures { result ≡ digits_value 0 digits.now }
{
    match decimal(digits) {
        Ok(number) => number as u32,
        // Nine digits say no number above the range.
        Err(_) => unreachable!(),
    }
}

/// How often: the number that the digits say, once where there are none.
fn times(digits: &[u8]) -> u32
    requires few { length digits.now ≤ 9 }
    requires digits { IsTrue (list_all is_digit digits.now) }
    ensures { result ≡ times digits.now }
{
    if digits.is_empty() { 1 } else { number(digits) }
}

/// The move that the bytes ask, if they are at most 9 digits and a brace or a tilde.
fn history_asked(bytes: &[u8]) -> Option<HistoryMove>
    ensures { result ≡ history_asked bytes.now }
{
    let (last, digits) = bytes.split_last()?;
    if digits.len() > 9 || !are_digits(digits) {
        return None;
    }
    match *last {
        UNDO => Some(HistoryMove::Undo(times(digits))),
        REDO => Some(HistoryMove::Redo(times(digits))),
        REWIND => Some(HistoryMove::Rewind(number(digits))),
        _ => None,
    }
}

/// The move in the history that a text asks, which ends in the first ESC of its pair. None where it asks to be run.
pub fn move_asked(text: &[u8]) -> Option<HistoryMove>
    ensures { result ≡ move_asked text.now }
{
    let (_, body) = text.split_last()?;
    history_asked(before_fillers(after_fillers(body)))
}

/// Whether the last byte is an ESC.
pub fn ends_in_escape(bytes: &[u8]) -> bool
    ensures { result ≡ ends_in_escape bytes.now }
{
    match bytes.split_last() {
        Some((last, _)) => *last == ESC,
        None => false,
    }
}

/// The place of the second ESC of the leftmost pair, if there is a pair. No pair ends before `from`.
pub fn pair_end(bytes: &[u8], from: usize) -> Option<usize>
    requires within { from ≤ length bytes.now }
    requires none { texts_of (take from bytes.now) ≡ [] }
    ensures { MatchOption result (texts_of bytes.now ≡ [])
        (λ at. (at < length bytes.now) × (slice_index bytes.now at ≡ ESC) × IsText (take at bytes.now)) }
{
    let mut escape = ends_in_escape(&bytes[..from]);
    for at in from..bytes.len() {
        let is_escape = bytes[at] == ESC;
        if is_escape && escape {
            return Some(at);
        }
        escape = is_escape;
    }
    None
}

/// Whether a text of the stream asks an undo, a redo or a rewind.
pub fn asks_history(commands: &[u8]) -> bool
    ensures { result ≡ asks_history commands.now }
{
    let mut start = 0;
    while let Some(at) = pair_end(&commands[start..], 0) {
        if move_asked(&commands[start..start + at]).is_some() {
            return true;
        }
        start += at + 1;
    }
    false
}
