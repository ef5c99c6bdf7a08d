//! Listings: a text as the lines of a source.
ghost use Rattle.std.specs.Prelude.{◌≡◌, ◌<◌, ◌≤◌, length, take, Ok, OnOk, IfOk};
ghost use Rattle.teco_source.specs.Source.{start, run, commands_of};
ghost use Rattle.teco_source.specs.Listing.{line_mode, between};

use crate::layout::{Layout, ListingLine};
use crate::notes::push_words;
use crate::reader::ends_line;
use crate::{Mode, Note, push_line, source_laws};
use std::alloc::Global;
use teco_core::{NoMemory, Profile};

/// Where a reader is before the next line, when it has read the text up to a place.
fn line_mode(text: &[u8], at: usize) -> Mode
    requires { at ≤ length text.now }
    ensures { result ≡ line_mode (take at text.now) }
{
    let before = &text[..at];
    if before.is_empty() {
        return Mode::First;
    }
    if ends_line(before) {
        Mode::Blank
    } else {
        Mode::Margin
    }
}

/// The columns of a line before its note.
fn columns(bytes: &[u8], margin: usize) -> usize {
    let mut columns = margin;
    for byte in bytes {
        let width = match *byte {
            27 => 1,
            0..32 | b'$' | b'^' | 127 => 2,
            _ => 1,
        };
        columns = columns.saturating_add(width);
    }
    columns
}

/// The column at which notes begin, where a line leaves room.
const NOTES: usize = 40;

/// How long a line may become before it is broken, where it has no note.
const WIDTH: usize = 40;

/// Writes a line that says the text from a place up to the line's end, and has words as its note, if there are any.
fn push_part(
    out: &mut Vec<u8>,
    text: &[u8],
    at: usize,
    line: ListingLine,
    words: &[u8],
) -> Result<(), NoMemory>
    requires { (at < line.to) × (line.to ≤ length text.now) }
    ensures { run start out.old.items ≡ between (take at text.now)
        → OnOk result (run start out.new.items ≡ between (take line.to text.now)) }
{
    let part = &text[at..line.to];
    let mode = line_mode(text, at);
    let margin = match mode {
        Mode::Margin => line.margin,
        _ => 0,
    };
    let note = if words.is_empty() {
        None
    } else {
        Some(Note {
            spaces: NOTES.saturating_sub(columns(part, margin)),
            text: words,
        })
    };
    push_line(out, mode, margin, part, note)
}

/// A source of a text, whose lines go by its commands and blocks in a profile. With words each line has what its commands do as a note.
///
/// Whatever the lines and the notes are, the source stands for the text.
pub fn listing(
    alloc: Global,
    profile: Profile,
    text: &[u8],
    with_words: bool,
) -> Result<Vec<u8>, NoMemory>
    ensures { IfOk result (λ v. commands_of v.items ≡ Ok text.now) }
{
    source_laws();
    let mut out = Vec::new(alloc);
    let mut layout = Layout::new(profile, if with_words { 0 } else { WIDTH });
    let mut at = 0;
    while at < text.len() {
        let line = layout.next_line(text, at);
        let mut words = Vec::new(alloc);
        if with_words {
            push_words(&mut words, profile, text, at, line.told)?;
        }
        push_part(&mut out, text, at, line, &words)?;
        at = line.to;
    }
    Ok(out)
}
