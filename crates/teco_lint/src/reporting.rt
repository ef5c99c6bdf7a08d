//! Remarks as lines, with the places of the source.
ghost use Rattle.std.specs.Prelude.{◌≡◌, ◌≤◌, length};
ghost use Rattle.teco_messages.specs.Spot.{spot_of};

use crate::remarks::Remark;
use crate::sentences::{is_open_conditional, opening_of, show_remark};
use memchr::memchr;
use std::alloc::Global;
use std::fmt::Write;
use teco_core::{ESC, NoMemory};
use teco_messages::Spot;
use teco_scan::{Span, Text};

/// A place of a text that is gone over from left to right, with its line and its column.
#[derive(Clone, Copy)]
struct Walker {
    at: usize,
    spot: Spot,
}

impl Walker {
    fn new() -> Self {
        Self {
            at: 0,
            spot: Spot { line: 1, column: 1 },
        }
    }

    /// Goes on after a byte.
    fn pass(&mut self, byte: u8) {
        if byte == b'\n' {
            self.spot.line = self.spot.line.saturating_add(1);
            self.spot.column = 1;
        } else {
            self.spot.column = self.spot.column.saturating_add(1);
        }
    }

    /// The line and the column of a place; a place after the end is the end. The text is gone over anew if the place is an earlier one.
    fn spot_at(&mut self, text: &[u8], place: usize) -> Spot {
        let to = place.min(text.len());
        if to < self.at {
            self.at = 0;
            self.spot = Spot { line: 1, column: 1 };
        }
        for byte in &text[self.at..to] {
            self.pass(*byte);
        }
        self.at = to;
        self.spot
    }
}

/// The place of the source of a place of the commands.
fn place_in(places: Option<&[usize]>, source: &[u8], at: usize) -> usize {
    match places {
        Some(places) => places.get(at).copied().unwrap_or(source.len()),
        None => at,
    }
}

/// What is told of a conditional that isn't closed, where a source has no single quote: a shell takes each out of an argument between
/// single quotes.
const QUOTE: &str = "; between single quotes of a shell ' is spelled ^`";

/// Puts a line at the end that tells of the first ESC of a source, if it has one. It may be a file of bytes, whose dollar signs, carets
/// and line ends would be lost.
fn report_escape(out: &mut String, name: &str, source: &[u8]) -> Result<(), NoMemory> {
    let Some(at) = memchr(ESC, source) else {
        return Ok(());
    };
    let mut walker = Walker::new();
    let spot = walker.spot_at(source, at);
    write!(
        out,
        "{name}:{spot}: hint: a source has $ for this ESC; teco -b takes the bytes of a file as they are\n"
    )
}

/// Puts a line for each remark on a part of the commands at the end, with the name and the line and the column of its source.
///
/// `places` tells for each byte of the part where in the source it begins; without it the part is the source. An opening that is in
/// another part is not told. A hint on an ESC of the source comes first.
pub fn report_part(
    out: &mut String,
    name: &str,
    source: &[u8],
    places: Option<&[usize]>,
    commands: Text<'_>,
    part: Span,
    remarks: &[Remark],
) -> Result<(), NoMemory> {
    if places.is_some() {
        report_escape(out, name, source)?;
    }
    let lacks_quotes = places.is_some() && memchr(b'\'', source).is_none();
    let mut walker = Walker::new();
    let mut openings = Walker::new();
    for remark in remarks {
        if remark.at < part.from || remark.at >= part.to {
            continue;
        }
        let place = place_in(places, source, remark.at - part.from);
        let spot = walker.spot_at(source, place);
        let opening = match opening_of(remark) {
            Some(at) if at >= part.from => {
                Some(openings.spot_at(source, place_in(places, source, at - part.from)))
            }
            _ => None,
        };
        write!(out, "{name}:{spot}: ")?;
        show_remark(out, commands, remark, opening)?;
        if lacks_quotes && is_open_conditional(commands, remark) {
            out.push_str(QUOTE)?;
        }
        out.push_str("\n")?;
    }
    Ok(())
}

/// The lines that tell of a check of one source: a line for each remark.
///
/// `places` tells for each byte of the commands where in the source it begins; without it the commands are the source.
pub fn report(
    alloc: Global,
    name: &str,
    source: &[u8],
    places: Option<&[usize]>,
    commands: Text<'_>,
    remarks: &[Remark],
) -> Result<String, NoMemory> {
    let mut out = String::new(alloc);
    let whole = Span {
        from: 0,
        to: usize::MAX,
    };
    report_part(&mut out, name, source, places, commands, whole, remarks)?;
    Ok(out)
}
