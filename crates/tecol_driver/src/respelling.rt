//! Changes of commands, made in their source.
ghost use Rattle.std.specs.Prelude.{◌≡◌, ◌≤◌, ◌++◌, length, IfOk, OnOk};
ghost use Rattle.tecol_driver.specs.Respelling.{done_after, next_place, source_place, source_places, change_bytes, respelled, source_byte, byte_spelled};

use crate::synonyms::Change;
use std::alloc::Global;
use teco_core::NoMemory;

/// A source. `places` tells for each byte of its commands where in it that begins; without it the commands are the source.
#[derive(Clone, Copy)]
pub struct Source<'a> {
    pub bytes: &'a [u8],
    pub places: Option<&'a [usize]>,
}

/// Where in a source a byte of the commands begins, not before this place.
fn source_place(source: Source<'_>, at: usize, least: usize) -> usize
    requires { least ≤ length source.bytes.now }
    ensures place { result ≡ source_place source.entry.bytes.now (source_places source.entry) at least }
    ensures within { (least ≤ result) × (result ≤ length source.entry.bytes.now) }
{
    let place = match source.places {
        Some(places) => places.get(at).copied().unwrap_or(source.bytes.len()),
        None => at,
    };
    place.max(least).min(source.bytes.len())
}

/// The place after the byte of the commands that begins at a place of the source: a caret has a byte after it.
fn next_place(source: Source<'_>, place: usize) -> usize
    requires { place ≤ length source.bytes.now }
    ensures place { result ≡ next_place source.entry.bytes.now (source_places source.entry) place }
    ensures within { result ≤ length source.entry.bytes.now }
{
    let is_marked = source.places.is_some() && source.bytes.get(place) == Some(&b'^');
    let long = if is_marked { 2 } else { 1 };
    (place + long).min(source.bytes.len())
}

/// The place up to which a source is done after a change at a place.
fn done_after(source: Source<'_>, stays: bool, place: usize) -> usize
    requires { place ≤ length source.bytes.now }
    ensures done { result ≡ done_after source.entry.bytes.now (source_places source.entry) stays place }
    ensures within { result ≤ length source.entry.bytes.now }
{
    if stays {
        place
    } else {
        next_place(source, place)
    }
}

/// Puts a byte at the end, as a source has it wherever it stands.
fn push_source_byte(out: &mut Vec<u8>, byte: u8) -> Result<(), NoMemory>
    ensures { OnOk result (out.new.items ≡ out.old.items ++ source_byte byte) }
{
    match byte {
        0..32 => out.extend_from_slice(&[b'^', byte + 64]),
        b'!' | b'$' => out.extend_from_slice(&[b'^', byte]),
        b'^' => out.extend_from_slice(b"^~"),
        127 => out.extend_from_slice(b"^?"),
        _ => out.extend_from_slice(&[byte]),
    }
}

/// The same, or the byte itself where the commands are the source.
fn push_byte(out: &mut Vec<u8>, source: Source<'_>, byte: u8) -> Result<(), NoMemory>
    ensures { OnOk result (out.new.items ≡ out.old.items ++ byte_spelled (source_places source.entry) byte) }
{
    match source.places {
        Some(_) => push_source_byte(out, byte),
        None => out.extend_from_slice(&[byte]),
    }
}

/// Puts what comes by a change at the end.
fn push_change(out: &mut Vec<u8>, source: Source<'_>, change: Change) -> Result<(), NoMemory>
    ensures { OnOk result (out.new.items ≡ out.old.items ++ change_bytes (source_places source.entry) change) }
{
    push_byte(out, source, change.first)?;
    match change.second {
        Some(second) => push_byte(out, source, second),
        None => Ok(()),
    }
}

/// The source with the changes made, which come in the order of their places.
#[tactic(auto, unfolding(crate::specs::Respelling::respelled_from))]
pub fn respelled(alloc: Global, source: Source<'_>, changes: &[Change]) -> Result<Vec<u8>, NoMemory>
    ensures { IfOk result (λ new. new.items ≡ respelled source.entry.bytes.now (source_places source.entry) changes.now) }
{
    let mut out = Vec::new(alloc);
    let mut done = 0;
    for change in changes {
        let place = source_place(source, change.at, done);
        out.extend_from_slice(&source.bytes[done..place])?;
        push_change(&mut out, source, *change)?;
        done = done_after(source, change.stays, place);
    }
    out.extend_from_slice(&source.bytes[done..])?;
    Ok(out)
}
