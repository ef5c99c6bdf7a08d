//! Writing a source.
ghost use Rattle.std.specs.Prelude.{◌≡◌, ◌<◌, ◌++◌, [], ◌∷◌, OnOk, ℕ, List, length, map};
ghost use Rattle.teco_source.specs.Source.{start, run};
ghost use Rattle.teco_source.specs.Listing.{is_guarded, mode_after, in_comment, spelling, spelled_end, spelled, spaces, margin_of, note_of, note_in, line_mode, line_written, between};

use crate::reader::Mode;
use teco_core::NoMemory;

/// A comment, and how many spaces come before it.
#[derive(Clone, Copy)]
pub struct Note<'a> {
    pub spaces: usize,
    pub text: &'a [u8],
}

/// Whether a reader in this mode would take the byte for layout, or for the beginning of a comment.
fn is_guarded(mode: Mode, byte: u8) -> bool
    ensures { result ≡ is_guarded mode byte }
{
    match mode {
        Mode::First => byte == b' ' || byte == b'#',
        Mode::Margin => byte == b' ',
        _ => false,
    }
}

fn push_marked(out: &mut Vec<u8>, second: u8) -> Result<(), NoMemory>
    ensures { OnOk result (out.new.items ≡ out.old.items ++ 94 ∷ second ∷ []) }
{
    out.extend_from_slice(&[b'^', second])
}

/// Writes a byte, where a reader is in this mode.
fn spell_byte(out: &mut Vec<u8>, mode: Mode, byte: u8) -> Result<(), NoMemory>
    ensures { OnOk result (out.new.items ≡ out.old.items ++ spelling mode byte) }
{
    match byte {
        27 => return out.extend_from_slice(b"$"),
        0..32 => return push_marked(out, byte + 64),
        b'$' => return push_marked(out, b'$'),
        b'^' => return push_marked(out, b'~'),
        127 => return push_marked(out, b'?'),
        b'!' if matches!(mode, Mode::Mark) => return push_marked(out, b'!'),
        _ => {}
    }
    if is_guarded(mode, byte) {
        return out.extend_from_slice(&[b'^', b'.', byte]);
    }
    out.extend_from_slice(&[byte])
}

/// Where a reader is after a byte that was written so.
fn mode_after(mode: Mode, byte: u8) -> Mode
    ensures { result ≡ mode_after mode byte }
{
    match byte {
        b' ' => Mode::Blank,
        b'!' if !matches!(mode, Mode::Text | Mode::Mark) => Mode::Mark,
        _ => Mode::Text,
    }
}

/// Keeps a blank at the end of bytes.
fn push_end(out: &mut Vec<u8>, mode: Mode) -> Result<(), NoMemory>
    ensures { OnOk result (out.new.items ≡ out.old.items ++ spelled_end mode) }
{
    match mode {
        Mode::Blank => push_marked(out, b'.'),
        _ => Ok(()),
    }
}

/// Writes bytes; `^.` keeps a blank at their end.
pub fn spell(out: &mut Vec<u8>, mut mode: Mode, bytes: &[u8]) -> Result<(), NoMemory>
    ensures { OnOk result (out.new.items ≡ out.old.items ++ spelled mode bytes.now) }
{
    for byte in bytes {
        spell_byte(out, mode, *byte)?;
        mode = mode_after(mode, *byte);
    }
    push_end(out, mode)
}

fn push_spaces(out: &mut Vec<u8>, count: usize) -> Result<(), NoMemory>
    ensures { OnOk result (out.new.items ≡ out.old.items ++ spaces count) }
{
    for _ in 0..count {
        out.push(b' ')?;
    }
    Ok(())
}

fn push_margin(out: &mut Vec<u8>, mode: Mode, count: usize) -> Result<(), NoMemory>
    ensures { OnOk result (out.new.items ≡ out.old.items ++ margin_of mode count) }
{
    match mode {
        Mode::Margin => push_spaces(out, count),
        _ => Ok(()),
    }
}

fn push_comment(out: &mut Vec<u8>, text: &[u8]) -> Result<(), NoMemory>
    ensures { OnOk result (out.new.items ≡ out.old.items ++ map in_comment text.now) }
{
    for byte in text {
        out.push(if *byte == b'\n' { b' ' } else { *byte })?;
    }
    Ok(())
}

fn push_note(out: &mut Vec<u8>, note: Option<Note>) -> Result<(), NoMemory>
    ensures { OnOk result (out.new.items ≡ out.old.items ++ note_of (note_in note.entry)) }
{
    let Some(note) = note else {
        return Ok(());
    };
    push_spaces(out, note.spaces)?;
    out.extend_from_slice(b" !!")?;
    push_comment(out, note.text)
}

fn write_line(
    out: &mut Vec<u8>,
    mode: Mode,
    margin: usize,
    bytes: &[u8],
    note: Option<Note>,
) -> Result<(), NoMemory>
    ensures { OnOk result (out.new.items ≡ out.old.items ++ line_written mode margin bytes.now (note_in note.entry)) }
{
    push_margin(out, mode, margin)?;
    spell(out, mode, bytes)?;
    push_note(out, note)?;
    out.extend_from_slice(b"\n")
}

/// Writes a line that says some bytes more of a text.
///
/// The mode is that of a reader before the line. Where it is not in the margin the line has none. Whatever the margin and the note
/// are, the line says the bytes.
#[tactic(auto, using(crate::proofs::Writing::line_says))]
pub fn push_line(
    out: &mut Vec<u8>,
    mode: Mode,
    margin: usize,
    bytes: &[u8],
    note: Option<Note>,
) -> Result<(), NoMemory>
    requires some { 0 < length bytes.now }
    ensures written { OnOk result (out.new.items ≡ out.old.items ++ line_written mode margin bytes.now (note_in note.entry)) }
    ensures says { (text : List ℕ) → mode ≡ line_mode text → run start out.old.items ≡ between text
        → OnOk result (run start out.new.items ≡ between (text ++ bytes.now)) }
{
    write_line(out, mode, margin, bytes, note)
}
