//! The parts of a state, shown.
ghost use Rattle.std.specs.List.{flat_map};
ghost use Rattle.std.specs.Prelude.{◌≡◌, ◌≤◌, ◌++◌, OnOk, drop, length, take};
ghost use Rattle.std.specs.String.{string_bytes};
ghost use Rattle.teco_core.specs.Register.{content, register_of};
ghost use Rattle.teco_core.specs.declared.limits.TheConstants.{FILE_LIMIT};
ghost use Rattle.teco_debugger.specs.Listing.{flags_shown, held_shown, if_held_shown, is_blank_content, is_line_ended, language_shown, last_search_shown, last_shown, line_if, lines_shown, lines_there_shown, register_shown, registers_shown, rest_shown, shown_in_lines, sizes_shown, state_shown, text_shown, whole_register, with_line_end};
ghost use Rattle.teco_store.specs.State.{state_of};

use std::fmt::Write;
use teco_core::{CaseMode, NoMemory, Profile, Reg, Registers};
use teco_messages::{letter, spell, spell_byte};
use teco_step::line_place;
use teco_store::{Desk, Editor, part};

/// The most bytes that are shown of a register's text among others.
pub const MOST_SHOWN: usize = 40;

/// The names of the registers, in the order in which they are listed.
const NAMES: &[u8; 36] = b"ABCDEFGHIJKLMNOPQRSTUVWXYZ0123456789";

/// Spells a byte; a line feed begins a new line.
fn spell_in_lines(out: &mut String, byte: u8) -> Result<(), NoMemory>
    ensures { OnOk result (string_bytes out.new ≡ string_bytes out.old ++ shown_in_lines byte) }
{
    if byte == b'\n' {
        return out.push_str("\n");
    }
    spell_byte(out, byte)
}

/// Spells the bytes; a line feed begins a new line.
fn spell_lines(out: &mut String, bytes: &[u8]) -> Result<(), NoMemory>
    ensures { OnOk result (string_bytes out.new ≡ string_bytes out.old ++ lines_shown bytes.now) }
{
    for byte in bytes {
        spell_in_lines(out, *byte)?;
    }
    Ok(())
}

/// Shows the bytes between two places of the buffer, with line ends as such.
fn show_part(out: &mut String, editor: &Editor, from: usize, to: usize) -> Result<(), NoMemory>
    requires { to ≤ length (state_of editor.now).text }
    ensures { OnOk result (string_bytes out.new
        ≡ string_bytes out.old ++ lines_shown (drop from (take to (state_of editor.now).text))) }
{
    let (before, after) = editor.halves();
    let (first, second) = part(before, after, from.min(to), to);
    spell_lines(out, first)?;
    spell_lines(out, second)
}

/// Whether the bytes end in a line feed.
fn is_line_ended(bytes: &[u8]) -> bool
    ensures { result ≡ is_line_ended bytes.now }
{
    !bytes.is_empty() && bytes[bytes.len() - 1] == b'\n'
}

/// Ends the line, if it is not ended.
fn end_line(out: &mut String) -> Result<(), NoMemory>
    ensures { OnOk result (string_bytes out.new ≡ with_line_end (string_bytes out.old)) }
{
    if is_line_ended(out.as_bytes()) {
        return Ok(());
    }
    out.push_str("\n")
}

/// Shows so many lines of the buffer up to the pointer's and as many from it on, with a mark where the pointer is.
fn show_lines(out: &mut String, editor: &Editor, lines: u16) -> Result<(), NoMemory>
    requires { lines ≤ 1000 }
    ensures { OnOk result (string_bytes out.new ≡ string_bytes out.old
        ++ text_shown (state_of editor.now).text (state_of editor.now).pointer lines) }
{
    let (before, after) = editor.halves();
    let pointer = editor.pointer();
    let from = line_place(before, after, pointer, 1 - i32::from(lines));
    let to = line_place(before, after, pointer, i32::from(lines));
    show_part(out, editor, from, pointer)?;
    out.push_str("|>")?;
    show_part(out, editor, pointer, to)
}

/// Shows `n` lines of the buffer up to the pointer's and as many from it on, at most 1000, and ends the last.
pub fn show_text(out: &mut String, editor: &Editor, n: u64) -> Result<(), NoMemory>
    ensures { OnOk result (string_bytes out.new
        ≡ string_bytes out.old ++ lines_there_shown (state_of editor.now) n) }
{
    show_lines(out, editor, n.min(1000).max(1) as u16)?;
    end_line(out)
}

/// Shows how long a text is of which no more than `most` bytes were shown.
fn show_rest(out: &mut String, len: usize, most: usize) -> Result<(), NoMemory>
    ensures { OnOk result (string_bytes out.new ≡ string_bytes out.old ++ rest_shown len most) }
{
    if len <= most {
        return Ok(());
    }
    write!(out, " .. {len} bytes")
}

/// Shows what a register's text is, if it has one.
fn show_held(out: &mut String, text: &[u8], most: usize) -> Result<(), NoMemory>
    ensures { OnOk result (string_bytes out.new ≡ string_bytes out.old ++ held_shown text.now most) }
{
    if text.is_empty() {
        return Ok(());
    }
    out.push_str(", ")?;
    spell(out, &text[..text.len().min(most)])?;
    show_rest(out, text.len(), most)
}

/// Shows what a register holds, with so many bytes of its text at most.
pub fn show_value(
    out: &mut String,
    registers: &Registers,
    q: Reg,
    most: usize,
) -> Result<(), NoMemory>
    ensures { OnOk result (string_bytes out.new ≡ string_bytes out.old ++ register_shown registers.now q most) }
{
    let name = letter(q);
    let number = registers.number(q);
    write!(out, "{name}: {number}")?;
    show_held(out, registers.text(q), most)?;
    out.push_str("\n")
}

/// Shows what a register holds.
pub fn show_register(out: &mut String, registers: &Registers, q: Reg) -> Result<(), NoMemory>
    ensures { OnOk result (string_bytes out.new
        ≡ string_bytes out.old ++ whole_register registers.now q) }
{
    show_value(out, registers, q, registers.text(q).len())
}

/// Whether a register holds the number 0 and no text.
fn is_blank(registers: &Registers, q: Reg) -> bool
    ensures { result ≡ is_blank_content (content registers.now q) }
{
    registers.number(q) == 0 && registers.text(q).is_empty()
}

/// Shows the register of this name, if it holds anything.
fn show_if_held(out: &mut String, registers: &Registers, name: u8) -> Result<(), NoMemory>
    ensures { OnOk result (string_bytes out.new
        ≡ string_bytes out.old ++ if_held_shown registers.now (register_of name)) }
{
    match Reg::of(name) {
        None => Ok(()),
        Some(q) => {
            if is_blank(registers, q) {
                return Ok(());
            }
            show_value(out, registers, q, MOST_SHOWN)
        }
    }
}

/// Shows the registers of these names that hold anything.
fn show_all_held(out: &mut String, registers: &Registers, names: &[u8]) -> Result<(), NoMemory>
    ensures { OnOk result (string_bytes out.new ≡ string_bytes out.old
        ++ flat_map (λ b. if_held_shown registers.now (register_of b)) names.now) }
{
    for name in names {
        show_if_held(out, registers, *name)?;
    }
    Ok(())
}

/// Shows the registers that hold anything.
pub fn show_registers(out: &mut String, registers: &Registers) -> Result<(), NoMemory>
    ensures { OnOk result (string_bytes out.new ≡ string_bytes out.old ++ registers_shown registers.now) }
{
    show_all_held(out, registers, NAMES)
}

/// Shows a search text, and whether it was found.
#[tactic(auto, unfolding(crate::specs::Listing::last_shown, crate::specs::Listing::found_shown))]
fn show_last(out: &mut String, text: &[u8], found: bool) -> Result<(), NoMemory>
    ensures { OnOk result (string_bytes out.new ≡ string_bytes out.old ++ last_shown text.now found) }
{
    out.push_str("last search ")?;
    spell(out, text)?;
    out.push_str(if found { ", found\n" } else { ", not found\n" })
}

/// Shows the last search text, and whether it was found.
#[tactic(auto, unfolding(crate::specs::Listing::last_search_shown, crate::specs::Listing::search_shown))]
fn show_search(out: &mut String, editor: &Editor) -> Result<(), NoMemory>
    ensures { OnOk result (string_bytes out.new
        ≡ string_bytes out.old ++ last_search_shown (state_of editor.now)) }
{
    match editor.last_search() {
        None => out.push_str("no search yet\n"),
        Some(text) => show_last(out, text, editor.last_result()),
    }
}

/// Shows a line, if it is so.
#[tactic(auto, unfolding(crate::specs::Listing::line_if))]
fn show_line_if(out: &mut String, so: bool, words: &str) -> Result<(), NoMemory>
    ensures { OnOk result (string_bytes out.new ≡ string_bytes out.old ++ line_if so words.now) }
{
    if !so {
        return Ok(());
    }
    out.push_str(words)?;
    out.push_str("\n")
}

/// How many bytes two parts have together.
pub fn length_of(parts: (&[u8], &[u8])) -> usize
    requires { length (parts.0.now ++ parts.1.now) ≤ FILE_LIMIT }
    ensures { result ≡ length (parts.entry.0.now ++ parts.entry.1.now) }
{
    parts.0.len() + parts.1.len()
}

/// Shows how much there is of the text, the input, the output and the push-down list.
fn show_sizes(out: &mut String, editor: &Editor) -> Result<(), NoMemory>
    ensures { OnOk result (string_bytes out.new ≡ string_bytes out.old ++ sizes_shown (state_of editor.now)) }
{
    let pointer = editor.pointer();
    let len = length_of(editor.halves());
    let place = editor.place();
    let output = editor.output().len();
    let pushed = editor.pushed().len();
    writeln!(
        out,
        "pointer {pointer} of {len}\ninput {place} bytes read, output {output} bytes written\npushed {pushed}"
    )
}

/// Shows the language, if it is the wider one.
#[tactic(auto, unfolding(crate::specs::Listing::language_shown))]
fn show_language(out: &mut String, editor: &Editor) -> Result<(), NoMemory>
    ensures { OnOk result (string_bytes out.new ≡ string_bytes out.old ++ language_shown (state_of editor.now).profile) }
{
    match editor.profile() {
        Profile::Named => Ok(()),
        Profile::Wide => out.push_str("strings are read in the wider language\n"),
    }
}

/// Shows how the page ended, how a search takes letters, and whether the session is done.
fn show_flags(out: &mut String, editor: &Editor) -> Result<(), NoMemory>
    ensures { OnOk result (string_bytes out.new ≡ string_bytes out.old ++ flags_shown (state_of editor.now)) }
{
    show_line_if(out, editor.flag(), "a form feed ended the page")?;
    let exact = matches!(editor.case_mode(), CaseMode::Exact);
    show_line_if(out, exact, "searches tell the cases of a letter apart")?;
    show_line_if(out, editor.done(), "the session is done")
}

/// Shows the rest of the state.
#[tactic(auto, unfolding(crate::specs::Listing::state_shown))]
pub fn show_state(out: &mut String, editor: &Editor) -> Result<(), NoMemory>
    ensures { OnOk result (string_bytes out.new ≡ string_bytes out.old ++ state_shown (state_of editor.now)) }
{
    show_sizes(out, editor)?;
    show_search(out, editor)?;
    show_language(out, editor)?;
    show_flags(out, editor)
}
