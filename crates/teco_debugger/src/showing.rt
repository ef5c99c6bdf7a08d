//! Where a walk stands, shown.
ghost use Rattle.std.specs.Prelude.{◌≡◌, ◌++◌, ◌≤◌, ◌<◌, IfOk, OnOk, Some, length, option_copied, replicate, slice_get};
ghost use Rattle.std.specs.String.{string_bytes};
ghost use Rattle.teco_debugger.specs.Showing.{call_line, call_lines, code_there, each_turn_shown, here_shown, innermost, line_shown, line_there, lines_there, mark_shown, name_there, place_there, step_shown, turn_shown, turns_of_call, turns_shown, where_shown};
ghost use Rattle.teco_messages.specs.Spelling.{spelled};

use crate::{Seen, Walk};
use std::alloc::Global;
use std::fmt::Write;
use teco_core::{Code, NoMemory, Profile};
use teco_exec::Place;
use teco_messages::{
    line_end, line_start, show_call, show_code, show_place, spell, text_under, token,
};
use teco_store::Desk;

/// Where no token is, one byte is shown.
const MOST_FAULTY: usize = 1;

/// The innermost of the texts with these calls, as it is now: the string, or what a register holds.
pub fn innermost<'a>(walk: &'a Walk, string: &'a [u8], place: &Place) -> &'a [u8]
    ensures { result.now ≡ innermost walk.now string.now place.now }
{
    text_under(place, 0, walk.editor().registers(), string)
}

/// Shows where the walk stands, and the token there.
fn show_standing(
    out: &mut String,
    walk: &Walk,
    string: &[u8],
    place: Option<&Place>,
) -> Result<(), NoMemory>
    ensures { OnOk result (string_bytes out.new
        ≡ string_bytes out.old ++ place_there walk.now string.now (option_copied place.entry)) }
{
    match place {
        None => out.push_str("the end"),
        Some(place) => {
            show_place(out, place, walk.editor().registers(), string)?;
            out.push_str(", ")?;
            spell(
                out,
                token(
                    walk.editor().profile(),
                    innermost(walk, string, place),
                    place.at,
                    MOST_FAULTY,
                ),
            )
        }
    }
}

/// Shows a code, but not that of the walk's own limit.
fn show_code_there(out: &mut String, code: Option<Code>) -> Result<(), NoMemory>
    ensures { OnOk result (string_bytes out.new ≡ string_bytes out.old ++ code_there code) }
{
    match code {
        None | Some(Code::Lim) => Ok(()),
        Some(code) => show_code(out, code),
    }
}

/// Shows the name of a source, if there is one and a place in it.
fn show_name(out: &mut String, name: &str, place: Option<&Place>) -> Result<(), NoMemory>
    ensures { OnOk result (string_bytes out.new
        ≡ string_bytes out.old ++ name_there name.now (option_copied place.entry)) }
{
    match place {
        Some(place) if !name.is_empty() => {
            out.push_str(name)?;
            out.push_str(if place.calls.is_empty() { ":" } else { ", " })
        }
        _ => Ok(()),
    }
}

/// Shows the step, the place and the token, in a line.
pub fn show_step(
    out: &mut String,
    walk: &Walk,
    name: &str,
    string: &[u8],
    seen: &Seen,
) -> Result<(), NoMemory>
    ensures { OnOk result (string_bytes out.new ≡ string_bytes out.old ++ step_shown walk.now name.now string.now seen.now) }
{
    let steps = walk.steps();
    write!(out, "step {steps}, ")?;
    show_name(out, name, seen.place.as_ref())?;
    show_standing(out, walk, string, seen.place.as_ref())?;
    show_code_there(out, seen.outcome.code)?;
    out.push_str("\n")
}

/// Shows an ASCII character so many times.
pub fn push_many(out: &mut String, byte: u8, n: usize) -> Result<(), NoMemory>
    requires { byte < 128 }
    ensures { OnOk result (string_bytes out.new ≡ string_bytes out.old ++ replicate n byte) }
{
    for _i in 0..n {
        out.push(char::from(byte))?;
    }
    Ok(())
}

/// How many bytes the spelling of these has.
fn width(alloc: Global, bytes: &[u8]) -> Result<usize, NoMemory>
    ensures { IfOk result (λ n. n ≡ length (spelled bytes.now)) }
{
    let mut spelled = String::new(alloc);
    spell(&mut spelled, bytes)?;
    Ok(spelled.len())
}

/// Shows the line of a place, and the margin of the next.
#[tactic(auto, unfolding(crate::specs::Showing::line_shown))]
fn show_whole_line(out: &mut String, text: &[u8], at: usize) -> Result<(), NoMemory>
    requires { at ≤ length text.now }
    ensures { OnOk result (string_bytes out.new ≡ string_bytes out.old ++ line_shown text.now at) }
{
    let start = line_start(text, at);
    let end = line_end(text, at);
    out.push_str("    ")?;
    spell(out, &text[start..end])?;
    out.push_str("\n    ")
}

/// Shows carets below as much of the token at a place as is in the line.
#[tactic(auto, unfolding(crate::specs::Showing::mark_shown))]
pub fn show_mark(out: &mut String, profile: Profile, text: &[u8], at: usize) -> Result<(), NoMemory>
    requires { at ≤ length text.now }
    ensures { OnOk result (string_bytes out.new ≡ string_bytes out.old ++ mark_shown profile text.now at) }
{
    let alloc = *out.allocator();
    let start = line_start(text, at);
    let inside = token(profile, text, at, MOST_FAULTY)
        .len()
        .min(line_end(text, at) - at);
    push_many(out, b' ', width(alloc, &text[start..at])?)?;
    push_many(out, b'^', width(alloc, &text[at..at + inside])?.max(1))
}

/// Shows the line of a place, if the text has it, and marks below it as much of the token there as is in the line.
fn show_line(out: &mut String, profile: Profile, text: &[u8], at: usize) -> Result<(), NoMemory>
    ensures { OnOk result (string_bytes out.new ≡ string_bytes out.old ++ line_there profile text.now at) }
{
    if at > text.len() {
        return Ok(());
    }
    show_whole_line(out, text, at)?;
    show_mark(out, profile, text, at)?;
    out.push_str("\n")
}

fn show_turn(out: &mut String, turn: Option<u32>) -> Result<(), NoMemory>
    ensures { OnOk result (string_bytes out.new ≡ string_bytes out.old ++ turn_shown turn) }
{
    match turn {
        Some(left) => write!(out, " {left}"),
        None => out.push_str(" any"),
    }
}

#[tactic(auto, unfolding(crate::specs::Showing::each_turn_shown))]
fn show_each_turn(out: &mut String, turns: &[Option<u32>]) -> Result<(), NoMemory>
    ensures { OnOk result (string_bytes out.new ≡ string_bytes out.old ++ each_turn_shown turns.now) }
{
    for turn in turns {
        show_turn(out, *turn)?;
    }
    Ok(())
}

/// Shows the turns that are left of the open iterations, the innermost first.
fn show_turns(out: &mut String, turns: &[Option<u32>]) -> Result<(), NoMemory>
    ensures { OnOk result (string_bytes out.new ≡ string_bytes out.old ++ turns_shown turns.now) }
{
    if turns.is_empty() {
        return Ok(());
    }
    out.push_str("; turns left:")?;
    show_each_turn(out, turns)
}

/// Shows the open iterations of the innermost text, if there are any.
fn show_here(out: &mut String, turns: &[Option<u32>]) -> Result<(), NoMemory>
    ensures { OnOk result (string_bytes out.new ≡ string_bytes out.old ++ here_shown turns.now) }
{
    if turns.is_empty() {
        return Ok(());
    }
    out.push_str("here")?;
    show_turns(out, turns)?;
    out.push_str("\n")
}

/// Shows the turns left of the open iterations of an open call, of which `k` are later.
fn show_turns_of(out: &mut String, place: &Place, k: usize) -> Result<(), NoMemory>
    ensures { OnOk result (string_bytes out.new ≡ string_bytes out.old
        ++ turns_shown (turns_of_call (slice_get place.now.calls.items k))) }
{
    match place.calls.get(k) {
        None => Ok(()),
        Some(call) => show_turns(out, call.turns.as_slice()),
    }
}

/// Shows an open call, of which `k` are later, and the turns left of the open iterations there.
#[tactic(auto, unfolding(crate::specs::Showing::call_line))]
fn show_call_line(
    out: &mut String,
    walk: &Walk,
    string: &[u8],
    place: &Place,
    k: usize,
) -> Result<(), NoMemory>
    ensures { OnOk result (string_bytes out.new ≡ string_bytes out.old ++ call_line walk.now string.now place.now k) }
{
    show_call(out, place, k, walk.editor().registers(), string)?;
    show_turns_of(out, place, k)?;
    out.push_str("\n")
}

/// Shows the open calls, the latest first.
fn show_calls(out: &mut String, walk: &Walk, string: &[u8], place: &Place) -> Result<(), NoMemory>
    ensures { OnOk result (string_bytes out.new ≡ string_bytes out.old
        ++ call_lines walk.now string.now place.now (length place.now.calls.items)) }
{
    for k in 0..place.calls.len() {
        show_call_line(out, walk, string, place, k)?;
    }
    Ok(())
}

/// Shows the line with its token marked, the open iterations and calls.
fn show_lines(out: &mut String, walk: &Walk, string: &[u8], place: &Place) -> Result<(), NoMemory>
    ensures { OnOk result (string_bytes out.new
        ≡ string_bytes out.old ++ lines_there walk.now string.now (Some place.now)) }
{
    let profile = walk.editor().profile();
    show_line(out, profile, innermost(walk, string, place), place.at)?;
    show_here(out, place.turns.as_slice())?;
    show_calls(out, walk, string, place)
}

/// Shows where a walk stands: the step, the line with its token marked, the open calls and iterations.
pub fn show_where(
    out: &mut String,
    walk: &Walk,
    name: &str,
    string: &[u8],
    seen: &Seen,
) -> Result<(), NoMemory>
    ensures { OnOk result (string_bytes out.new ≡ string_bytes out.old ++ where_shown walk.now name.now string.now seen.now) }
{
    show_step(out, walk, name, string, seen)?;
    match &seen.place {
        Some(place) => show_lines(out, walk, string, place),
        None => Ok(()),
    }
}
