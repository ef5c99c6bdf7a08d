//! A place of a run: its text, its calls, its line and column.

ghost use Rattle.std.specs.Prelude.{◌≡◌, ◌++◌, OnOk, Some};
ghost use Rattle.std.specs.String.{string_bytes};
ghost use Rattle.teco_core.specs.Register.{register_of};
ghost use Rattle.teco_messages.specs.Placed.{call_in_shown, call_shown, register_name, standing_shown, text_under};
ghost use Rattle.teco_messages.specs.Shown.{place_shown};

use crate::spot::spot_of;
use std::fmt::Write;
use teco_core::{NoMemory, Reg, Registers};
use teco_exec::{Call, Place};

/// The letter or the digit that names a register.
pub fn letter(q: Reg) -> char
    ensures names { register_of result ≡ Some q }
    ensures value { result ≡ register_name q }
{
    let index = q.index() as u8;
    char::from(if index < 26 {
        b'A' + index
    } else {
        b'0' - 26 + index
    })
}

/// The text that is under the latest `depth` of the open calls: what a register holds now, or the string.
pub fn text_under<'a>(
    place: &Place,
    depth: usize,
    registers: &'a Registers,
    string: &'a [u8],
) -> &'a [u8]
    ensures { result.now ≡ text_under place.now depth registers.now string.now }
{
    match place.calls.get(depth) {
        Some(call) => registers.text(call.register),
        None => string,
    }
}

/// Shows a place of a text as a line and a column; one that the text has no more, as what it is.
pub fn show_spot(out: &mut String, text: &[u8], at: usize) -> Result<(), NoMemory>
    ensures { OnOk result (string_bytes out.new ≡ string_bytes out.old ++ place_shown text.now at) }
{
    if at > text.len() {
        return out.push_str("a text that is changed");
    }
    let spot = spot_of(text, at);
    write!(out, "{spot}")
}

/// Shows the register whose text is run, if one is called, and the place in the text that is run.
pub fn show_place(
    out: &mut String,
    place: &Place,
    registers: &Registers,
    string: &[u8],
) -> Result<(), NoMemory>
    ensures { OnOk result (string_bytes out.new
        ≡ string_bytes out.old ++ standing_shown place.now registers.now string.now) }
{
    if let Some(call) = place.calls.first() {
        let name = letter(call.register);
        write!(out, "{name} ")?;
    }
    show_spot(out, text_under(place, 0, registers, string), place.at)
}

/// Shows an open call of a text.
fn show_call_in(out: &mut String, call: &Call, text: &[u8]) -> Result<(), NoMemory>
    ensures { OnOk result (string_bytes out.new ≡ string_bytes out.old ++ call_in_shown call.now text.now) }
{
    let name = letter(call.register);
    write!(out, "{name} is called at ")?;
    show_spot(out, text, call.at)
}

/// Shows the register and the place of an open call, of which `k` are later.
pub fn show_call(
    out: &mut String,
    place: &Place,
    k: usize,
    registers: &Registers,
    string: &[u8],
) -> Result<(), NoMemory>
    ensures { OnOk result (string_bytes out.new
        ≡ string_bytes out.old ++ call_shown place.now k registers.now string.now) }
{
    match place.calls.get(k) {
        None => Ok(()),
        Some(call) => show_call_in(out, call, text_under(place, k + 1, registers, string)),
    }
}
