//! Why a run stopped.
ghost use Rattle.std.specs.Prelude.{◌≡◌, ◌++◌, List, ℕ, Option, Some, None, OnOk, codes, drop, length, option_copied};
ghost use Rattle.std.specs.String.{string_bytes};
ghost use Rattle.teco_scan.specs.Scan.{scan};
ghost use Rattle.teco_scan.specs.Seen.{item_in};
ghost use Rattle.teco_exec.specs.declared.place.Place.{Place};
ghost use Rattle.teco_messages.specs.Stop.{calls_shown, code_of_fault, code_part, fault_here_shown, open_block_shown, fault_at_shown, fault_shown, is_opening, meets, opens, stand_shown, stop_shown, token_part};
ghost use Rattle.teco_messages.specs.Spelling.{token_shown};
ghost use Rattle.teco_messages.specs.Token.{token_in};

use crate::place::{show_call, show_place, show_spot, text_under};
use crate::sentence::{Limits, show_code, show_code_with_limits};
use crate::spelling::spell_token;
use crate::tokens::token;
use std::fmt::Write;
use teco_core::{Code, NoMemory, Profile, Registers};
use teco_exec::Place;
use teco_scan::{Arithmetic, Bare, Found, Item, ListFault, RegisterCommand, TokenKind, token_at};

/// The most bytes that are shown where no token is.
pub(crate) const MOST_FAULTY: usize = 16;

/// Whether a step opens or pushes: `(`, `[` or `M`.
fn opens(item: Item) -> bool
    ensures { (bs : List ℕ) → result ≡ opens (item_in bs item) }
{
    matches!(
        item,
        Item::Bare(Bare::Arithmetic(Arithmetic::Open))
            | Item::Register(RegisterCommand::Push | RegisterCommand::Macro, _)
    )
}

/// Whether a step that opens or pushes comes at a place. Past its limit it ends by PDO itself.
fn is_opening(profile: Profile, text: &[u8], at: usize) -> bool
    ensures { result ≡ is_opening (scan profile (drop at text.now)) }
{
    if at > text.len() {
        return false;
    }
    match token_at(profile, text, at) {
        Found::Token(token) => match token.kind {
            TokenKind::Item(item) => opens(item),
            _ => false,
        },
        Found::End | Found::Fault(_) => false,
    }
}

/// Whether a run that ended by this code at a place of a text has met a fault of the text that has that code.
fn meets(profile: Profile, text: &[u8], at: usize, fault: Code, code: Code) -> bool
    ensures { result ≡ meets profile text.now at fault code }
{
    match code {
        Code::Tag => true,
        Code::Pdo => fault.number() == Code::Pdo.number() && !is_opening(profile, text, at),
        _ => fault.number() == code.number(),
    }
}

/// Shows the token at a place of a text; where none is there, what is.
fn show_token_at(out: &mut String, profile: Profile, text: &[u8], at: usize) -> Result<(), NoMemory>
    ensures { OnOk result (string_bytes out.new
        ≡ string_bytes out.old ++ token_shown (token_in profile text.now at MOST_FAULTY)) }
{
    spell_token(out, token(profile, text, at, MOST_FAULTY))
}

/// Shows that a fault comes at the place which is shown next, and its code, where it isn't the one that is told.
fn show_fault_before(out: &mut String, fault: Code, code: Code) -> Result<(), NoMemory>
    ensures { OnOk result (string_bytes out.new
        ≡ string_bytes out.old ++ (codes ", fault " ++ code_of_fault fault code ++ codes "at ")) }
{
    match code {
        Code::Tag => write!(out, ", fault {fault} at "),
        _ => out.push_str(", fault at "),
    }
}

/// Shows that the text ends inside a block which opens at this place.
fn show_open_block(
    out: &mut String,
    profile: Profile,
    text: &[u8],
    opened: usize,
) -> Result<(), NoMemory>
    ensures { OnOk result (string_bytes out.new ≡ string_bytes out.old ++ open_block_shown profile text.now opened) }
{
    out.push_str(", the text ends inside ")?;
    show_token_at(out, profile, text, opened)?;
    out.push_str(" at ")?;
    show_spot(out, text, opened)
}

/// Shows a fault at a place of a text.
fn show_fault_here(
    out: &mut String,
    profile: Profile,
    text: &[u8],
    at: usize,
    fault: Code,
    code: Code,
) -> Result<(), NoMemory>
    ensures { OnOk result (string_bytes out.new ≡ string_bytes out.old ++ fault_here_shown profile text.now at fault code) }
{
    show_fault_before(out, fault, code)?;
    show_spot(out, text, at)?;
    out.push_str(", ")?;
    show_token_at(out, profile, text, at)
}

/// Shows the place of a fault that was met, unless it is the one where the run stood; or, where the text ends inside a block, the
/// place of what opens the block.
fn show_fault_at(
    out: &mut String,
    profile: Profile,
    text: &[u8],
    at: usize,
    fault: ListFault,
    code: Code,
) -> Result<(), NoMemory>
    ensures { OnOk result (string_bytes out.new
        ≡ string_bytes out.old ++ fault_at_shown profile text.now at fault code fault.opened) }
{
    match fault.opened {
        Some(opened) => show_open_block(out, profile, text, opened),
        None => {
            if fault.at == at {
                return Ok(());
            }
            show_fault_here(out, profile, text, fault.at, fault.code, code)
        }
    }
}

/// Shows the fault that a run has met which ended by this code at a place of a text.
fn show_fault(
    out: &mut String,
    profile: Profile,
    text: &[u8],
    at: usize,
    fault: Option<ListFault>,
    code: Code,
) -> Result<(), NoMemory>
    ensures { OnOk result (string_bytes out.new ≡ string_bytes out.old ++ fault_shown profile text.now at fault code) }
{
    match fault {
        None => Ok(()),
        Some(fault) => {
            if meets(profile, text, at, fault.code, code) {
                return show_fault_at(out, profile, text, at, fault, code);
            }
            Ok(())
        }
    }
}

/// Shows a token, if one is there.
fn show_token(out: &mut String, token: &[u8]) -> Result<(), NoMemory>
    ensures { OnOk result (string_bytes out.new ≡ string_bytes out.old ++ token_part token.now) }
{
    if token.is_empty() {
        return Ok(());
    }
    out.push_str(", ")?;
    spell_token(out, token)
}

/// Shows the open calls, the latest first.
fn show_calls(
    out: &mut String,
    place: &Place,
    registers: &Registers,
    string: &[u8],
) -> Result<(), NoMemory>
    ensures { OnOk result (string_bytes out.new ≡ string_bytes out.old
        ++ calls_shown place.now registers.now string.now (length place.now.calls.items)) }
{
    for k in 0..place.calls.len() {
        out.push_str(", ")?;
        show_call(out, place, k, registers, string)?;
    }
    Ok(())
}

/// Shows the steps that were done, where the run last stood, the token there, the fault that it met, and the open calls.
fn show_standing(
    out: &mut String,
    profile: Profile,
    place: &Place,
    registers: &Registers,
    string: &[u8],
    code: Code,
) -> Result<(), NoMemory>
    ensures { OnOk result (string_bytes out.new
        ≡ string_bytes out.old ++ stand_shown profile (Some place.now) registers.now string.now code) }
{
    let steps = place.steps;
    write!(out, ", step {steps}, ")?;
    show_place(out, place, registers, string)?;
    let text = text_under(place, 0, registers, string);
    show_token(out, token(profile, text, place.at, MOST_FAULTY))?;
    show_fault(out, profile, text, place.at, place.fault, code)?;
    show_calls(out, place, registers, string)
}

/// Shows a code and what it says, with the limits where they are known.
fn show_end(out: &mut String, code: Code, limits: Option<Limits>) -> Result<(), NoMemory>
    ensures { OnOk result (string_bytes out.new ≡ string_bytes out.old ++ code_part limits code) }
{
    match limits {
        None => show_code(out, code),
        Some(limits) => show_code_with_limits(out, code, limits),
    }
}

/// Shows why a run stopped: where it last stood, if it did, and the code.
///
/// Of the place the steps that were done are shown, the line and the column, the token there, the fault that was met elsewhere or what
/// opens the block in which the text ends, and the open calls with the latest first.
pub fn show_stop(
    out: &mut String,
    profile: Profile,
    place: Option<&Place>,
    registers: &Registers,
    string: &[u8],
    code: Code,
    limits: Option<Limits>,
) -> Result<(), NoMemory>
    ensures { OnOk result (string_bytes out.new ≡ string_bytes out.old
        ++ stop_shown profile (option_copied place.entry) registers.now string.now code limits) }
{
    match place {
        None => show_end(out, code, limits),
        Some(place) => {
            show_standing(out, profile, place, registers, string, code)?;
            show_end(out, code, limits)
        }
    }
}
