//! Commands by which a run ends where it comes to a fault of them.
ghost use Rattle.std.specs.Prelude.{◌≡◌, ◌≤◌, length, drop};
ghost use Rattle.teco_scan.specs.Scan.{scan};
ghost use Rattle.teco_lint.specs.Spelling.{is_misspelt, is_misspelt_string, is_misspelt_text, put_first};

use crate::cutting::string_end;
use crate::requests::is_request;
use std::alloc::Global;
use teco_check::{MOST_TEXTS, REGISTERS, Wrong, first_fault_by_tags};
use teco_core::Profile;
use teco_scan::{Found, Item, TokenKind, token_at};

/// The text that the token at a place puts into a register; nothing where it puts none.
fn text_put(profile: Profile, text: &[u8], at: usize) -> &[u8]
    ensures { result.now ≡ put_first (scan profile (drop at text.now)) }
{
    if at > text.len() {
        return &[];
    }
    match token_at(profile, text, at) {
        Found::Token(token) => match token.kind {
            TokenKind::Item(Item::SetText(_, span)) => &text[span.from..span.to],
            _ => &[],
        },
        _ => &[],
    }
}

/// Whether the first fault of a text is one by which a run ends, also where it is in a text that is put where code is. These registers hold
/// code.
pub fn is_misspelt_text(
    alloc: Global,
    profile: Profile,
    text: &[u8],
    code: &[bool; REGISTERS],
) -> bool
    ensures { result ≡ is_misspelt_text profile code.now text.now }
{
    let mut inside = text;
    let mut texts = MOST_TEXTS;
    while let Some(fault) = first_fault_by_tags(alloc, profile, inside, code, texts) {
        match fault.wrong {
            Wrong::InText => inside = text_put(profile, inside, fault.at),
            Wrong::Calls | Wrong::Loads => return false,
            _ => return true,
        }
        if texts == 0 {
            return false;
        }
        texts -= 1;
    }
    false
}

/// Whether a command string is misspelt.
fn is_misspelt_string(
    alloc: Global,
    profile: Profile,
    string: &[u8],
    code: &[bool; REGISTERS],
) -> bool
    ensures { result ≡ is_misspelt_string profile code.now string.now }
{
    if is_request(string) {
        return false;
    }
    is_misspelt_text(alloc, profile, string, code)
}

/// Whether one of the command strings has a fault by which a run ends, before any that a check says it doesn't look into. The registers
/// that hold code are those of [`crate::Advice`].
pub fn is_misspelt(
    alloc: Global,
    profile: Profile,
    commands: &[u8],
    code: &[bool; REGISTERS],
) -> bool
    ensures { result ≡ is_misspelt profile code.now commands.now }
{
    let mut misspelt = false;
    let mut start = 0;
    while let Some(end) = string_end(commands, start) {
        misspelt |= is_misspelt_string(alloc, profile, &commands[start..end], code);
        start = end + 1;
    }
    misspelt | is_misspelt_string(alloc, profile, &commands[start..], code)
}
