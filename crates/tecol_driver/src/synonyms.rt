//! Synonyms: tokens of the wide language that the named one has too, but spells otherwise, and what changes for that.
ghost use Rattle.std.specs.Prelude.{◌≡◌, ◌<◌, ◌≤◌, ◌++◌, length, slice_index, IfOk, OnOk};
ghost use Rattle.teco_scan.specs.Seen.{IsKindIn, IsKindPlaced, bytes_in};
ghost use Rattle.tecol_driver.specs.Synonyms.{AreChanges, AreOfString, AreOfTokens, PutsChanges, deletion_changes, escape_changes, first_lacked, byte_before, sign_letter, another_byte, search_for, test_changes, token_changes, two_bytes};

use std::alloc::Global;
use teco_core::{ESC, NoMemory, Profile};
use teco_scan::{Found, Item, Span, TextCommand, Token, TokenKind, move_asked, pair_end, token_at};

/// A change of commands: these bytes come before the byte at a place, which stays or goes.
#[derive(Clone, Copy)]
pub struct Change {
    /// The place of that byte.
    pub at: usize,
    pub first: u8,
    pub second: Option<u8>,
    pub stays: bool,
}

/// A byte comes in the place of another.
fn another_byte(at: usize, byte: u8) -> Change
    ensures { result ≡ another_byte at byte }
{
    Change {
        at,
        first: byte,
        second: None,
        stays: false,
    }
}

/// A byte comes before another.
fn byte_before(at: usize, byte: u8) -> Change
    ensures { result ≡ byte_before at byte }
{
    Change {
        at,
        first: byte,
        second: None,
        stays: true,
    }
}

/// Two bytes come in the place of another, or before it if that stays.
fn two_bytes(at: usize, first: u8, second: u8, stays: bool) -> Change
    ensures { result ≡ two_bytes at first second stays }
{
    Change {
        at,
        first,
        second: Some(second),
        stays,
    }
}

/// The bytes that may enclose a text, in the order in which they are tried.
pub const DELIMITERS: [u8; 6] = *b"/|#+~%";

/// The first of some bytes that a text lacks.
#[tactic(auto, unfolding(crate::specs::Synonyms::first_lacked))]
fn first_lacked(delimiters: &[u8], text: &[u8]) -> Option<u8>
    ensures { result ≡ first_lacked delimiters.now text.now }
{
    for delimiter in delimiters {
        if !text.contains(delimiter) {
            return Some(*delimiter);
        }
    }
    None
}

/// The letter of the test that a sign names.
fn sign_letter(sign: u8) -> Option<u8>
    ensures { result ≡ sign_letter sign }
{
    match sign {
        b'=' => Some(b'E'),
        b'<' => Some(b'L'),
        b'>' => Some(b'G'),
        _ => None,
    }
}

/// The `S` of `FS`, in the case of this `D`.
fn search_for(delete: u8) -> u8
    ensures { result ≡ search_for delete }
{
    if delete == b'd' { b's' } else { b'S' }
}

/// PutsChanges the change of a test at the end, whose letter or sign is at this place.
fn push_test(out: &mut Vec<Change>, text: &[u8], at: usize) -> Result<(), NoMemory>
    requires { at < length text.now }
    ensures { OnOk result (out.new.items ≡ out.old.items ++ test_changes at (sign_letter (slice_index text.now at))) }
{
    match sign_letter(text[at]) {
        Some(letter) => out.extend_from_slice(&[another_byte(at, letter)]),
        None => Ok(()),
    }
}

/// PutsChanges the changes of an `FD` at the end whose text an ESC ends, which stays or goes. With `@` there is one before it, too.
fn push_before_escape(
    out: &mut Vec<Change>,
    text: &[u8],
    found: Span,
    at: bool,
    stays: bool,
) -> Result<(), NoMemory>
    requires { (found.from ≤ found.to) × (found.to < length text.now) }
    ensures { OnOk result (out.new.items ≡ out.old.items ++ escape_changes text.now found at stays (first_lacked DELIMITERS (bytes_in text.now found))) }
{
    let Some(delimiter) = first_lacked(&DELIMITERS, &text[found.from..found.to]) else {
        return Ok(());
    };
    let end = two_bytes(found.to, delimiter, delimiter, stays);
    if at {
        let delete = found.from.saturating_sub(2);
        return out.extend_from_slice(&[
            another_byte(delete, search_for(text[delete])),
            another_byte(found.from.saturating_sub(1), delimiter),
            end,
        ]);
    }
    let delete = found.from.saturating_sub(1);
    out.extend_from_slice(&[
        byte_before(found.from.saturating_sub(2), b'@'),
        two_bytes(delete, search_for(text[delete]), delimiter, false),
        end,
    ])
}

/// PutsChanges the changes of an `FD` at the end whose text is here. It is the last command of the string or not.
fn push_deletion(
    out: &mut Vec<Change>,
    text: &[u8],
    found: Span,
    at: bool,
    is_last: bool,
) -> Result<(), NoMemory>
    requires { (found.from ≤ found.to) × (found.to < length text.now) }
    ensures { OnOk result (out.new.items ≡ out.old.items ++ deletion_changes text.now found at is_last) }
{
    let delimiter = if at {
        text[found.from.saturating_sub(1)]
    } else {
        ESC
    };
    match delimiter {
        ESC => push_before_escape(out, text, found, at, is_last),
        b'\n' => Ok(()),
        _ => {
            let delete = found.from.saturating_sub(2);
            out.extend_from_slice(&[
                another_byte(delete, search_for(text[delete])),
                byte_before(found.to, delimiter),
            ])
        }
    }
}

/// PutsChanges the changes of a token at the end, if it is a synonym. A pair of ESC ends the text or not, of which it has the first.
fn push_token(
    out: &mut Vec<Change>,
    text: &[u8],
    is_ended: bool,
    token: &Token,
) -> Result<(), NoMemory>
    requires within { (token.now.span.from < token.now.span.to) × (token.now.span.to ≤ length text.now) }
    requires spans { IsKindIn (length text.now) token.now.kind }
    requires placed { IsKindPlaced token.now.span token.now.kind }
    ensures { OnOk result (out.new.items ≡ out.old.items ++ token_changes text.now is_ended token.now) }
{
    let to = token.span.to;
    match token.kind {
        TokenKind::Test(_) => push_test(out, text, to - 1),
        TokenKind::Item(Item::Text(TextCommand::FindAndDelete, found)) => {
            let is_last = is_ended && to == text.len();
            push_deletion(out, text, found, token.modifiers.at, is_last)
        }
        _ => Ok(()),
    }
}

/// PutsChanges the changes of the tokens from a place up to the end of the text at the end. Says whether all of them can be read.
fn push_tokens(
    out: &mut Vec<Change>,
    text: &[u8],
    from: usize,
    is_ended: bool,
) -> Result<bool, NoMemory>
    requires { from ≤ length text.now }
    ensures { IfOk result (PutsChanges (AreOfTokens text.now is_ended from) out.old.items out.new.items) }
{
    let mut at = from;
    loop {
        match token_at(Profile::Wide, text, at) {
            Found::Token(token) => {
                push_token(out, text, is_ended, &token)?;
                at = token.span.to;
            }
            Found::End => return Ok(true),
            Found::Fault(_) => return Ok(false),
        }
    }
}

/// The same of a command string that a pair of ESC ends. One that asks an undo, a redo or a rewind has no tokens.
fn push_string(out: &mut Vec<Change>, text: &[u8], from: usize) -> Result<bool, NoMemory>
    requires { from ≤ length text.now }
    ensures { IfOk result (PutsChanges (AreOfString text.now from) out.old.items out.new.items) }
{
    if move_asked(&text[from..]).is_some() {
        return Ok(true);
    }
    push_tokens(out, text, from, true)
}

/// The changes of commands, string by string, up to the first token that can't be read.
pub fn changes_in(alloc: Global, commands: &[u8]) -> Result<Vec<Change>, NoMemory>
    ensures { IfOk result (λ changes. AreChanges commands.now 0 changes.items) }
{
    let mut changes = Vec::new(alloc);
    let mut start = 0;
    while let Some(long) = pair_end(&commands[start..], 0) {
        let end = start + long;
        if !push_string(&mut changes, &commands[..end], start)? {
            return Ok(changes);
        }
        start = end + 1;
    }
    push_tokens(&mut changes, commands, start, false)?;
    Ok(changes)
}
