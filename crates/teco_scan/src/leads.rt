//! Tokens whose command the first byte alone names, and a plain `FS`. Most tokens are: so each is read by its bytes, and not by the table.
ghost use Rattle.std.specs.Prelude.{◌≡◌, ◌<◌, ◌≤◌, length, drop, IfSome, slice_index, true};
ghost use Rattle.teco_core.specs.Ascii.{is_digit};
ghost use Rattle.teco_scan.specs.Led.{Begins, IsLed};
ghost use Rattle.teco_scan.specs.Scan.{no_modifiers, scan, run_of, after_run, after_fillers};
ghost use Rattle.teco_scan.specs.Seen.{IsFoundAt, bytes_in, found_in};
ghost use Rattle.teco_scan.specs.declared.command.Form.TheVariants as form;
ghost use Rattle.teco_core.specs.declared.profile.Profile.{Profile};

use crate::command::{Bare, BlockMark, Form, RegisterCommand, TextCommand};
use crate::names::lone_form;
use crate::operand::{register_at, replace_at, test_at, text_at};
use crate::table::NONE;
use crate::token::{Found, Item, Span, Token, TokenKind};
use teco_core::Profile;

/// The end of the text, where no byte is left after the fillers.
#[inline(always)]
#[tactic(auto, unfolding(crate::specs::Scan::scan))]
pub fn end_found(text: &[u8], at: usize, from: usize) -> Found
    requires rest { drop from text.now ≡ after_fillers (drop at text.now) }
    requires over { from ≡ length text.now }
    ensures read { (p : Profile) → found_in text.now result ≡ scan p (drop at text.now) }
    ensures place { IsFoundAt text.now at result }
{
    Found::End
}

/// The form of the command that the first byte of a token alone names.
#[inline(always)]
pub fn lead(text: &[u8], at: usize, from: usize) -> Option<Form>
    requires { Begins text.now at from }
    ensures { IfSome result (λ form. IsLed text.now at from form) }
{
    if text[from].is_ascii_digit() {
        return None;
    }
    lone_form(text[from])
}

/// The place after the digits, of which the first is here.
#[inline(always)]
#[tactic(auto, using(crate::proofs::Places::front, crate::proofs::Places::no_front), unfolding(crate::specs::Scan::after_run, crate::specs::Scan::run_of))]
fn digits_end(text: &[u8], at: usize) -> usize
    requires inside { at < length text.now }
    requires first { is_digit (slice_index text.now at) ≡ true }
    ensures read { drop result text.now ≡ after_run (drop at text.now) }
    ensures run { bytes_in text.now (record { from = at; to = result }) ≡ run_of (drop at text.now) }
    ensures within { (at < result) × (result ≤ length text.now) }
{
    let mut to = at + 1;
    while to < text.len() && text[to].is_ascii_digit() {
        to += 1;
    }
    to
}

/// A token without modifiers.
#[inline(always)]
fn plain(from: usize, to: usize, kind: TokenKind) -> Found
    ensures { result ≡ Found.Token (record { span = record { from = from; to = to }; modifiers = no_modifiers; kind = kind }) }
{
    Found::Token(Token {
        span: Span { from, to },
        modifiers: NONE,
        kind,
    })
}

/// A run of digits, of which the first is here.
#[inline(always)]
pub fn digits_token(text: &[u8], at: usize, from: usize) -> Found
    requires begins { Begins text.now at from }
    requires first { is_digit (slice_index text.now from) ≡ true }
    ensures read { (p : Profile) → found_in text.now result ≡ scan p (drop at text.now) }
    ensures place { IsFoundAt text.now at result }
{
    let to = digits_end(text, from);
    plain(from, to, TokenKind::Item(Item::Digits(Span { from, to })))
}

/// A command after whose name nothing follows.
#[inline(always)]
pub fn bare_token(text: &[u8], at: usize, from: usize, command: Bare) -> Found
    requires { IsLed text.now at from (form.Bare command) }
    ensures read { (p : Profile) → found_in text.now result ≡ scan p (drop at text.now) }
    ensures place { IsFoundAt text.now at result }
{
    plain(from, from + 1, TokenKind::Item(Item::Bare(command)))
}

/// What opens, divides or ends a block.
#[inline(always)]
pub fn mark_token(text: &[u8], at: usize, from: usize, mark: BlockMark) -> Found
    requires { IsLed text.now at from (form.Mark mark) }
    ensures read { (p : Profile) → found_in text.now result ≡ scan p (drop at text.now) }
    ensures place { IsFoundAt text.now at result }
{
    plain(from, from + 1, TokenKind::Mark(mark))
}

/// ESC between tokens.
#[inline(always)]
pub fn escape_token(text: &[u8], at: usize, from: usize) -> Found
    requires { IsLed text.now at from form.Escape }
    ensures read { (p : Profile) → found_in text.now result ≡ scan p (drop at text.now) }
    ensures place { IsFoundAt text.now at result }
{
    plain(from, from + 1, TokenKind::Escape)
}

/// A command on a register, where one follows.
#[inline(always)]
pub fn register_token(
    text: &[u8],
    at: usize,
    from: usize,
    command: RegisterCommand,
) -> Option<Found>
    requires { IsLed text.now at from (form.Register command) }
    ensures read { IfSome result (λ found. (p : Profile) → found_in text.now found ≡ scan p (drop at text.now)) }
    ensures place { IfSome result (λ found. IsFoundAt text.now at found) }
{
    match register_at(text, from + 1) {
        Ok((register, to)) => Some(plain(
            from,
            to,
            TokenKind::Item(Item::Register(command, register)),
        )),
        Err(_) => None,
    }
}

/// A command with one text, where its end follows.
#[inline(always)]
pub fn text_token(
    text: &[u8],
    at: usize,
    from: usize,
    command: TextCommand,
    usual: u8,
) -> Option<Found>
    requires { IsLed text.now at from (form.Text command usual) }
    ensures read { IfSome result (λ found. (p : Profile) → found_in text.now found ≡ scan p (drop at text.now)) }
    ensures place { IfSome result (λ found. IsFoundAt text.now at found) }
{
    match text_at(usual, text, from + 1) {
        Ok((span, to)) => Some(plain(from, to, TokenKind::Item(Item::Text(command, span)))),
        Err(_) => None,
    }
}

/// `FS` without modifiers, in capitals, where the ends of its two texts follow.
#[inline(always)]
pub fn replace_token(text: &[u8], at: usize, from: usize) -> Option<Found>
    requires { Begins text.now at from }
    ensures read { IfSome result (λ found. (p : Profile) → found_in text.now found ≡ scan p (drop at text.now)) }
    ensures place { IfSome result (λ found. IsFoundAt text.now at found) }
{
    if text.len() - from < 2 || text[from] != b'F' || text[from + 1] != b'S' {
        return None;
    }
    match replace_at(NONE, text, from + 2) {
        Ok((kind, to)) => Some(plain(from, to, kind)),
        Err(_) => None,
    }
}

/// A tag, where its end follows.
#[inline(always)]
pub fn tag_token(text: &[u8], at: usize, from: usize) -> Option<Found>
    requires { IsLed text.now at from form.Tag }
    ensures read { IfSome result (λ found. (p : Profile) → found_in text.now found ≡ scan p (drop at text.now)) }
    ensures place { IfSome result (λ found. IsFoundAt text.now at found) }
{
    match text_at(b'!', text, from + 1) {
        Ok((name, to)) => Some(plain(from, to, TokenKind::Tag(name))),
        Err(_) => None,
    }
}

/// The beginning of a conditional, where a test of the profile follows.
#[inline(always)]
pub fn test_token(profile: Profile, text: &[u8], at: usize, from: usize) -> Option<Found>
    requires { IsLed text.now at from form.Test }
    ensures read { IfSome result (λ found. found_in text.now found ≡ scan profile (drop at text.now)) }
    ensures place { IfSome result (λ found. IsFoundAt text.now at found) }
{
    match test_at(profile, text, from + 1) {
        Ok((test, to)) => Some(plain(from, to, TokenKind::Test(test))),
        Err(_) => None,
    }
}
