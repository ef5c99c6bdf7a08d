//! Reading tokens.
ghost use Rattle.std.specs.Prelude.{◌≡◌, ◌<◌, ◌≤◌, ℕ, List, length, drop, IfOk, slice_index, true};
ghost use Rattle.teco_core.specs.Ascii.{is_digit};
ghost use Rattle.teco_scan.specs.FirstRow.{named_at, with_operand};
ghost use Rattle.teco_scan.specs.Scan.{rows_of, no_modifiers, scan, scanned, run_of, after_run, after_fillers};
ghost use Rattle.teco_scan.specs.Spelling.{IsSpelled, IsLongest, IsCutExactly, LacksRegisterExactly, LacksTestExactly, IsIllExactly, IsFaultOfFour, PassesFillers};
ghost use Rattle.teco_scan.specs.Written.{NumbersAreSpelled, PlainCommandsAreSpelled, RegisterCommandsAreSpelled, TextCommandsAreSpelled, MarksAreSpelled, ModifiersAreAdmitted};
ghost use Rattle.teco_scan.specs.Table.{is_table};
ghost use Rattle.teco_scan.specs.Wide.{WideKeeps, WideAdds, WideSpellings};
ghost use Rattle.teco_scan.specs.declared.command.Row.{Row};
ghost use Rattle.teco_scan.specs.Seen.{Gives, IsKindIn, IsKindPlaced, IsFoundAt, IsDetermined, bytes_in, instruction_in, found_in};

use crate::command::{Form, Modifiers};
use crate::leads::{
    bare_token, digits_token, end_found, escape_token, lead, mark_token, register_token, tag_token,
    test_token, text_token,
};
use crate::names::named_at;
use crate::operand::operand_at;
use crate::table::{ROWS, WIDE_ROWS};
use crate::token::{Found, Span, Token, TokenKind};
use teco_core::{Code, Profile, is_filler};

/// The place after the fillers: where a token begins, if one does.
#[inline(always)]
#[tactic(auto, using(crate::proofs::Places::front, crate::proofs::Places::no_front), unfolding(crate::specs::Scan::after_fillers))]
pub fn filler_end(text: &[u8], at: usize) -> usize
    requires { at ≤ length text.now }
    ensures read { drop result text.now ≡ after_fillers (drop at text.now) }
    ensures within { (at ≤ result) × (result ≤ length text.now) }
{
    let mut to = at;
    while to < text.len() && is_filler(text[to]) {
        to += 1;
    }
    to
}

/// A command of a profile, from its first byte on: its modifiers, what it instructs and the place after it.
#[inline(never)]
fn command_from(
    profile: Profile,
    text: &[u8],
    at: usize,
) -> Result<(Modifiers, TokenKind, usize), Code>
    requires { at < length text.now }
    ensures read { Gives (λ x. (record { modifiers = x.0; instruction = instruction_in text.now x.1 }, drop x.2 text.now)) result (with_operand (named_at (rows_of profile) (drop at text.now))) }
    ensures within { IfOk result (λ x. (at < x.2) × (x.2 ≤ length text.now)) }
    ensures spans { IfOk result (λ x. IsKindIn (length text.now) x.1) }
    ensures placed { IfOk result (λ x. IsKindPlaced (record { from = at; to = x.2 }) x.1) }
{
    let (modifiers, form, to) = named_at(profile, text, at)?;
    let (kind, to) = operand_at(form, modifiers, text, to)?;
    Ok((modifiers, kind, to))
}

/// What is at a place, after fillers: a token of the profile, the end of the text, or a fault.
///
/// The place counts the bytes before it. Of the tokens that the bytes begin with the longest is found. It takes no memory.
#[inline(always)]
pub fn token_at(profile: Profile, text: &[u8], at: usize) -> Found
    requires { at ≤ length text.now }
    ensures read { found_in text.now result ≡ scan profile (drop at text.now) }
    ensures place { IsFoundAt text.now at result }
{
    let from = filler_end(text, at);
    if from == text.len() {
        return end_found(text, at, from);
    }
    if text[from].is_ascii_digit() {
        return digits_token(text, at, from);
    }
    match lead(text, at, from) {
        Some(Form::Bare(command)) => return bare_token(text, at, from, command),
        Some(Form::Mark(mark)) => return mark_token(text, at, from, mark),
        Some(Form::Escape) => return escape_token(text, at, from),
        Some(Form::Register(command)) => {
            if let Some(found) = register_token(text, at, from, command) {
                return found;
            }
        }
        Some(Form::Text(command, usual)) => {
            if let Some(found) = text_token(text, at, from, command, usual) {
                return found;
            }
        }
        Some(Form::Tag) => {
            if let Some(found) = tag_token(text, at, from) {
                return found;
            }
        }
        Some(Form::Test) => {
            if let Some(found) = test_token(profile, text, at, from) {
                return found;
            }
        }
        _ => {}
    }
    match command_from(profile, text, from) {
        Ok((modifiers, kind, to)) => Found::Token(Token {
            span: Span { from, to },
            modifiers,
            kind,
        }),
        Err(code) => Found::Fault(code),
    }
}

/// The laws of spelling, as its clauses.
///
/// They hold of every table of commands that passes [`is_table`], and [`ROWS`] does. The token that is read is spelled by the
/// bytes before the rest, and no token that they begin with is longer, but where a refused name is. The fault is UTC exactly
/// where no token begins and the bytes are a front of a spelling, IQN and IQC exactly where they fit a spelling up to its
/// register or test, and ILL exactly where a refused name is, or nothing of all this is so; no other fault is read. Fillers
/// are passed. The clauses of [`token_at`] leave one answer. The table says what commands there are, and here is how each of its
/// rows is written, and which of them admit modifiers.
pub fn spelling()
    ensures table { is_table ROWS ≡ true }
    ensures spelled { (rows : List Row) → IsSpelled rows }
    ensures longest { (rows : List Row) → is_table rows ≡ true → IsLongest rows }
    ensures cut { (rows : List Row) → is_table rows ≡ true → IsCutExactly rows }
    ensures no_register { (rows : List Row) → is_table rows ≡ true → LacksRegisterExactly rows }
    ensures no_test { (rows : List Row) → is_table rows ≡ true → LacksTestExactly rows }
    ensures ill { (rows : List Row) → is_table rows ≡ true → IsIllExactly rows }
    ensures faults { (rows : List Row) → IsFaultOfFour rows }
    ensures fillers { PassesFillers }
    ensures determined { IsDetermined }
    ensures numbers { NumbersAreSpelled }
    ensures plain_commands { PlainCommandsAreSpelled }
    ensures register_commands { RegisterCommandsAreSpelled }
    ensures text_commands { TextCommandsAreSpelled }
    ensures marks { MarksAreSpelled }
    ensures modifiers { ModifiersAreAdmitted }
{}

/// The laws of the profiles, as its clauses.
///
/// The laws of [`spelling`] hold of [`WIDE_ROWS`] too, since it passes the test. What Named finds, Wide finds; what Wide finds,
/// Named finds, or it is ILL or IQC there. Here is what Wide adds.
pub fn profile_laws()
    ensures wide_table { is_table WIDE_ROWS ≡ true }
    ensures wide_keeps { WideKeeps }
    ensures wide_adds { WideAdds }
    ensures wide_spellings { WideSpellings }
{}
