//! One step of a text. The commonest first bytes have a copy of the code each, which the compiler makes for just their command.
ghost use Rattle.std.specs.Prelude.{◌≡◌, ◌≤◌, IfSome, MatchOption, [], drop, length};
ghost use Rattle.teco_scan.specs.Led.{Begins};
ghost use Rattle.teco_scan.specs.Scan.{after_fillers, scan};
ghost use Rattle.teco_scan.specs.Seen.{IsFoundAt, found_in};
ghost use Rattle.teco_exec.specs.TextStep.{StepsText};

use crate::cursor::Cursor;
use crate::flow::{Flow, Steps};
use crate::stepping::step_found;
use crate::stop::Stop;
use crate::watch::Watch;
use teco_core::{ESC, is_filler};
use teco_io::Terminal;
use teco_scan::{
    Form, Found, Text, bare_token, digits_token, end_found, escape_token, lead, mark_token,
    register_token, replace_token, tag_token, test_token, text_token, token_at,
};
use teco_store::Desk;

/// Passes what comes at the cursor, where it uses no step, or else does its steps. What uses no step is passed one token at a time, but
/// tags that come one after the other at once.
///
/// Where the limit of steps is reached, the run is over. A step that ends for want of memory, or because the terminal fails, isn't
/// counted.
///
/// `W` makes a copy for each kind of run: the compiler puts the code of an arm in line only where it has one caller.
#[inline(always)]
pub(crate) fn step<D: Desk, S: Stop, T: Terminal, W: Watch>(
    desk: &mut D,
    cursor: &mut Cursor,
    steps: &mut Steps,
    stop: &mut S,
    term: &mut T,
) -> Flow
    ensures { StepsText D.Desk T.Terminal (S.answered stop.old) (S.answered stop.new)
        (desk.old, term.old, steps.old) (desk.new, term.new, steps.new) cursor.old cursor.new result }
{
    let (text, at) = (cursor.text.bytes, cursor.at);
    let Some(from) = token_start(text, at) else {
        let found = end_found(text, at, text.len());
        return step_found(desk, cursor, &found, steps, stop, term);
    };
    step_control::<D, S, T, W>(desk, cursor, from, text[from], steps, stop, term)
}

/// Where the token at a place begins, after its fillers. There is none where no other byte is left.
#[inline(always)]
fn token_start(text: &[u8], at: usize) -> Option<usize>
    requires { at ≤ length text.now }
    ensures { MatchOption result (after_fillers (drop at text.now) ≡ []) (λ from. Begins text.now at from) }
{
    let mut from = at;
    while from < text.len() {
        if !is_filler(text[from]) {
            return Some(from);
        }
        from += 1;
    }
    None
}

/// Does the step of a token that begins at a place, where its first byte is that of a mark of a block, a tag, a jump or an ESC.
/// Else it leaves the step to the next of these functions: a match of all bytes takes the check ten times as long.
#[inline(always)]
fn step_control<D: Desk, S: Stop, T: Terminal, W: Watch>(
    desk: &mut D,
    cursor: &mut Cursor,
    from: usize,
    first: u8,
    steps: &mut Steps,
    stop: &mut S,
    term: &mut T,
) -> Flow
    requires { Begins cursor.old.text.bytes.now cursor.old.at from }
    ensures { StepsText D.Desk T.Terminal (S.answered stop.old) (S.answered stop.new)
        (desk.old, term.old, steps.old) (desk.new, term.new, steps.new) cursor.old cursor.new result }
{
    match first {
        b'>' => step_led::<D, S, T, W, b'>'>(desk, cursor, from, steps, stop, term),
        b'"' => step_led::<D, S, T, W, b'"'>(desk, cursor, from, steps, stop, term),
        b';' => step_led::<D, S, T, W, b';'>(desk, cursor, from, steps, stop, term),
        b'<' => step_led::<D, S, T, W, b'<'>(desk, cursor, from, steps, stop, term),
        b'|' => step_led::<D, S, T, W, b'|'>(desk, cursor, from, steps, stop, term),
        b'\'' => step_led::<D, S, T, W, b'\''>(desk, cursor, from, steps, stop, term),
        b'!' => step_tags::<D, S, T, W>(desk, cursor, from, steps, stop, term),
        b'O' => step_apart::<D, S, T, W, b'O'>(desk, cursor, from, steps, stop, term),
        ESC => step_led::<D, S, T, W, ESC>(desk, cursor, from, steps, stop, term),
        _ => step_buffer::<D, S, T, W>(desk, cursor, from, first, steps, stop, term),
    }
}

/// The same, for a command that moves in the buffer, changes it or types.
#[inline(always)]
fn step_buffer<D: Desk, S: Stop, T: Terminal, W: Watch>(
    desk: &mut D,
    cursor: &mut Cursor,
    from: usize,
    first: u8,
    steps: &mut Steps,
    stop: &mut S,
    term: &mut T,
) -> Flow
    requires { Begins cursor.old.text.bytes.now cursor.old.at from }
    ensures { StepsText D.Desk T.Terminal (S.answered stop.old) (S.answered stop.new)
        (desk.old, term.old, steps.old) (desk.new, term.new, steps.new) cursor.old cursor.new result }
{
    match first {
        b'I' => step_led::<D, S, T, W, b'I'>(desk, cursor, from, steps, stop, term),
        b'L' => step_led::<D, S, T, W, b'L'>(desk, cursor, from, steps, stop, term),
        b'R' => step_led::<D, S, T, W, b'R'>(desk, cursor, from, steps, stop, term),
        b'C' => step_led::<D, S, T, W, b'C'>(desk, cursor, from, steps, stop, term),
        b'J' => step_led::<D, S, T, W, b'J'>(desk, cursor, from, steps, stop, term),
        b'D' => step_led::<D, S, T, W, b'D'>(desk, cursor, from, steps, stop, term),
        b'K' => step_led::<D, S, T, W, b'K'>(desk, cursor, from, steps, stop, term),
        b'S' => step_led::<D, S, T, W, b'S'>(desk, cursor, from, steps, stop, term),
        b'F' => step_replace::<D, S, T, W>(desk, cursor, from, steps, stop, term),
        b'T' => step_apart::<D, S, T, W, b'T'>(desk, cursor, from, steps, stop, term),
        _ => step_register::<D, S, T, W>(desk, cursor, from, first, steps, stop, term),
    }
}

/// The same, for a command that sets, saves, gets or calls a register.
#[inline(always)]
fn step_register<D: Desk, S: Stop, T: Terminal, W: Watch>(
    desk: &mut D,
    cursor: &mut Cursor,
    from: usize,
    first: u8,
    steps: &mut Steps,
    stop: &mut S,
    term: &mut T,
) -> Flow
    requires { Begins cursor.old.text.bytes.now cursor.old.at from }
    ensures { StepsText D.Desk T.Terminal (S.answered stop.old) (S.answered stop.new)
        (desk.old, term.old, steps.old) (desk.new, term.new, steps.new) cursor.old cursor.new result }
{
    match first {
        b'U' => step_led::<D, S, T, W, b'U'>(desk, cursor, from, steps, stop, term),
        b'M' => step_led::<D, S, T, W, b'M'>(desk, cursor, from, steps, stop, term),
        b'X' => step_led::<D, S, T, W, b'X'>(desk, cursor, from, steps, stop, term),
        b'G' => step_led::<D, S, T, W, b'G'>(desk, cursor, from, steps, stop, term),
        b'[' => step_apart::<D, S, T, W, b'['>(desk, cursor, from, steps, stop, term),
        b']' => step_apart::<D, S, T, W, b']'>(desk, cursor, from, steps, stop, term),
        _ => step_operator::<D, S, T, W>(desk, cursor, from, first, steps, stop, term),
    }
}

/// The same, for an operator, a comma or a parenthesis.
#[inline(always)]
fn step_operator<D: Desk, S: Stop, T: Terminal, W: Watch>(
    desk: &mut D,
    cursor: &mut Cursor,
    from: usize,
    first: u8,
    steps: &mut Steps,
    stop: &mut S,
    term: &mut T,
) -> Flow
    requires { Begins cursor.old.text.bytes.now cursor.old.at from }
    ensures { StepsText D.Desk T.Terminal (S.answered stop.old) (S.answered stop.new)
        (desk.old, term.old, steps.old) (desk.new, term.new, steps.new) cursor.old cursor.new result }
{
    match first {
        b'+' => step_apart::<D, S, T, W, b'+'>(desk, cursor, from, steps, stop, term),
        b'-' => step_led::<D, S, T, W, b'-'>(desk, cursor, from, steps, stop, term),
        b'*' => step_apart::<D, S, T, W, b'*'>(desk, cursor, from, steps, stop, term),
        b'/' => step_apart::<D, S, T, W, b'/'>(desk, cursor, from, steps, stop, term),
        b',' => step_apart::<D, S, T, W, b','>(desk, cursor, from, steps, stop, term),
        b'(' => step_apart::<D, S, T, W, b'('>(desk, cursor, from, steps, stop, term),
        b')' => step_apart::<D, S, T, W, b')'>(desk, cursor, from, steps, stop, term),
        _ => step_value::<D, S, T, W>(desk, cursor, from, first, steps, stop, term),
    }
}

/// The same, for a command that stands for a number.
#[inline(always)]
fn step_value<D: Desk, S: Stop, T: Terminal, W: Watch>(
    desk: &mut D,
    cursor: &mut Cursor,
    from: usize,
    first: u8,
    steps: &mut Steps,
    stop: &mut S,
    term: &mut T,
) -> Flow
    requires { Begins cursor.old.text.bytes.now cursor.old.at from }
    ensures { StepsText D.Desk T.Terminal (S.answered stop.old) (S.answered stop.new)
        (desk.old, term.old, steps.old) (desk.new, term.new, steps.new) cursor.old cursor.new result }
{
    match first {
        b'%' => step_led::<D, S, T, W, b'%'>(desk, cursor, from, steps, stop, term),
        b'Q' => step_led::<D, S, T, W, b'Q'>(desk, cursor, from, steps, stop, term),
        b'Z' => step_led::<D, S, T, W, b'Z'>(desk, cursor, from, steps, stop, term),
        b'.' => step_led::<D, S, T, W, b'.'>(desk, cursor, from, steps, stop, term),
        b'\\' => step_led::<D, S, T, W, b'\\'>(desk, cursor, from, steps, stop, term),
        b'A' => step_apart::<D, S, T, W, b'A'>(desk, cursor, from, steps, stop, term),
        b'B' => step_apart::<D, S, T, W, b'B'>(desk, cursor, from, steps, stop, term),
        b'H' => step_apart::<D, S, T, W, b'H'>(desk, cursor, from, steps, stop, term),
        _ => step_number::<D, S, T, W>(desk, cursor, from, first, steps, stop, term),
    }
}

/// The same, for a digit.
/// What has no arm of its own takes longer, and is done as well.
#[inline(always)]
fn step_number<D: Desk, S: Stop, T: Terminal, W: Watch>(
    desk: &mut D,
    cursor: &mut Cursor,
    from: usize,
    first: u8,
    steps: &mut Steps,
    stop: &mut S,
    term: &mut T,
) -> Flow
    requires { Begins cursor.old.text.bytes.now cursor.old.at from }
    ensures { StepsText D.Desk T.Terminal (S.answered stop.old) (S.answered stop.new)
        (desk.old, term.old, steps.old) (desk.new, term.new, steps.new) cursor.old cursor.new result }
{
    match first {
        b'0'..=b'9' => step_digits::<D, S, T, W>(desk, cursor, from, steps, stop, term),
        _ => step_other(desk, cursor, from, steps, stop, term),
    }
}

/// Does the step of a token that was found, or of whatever comes.
#[inline(always)]
fn step_known<D: Desk, S: Stop, T: Terminal>(
    desk: &mut D,
    cursor: &mut Cursor,
    known: Option<Found>,
    steps: &mut Steps,
    stop: &mut S,
    term: &mut T,
) -> Flow
    requires read { IfSome known (λ found.
        found_in cursor.old.text.bytes.now found ≡ scan cursor.old.text.profile (drop cursor.old.at cursor.old.text.bytes.now)) }
    requires place { IfSome known (λ found. IsFoundAt cursor.old.text.bytes.now cursor.old.at found) }
    ensures { StepsText D.Desk T.Terminal (S.answered stop.old) (S.answered stop.new)
        (desk.old, term.old, steps.old) (desk.new, term.new, steps.new) cursor.old cursor.new result }
{
    match known {
        Some(found) => step_found(desk, cursor, &found, steps, stop, term),
        None => step_any(desk, cursor, steps, stop, term),
    }
}

/// Does the step of a token that begins at a place, of which this is the first byte: the code is made for just its command.
fn step_led<D: Desk, S: Stop, T: Terminal, W: Watch, const BYTE: u8>(
    desk: &mut D,
    cursor: &mut Cursor,
    from: usize,
    steps: &mut Steps,
    stop: &mut S,
    term: &mut T,
) -> Flow
    requires { Begins cursor.old.text.bytes.now cursor.old.at from }
    ensures { StepsText D.Desk T.Terminal (S.answered stop.old) (S.answered stop.new)
        (desk.old, term.old, steps.old) (desk.new, term.new, steps.new) cursor.old cursor.new result }
{
    let (text, at) = (cursor.text, cursor.at);
    if text.bytes[from] == BYTE {
        let known = known_at(text, at, from);
        return step_known(desk, cursor, known, steps, stop, term);
    }
    step_any(desk, cursor, steps, stop, term)
}

/// Does what [`step_led`] does, out of line.
#[inline(never)]
fn step_apart<D: Desk, S: Stop, T: Terminal, W: Watch, const BYTE: u8>(
    desk: &mut D,
    cursor: &mut Cursor,
    from: usize,
    steps: &mut Steps,
    stop: &mut S,
    term: &mut T,
) -> Flow
    requires { Begins cursor.old.text.bytes.now cursor.old.at from }
    ensures { StepsText D.Desk T.Terminal (S.answered stop.old) (S.answered stop.new)
        (desk.old, term.old, steps.old) (desk.new, term.new, steps.new) cursor.old cursor.new result }
{
    step_led::<D, S, T, W, BYTE>(desk, cursor, from, steps, stop, term)
}

/// Does the step of a replacement that begins at a place, out of line.
#[inline(never)]
fn step_replace<D: Desk, S: Stop, T: Terminal, W: Watch>(
    desk: &mut D,
    cursor: &mut Cursor,
    from: usize,
    steps: &mut Steps,
    stop: &mut S,
    term: &mut T,
) -> Flow
    requires { Begins cursor.old.text.bytes.now cursor.old.at from }
    ensures { StepsText D.Desk T.Terminal (S.answered stop.old) (S.answered stop.new)
        (desk.old, term.old, steps.old) (desk.new, term.new, steps.new) cursor.old cursor.new result }
{
    let known = replace_token(cursor.text.bytes, cursor.at, from);
    step_known(desk, cursor, known, steps, stop, term)
}

/// Passes a tag that begins at a place, and the tags that come after it.
fn step_tags<D: Desk, S: Stop, T: Terminal, W: Watch>(
    desk: &mut D,
    cursor: &mut Cursor,
    from: usize,
    steps: &mut Steps,
    stop: &mut S,
    term: &mut T,
) -> Flow
    requires { Begins cursor.old.text.bytes.now cursor.old.at from }
    ensures { StepsText D.Desk T.Terminal (S.answered stop.old) (S.answered stop.new)
        (desk.old, term.old, steps.old) (desk.new, term.new, steps.new) cursor.old cursor.new result }
{
    match step_led::<D, S, T, W, b'!'>(desk, cursor, from, steps, stop, term) {
        Flow::On => {
            cursor.pass_tags();
            Flow::On
        }
        flow => flow,
    }
}

/// Does the step of a run of digits that begins at a place.
fn step_digits<D: Desk, S: Stop, T: Terminal, W: Watch>(
    desk: &mut D,
    cursor: &mut Cursor,
    from: usize,
    steps: &mut Steps,
    stop: &mut S,
    term: &mut T,
) -> Flow
    requires { Begins cursor.old.text.bytes.now cursor.old.at from }
    ensures { StepsText D.Desk T.Terminal (S.answered stop.old) (S.answered stop.new)
        (desk.old, term.old, steps.old) (desk.new, term.new, steps.new) cursor.old cursor.new result }
{
    let (text, at) = (cursor.text.bytes, cursor.at);
    if text[from].is_ascii_digit() {
        let found = digits_token(text, at, from);
        return step_found(desk, cursor, &found, steps, stop, term);
    }
    step_any(desk, cursor, steps, stop, term)
}

/// Does the step of a token that begins at a place, whatever its first byte is.
#[inline(never)]
fn step_other<D: Desk, S: Stop, T: Terminal>(
    desk: &mut D,
    cursor: &mut Cursor,
    from: usize,
    steps: &mut Steps,
    stop: &mut S,
    term: &mut T,
) -> Flow
    requires { Begins cursor.old.text.bytes.now cursor.old.at from }
    ensures { StepsText D.Desk T.Terminal (S.answered stop.old) (S.answered stop.new)
        (desk.old, term.old, steps.old) (desk.new, term.new, steps.new) cursor.old cursor.new result }
{
    let known = known_at(cursor.text, cursor.at, from);
    step_known(desk, cursor, known, steps, stop, term)
}

/// Does what [`step`] does, whatever comes.
#[inline(never)]
fn step_any<D: Desk, S: Stop, T: Terminal>(
    desk: &mut D,
    cursor: &mut Cursor,
    steps: &mut Steps,
    stop: &mut S,
    term: &mut T,
) -> Flow
    ensures { StepsText D.Desk T.Terminal (S.answered stop.old) (S.answered stop.new)
        (desk.old, term.old, steps.old) (desk.new, term.new, steps.new) cursor.old cursor.new result }
{
    let found = token_at(cursor.text.profile, cursor.text.bytes, cursor.at);
    step_found(desk, cursor, &found, steps, stop, term)
}

/// The token that begins at a place, if its first byte alone names its command and what belongs to it follows.
#[inline(always)]
fn known_at(text: Text, at: usize, from: usize) -> Option<Found>
    requires { Begins text.bytes.now at from }
    ensures read { IfSome result (λ found. found_in text.entry.bytes.now found ≡ scan text.entry.profile (drop at text.entry.bytes.now)) }
    ensures place { IfSome result (λ found. IsFoundAt text.entry.bytes.now at found) }
{
    let Text { profile, bytes } = text;
    match lead(bytes, at, from)? {
        Form::Bare(command) => Some(bare_token(bytes, at, from, command)),
        Form::Mark(mark) => Some(mark_token(bytes, at, from, mark)),
        Form::Register(command) => register_token(bytes, at, from, command),
        Form::Text(command, usual) => text_token(bytes, at, from, command, usual),
        Form::Tag => tag_token(bytes, at, from),
        Form::Test => test_token(profile, bytes, at, from),
        Form::Escape => Some(escape_token(bytes, at, from)),
        _ => None,
    }
}
