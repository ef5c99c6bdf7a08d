//! Commands that type. They change no state and take no memory, and one that is not done keeps the arguments.
ghost use Rattle.std.specs.Prelude.{◌≡◌, ◌≢◌, ◌≤◌, ◌<◌, ◌++◌, [], true, length, drop, take, Err, Ok, OnErr, OnOk};
ghost use Rattle.std.specs.Fmt.{digit_glyph, digits};
ghost use Rattle.teco_core.specs.Arguments.{no_arguments};
ghost use Rattle.teco_core.specs.ArgumentsView.{arguments};
ghost use Rattle.teco_core.specs.Number.{to_word};
ghost use Rattle.teco_step.specs.Families.{Types};
ghost use Rattle.teco_step.specs.Step.{goes};
ghost use Rattle.teco_io.specs.Terminal.{Puts};
ghost use Rattle.teco_step.specs.Typing as typing;

use crate::failure::Failure;
use crate::next::Next;
use crate::taking::{as_byte, line_around, takes_none, takes_one, takes_reach};
use itoa::Buffer;
use std::ops::Range;
use teco_core::{Args, Code};
use teco_io::{Terminal, TerminalFault};
use teco_scan::Modifiers;
use teco_store::{Desk, part};

/// The base that a number is typed in.
#[derive(Clone, Copy)]
pub enum Base {
    Decimal,
    Octal,
    Hexadecimal,
}

/// Shows the bytes, and puts nothing where there are none.
fn put_some<T: Terminal>(bytes: &[u8], term: &mut T) -> Result<(), TerminalFault>
    ensures puts { Puts (T.screen term.old) (T.screen term.new) bytes.now result }
    ensures some { OnErr result (bytes.now ≢ []) }
{
    if bytes.is_empty() {
        return Ok(());
    }
    term.put(bytes)
}

/// Shows a range of a text in two halves.
fn put_range<T: Terminal>(
    before: &[u8],
    after: &[u8],
    range: Range<usize>,
    term: &mut T,
) -> Result<(), TerminalFault>
    requires ordered { range.start ≤ range.end }
    requires within { range.end ≤ length (before.now ++ after.now) }
    ensures puts { Puts (T.screen term.old) (T.screen term.new)
        (drop range.start (take range.end (before.now ++ after.now))) result }
    ensures some { OnErr result (drop range.start (take range.end (before.now ++ after.now)) ≢ []) }
{
    let (first, second) = part(before, after, range.start, range.end);
    put_some(first, term)?;
    put_some(second, term)
}

/// What a command that types leads to. If its bytes are shown it is done, and its arguments are gone.
fn typed(shown: Result<(), TerminalFault>, args: &mut Args) -> Result<Next, Failure>
    ensures ok { OnOk shown ((result ≡ Ok Next.On) × (arguments args.new ≡ no_arguments)) }
    ensures err { OnErr shown ((result ≡ Err Failure.Terminal) × (arguments args.new ≡ arguments args.old)) }
{
    match shown {
        Ok(()) => {
            args.clear();
            Ok(Next::On)
        }
        Err(TerminalFault) => Err(Failure::Terminal),
    }
}

/// Shows the bytes. The command is then done, and its arguments gone.
pub(crate) fn show<D: Desk, T: Terminal>(
    desk: &D,
    bytes: &[u8],
    args: &mut Args,
    term: &mut T,
) -> Result<Next, Failure>
    ensures { Types (goes (typing.shows bytes.now)) (D.state desk.now) (arguments args.old)
        (arguments args.new) (T.screen term.old) (T.screen term.new) result }
{
    typed(put_some(bytes, term), args)
}

/// `nT` types what n lines reach, and `m,nT` the range.
pub fn type_out<D: Desk, T: Terminal>(
    desk: &D,
    args: &mut Args,
    term: &mut T,
) -> Result<Next, Failure>
    ensures { Types (goes typing.type_out) (D.state desk.now) (arguments args.old) (arguments args.new)
        (T.screen term.old) (T.screen term.new) result }
{
    let range = takes_reach(desk, args)?;
    let (before, after) = desk.halves();
    typed(put_range(before, after, range, term), args)
}

/// `V` types the line that the pointer is in.
pub fn view<D: Desk, T: Terminal>(desk: &D, args: &mut Args, term: &mut T) -> Result<Next, Failure>
    ensures { Types (goes typing.view) (D.state desk.now) (arguments args.old) (arguments args.new)
        (T.screen term.old) (T.screen term.new) result }
{
    takes_none(args)?;
    let range = line_around(desk);
    let (before, after) = desk.halves();
    typed(put_range(before, after, range, term), args)
}

/// `^Atext^A` types its text.
pub fn type_text<D: Desk, T: Terminal>(
    desk: &D,
    text: &[u8],
    args: &mut Args,
    term: &mut T,
) -> Result<Next, Failure>
    ensures { Types (goes (typing.type_text text.now)) (D.state desk.now) (arguments args.old)
        (arguments args.new) (T.screen term.old) (T.screen term.new) result }
{
    takes_none(args)?;
    show(desk, text, args, term)
}

/// `n^T` types the byte n.
pub fn type_byte<D: Desk, T: Terminal>(
    desk: &D,
    args: &mut Args,
    term: &mut T,
) -> Result<Next, Failure>
    ensures { Types (goes typing.type_byte) (D.state desk.now) (arguments args.old) (arguments args.new)
        (T.screen term.old) (T.screen term.new) result }
{
    let byte = as_byte(takes_one(args, Code::Arg)?)?;
    show(desk, &[byte], args, term)
}

/// Shows a few bytes as a line, which ends with CR LF; with a colon nothing follows them.
fn put_line<T: Terminal>(
    bytes: &[u8],
    modifiers: Modifiers,
    term: &mut T,
) -> Result<(), TerminalFault>
    requires { length bytes.now ≤ 64 }
    ensures puts { Puts (T.screen term.old) (T.screen term.new) (typing.ended modifiers bytes.now) result }
    ensures some { OnErr result (typing.ended modifiers bytes.now ≢ []) }
{
    if modifiers.colons == 1 {
        return put_some(bytes, term);
    }
    let end = bytes.len();
    let mut line = [0; 66];
    line[..end].copy_from_slice(bytes);
    line[end..end + 2].copy_from_slice(b"\r\n");
    put_some(&line[..end + 2], term)
}

/// The byte of a digit; a capital for one above 9.
fn digit_byte(digit: u32) -> u8
    requires { digit < 16 }
    ensures { result ≡ digit_glyph true digit }
{
    if digit < 10 {
        return b'0' + digit as u8;
    }
    b'A' + (digit - 10) as u8
}

/// Writes a number in a base at the end of the bytes, and says where it begins.
fn digits_in(base: u32, n: u32, bytes: &mut [u8; 64]) -> usize
    requires some { 0 < base }
    requires few { base ≤ 16 }
    ensures value { drop result bytes.new ≡ digits base true n }
    ensures within { result ≤ 64 }
{
    let mut start = 64;
    let mut left = n;
    while start > 0 {
        start -= 1;
        bytes[start] = digit_byte(left % base);
        left /= base;
        if left == 0 {
            break;
        }
    }
    start
}

/// The 32 bits of a number, as the number that they are without a sign.
#[tactic(auto, using(crate::proofs::Digits::same_word))]
fn word(n: i32) -> u32
    ensures { result ≡ to_word n }
{
    n.cast_unsigned()
}

/// Shows the 32 bits of a number in a base.
fn put_word<T: Terminal>(
    base: u32,
    n: i32,
    modifiers: Modifiers,
    term: &mut T,
) -> Result<(), TerminalFault>
    requires some { 0 < base }
    requires few { base ≤ 16 }
    ensures puts { Puts (T.screen term.old) (T.screen term.new)
        (typing.ended modifiers (digits base true (to_word n))) result }
    ensures some { OnErr result (typing.ended modifiers (digits base true (to_word n)) ≢ []) }
{
    let mut bytes = [0; 64];
    let start = digits_in(base, word(n), &mut bytes);
    put_line(&bytes[start..], modifiers, term)
}

/// Shows a number in decimal, or its 32 bits in octal or in hexadecimal.
fn put_number<T: Terminal>(
    n: i32,
    base: Base,
    modifiers: Modifiers,
    term: &mut T,
) -> Result<(), TerminalFault>
    ensures puts { Puts (T.screen term.old) (T.screen term.new)
        (typing.ended modifiers (typing.numeral base n)) result }
    ensures some { OnErr result (typing.ended modifiers (typing.numeral base n) ≢ []) }
{
    match base {
        Base::Decimal => {
            let mut buffer = Buffer::new();
            put_line(buffer.format(n).as_bytes(), modifiers, term)
        }
        Base::Octal => put_word(8, n, modifiers, term),
        Base::Hexadecimal => put_word(16, n, modifiers, term),
    }
}

/// `n=` types n in decimal, `n==` in octal, and `n===` in hexadecimal.
pub fn print<D: Desk, T: Terminal>(
    desk: &D,
    base: Base,
    modifiers: Modifiers,
    args: &mut Args,
    term: &mut T,
) -> Result<Next, Failure>
    ensures { Types (goes (typing.print base modifiers)) (D.state desk.now) (arguments args.old)
        (arguments args.new) (T.screen term.old) (T.screen term.new) result }
{
    let n = takes_one(args, Code::Nae)?;
    typed(put_number(n, base, modifiers, term), args)
}
