//! What commands take: a number, a byte, a place, or a range of the text.
ghost use Rattle.std.specs.Prelude.{◌≡◌, ◌≤◌, ◌+ℤ◌, false, length, IfOk, pos};
ghost use Rattle.teco_core.specs.Arguments.{give, taken_from};
ghost use Rattle.teco_core.specs.ArgumentsView.{arguments};
ghost use Rattle.teco_core.specs.Number as number;
ghost use Rattle.teco_core.specs.Number.{decimal_value, fitted};
ghost use Rattle.teco_core.specs.declared.arguments.Taken.TheVariants.{Two};
ghost use Rattle.teco_core.specs.declared.limits.TheConstants.{TEXT_LIMIT};
ghost use Rattle.teco_step.specs.Families.{Takes, range_of};
ghost use Rattle.teco_step.specs.Line.{line};
ghost use Rattle.teco_step.specs.Step as step;
ghost use Rattle.teco_step.specs.Ending.{is_unfinished_code};
ghost use Rattle.teco_step.specs.Typing as typing;

use crate::failure::Failure;
use crate::line::line_place;
use std::ops::Range;
use teco_core::{Args, Code, Op, Taken};
use teco_store::Desk;

/// The value of a run of decimal digits.
pub(crate) fn decimal(digits: &[u8]) -> Result<i32, Failure>
    ensures { Takes (λ n. n) result (decimal_value digits.now) }
{
    Ok(teco_core::decimal(digits)?)
}

/// The sum of two numbers.
pub(crate) fn sum(m: i32, n: i32) -> Result<i32, Failure>
    ensures { Takes (λ n. n) result (fitted (m +ℤ n)) }
{
    Ok(teco_core::operation(Op::Plus, m, n)?)
}

/// An answer as a number: -1 for yes, 0 for no.
pub(crate) fn truth(answer: bool) -> i32
    ensures { result ≡ number.truth answer }
{
    if answer { -1 } else { 0 }
}

/// The arguments with a value given.
pub(crate) fn given(args: &Args, value: i32) -> Result<Args, Failure>
    ensures { Takes arguments result (give value (arguments args.now)) }
{
    let mut left = *args;
    left.give(value)?;
    Ok(left)
}

/// What a command takes. The arguments stay until it is done.
#[tactic(auto, using(crate::proofs::Own::own_taken))]
pub(crate) fn taken(args: &Args) -> Result<Taken, Failure>
    ensures { Takes (λ t. t) result (taken_from (arguments args.now)) }
{
    Ok(args.taken()?)
}

/// Of a command that takes nothing: anything taken is [`Code::Arg`].
pub(crate) fn takes_none(args: &Args) -> Result<(), Failure>
    ensures { Takes (λ u. u) result (step.takes_none (arguments args.now)) }
{
    match taken(args)? {
        Taken::None => Ok(()),
        Taken::One(_) | Taken::Two(..) => Err(Failure::Command(Code::Arg)),
    }
}

/// The number that a command takes, or this one where it takes none. A pair is [`Code::Arg`].
pub(crate) fn takes_one_or(args: &Args, default: i32) -> Result<i32, Failure>
    ensures { Takes (λ n. n) result (step.takes_one_or default (arguments args.now)) }
{
    match taken(args)? {
        Taken::None => Ok(default),
        Taken::One(n) => Ok(n),
        Taken::Two(..) => Err(Failure::Command(Code::Arg)),
    }
}

/// The number that a command takes; this code where it takes none. A pair is [`Code::Arg`].
pub(crate) fn takes_one(args: &Args, code: Code) -> Result<i32, Failure>
    requires { is_unfinished_code code ≡ false }
    ensures { Takes (λ n. n) result (step.takes_one code (arguments args.now)) }
{
    match taken(args)? {
        Taken::None => Err(Failure::Command(code)),
        Taken::One(n) => Ok(n),
        Taken::Two(..) => Err(Failure::Command(Code::Arg)),
    }
}

/// The byte of this number. One that no byte has is [`Code::Arg`].
pub(crate) fn as_byte(n: i32) -> Result<u8, Failure>
    ensures { Takes (λ b. b) result (step.as_byte n) }
{
    if n < 0 || n > 255 {
        return Err(Failure::Command(Code::Arg));
    }
    Ok(n as u8)
}

/// The length of the text of the buffer.
pub(crate) fn text_length<D: Desk>(desk: &D) -> usize
    ensures value { result ≡ length (D.state desk.now).text }
    ensures small { length (D.state desk.now).text ≤ TEXT_LIMIT }
{
    let (before, after) = desk.halves();
    before.len() + after.len()
}

/// A place in the text. One outside it is refused by this code.
pub(crate) fn place_in<D: Desk>(desk: &D, code: Code, place: i64) -> Result<usize, Failure>
    requires { is_unfinished_code code ≡ false }
    ensures value { Takes (λ p. p) result (step.place_or code (D.state desk.now) place) }
    ensures within { IfOk result (λ place. place ≤ length (D.state desk.now).text) }
{
    if place < 0 || place > text_length(desk) as i64 {
        return Err(Failure::Command(code));
    }
    Ok(place as usize)
}

/// The place `n` characters after the pointer, which may be outside the text.
pub(crate) fn place_after<D: Desk>(desk: &D, n: i32) -> i64
    ensures { result ≡ pos (D.state desk.now).pointer +ℤ n }
{
    desk.pointer() as i64 + i64::from(n)
}

/// The place of line `n`, as seen from the pointer.
pub(crate) fn line_from<D: Desk>(desk: &D, n: i32) -> usize
    ensures value { let s = D.state desk.now in result ≡ line s.text s.pointer n }
    ensures within { result ≤ length (D.state desk.now).text }
{
    let (before, after) = desk.halves();
    line_place(before, after, desk.pointer(), n)
}

/// From one place up to another.
pub(crate) fn rising(one: usize, other: usize) -> Range<usize>
    ensures value { range_of result ≡ step.rising one other }
    ensures ordered { result.start ≤ result.end }
{
    one.min(other)..one.max(other)
}

/// What lies between the pointer and line `n`.
fn lines<D: Desk>(desk: &D, n: i32) -> Range<usize>
    ensures value { let s = D.state desk.now in range_of result
        ≡ step.rising s.pointer (line s.text s.pointer n) }
    ensures ordered { result.start ≤ result.end }
    ensures within { result.end ≤ length (D.state desk.now).text }
{
    rising(desk.pointer(), line_from(desk, n))
}

/// The line that the pointer is in.
pub(crate) fn line_around<D: Desk>(desk: &D) -> Range<usize>
    ensures value { range_of result ≡ typing.around (D.state desk.now) }
    ensures ordered { result.start ≤ result.end }
    ensures within { result.end ≤ length (D.state desk.now).text }
{
    let pointer = desk.pointer();
    pointer.min(line_from(desk, 0))..pointer.max(line_from(desk, 1))
}

/// The range `m,n` of the text. An end outside the text is [`Code::Pop`].
pub(crate) fn range_between<D: Desk>(desk: &D, m: i32, n: i32) -> Result<Range<usize>, Failure>
    ensures value { Takes range_of result (step.reached (D.state desk.now) (Two m n)) }
    ensures ordered { IfOk result (λ range. range.start ≤ range.end) }
    ensures within { IfOk result (λ range. range.end ≤ length (D.state desk.now).text) }
{
    let one = place_in(desk, Code::Pop, i64::from(m))?;
    let other = place_in(desk, Code::Pop, i64::from(n))?;
    Ok(rising(one, other))
}

/// What a command reaches: `n` lines from the pointer, one where it takes nothing; or the range `m,n`, where an end outside the text
/// is [`Code::Pop`].
pub(crate) fn takes_reach<D: Desk>(desk: &D, args: &Args) -> Result<Range<usize>, Failure>
    ensures value { Takes range_of result (step.takes_reach (D.state desk.now) (arguments args.now)) }
    ensures ordered { IfOk result (λ range. range.start ≤ range.end) }
    ensures within { IfOk result (λ range. range.end ≤ length (D.state desk.now).text) }
{
    match taken(args)? {
        Taken::None => Ok(lines(desk, 1)),
        Taken::One(n) => Ok(lines(desk, n)),
        Taken::Two(m, n) => range_between(desk, m, n),
    }
}
