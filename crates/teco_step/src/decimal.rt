//! Numbers in decimal that are in the buffer.
ghost use Rattle.std.specs.Prelude.{◌≡◌, ◌+◌, ◌≤◌, ◌++◌, length, drop, min};
ghost use Rattle.teco_core.specs.Number.{digits_value, fitted};
ghost use Rattle.teco_scan.specs.Scan.{begins_run, run_of};
ghost use Rattle.teco_step.specs.Decimal as decimal;
ghost use Rattle.teco_step.specs.Families.{Acts, Takes};
ghost use Rattle.teco_step.specs.Step.{goes};
ghost use Rattle.teco_step.specs.declared.decimal.TheConstants.{PAST_NUMBERS};

use crate::edit::put;
use crate::failure::Failure;
use crate::line::byte_at;
use crate::next::Next;
use crate::taking::{given, takes_one};
use itoa::Buffer;
use teco_core::{Args, Code, Level};
use teco_store::Desk;

/// A value that no number has, nor its negative.
const PAST_NUMBERS: u64 = 1 << 32;

/// A number that is written in a text: its value, or one that is out of range as well; and the place after it.
#[derive(Clone, Copy)]
struct Numeral {
    value: i64,
    end: usize,
}

/// Whether a digit is at a place.
fn is_digit_at(before: &[u8], after: &[u8], place: usize) -> bool
    ensures { result ≡ begins_run (drop place (before.now ++ after.now)) }
{
    place < before.len() + after.len() && byte_at(before, after, place).is_ascii_digit()
}

/// The value of the digits from a place on, or [`PAST_NUMBERS`] where it is higher, and the place after them.
fn digits_at(before: &[u8], after: &[u8], from: usize) -> (u64, usize)
    requires { from ≤ length (before.now ++ after.now) }
    ensures value { result.0 ≡ min PAST_NUMBERS
        (digits_value 0 (run_of (drop from (before.now ++ after.now)))) }
    ensures end { result.1 ≡ from + length (run_of (drop from (before.now ++ after.now))) }
    ensures within { result.1 ≤ length (before.now ++ after.now) }
{
    let mut value = 0;
    let mut end = from;
    while is_digit_at(before, after, end) {
        let digit = u64::from(byte_at(before, after, end) - b'0');
        value = PAST_NUMBERS.min(value * 10 + digit);
        end += 1;
    }
    (value, end)
}

/// Whether a `-` is at a place, directly before digits.
fn is_negative_at(before: &[u8], after: &[u8], place: usize) -> bool
    ensures { result ≡ decimal.begins_negative (drop place (before.now ++ after.now)) }
{
    place < before.len() + after.len()
        && byte_at(before, after, place) == b'-'
        && is_digit_at(before, after, place + 1)
}

/// The number that is written from a place on: digits, and a `-` that is directly before them. Where no digit comes it is 0.
fn numeral_at(before: &[u8], after: &[u8], from: usize) -> Numeral
    requires { from ≤ length (before.now ++ after.now) }
    ensures value { fitted result.value
        ≡ fitted (decimal.numeral_at (drop from (before.now ++ after.now))).value }
    ensures end { result.end ≡ from + (decimal.numeral_at (drop from (before.now ++ after.now))).size }
    ensures within { result.end ≤ length (before.now ++ after.now) }
{
    if is_negative_at(before, after, from) {
        let (value, end) = digits_at(before, after, from + 1);
        return Numeral {
            value: -(value as i64),
            end,
        };
    }
    let (value, end) = digits_at(before, after, from);
    Numeral {
        value: value as i64,
        end,
    }
}

/// A value as a number of the language. One out of range is [`Code::Ovf`].
fn fit(value: i64) -> Result<i32, Failure>
    ensures { Takes (λ n. n) result (fitted value) }
{
    match i32::try_from(value) {
        Ok(number) => Ok(number),
        Err(_) => Err(Failure::Command(Code::Ovf)),
    }
}

/// Gives the number at the pointer, which goes after it. Where it can't be given, neither the arguments nor the pointer change.
fn read_number<D: Desk>(desk: &mut D, args: &mut Args) -> Result<Next, Failure>
    ensures { Acts D.Desk (goes decimal.read_number) (desk.old, args.old) (desk.new, args.new) result }
{
    let (before, after) = desk.halves();
    let written = numeral_at(before, after, desk.pointer());
    let number = fit(written.value)?;
    let left = given(args, number)?;
    desk.point(written.end)?;
    *args = left;
    Ok(Next::On)
}

/// `n\` inserts n in decimal.
fn insert_number<D: Desk>(desk: &mut D, args: &mut Args) -> Result<Next, Failure>
    ensures { Acts D.Desk (goes decimal.insert_number) (desk.old, args.old) (desk.new, args.new) result }
{
    let n = takes_one(args, Code::Arg)?;
    let pointer = desk.pointer();
    let mut buffer = Buffer::new();
    put(desk, pointer, 0, buffer.format(n).as_bytes(), args)
}

/// `\` inserts a number where the level has one, and else reads the one at the pointer.
#[inline(never)]
pub(crate) fn decimal<D: Desk>(desk: &mut D, args: &mut Args) -> Result<Next, Failure>
    ensures { Acts D.Desk (goes decimal.decimal) (desk.old, args.old) (desk.new, args.new) result }
{
    match args.level() {
        Level::Value(_) => insert_number(desk, args),
        Level::Sign(_) | Level::Empty | Level::Waits => read_number(desk, args),
    }
}
