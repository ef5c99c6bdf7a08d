//! Tokens that give a value or build arguments. But for the commands that the level decides on, they change no state and take no
//! memory. One that is refused keeps the arguments.
ghost use Rattle.std.specs.Prelude.{◌≡◌, ◌++◌, ◌<◌, ◌^◌, pos, Err, IfErr, Ok, OnErr, OnOk};
ghost use Rattle.teco_core.specs.Arguments.{emptied};
ghost use Rattle.teco_core.specs.ArgumentsView.{arguments};
ghost use Rattle.teco_step.specs.Families.{Acts};
ghost use Rattle.teco_step.specs.Step.{gives, goes};
ghost use Rattle.teco_step.specs.Values as values;
ghost use Rattle.teco_step.specs.declared.failure.Failure.TheVariants.{Memory};

use crate::decimal::decimal as decimal_at_level;
use crate::failure::Failure;
use crate::line::byte_at;
use crate::next::Next;
use crate::pages::append_page;
use crate::registers::give_alone;
use crate::taking::{decimal, line_from, place_after, text_length, truth};
use teco_core::{Args, Code, Level};
use teco_scan::{Arithmetic, LevelCommand, Modifiers, Quantity};
use teco_store::Desk;

/// Gives a value.
pub(crate) fn give<D: Desk>(desk: &D, value: i32, args: &mut Args) -> Result<Next, Failure>
    ensures does { Acts D.Desk (goes (λ s a. gives s a value)) (desk.now, args.old) (desk.now, args.new) result }
    ensures no_memory { result ≡ Err Memory → ⊥ }
{
    args.give(value)?;
    Ok(Next::On)
}

/// A run of digits gives its value.
pub fn number<D: Desk>(desk: &D, digits: &[u8], args: &mut Args) -> Result<Next, Failure>
    ensures does { Acts D.Desk (goes (values.number digits.now))
        (desk.now, args.old) (desk.now, args.new) result }
    ensures no_memory { result ≡ Err Memory → ⊥ }
{
    give(desk, decimal(digits)?, args)
}

/// The places of `B`, `Z` and `.`, whether a form feed ended the page, and whether no input is left.
fn value_of<D: Desk>(desk: &D, quantity: Quantity) -> i32
    ensures { result ≡ values.quantity_value quantity (D.state desk.now) }
{
    match quantity {
        Quantity::Beginning => 0,
        Quantity::End => text_length(desk) as i32,
        Quantity::Pointer => desk.pointer() as i32,
        Quantity::FormFeed => truth(desk.flag()),
        Quantity::InputEnd => truth(desk.is_input_over()),
    }
}

/// `B`, `Z`, `.`, `^E` and `^N` give their value.
pub fn quantity<D: Desk>(desk: &D, quantity: Quantity, args: &mut Args) -> Result<Next, Failure>
    ensures does { Acts D.Desk (goes (values.give_quantity quantity))
        (desk.now, args.old) (desk.now, args.new) result }
    ensures no_memory { result ≡ Err Memory → ⊥ }
{
    give(desk, value_of(desk, quantity), args)
}

/// `^^` and a byte gives the byte's code.
pub fn byte<D: Desk>(desk: &D, byte: u8, args: &mut Args) -> Result<Next, Failure>
    ensures does { Acts D.Desk (goes (values.give_byte byte))
        (desk.now, args.old) (desk.now, args.new) result }
    ensures no_memory { result ≡ Err Memory → ⊥ }
{
    give(desk, i32::from(byte), args)
}

/// Builds the arguments, where the text has this length.
#[inline(always)]
fn build(arithmetic: Arithmetic, length: usize, args: &mut Args) -> Result<(), Code>
    requires { length < 2 ^ 31 }
    ensures ok { OnOk result (values.built arithmetic length (arguments args.old) ≡ Ok (arguments args.new)) }
    ensures err { IfErr result (λ code. values.built arithmetic length (arguments args.old) ≡ Err code) }
    ensures unchanged { OnErr result (args.new ≡ args.old) }
{
    match arithmetic {
        Arithmetic::Whole => args.pair(length),
        Arithmetic::Operator(op) => args.operator(op),
        Arithmetic::Open => args.open(),
        Arithmetic::Close => args.close(),
        Arithmetic::Comma => args.comma(),
    }
}

/// `H` gives a pair, an operator waits for the next value, a parenthesis opens or closes, and a comma makes a value the first of two.
#[inline(always)]
pub fn arithmetic<D: Desk>(
    desk: &D,
    arithmetic: Arithmetic,
    args: &mut Args,
) -> Result<Next, Failure>
    ensures does { Acts D.Desk (goes (values.build arithmetic))
        (desk.now, args.old) (desk.now, args.new) result }
    ensures no_memory { result ≡ Err Memory → ⊥ }
{
    build(arithmetic, text_length(desk), args)?;
    Ok(Next::On)
}

/// The code of the byte at a place of a text in two halves, or -1 where none is.
#[inline(always)]
pub(crate) fn code_in(before: &[u8], after: &[u8], place: usize) -> i32
    ensures { result ≡ values.code_at (before.now ++ after.now) (pos place) }
{
    if place < before.len() {
        return i32::from(before[place]);
    }
    match after.get(place - before.len()) {
        Some(byte) => i32::from(*byte),
        None => -1,
    }
}

/// The code of the byte at a place, or -1 where none is.
#[inline(always)]
fn code_at<D: Desk>(desk: &D, place: i64) -> i32
    ensures { result ≡ values.code_at (D.state desk.now).text place }
{
    let (before, after) = desk.halves();
    match usize::try_from(place) {
        Ok(place) => code_in(before, after, place),
        Err(_) => -1,
    }
}

/// Gives the code of the character `n` after the pointer, in place of what the level has.
#[inline(always)]
fn give_code<D: Desk>(desk: &D, n: i32, args: &mut Args) -> Result<Next, Failure>
    ensures does { Acts D.Desk (goes (values.gives_code n)) (desk.now, args.old) (desk.now, args.new) result }
    ensures no_memory { result ≡ Err Memory → ⊥ }
{
    let code = code_at(desk, place_after(desk, n));
    give_alone(args, code);
    Ok(Next::On)
}

/// `nA` gives the code of a character, with a colon too. `A` without n reads a page.
#[inline(always)]
fn append<D: Desk>(desk: &mut D, modifiers: Modifiers, args: &mut Args) -> Result<Next, Failure>
    ensures { Acts D.Desk (goes (values.append modifiers)) (desk.old, args.old) (desk.new, args.new) result }
{
    match args.level() {
        Level::Value(n) => give_code(desk, n, args),
        Level::Sign(n) => give_code(desk, n, args),
        Level::Empty => append_page(desk, modifiers, args),
        Level::Waits => Err(Failure::Command(Code::Arg)),
    }
}

/// How far the place of line `n` is from the pointer, negative backward.
fn distance_to<D: Desk>(desk: &D, n: i32) -> i32
    ensures { result ≡ values.distance_to n (D.state desk.now) }
{
    let pointer = desk.pointer() as i32;
    line_from(desk, n) as i32 - pointer
}

/// Gives how far line `n` is, in place of what the level has.
fn give_distance<D: Desk>(desk: &D, n: i32, args: &mut Args) -> Result<Next, Failure>
    ensures does { Acts D.Desk (goes (λ s a. gives s (emptied a) (values.distance_to n s)))
        (desk.now, args.old) (desk.now, args.new) result }
    ensures no_memory { result ≡ Err Memory → ⊥ }
{
    let far = distance_to(desk, n);
    give_alone(args, far);
    Ok(Next::On)
}

/// `n^Q` gives how far line n is from the pointer, and without n how far the next line is.
#[inline(never)]
fn distance<D: Desk>(desk: &D, args: &mut Args) -> Result<Next, Failure>
    ensures does { Acts D.Desk (goes values.distance) (desk.now, args.old) (desk.now, args.new) result }
    ensures no_memory { result ≡ Err Memory → ⊥ }
{
    match args.level() {
        Level::Value(n) => give_distance(desk, n, args),
        Level::Sign(n) => give_distance(desk, n, args),
        Level::Empty | Level::Waits => give(desk, distance_to(desk, 1), args),
    }
}

/// A value or a command, by what the level has.
#[inline(always)]
pub fn at_level<D: Desk>(
    desk: &mut D,
    modifiers: Modifiers,
    command: LevelCommand,
    args: &mut Args,
) -> Result<Next, Failure>
    ensures { Acts D.Desk (goes (values.at_level modifiers command))
        (desk.old, args.old) (desk.new, args.new) result }
{
    match command {
        LevelCommand::Append => append(desk, modifiers, args),
        LevelCommand::Decimal => decimal_at_level(desk, args),
        LevelCommand::Distance => distance(desk, args),
    }
}
