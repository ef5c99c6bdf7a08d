//! Commands on the number and the text of a register. One that is not done keeps the arguments and the state.
ghost use Rattle.std.specs.Prelude.{◌≡◌, ◌≤◌, ◌++◌, length, pos, Err, IfErr, IfOk, Ok};
ghost use Rattle.teco_core.specs.ArgumentsView.{arguments};
ghost use Rattle.teco_core.specs.Arguments.{emptied, give};
ghost use Rattle.teco_core.specs.Register.{content};
ghost use Rattle.teco_core.specs.declared.arguments.Taken.TheVariants.{Two};
ghost use Rattle.teco_core.specs.declared.limits.TheConstants.{TEXT_LIMIT};
ghost use Rattle.teco_step.specs.Editing.{or_byte};
ghost use Rattle.teco_step.specs.Families.{Acts, Does, Takes};
ghost use Rattle.teco_step.specs.Registers as registers;
ghost use Rattle.teco_step.specs.Values.{code_at};
ghost use Rattle.teco_step.specs.Step.{goes};
ghost use Rattle.teco_step.specs.declared.failure.Failure.TheVariants.{Memory};

use crate::edit::{inserted_byte, put};
use crate::failure::{Failure, done};
use crate::joining::{joined, joined_after};
use crate::next::Next;
use crate::taking::{given, sum, taken, takes_none, takes_reach};
use crate::typing::type_text;
use crate::value::code_in;
use teco_core::{Args, Code, Level, Profile, Reg, Taken};
use teco_io::Terminal;
use teco_scan::Modifiers;
use teco_store::{Desk, part};

/// The length of the text of `q`, in bytes.
fn length_of<D: Desk>(desk: &D, q: Reg) -> usize
    ensures value { result ≡ length (content (D.state desk.now).registers q).text }
    ensures small { length (content (D.state desk.now).registers q).text ≤ TEXT_LIMIT }
{
    desk.registers().value(q).text.len()
}

/// The number of `q`, or with a colon the length of its text.
fn value_of<D: Desk>(desk: &D, modifiers: Modifiers, q: Reg) -> i32
    ensures { result ≡ registers.number_or_length modifiers q (D.state desk.now) }
{
    if modifiers.colons == 1 {
        return length_of(desk, q) as i32;
    }
    desk.registers().number(q)
}

/// The code of byte `n` of the text of `q`, or -1 where none is.
fn code_of<D: Desk>(desk: &D, q: Reg, n: i32) -> i32
    ensures { result ≡ code_at (content (D.state desk.now).registers q).text n }
{
    match usize::try_from(n) {
        Ok(place) => code_in(desk.registers().text(q), &[], place),
        Err(_) => -1,
    }
}

/// The place of the byte that `nQq` asks for: in Wide n without a colon, where the level has it.
fn byte_asked(modifiers: Modifiers, profile: Profile, level: Level) -> Option<i32>
    ensures { result ≡ registers.byte_asked modifiers profile level }
{
    match (profile, level) {
        (Profile::Wide, Level::Value(n)) if modifiers.colons != 1 => Some(n),
        _ => None,
    }
}

/// `Qq` where the value could not be given, by this code: in Wide `nQq` gives the code of byte n of the text of q.
#[inline(never)]
fn code_or_refusal<D: Desk>(
    desk: &D,
    modifiers: Modifiers,
    q: Reg,
    code: Code,
    args: &mut Args,
) -> Result<Next, Failure>
    requires { give (registers.number_or_length modifiers q (D.state desk.now)) (arguments args.old)
        ≡ Err code }
    ensures does { Acts D.Desk (goes (registers.register_value modifiers q))
        (desk.now, args.old) (desk.now, args.new) result }
    ensures no_memory { result ≡ Err Memory → ⊥ }
{
    match byte_asked(modifiers, desk.profile(), args.level()) {
        Some(n) => {
            give_alone(args, code_of(desk, q, n));
            Ok(Next::On)
        }
        None => Err(Failure::Command(code)),
    }
}

/// `Qq` gives the number of q, and with a colon the length of its text. In Wide `nQq` gives the code of byte n of the text.
#[inline(always)]
pub fn register_value<D: Desk>(
    desk: &D,
    modifiers: Modifiers,
    q: Reg,
    args: &mut Args,
) -> Result<Next, Failure>
    ensures does { Acts D.Desk (goes (registers.register_value modifiers q))
        (desk.now, args.old) (desk.now, args.new) result }
    ensures no_memory { result ≡ Err Memory → ⊥ }
{
    match args.give(value_of(desk, modifiers, q)) {
        Ok(()) => Ok(Next::On),
        Err(code) => code_or_refusal(desk, modifiers, q, code, args),
    }
}

/// `m,nUq`: in Wide the number of q becomes n, and m is given. In Named it is [`Code::Arg`].
#[inline(never)]
fn set_and_give<D: Desk>(
    desk: &mut D,
    q: Reg,
    m: i32,
    n: i32,
    args: &mut Args,
) -> Result<Next, Failure>
    ensures { Acts D.Desk (goes (λ s _. registers.sets_number s.profile q (Two m n) s))
        (desk.old, args.old) (desk.new, args.new) result }
{
    match desk.profile() {
        Profile::Named => Err(Failure::Command(Code::Arg)),
        Profile::Wide => {
            desk.set_number(q, n)?;
            args.clear();
            give_alone(args, m);
            Ok(Next::On)
        }
    }
}

/// `nUq`: the number of q becomes n. In Wide `m,nUq` gives m.
#[inline(always)]
pub fn set_number<D: Desk>(desk: &mut D, q: Reg, args: &mut Args) -> Result<Next, Failure>
    ensures { Acts D.Desk (goes (registers.set_number q)) (desk.old, args.old) (desk.new, args.new) result }
{
    match taken(args)? {
        Taken::None => Err(Failure::Command(Code::Nau)),
        Taken::One(n) => done(desk.set_number(q, n), Next::On, args),
        Taken::Two(m, n) => set_and_give(desk, q, m, n, args),
    }
}

/// Gives a value in place of what the level has, which no level refuses.
#[tactic(auto, unfolding(teco_core::specs::Arguments::give))]
#[inline(always)]
pub(crate) fn give_alone(args: &mut Args, value: i32)
    ensures { give value (emptied (arguments args.old)) ≡ Ok (arguments args.new) }
{
    args.empty_level();
    match args.give(value) {
        Ok(()) => {}
        Err(_) => {}
    }
}

/// Adds `n` to the number of q, and gives the sum in place of what the level has.
#[inline(always)]
fn add_alone<D: Desk>(desk: &mut D, q: Reg, n: i32, args: &mut Args) -> Result<Next, Failure>
    ensures { Acts D.Desk (goes (registers.adds_alone q n)) (desk.old, args.old) (desk.new, args.new) result }
{
    let sum = sum(desk.registers().number(q), n)?;
    desk.set_number(q, sum)?;
    give_alone(args, sum);
    Ok(Next::On)
}

/// Adds 1 to the number of q, and gives the sum to the operator that waits, which may refuse it.
fn add_one<D: Desk>(desk: &mut D, q: Reg, args: &mut Args) -> Result<Next, Failure>
    ensures { Acts D.Desk (goes (registers.adds q (pos 1))) (desk.old, args.old) (desk.new, args.new) result }
{
    let sum = sum(desk.registers().number(q), 1)?;
    let left = given(args, sum)?;
    desk.set_number(q, sum)?;
    *args = left;
    Ok(Next::On)
}

/// `n%q`: the sum becomes the number of q, and is given.
#[inline(always)]
pub fn increment<D: Desk>(desk: &mut D, q: Reg, args: &mut Args) -> Result<Next, Failure>
    ensures { Acts D.Desk (goes (registers.increment q)) (desk.old, args.old) (desk.new, args.new) result }
{
    match args.level() {
        Level::Value(n) => add_alone(desk, q, n, args),
        Level::Sign(n) => add_alone(desk, q, n, args),
        Level::Empty => add_alone(desk, q, 1, args),
        Level::Waits => add_one(desk, q, args),
    }
}

/// A copy of the bytes, in memory of its own.
pub(crate) fn copy<D: Desk>(desk: &D, q: Reg, bytes: &[u8]) -> Result<Vec<u8>, Failure>
    ensures ok { IfOk result (λ copy. copy.items ≡ bytes.now) }
    ensures err { IfErr result (λ failure. failure ≡ Memory) }
{
    match Vec::from_slice(*desk.registers().value(q).text.allocator(), bytes) {
        Ok(copy) => Ok(copy),
        Err(_) => Err(Failure::Memory),
    }
}

/// The text of q becomes these bytes, and with a colon they come behind it. A text past its limit is [`Code::Big`].
fn come_to<D: Desk>(
    desk: &mut D,
    modifiers: Modifiers,
    q: Reg,
    text: &[u8],
    args: &mut Args,
) -> Result<Next, Failure>
    ensures { Acts D.Desk (goes (λ s _. registers.comes_to modifiers q text.now s))
        (desk.old, args.old) (desk.new, args.new) result }
{
    if modifiers.colons == 1 {
        let both = joined(desk, desk.registers().text(q), text)?;
        return done(desk.set_text(q, both), Next::On, args);
    }
    let text = copy(desk, q, text)?;
    done(desk.set_text(q, text), Next::On, args)
}

/// The byte that comes for the text of `^U`: in Wide that of the number that it takes, as for `I`. In Named it takes nothing.
fn byte_taken<D: Desk>(desk: &D, text: &[u8], args: &Args) -> Result<Option<u8>, Failure>
    ensures { Takes (or_byte text.now) result
        (registers.takes_text (D.state desk.now).profile text.now (arguments args.now)) }
{
    match taken(args)? {
        Taken::None => Ok(None),
        taken => match desk.profile() {
            Profile::Named => Err(Failure::Command(Code::Arg)),
            Profile::Wide => inserted_byte(text, taken),
        },
    }
}

/// `^Uqtext$`: the text of q becomes this one, and with a colon it comes behind the text of q. In Wide `n^Uq$` has the byte n for its text.
pub fn set_text<D: Desk>(
    desk: &mut D,
    modifiers: Modifiers,
    q: Reg,
    text: &[u8],
    args: &mut Args,
) -> Result<Next, Failure>
    ensures { Acts D.Desk (goes (registers.set_text modifiers q text.now))
        (desk.old, args.old) (desk.new, args.new) result }
{
    match byte_taken(desk, text, args)? {
        None => come_to(desk, modifiers, q, text, args),
        Some(byte) => come_to(desk, modifiers, q, &[byte], args),
    }
}

/// What comes to q of a range in two parts, in memory of its own: with a colon the text of q comes before it.
fn extracted<D: Desk>(
    desk: &D,
    modifiers: Modifiers,
    q: Reg,
    first: &[u8],
    second: &[u8],
) -> Result<Vec<u8>, Failure>
    ensures ok { IfOk result (λ text. text.items
        ≡ registers.kept modifiers q (D.state desk.now) ++ (first.now ++ second.now)) }
    ensures err { IfErr result (λ failure. failure ≡ Memory) }
{
    if modifiers.colons == 1 {
        return joined_after(desk, desk.registers().text(q), first, second);
    }
    joined(desk, first, second)
}

/// `nXq`: what n lines reach becomes the text of q, and with `m,nXq` the range. With a colon it comes behind the text of q.
pub fn extract<D: Desk>(
    desk: &mut D,
    modifiers: Modifiers,
    q: Reg,
    args: &mut Args,
) -> Result<Next, Failure>
    ensures { Acts D.Desk (goes (registers.extract modifiers q))
        (desk.old, args.old) (desk.new, args.new) result }
{
    let range = takes_reach(desk, args)?;
    let (before, after) = desk.halves();
    let (first, second) = part(before, after, range.start, range.end);
    let text = extracted(desk, modifiers, q, first, second)?;
    done(desk.set_text(q, text), Next::On, args)
}

/// `[q` pushes what q holds. The arguments stay.
pub fn push<D: Desk>(desk: &mut D, q: Reg, args: &Args) -> Result<Next, Failure>
    ensures { Acts D.Desk (goes (registers.push q)) (desk.old, args.now) (desk.new, args.now) result }
{
    if desk.pushed().is_full() {
        return Err(Failure::Command(Code::Pdo));
    }
    desk.push(q)?;
    Ok(Next::On)
}

/// `]q` takes off what was pushed last, and puts it into q. The arguments stay.
pub fn pop<D: Desk>(desk: &mut D, q: Reg, args: &Args) -> Result<Next, Failure>
    ensures { Acts D.Desk (goes (registers.pop q)) (desk.old, args.now) (desk.new, args.now) result }
{
    if desk.pushed().is_empty() {
        return Err(Failure::Command(Code::Cpq));
    }
    desk.pop(q)?;
    Ok(Next::On)
}

/// `Gq` inserts the text of q.
fn insert_text<D: Desk>(desk: &mut D, q: Reg, args: &mut Args) -> Result<Next, Failure>
    ensures { Acts D.Desk (goes (registers.insert_text q)) (desk.old, args.old) (desk.new, args.new) result }
{
    takes_none(args)?;
    let text = copy(desk, q, desk.registers().text(q))?;
    let pointer = desk.pointer();
    put(desk, pointer, 0, &text, args)
}

/// `Gq` inserts the text of q, and with a colon types it.
pub fn get<D: Desk, T: Terminal>(
    desk: &mut D,
    modifiers: Modifiers,
    q: Reg,
    args: &mut Args,
    term: &mut T,
) -> Result<Next, Failure>
    ensures { Does D.Desk T.Terminal (goes (registers.get modifiers q))
        (desk.old, args.old, term.old) (desk.new, args.new, term.new) result }
{
    if modifiers.colons == 1 {
        return type_text(desk, desk.registers().text(q), args, term);
    }
    insert_text(desk, q, args)
}
