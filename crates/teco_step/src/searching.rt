//! Searches. One that is not done keeps the arguments and the state; one that fails is done.
ghost use Rattle.std.specs.Prelude.{◌≡◌, ◌⊎◌, ◌<◌, ◌≤◌, IfErr, IfOk, IfSome, List, ℕ, Ok, [], false, if◌then◌else◌, length};
ghost use Rattle.std.specs.Option.{option_copied};
ghost use Rattle.teco_core.specs.Arguments.{no_arguments};
ghost use Rattle.teco_core.specs.ArgumentsView.{arguments};
ghost use Rattle.teco_store.specs.State.{State};
ghost use Rattle.teco_step.specs.Families.{Acts, IsRefusal, Takes};
ghost use Rattle.teco_step.specs.Searching as searching;
ghost use Rattle.teco_step.specs.Step.{steers};
ghost use Rattle.teco_step.specs.Ending.{end_of, is_unfinished};
ghost use Rattle.teco_step.specs.declared.failure.Failure.TheVariants.{Memory};

use crate::failure::Failure;
use crate::joining::allocator;
use crate::next::{Next, Setting};
use crate::registers::give_alone;
use crate::taking::{takes_none, takes_one_or, truth};
use teco_core::{Args, Code, Taken};
use teco_search::{
    Patience, Pattern, find, find_byte, find_exact, find_plain, is_plain, matches_at,
};
use teco_store::Desk;

/// The text that a search means: an empty one means the last one.
#[inline(always)]
fn meant<'a, D: Desk>(desk: &'a D, text: &'a [u8]) -> &'a [u8]
    ensures { result.now ≡ searching.text_or_last text.now (D.state desk.now) }
{
    if !text.is_empty() {
        return text;
    }
    match desk.last_search() {
        None => &[],
        Some(last) => last,
    }
}

/// What a search looks for that means this text. An empty one is [`Code::Iss`]; one that spells nothing is [`Code::Ice`].
fn sought_by<D: Desk>(desk: &D, meant: &[u8]) -> Result<Pattern, Failure>
    ensures ok { IfOk result (λ pattern. (text : List ℕ) → meant.now ≡ searching.text_or_last text (D.state desk.now)
        → searching.sought text (D.state desk.now) ≡ Ok pattern) }
    ensures err { IfErr result (λ failure. (text : List ℕ) → meant.now ≡ searching.text_or_last text (D.state desk.now)
        → IsRefusal failure (searching.sought text (D.state desk.now)) ⊎ (failure ≡ Memory)) }
{
    if meant.is_empty() {
        return Err(Failure::Command(Code::Iss));
    }
    match Pattern::read(allocator(desk), meant, desk.case_mode()) {
        Ok(pattern) => Ok(pattern),
        Err(Code::Mem) => Err(Failure::Memory),
        Err(code) => Err(Failure::Command(code)),
    }
}

/// What a search looks for. No text, and none before it, is [`Code::Iss`]; a text that spells nothing is [`Code::Ice`].
pub(crate) fn sought<D: Desk>(desk: &D, text: &[u8]) -> Result<Pattern, Failure>
    ensures ok { IfOk result (λ pattern. searching.sought text.now (D.state desk.now) ≡ Ok pattern) }
    ensures err { IfErr result (λ failure. IsRefusal failure (searching.sought text.now (D.state desk.now))
        ⊎ (failure ≡ Memory)) }
{
    sought_by(desk, meant(desk, text))
}

/// The number that a search takes, which may not be 0.
#[inline(always)]
fn takes_count(args: &Args) -> Result<i32, Failure>
    ensures { Takes (λ n. n) result (searching.takes_count (arguments args.now)) }
{
    let n = takes_one_or(args, 1)?;
    if n == 0 {
        return Err(Failure::Command(Code::Isa));
    }
    Ok(n)
}

/// Where the next occurrence from the pointer begins and ends of a text of one byte, which admits itself alone, where no number is given.
#[inline(always)]
fn byte_found<D: Desk>(desk: &D, text: &[u8], args: &Args) -> Option<Option<(usize, usize)>>
    ensures value { IfSome result (λ m. searching.found text.now (D.state desk.now) (arguments args.now) ≡ Ok m) }
    ensures within { IfSome result (λ found. IfSome found
        (λ m. (m.0 ≤ m.1) × (m.1 ≤ length (D.state desk.now).text))) }
{
    match args.taken() {
        Ok(Taken::None) => find_byte(text, desk.case_mode(), desk.halves(), desk.pointer()),
        _ => None,
    }
}

/// Where the next occurrence from the pointer begins and ends of a text whose bytes admit themselves alone, where no number is given.
#[inline(always)]
fn found_exactly<D: Desk>(desk: &D, text: &[u8], args: &Args) -> Option<Option<(usize, usize)>>
    ensures value { IfSome result (λ m. searching.found text.now (D.state desk.now) (arguments args.now) ≡ Ok m) }
    ensures within { IfSome result (λ found. IfSome found
        (λ m. (m.0 ≤ m.1) × (m.1 ≤ length (D.state desk.now).text))) }
{
    match args.taken() {
        Ok(Taken::None) => find_exact(text, desk.case_mode(), desk.halves(), desk.pointer()),
        _ => None,
    }
}

/// Where the nth occurrence of a text from the pointer begins and ends, if there is one.
#[inline(always)]
pub(crate) fn found<D: Desk, P: Patience>(
    desk: &D,
    text: &[u8],
    args: &Args,
    patience: &P,
) -> Result<Option<(usize, usize)>, Failure>
    ensures ok { IfOk result (λ m. searching.found text.now (D.state desk.now) (arguments args.now) ≡ Ok m) }
    ensures err { IfErr result (λ failure. IsRefusal failure
        (searching.found text.now (D.state desk.now) (arguments args.now)) ⊎ (failure ≡ Memory)) }
    ensures within { IfOk result (λ found. IfSome found
        (λ m. (m.0 ≤ m.1) × (m.1 ≤ length (D.state desk.now).text))) }
{
    match found_exactly(desk, text, args) {
        Some(place) => Ok(place),
        None => found_apart(desk, text, args, patience),
    }
}

/// Where the nth occurrence of a text from the pointer begins and ends, if there is one. Forward a plain text is looked for as it stands,
/// which takes no memory.
#[inline(never)]
fn found_apart<D: Desk, P: Patience>(
    desk: &D,
    text: &[u8],
    args: &Args,
    patience: &P,
) -> Result<Option<(usize, usize)>, Failure>
    ensures ok { IfOk result (λ m. searching.found text.now (D.state desk.now) (arguments args.now) ≡ Ok m) }
    ensures err { IfErr result (λ failure. IsRefusal failure
        (searching.found text.now (D.state desk.now) (arguments args.now)) ⊎ (failure ≡ Memory)) }
    ensures within { IfOk result (λ found. IfSome found
        (λ m. (m.0 ≤ m.1) × (m.1 ≤ length (D.state desk.now).text))) }
{
    let n = takes_count(args)?;
    let meant = meant(desk, text);
    if n > 0 && is_plain(meant) {
        let mode = desk.case_mode();
        let place = find_plain(meant, mode, desk.halves(), desk.pointer(), n, patience)?;
        return Ok(place);
    }
    let pattern = sought_by(desk, meant)?;
    let found = find(&pattern, desk.halves(), desk.pointer(), n, patience)?;
    Ok(found)
}

/// The text that a search notes: an empty one leaves the last one.
pub(crate) fn noted_text(text: &[u8]) -> Option<&[u8]>
    ensures { option_copied result ≡ searching.noted_text text.now }
{
    if text.is_empty() { None } else { Some(text) }
}

/// Leaves the result as the one argument where it is asked for, else none.
#[tactic(auto, unfolding(teco_core::specs::Arguments::give))]
pub(crate) fn answer(asked: bool, found: bool, args: &mut Args)
    ensures { arguments args.new ≡ (if asked then searching.answer found else no_arguments) }
{
    args.clear();
    if asked {
        give_alone(args, truth(found));
    }
}

/// Notes the text and the result, puts the pointer at a place, and leaves the result where it is asked for. The step then leads on.
#[inline(always)]
pub(crate) fn note<D: Desk>(
    desk: &mut D,
    text: &[u8],
    found: bool,
    place: usize,
    asked: bool,
    next: Next,
    args: &mut Args,
) -> Result<Next, Failure>
    requires there { place ≤ length (D.state desk.old).text }
    requires finished { is_unfinished next ≡ false }
    ensures { Acts D.Desk (steers (λ s _. searching.notes text.now found place
        (if asked then searching.answer found else no_arguments) (end_of s [] next) s))
        (desk.old, args.old) (desk.new, args.new) result }
{
    desk.note_search(noted_text(text), found, place)?;
    answer(asked, found, args);
    Ok(next)
}

/// What a failed search leads to: the string ends unless a colon asks or a `;` comes next in an iteration.
fn after_failing(setting: Setting) -> Next
    ensures leads { (s : State) → end_of s [] result ≡ searching.end_failed setting }
    ensures finished { is_unfinished result ≡ false }
{
    if setting.modifiers.colons == 1 || (setting.inside && setting.before) {
        return Next::On;
    }
    Next::Error(Code::Srh)
}

/// The search failed: the pointer goes to 0, and the string ends unless a colon asks or a `;` comes next in an iteration.
#[inline(never)]
pub(crate) fn fail<D: Desk>(
    desk: &mut D,
    text: &[u8],
    setting: Setting,
    args: &mut Args,
) -> Result<Next, Failure>
    ensures { Acts D.Desk (steers (searching.fails text.now setting))
        (desk.old, args.old) (desk.new, args.new) result }
{
    let asked = setting.modifiers.colons == 1;
    note(desk, text, false, 0, asked, after_failing(setting), args)
}

/// `nS` looks for the nth occurrence of the text, and puts the pointer after it.
#[inline(never)]
fn search<D: Desk, P: Patience>(
    desk: &mut D,
    text: &[u8],
    setting: Setting,
    args: &mut Args,
    patience: &P,
) -> Result<Next, Failure>
    ensures { Acts D.Desk (steers (searching.search text.now setting))
        (desk.old, args.old) (desk.new, args.new) result }
{
    let Some((_, end)) = found(desk, text, args, patience)? else {
        return fail(desk, text, setting, args);
    };
    let asked = setting.modifiers.colons == 1;
    note(desk, text, true, end, asked, Next::On, args)
}

/// Where the text ends that is at the pointer, if it is there.
pub(crate) fn matched<D: Desk>(desk: &D, text: &[u8]) -> Result<Option<usize>, Failure>
    ensures ok { IfOk result (λ end. searching.matched text.now (D.state desk.now) ≡ Ok end) }
    ensures err { IfErr result (λ failure. IsRefusal failure (searching.matched text.now (D.state desk.now))
        ⊎ (failure ≡ Memory)) }
    ensures after { IfOk result (λ end. IfSome end (λ place. (D.state desk.now).pointer ≤ place)) }
    ensures within { IfOk result (λ end. IfSome end (λ place. place ≤ length (D.state desk.now).text)) }
{
    let pattern = sought(desk, text)?;
    Ok(matches_at(&pattern, desk.halves(), desk.pointer()))
}

/// `::S` tells whether the text is at the pointer, and puts the pointer after it.
#[inline(never)]
fn compare<D: Desk>(desk: &mut D, text: &[u8], args: &mut Args) -> Result<Next, Failure>
    ensures { Acts D.Desk (steers (searching.compare text.now))
        (desk.old, args.old) (desk.new, args.new) result }
{
    takes_none(args)?;
    match matched(desk, text)? {
        Some(end) => note(desk, text, true, end, true, Next::On, args),
        None => {
            let pointer = desk.pointer();
            note(desk, text, false, pointer, true, Next::On, args)
        }
    }
}

/// `S`, and `::S`.
#[inline(always)]
pub fn search_or_compare<D: Desk, P: Patience>(
    desk: &mut D,
    text: &[u8],
    setting: Setting,
    args: &mut Args,
    patience: &P,
) -> Result<Next, Failure>
    ensures { Acts D.Desk (steers (searching.search_or_compare text.now setting))
        (desk.old, args.old) (desk.new, args.new) result }
{
    if setting.modifiers.colons == 2 {
        return compare(desk, text, args);
    }
    match byte_found(desk, text, args) {
        None => search(desk, text, setting, args, patience),
        Some(None) => fail(desk, text, setting, args),
        Some(Some((_, end))) => note(
            desk,
            text,
            true,
            end,
            setting.modifiers.colons == 1,
            Next::On,
            args,
        ),
    }
}
