//! Searches that replace or delete what they find. One that is not done keeps the arguments and the state; one that fails is done.
ghost use Rattle.std.specs.Prelude.{◌≡◌, ◌≤◌, ◌==◌, true, if◌then◌else◌, length};
ghost use Rattle.teco_core.specs.Arguments.{no_arguments};
ghost use Rattle.teco_step.specs.Families.{Acts};
ghost use Rattle.teco_step.specs.Searching as searching;
ghost use Rattle.teco_step.specs.Step.{steers};

use crate::failure::Failure;
use crate::next::{Next, Setting};
use crate::searching::{answer, fail, found, matched, note, noted_text};
use crate::taking::{rising, takes_none};
use std::ops::Range;
use teco_core::Args;
use teco_search::Patience;
use teco_store::Desk;

/// Notes the text, which was found, and puts bytes for those from one place to another, with the pointer after them. Where it is asked for
/// the answer is left.
#[inline(always)]
fn replace_between<D: Desk>(
    desk: &mut D,
    text: &[u8],
    bytes: &[u8],
    range: Range<usize>,
    asked: bool,
    args: &mut Args,
) -> Result<Next, Failure>
    requires ordered { range.start ≤ range.end }
    requires within { range.end ≤ length (D.state desk.old).text }
    ensures { Acts D.Desk (steers (λ s _. searching.replaces text.now bytes.now
        (if asked then searching.answer true else no_arguments) range.start range.end s))
        (desk.old, args.old) (desk.new, args.new) result }
{
    desk.note_replace(
        noted_text(text),
        range.start,
        range.end - range.start,
        bytes,
    )?;
    answer(asked, true, args);
    Ok(Next::On)
}

/// `nFS`, where `asked` says whether there is a colon.
#[inline(always)]
fn replace_found<D: Desk, P: Patience>(
    desk: &mut D,
    text: &[u8],
    bytes: &[u8],
    setting: Setting,
    asked: bool,
    args: &mut Args,
    patience: &P,
) -> Result<Next, Failure>
    requires { asked ≡ (setting.modifiers.colons == 1) }
    ensures { Acts D.Desk (steers (searching.search_and_replace text.now bytes.now setting))
        (desk.old, args.old) (desk.new, args.new) result }
{
    let Some((start, end)) = found(desk, text, args, patience)? else {
        return fail(desk, text, setting, args);
    };
    replace_between(desk, text, bytes, start..end, asked, args)
}

/// `nFS` looks for the nth occurrence of the text, and puts the bytes in its place. With a colon it gives the result.
#[inline(never)]
pub fn search_and_replace<D: Desk, P: Patience>(
    desk: &mut D,
    text: &[u8],
    bytes: &[u8],
    setting: Setting,
    args: &mut Args,
    patience: &P,
) -> Result<Next, Failure>
    ensures { Acts D.Desk (steers (searching.search_and_replace text.now bytes.now setting))
        (desk.old, args.old) (desk.new, args.new) result }
{
    let asked = setting.modifiers.colons == 1;
    replace_found(desk, text, bytes, setting, asked, args, patience)
}

/// `::FS` tells whether the text is at the pointer. There the bytes come in for it, and the pointer goes after them.
fn compare_and_replace<D: Desk>(
    desk: &mut D,
    text: &[u8],
    bytes: &[u8],
    args: &mut Args,
) -> Result<Next, Failure>
    ensures { Acts D.Desk (steers (searching.compare_and_replace text.now bytes.now))
        (desk.old, args.old) (desk.new, args.new) result }
{
    takes_none(args)?;
    let pointer = desk.pointer();
    match matched(desk, text)? {
        Some(end) => replace_between(desk, text, bytes, pointer..end, true, args),
        None => note(desk, text, false, pointer, true, Next::On, args),
    }
}

/// `:FS` and `::FS`.
#[inline(never)]
fn replace_with_colons<D: Desk, P: Patience>(
    desk: &mut D,
    text: &[u8],
    bytes: &[u8],
    setting: Setting,
    args: &mut Args,
    patience: &P,
) -> Result<Next, Failure>
    ensures { Acts D.Desk (steers (searching.replace text.now bytes.now setting))
        (desk.old, args.old) (desk.new, args.new) result }
{
    if setting.modifiers.colons == 2 {
        return compare_and_replace(desk, text, bytes, args);
    }
    search_and_replace(desk, text, bytes, setting, args, patience)
}

/// `FS`, and `:FS` and `::FS`.
pub fn replace<D: Desk, P: Patience>(
    desk: &mut D,
    text: &[u8],
    bytes: &[u8],
    setting: Setting,
    args: &mut Args,
    patience: &P,
) -> Result<Next, Failure>
    ensures { Acts D.Desk (steers (searching.replace text.now bytes.now setting))
        (desk.old, args.old) (desk.new, args.new) result }
{
    if setting.modifiers.colons > 0 {
        return replace_with_colons(desk, text, bytes, setting, args, patience);
    }
    replace_found(desk, text, bytes, setting, false, args, patience)
}

/// `nFK` looks for the nth occurrence of the text, and deletes what lies between the pointer and its end.
pub fn search_and_kill<D: Desk, P: Patience>(
    desk: &mut D,
    text: &[u8],
    setting: Setting,
    args: &mut Args,
    patience: &P,
) -> Result<Next, Failure>
    ensures { Acts D.Desk (steers (searching.search_and_kill text.now setting))
        (desk.old, args.old) (desk.new, args.new) result }
{
    let Some((_, end)) = found(desk, text, args, patience)? else {
        return fail(desk, text, setting, args);
    };
    let range = rising(desk.pointer(), end);
    let asked = setting.modifiers.colons == 1;
    replace_between(desk, text, &[], range, asked, args)
}
