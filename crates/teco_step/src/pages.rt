//! Pages of the input, what is written to the output, and the exit. A command that is not done keeps the arguments and the state.
ghost use Rattle.std.specs.Prelude.{◌≡◌, ◌≤◌, Err, IfErr, Ok, OnOk, false, if◌then◌else◌, length};
ghost use Rattle.teco_core.specs.Arguments.{no_arguments};
ghost use Rattle.teco_core.specs.ArgumentsView.{arguments};
ghost use Rattle.teco_step.specs.Families.{Acts, Takes, failure_of, tag_of};
ghost use Rattle.teco_step.specs.Pages as pages;
ghost use Rattle.teco_step.specs.Searching as searching;
ghost use Rattle.teco_step.specs.Step.{goes, steers};
ghost use Rattle.teco_step.specs.Ending.{end_of, is_unfinished};

use crate::failure::{Failure, done};
use crate::next::{Next, Work};
use crate::searching::answer;
use crate::taking::{range_between, taken, takes_none, takes_one_or, text_length};
use std::ops::Range;
use teco_core::{Args, Code, Taken};
use teco_scan::Modifiers;
use teco_store::{Desk, Refused};

/// Whether there is a page to read.
#[inline(always)]
fn has_page<D: Desk>(desk: &D) -> bool
    ensures { result ≡ pages.has_page (D.state desk.now) }
{
    !desk.is_input_over()
}

/// What a command leads to by the answer of its call of the desk. If that was done, whether there was a page is left where it is asked for.
#[inline(always)]
fn tell(
    answered: Result<(), Refused>,
    next: Next,
    asked: bool,
    there: bool,
    args: &mut Args,
) -> Result<Next, Failure>
    ensures ok { OnOk answered ((result ≡ Ok next)
        × (arguments args.new ≡ (if asked then searching.answer there else no_arguments))) }
    ensures err { IfErr answered (λ refused. (result ≡ Err (failure_of refused))
        × (arguments args.new ≡ arguments args.old)) }
{
    answered?;
    answer(asked, there, args);
    Ok(next)
}

/// `Y`: the next page replaces the buffer. Where the buffer isn't empty it is [`Code::Yca`]. With a colon it gives whether there was a page.
pub fn next_page<D: Desk>(
    desk: &mut D,
    modifiers: Modifiers,
    args: &mut Args,
) -> Result<Next, Failure>
    ensures { Acts D.Desk (goes (pages.next_page modifiers))
        (desk.old, args.old) (desk.new, args.new) result }
{
    takes_none(args)?;
    if text_length(desk) > 0 {
        return Err(Failure::Command(Code::Yca));
    }
    let there = has_page(desk);
    tell(
        desk.read_page(),
        Next::On,
        modifiers.colons == 1,
        there,
        args,
    )
}

/// `A`: the next page comes after the text of the buffer, and the pointer stays. With no input left nothing changes. With a colon it gives
/// whether there was a page.
#[inline(never)]
pub(crate) fn append_page<D: Desk>(
    desk: &mut D,
    modifiers: Modifiers,
    args: &mut Args,
) -> Result<Next, Failure>
    ensures { Acts D.Desk (goes (pages.append_page modifiers))
        (desk.old, args.old) (desk.new, args.new) result }
{
    takes_none(args)?;
    let there = has_page(desk);
    tell(
        desk.append_page(),
        Next::On,
        modifiers.colons == 1,
        there,
        args,
    )
}

/// The pages that are left to turn. A number that isn't above 0 is [`Code::Ipa`].
fn pages_left(work: Option<Work>, args: &Args) -> Result<i32, Failure>
    ensures { Takes (λ n. n) result (pages.pages_left work (arguments args.now)) }
{
    match work {
        Some(work) => Ok(work.left),
        None => {
            let n = takes_one_or(args, 1)?;
            if n <= 0 {
                return Err(Failure::Command(Code::Ipa));
            }
            Ok(n)
        }
    }
}

/// What comes after one of so many pages on this desk.
fn after_page<D: Desk>(desk: &D, n: i32) -> Next
    ensures leads { let end = pages.after_page n in end_of (D.state desk.now) (tag_of end) result ≡ end }
    ensures finished { is_unfinished result ≡ false }
{
    if n <= 1 {
        return Next::On;
    }
    Next::Again(Work {
        left: n - 1,
        search: false,
    })
}

/// Whether a step of `P` gives an answer: with a colon that of the last page does.
fn is_asked(modifiers: Modifiers, n: i32) -> bool
    ensures { result ≡ pages.is_asked modifiers n }
{
    modifiers.colons == 1 && n <= 1
}

/// `nP`: one page is written, and the next one replaces it; the pages that are left after it are further steps. With a colon the last one
/// gives whether there was a page to read.
pub fn turn_pages<D: Desk>(
    desk: &mut D,
    modifiers: Modifiers,
    work: Option<Work>,
    args: &mut Args,
) -> Result<Next, Failure>
    ensures { Acts D.Desk (steers (pages.turn_pages modifiers work))
        (desk.old, args.old) (desk.new, args.new) result }
{
    let n = pages_left(work, args)?;
    let there = has_page(desk);
    let asked = is_asked(modifiers, n);
    tell(desk.turn_page(), after_page(desk, n), asked, there, args)
}

/// Writes a range of the buffer, and a form feed where one is asked for. The command is then done, and its arguments gone.
fn write_out<D: Desk>(
    desk: &mut D,
    range: Range<usize>,
    form_feed: bool,
    args: &mut Args,
) -> Result<Next, Failure>
    requires ordered { range.start ≤ range.end }
    requires within { range.end ≤ length (D.state desk.old).text }
    ensures { Acts D.Desk (goes (pages.writes range.start range.end form_feed))
        (desk.old, args.old) (desk.new, args.new) result }
{
    done(
        desk.write_out(range.start, range.end, form_feed),
        Next::On,
        args,
    )
}

/// `PW` writes the buffer and a form feed, and `m,nPW` the range alone.
pub fn write_page<D: Desk>(desk: &mut D, args: &mut Args) -> Result<Next, Failure>
    ensures { Acts D.Desk (goes pages.write_page) (desk.old, args.old) (desk.new, args.new) result }
{
    match taken(args)? {
        Taken::None => {
            let whole = 0..text_length(desk);
            write_out(desk, whole, true, args)
        }
        Taken::One(_) => Err(Failure::Command(Code::Arg)),
        Taken::Two(m, n) => {
            let range = range_between(desk, m, n)?;
            write_out(desk, range, false, args)
        }
    }
}

/// `EX`: the page in the buffer and the rest of the input are written, and the session is done.
pub fn exit<D: Desk>(desk: &mut D, args: &mut Args) -> Result<Next, Failure>
    ensures { Acts D.Desk (steers pages.exit) (desk.old, args.old) (desk.new, args.new) result }
{
    takes_none(args)?;
    done(desk.finish(), Next::Out, args)
}
