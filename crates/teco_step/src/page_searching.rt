//! Searches over pages: a page is searched in one step, and turned or read in the next. One that is not done keeps the arguments and the
//! state.
ghost use Rattle.std.specs.Prelude.{◌≡◌, ◌<ℤ◌, IfOk, pos};
ghost use Rattle.teco_core.specs.ArgumentsView.{arguments};
ghost use Rattle.teco_step.specs.Families.{Acts, Takes};
ghost use Rattle.teco_step.specs.PageSearching as paging;
ghost use Rattle.teco_step.specs.Step.{steers};

use crate::failure::{Failure, done};
use crate::next::{Next, Setting, Work};
use crate::searching::{fail, note, sought};
use crate::taking::{takes_one_or, text_length};
use teco_core::{Args, Code};
use teco_search::{Patience, find_forward};
use teco_store::Desk;

/// How many occurrences are asked for: those that an earlier step left, or the number that the search takes.
fn asked(work: Option<Work>, args: &Args) -> Result<i32, Failure>
    ensures { Takes (λ n. n) result (paging.asked work (arguments args.now)) }
{
    match work {
        Some(work) => Ok(work.left),
        None => takes_one_or(args, 1),
    }
}

/// How many occurrences are wanted. A number that isn't above 0 is [`Code::Isa`].
fn wanted(work: Option<Work>, args: &Args) -> Result<i32, Failure>
    ensures value { Takes (λ n. n) result (paging.wanted work (arguments args.now)) }
    ensures some { IfOk result (λ n. pos 0 <ℤ n) }
{
    let n = asked(work, args)?;
    if n <= 0 {
        return Err(Failure::Command(Code::Isa));
    }
    Ok(n)
}

/// The page has too few occurrences. With no input left the search fails; else its result is noted, and the next page is a further step.
fn run_out<D: Desk>(
    desk: &mut D,
    text: &[u8],
    setting: Setting,
    left: i32,
    args: &mut Args,
) -> Result<Next, Failure>
    ensures { Acts D.Desk (steers (paging.runs_out text.now setting left))
        (desk.old, args.old) (desk.new, args.new) result }
{
    if desk.is_input_over() {
        return fail(desk, text, setting, args);
    }
    let next = Next::Again(Work {
        left,
        search: false,
    });
    note(desk, text, false, 0, false, next, args)
}

/// Searches the page in the buffer from the pointer.
fn search_page<D: Desk, P: Patience>(
    desk: &mut D,
    text: &[u8],
    setting: Setting,
    args: &mut Args,
    patience: &P,
) -> Result<Next, Failure>
    ensures { Acts D.Desk (steers (paging.search_page text.now setting))
        (desk.old, args.old) (desk.new, args.new) result }
{
    let n = wanted(setting.work, args)?;
    let pattern = sought(desk, text)?;
    let told = find_forward(&pattern, desk.halves(), desk.pointer(), n, patience)?;
    match told {
        Ok((_, end)) => {
            let asked = setting.modifiers.colons == 1;
            note(desk, text, true, end, asked, Next::On, args)
        }
        Err(left) => run_out(desk, text, setting, left, args),
    }
}

/// Turns the page, or reads the next one. To read it where the buffer isn't empty is [`Code::Yca`]. The search of the page is a further
/// step.
fn go_on<D: Desk>(desk: &mut D, quietly: bool, left: i32, args: &mut Args) -> Result<Next, Failure>
    ensures { Acts D.Desk (steers (λ s _. paging.goes_to_page (paging.next_in quietly) left s))
        (desk.old, args.old) (desk.new, args.new) result }
{
    let next = Next::Again(Work { left, search: true });
    if !quietly {
        return done(desk.turn_page(), next, args);
    }
    if text_length(desk) > 0 {
        return Err(Failure::Command(Code::Yca));
    }
    done(desk.read_page(), next, args)
}

/// `nN` looks for the nth occurrence in the buffer and the pages after it. A page that has too few is written, and the next one replaces it.
/// `n_` reads the next page without writing. The buffer must be empty where it does.
pub fn search_pages<D: Desk, P: Patience>(
    desk: &mut D,
    text: &[u8],
    quietly: bool,
    setting: Setting,
    args: &mut Args,
    patience: &P,
) -> Result<Next, Failure>
    ensures { Acts D.Desk (steers (paging.search_pages (paging.next_in quietly) text.now setting))
        (desk.old, args.old) (desk.new, args.new) result }
{
    match setting.work {
        Some(work) if !work.search => go_on(desk, quietly, work.left, args),
        _ => search_page(desk, text, setting, args, patience),
    }
}
