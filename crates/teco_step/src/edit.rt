//! Commands that move the pointer or change the text. One that is not done keeps the arguments and the state.
ghost use Rattle.std.specs.Prelude.{◌+◌, ◌≤◌, length};
ghost use Rattle.teco_step.specs.Editing as editing;
ghost use Rattle.teco_step.specs.Families.{Acts, Takes};
ghost use Rattle.teco_step.specs.Step.{goes};

use crate::failure::{Failure, done};
use crate::joining::joined;
use crate::next::Next;
use crate::taking::{
    as_byte, line_from, place_after, place_in, rising, taken, takes_one_or, takes_reach,
};
use teco_core::{Args, Code, Taken};
use teco_store::Desk;

/// Puts the pointer at a place. The command is then done, and its arguments gone. A place outside the text is [`Code::Pop`].
fn move_to<D: Desk>(desk: &mut D, place: i64, args: &mut Args) -> Result<Next, Failure>
    ensures { Acts D.Desk (goes (editing.moves_to place)) (desk.old, args.old) (desk.new, args.new) result }
{
    let place = place_in(desk, Code::Pop, place)?;
    done(desk.point(place), Next::On, args)
}

/// `nJ`: the pointer to n, or to 0.
pub fn jump<D: Desk>(desk: &mut D, args: &mut Args) -> Result<Next, Failure>
    ensures { Acts D.Desk (goes editing.jump) (desk.old, args.old) (desk.new, args.new) result }
{
    let n = takes_one_or(args, 0)?;
    move_to(desk, i64::from(n), args)
}

/// `nC`: the pointer forward by n, or by 1.
pub fn forward<D: Desk>(desk: &mut D, args: &mut Args) -> Result<Next, Failure>
    ensures { Acts D.Desk (goes editing.forward) (desk.old, args.old) (desk.new, args.new) result }
{
    let n = takes_one_or(args, 1)?;
    let place = place_after(desk, n);
    move_to(desk, place, args)
}

/// `nR`: the pointer back by n, or by 1.
pub fn back<D: Desk>(desk: &mut D, args: &mut Args) -> Result<Next, Failure>
    ensures { Acts D.Desk (goes editing.back) (desk.old, args.old) (desk.new, args.new) result }
{
    let n = takes_one_or(args, 1)?;
    let place = desk.pointer() as i64 - i64::from(n);
    move_to(desk, place, args)
}

/// `nL`: the pointer to line n, or to the next one.
pub fn to_line<D: Desk>(desk: &mut D, args: &mut Args) -> Result<Next, Failure>
    ensures { Acts D.Desk (goes editing.to_line) (desk.old, args.old) (desk.new, args.new) result }
{
    let n = takes_one_or(args, 1)?;
    let place = line_from(desk, n);
    done(desk.point(place), Next::On, args)
}

/// Puts bytes for so many at a place, and the pointer after them. The command is then done, and its arguments gone. A text past its
/// limit is [`Code::Big`].
#[inline(always)]
pub(crate) fn put<D: Desk>(
    desk: &mut D,
    at: usize,
    deleted: usize,
    bytes: &[u8],
    args: &mut Args,
) -> Result<Next, Failure>
    requires { at + deleted ≤ length (D.state desk.old).text }
    ensures { Acts D.Desk (goes (editing.puts at deleted bytes.now))
        (desk.old, args.old) (desk.new, args.new) result }
{
    done(desk.splice(at, deleted, bytes, None), Next::On, args)
}

/// `nD`: deletes n characters after the pointer, or -n before it; one where it takes none.
pub fn delete<D: Desk>(desk: &mut D, args: &mut Args) -> Result<Next, Failure>
    ensures { Acts D.Desk (goes editing.delete) (desk.old, args.old) (desk.new, args.new) result }
{
    let n = takes_one_or(args, 1)?;
    let place = place_in(desk, Code::Dtb, place_after(desk, n))?;
    let range = rising(desk.pointer(), place);
    put(desk, range.start, range.end - range.start, &[], args)
}

/// `nK` deletes what n lines reach, and `m,nK` the range. The pointer goes where they began.
pub fn kill<D: Desk>(desk: &mut D, args: &mut Args) -> Result<Next, Failure>
    ensures { Acts D.Desk (goes editing.kill) (desk.old, args.old) (desk.new, args.new) result }
{
    let range = takes_reach(desk, args)?;
    put(desk, range.start, range.end - range.start, &[], args)
}

/// What `I` inserts where it has no text: the byte of the number that it takes. A text beside the number is [`Code::Iia`].
pub(crate) fn inserted_byte(text: &[u8], taken: Taken) -> Result<Option<u8>, Failure>
    ensures { Takes (editing.or_byte text.now) result (editing.inserted text.now taken) }
{
    match taken {
        Taken::None => Ok(None),
        Taken::One(n) => {
            if !text.is_empty() {
                return Err(Failure::Command(Code::Iia));
            }
            Ok(Some(as_byte(n)?))
        }
        Taken::Two(..) => Err(Failure::Command(Code::Arg)),
    }
}

/// `Itext$` and `nI$`.
pub fn insert<D: Desk>(desk: &mut D, text: &[u8], args: &mut Args) -> Result<Next, Failure>
    ensures { Acts D.Desk (goes (editing.insert text.now)) (desk.old, args.old) (desk.new, args.new) result }
{
    let pointer = desk.pointer();
    match inserted_byte(text, taken(args)?)? {
        None => put(desk, pointer, 0, text, args),
        Some(byte) => put(desk, pointer, 0, &[byte], args),
    }
}

/// Of a command that takes nothing: anything taken is [`Code::Iia`].
fn untaken(taken: Taken) -> Result<(), Failure>
    ensures { Takes (λ u. u) result (editing.untaken taken) }
{
    match taken {
        Taken::None => Ok(()),
        Taken::One(_) | Taken::Two(..) => Err(Failure::Command(Code::Iia)),
    }
}

/// TAB `text$`: a TAB and the text come in.
pub fn insert_tab<D: Desk>(desk: &mut D, text: &[u8], args: &mut Args) -> Result<Next, Failure>
    ensures { Acts D.Desk (goes (editing.insert_tab text.now))
        (desk.old, args.old) (desk.new, args.new) result }
{
    untaken(taken(args)?)?;
    let bytes = joined(desk, b"\t", text)?;
    let pointer = desk.pointer();
    put(desk, pointer, 0, &bytes, args)
}
