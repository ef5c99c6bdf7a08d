//! Commands that leave an iteration, jump, or run a text. They change no state and take no memory, and one that is not
//! done keeps the arguments.
ghost use Rattle.std.specs.Prelude.{◌≡◌, Err};
ghost use Rattle.teco_step.specs.Control as control;
ghost use Rattle.teco_step.specs.Families.{Acts};
ghost use Rattle.teco_step.specs.Step.{steers};
ghost use Rattle.teco_step.specs.declared.failure.Failure.TheVariants.{Memory};

use crate::failure::Failure;
use crate::next::Next;
use crate::taking::{takes_none, takes_one_or, truth};
use teco_core::{Args, Code, Reg};
use teco_scan::Modifiers;
use teco_store::Desk;

/// Whether an iteration is left by n: where it is at least 0, and with a colon where it is below 0.
#[inline(always)]
fn is_left(modifiers: Modifiers, n: i32) -> bool
    ensures { result ≡ control.is_left modifiers n }
{
    if modifiers.colons == 1 { n < 0 } else { n >= 0 }
}

/// `n;` leaves the innermost iteration where n is at least 0, and without n by the last search result. With a colon it leaves where it
/// would go on. Where no iteration of the same text is open it is [`Code::Sni`].
pub fn leave_or_not<D: Desk>(
    desk: &D,
    modifiers: Modifiers,
    inside: bool,
    args: &mut Args,
) -> Result<Next, Failure>
    ensures does { Acts D.Desk (steers (control.leave_or_not modifiers inside))
        (desk.now, args.old) (desk.now, args.new) result }
    ensures no_memory { result ≡ Err Memory → ⊥ }
{
    let n = takes_one_or(args, truth(desk.last_result()))?;
    if !inside {
        return Err(Failure::Command(Code::Sni));
    }
    args.clear();
    if !is_left(modifiers, n) {
        return Ok(Next::On);
    }
    Ok(Next::Leave)
}

/// `Oname$` goes on after the tag of the name that the token has.
pub fn jump_to<D: Desk>(desk: &D, name: &[u8], args: &mut Args) -> Result<Next, Failure>
    ensures does { Acts D.Desk (steers (control.jump_to name.now))
        (desk.now, args.old) (desk.now, args.new) result }
    ensures no_memory { result ≡ Err Memory → ⊥ }
{
    takes_none(args)?;
    args.clear();
    Ok(Next::Go)
}

/// `Mq` runs the text of q. The arguments stay.
#[inline(always)]
pub fn run_register<D: Desk>(desk: &D, q: Reg, args: &Args) -> Result<Next, Failure>
    ensures does { Acts D.Desk (steers (control.run_register q))
        (desk.now, args.now) (desk.now, args.now) result }
    ensures no_memory { result ≡ Err Memory → ⊥ }
{
    Ok(Next::Call(q))
}
