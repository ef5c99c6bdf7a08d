//! The case mode of searches.
ghost use Rattle.teco_step.specs.Case as case;
ghost use Rattle.teco_step.specs.Families.{Acts, Takes};
ghost use Rattle.teco_step.specs.Step.{goes};

use crate::failure::{Failure, done};
use crate::next::Next;
use crate::taking::takes_one;
use teco_core::{Args, CaseMode, Code};
use teco_store::Desk;

/// The case mode of a number: -1 is exact case, 0 either case, and any other is [`Code::Arg`].
fn mode_of(n: i32) -> Result<CaseMode, Failure>
    ensures { Takes (λ mode. mode) result (case.mode_of n) }
{
    match n {
        -1 => Ok(CaseMode::Exact),
        0 => Ok(CaseMode::Either),
        _ => Err(Failure::Command(Code::Arg)),
    }
}

/// `n^X` lets searches tell the cases of a letter apart, or not.
pub fn set_case<D: Desk>(desk: &mut D, args: &mut Args) -> Result<Next, Failure>
    ensures { Acts D.Desk (goes case.set_case) (desk.old, args.old) (desk.new, args.new) result }
{
    let mode = mode_of(takes_one(args, Code::Arg)?)?;
    done(desk.set_case(mode), Next::On, args)
}
