//! Why a step was not done, and what an answer leads to.
ghost use Rattle.std.specs.Prelude.{◌≡◌, Err, IfErr, Ok, OnOk};
ghost use Rattle.teco_core.specs.Arguments.{no_arguments};
ghost use Rattle.teco_core.specs.ArgumentsView.{arguments};
ghost use Rattle.teco_step.specs.Families as family;
ghost use Rattle.teco_step.specs.declared.failure.Failure.TheVariants as failure;

use crate::next::Next;
use std::alloc::AllocError;
use teco_core::{Args, Code};
use teco_search::GivenUp;
use teco_store::Refused;

/// Why a step was not done.
#[derive(Clone, Copy)]
pub enum Failure {
    /// The command is refused, by a code of the language.
    Command(Code),
    /// Memory was refused.
    Memory,
    /// A put failed.
    Terminal,
}

impl From<Code> for Failure {
    ghost from_gives = { λ code result. result ≡ failure.Command code };

    fn from(code: Code) -> Self {
        Failure::Command(code)
    }
}

impl From<Refused> for Failure {
    ghost from_gives = { λ refused result. result ≡ family.failure_of refused };

    fn from(refused: Refused) -> Self {
        match refused {
            Refused::Big => Failure::Command(Code::Big),
            Refused::NoMemory => Failure::Memory,
        }
    }
}

impl From<AllocError> for Failure {
    ghost from_gives = { λ _ result. result ≡ failure.Memory };

    fn from(_: AllocError) -> Self {
        Failure::Memory
    }
}

/// A search that gave up is not done, as one that was refused memory. Who runs the step asks once more whether the run is over.
impl From<GivenUp> for Failure {
    ghost from_gives = { λ _ result. result ≡ failure.Memory };

    fn from(_: GivenUp) -> Self {
        Failure::Memory
    }
}

/// What a command leads to by the answer of its call of the desk. If that was done, so is the command, and its arguments are gone.
#[inline(always)]
pub(crate) fn done(
    answer: Result<(), Refused>,
    next: Next,
    args: &mut Args,
) -> Result<Next, Failure>
    ensures ok { OnOk answer ((result ≡ Ok next) × (arguments args.new ≡ no_arguments)) }
    ensures err { IfErr answer (λ refused. (result ≡ Err (family.failure_of refused))
        × (arguments args.new ≡ arguments args.old)) }
{
    answer?;
    args.clear();
    Ok(next)
}

/// What an answer leads to.
#[inline(always)]
pub fn next_of(answer: Result<Next, Failure>) -> Next
    ensures { result ≡ family.next_of answer }
{
    match answer {
        Ok(next) => next,
        Err(Failure::Command(code)) => Next::Error(code),
        Err(Failure::Memory) => Next::Error(Code::Mem),
        Err(Failure::Terminal) => Next::Error(Code::Tty),
    }
}
