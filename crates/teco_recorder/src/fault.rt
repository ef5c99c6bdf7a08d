//! Why a session's file is not gone on with.
ghost use Rattle.teco_recorder.specs.Again.{IsOfSystem};

use std::io::{self, ErrorKind};
use teco_core::NoMemory;
use teco_fs::{Reason, reason_of};
use teco_replay::ReplayFault;

/// Why a session's file is not gone on with.
#[derive(Clone, Copy)]
pub enum OpenFault {
    /// It can't be opened, read or written, for this reason.
    NoFile(Reason),
    /// Memory was refused.
    NoMemory,
    /// It is no file of a session, or that of another version.
    Version,
    /// Its head is not as it was written.
    Head,
    /// This line after its head, counted from 1, is not as it was written.
    Changed(usize),
    /// It was begun in another profile, or with other lines of a page, or another depth.
    Settings,
    /// A string does not run again as it ran.
    Replay(ReplayFault),
    /// The input is neither the one that it was begun over nor the last output.
    Input,
}

impl From<NoMemory> for OpenFault {
    ghost use Rattle.std.specs.Prelude.{◌≡◌};
    ghost use Rattle.teco_recorder.specs.declared.fault.OpenFault.TheVariants as why;

    ghost from_gives = { λ _ fault. fault ≡ why.NoMemory };

    fn from(_: NoMemory) -> OpenFault {
        OpenFault::NoMemory
    }
}

impl From<ReplayFault> for OpenFault {
    ghost use Rattle.std.specs.Prelude.{◌≡◌};
    ghost use Rattle.teco_recorder.specs.declared.fault.OpenFault.TheVariants as why;

    ghost from_gives = { λ replay fault. fault ≡ why.Replay replay };

    fn from(fault: ReplayFault) -> OpenFault {
        OpenFault::Replay(fault)
    }
}

/// What an error of the system comes to.
pub fn no_file(error: io::Error) -> OpenFault
    ensures { IsOfSystem result }
{
    match error.kind() {
        ErrorKind::OutOfMemory => OpenFault::NoMemory,
        _ => OpenFault::NoFile(reason_of(error)),
    }
}
