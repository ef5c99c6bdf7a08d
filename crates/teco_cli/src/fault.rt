//! Why the words of a program give no line.
ghost use Rattle.std.specs.IoError.{error_kind};
ghost use Rattle.std.specs.Prelude.{◌≡◌, ◌≢◌};
ghost use Rattle.std.specs.declared.io.ErrorKind.TheVariants as io_kind;
ghost use Rattle.teco_cli.specs.Refusals.{fault_for};

use crate::refusal::Refusal;
use std::io;
use teco_core::NoMemory;

/// Why the words of a program give no line.
#[derive(Drop)]
pub enum LineFault {
    /// The line is faulty, asks for the help or the version, or the parser was refused memory.
    Refused(Refusal),
    /// Memory was refused to the program itself.
    NoMemory,
}

impl From<NoMemory> for LineFault {
    ghost use Rattle.teco_cli.specs.declared.fault.LineFault.TheVariants.{NoMemory as no_memory};

    ghost from_gives = { λ _ fault. fault ≡ no_memory };

    fn from(_: NoMemory) -> LineFault {
        LineFault::NoMemory
    }
}

/// Why the program's words were not given: memory was refused to copy them, or one of them is not UTF-8 and the line is faulty.
pub fn fault_of_words(error: io::Error, not_text: Result<Refusal, NoMemory>) -> LineFault
    ensures memory { error_kind error ≡ io_kind.OutOfMemory → result ≡ LineFault.NoMemory }
    ensures other { error_kind error ≢ io_kind.OutOfMemory → result ≡ fault_for not_text }
{
    if error.kind() == io::ErrorKind::OutOfMemory {
        return LineFault::NoMemory;
    }
    match not_text {
        Ok(refusal) => LineFault::Refused(refusal),
        Err(NoMemory) => LineFault::NoMemory,
    }
}
