//! How a run ends at an error of the system, and once its output is written.
ghost use Rattle.std.specs.Prelude.{◌≡◌};
ghost use Rattle.teco_driver.specs.Run.{fate_written};
ghost use Rattle.teco_fs.specs.Reasons.{ComesTo};
ghost use Rattle.teco_serve.specs.declared.fate.Fate.TheVariants.{NoBackup, NoInput, NoMemory, NoOutput};

use std::io;
use teco_fs::{Unkept, reason_of, unless_memory};
use teco_serve::{Fate, Served};

/// How the program ends where an input can't be opened.
pub fn no_input(error: io::Error) -> Fate
    ensures { ComesTo error NoMemory NoInput result }
{
    unless_memory(error, Fate::NoMemory, Fate::NoInput(reason_of(error)))
}

/// How it ends where the output can't be written.
pub fn no_output(error: io::Error) -> Fate
    ensures { ComesTo error NoMemory NoOutput result }
{
    unless_memory(error, Fate::NoMemory, Fate::NoOutput(reason_of(error)))
}

/// How it ends where the old bytes of the file that is to be written over can't be kept.
pub fn no_backup(error: io::Error) -> Fate
    ensures { ComesTo error NoMemory NoBackup result }
{
    unless_memory(error, Fate::NoMemory, Fate::NoBackup(reason_of(error)))
}

/// How the run ends whose output is written, if this could not be kept of the file that it was written over.
pub fn fate_written(unkept: Option<Unkept>) -> Fate
    ensures { result ≡ fate_written unkept }
{
    match unkept {
        Some(unkept) => Fate::Lacking(unkept),
        None => Fate::Ended(Served::Exit),
    }
}
