//! How a run ends.
ghost use Rattle.std.specs.Prelude.{◌≡◌};
ghost use Rattle.teco_fs.specs.Reasons.{ComesTo};
ghost use Rattle.tecol_driver.specs.Ending.{status_of, status_put};
ghost use Rattle.tecol_driver.specs.declared.fate.TecolFate.TheVariants.{NoInput, NoMemory, NoOutput};

use std::io;
use teco_fs::{Reason, Unkept, reason_of, unless_memory};
use teco_io::InputFault;
use teco_messages::Spot;

/// What is found in what a run makes, where that tells of a check.
#[derive(Clone, Copy)]
pub enum Verdict {
    /// No fault, and all was looked into; or no check was asked for.
    Clean,
    /// No fault, and not all was looked into.
    Unchecked,
    /// A fault.
    Faulty,
}

/// How a run ends, once its command line is read.
#[derive(Clone, Copy)]
pub enum TecolFate {
    /// What was made is written, but this could not be kept of the file whose place it takes.
    Done(Option<Unkept>),
    /// So are the lines of a check that found no fault, and did not look into all.
    Unchecked(Option<Unkept>),
    /// So are the lines of a check that found a fault.
    Faulty(Option<Unkept>),
    /// In the source a caret at this line and column cannot be read.
    Unreadable(Spot),
    /// The input cannot be read, for this reason.
    NoInput(Reason),
    /// The input has more bytes than it may have.
    LargeInput,
    /// Memory was refused.
    NoMemory,
    /// The output cannot be written, for this reason.
    NoOutput(Reason),
}

impl From<InputFault> for TecolFate {
    ghost use Rattle.tecol_driver.specs.Ending.{fate_without_input};

    ghost from_gives = { λ fault fate. fate ≡ fate_without_input fault };

    fn from(fault: InputFault) -> TecolFate {
        match fault {
            InputFault::Read => TecolFate::NoInput(Reason::ReadFailed),
            InputFault::TooLarge => TecolFate::LargeInput,
            InputFault::Memory => TecolFate::NoMemory,
        }
    }
}

/// How a run ends where the input can't be opened.
pub fn no_input(error: io::Error) -> TecolFate
    ensures { ComesTo error NoMemory NoInput result }
{
    unless_memory(
        error,
        TecolFate::NoMemory,
        TecolFate::NoInput(reason_of(error)),
    )
}

/// How it ends where the output can't be written.
pub fn no_output(error: io::Error) -> TecolFate
    ensures { ComesTo error NoMemory NoOutput result }
{
    unless_memory(
        error,
        TecolFate::NoMemory,
        TecolFate::NoOutput(reason_of(error)),
    )
}

/// The status of a run whose output is written: this one, or 1 if text is lost with what could not be kept.
fn status_put(status: u8, unkept: Option<Unkept>) -> u8
    ensures { result ≡ status_put status unkept }
{
    match unkept {
        Some(unkept) if unkept.is_text() => 1,
        _ => status,
    }
}

/// The status: 2 where a fault was found or a source can't be read, 1 where anything failed, otherwise 0.
pub fn status(fate: TecolFate) -> u8
    ensures { result ≡ status_of fate }
{
    match fate {
        TecolFate::Done(unkept) => status_put(0, unkept),
        TecolFate::Unchecked(unkept) => status_put(0, unkept),
        TecolFate::Faulty(unkept) => status_put(2, unkept),
        TecolFate::Unreadable(_) => 2,
        _ => 1,
    }
}
