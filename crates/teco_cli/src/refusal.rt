//! Why the parser takes no line.
ghost use Rattle.clap.specs.Words.{kind_of};
ghost use Rattle.std.specs.Prelude.{◌≡◌, IfOk, IfSome};
ghost use Rattle.teco_cli.specs.Refusals.{IsFaulty, IsShown, IsToldAs, status_of_refusal};

use clap::error::ErrorKind;
use std::alloc::Global;
use std::fmt::Display;
use teco_core::NoMemory;

/// What a line is that the parser does not take.
#[derive(Clone, Copy)]
pub enum RefusedAs {
    /// It asks for the help.
    Help,
    /// It asks for the version.
    Version,
    /// It is faulty.
    Faulty,
    /// The parser was refused memory for it.
    NoMemory,
}

/// Why the parser takes no line.
#[derive(Drop)]
pub struct Refusal {
    /// What the line is.
    pub refused_as: RefusedAs,
    /// The text that is to be shown, unless memory was refused for it.
    pub text: Option<String>,
}

fn refused_as(kind: ErrorKind) -> RefusedAs
    ensures { IsToldAs result kind }
{
    match kind {
        ErrorKind::DisplayHelp => RefusedAs::Help,
        ErrorKind::DisplayVersion => RefusedAs::Version,
        ErrorKind::OutOfMemory => RefusedAs::NoMemory,
        _ => RefusedAs::Faulty,
    }
}

/// The text that an error shows.
fn text_of<E: Display>(alloc: Global, error: &E) -> Result<String, NoMemory>
    ensures { IfOk result (IsShown (E.output error.now)) }
{
    format!(in alloc; "{error}")
}

/// The refusal of a line that is this, with the parser's text.
pub fn refused_by<E: Display>(alloc: Global, refused_as: RefusedAs, error: &E) -> Refusal
    ensures told { result.refused_as ≡ refused_as }
    ensures text { IfSome result.text (IsShown (E.output error.now)) }
{
    Refusal {
        refused_as,
        text: text_of(alloc, error).ok(),
    }
}

/// The refusal that the parser's error tells.
pub fn refusal_of(alloc: Global, error: &clap::Error) -> Refusal
    ensures { IsToldAs result.refused_as (kind_of error.now) }
{
    refused_by(alloc, refused_as(error.kind()), error)
}

/// The refusal of a faulty line: why, and the usage of its program, in the form of the parser's own texts.
pub fn faulty(alloc: Global, why: &str, usage: &str) -> Result<Refusal, NoMemory>
    ensures { IfOk result (IsFaulty why.now usage.now) }
{
    let text = format!(in alloc;
        "error: {why}\n\nUsage: {usage}\n\nFor more information, try '--help'.\n"
    )?;
    Ok(Refusal {
        refused_as: RefusedAs::Faulty,
        text: Some(text),
    })
}

/// The status of a refused line: 3, or 0 where it asks for the help or the version.
pub fn refused_status(refusal: &Refusal) -> u8
    ensures { result ≡ status_of_refusal refusal.now.refused_as }
{
    match refusal.refused_as {
        RefusedAs::Help | RefusedAs::Version => 0,
        RefusedAs::Faulty | RefusedAs::NoMemory => 3,
    }
}
