//! What is told of how a run ends.
ghost use Rattle.std.specs.Prelude.{◌≡◌, ◌++◌, true, is_some, IfOk, OnErr};
ghost use Rattle.std.specs.String.{string_bytes};
ghost use Rattle.teco_fs.specs.Reasons.{with_reason};
ghost use Rattle.tecol_driver.specs.Ending.{is_told, kept_text, said, spot_in, text_of, unreadable};

use crate::fate::TecolFate;
use crate::line::TecolLine;
use std::alloc::Global;
use teco_core::NoMemory;
use teco_fs::{Reason, Unkept};
use teco_messages::{Spot, spot_of};

/// The line and the column of a place of a source, as far as it goes.
pub fn spot_in(source: &[u8], at: usize) -> Spot
    ensures { result ≡ spot_in source.now at }
{
    spot_of(source, at.min(source.len()))
}

/// A line about a name, which comes between two texts.
fn said_of(alloc: Global, before: &str, name: &str, after: &str) -> Result<String, NoMemory>
    ensures { IfOk result (λ text. string_bytes text ≡ said (before.now ++ name.now ++ after.now)) }
{
    format!(in alloc; "tecol: {before}{name}{after}\n")
}

/// A line about a file: what can't be done with it, and why.
fn said_why(alloc: Global, what: &str, name: &str, reason: Reason) -> Result<String, NoMemory>
    ensures { IfOk result (λ text. string_bytes text ≡ said (with_reason what.now name.now reason)) }
{
    let why = reason.words();
    format!(in alloc; "tecol: {what}{name}: {why}\n")
}

/// The line of a caret that cannot be read.
fn unreadable(alloc: Global, input: &str, spot: Spot) -> Result<String, NoMemory>
    ensures { IfOk result (λ text. string_bytes text ≡ unreadable input.now spot) }
{
    format!(in alloc; "{input}:{spot}: a caret before what it cannot stand before\n")
}

/// What is told of an output that is written: what could not be kept, or nothing.
fn kept_text(alloc: Global, line: &TecolLine, unkept: Option<Unkept>) -> Result<String, NoMemory>
    ensures ok { IfOk result (λ text. string_bytes text ≡ kept_text line.now unkept) }
    ensures err { OnErr result (is_some unkept ≡ true) }
{
    match unkept {
        Some(unkept) => said_of(alloc, line.output.as_str(), ": ", unkept.words()),
        None => Ok(String::new(alloc)),
    }
}

/// What is told: a line, or nothing.
pub fn text_of(alloc: Global, line: &TecolLine, fate: TecolFate) -> Result<String, NoMemory>
    ensures ok { IfOk result (λ text. string_bytes text ≡ text_of line.now fate) }
    ensures err { OnErr result (is_told fate ≡ true) }
{
    let input = line.input.as_str();
    match fate {
        TecolFate::Done(unkept) => kept_text(alloc, line, unkept),
        TecolFate::Unchecked(unkept) => kept_text(alloc, line, unkept),
        TecolFate::Faulty(unkept) => kept_text(alloc, line, unkept),
        TecolFate::Unreadable(spot) => unreadable(alloc, input, spot),
        TecolFate::NoInput(reason) => said_why(alloc, "cannot read ", input, reason),
        TecolFate::LargeInput => said_of(alloc, "", input, " is too large"),
        TecolFate::NoMemory => said_of(alloc, "no memory", "", ""),
        TecolFate::NoOutput(reason) => {
            said_why(alloc, "cannot write ", line.output.as_str(), reason)
        }
    }
}
