//! What a run makes of its input.
ghost use Rattle.std.specs.Prelude.{◌≡◌, IfOk, option_map};
ghost use Rattle.tecol_driver.specs.Made.{IsFixed, IsMade, IsMadeOf, IsMadeOfSource, IsVerdict};

use crate::diffing::diff;
use crate::line::{TecolLine, TecolMode};
use crate::respelling::{Source, respelled};
use crate::synonyms::changes_in;
use std::alloc::Global;
use teco_core::NoMemory;
use teco_lint::{check, report};
use teco_scan::Text;
use teco_source::{ReaderFault, beginnings, commands, listing};

/// What was made.
#[derive(Drop)]
pub enum Made {
    /// Bytes, a listing, a diff, or the lines of a check by which the commands are clean.
    Fine(Vec<u8>),
    /// The lines of a check that found no fault, and did not look into all.
    Unchecked(Vec<u8>),
    /// The lines of a check that found a fault.
    Faulty(Vec<u8>),
    /// Nothing: in the source a caret at this place cannot be read.
    Unreadable(usize),
}

/// What a check tells of commands. `places` tells for each of their bytes where in the source it begins; without it the commands are
/// the source.
fn check_in(
    alloc: Global,
    name: &str,
    source: &[u8],
    places: Option<&[usize]>,
    commands: Text<'_>,
) -> Result<Made, NoMemory>
    ensures { IfOk result (IsVerdict commands.entry.profile commands.entry.bytes.now) }
{
    let advice = check(alloc, commands.profile, commands.bytes)?;
    let lines = report(alloc, name, source, places, commands, &advice.remarks)?.into_bytes();
    if advice.is_faulty {
        return Ok(Made::Faulty(lines));
    }
    if advice.is_unclean {
        return Ok(Made::Unchecked(lines));
    }
    Ok(Made::Fine(lines))
}

/// The diff of a source to the one in which the synonyms of its commands are spelled otherwise. `places` is as in [`check_in`].
fn fix_in<'a>(
    alloc: Global,
    name: &str,
    source: &'a [u8],
    places: Option<&'a [usize]>,
    commands: &[u8],
) -> Result<Made, NoMemory>
    ensures { IfOk result (IsFixed name.now source.now (option_map (λ it. it.now) places.entry) commands.now) }
{
    let source = Source {
        bytes: source,
        places,
    };
    let changes = changes_in(alloc, commands)?;
    let new = respelled(alloc, source, &changes)?;
    Ok(Made::Fine(diff(alloc, name, source.bytes, &new)?))
}

/// What is made of a source that stands for these commands.
fn make_of_commands(
    alloc: Global,
    line: &TecolLine,
    source: &[u8],
    bytes: Vec<u8>,
) -> Result<Made, NoMemory>
    ensures { IfOk result (IsMadeOf line.now line.now.mode source.now bytes.items) }
{
    match line.mode {
        TecolMode::CheckSource => {
            let places = beginnings(alloc, source)?;
            let commands = Text {
                profile: line.profile,
                bytes: &bytes,
            };
            check_in(alloc, line.input.as_str(), source, Some(&places), commands)
        }
        TecolMode::FixSource => {
            let places = beginnings(alloc, source)?;
            fix_in(alloc, line.input.as_str(), source, Some(&places), &bytes)
        }
        TecolMode::Again => Ok(Made::Fine(listing(alloc, line.profile, &bytes, line.words)?)),
        _ => Ok(Made::Fine(bytes)),
    }
}

/// What is made of a source.
fn make_of_source(alloc: Global, line: &TecolLine, source: &[u8]) -> Result<Made, NoMemory>
    ensures { IfOk result (IsMadeOfSource line.now line.now.mode source.now) }
{
    match commands(alloc, source) {
        Ok(bytes) => make_of_commands(alloc, line, source, bytes),
        Err(ReaderFault::Caret(at)) => Ok(Made::Unreadable(at)),
        Err(ReaderFault::Memory) => Err(NoMemory),
    }
}

/// What the line asks to be made of an input.
pub fn make(alloc: Global, line: &TecolLine, input: &[u8]) -> Result<Made, NoMemory>
    ensures { IfOk result (IsMade line.now input.now) }
{
    match line.mode {
        TecolMode::Listing => Ok(Made::Fine(listing(alloc, line.profile, input, line.words)?)),
        TecolMode::CheckBytes => {
            let commands = Text {
                profile: line.profile,
                bytes: input,
            };
            check_in(alloc, line.input.as_str(), input, None, commands)
        }
        TecolMode::FixBytes => fix_in(alloc, line.input.as_str(), input, None, input),
        _ => make_of_source(alloc, line, input),
    }
}
