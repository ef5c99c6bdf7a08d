//! What the line puts into registers, by a parse.
ghost use Rattle.clap.specs.Words.{found_of, rows_of};
ghost use Rattle.std.specs.Prelude.{IfErr, IfOk, codes, map};
ghost use Rattle.std.specs.List.{AllZip};
ghost use Rattle.teco_cli.specs.Assignments.{IsAssignment, why_no_assignment};
ghost use Rattle.teco_cli.specs.CommandLine.{IsFaultSaid, IsReadFault, IsWordFault, IsWordsFault};
ghost use Rattle.teco_cli.specs.Options.{option_texts};
ghost use Rattle.teco_cli.specs.Values.{texts_behind};

use super::faulty_line;
use crate::assignment::assignment_in;
use crate::{Assignment, LineFault};
use clap::ArgMatches;
use std::alloc::Global;
use teco_core::NoMemory;

/// The fault of a line with a word that is no assignment.
fn no_assignment(alloc: Global, word: &str) -> LineFault
    ensures { IsFaultSaid (why_no_assignment word.now) result }
{
    let why = format!(in alloc;
        "invalid value '{word}' for '--assign <A=TEXT>': expected A=TEXT or A:=N, where A is a letter or a digit, and N a number from -2147483648 to 2147483647"
    );
    match why {
        Ok(why) => faulty_line(alloc, why.as_str()),
        Err(NoMemory) => LineFault::NoMemory,
    }
}

/// The assignment that a word is. A line with a word that is none is faulty.
fn assignment_of(alloc: Global, word: &str) -> Result<Assignment, LineFault>
    ensures assignment { IfOk result (IsAssignment word.now) }
    ensures fault { IfErr result (IsWordFault word.now) }
{
    match assignment_in(alloc, word)? {
        Some(assignment) => Ok(assignment),
        None => Err(no_assignment(alloc, word)),
    }
}

/// The assignments that these words are, one after another.
fn assignments_of(alloc: Global, words: &[&str]) -> Result<Vec<Assignment>, LineFault>
    ensures assignments { IfOk result (λ made. AllZip IsAssignment (map (λ word. word.now) words.now) made.items) }
    ensures fault { IfErr result (IsWordsFault (map (λ word. word.now) words.now)) }
{
    let mut made = Vec::new(alloc);
    for word in words {
        let assignment = match assignment_of(alloc, word) {
            Ok(assignment) => assignment,
            Err(fault) => return Err(fault),
        };
        if made.push(assignment).is_err() {
            return Err(LineFault::NoMemory);
        }
    }
    Ok(made)
}

/// The same, if there are words.
fn assignments_given(alloc: Global, words: Option<&[&str]>) -> Result<Vec<Assignment>, LineFault>
    ensures assignments { IfOk result (λ made. AllZip IsAssignment (texts_behind words.entry) made.items) }
    ensures fault { IfErr result (IsWordsFault (texts_behind words.entry)) }
{
    match words {
        Some(words) => assignments_of(alloc, words),
        None => Ok(Vec::new(alloc)),
    }
}

/// What a parse puts into registers.
pub(crate) fn assignments_in<'a>(
    alloc: Global,
    matches: &ArgMatches<'a>,
) -> Result<Vec<Assignment>, LineFault>
    ensures assignments { IfOk result (λ made. AllZip IsAssignment (option_texts (codes "assign") (rows_of (found_of matches.now))) made.items) }
    ensures fault { IfErr result (IsReadFault (rows_of (found_of matches.now))) }
{
    assignments_given(alloc, matches.get_strs("assign"))
}
