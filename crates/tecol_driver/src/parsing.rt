//! The program's command line.
ghost use Rattle.clap.specs.Words.{first_of, found_of, rows_of};
ghost use Rattle.std.specs.Prelude.{◌≡◌, ⊤, IfErr, IfOk, codes, is_some, map, unwrap_or};
ghost use Rattle.std.specs.String.{string_bytes};
ghost use Rattle.tecol_driver.specs.CommandLine.{GivesLine, SayLine, SayNoLine, GivesNoLine, go_apart, mode_by, tecol_rules};
ghost use Rattle.teco_cli.specs.OptionTable.{rule_by};

use crate::line::{TecolLine, TecolMode};
use clap::ArgMatches;
use std::alloc::Global;
use teco_cli::{
    CommandLine, LineFault, OptionRow, Program, Takes, faulty, flag_at, parsed, profile_at,
};
use teco_core::NoMemory;

/// What the help says after the options.
const AFTER_HELP: &str =
    "In a source $ is ESC, ^J a line end and ^A to ^_ are control bytes; line ends and margins are layout,
and !! begins a comment after a blank or at the beginning of a line. What a check prints is a line for
each fault and each hint: FILE:LINE:COLUMN: ILL: .. or FILE:LINE:COLUMN: hint: ..
Status: 0; 1 a file or memory failed; 2 a fault was found, or a source can't be read; 3 a wrong command line.";

/// The usage, which the help and each faulty line show.
const USAGE: &str = "tecol [OPTIONS] [FILE]";

/// What the help tells.
static PROGRAM: Program = Program {
    name: "tecol",
    about: "Makes bytes of sources of TECO command strings, and sources of bytes, and checks them",
    after_help: AFTER_HELP,
    usage: USAGE,
};

/// Every option, in the order of the help, and then the file.
static ARGUMENTS: [OptionRow; 7] = [
    OptionRow {
        name: "reverse",
        short: Some('r'),
        takes: Takes::Nothing,
        value: "",
        help: "Reads bytes, and writes a source of them",
    },
    OptionRow {
        name: "words",
        short: Some('w'),
        takes: Takes::Nothing,
        value: "",
        help: "Writes a source, with what each command does as a comment",
    },
    OptionRow {
        name: "check",
        short: Some('c'),
        takes: Takes::Nothing,
        value: "",
        help: "Prints what is wrong, and runs nothing",
    },
    OptionRow {
        name: "fix",
        short: None,
        takes: Takes::Nothing,
        value: "",
        help: "Prints with --check a diff instead, from spellings of the wider language to those of both",
    },
    OptionRow {
        name: "output",
        short: Some('o'),
        takes: Takes::Text,
        value: "FILE",
        help: "Where the output goes, - for standard output; a file has it whole or stays as it was",
    },
    OptionRow {
        name: "wide",
        short: None,
        takes: Takes::Nothing,
        value: "",
        help: "Reads the commands in the wider language of old macros",
    },
    OptionRow {
        name: "input",
        short: None,
        takes: Takes::MaybeOperand,
        value: "FILE",
        help: "The file to read; without it, or by -, standard input",
    },
];

/// What the program is called, and what its help tells.
fn program() -> &'static Program
    ensures { result.now.name.now ≡ codes "tecol" }
{
    &PROGRAM
}

/// The table.
fn arguments() -> &'static [OptionRow]
    ensures { map rule_by result.now ≡ tecol_rules }
{
    &ARGUMENTS
}

/// The text of an argument; `-` if it isn't given.
fn text_at(alloc: Global, matches: &ArgMatches, name: &str) -> Result<String, NoMemory>
    ensures { IfOk result (λ text. string_bytes text
        ≡ unwrap_or (first_of name.now (rows_of (found_of matches.now))) (codes "-")) }
{
    match matches.get_str(name) {
        Some(text) => String::from_str(alloc, text),
        None => String::from_str(alloc, "-"),
    }
}

/// What is made by these flags.
fn mode_by(reverse: bool, words: bool, check: bool, fix: bool) -> TecolMode
    ensures { result ≡ mode_by reverse words check fix }
{
    match (check, fix, reverse, words) {
        (true, false, true, _) => TecolMode::CheckBytes,
        (true, false, false, _) => TecolMode::CheckSource,
        (true, true, true, _) => TecolMode::FixBytes,
        (true, true, false, _) => TecolMode::FixSource,
        (false, _, true, _) => TecolMode::Listing,
        (false, _, false, true) => TecolMode::Again,
        (false, _, false, false) => TecolMode::Bytes,
    }
}

/// What is told of flags that don't go together, if they don't.
fn conflict_by(words: bool, check: bool, fix: bool) -> Option<&'static str>
    ensures { is_some result ≡ go_apart words check fix }
{
    if check && words {
        Some("the argument '--check' cannot be used with '--words'")
    } else if fix && !check {
        Some("the argument '--fix' needs '--check'")
    } else {
        None
    }
}

/// The line that a parse gives.
fn line_in<'a>(alloc: Global, matches: &ArgMatches<'a>) -> Result<TecolLine, LineFault>
    ensures line { IfOk result (GivesLine (rows_of (found_of matches.now))) }
    ensures refused { IfErr result (GivesNoLine (rows_of (found_of matches.now))) }
{
    let reverse = flag_at(matches, "reverse");
    let words = flag_at(matches, "words");
    let check = flag_at(matches, "check");
    let fix = flag_at(matches, "fix");
    if let Some(why) = conflict_by(words, check, fix) {
        return Err(LineFault::Refused(faulty(alloc, why, USAGE)?));
    }
    Ok(TecolLine {
        input: text_at(alloc, matches, "input")?,
        output: text_at(alloc, matches, "output")?,
        mode: mode_by(reverse, words, check, fix),
        profile: profile_at(matches),
        words,
    })
}

/// What the words say, the program's name first: `tecol [OPTIONS] [FILE]`.
fn line_of(alloc: Global, words: &[String]) -> Result<TecolLine, LineFault>
    ensures line { IfOk result (SayLine (map string_bytes words.now)) }
    ensures refused { IfErr result (SayNoLine (map string_bytes words.now)) }
{
    match parsed(alloc, program(), arguments(), words) {
        Ok(matches) => line_in(alloc, &matches),
        Err(fault) => Err(fault),
    }
}

impl CommandLine for TecolLine {
    ghost usage = { codes "tecol [OPTIONS] [FILE]" };

    ghost says = { SayLine };

    ghost lacks = { SayNoLine };

    ghost fits = { λ _. ⊤ };

    fn usage() -> &'static str {
        USAGE
    }

    fn of_words(alloc: Global, words: Vec<String>) -> Result<TecolLine, LineFault> {
        line_of(alloc, words.as_slice())
    }
}
