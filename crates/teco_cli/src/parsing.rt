//! The words of a program, read by the parser.
ghost use Rattle.clap.specs.Words.{HasMatchesOf, app_of, fault_of, is_simple_and_free};
ghost use Rattle.std.specs.Prelude.{[], ◌≡◌, IfErr, IfOk, map, true};
ghost use Rattle.std.specs.String.{string_bytes};
ghost use Rattle.teco_cli.specs.Parsing.{IsUnparsed, app_by, program_app};

use crate::fault::LineFault;
use crate::options::{OptionRow, with_table};
use crate::refusal::refusal_of;
use clap::{ArgMatches, Command};
use std::alloc::Global;
use teco_core::NoMemory;

/// The version of all programs.
pub const VERSION: &str = "0.2.0";

/// What a program is called, and what its help tells.
pub struct Program {
    /// Its name.
    pub name: &'static str,
    /// What it is for.
    pub about: &'static str,
    /// What the help says after the arguments.
    pub after_help: &'static str,
    /// The usage, which the help and each faulty line show.
    pub usage: &'static str,
}

/// The command without its arguments: its name, what its help and its version tell, and that of an option given again the last one stands.
fn described<'a>(alloc: Global, program: &Program) -> Command<'a>
    ensures { app_of result ≡ program_app program.now.name.now }
{
    Command::new(alloc, program.name)
        .about(program.about)
        .after_help(program.after_help)
        .override_usage(program.usage)
        .version(VERSION)
        .args_override_self(true)
}

/// The command that the parser reads the words of a program by.
pub fn command_of<'a>(
    alloc: Global,
    program: &Program,
    rows: &[OptionRow],
) -> Result<Command<'a>, NoMemory>
    ensures { IfOk result (λ command. app_of command ≡ app_by program.now rows.now) }
{
    with_table(alloc, described(alloc, program), rows)
}

/// What the parser reads in the words of a program, whose arguments are these rows.
pub fn parsed<'a>(
    alloc: Global,
    program: &Program,
    rows: &[OptionRow],
    words: &'a [String],
) -> Result<ArgMatches<'a>, LineFault>
    ensures matches { IfOk result (HasMatchesOf (app_by program.now rows.now) (map string_bytes words.now)) }
    ensures taken { is_simple_and_free (app_by program.now rows.now) ≡ true
        → IfOk result (λ _. fault_of (app_by program.now rows.now) (map string_bytes words.now) ≡ []) }
    ensures refused { is_simple_and_free (app_by program.now rows.now) ≡ true
        → IfErr result (IsUnparsed (app_by program.now rows.now) (map string_bytes words.now)) }
{
    match command_of(alloc, program, rows)?.try_get_matches_from(words) {
        Ok(matches) => Ok(matches),
        Err(error) => Err(LineFault::Refused(refusal_of(alloc, &error))),
    }
}
