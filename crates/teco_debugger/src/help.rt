//! The list of the commands.
ghost use Rattle.std.specs.Prelude.{◌≡◌, ◌++◌, OnOk, map};
ghost use Rattle.std.specs.String.{string_bytes};
ghost use Rattle.teco_debugger.specs.Help.{help_shown, verb_line};
ghost use Rattle.teco_debugger.specs.Commands.{verb_by, verbs};

use crate::showing::push_many;
use crate::{VERBS, VerbRow};
use std::fmt::Write;
use teco_core::NoMemory;

/// Where the letters stand in a line of the help, and the texts after them.
const LETTER_COLUMN: usize = 17;

/// The table of the commands.
pub fn verb_rows() -> &'static [VerbRow]
    ensures { map verb_by result.now ≡ verbs }
{
    &VERBS
}

/// Shows a line of the help: a command with what it takes up to the column of the letters, its letter, and what it does.
#[tactic(auto, unfolding(crate::specs::Help::word_part, crate::specs::Help::letter_part))]
fn show_verb(out: &mut String, row: &VerbRow) -> Result<(), NoMemory>
    ensures { OnOk result (string_bytes out.new ≡ string_bytes out.old ++ verb_line row.now) }
{
    let word = row.word;
    let operand = row.operand;
    let letter = row.letter;
    let help = row.help;
    write!(out, "{word} {operand}")?;
    let blanks = LETTER_COLUMN.saturating_sub(word.len() + 1 + operand.len());
    push_many(out, b' ', blanks)?;
    writeln!(out, "{letter}  {help}")
}

/// Shows a line for each of these commands.
pub fn show_help(out: &mut String, rows: &[VerbRow]) -> Result<(), NoMemory>
    ensures { OnOk result (string_bytes out.new ≡ string_bytes out.old ++ help_shown rows.now) }
{
    for row in rows {
        show_verb(out, row)?;
    }
    Ok(())
}
