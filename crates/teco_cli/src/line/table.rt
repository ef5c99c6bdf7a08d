//! The table of options.
ghost use Rattle.std.specs.Prelude.{◌≡◌, map};
ghost use Rattle.teco_cli.specs.CommandLine.{teco_rules};
ghost use Rattle.teco_cli.specs.OptionTable.{rule_by};

use super::{MOST_PAGE_LINES, MOST_SECONDS};
use crate::{MOST_STEPS, OptionRow, Takes};
use teco_core::DEPTH_LIMIT;

/// Every option, in the order of the help, and then the operands.
static OPTIONS: [OptionRow; 21] = [
    OptionRow {
        name: "execute",
        short: Some('e'),
        takes: Takes::Texts,
        value: "STRINGS",
        help: "The command strings, whose output replaces INPUT.out: $ is ESC, ^J a line end, and !! begins a comment",
    },
    OptionRow {
        name: "pages",
        short: Some('p'),
        takes: Takes::Texts,
        value: "STRINGS",
        help: "The same, run on each page, and then an exit; the output goes to standard output",
    },
    OptionRow {
        name: "file",
        short: Some('f'),
        takes: Takes::Texts,
        value: "FILE",
        help: "A file of the same kind; the commands are those of each FILE in order, and then those of --execute",
    },
    OptionRow {
        name: "bytes",
        short: Some('b'),
        takes: Takes::Texts,
        value: "FILE",
        help: "The file that the commands are read from, as they are",
    },
    OptionRow {
        name: "assign",
        short: Some('v'),
        takes: Takes::Texts,
        value: "A=TEXT",
        help: "Puts TEXT into register A before the first string, or by A:=N the number N; may be repeated",
    },
    OptionRow {
        name: "output",
        short: Some('o'),
        takes: Takes::Text,
        value: "FILE",
        help: "Where the output goes after an exit, - for standard output; without it INPUT.out, or - if INPUT is - or with --pages",
    },
    OptionRow {
        name: "in-place",
        short: Some('i'),
        takes: Takes::Nothing,
        value: "",
        help: "Writes the output over each INPUT",
    },
    OptionRow {
        name: "backup",
        short: None,
        takes: Takes::Text,
        value: "SUFFIX",
        help: "The same, and keeps the old file as INPUT with SUFFIX after its name; --in-place=SUFFIX says so too, and -i.bak",
    },
    OptionRow {
        name: "no-sync",
        short: None,
        takes: Takes::Nothing,
        value: "",
        help: "Does not wait until each output is on the disk; a crash of the system may leave a part of one",
    },
    OptionRow {
        name: "session",
        short: None,
        takes: Takes::Text,
        value: "FILE",
        help: "Keeps what is done in FILE, so that a later run goes on from there, with all that can be undone",
    },
    OptionRow {
        name: "check",
        short: None,
        takes: Takes::Nothing,
        value: "",
        help: "Prints the faults of the commands, with their places; runs nothing, and reads no INPUT",
    },
    OptionRow {
        name: "page-lines",
        short: None,
        takes: Takes::Number(1, MOST_PAGE_LINES),
        value: "N",
        help: "The most lines of a page, at most 1000000000; without it form feeds end pages",
    },
    OptionRow {
        name: "limit",
        short: None,
        takes: Takes::Number(0, MOST_STEPS),
        value: "N",
        help: "The most steps of each command string, at most 1000000000000; without it 1000000, and 1000 for each byte of INPUT if an option gives the commands",
    },
    OptionRow {
        name: "seconds",
        short: None,
        takes: Takes::Number(1, MOST_SECONDS),
        value: "N",
        help: "The most seconds that each command string may run, at most 1000000000000; any time without it",
    },
    OptionRow {
        name: "undo",
        short: None,
        takes: Takes::Number(1, DEPTH_LIMIT as u64),
        value: "N",
        help: "The most command strings kept to be undone, at most 100000; all without it",
    },
    OptionRow {
        name: "prompt",
        short: None,
        takes: Takes::Nothing,
        value: "",
        help: "Prints * where a command string is awaited",
    },
    OptionRow {
        name: "explain",
        short: None,
        takes: Takes::Nothing,
        value: "",
        help: "Explains each error, and with --prompt what was done, on standard error",
    },
    OptionRow {
        name: "quiet",
        short: Some('q'),
        takes: Takes::Nothing,
        value: "",
        help: "Says nothing on standard error of how a run ends; the status stays",
    },
    OptionRow {
        name: "wide",
        short: None,
        takes: Takes::Nothing,
        value: "",
        help: "Reads the commands in the wider language of old macros",
    },
    OptionRow {
        name: "input",
        short: None,
        takes: Takes::Operand,
        value: "INPUT",
        help: "The file to edit, or - for standard input; only --in-place, or --output with its name, changes it",
    },
    OptionRow {
        name: "more",
        short: None,
        takes: Takes::Operands,
        value: "INPUT",
        help: "More files, each edited by itself, in their order",
    },
];

/// The table.
pub(crate) fn options() -> &'static [OptionRow]
    ensures { map rule_by result.now ≡ teco_rules }
{
    &OPTIONS
}
