//! Rows of options, and the arguments that they make.
ghost use Rattle.clap.specs.Words.{app_of, rule_of};
ghost use Rattle.std.specs.Prelude.{◌≡◌, IfOk, false, map};
ghost use Rattle.teco_cli.specs.OptionTable.{action_of, operand, option_in_range, option_taking, rule_by, with_rules};

use clap::builder::ValueParser;
use clap::{Arg, ArgAction, Command};
use std::alloc::Global;
use teco_core::NoMemory;

/// The most steps that a command string may be given.
pub const MOST_STEPS: u64 = 1_000_000_000_000;

/// What an option takes, or that a row is no option.
#[derive(Clone, Copy)]
pub enum Takes {
    /// Nothing: it is a flag.
    Nothing,
    /// A text.
    Text,
    /// A text, and it may be given more than once.
    Texts,
    /// A number from the first to the second.
    Number(u64, u64),
    /// No option: it is a word by itself, which has to be there.
    Operand,
    /// The same, if it is there.
    MaybeOperand,
    /// The same, any number of them.
    Operands,
}

/// One option, or an operand: a word that no option takes.
#[derive(Clone, Copy)]
pub struct OptionRow {
    /// What follows the two hyphens; it names the option. An operand has it as its name alone.
    pub name: &'static str,
    /// What follows the one hyphen.
    pub short: Option<char>,
    /// What it takes.
    pub takes: Takes,
    /// What the help calls the value.
    pub value: &'static str,
    /// What the help says.
    pub help: &'static str,
}

/// What the parser does where an option is given that takes this.
fn action_of(takes: Takes) -> ArgAction
    ensures { result ≡ action_of takes }
{
    match takes {
        Takes::Nothing => ArgAction::SetTrue,
        Takes::Texts => ArgAction::Append,
        Takes::Operands => ArgAction::Append,
        Takes::Text | Takes::Number(..) => ArgAction::Set,
        Takes::Operand | Takes::MaybeOperand => ArgAction::Set,
    }
}

/// An option by its names alone.
fn named<'a>(alloc: Global, row: &OptionRow) -> Arg<'a>
    ensures rule { rule_of result ≡ option_taking row.now.takes row.now.name.now row.now.short }
    ensures local { result.global ≡ false }
{
    let arg = Arg::new(alloc, row.name)
        .long(row.name)
        .help(row.help)
        .action(action_of(row.takes));
    match row.short {
        Some(letter) => arg.short(letter),
        None => arg,
    }
}

/// An option that takes a number of a range.
fn numbered<'a>(alloc: Global, row: &OptionRow, least: u64, most: u64) -> Arg<'a>
    ensures rule { rule_of result ≡ option_in_range row.now.takes row.now.name.now row.now.short least most }
    ensures local { result.global ≡ false }
{
    named(alloc, row)
        .value_name(row.value)
        .value_parser(ValueParser::Unsigned(least, most))
}

/// A word by itself.
fn operand<'a>(alloc: Global, row: &OptionRow) -> Arg<'a>
    ensures rule { rule_of result ≡ operand row.now.takes row.now.name.now }
    ensures local { result.global ≡ false }
{
    Arg::new(alloc, row.name)
        .value_name(row.value)
        .help(row.help)
        .action(action_of(row.takes))
}

/// The argument of a row.
fn arg_by<'a>(alloc: Global, row: &OptionRow) -> Arg<'a>
    ensures rule { rule_of result ≡ rule_by row.now }
    ensures local { result.global ≡ false }
{
    match row.takes {
        Takes::Nothing => named(alloc, row),
        Takes::Text | Takes::Texts => named(alloc, row).value_name(row.value),
        Takes::Number(least, most) => numbered(alloc, row, least, most),
        Takes::Operand => operand(alloc, row).required(true),
        Takes::MaybeOperand | Takes::Operands => operand(alloc, row),
    }
}

/// The command with an argument for each row.
pub(crate) fn with_table<'a>(
    alloc: Global,
    command: Command<'a>,
    rows: &[OptionRow],
) -> Result<Command<'a>, NoMemory>
    ensures { IfOk result (λ made. app_of made ≡ with_rules (app_of command.entry) (map rule_by rows.now)) }
{
    let mut command = command;
    for row in rows {
        command = command.arg(arg_by(alloc, row))?;
    }
    Ok(command)
}
