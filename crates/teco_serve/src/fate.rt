//! How the program ends.
ghost use Rattle.std.specs.Prelude.{◌≡◌, ◌≢◌, ◌++◌, [], codes, IfOk, OnErr, unwrap_or};
ghost use Rattle.std.specs.String.{string_bytes};
ghost use Rattle.teco_cli.specs.Options.{suffix_of};
ghost use Rattle.teco_fs.specs.Reasons.{with_reason};
ghost use Rattle.teco_serve.specs.Ending.{about, backup_of, commands_name, output_beside, output_by, output_of, said, status_of, text_of};

use crate::served::Served;
use std::alloc::Global;
use teco_cli::{Commands, Line, is_standard_input, suffix_of};
use teco_core::NoMemory;
use teco_fs::{Reason, Unkept};
use teco_io::InputFault;

/// How the program ends, once its command line is read.
#[derive(Clone, Copy)]
pub enum Fate {
    /// The file of the commands cannot be opened, for this reason.
    NoCommands(Reason),
    /// The input cannot be read, for this reason.
    NoInput(Reason),
    /// The input was to be edited in place, and is no regular file.
    NotRegular,
    /// The input has more bytes than it may have.
    LargeInput,
    /// Memory was refused before the serving, or after it.
    NoMemory,
    /// The output cannot be written, for this reason.
    NoOutput(Reason),
    /// The old bytes of the input were to be kept under another name, and cannot be, for this reason.
    NoBackup(Reason),
    /// The output was to be written over the file that was read, and that has changed since.
    Changed,
    /// The output was to be written over the file that was read, and that has it already.
    Unchanged,
    /// The output is written, but this could not be kept of the file whose place it takes.
    Lacking(Unkept),
    /// The serving ended; after [`Served::Exit`] the output is written.
    Ended(Served),
}

impl From<InputFault> for Fate {
    ghost use Rattle.teco_serve.specs.Ending.{fate_without_input};

    ghost from_gives = { λ fault fate. fate ≡ fate_without_input fault };

    fn from(fault: InputFault) -> Fate {
        match fault {
            InputFault::Read => Fate::NoInput(Reason::ReadFailed),
            InputFault::TooLarge => Fate::LargeInput,
            InputFault::Memory => Fate::NoMemory,
        }
    }
}

/// The status of a run that ends so.
pub fn status_of(fate: Fate) -> u8
    ensures { result ≡ status_of fate }
{
    match fate {
        Fate::Unchanged | Fate::Ended(Served::Exit) => 0,
        Fate::Lacking(unkept) => u8::from(unkept.is_text()),
        Fate::Ended(Served::EndOfCommands) => 2,
        _ => 1,
    }
}

/// A line about a file, whose name comes between two texts.
pub fn said_of(alloc: Global, before: &str, name: &str, after: &str) -> Result<String, NoMemory>
    ensures { IfOk result (λ text. string_bytes text ≡ said (before.now ++ name.now ++ after.now)) }
{
    format!(in alloc; "teco: {before}{name}{after}\n")
}

/// A line about a file: what can't be done with it, and why.
pub fn said_why(alloc: Global, what: &str, name: &str, reason: Reason) -> Result<String, NoMemory>
    ensures { IfOk result (λ text. string_bytes text ≡ said (with_reason what.now name.now reason)) }
{
    let why = reason.words();
    format!(in alloc; "teco: {what}{name}: {why}\n")
}

/// The name of an output beside its input: standard output if the input is standard input, else the input's followed by `.out`.
fn output_beside(alloc: Global, input: &str) -> Result<String, NoMemory>
    ensures { IfOk result (λ name. string_bytes name ≡ output_beside input.now) }
{
    if is_standard_input(input) {
        return String::from_str(alloc, "-");
    }
    let mut name = String::from_str(alloc, input)?;
    name.push_str(".out")?;
    Ok(name)
}

/// The name of the output where the line names none: standard output for strings for every page, else one beside the input.
fn output_by(alloc: Global, commands: &Commands, input: &str) -> Result<String, NoMemory>
    ensures { IfOk result (λ name. string_bytes name ≡ output_by commands.now input.now) }
{
    match commands {
        Commands::Pages(_) => String::from_str(alloc, "-"),
        Commands::StandardInput | Commands::Sources(..) | Commands::Bytes(_) => output_beside(
            alloc, input,
        ),
    }
}

/// The name of the output of this input: its own if it is edited in place, else the one given, or one by its commands.
pub fn output_name(alloc: Global, line: &Line, input: &str) -> Result<String, NoMemory>
    ensures { IfOk result (λ name. string_bytes name ≡ output_of line.now input.now) }
{
    if line.in_place {
        return String::from_str(alloc, input);
    }
    match &line.output {
        Some(name) => String::from_str(alloc, name.as_str()),
        None => output_by(alloc, &line.commands, input),
    }
}

/// The name of the file that the commands are read from as they are; nothing where they come from elsewhere.
fn commands_name(line: &Line) -> &str
    ensures { result.now ≡ commands_name line.now }
{
    match &line.commands {
        Commands::Bytes(name) => name.as_str(),
        Commands::StandardInput | Commands::Sources(..) | Commands::Pages(_) => "",
    }
}

/// What follows an input's name in that under which its old bytes are kept; nothing if they aren't.
fn backup_suffix(line: &Line) -> &str
    ensures { result.now ≡ unwrap_or (suffix_of line.now) [] }
{
    match suffix_of(line) {
        Some(suffix) => suffix,
        None => "",
    }
}

/// A line about an input whose old bytes can't be kept, and why.
fn said_of_backup(
    alloc: Global,
    line: &Line,
    input: &str,
    reason: Reason,
) -> Result<String, NoMemory>
    ensures { IfOk result (λ text. string_bytes text
        ≡ said (input.now ++ with_reason (codes ": no backup ") (backup_of line.now input.now) reason)) }
{
    let suffix = backup_suffix(line);
    let why = reason.words();
    format!(in alloc; "teco: {input}: no backup {input}{suffix}: {why}\n")
}

/// A line about no file, which names the input if the line has several.
fn said_about(alloc: Global, line: &Line, input: &str, words: &str) -> Result<String, NoMemory>
    ensures { IfOk result (λ text. string_bytes text ≡ said (about line.now input.now words.now)) }
{
    if line.more.is_empty() {
        return said_of(alloc, words, "", "");
    }
    said_of(alloc, input, ": ", words)
}

fn text(alloc: Global, line: &Line, input: &str, fate: Fate) -> Result<String, NoMemory>
    ensures ok { IfOk result (λ text. string_bytes text ≡ text_of line.now input.now fate) }
    ensures err { OnErr result (text_of line.now input.now fate ≢ []) }
{
    match fate {
        Fate::NoCommands(reason) => said_why(alloc, "cannot read ", commands_name(line), reason),
        Fate::NoInput(reason) => said_why(alloc, "cannot read ", input, reason),
        Fate::NotRegular => said_of(alloc, "", input, " is not a regular file"),
        Fate::LargeInput => said_of(alloc, "", input, " is too large"),
        Fate::NoMemory | Fate::Ended(Served::NoMemory) => said_about(
            alloc,
            line,
            input,
            "no memory",
        ),
        Fate::NoOutput(reason) => {
            let name = output_name(alloc, line, input)?;
            said_why(alloc, "cannot write ", name.as_str(), reason)
        }
        Fate::NoBackup(reason) => said_of_backup(alloc, line, input, reason),
        Fate::Lacking(unkept) => {
            let name = output_name(alloc, line, input)?;
            said_of(alloc, name.as_str(), ": ", unkept.words())
        }
        Fate::Changed => said_of(alloc, "", input, " has changed"),
        Fate::Ended(Served::ReadFault) => said_about(alloc, line, input, "cannot read commands"),
        Fate::Ended(Served::ShowFault) => said_about(alloc, line, input, "cannot show"),
        Fate::Unchanged | Fate::Ended(Served::Exit) | Fate::Ended(Served::EndOfCommands) => Ok(
            String::new(alloc),
        ),
    }
}

/// The status of a run over this input of the line, and what it prints on standard error, which may be nothing.
pub fn ending_of(
    alloc: Global,
    line: &Line,
    input: &str,
    fate: Fate,
) -> Result<(u8, String), NoMemory>
    ensures ok { IfOk result (λ ending. (ending.0 ≡ status_of fate)
        × (string_bytes ending.1 ≡ text_of line.now input.now fate)) }
    ensures err { OnErr result (text_of line.now input.now fate ≢ []) }
{
    Ok((status_of(fate), text(alloc, line, input, fate)?))
}

/// The status of a run over the first input of the line, and what it prints on standard error, which may be nothing.
pub fn ending(alloc: Global, line: &Line, fate: Fate) -> Result<(u8, String), NoMemory>
    ensures ok { IfOk result (λ ending. (ending.0 ≡ status_of fate)
        × (string_bytes ending.1 ≡ text_of line.now (string_bytes line.now.input) fate)) }
    ensures err { OnErr result (text_of line.now (string_bytes line.now.input) fate ≢ []) }
{
    ending_of(alloc, line, line.input.as_str(), fate)
}
