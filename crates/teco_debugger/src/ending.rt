//! How a run ends, and what is told of it.
ghost use Rattle.std.specs.Prelude.{◌≡◌, ◌<◌, ◌++◌, IfOk, OnErr};
ghost use Rattle.std.specs.String.{string_bytes};
ghost use Rattle.teco_debugger.specs.declared.reading.FileFault.TheVariants.{Unread};
ghost use Rattle.teco_debugger.specs.Ending.{bytes_word, TellsEnding, TellsTorn, caret_words, changed_words, ending_line, fault_words, few_words, input_name, status_of_ending, string_name, string_words, told_line, torn_line};

use crate::kept::StringFault;
use crate::line::{DebuggerLine, Origin};
use crate::reading::FileFault;
use std::alloc::Global;
use teco_core::NoMemory;
use teco_fs::{Reason, tell};
use teco_io::Terminal;
use teco_messages::Spot;

/// What is told if memory is refused to the program.
pub const NO_MEMORY: &[u8] = b"teco-debug: no memory\n";

/// How a run ends, once its command line is read.
#[derive(Clone, Copy)]
pub enum Ending {
    /// By `quit`, or at the end of the commands.
    Done,
    /// The file of this number is not had, of those that the string comes from.
    NoText(usize, FileFault),
    /// The file of the input is not had.
    NoInput(FileFault),
    /// At this spot of the source of this number a caret stands before what it cannot stand before.
    Caret(usize, Spot),
    /// The session's file has no such string.
    NoString(StringFault),
    NoMemory,
    /// The commands cannot be read.
    ReadFault,
    /// The terminal failed.
    ShowFault,
}

impl From<NoMemory> for Ending {
    ghost use Rattle.teco_debugger.specs.declared.ending.Ending.TheVariants.{NoMemory as no_memory};

    ghost from_gives = { λ _ ending. ending ≡ no_memory };

    fn from(_: NoMemory) -> Ending {
        Ending::NoMemory
    }
}

/// What the source of this number is called: by its file's name, or by the option that gives it.
fn string_name(line: &DebuggerLine, number: usize) -> &str
    ensures { result.now ≡ string_name line.now.origin number }
{
    match &line.origin {
        Origin::Sources(names, _) => match names.get(number) {
            Some(name) => name.as_str(),
            None => "--execute",
        },
        Origin::Bytes(name) | Origin::Session(name, _) => name.as_str(),
    }
}

/// The name of the input, or nothing if the line names none.
fn input_name(line: &DebuggerLine) -> &str
    ensures { result.now ≡ input_name line.now.input }
{
    match &line.input {
        Some(name) => name.as_str(),
        None => "",
    }
}

/// A line of words after a name.
fn told(alloc: Global, name: &str, words: &str) -> Result<String, NoMemory>
    ensures { IfOk result (λ text. string_bytes text ≡ told_line (name.now ++ words.now)) }
{
    format!(in alloc; "teco-debug: {name}{words}\n")
}

/// A line of a file that can't be read, and why.
fn told_unread(alloc: Global, name: &str, reason: Reason) -> Result<String, NoMemory>
    ensures { IfOk result (λ text. string_bytes text ≡ told_line (fault_words name.now (Unread reason))) }
{
    let why = reason.words();
    format!(in alloc; "teco-debug: cannot read {name}: {why}\n")
}

/// A line of a source that is no command string.
fn told_caret(alloc: Global, name: &str, spot: Spot) -> Result<String, NoMemory>
    ensures { IfOk result (λ text. string_bytes text ≡ told_line (caret_words name.now spot)) }
{
    format!(in alloc; "teco-debug: {name}:{spot}: a caret before what it cannot stand before\n")
}

/// A line of a file that is not had.
fn told_fault(alloc: Global, name: &str, fault: FileFault) -> Result<String, NoMemory>
    ensures { IfOk result (λ text. string_bytes text ≡ told_line (fault_words name.now fault)) }
{
    match fault {
        FileFault::Unread(reason) => told_unread(alloc, name, reason),
        FileFault::TooLarge => told(alloc, name, " is too large"),
        FileFault::Memory => told(alloc, name, ": no memory for it"),
    }
}

/// A line of a session's file with a line that was changed.
fn told_changed(alloc: Global, name: &str, number: usize) -> Result<String, NoMemory>
    ensures { IfOk result (λ text. string_bytes text ≡ told_line (changed_words name.now number)) }
{
    format!(in alloc;
        "teco-debug: line {number} after the head of {name} is not as it was written\n"
    )
}

/// A line of a session's file with so many strings, and none of the number.
fn told_few(alloc: Global, name: &str, strings: usize) -> Result<String, NoMemory>
    ensures { IfOk result (λ text. string_bytes text ≡ told_line (few_words name.now strings)) }
{
    format!(in alloc; "teco-debug: {name} has no such string, but {strings}\n")
}

/// A line of some words, a name and more words.
fn told_of(alloc: Global, what: &str, name: &str, words: &str) -> Result<String, NoMemory>
    ensures { IfOk result (λ text. string_bytes text ≡ told_line (what.now ++ (name.now ++ words.now))) }
{
    format!(in alloc; "teco-debug: {what}{name}{words}\n")
}

/// A line of a session's file that has no such string.
fn told_string(alloc: Global, name: &str, fault: StringFault) -> Result<String, NoMemory>
    ensures { IfOk result (λ text. string_bytes text ≡ told_line (string_words name.now fault)) }
{
    match fault {
        StringFault::Version => told(alloc, name, " is no session of this version"),
        StringFault::Head => told_of(alloc, "the head of ", name, " is not as it was written"),
        StringFault::Changed(number) => told_changed(alloc, name, number),
        StringFault::Replay => told_of(alloc, "a string of ", name, " does not run as it ran"),
        StringFault::NoStrings => told(alloc, name, " has no string"),
        StringFault::NoString(strings) => told_few(alloc, name, strings),
    }
}

/// One byte, or several.
fn bytes_word(torn: usize) -> &'static str
    ensures { result.now ≡ bytes_word torn }
{
    if torn == 1 { " byte" } else { " bytes" }
}

/// The line of a file with so many bytes of a line that has no end.
fn torn_line(alloc: Global, line: &DebuggerLine, torn: usize) -> Result<String, NoMemory>
    ensures { IfOk result (λ text. string_bytes text ≡ torn_line line.now torn) }
{
    let name = string_name(line, 0);
    let word = bytes_word(torn);
    format!(in alloc; "teco-debug: {name}: a torn end is left out, {torn}{word}\n")
}

/// Tells on standard error of the bytes of a line that has no end, if there are any.
pub fn tell_torn<E: Terminal>(alloc: Global, line: &DebuggerLine, torn: usize, errors: &mut E)
    ensures { TellsTorn line.now torn (E.screen errors.old) (E.screen errors.new) }
{
    if torn == 0 {
        return;
    }
    let text = torn_line(alloc, line, torn).ok();
    tell(&text, NO_MEMORY, errors);
}

/// What is told: a line, or nothing.
fn line_of(alloc: Global, line: &DebuggerLine, ending: Ending) -> Result<String, NoMemory>
    ensures ok { IfOk result (λ text. string_bytes text ≡ ending_line line.now ending) }
    ensures err { OnErr result (0 < status_of_ending ending) }
{
    match ending {
        Ending::Done => Ok(String::new(alloc)),
        Ending::NoText(number, fault) => told_fault(alloc, string_name(line, number), fault),
        Ending::NoInput(fault) => told_fault(alloc, input_name(line), fault),
        Ending::Caret(number, spot) => told_caret(alloc, string_name(line, number), spot),
        Ending::NoString(fault) => told_string(alloc, string_name(line, 0), fault),
        Ending::NoMemory => told(alloc, "", "no memory"),
        Ending::ReadFault => told(alloc, "", "cannot read commands"),
        Ending::ShowFault => told(alloc, "", "cannot show"),
    }
}

/// 0 of a run that is done, 3 of a source that is no command string, otherwise 1.
fn status(ending: Ending) -> u8
    ensures { result ≡ status_of_ending ending }
{
    match ending {
        Ending::Done => 0,
        Ending::Caret(..) => 3,
        _ => 1,
    }
}

/// Tells on standard error how a run ends, and gives the status.
pub fn conclude<E: Terminal>(
    alloc: Global,
    line: &DebuggerLine,
    ending: Ending,
    errors: &mut E,
) -> u8
    ensures { TellsEnding line.now ending (E.screen errors.old) (E.screen errors.new) result }
{
    let text = line_of(alloc, line, ending).ok();
    tell(&text, NO_MEMORY, errors);
    status(ending)
}
