//! The lines that tell of the file which keeps a session.
ghost use Rattle.std.specs.Prelude.{◌≡◌, ◌++◌, codes, IfOk, OnErr, OnOk};
ghost use Rattle.std.specs.String.{string_bytes};
ghost use Rattle.teco_driver.specs.SessionLines.{again_words, changed_line, count_words, cut_words, fault_line, goes_on_words, input_line, is_told_of, not_kept_line, opening_lines, session_name};
ghost use Rattle.teco_fs.specs.Refusing.{Tells};
ghost use Rattle.teco_serve.specs.Ending.{said};

use crate::editing::are_awaited;
use crate::no_memory;
use std::alloc::Global;
use std::fmt::Write;
use teco_cli::Line;
use teco_core::NoMemory;
use teco_fs::Reason;
use teco_io::Terminal;
use teco_recorder::OpenFault;
use teco_replay::ReplayFault;
use teco_serve::{said_of, said_why};

/// The name of the file that keeps the session; nothing where none does.
pub fn session_name(line: &Line) -> &str
    ensures { result.now ≡ session_name line.now }
{
    match &line.session {
        Some(name) => name.as_str(),
        None => "",
    }
}

/// Tells a text on standard error; where memory was refused for it, that is told.
pub fn tell<E: Terminal>(text: Result<String, NoMemory>, errors: &mut E)
    ensures ok { IfOk text (λ text. Tells (E.screen errors.old) (E.screen errors.new) (string_bytes text)) }
    ensures err { OnErr text (Tells (E.screen errors.old) (E.screen errors.new) (said (codes "no memory"))) }
{
    match text {
        Ok(text) => {
            let _ = errors.put(text.as_bytes());
        }
        Err(NoMemory) => {
            let _ = no_memory(errors);
        }
    }
}

/// Puts a number of things, which are one or several.
fn put_count(out: &mut String, n: usize, one: &str) -> Result<(), NoMemory>
    ensures { OnOk result (string_bytes out.new ≡ string_bytes out.old ++ count_words n one.now) }
{
    if n == 1 {
        return write!(out, "1 {one}");
    }
    write!(out, "{n} {one}s")
}

/// Puts that the end of the file is cut off, if it is.
fn put_cut(out: &mut String, file: &str, torn: usize) -> Result<(), NoMemory>
    ensures { OnOk result (string_bytes out.new ≡ string_bytes out.old ++ cut_words file.now torn) }
{
    if torn == 0 {
        return Ok(());
    }
    write!(out, "teco: {file}: a torn end is cut off, ")?;
    put_count(out, torn, "byte")?;
    out.push_str("\n")
}

/// So many steps are run again without a word of it: they take about a second.
const SHORT_REPLAY: u128 = 10_000_000;

/// What is told before strings that took so many steps are run again.
pub fn again_line(alloc: Global, line: &Line, steps: u128) -> Result<String, NoMemory>
    ensures { IfOk result (λ text. string_bytes text ≡ again_words (session_name line.now) steps) }
{
    if steps <= SHORT_REPLAY {
        return Ok(String::new(alloc));
    }
    let file = session_name(line);
    format!(in alloc; "teco: {file}: runs {steps} steps again\n")
}

/// Whether one who types hears that a session of so many records goes on.
fn is_told_of(line: &Line, records: usize) -> bool
    ensures { result ≡ is_told_of line.now records }
{
    line.prompt && are_awaited(&line.commands) && records != 0
}

/// Puts that the session goes on, after so many strings.
fn put_goes_on(out: &mut String, file: &str, strings: usize) -> Result<(), NoMemory>
    ensures { OnOk result (string_bytes out.new ≡ string_bytes out.old ++ goes_on_words file.now strings) }
{
    write!(out, "teco: {file}: goes on after ")?;
    put_count(out, strings, "string")?;
    out.push_str("\n")
}

/// What is told of a session that goes on after so many records and strings, and of the bytes that were cut off its file.
pub fn opening_lines(
    alloc: Global,
    line: &Line,
    torn: usize,
    records: usize,
    strings: usize,
) -> Result<String, NoMemory>
    ensures { IfOk result (λ text. string_bytes text ≡ opening_lines line.now torn records strings) }
{
    let mut lines = String::new(alloc);
    let file = session_name(line);
    put_cut(&mut lines, file, torn)?;
    if is_told_of(line, records) {
        put_goes_on(&mut lines, file, strings)?;
    }
    Ok(lines)
}

/// What is told of a line of the session that could not be written.
pub fn not_kept_line(alloc: Global, line: &Line, reason: Reason) -> Result<String, NoMemory>
    ensures { IfOk result (λ text. string_bytes text ≡ not_kept_line line.now reason) }
{
    said_why(alloc, "cannot write ", session_name(line), reason)
}

/// What is told of a line of the file that is not as it was written.
fn changed_line(alloc: Global, file: &str, number: usize) -> Result<String, NoMemory>
    ensures { IfOk result (λ text. string_bytes text ≡ changed_line file.now number) }
{
    format!(in alloc; "teco: line {number} after the head of {file} is not as it was written\n")
}

/// What is told of an input that is neither what the session began over nor its last output.
fn input_line(alloc: Global, file: &str, input: &str) -> Result<String, NoMemory>
    ensures { IfOk result (λ text. string_bytes text ≡ input_line file.now input.now) }
{
    format!(in alloc; "teco: {input} has changed since {file} was begun\n")
}

/// What is told of a session over this input whose file is not gone on with.
pub fn fault_line(
    alloc: Global,
    line: &Line,
    input: &str,
    fault: OpenFault,
) -> Result<String, NoMemory>
    ensures { IfOk result (λ text. string_bytes text ≡ fault_line line.now input.now fault) }
{
    let file = session_name(line);
    match fault {
        OpenFault::NoFile(reason) => said_why(alloc, "cannot open ", file, reason),
        OpenFault::NoMemory => said_of(alloc, "no memory", "", ""),
        OpenFault::Version => said_of(alloc, "", file, " is no session of this version"),
        OpenFault::Head => said_of(alloc, "the head of ", file, " is not as it was written"),
        OpenFault::Changed(number) => changed_line(alloc, file, number),
        OpenFault::Settings => said_of(
            alloc,
            "",
            file,
            " was begun with another --undo or --page-lines, or without --wide",
        ),
        OpenFault::Replay(ReplayFault::Memory) => said_of(alloc, "no memory", "", ""),
        OpenFault::Replay(ReplayFault::Terminal | ReplayFault::Wrong) => said_of(
            alloc,
            "a string of ",
            file,
            " does not run as it ran",
        ),
        OpenFault::Input => input_line(alloc, file, input),
    }
}
