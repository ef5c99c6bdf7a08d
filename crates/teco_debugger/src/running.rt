//! A run, from the words of its command line to its status.
ghost use Rattle.std.specs.Prelude.{◌≡◌, ◌≤◌, IfErr, IfOk, OnOk, option_map, vec_len};
ghost use Rattle.std.specs.Process.{exit_status};
ghost use Rattle.std.specs.String.{string_bytes};
ghost use Rattle.teco_core.specs.declared.limits.TheConstants.{FILE_LIMIT};
ghost use Rattle.teco_fs.specs.Reading.{IsInput};
ghost use Rattle.teco_fs.specs.Seen.{KeepsDisk, host, disk_seen};
ghost use Rattle.teco_debugger.specs.Program.{HasNoFiles, RetracesBy, ServesFiles, retrace_view};
ghost use Rattle.teco_debugger.specs.Begun.{BeginsFrom, CannotRead, IsOver};
ghost use Rattle.teco_debugger.specs.Reading.{AddsFiles, AddsWord, IsInputOf, IsOfBytes, IsOfSources, LacksEach, LacksFile, InputIsMissing, LacksSources, LacksWord};

use crate::debugger::Debugger;
use crate::ending::{Ending, NO_MEMORY, conclude, tell_torn};
use crate::kept::kept_string;
use crate::line::{DebuggerLine, Origin};
use crate::reading::{Given, read_file};
use crate::serving::serve;
use crate::{SourceText, Walk};
use std::alloc::Global;
use std::io::BufRead;
use std::process::ExitCode;
use teco_cli::{LineFault, line_in};
use teco_core::NoMemory;
use teco_fs::{Disk, refuse};
use teco_io::Terminal;

/// The bytes of a source in a file, which has this number.
fn source_in<D: Disk>(
    alloc: Global,
    number: usize,
    name: &str,
    disk: &mut D,
) -> Result<Vec<u8>, Ending>
    ensures source { IfOk result (λ source. IsInput (D.seen disk.old).files name.now source.items) }
    ensures unread { let seen = disk_seen D.Disk D.Input.Source in
        IfErr result (LacksFile (D.seen disk.old).files (seen disk.new) number name.now) }
    ensures keeps { let seen = disk_seen D.Disk D.Input.Source in
        KeepsDisk (seen disk.old) (seen disk.new) }
{
    match read_file(alloc, name, disk) {
        Err(fault) => Err(Ending::NoText(number, fault)),
        Ok(source) => Ok(source),
    }
}

/// Puts the commands of the sources in these files behind the others, in their order.
fn add_files<D: Disk>(
    alloc: Global,
    given: &mut Given,
    names: &[String],
    disk: &mut D,
) -> Result<(), Ending>
    ensures adds { OnOk result (AddsFiles (D.seen disk.old).files names.now given.old given.new) }
    ensures lacks { let seen = disk_seen D.Disk D.Input.Source in
        IfErr result (LacksEach (D.seen disk.old).files (seen disk.new) names.now) }
    ensures keeps { let seen = disk_seen D.Disk D.Input.Source in
        KeepsDisk (seen disk.old) (seen disk.new) }
{
    for (number, name) in names.iter().enumerate() {
        let source = source_in(alloc, number, name.as_str(), disk)?;
        given.add(alloc, number, name.as_str(), source.as_slice())?;
    }
    Ok(())
}

/// Puts the commands of the source in a word behind the others, if there is one. It has this number.
fn add_word(
    alloc: Global,
    given: &mut Given,
    number: usize,
    word: &Option<String>,
) -> Result<(), Ending>
    ensures adds { OnOk result (AddsWord (option_map string_bytes word.now) given.old given.new) }
    ensures lacks { IfErr result (LacksWord number (option_map string_bytes word.now)) }
{
    match word {
        None => Ok(()),
        Some(word) => given.add(alloc, number, "--execute", word.as_bytes()),
    }
}

/// The command string of the sources in these files, and in a word.
fn string_of_sources<D: Disk>(
    alloc: Global,
    names: &[String],
    word: &Option<String>,
    disk: &mut D,
) -> Result<Given, Ending>
    ensures string { IfOk result (IsOfSources (D.seen disk.old).files names.now (option_map string_bytes word.now)) }
    ensures lacks { let seen = disk_seen D.Disk D.Input.Source in
        IfErr result (LacksSources (D.seen disk.old).files (seen disk.new) names.now (option_map string_bytes word.now)) }
    ensures keeps { let seen = disk_seen D.Disk D.Input.Source in
        KeepsDisk (seen disk.old) (seen disk.new) }
{
    let mut given = Given::new(alloc);
    add_files(alloc, &mut given, names, disk)?;
    add_word(alloc, &mut given, names.len(), word)?;
    Ok(given)
}

/// The bytes of a file as a command string.
fn string_of_bytes<D: Disk>(alloc: Global, name: &str, disk: &mut D) -> Result<Given, Ending>
    ensures string { IfOk result (IsOfBytes (D.seen disk.old).files name.now) }
    ensures lacks { let seen = disk_seen D.Disk D.Input.Source in
        IfErr result (LacksFile (D.seen disk.old).files (seen disk.new) 0 name.now) }
    ensures keeps { let seen = disk_seen D.Disk D.Input.Source in
        KeepsDisk (seen disk.old) (seen disk.new) }
{
    let text = source_in(alloc, 0, name, disk)?;
    Ok(Given {
        text,
        sources: Vec::new(alloc),
    })
}

/// The input of the line, which is empty if none is named.
fn input_of<D: Disk>(alloc: Global, line: &DebuggerLine, disk: &mut D) -> Result<Vec<u8>, Ending>
    ensures input { IfOk result (λ input. IsInputOf (D.seen disk.old).files line.now.input input.items) }
    ensures most { IfOk result (λ input. vec_len input ≤ FILE_LIMIT) }
    ensures lacks { let seen = disk_seen D.Disk D.Input.Source in
        IfErr result (InputIsMissing (D.seen disk.old).files (seen disk.new) line.now.input) }
    ensures keeps { let seen = disk_seen D.Disk D.Input.Source in
        KeepsDisk (seen disk.old) (seen disk.new) }
{
    match &line.input {
        None => Ok(Vec::new(alloc)),
        Some(name) => match read_file(alloc, name.as_str(), disk) {
            Err(fault) => Err(Ending::NoInput(fault)),
            Ok(bytes) => Ok(bytes),
        },
    }
}

/// A walk over the string of the line, and what its commands need beside it.
#[derive(Drop)]
struct Begun {
    walk: Walk,
    sources: Vec<SourceText>,
    /// How many bytes of a line that has no end come behind the lines of a session's file.
    torn: usize,
}

/// A walk over a string that was read, over the input of the line.
fn begun_with<D: Disk>(
    alloc: Global,
    given: Given,
    line: &DebuggerLine,
    disk: &mut D,
) -> Result<Begun, Ending>
    ensures walk { IfOk result (λ begun. IsOver line.now.profile (D.seen disk.old).files line.now.input given begun) }
    ensures lacks { let seen = disk_seen D.Disk D.Input.Source in
        IfErr result (InputIsMissing (D.seen disk.old).files (seen disk.new) line.now.input) }
    ensures keeps { let seen = disk_seen D.Disk D.Input.Source in
        KeepsDisk (seen disk.old) (seen disk.new) }
{
    let input = input_of(alloc, line, disk)?;
    Ok(Begun {
        walk: Walk::new(line.profile, input, given.text)?,
        sources: given.sources,
        torn: 0,
    })
}

/// A walk over the string of the line.
fn begun_by<D: Disk>(alloc: Global, line: &DebuggerLine, disk: &mut D) -> Result<Begun, Ending>
    ensures begins { IfOk result (BeginsFrom line.now.profile (D.seen disk.old).files line.now.origin line.now.input) }
    ensures lacks { let seen = disk_seen D.Disk D.Input.Source in
        IfErr result (CannotRead (D.seen disk.old).files (seen disk.new) line.now) }
    ensures keeps { let seen = disk_seen D.Disk D.Input.Source in
        KeepsDisk (seen disk.old) (seen disk.new) }
{
    match &line.origin {
        Origin::Sources(names, word) => {
            let given = string_of_sources(alloc, names, word, disk)?;
            begun_with(alloc, given, line, disk)
        }
        Origin::Bytes(name) => {
            let given = string_of_bytes(alloc, name.as_str(), disk)?;
            begun_with(alloc, given, line, disk)
        }
        Origin::Session(name, number) => {
            let kept = kept_string(alloc, name.as_str(), *number, disk)?;
            Ok(Begun {
                walk: kept.walk,
                sources: Vec::new(alloc),
                torn: kept.torn,
            })
        }
    }
}

/// Serves the commands over what the line asks for; says how that ends, or why there is nothing to serve them over.
fn retrace<C: BufRead, T: Terminal, E: Terminal, D: Disk>(
    alloc: Global,
    line: &DebuggerLine,
    prompts: bool,
    commands: &mut C,
    term: &mut T,
    errors: &mut E,
    disk: &mut D,
) -> Result<Ending, Ending>
    ensures serves { let view = retrace_view (disk_seen D.Disk D.Input.Source) C.remaining T.screen in
        IfOk result (ServesFiles view E.screen line.now prompts (host disk.old commands.old term.old) (host disk.new commands.new term.new)
        errors.old errors.new) }
    ensures lacks { let view = retrace_view (disk_seen D.Disk D.Input.Source) C.remaining T.screen in
        IfErr result (HasNoFiles view E.screen line.now (host disk.old commands.old term.old) (host disk.new commands.new term.new)
        errors.old errors.new) }
    ensures keeps { let seen = disk_seen D.Disk D.Input.Source in
        KeepsDisk (seen disk.old) (seen disk.new) }
{
    let begun = begun_by(alloc, line, disk)?;
    tell_torn(alloc, line, begun.torn, errors);
    let mut debugger = Debugger::new(begun.walk, line.limit, begun.sources);
    Ok(serve(alloc, &mut debugger, prompts, commands, term))
}

/// Goes back and forth over what these words ask for, as the commands say, and gives the status. If it `prompts`, a star is shown
/// where a command is awaited.
pub fn program<C: BufRead, T: Terminal, E: Terminal, D: Disk>(
    alloc: Global,
    words: Result<Vec<String>, LineFault>,
    prompts: bool,
    commands: &mut C,
    term: &mut T,
    errors: &mut E,
    disk: &mut D,
) -> ExitCode
    ensures { let view = retrace_view (disk_seen D.Disk D.Input.Source) C.remaining T.screen in
        RetracesBy view E.screen words prompts (host disk.old commands.old term.old) (host disk.new commands.new term.new)
        errors.old errors.new (exit_status result) }
{
    match line_in::<DebuggerLine>(alloc, words) {
        Ok(line) => {
            let ending = match retrace(alloc, &line, prompts, commands, term, errors, disk) {
                Ok(ending) => ending,
                Err(ending) => ending,
            };
            ExitCode::from(conclude(alloc, &line, ending, errors))
        }
        Err(fault) => ExitCode::from(refuse(&fault, NO_MEMORY, term, errors)),
    }
}
