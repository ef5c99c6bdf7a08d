//! What the program does, on any disk and terminal.
ghost use Rattle.std.specs.Prelude.{◌≡◌, IfErr, IfOk, codes, false};
ghost use Rattle.std.specs.Process.{exit_status};
ghost use Rattle.tecol_driver.specs.Ending.{said};
ghost use Rattle.tecol_driver.specs.Keeping.{Concludes, Keeps, MakesAndPuts, PutsOut, ReadsInput, RunsOver, fate_put, output_of, view_of};
ghost use Rattle.tecol_driver.specs.Made.{IsMade};
ghost use Rattle.teco_cli.specs.StreamNames.{is_standard_input};
ghost use Rattle.tecol_driver.specs.Program.{KeepsBy};
ghost use Rattle.teco_fs.specs.Refusing.{Tells};
ghost use Rattle.teco_fs.specs.Seen.{KeepsDisk, host, disk_seen};

use crate::fate::{TecolFate, Verdict, no_output, status};
use crate::line::TecolLine;
use crate::made::{Made, make};
use crate::reading::{input_of_file, input_of_stream};
use crate::telling::{spot_in, text_of};
use std::alloc::Global;
use std::process::ExitCode;
use teco_cli::{LineFault, is_standard_input, is_standard_output, line_in};
use teco_core::NoMemory;
use teco_fs::{Disk, Reason, Unkept, Written, refuse, tell_no_memory, write_output};
use teco_io::{Source, Terminal, TerminalFault};
use teco_store::Slices;

/// What is told where memory is refused to the program.
const NO_MEMORY: &[u8] = b"tecol: no memory\n";

/// Reads the input of the line, standard input or a file.
fn input_of<S: Source, D: Disk>(
    alloc: Global,
    name: &str,
    stream: &mut S,
    disk: &mut D,
) -> Result<Vec<u8>, TecolFate>
    ensures reads { let seen = disk_seen D.Disk D.Input.Source in
        ReadsInput (is_standard_input name.now) S.Source name.now
        (seen disk.old) (seen disk.new) stream.old stream.new result }
    ensures keeps { let seen = disk_seen D.Disk D.Input.Source in
        KeepsDisk (seen disk.old) (seen disk.new) }
    ensures still { is_standard_input name.now ≡ false → stream.new ≡ stream.old }
{
    if is_standard_input(name) {
        return input_of_stream(alloc, stream);
    }
    input_of_file(alloc, name, disk)
}

/// Writes what was made to where the line says: to standard output, or to a file, which has the bytes whole at each moment or is as it
/// was. Says what could not be kept of a file that was written over, or how that ended, if it failed.
fn put<T: Terminal, D: Disk>(
    alloc: Global,
    line: &TecolLine,
    number: u32,
    bytes: &[u8],
    term: &mut T,
    disk: &mut D,
) -> Result<Option<Unkept>, TecolFate>
    ensures { let seen = disk_seen D.Disk D.Input.Source in
        PutsOut (output_of T.screen line.now (seen disk.old) (seen disk.new) term.old term.new) bytes.now result }
{
    let name = line.output.as_str();
    if is_standard_output(name) {
        return match term.put(bytes) {
            Ok(()) => Ok(None),
            Err(TerminalFault) => Err(TecolFate::NoOutput(Reason::WriteFailed)),
        };
    }
    match write_output(alloc, disk, name, number, None, Slices::of(bytes)) {
        Ok(Written::Whole(unkept)) => Ok(unkept),
        // no file is named that was read, so none has changed
        Ok(Written::Changed) => unreachable!(),
        Err(error) => Err(no_output(error)),
    }
}

/// How the run ends whose output is written, by what was found, and if this could not be kept.
fn fate_put(verdict: Verdict, unkept: Option<Unkept>) -> TecolFate
    ensures { result ≡ fate_put verdict unkept }
{
    match verdict {
        Verdict::Clean => TecolFate::Done(unkept),
        Verdict::Unchecked => TecolFate::Unchecked(unkept),
        Verdict::Faulty => TecolFate::Faulty(unkept),
    }
}

/// Makes of the input what the line says, and writes it.
fn make_and_put<T: Terminal, D: Disk>(
    alloc: Global,
    line: &TecolLine,
    number: u32,
    input: &[u8],
    term: &mut T,
    disk: &mut D,
) -> TecolFate
    ensures { let seen = disk_seen D.Disk D.Input.Source in
        MakesAndPuts (IsMade line.now input.now) input.now
        (output_of T.screen line.now (seen disk.old) (seen disk.new) term.old term.new) result }
{
    let (bytes, verdict) = match make(alloc, line, input) {
        Ok(Made::Fine(bytes)) => (bytes, Verdict::Clean),
        Ok(Made::Unchecked(bytes)) => (bytes, Verdict::Unchecked),
        Ok(Made::Faulty(bytes)) => (bytes, Verdict::Faulty),
        Ok(Made::Unreadable(at)) => return TecolFate::Unreadable(spot_in(input, at)),
        Err(NoMemory) => return TecolFate::NoMemory,
    };
    match put(alloc, line, number, &bytes, term, disk) {
        Ok(unkept) => fate_put(verdict, unkept),
        Err(failed) => failed,
    }
}

/// Does what the line says.
fn run_over<S: Source, T: Terminal, D: Disk>(
    alloc: Global,
    line: &TecolLine,
    number: u32,
    stream: &mut S,
    term: &mut T,
    disk: &mut D,
) -> TecolFate
    ensures { let view = view_of (disk_seen D.Disk D.Input.Source)
        S.Source T.screen in
        RunsOver view line.now (host disk.old stream.old term.old) (host disk.new stream.new term.new) result }
{
    match input_of(alloc, line.input.as_str(), stream, disk) {
        Ok(input) => make_and_put(alloc, line, number, &input, term, disk),
        Err(fate) => fate,
    }
}

/// Tells how a run over the line ends, and gives the status.
fn conclude<E: Terminal>(alloc: Global, line: &TecolLine, fate: TecolFate, errors: &mut E) -> u8
    ensures { Concludes line.now fate (E.screen errors.old) (E.screen errors.new) result }
{
    match text_of(alloc, line, fate) {
        Ok(text) => {
            let _ = errors.put(text.as_bytes());
            status(fate)
        }
        Err(NoMemory) => tell_no_memory(NO_MEMORY, errors),
    }
}

/// Does what the line says, tells how that ends, and gives the status. The number is for the name of a draft.
fn keep<S: Source, T: Terminal, E: Terminal, D: Disk>(
    alloc: Global,
    line: &TecolLine,
    number: u32,
    stream: &mut S,
    term: &mut T,
    errors: &mut E,
    disk: &mut D,
) -> u8
    ensures { let view = view_of (disk_seen D.Disk D.Input.Source)
        S.Source T.screen in
        Keeps view E.screen line.now (host disk.old stream.old term.old) (host disk.new stream.new term.new)
        errors.old errors.new result }
{
    let fate = run_over(alloc, line, number, stream, term, disk);
    conclude(alloc, line, fate, errors)
}

/// Does what these words say, and gives the status. The number is for the name of a draft.
pub fn program<S: Source, T: Terminal, E: Terminal, D: Disk>(
    alloc: Global,
    words: Result<Vec<String>, LineFault>,
    number: u32,
    stream: &mut S,
    term: &mut T,
    errors: &mut E,
    disk: &mut D,
) -> ExitCode
    ensures { let view = view_of (disk_seen D.Disk D.Input.Source)
        S.Source T.screen in
        KeepsBy view E.screen words (host disk.old stream.old term.old) (host disk.new stream.new term.new)
        errors.old errors.new (exit_status result) }
{
    match line_in::<TecolLine>(alloc, words) {
        Ok(line) => ExitCode::from(keep(alloc, &line, number, stream, term, errors, disk)),
        Err(fault) => ExitCode::from(refuse(&fault, NO_MEMORY, term, errors)),
    }
}
