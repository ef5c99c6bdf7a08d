//! What the program does, on any disk, terminal and commands.
ghost use Rattle.std.specs.Prelude.{◌≡◌, false, IfSome, map};
ghost use Rattle.std.specs.Process.{exit_status};
ghost use Rattle.std.specs.String.{string_bytes};
ghost use Rattle.teco_cli.specs.CommandLine.{IsDepth, IsLine};
ghost use Rattle.teco_cli.specs.Conflict.{has_conflict};
ghost use Rattle.teco_serve.specs.Exchange.{HasRung};
ghost use Rattle.teco_cli.specs.Words.{IsLineIn};
ghost use Rattle.teco_driver.specs.Given.{host_view};
ghost use Rattle.teco_driver.specs.Reporting.{has_notes};
ghost use Rattle.teco_driver.specs.Runs.{Runs, RunsFound, RunsOrChecks};
ghost use Rattle.teco_fs.specs.Seen.{disk_seen};

use crate::checking::check_line;
use crate::library::find_files;
use crate::several::edit_all;
use crate::{Host, NO_MEMORY, no_memory};
use std::alloc::Global;
use std::process::ExitCode;
use teco_cli::{Line, LineFault, line_in};
use teco_core::NoMemory;
use teco_fs::{Disk, refuse};
use teco_io::{Source, Terminal};
use teco_serve::Alarm;

/// Runs over a line, or checks it if it asks for that, and tells how that ends. What the line asks for is told on the notes. Gives the
/// status.
fn run_over<S: Source, A: Alarm, T: Terminal, E: Terminal, N: Terminal, D: Disk>(
    alloc: Global,
    line: &Line,
    host: &mut Host<S, A, T, D>,
    errors: &mut E,
    notes: &mut N,
) -> u8
    requires depth { IfSome line.now.undo IsDepth }
    requires fits { has_conflict line.now ≡ false }
    ensures runs { let view = host_view (disk_seen D.Disk D.Input.Source) S.Source T.screen (HasRung A.answered) in
        RunsOrChecks view E.screen line.now host.old host.new errors.old errors.new result }
    ensures silent { has_notes line.now ≡ false → notes.new ≡ notes.old }
{
    if line.check {
        return check_line(alloc, line, host, errors);
    }
    edit_all(alloc, line, host, errors, notes)
}

/// Runs over a line, or checks it, once the files of its commands are looked for in these folders. Gives the status.
fn run_over_found<S: Source, A: Alarm, T: Terminal, E: Terminal, N: Terminal, D: Disk>(
    alloc: Global,
    line: Line,
    library: &[String],
    host: &mut Host<S, A, T, D>,
    errors: &mut E,
    notes: &mut N,
) -> u8
    requires depth { IfSome line.undo IsDepth }
    requires fits { has_conflict line ≡ false }
    ensures runs { let view = host_view (disk_seen D.Disk D.Input.Source) S.Source T.screen (HasRung A.answered) in
        RunsFound view E.screen (map string_bytes library.now) line host.old host.new errors.old errors.new result }
    ensures silent { has_notes line ≡ false → notes.new ≡ notes.old }
{
    let mut line = line;
    match find_files(alloc, library, &mut line.commands, &mut host.disk) {
        Ok(()) => run_over(alloc, &line, host, errors, notes),
        Err(NoMemory) => no_memory(errors),
    }
}

/// Runs over the line of these words, and gives the status. The library is the folders in which files of commands are looked for. The
/// alarm of the host breaks off command strings of a line that gives them seconds. The notes are for what is told of the command strings:
/// how those of an option ended, unless the line asks for quiet, and what it asks to be explained.
pub fn program<S: Source, A: Alarm, T: Terminal, E: Terminal, N: Terminal, D: Disk>(
    alloc: Global,
    words: Result<Vec<String>, LineFault>,
    library: &[String],
    host: &mut Host<S, A, T, D>,
    errors: &mut E,
    notes: &mut N,
) -> ExitCode
    ensures run { let view = host_view (disk_seen D.Disk D.Input.Source) S.Source T.screen (HasRung A.answered) in
        Runs view E.screen (map string_bytes library.now) words host.old host.new errors.old errors.new (exit_status result) }
    ensures silent { (line : Line) → IsLineIn IsLine words line → has_notes line ≡ false → notes.new ≡ notes.old }
{
    match line_in::<Line>(alloc, words) {
        Ok(line) => {
            let status = run_over_found(alloc, line, library, host, errors, notes);
            ExitCode::from(status)
        }
        Err(fault) => ExitCode::from(refuse(&fault, NO_MEMORY, &mut host.terminal, errors)),
    }
}
