//! Checks of the commands of a line, which are not run.
ghost use Rattle.std.specs.Prelude.{◌≡◌, codes, false, true};
ghost use Rattle.teco_cli.specs.Conflict.{are_awaited};
ghost use Rattle.teco_driver.specs.Checks.{TellsVerdict, status_of_check};
ghost use Rattle.teco_serve.specs.Ending.{said};
ghost use Rattle.teco_fs.specs.Refusing.{Tells};
ghost use Rattle.teco_driver.specs.Runs.{ChecksLine};
ghost use Rattle.teco_fs.specs.Seen.{disk_seen};

use crate::verdict::verdict_on;
use crate::{Host, ReadSources, commands_given, decline, no_memory};
use std::alloc::Global;
use teco_cli::Line;
use teco_fs::Disk;
use teco_io::{Source, Terminal, TerminalFault};

/// The status of a check: 2 if there is a fault, else 0.
fn status_of_check(is_faulty: bool) -> u8
    ensures { result ≡ status_of_check is_faulty }
{
    if is_faulty { 2 } else { 0 }
}

/// Tells that a terminal failed, and gives the status.
fn cannot_show<E: Terminal>(errors: &mut E) -> u8
    ensures status { result ≡ 1 }
    ensures told { Tells (E.screen errors.old) (E.screen errors.new) (said (codes "cannot show")) }
{
    let _ = errors.put(b"teco: cannot show\n");
    1
}

/// Tells what a check finds in these commands of a line, and gives the status.
fn tell_verdict<T: Terminal, E: Terminal>(
    alloc: Global,
    line: &Line,
    parts: &ReadSources,
    bytes: &[u8],
    term: &mut T,
    errors: &mut E,
) -> u8
    ensures { TellsVerdict T.screen E.screen line.now bytes.now term.old term.new errors.old errors.new result }
{
    let Ok(verdict) = verdict_on(alloc, line, parts, bytes, true) else {
        return no_memory(errors);
    };
    match term.put(verdict.lines.as_bytes()) {
        Ok(()) => status_of_check(verdict.is_faulty),
        Err(TerminalFault) => cannot_show(errors),
    }
}

/// Checks the commands of the line, which are not run, and tells what is found. Gives the status.
pub fn check_line<S: Source, A, T: Terminal, E: Terminal, D: Disk>(
    alloc: Global,
    line: &Line,
    host: &mut Host<S, A, T, D>,
    errors: &mut E,
) -> u8
    requires asked { line.now.check ≡ true }
    requires given { are_awaited line.now.commands ≡ false }
    ensures { let seen = disk_seen D.Disk D.Input.Source in
        ChecksLine seen S.Source T.screen E.screen line.now host.old host.new errors.old errors.new result }
{
    let mut parts = ReadSources::kept(alloc);
    match commands_given(
        alloc,
        &line.commands,
        &mut host.commands,
        &mut host.disk,
        &mut parts,
    ) {
        Ok(bytes) => tell_verdict(
            alloc,
            line,
            &parts,
            bytes.as_slice(),
            &mut host.terminal,
            errors,
        ),
        Err(fault) => decline(alloc, &line.commands, fault, errors),
    }
}
