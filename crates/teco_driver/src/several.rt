//! Runs over the inputs of a line: by commands as they come, or one after another by commands that are had at once.
ghost use Rattle.std.specs.Prelude.{◌≡◌, ◌⊎◌, false, IfSome};
ghost use Rattle.teco_cli.specs.CommandLine.{IsDepth};
ghost use Rattle.teco_cli.specs.Conflict.{has_conflict};
ghost use Rattle.teco_driver.specs.Lines.{worse};
ghost use Rattle.teco_serve.specs.Exchange.{HasRung};
ghost use Rattle.teco_driver.specs.Given.{host_view};
ghost use Rattle.teco_driver.specs.Reporting.{has_notes};
ghost use Rattle.teco_driver.specs.Runs.{LinkGiven, RunsInOrder, RunsOverAll, RunsOverOne, inputs_of};
ghost use Rattle.teco_driver.specs.declared.giving.Feed.TheVariants.{Stream};
ghost use Rattle.teco_driver.specs.declared.several.Hearer.TheVariants.{Nobody};
ghost use Rattle.teco_cli.specs.StreamNames.{is_standard_input};
ghost use Rattle.std.specs.String.{string_bytes};
ghost use Rattle.teco_fs.specs.Seen.{disk_seen};

use crate::editing::are_awaited;
use crate::looking::status_if_misspelt;
use crate::reporter::Reporter;
use crate::{Feed, Host, ReadSources, commands_given, decline, edit_given, is_streamed};
use std::alloc::Global;
use teco_cli::Line;
use teco_fs::Disk;
use teco_io::{Source, Terminal};
use teco_serve::{Alarm, Explainer, Listens, Silent};

/// The worse of two statuses: 1, if a file or memory failed; else 2, if there was no exit; else 0.
fn worse(a: u8, b: u8) -> u8
    ensures { result ≡ worse a b }
{
    if a == 1 || b == 1 {
        1
    } else if a == 2 || b == 2 {
        2
    } else {
        0
    }
}

/// Runs over each input of the line in order, by these bytes as commands. Gives the worst status.
fn edit_each<S: Source, A: Alarm, T: Terminal, E: Terminal, L: Listens, D: Disk>(
    alloc: Global,
    line: &Line,
    bytes: &[u8],
    host: &mut Host<S, A, T, D>,
    errors: &mut E,
    listener: &mut L,
) -> u8
    requires depth { IfSome line.now.undo IsDepth }
    ensures { let view = host_view (disk_seen D.Disk D.Input.Source) S.Source T.screen (HasRung A.answered) in
        RunsInOrder view E.screen line.now bytes.now (inputs_of line.now)
        (host.old, errors.old) (host.new, errors.new) result }
{
    let feed = Feed::Bytes(bytes);
    let name = line.input.as_str();
    let first = edit_given(alloc, line, name, feed, host, errors, listener);
    let mut status = worse(0, first);
    for name in line.more.iter() {
        let name = name.as_str();
        let next = edit_given(alloc, line, name, feed, host, errors, listener);
        status = worse(status, next);
    }
    status
}

/// Who hears what is done for the strings of a line.
#[derive(Clone, Copy)]
enum Hearer {
    /// Nobody.
    Nobody,
    /// Who explains it.
    Explainer,
    /// Who tells how the strings ended, and explains it if the line asks for that.
    Reporter,
}

/// Who hears what is done for the strings of the line.
fn hearer_of(line: &Line) -> Hearer
    ensures silent { has_notes line.now ≡ false → result ≡ Nobody }
{
    if !are_awaited(&line.commands) && !line.quiet {
        Hearer::Reporter
    } else if line.explain {
        Hearer::Explainer
    } else {
        Hearer::Nobody
    }
}

/// Runs over the first input of the line by the commands of standard input, as they come. What is done is told on the notes.
fn edit_streamed<S: Source, A: Alarm, T: Terminal, E: Terminal, N: Terminal, D: Disk>(
    alloc: Global,
    line: &Line,
    host: &mut Host<S, A, T, D>,
    errors: &mut E,
    notes: &mut N,
) -> u8
    requires depth { IfSome line.now.undo IsDepth }
    requires apart { is_standard_input (string_bytes line.now.input) ≡ false }
    ensures run { let view = host_view (disk_seen D.Disk D.Input.Source) S.Source T.screen (HasRung A.answered) in
        LinkGiven view E.screen line.now Stream (string_bytes line.now.input)
        (host.old, errors.old) (host.new, errors.new) result }
    ensures silent { has_notes line.now ≡ false → notes.new ≡ notes.old }
{
    let feed = Feed::Stream;
    let name = line.input.as_str();
    match hearer_of(line) {
        Hearer::Nobody => edit_given(alloc, line, name, feed, host, errors, &mut Silent),
        Hearer::Explainer => {
            let mut explainer = Explainer::new(alloc, line, notes);
            edit_given(alloc, line, name, feed, host, errors, &mut explainer)
        }
        Hearer::Reporter => {
            let parts = ReadSources::unkept(alloc);
            let mut reporter = Reporter::new(alloc, line, &parts, notes);
            edit_given(alloc, line, name, feed, host, errors, &mut reporter)
        }
    }
}

/// Runs over each input of the line in order, by these bytes as commands, which the sources gave. What is done is told on the notes.
fn edit_whole<S: Source, A: Alarm, T: Terminal, E: Terminal, N: Terminal, D: Disk>(
    alloc: Global,
    line: &Line,
    parts: &ReadSources,
    bytes: &[u8],
    host: &mut Host<S, A, T, D>,
    errors: &mut E,
    notes: &mut N,
) -> u8
    requires depth { IfSome line.now.undo IsDepth }
    ensures run { let view = host_view (disk_seen D.Disk D.Input.Source) S.Source T.screen (HasRung A.answered) in
        RunsInOrder view E.screen line.now bytes.now (inputs_of line.now)
        (host.old, errors.old) (host.new, errors.new) result }
    ensures silent { has_notes line.now ≡ false → notes.new ≡ notes.old }
{
    match hearer_of(line) {
        Hearer::Nobody => edit_each(alloc, line, bytes, host, errors, &mut Silent),
        Hearer::Explainer => {
            let mut explainer = Explainer::new(alloc, line, notes);
            edit_each(alloc, line, bytes, host, errors, &mut explainer)
        }
        Hearer::Reporter => {
            let mut reporter = Reporter::new(alloc, line, parts, notes);
            edit_each(alloc, line, bytes, host, errors, &mut reporter)
        }
    }
}

/// Runs over each input of the line: over one by commands as they come, or by commands that are had once, before, unless these are
/// misspelt. What is done is told on the notes. Gives the worst status.
pub fn edit_all<S: Source, A: Alarm, T: Terminal, E: Terminal, N: Terminal, D: Disk>(
    alloc: Global,
    line: &Line,
    host: &mut Host<S, A, T, D>,
    errors: &mut E,
    notes: &mut N,
) -> u8
    requires depth { IfSome line.now.undo IsDepth }
    requires fits { has_conflict line.now ≡ false }
    ensures run { let view = host_view (disk_seen D.Disk D.Input.Source) S.Source T.screen (HasRung A.answered) in
        RunsOverOne view E.screen line.now host.old host.new errors.old errors.new result
        ⊎ RunsOverAll view E.screen line.now host.old host.new errors.old errors.new result }
    ensures silent { has_notes line.now ≡ false → notes.new ≡ notes.old }
{
    if is_streamed(line) {
        return edit_streamed(alloc, line, host, errors, notes);
    }
    let commands = &line.commands;
    let mut parts = ReadSources::kept(alloc);
    let given = commands_given(
        alloc,
        commands,
        &mut host.commands,
        &mut host.disk,
        &mut parts,
    );
    let bytes = match given {
        Ok(bytes) => bytes,
        Err(fault) => return decline(alloc, commands, fault, errors),
    };
    let bytes = bytes.as_slice();
    if let Some(status) = status_if_misspelt(alloc, line, &parts, bytes, errors) {
        return status;
    }
    edit_whole(alloc, line, &parts, bytes, host, errors, notes)
}
