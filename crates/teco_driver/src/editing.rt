//! One run of the program: an input is read, commands are served over it, and the output is written.
ghost use Rattle.std.specs.Prelude.{◌≡◌, ◌≤◌, IfErr, IfOk, IfSome, IsTrue, None, OnOk, false, true, vec_len};
ghost use Rattle.std.specs.Option.{ForSome};
ghost use Rattle.std.specs.String.{string_bytes};
ghost use Rattle.teco_core.specs.declared.limits.TheConstants.{DEPTH_LIMIT, FILE_LIMIT};
ghost use Rattle.teco_cli.specs.CommandLine.{IsDepth};
ghost use Rattle.teco_cli.specs.Values.{text_behind};
ghost use Rattle.teco_cli.specs.Conflict.{are_awaited};
ghost use Rattle.teco_cli.specs.StreamNames.{is_standard_input, is_standard_output};
ghost use Rattle.teco_serve.specs.Exchange.{HasRung};
ghost use Rattle.teco_serve.specs.Ending.{output_of};
ghost use Rattle.teco_session.specs.History.{present};
ghost use Rattle.teco_driver.specs.Backups.{FailsToKeep, KeepsOld, replacing, replacing_of};
ghost use Rattle.teco_driver.specs.Run.{EndsBy, FinishesIn, bounds_of, depth_of, doings_after, history_over, limit_of, manner_of, named_output, replaces_input, standard_output, wants_history};
ghost use Rattle.teco_driver.specs.Given.{EditsByStream, EditsInput, host_view};
ghost use Rattle.teco_fs.specs.Seen.{KeepsStream, disk_seen};
ghost use Rattle.teco_driver.specs.Seen.{commands_seen};
ghost use Rattle.teco_session.specs.Kept.{history_of};
ghost use Rattle.teco_store.specs.Slices.{bytes_in};

use crate::fates::{fate_written, no_backup, no_output};
use crate::host::Host;
use crate::paging::page_lines_of;
use crate::put_values;
use crate::reading::{input_at, input_of};
use std::alloc::Global;
use std::mem::ManuallyDrop;
use teco_cli::{Commands, Line, is_standard_output, suffix_of};
use teco_core::NoMemory;
use teco_fs::{Disk, Drafts, Reason, Written, has_bytes, keep_file, write_output_by};
use teco_io::{Source, Terminal, TerminalFault};
use teco_scan::asks_history;
use teco_serve::{Alarm, Bounds, Fate, Listens, Manner, Served, Settings, output_name, serve};
use teco_session::Session;
use teco_store::{Desk, Editor, Slices};

/// Whether a string of these commands, which are had whole, may be undone, or is told of.
fn wants_history(line: &Line, commands: &[u8]) -> bool
    ensures { result ≡ wants_history line.now commands.now }
{
    match line.commands {
        Commands::Pages(_) => false,
        _ => line.explain || asks_history(commands),
    }
}

/// How many strings the history keeps, or all: as many as the line says.
pub fn depth_said(line: &Line) -> Option<usize>
    requires { IfSome line.now.undo IsDepth }
    ensures depth { result ≡ line.now.undo }
    ensures most { ForSome result (λ depth. depth ≤ DEPTH_LIMIT) }
{
    match line.undo {
        Some(depth) => Some(depth as usize),
        None => None,
    }
}

/// How many strings it keeps of commands that are had whole: as many as the line says. If it says no number, none that nothing could undo.
pub fn depth_of(line: &Line, commands: &[u8]) -> Option<usize>
    requires { IfSome line.now.undo IsDepth }
    ensures depth { result ≡ depth_of line.now commands.now }
    ensures most { ForSome result (λ depth. depth ≤ DEPTH_LIMIT) }
{
    match depth_said(line) {
        Some(depth) => Some(depth),
        None if wants_history(line, commands) => None,
        None => Some(0),
    }
}

/// Whether the output goes over the file that is read: the line says so, or its output has the name of its input.
fn replaces_input(line: &Line) -> bool
    ensures { result ≡ replaces_input line.now }
{
    if line.in_place {
        return true;
    }
    match &line.output {
        Some(name) => name.as_str() == line.input.as_str(),
        None => false,
    }
}

/// Shows the output after an exit, after all that was typed.
fn put_on_terminal<T: Terminal>(output: Slices<'_>, term: &mut T) -> Fate
    ensures { EndsBy (doings_after Served.Exit (bytes_in output.entry) ⊥
        (standard_output T.screen term.old term.new)) result }
{
    let mut left = output;
    while let Some((slice, others)) = left.split_first() {
        if let Err(TerminalFault) = term.put(slice) {
            return Fate::NoOutput(Reason::WriteFailed);
        }
        left = others;
    }
    Fate::Ended(Served::Exit)
}

/// Keeps what a file has under its name with the suffix after it, if there is one.
fn keep_old<D: Disk>(
    alloc: Global,
    name: &str,
    number: u32,
    suffix: Option<&str>,
    disk: &mut D,
) -> Result<(), Fate>
    ensures ok { let seen = disk_seen D.Disk D.Input.Source in
        OnOk result (KeepsOld (seen disk.old) (seen disk.new) name.now (text_behind suffix.entry)) }
    ensures err { let seen = disk_seen D.Disk D.Input.Source in
        IfErr result (λ fate. FailsToKeep (seen disk.old) (seen disk.new) name.now (text_behind suffix.entry) fate) }
{
    let Some(suffix) = suffix else {
        return Ok(());
    };
    match keep_file(alloc, disk, name, number, suffix) {
        Ok(()) => Ok(()),
        Err(error) => Err(no_backup(error)),
    }
}

/// Writes the output over the file that was read, under its name. That has to be what it was, and stays as it is if it has these bytes. What
/// it has is kept before under its name with the suffix after it, if there is one.
fn put_over_input<D: Disk>(
    alloc: Global,
    name: &str,
    drafts: Drafts,
    suffix: Option<&str>,
    output: Slices<'_>,
    disk: &mut D,
) -> Fate
    ensures { let seen = disk_seen D.Disk D.Input.Source in
        EndsBy (doings_after Served.Exit (bytes_in output.entry) (IsTrue true)
        (named_output (seen disk.old) (seen disk.new) name.now (replacing (text_behind suffix.entry) drafts.synced))) result }
{
    if has_bytes(name, output, disk) {
        return Fate::Unchanged;
    }
    if let Err(fate) = keep_old(alloc, name, drafts.number, suffix, disk) {
        return fate;
    }
    match write_output_by(alloc, disk, name, drafts, Some(name), output) {
        Ok(Written::Whole(unkept)) => fate_written(unkept),
        Ok(Written::Changed) => Fate::Changed,
        Err(error) => no_output(error),
    }
}

/// Writes the output to a file, which is the one that was read if it goes `over` that. Only then old bytes are kept.
fn put_in_file<D: Disk>(
    alloc: Global,
    over: bool,
    name: &str,
    drafts: Drafts,
    suffix: Option<&str>,
    output: Slices<'_>,
    disk: &mut D,
) -> Fate
    requires { over ≡ false → text_behind suffix ≡ None }
    ensures { let seen = disk_seen D.Disk D.Input.Source in
        EndsBy (doings_after Served.Exit (bytes_in output.entry) (IsTrue over)
        (named_output (seen disk.old) (seen disk.new) name.now (replacing (text_behind suffix.entry) drafts.synced))) result }
{
    if over {
        return put_over_input(alloc, name, drafts, suffix, output, disk);
    }
    match write_output_by(alloc, disk, name, drafts, None, output) {
        Ok(Written::Whole(unkept)) => fate_written(unkept),
        // no file is named that was read, so none has changed
        Ok(Written::Changed) => unreachable!(),
        Err(error) => no_output(error),
    }
}

/// What is made of an input that was read: a session over it, and the name of its output.
#[derive(Drop)]
pub struct Work {
    pub session: Session,
    pub to: String,
}

/// Makes a session over an input, with a profile, pages and values by the line and so many strings kept, and the name of its output.
fn work_over(
    alloc: Global,
    line: &Line,
    name: &str,
    depth: Option<usize>,
    input: Vec<u8>,
) -> Result<Work, NoMemory>
    requires small { vec_len input ≤ FILE_LIMIT }
    requires depth { ForSome depth (λ most. most ≤ DEPTH_LIMIT) }
    ensures to { IfOk result (λ work. string_bytes work.to ≡ output_of line.now name.now) }
    ensures history { IfOk result (λ work. history_of work.session ≡ history_over line.now depth input.items) }
{
    let to = output_name(alloc, line, name)?;
    let lines = page_lines_of(line, input.as_slice());
    let mut editor = Editor::with_page_lines(input, lines).with_profile(line.profile);
    put_values(alloc, &line.values, &mut editor)?;
    let session = Session::over(editor, depth)?;
    Ok(Work { session, to })
}

/// Whether no option gives the commands, so that they come on standard input.
pub fn are_awaited(commands: &Commands) -> bool
    ensures { result ≡ are_awaited commands.now }
{
    matches!(commands, Commands::StandardInput)
}

/// The most steps of a string, if the line says no number.
const STEPS: u64 = 1_000_000;

/// How many more they are for each byte of the input, if an option gives the commands.
const STEPS_FOR_A_BYTE: u64 = 1_000;

/// The most steps that a string may take over an input of so many bytes.
fn limit_of(line: &Line, length: usize) -> u64
    requires { length ≤ FILE_LIMIT }
    ensures { result ≡ limit_of line.now length }
{
    match (line.limit, &line.commands) {
        (Some(limit), _) => limit,
        (None, Commands::StandardInput) => STEPS,
        (None, _) => STEPS + STEPS_FOR_A_BYTE * length as u64,
    }
}

/// How the line has its commands served over an input of so many bytes.
pub fn settings_of(line: &Line, length: usize) -> Settings
    requires { length ≤ FILE_LIMIT }
    ensures bounds { result.bounds ≡ bounds_of line.now length }
    ensures manner { result.manner ≡ manner_of line.now }
{
    Settings {
        bounds: Bounds {
            steps: limit_of(line, length),
            seconds: line.seconds,
        },
        manner: Manner {
            prompt: line.prompt,
            shows_codes: are_awaited(&line.commands),
        },
    }
}

/// What is done after a serving: after an exit the output is written to where the line says.
pub fn finish<S: Source, A: Alarm, T: Terminal, D: Disk>(
    alloc: Global,
    line: &Line,
    work: &Work,
    served: Served,
    host: &mut Host<S, A, T, D>,
) -> Fate
    ensures ends { let seen = disk_seen D.Disk D.Input.Source in
        FinishesIn (is_standard_output (string_bytes work.now.to)) served (present (history_of work.now.session)).output
        (replaces_input line.now) (replacing_of line.now) (string_bytes work.now.to)
        (seen host.old.disk) (seen host.new.disk) T.screen host.old.terminal host.new.terminal result }
    ensures still { host.new.commands ≡ host.old.commands }
{
    match served {
        Served::Exit => {}
        other => return Fate::Ended(other),
    }
    let name = work.to.as_str();
    let output = work.session.editor().output();
    if is_standard_output(name) {
        return put_on_terminal(output, &mut host.terminal);
    }
    let over = replaces_input(line);
    let suffix = suffix_of(line);
    let drafts = Drafts {
        number: host.process,
        synced: !line.no_sync,
    };
    put_in_file(alloc, over, name, drafts, suffix, output, &mut host.disk)
}

/// Gives up a session that is over.
pub fn leave(line: &Line, session: Session) {
    if line.more.is_empty() {
        // The process ends next, and the system takes back at once what the session would free change by change.
        let _kept = ManuallyDrop::new(session);
    }
}

/// Reads an input that is a file, and edits it by the commands of standard input. The history keeps as many strings as the line says.
pub fn edit_by_stream<S: Source, A: Alarm, T: Terminal, L: Listens, D: Disk>(
    alloc: Global,
    line: &Line,
    name: &str,
    host: &mut Host<S, A, T, D>,
    listener: &mut L,
) -> Fate
    requires depth { IfSome line.now.undo IsDepth }
    requires apart { is_standard_input name.now ≡ false }
    ensures { let view = host_view (disk_seen D.Disk D.Input.Source) S.Source T.screen (HasRung A.answered) in
        EditsByStream view line.now name.now host.old host.new result }
{
    let input = match input_of(alloc, line, name, &mut host.disk) {
        Ok(input) => input,
        Err(fate) => return fate,
    };
    let settings = settings_of(line, input.len());
    let Ok(mut work) = work_over(alloc, line, name, depth_said(line), input) else {
        return Fate::NoMemory;
    };
    let served = serve(
        alloc,
        &mut host.commands,
        &mut work.session,
        settings,
        &mut host.alarm,
        &mut host.terminal,
        listener,
    );
    let fate = finish(alloc, line, &work, served, host);
    leave(line, work.session);
    fate
}

/// Reads an input, standard input or a file, and edits it by these commands. The history keeps so many of their strings.
pub fn edit_by<C: Source, S: Source, A: Alarm, T: Terminal, L: Listens, D: Disk>(
    alloc: Global,
    line: &Line,
    name: &str,
    depth: Option<usize>,
    commands: &mut C,
    host: &mut Host<S, A, T, D>,
    listener: &mut L,
) -> Fate
    requires depth { ForSome depth (λ most. most ≤ DEPTH_LIMIT) }
    ensures edits { let view = host_view (disk_seen D.Disk D.Input.Source) S.Source T.screen (HasRung A.answered) in
        let given = commands_seen C.Source commands.old commands.new view.asked depth in
        EditsInput view line.now name.now given host.old host.new result }
    ensures still { KeepsStream name.now host.old.commands host.new.commands }
{
    let input = match input_at(alloc, line, name, &mut host.commands, &mut host.disk) {
        Ok(input) => input,
        Err(fate) => return fate,
    };
    let settings = settings_of(line, input.len());
    let Ok(mut work) = work_over(alloc, line, name, depth, input) else {
        return Fate::NoMemory;
    };
    let served = serve(
        alloc,
        commands,
        &mut work.session,
        settings,
        &mut host.alarm,
        &mut host.terminal,
        listener,
    );
    let fate = finish(alloc, line, &work, served, host);
    leave(line, work.session);
    fate
}
