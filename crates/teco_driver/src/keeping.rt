//! A run over an input whose session is kept in a file.
ghost use Rattle.std.specs.Prelude.{◌≡◌, ◌≤◌, false, is_some, length, IfErr, IfOk, IfSome};
ghost use Rattle.std.specs.Option.{ForSome};
ghost use Rattle.std.specs.String.{string_bytes};
ghost use Rattle.teco_core.specs.declared.limits.TheConstants.{DEPTH_LIMIT, FILE_LIMIT};
ghost use Rattle.teco_cli.specs.CommandLine.{IsDepth};
ghost use Rattle.teco_cli.specs.StreamNames.{is_standard_input};
ghost use Rattle.teco_driver.specs.Given.{host_view};
ghost use Rattle.teco_driver.specs.Run.{bounds_of, manner_of};
ghost use Rattle.teco_driver.specs.SessionLines.{TellsOrLacks, opening_lines};
ghost use Rattle.teco_driver.specs.Sessions.{ConcludesKept, FinishesKept, EditsKept, EditsKeptByStream, LinkKeptGiven, OpensOver, StaysUnserved, asked_by, asked_profile, origin_by};
ghost use Rattle.teco_driver.specs.Seen.{commands_seen};
ghost use Rattle.teco_driver.specs.declared.giving.Feed.TheVariants.{Stream};
ghost use Rattle.teco_fs.specs.Seen.{KeepsStream, disk_seen};
ghost use Rattle.teco_io.specs.Source.{Gives, HasEnded};
ghost use Rattle.teco_io.specs.Terminal.{Shows};
ghost use Rattle.teco_journal.specs.Heads.{beginning_in};
ghost use Rattle.teco_recorder.specs.Recording.{IsRecorded, KeptFile, recording};
ghost use Rattle.teco_serve.specs.Ending.{output_of};
ghost use Rattle.teco_serve.specs.Exchange.{HasRung, allowance};
ghost use Rattle.teco_serve.specs.Serving.{Serves};
ghost use Rattle.teco_session.specs.History.{present};
ghost use Rattle.teco_session.specs.Kept.{history_of};

use crate::concluding::conclude;
use crate::editing::{Work, are_awaited, depth_said, finish, leave, settings_of};
use crate::giving::Feed;
use crate::host::Host;
use crate::opening::open_told;
use crate::paging::page_lines_of;
use crate::reading::input_at;
use crate::session_lines::{fault_line, not_kept_line, opening_lines, tell};
use crate::word_source::WordSource;
use std::alloc::Global;
use teco_cli::Line;
use teco_core::Profile;
use teco_fs::{Disk, Reason};
use teco_io::{Source, Terminal};
use teco_journal::Start;
use teco_recorder::{Asked, OpenFault, OpenFile, Opened, Recorder, serve_recorded};
use teco_serve::{Alarm, Fate, Listens, Served, output_name};

/// How a run ends whose session is kept in a file.
#[derive(Clone, Copy)]
pub enum SessionEnd {
    /// The file is not gone on with.
    Closed(OpenFault),
    /// The run ends so, and all that was done has its line in the file.
    Ended(Fate),
    /// The run ends so, and from some line on none could be written, for this reason.
    Broken(Reason, Fate),
}

/// What the line begins a session with over this input.
fn start_of<'a>(line: &Line, input: &'a [u8]) -> Start<'a>
    requires input { length input.now ≤ FILE_LIMIT }
    requires depth { IfSome line.now.undo IsDepth }
    ensures start { beginning_in result ≡ origin_by line.now input.now }
    ensures small { length result.input.now ≤ FILE_LIMIT }
    ensures depth { ForSome result.depth (λ depth. depth ≤ DEPTH_LIMIT) }
{
    Start {
        profile: line.profile,
        lines: page_lines_of(line, input),
        depth: depth_said(line),
        input,
    }
}

/// The profile that a line asks for: with no `--wide` it asks for none.
fn asked_profile(profile: Profile) -> Option<Profile>
    ensures { result ≡ asked_profile profile }
{
    match profile {
        Profile::Named => None,
        Profile::Wide => Some(profile),
    }
}

/// What the line asks of a session that goes on.
fn asked_of(line: &Line) -> Asked
    requires { IfSome line.now.undo IsDepth }
    ensures { result ≡ asked_by line.now }
{
    Asked {
        profile: asked_profile(line.profile),
        lines: match line.page_lines {
            Some(lines) => Some(lines as usize),
            None => None,
        },
        depth: depth_said(line),
    }
}

/// A session whose file is open, over an input of so many bytes, and where its output goes.
#[derive(Drop)]
struct Kept<D: Disk> {
    work: Work,
    file: OpenFile<D>,
    length: usize,
    // how many records were done again, and how many bytes were cut off behind them
    records: usize,
    torn: usize,
}

/// Tells of a session that was opened what one should know.
fn tell_opened<E: Terminal, D: Disk>(alloc: Global, line: &Line, opened: &Opened<D>, errors: &mut E)
    ensures { TellsOrLacks (E.screen errors.old) (E.screen errors.new)
        (opening_lines line.now opened.now.torn opened.now.records (history_of opened.now.session).cursor) }
{
    let strings = opened.session.cursor();
    let lines = opening_lines(alloc, line, opened.torn, opened.records, strings);
    tell(lines, errors);
}

/// Reads an input of the line, and opens the file that keeps its session.
fn open_kept<S: Source, A: Alarm, T: Terminal, E: Terminal, D: Disk>(
    alloc: Global,
    line: &Line,
    name: &str,
    host: &mut Host<S, A, T, D>,
    errors: &mut E,
) -> Result<Kept<D>, SessionEnd>
    requires depth { IfSome line.now.undo IsDepth }
    ensures opens { let view = host_view (disk_seen D.Disk D.Input.Source) S.Source T.screen (HasRung A.answered) in
        IfOk result (λ kept. OpensOver view E.screen line.now name.now host.old host.new.commands host.new.disk errors.old errors.new
        kept.length (record {
          file = kept.file;
          history = history_of kept.work.session;
          records = kept.records;
          torn = kept.torn;
        })) }
    ensures to { IfOk result (λ kept. string_bytes kept.work.to ≡ output_of line.now name.now) }
    ensures small { IfOk result (λ kept. kept.length ≤ FILE_LIMIT) }
    ensures shut { let view = host_view (disk_seen D.Disk D.Input.Source) S.Source T.screen (HasRung A.answered) in
        IfErr result (λ end. StaysUnserved view E.screen line.now name.now host.old host.new errors.old errors.new end) }
    ensures still { host.new.terminal ≡ host.old.terminal }
    ensures stream { KeepsStream name.now host.old.commands host.new.commands }
{
    let input = match input_at(alloc, line, name, &mut host.commands, &mut host.disk) {
        Ok(input) => input,
        Err(fate) => return Err(SessionEnd::Ended(fate)),
    };
    let Ok(to) = output_name(alloc, line, name) else {
        return Err(SessionEnd::Ended(Fate::NoMemory));
    };
    let start = start_of(line, input.as_slice());
    let opened = match open_told(alloc, line, start, asked_of(line), &mut host.disk, errors) {
        Ok(opened) => opened,
        Err(fault) => return Err(SessionEnd::Closed(fault)),
    };
    tell_opened(alloc, line, &opened, errors);
    Ok(Kept {
        work: Work {
            session: opened.session,
            to,
        },
        file: opened.file,
        length: input.len(),
        records: opened.records,
        torn: opened.torn,
    })
}

/// What was served, how it ended, and why a line of it could not be written.
#[derive(Drop)]
struct Done<D: Disk> {
    work: Work,
    // no other run has it until the output is written
    file: OpenFile<D>,
    served: Served,
    broken: Option<Reason>,
}

/// Serves commands over a session, and writes what each did to its file. A line outlasts a crash of the machine before its answer is shown
/// where one awaits commands, and else all of them do at the end.
fn serve_kept<C: Source, A: Alarm, T: Terminal, L: Listens, D: Disk>(
    line: &Line,
    kept: Kept<D>,
    commands: &mut C,
    alarm: &mut A,
    term: &mut T,
    disk: &mut D,
    listener: &mut L,
) -> Done<D>
    requires { kept.length ≤ FILE_LIMIT }
    ensures serves { Serves (allowance (bounds_of line.now kept.length) (HasRung A.answered)) (manner_of line.now)
        (Gives C.coming C.bound C.failures commands.old commands.new)
        (HasEnded (C.coming commands.new) (C.ended commands.new))
        (Shows (T.screen term.old) (T.screen term.new))
        (history_of kept.work.session) (history_of result.work.session) result.served }
    ensures recorded { (left : KeptFile) × IsRecorded (recording (D.seen disk.old) kept.file false)
        (recording (D.seen disk.new) left (is_some result.broken))
        (history_of kept.work.session) (history_of result.work.session) }
    ensures to { result.work.to ≡ kept.work.to }
{
    let mut work = kept.work;
    let mut file = kept.file;
    let alloc = work.session.alloc();
    let mut recorder = Recorder {
        alloc,
        disk,
        file: &mut file,
        syncs: are_awaited(&line.commands),
        broken: None,
        listener,
    };
    let served = serve_recorded(
        alloc,
        commands,
        &mut work.session,
        settings_of(line, kept.length),
        alarm,
        term,
        &mut recorder,
    );
    let broken = recorder.broken;
    Done {
        work,
        file,
        served,
        broken,
    }
}

/// Writes the output after an exit, and gives the session up.
fn finish_kept<S: Source, A: Alarm, T: Terminal, D: Disk>(
    alloc: Global,
    line: &Line,
    done: Done<D>,
    host: &mut Host<S, A, T, D>,
) -> SessionEnd
    ensures ends { let seen = disk_seen D.Disk D.Input.Source in
        FinishesKept line.now (string_bytes done.work.to) done.served (present (history_of done.work.session)).output
        (is_some done.broken) (seen host.old.disk) (seen host.new.disk) T.screen host.old.terminal host.new.terminal result }
    ensures still { host.new.commands ≡ host.old.commands }
{
    let Done {
        work,
        file: _file,
        served,
        broken,
    } = done;
    let fate = finish(alloc, line, &work, served, host);
    leave(line, work.session);
    match broken {
        Some(reason) => SessionEnd::Broken(reason, fate),
        None => SessionEnd::Ended(fate),
    }
}

/// Edits an input, which is a file, by the commands of standard input, and keeps its session.
fn keep_by_stream<S: Source, A: Alarm, T: Terminal, E: Terminal, L: Listens, D: Disk>(
    alloc: Global,
    line: &Line,
    name: &str,
    host: &mut Host<S, A, T, D>,
    errors: &mut E,
    listener: &mut L,
) -> SessionEnd
    requires depth { IfSome line.now.undo IsDepth }
    requires apart { is_standard_input name.now ≡ false }
    ensures { let view = host_view (disk_seen D.Disk D.Input.Source) S.Source T.screen (HasRung A.answered) in
        EditsKeptByStream view E.screen line.now name.now host.old host.new errors.old errors.new result }
{
    let kept = match open_kept(alloc, line, name, host, errors) {
        Ok(kept) => kept,
        Err(end) => return end,
    };
    let done = serve_kept(
        line,
        kept,
        &mut host.commands,
        &mut host.alarm,
        &mut host.terminal,
        &mut host.disk,
        listener,
    );
    finish_kept(alloc, line, done, host)
}

/// Edits an input by these commands, and keeps its session.
fn keep_by<C: Source, S: Source, A: Alarm, T: Terminal, E: Terminal, L: Listens, D: Disk>(
    alloc: Global,
    line: &Line,
    name: &str,
    commands: &mut C,
    host: &mut Host<S, A, T, D>,
    errors: &mut E,
    listener: &mut L,
) -> SessionEnd
    requires depth { IfSome line.now.undo IsDepth }
    ensures keeps { let view = host_view (disk_seen D.Disk D.Input.Source) S.Source T.screen (HasRung A.answered) in
        let given = commands_seen C.Source commands.old commands.new view.asked line.now.undo in
        EditsKept view E.screen line.now name.now given host.old host.new errors.old errors.new result }
    ensures still { KeepsStream name.now host.old.commands host.new.commands }
{
    let kept = match open_kept(alloc, line, name, host, errors) {
        Ok(kept) => kept,
        Err(end) => return end,
    };
    let done = serve_kept(
        line,
        kept,
        commands,
        &mut host.alarm,
        &mut host.terminal,
        &mut host.disk,
        listener,
    );
    finish_kept(alloc, line, done, host)
}

/// Tells how a run ends, and gives the status.
fn conclude_kept<E: Terminal, L: Listens>(
    alloc: Global,
    line: &Line,
    name: &str,
    end: SessionEnd,
    errors: &mut E,
    listener: &mut L,
) -> u8
    ensures { ConcludesKept line.now name.now end (E.screen errors.old) (E.screen errors.new) result }
{
    match end {
        SessionEnd::Closed(fault) => {
            tell(fault_line(alloc, line, name, fault), errors);
            1
        }
        SessionEnd::Ended(fate) => {
            listener.ended(line, name, fate);
            conclude(alloc, line, name, fate, errors)
        }
        SessionEnd::Broken(reason, fate) => {
            listener.ended(line, name, fate);
            tell(not_kept_line(alloc, line, reason), errors);
            let _ = conclude(alloc, line, name, fate, errors);
            1
        }
    }
}

/// Edits this input of the line by the commands that come from there, keeps its session in the file that the line names, and tells how that
/// ends. Gives the status.
pub fn keep_given<S: Source, A: Alarm, T: Terminal, E: Terminal, L: Listens, D: Disk>(
    alloc: Global,
    line: &Line,
    name: &str,
    feed: Feed<'_>,
    host: &mut Host<S, A, T, D>,
    errors: &mut E,
    listener: &mut L,
) -> u8
    requires depth { IfSome line.now.undo IsDepth }
    requires apart { feed ≡ Stream → is_standard_input name.now ≡ false }
    ensures { let view = host_view (disk_seen D.Disk D.Input.Source) S.Source T.screen (HasRung A.answered) in
        LinkKeptGiven view E.screen line.now feed.entry name.now (host.old, errors.old) (host.new, errors.new) result }
{
    let end = match feed {
        Feed::Stream => keep_by_stream(alloc, line, name, host, errors, listener),
        Feed::Bytes(bytes) => {
            let mut given = WordSource::new(bytes);
            keep_by(alloc, line, name, &mut given, host, errors, listener)
        }
    };
    conclude_kept(alloc, line, name, end, errors, listener)
}
