//! A session's file is begun, or gone on with.
ghost use Rattle.std.specs.Prelude.{◌≡◌, ◌≤◌, ◌⊎◌, IfErr, IfOk, IfSome, None, OnErr, OnOk, Some, length, true};
ghost use Rattle.std.specs.Option.{ForSome};
ghost use Rattle.teco_core.specs.declared.limits.TheConstants.{DEPTH_LIMIT, FILE_LIMIT};
ghost use Rattle.teco_fs.specs.Disk.{CutsTo, Same};
ghost use Rattle.teco_fs.specs.State.{FilesChange, FilesPass};
ghost use Rattle.teco_journal.specs.Events.{events_of};
ghost use Rattle.teco_journal.specs.Heads.{first_check, beginning_in, whole_head};
ghost use Rattle.teco_recorder.specs.Again.{HeardBy, HearsHeld, IsOfFile, IsOfSystem, OpensHeard, steps_again};
ghost use Rattle.teco_recorder.specs.Opening.{IsAsked, IsExpected, IsGood, StaysClosed, first_history};
ghost use Rattle.teco_recorder.specs.Recording.{HasIfThere, IsBegun};
ghost use Rattle.teco_replay.specs.Told.{after_events};
ghost use Rattle.teco_session.specs.Kept.{history_of};

use crate::again::{HearsReplay, steps_again};
use crate::fault::{OpenFault, no_file};
use crate::open_file::OpenFile;
use crate::outputs::session_again;
use std::alloc::Global;
use teco_core::{DEPTH_LIMIT, Profile};
use teco_fs::{Disk, read_whole};
use teco_journal::{Ending, HeadFault, SessionFault, SessionFile, Start, new_head, read_session};
use teco_replay::begun_session;
use teco_session::Session;

/// What a line asks of a session that goes on: it has to be what the file was begun with.
#[derive(Clone, Copy)]
pub struct Asked {
    pub profile: Option<Profile>,
    pub lines: Option<usize>,
    pub depth: Option<usize>,
}

/// A session whose file is open.
#[derive(Drop)]
pub struct Opened<D: Disk> {
    pub session: Session,
    pub file: OpenFile<D>,
    /// How many records were done again.
    pub records: usize,
    /// How many bytes of a line that has no end were cut off behind them.
    pub torn: usize,
}

/// Begins the file, over what it has.
fn begin<D: Disk>(
    alloc: Global,
    start: Start<'_>,
    file: OpenFile<D>,
    disk: &mut D,
) -> Result<Opened<D>, OpenFault>
    requires input { length start.input.now ≤ FILE_LIMIT }
    requires depth { ForSome start.depth (λ depth. depth ≤ DEPTH_LIMIT) }
    ensures file { IfOk result (λ opened. opened.file ≡ record { name = file.name; check = first_check (beginning_in start.entry) }) }
    ensures history { IfOk result (λ opened. history_of opened.session ≡ first_history (beginning_in start.entry)) }
    ensures records { IfOk result (λ opened. opened.records ≡ 0) }
    ensures torn { IfOk result (λ opened. opened.torn ≡ 0) }
    ensures fault { IfErr result IsOfSystem }
    ensures ok { OnOk result (FilesChange (D.seen disk.old) (D.seen disk.new)
        (HasIfThere file.name (whole_head (beginning_in start.entry)))) }
    ensures err { OnErr result (FilesChange (D.seen disk.old) (D.seen disk.new)
        (IsBegun file.name (whole_head (beginning_in start.entry)))) }
    ensures moments { FilesPass (D.seen disk.old) (D.seen disk.new) (IsBegun file.name (whole_head (beginning_in start.entry))) }
    ensures streams { (D.seen disk.new).streams ≡ (D.seen disk.old).streams }
{
    let mut file = file;
    let head = new_head(alloc, start)?;
    let input = Vec::from_slice(alloc, start.input)?;
    let session = begun_session(start.profile, input, start.lines, start.depth)?;
    match file.begin(disk, &head) {
        Ok(()) => Ok(Opened {
            session,
            file,
            records: 0,
            torn: 0,
        }),
        Err(error) => Err(no_file(error)),
    }
}

/// Whether a number is the one that is asked for, if one is.
fn is_one_asked(number: Option<usize>, asked: Option<usize>) -> bool
    ensures { result ≡ true → ForSome asked (λ asked. number ≡ Some asked) }
{
    asked.is_none() || number == asked
}

/// Whether a profile is the one that is asked for, if one is.
fn is_profile_asked(profile: Profile, asked: Option<Profile>) -> bool
    ensures { result ≡ true → ForSome asked (λ asked. profile ≡ asked) }
{
    match asked {
        Some(asked) => profile == asked,
        None => true,
    }
}

/// Whether a session that began so is what is asked for.
fn is_asked(start: Start<'_>, asked: Asked) -> bool
    ensures { result ≡ true → IsAsked asked (beginning_in start.entry) }
{
    is_profile_asked(start.profile, asked.profile)
        && is_one_asked(Some(start.lines), asked.lines)
        && is_one_asked(start.depth, asked.depth)
}

/// Why the file is not gone on with by what it says, if it isn't.
fn fault_in(saved: &SessionFile<'_>, asked: Asked) -> Option<OpenFault>
    ensures ending { result ≡ None → IsGood saved.now.journal.ending }
    ensures depth { result ≡ None → ForSome saved.now.start.depth (λ depth. depth ≤ DEPTH_LIMIT) }
    ensures asked { result ≡ None → IsAsked asked (beginning_in saved.now.start) }
    ensures fault { IfSome result IsOfFile }
{
    match saved.journal.ending {
        Ending::Whole | Ending::Torn => {}
        Ending::Changed | Ending::Unknown => {
            return Some(OpenFault::Changed(saved.journal.records.len() + 1));
        }
    }
    match saved.start.depth {
        Some(depth) if depth > DEPTH_LIMIT => return Some(OpenFault::Head),
        _ => {}
    }
    if is_asked(saved.start, asked) {
        None
    } else {
        Some(OpenFault::Settings)
    }
}

/// Goes on with a session that the file holds, over this input. So many bytes come behind its lines.
fn go_on<D: Disk, H: HearsReplay>(
    alloc: Global,
    saved: &SessionFile<'_>,
    torn: usize,
    input: &[u8],
    file: OpenFile<D>,
    disk: &mut D,
    hearer: &mut H,
) -> Result<Opened<D>, OpenFault>
    requires input { length saved.now.start.input.now ≤ FILE_LIMIT }
    requires depth { ForSome saved.now.start.depth (λ depth. depth ≤ DEPTH_LIMIT) }
    ensures file { IfOk result (λ opened. opened.file ≡ record { name = file.name; check = saved.now.journal.check }) }
    ensures history { IfOk result (λ opened. history_of opened.session
        ≡ after_events (first_history (beginning_in saved.now.start)) (events_of saved.now.journal.records.items)) }
    ensures records { IfOk result (λ opened. opened.records ≡ length (events_of saved.now.journal.records.items)) }
    ensures torn { IfOk result (λ opened. opened.torn ≡ torn) }
    ensures fault { IfErr result (λ fault. IsOfFile fault → ⊥) }
    ensures expected { OnOk result
        (IsExpected (beginning_in saved.now.start) (events_of saved.now.journal.records.items) input.now) }
    ensures ok { OnOk result (FilesChange (D.seen disk.old) (D.seen disk.new) (CutsTo file.name saved.now.journal.good)) }
    ensures err { OnErr result (FilesChange (D.seen disk.old) (D.seen disk.new) Same) }
    ensures moments { FilesPass (D.seen disk.old) (D.seen disk.new)
        (λ before now. Same before now ⊎ CutsTo file.name saved.now.journal.good before now) }
    ensures streams { (D.seen disk.new).streams ≡ (D.seen disk.old).streams }
    ensures heard { H.hears hearer.old hearer.new (steps_again (events_of saved.now.journal.records.items)) }
{
    let mut file = file;
    let records = saved.journal.records.as_slice();
    hearer.replays(steps_again(records));
    let session = session_again(alloc, saved.start, records, input)?;
    match file.go_on(disk, saved.journal.good, saved.journal.check) {
        Ok(()) => Ok(Opened {
            session,
            file,
            records: records.len(),
            torn,
        }),
        Err(error) => Err(no_file(error)),
    }
}

/// Opens the file of a session. Where there is none, or one that ends before a head does, it is begun so; else the session that it holds goes
/// on, if the input is the one that it was begun over or its last output. How many steps its strings took is heard before they are run again.
pub fn open_session<D: Disk, H: HearsReplay>(
    alloc: Global,
    name: &str,
    start: Start<'_>,
    asked: Asked,
    disk: &mut D,
    hearer: &mut H,
) -> Result<Opened<D>, OpenFault>
    requires input { length start.input.now ≤ FILE_LIMIT }
    requires depth { ForSome start.depth (λ depth. depth ≤ DEPTH_LIMIT) }
    ensures ok { let unheard = hearer.new ≡ hearer.old in
        IfOk result (λ opened. OpensHeard unheard (H.hears hearer.old hearer.new) (beginning_in start.entry) asked name.now
        (D.seen disk.old) (D.seen disk.new)
        (record {
          file = opened.file;
          history = history_of opened.session;
          records = opened.records;
          torn = opened.torn;
        })) }
    ensures err { OnErr result (StaysClosed (beginning_in start.entry) name.now (D.seen disk.old) (D.seen disk.new)) }
    ensures heard { let unheard = hearer.new ≡ hearer.old in
        IfErr result (λ fault. HeardBy fault unheard (HearsHeld (H.hears hearer.old hearer.new) name.now (D.seen disk.old))) }
{
    let file = match OpenFile::open(alloc, name, disk) {
        Ok(file) => file,
        Err(error) => return Err(no_file(error)),
    };
    let bytes = match read_whole(alloc, name, disk) {
        Ok(bytes) => bytes,
        Err(error) => return Err(no_file(error)),
    };
    let saved = match read_session(alloc, bytes.as_slice()) {
        Ok(saved) => saved,
        Err(SessionFault::Head(HeadFault::Torn)) => return begin(alloc, start, file, disk),
        Err(SessionFault::Head(HeadFault::Version)) => return Err(OpenFault::Version),
        Err(SessionFault::Head(HeadFault::Changed)) => return Err(OpenFault::Head),
        Err(SessionFault::Memory) => return Err(OpenFault::NoMemory),
    };
    if let Some(fault) = fault_in(&saved, asked) {
        return Err(fault);
    }
    let torn = bytes.len() - saved.journal.good;
    go_on(alloc, &saved, torn, start.input, file, disk, hearer)
}
