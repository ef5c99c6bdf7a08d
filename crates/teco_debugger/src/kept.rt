//! One string of the session that a file keeps.
ghost use Rattle.std.specs.Prelude.{◌≡◌, ◌≤◌, ◌<◌, ◌-◌, ℕ, IfErr, IfOk, List, Option, length, vec_len};
ghost use Rattle.teco_core.specs.declared.limits.TheConstants.{FILE_LIMIT};
ghost use Rattle.teco_fs.specs.Seen.{KeepsDisk, disk_seen};
ghost use Rattle.teco_journal.specs.Events.{events_of};
ghost use Rattle.teco_journal.specs.Files.{FileFails};
ghost use Rattle.teco_journal.specs.Heads.{beginning_in};
ghost use Rattle.teco_replay.specs.Begun.{begun_state};
ghost use Rattle.teco_session.specs.Kept.{history_of};
ghost use Rattle.teco_debugger.specs.Kept.{HasRecords, HasString, IsOfSession, IsPlace, IsWalkAt, LacksPlace, LacksRun, LacksSession, LacksWalk, begun_by, cursor_at, is_good, whole_history};

use crate::ending::Ending;
use crate::reading::read_file;
use crate::{Opening, Walk};
use std::alloc::Global;
use teco_core::NoMemory;
use teco_fs::Disk;
use teco_journal::{
    Ending as JournalEnding, HeadFault, SessionFault, SessionFile, Start, read_session,
};
use teco_replay::{Quiet, ReplayFault, replay};
use teco_session::Session;

/// Why there is no such string.
#[derive(Clone, Copy)]
pub enum StringFault {
    /// The file is that of no session, or of another version.
    Version,
    /// Its head is not as it was written.
    Head,
    /// This line after its head, counted from 1, is not as it was written.
    Changed(usize),
    /// A string does not run again as it ran.
    Replay,
    /// It tells no string.
    NoStrings,
    /// It tells so many strings, and none of the number.
    NoString(usize),
}

/// A walk over a string of a session, and how many bytes of a line that has no end come behind the lines of its file.
#[derive(Drop)]
pub struct KeptString {
    pub walk: Walk,
    pub torn: usize,
}

/// Why a file is not read as that of a session.
fn fault_of(fault: SessionFault) -> Ending
    ensures { (bytes : List ℕ) (number : Option ℕ) → FileFails bytes fault → LacksWalk bytes number result }
{
    match fault {
        SessionFault::Head(HeadFault::Version) => Ending::NoString(StringFault::Version),
        SessionFault::Head(HeadFault::Changed) => Ending::NoString(StringFault::Head),
        SessionFault::Head(HeadFault::Torn) => Ending::NoString(StringFault::NoStrings),
        SessionFault::Memory => Ending::NoMemory,
    }
}

/// Whether nothing comes behind the lines of a file but one that has no end.
fn is_good(ending: JournalEnding) -> bool
    ensures { result ≡ is_good ending }
{
    match ending {
        JournalEnding::Whole | JournalEnding::Torn => true,
        JournalEnding::Changed | JournalEnding::Unknown => false,
    }
}

/// What the file of a session holds.
fn file_in(alloc: Global, bytes: &[u8]) -> Result<SessionFile<'_>, Ending>
    ensures lines { IfOk result (λ file. HasRecords (beginning_in file.start) (events_of file.journal.records.items)
        (length bytes.now - file.journal.good) bytes.now) }
    ensures lacks { (number : Option ℕ) → IfErr result (LacksWalk bytes.now number) }
{
    let file = match read_session(alloc, bytes) {
        Ok(file) => file,
        Err(fault) => return Err(fault_of(fault)),
    };
    if !is_good(file.journal.ending) {
        let number = file.journal.records.len() + 1;
        return Err(Ending::NoString(StringFault::Changed(number)));
    }
    Ok(file)
}

/// What a session's file says that it begins with.
fn opening_in(alloc: Global, start: &Start<'_>) -> Result<Opening, NoMemory>
    requires { length start.now.input.now ≤ FILE_LIMIT }
    ensures first { IfOk result (λ opening. begun_state opening.profile opening.lines opening.input.items ≡ begun_by (beginning_in start.now)) }
    ensures small { IfOk result (λ opening. vec_len opening.input ≤ FILE_LIMIT) }
{
    Ok(Opening {
        profile: start.profile,
        lines: start.lines,
        input: Vec::from_slice(alloc, start.input)?,
    })
}

/// The session that the file holds, without the bound of its depth.
fn session_in(alloc: Global, file: &SessionFile<'_>) -> Result<Session, Ending>
    requires { length file.now.start.input.now ≤ FILE_LIMIT }
    ensures history { IfOk result (λ session. history_of session
        ≡ whole_history (beginning_in file.now.start) (events_of file.now.journal.records.items)) }
    ensures lacks { IfErr result (LacksRun (beginning_in file.now.start) (events_of file.now.journal.records.items)) }
{
    let mut session = opening_in(alloc, &file.start)?.session()?;
    match replay(&mut session, file.journal.records.as_slice(), &mut Quiet) {
        Ok(()) => Ok(session),
        Err(ReplayFault::Wrong) => Err(Ending::NoString(StringFault::Replay)),
        Err(ReplayFault::Memory | ReplayFault::Terminal) => Err(Ending::NoMemory),
    }
}

/// The place of the string of this number, from 1 on; without one that of the last that is not undone, or of the first if all are.
fn place_of(session: &Session, number: Option<u64>) -> Result<usize, StringFault>
    ensures place { IfOk result (IsPlace number (history_of session.now)) }
    ensures lacks { IfErr result (LacksPlace number (history_of session.now)) }
{
    let strings = session.strings();
    if strings == 0 {
        return Err(StringFault::NoStrings);
    }
    match number {
        None => Ok(session.cursor().saturating_sub(1)),
        Some(number) if number >= 1 && number <= strings as u64 => Ok(number as usize - 1),
        Some(_) => Err(StringFault::NoString(strings)),
    }
}

/// Undoes strings until no more than `i` are done.
fn back_to(session: &mut Session, i: usize)
    ensures { (k : ℕ) × (k ≤ i) × (history_of session.new ≡ cursor_at (history_of session.old) k) }
{
    let mut done = session.cursor();
    while done > i {
        done -= 1;
        let _ = session.undo();
    }
}

/// Does undone strings again until `i` are done.
fn on_to(session: &mut Session, i: usize)
    requires within { i ≤ length (history_of session.old).notes }
    requires before { (history_of session.old).cursor ≤ i }
    ensures { history_of session.new ≡ cursor_at (history_of session.old) i }
{
    let mut done = session.cursor();
    while done < i {
        done += 1;
        let _ = session.redo();
    }
}

/// A walk at the beginning of the string at this place of a session.
fn walk_at(
    alloc: Global,
    file: &SessionFile<'_>,
    mut session: Session,
    i: usize,
) -> Result<Walk, NoMemory>
    requires small { length file.now.start.input.now ≤ FILE_LIMIT }
    requires history { history_of session ≡ whole_history (beginning_in file.now.start) (events_of file.now.journal.records.items) }
    requires within { i < length (history_of session).notes }
    ensures { IfOk result (IsWalkAt (history_of session) i) }
{
    // This shows that the history has as many strings as the session.
    let _strings = session.strings();
    let opening = opening_in(alloc, &file.start)?;
    let text = Vec::from_slice(alloc, session.string(i))?;
    back_to(&mut session, i);
    on_to(&mut session, i);
    Walk::over(opening, text, session)
}

/// A walk over the string of this number in the session that some bytes keep.
fn walk_in(alloc: Global, bytes: &[u8], number: Option<u64>) -> Result<KeptString, Ending>
    requires { length bytes.now ≤ FILE_LIMIT }
    ensures walk { IfOk result (λ kept. HasString bytes.now number kept.walk kept.torn) }
    ensures lacks { IfErr result (LacksWalk bytes.now number) }
{
    let file = file_in(alloc, bytes)?;
    let session = session_in(alloc, &file)?;
    let i = match place_of(&session, number) {
        Ok(i) => i,
        Err(fault) => return Err(Ending::NoString(fault)),
    };
    Ok(KeptString {
        walk: walk_at(alloc, &file, session, i)?,
        torn: bytes.len().saturating_sub(file.journal.good),
    })
}

/// A walk over the string of this number in the session that the file of this name keeps. The file is only read.
pub fn kept_string<D: Disk>(
    alloc: Global,
    name: &str,
    number: Option<u64>,
    disk: &mut D,
) -> Result<KeptString, Ending>
    ensures walk { IfOk result (λ kept. IsOfSession (D.seen disk.old).files name.now number kept.walk kept.torn) }
    ensures lacks { let seen = disk_seen D.Disk D.Input.Source in
        IfErr result (LacksSession (D.seen disk.old).files (seen disk.new) name.now number) }
    ensures keeps { let seen = disk_seen D.Disk D.Input.Source in
        KeepsDisk (seen disk.old) (seen disk.new) }
{
    match read_file(alloc, name, disk) {
        Ok(bytes) => walk_in(alloc, bytes.as_slice(), number),
        Err(fault) => Err(Ending::NoText(0, fault)),
    }
}
