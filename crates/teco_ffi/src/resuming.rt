//! A session again, from the bytes of its file.
ghost use Rattle.std.specs.Prelude.{◌≡◌, ◌≢◌, ◌≤◌, IfErr, IfOk, IfSome, None, OnErr, length};
ghost use Rattle.std.specs.Option.{ForSome};
ghost use Rattle.teco_core.specs.declared.limits.TheConstants.{DEPTH_LIMIT, FILE_LIMIT};
ghost use Rattle.teco_journal.specs.Events.{events_of};
ghost use Rattle.teco_journal.specs.Heads.{beginning_in};
ghost use Rattle.teco_session.specs.Kept.{history_of};
ghost use Rattle.teco_ffi.specs.Resuming.{IsResumed, ending_number, told_history};

use crate::answers::{CHANGED_HEAD, DEEP, LARGE, OTHERWISE, TORN_HEAD};
use std::alloc::Global;
use teco_core::{Code, DEPTH_LIMIT, FILE_LIMIT};
use teco_journal::{
    CHECK_LENGTH, Ending, HeadFault, SessionFault, SessionFile, Start, read_session,
};
use teco_replay::{Quiet, ReplayFault, resume};
use teco_session::Session;

/// What is told of a session that was resumed.
#[repr(C)]
pub struct Resumed {
    /// The check of the last line that was read, behind which the next one is put.
    pub check: [u8; CHECK_LENGTH],
    /// How many bytes the lines have that were read. What is after them has to be cut off before the next line.
    pub good: usize,
    /// How many records were done again.
    pub records: usize,
    /// How many line ends end a page of its input; 0 is any number.
    pub lines: usize,
    /// Why the reading ended there: the end, a torn line, a changed line, or one of no record.
    pub ending: u8,
}

/// The reading ended at the end of the bytes.
pub const WHOLE: u8 = 0;

/// It ended before a line that has no end, as after a crash.
pub const TORN: u8 = 1;

/// It ended before a line that was changed, lost or doubled.
pub const CHANGED: u8 = 2;

/// It ended before a line of no record.
pub const UNKNOWN: u8 = 3;

fn number_of_ending(ending: Ending) -> u8
    ensures { result ≡ ending_number ending }
{
    match ending {
        Ending::Whole => WHOLE,
        Ending::Torn => TORN,
        Ending::Changed => CHANGED,
        Ending::Unknown => UNKNOWN,
    }
}

/// The number that tells why bytes are no file of a session.
fn number_of_fault(fault: SessionFault) -> u8
    ensures { result ≢ 0 }
{
    match fault {
        SessionFault::Head(HeadFault::Torn) => TORN_HEAD,
        SessionFault::Head(_) => CHANGED_HEAD,
        SessionFault::Memory => Code::Mem.number(),
    }
}

/// The number that tells why a session was not resumed.
fn number_of_replay(fault: ReplayFault) -> u8
    ensures { result ≢ 0 }
{
    match fault {
        ReplayFault::Wrong => OTHERWISE,
        _ => Code::Mem.number(),
    }
}

/// A session again, from a file that was read.
fn session_of(alloc: Global, file: &SessionFile<'_>) -> Result<Box<Session>, u8>
    requires input { length file.now.start.input.now ≤ FILE_LIMIT }
    requires depth { ForSome file.now.start.depth (λ depth. depth ≤ DEPTH_LIMIT) }
    ensures history { IfOk result (λ session. history_of session.value
        ≡ told_history (beginning_in file.now.start) (events_of file.now.journal.records.items)) }
    ensures fault { IfErr result (λ number. number ≢ 0) }
{
    let start = file.start;
    let Ok(input) = Vec::from_slice(alloc, start.input) else {
        return Err(Code::Mem.number());
    };
    let records = file.journal.records.as_slice();
    match resume(
        start.profile,
        input,
        start.lines,
        start.depth,
        records,
        &mut Quiet,
    ) {
        Err(fault) => Err(number_of_replay(fault)),
        Ok(session) => match Box::new(alloc, session) {
            Ok(session) => Ok(session),
            Err(_) => Err(Code::Mem.number()),
        },
    }
}

/// Why a session that begins so can't be, if it can't: its input or its depth is above the limit.
fn fault_in(start: Start<'_>) -> Option<u8>
    ensures input { result ≡ None → length start.entry.input.now ≤ FILE_LIMIT }
    ensures depth { result ≡ None → ForSome start.entry.depth (λ depth. depth ≤ DEPTH_LIMIT) }
    ensures some { IfSome result (λ number. number ≢ 0) }
{
    if start.input.len() > FILE_LIMIT {
        return Some(LARGE);
    }
    match start.depth {
        Some(depth) if depth > DEPTH_LIMIT => Some(DEEP),
        _ => None,
    }
}

/// A session again, from the bytes of its file, as `teco_resume` of the library for C makes it; or the number that tells why not.
pub fn session_in(alloc: Global, bytes: &[u8], told: &mut Resumed) -> Result<Box<Session>, u8>
    ensures ok { IfOk result (λ session. IsResumed bytes.now told.new (history_of session.value)) }
    ensures fault { IfErr result (λ number. number ≢ 0) }
    ensures still { OnErr result (told.new ≡ told.old) }
{
    let file = match read_session(alloc, bytes) {
        Ok(file) => file,
        Err(fault) => return Err(number_of_fault(fault)),
    };
    if let Some(number) = fault_in(file.start) {
        return Err(number);
    }
    let session = session_of(alloc, &file)?;
    let check = file.journal.check;
    told.check = check;
    told.good = file.journal.good;
    told.records = file.journal.records.len();
    told.lines = file.start.lines;
    told.ending = number_of_ending(file.journal.ending);
    Ok(session)
}
