//! A session is run again, over an input that is the one that it began over or what it wrote last.
ghost use Rattle.std.specs.Prelude.{◌≡◌, ◌≤◌, ◌&&◌, IfErr, IfOk, None, OnOk, Some, length, not, true};
ghost use Rattle.std.specs.Option.{ForSome};
ghost use Rattle.teco_core.specs.declared.limits.TheConstants.{DEPTH_LIMIT, FILE_LIMIT};
ghost use Rattle.teco_journal.specs.Events.{event_of, events_of};
ghost use Rattle.teco_journal.specs.Heads.{beginning_in};
ghost use Rattle.teco_recorder.specs.Again.{IsOfFile};
ghost use Rattle.teco_recorder.specs.Opening.{IsExpected, first_history, is_run_event, last_output};
ghost use Rattle.teco_replay.specs.Told.{after_events};
ghost use Rattle.teco_session.specs.Kept.{history_of};

use crate::fault::OpenFault;
use std::alloc::Global;
use std::slice;
use teco_journal::{Record, Start};
use teco_replay::{Quiet, ReplayFault, begun_session, replay};
use teco_session::Session;
use teco_store::Desk;

/// Whether a record that made the session done, if it did, was an exit.
fn is_exit(told: &Record, was_done: bool, is_done: bool) -> bool
    ensures { result ≡ (is_run_event (event_of told.now) && (not was_done && is_done)) }
{
    matches!(told, Record::Run { .. }) && !was_done && is_done
}

/// Does some records again, and tells whether these bytes are the output of the last exit among them.
fn is_last_again(
    session: &mut Session,
    records: &[Record],
    bytes: &[u8],
) -> Result<bool, ReplayFault>
    ensures told { OnOk result (history_of session.new ≡ after_events (history_of session.old) (events_of records.now)) }
    ensures last { IfOk result (λ is. is ≡ true
        → last_output (history_of session.old) (events_of records.now) None ≡ Some bytes.now) }
{
    let mut is_last = false;
    for told in records {
        let was_done = session.editor().done();
        if let Err(fault) = replay(session, slice::from_ref(told), &mut Quiet) {
            return Err(fault);
        }
        if is_exit(told, was_done, session.editor().done()) {
            is_last = session.editor().output().are(bytes);
        }
    }
    Ok(is_last)
}

/// The session that began so, after some records, if an input is the one that it began over or what it wrote last.
pub fn session_again(
    alloc: Global,
    start: Start<'_>,
    records: &[Record],
    input: &[u8],
) -> Result<Session, OpenFault>
    requires input { length start.input.now ≤ FILE_LIMIT }
    requires depth { ForSome start.depth (λ depth. depth ≤ DEPTH_LIMIT) }
    ensures history { IfOk result (λ session. history_of session
        ≡ after_events (first_history (beginning_in start.entry)) (events_of records.now)) }
    ensures expected { OnOk result (IsExpected (beginning_in start.entry) (events_of records.now) input.now) }
    ensures fault { IfErr result (λ fault. IsOfFile fault → ⊥) }
{
    let first = Vec::from_slice(alloc, start.input)?;
    let mut session = begun_session(start.profile, first, start.lines, start.depth)?;
    let is_last = is_last_again(&mut session, records, input)?;
    if is_last || input == start.input {
        Ok(session)
    } else {
        Err(OpenFault::Input)
    }
}
