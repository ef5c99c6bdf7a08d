//! The records that a session needs: what later records drop is left out.
ghost use Rattle.std.specs.Prelude.{◌<◌, ◌≡◌, IfOk, length, map};
ghost use Rattle.teco_session.specs.History.{note_at};
ghost use Rattle.teco_session.specs.Kept.{history_of};
ghost use Rattle.teco_journal.specs.Events.{HasRecord, HaveRecords, event_of, events_of};
ghost use Rattle.teco_replay.specs.Pruning.{AllEventsHappen, AllEventsLead, FirstStays, KeptEventsAreFewest, KeptEventsHappen, KeptEventsTell, kept_events, run_event};

use std::alloc::Global;
use teco_core::NoMemory;
use teco_exec::meaning_laws;
use teco_journal::Record;
use teco_session::Session;

/// The laws of pruning, as its clauses. The events that a history needs tell it again from the state before its strings, and can happen
/// there; no fewer lead to it. That is the first state of all where the depth has let no string go. Under any depth, what the history
/// with every string needs leads there from the first state. The call does nothing.
pub fn pruning_laws()
    ensures tell { KeptEventsTell }
    ensures happen { KeptEventsHappen }
    ensures fewest { KeptEventsAreFewest }
    ensures stays { FirstStays }
    ensures lead { AllEventsLead }
    ensures leading { AllEventsHappen }
{
    meaning_laws();
}

/// The record of the run of a string.
fn run_record(alloc: Global, session: &Session, i: usize) -> Result<Record, NoMemory>
    requires { i < length session.now.strings }
    ensures told { IfOk result (λ told. event_of told ≡ run_event (note_at (history_of session.now) i)) }
    ensures fits { IfOk result (λ told. HasRecord (event_of told)) }
{
    let text = Vec::from_slice(alloc, session.string(i))?;
    Ok(Record::Run {
        steps: session.steps(i),
        text,
    })
}

/// The records of the runs of all strings.
fn run_records(alloc: Global, session: &Session) -> Result<Vec<Record>, NoMemory>
    ensures told { IfOk result (λ records. events_of records.items ≡ map run_event (history_of session.now).notes) }
    ensures fit { IfOk result (λ records. HaveRecords (events_of records.items)) }
{
    let mut records = Vec::new(alloc);
    for i in 0..session.strings() {
        records.push(run_record(alloc, session, i)?)?;
    }
    Ok(records)
}

/// The records that a session needs, for a file that is written anew: the runs of its strings, and then an undo for each that is undone.
///
/// They tell the session's history from the state before the oldest string that it keeps, as [`pruning_laws`] says. Where the depth has
/// let strings go, a session without a depth over the same input, after the same records, has those that lead there.
pub fn records_of(alloc: Global, session: &Session) -> Result<Vec<Record>, NoMemory>
    ensures told { IfOk result (λ records. events_of records.items ≡ kept_events (history_of session.now)) }
    // Each of them has a line that is read as itself.
    ensures fit { IfOk result (λ records. HaveRecords (events_of records.items)) }
{
    let mut records = run_records(alloc, session)?;
    let undone = session.strings() - session.cursor();
    for _ in 0..undone {
        records.push(Record::Undo)?;
    }
    Ok(records)
}
