//! A session again, from its first state and its records.
ghost use Rattle.std.specs.Prelude.{◌≡◌, ℕ, List, ◌≤◌, vec_len, IfOk, IsErrOf, OnOk, Some};
ghost use Rattle.std.specs.Option.{ForSome};
ghost use Rattle.teco_session.specs.History.{History};
ghost use Rattle.teco_session.specs.Kept.{history_of};
ghost use Rattle.teco_journal.specs.Events.{event_of, events_of, ran};
ghost use Rattle.teco_replay.specs.Begun.{begun_history};
ghost use Rattle.teco_replay.specs.Told.{AllHappen, Deed, Happens, Lived, after_event, after_events, journal_of};
ghost use Rattle.teco_replay.specs.Verdict.{fault_of};

use crate::beginning::begun_session;
use crate::laws::replay_laws;
use teco_core::{Code, DEPTH_LIMIT, FILE_LIMIT, Profile};
use teco_exec::meaning_laws;
use teco_io::Terminal;
use teco_journal::Record;
use teco_session::{Answer, Session};

/// Why records were not done again.
#[derive(Clone, Copy, Debug, PartialEq, Eq)]
pub enum ReplayFault {
    /// Memory was refused.
    Memory,
    /// The terminal failed.
    Terminal,
    /// A record tells what cannot have happened there.
    Wrong,
}

/// Why a string that was run again did not do what its record tells, if it did not.
fn fault_of(answer: Answer, steps: u64) -> Option<ReplayFault>
    ensures { result ≡ fault_of steps answer }
{
    match answer {
        Answer::Ended(outcome) => match outcome.code {
            Some(Code::Mem) => Some(ReplayFault::Memory),
            Some(Code::Tty) => Some(ReplayFault::Terminal),
            _ if outcome.steps == steps => None,
            _ => Some(ReplayFault::Wrong),
        },
        Answer::NotBegun => Some(ReplayFault::Memory),
        _ => Some(ReplayFault::Wrong),
    }
}

/// Runs a string again, under a limit of just the steps that it took.
fn run_again<T: Terminal>(
    session: &mut Session,
    steps: u64,
    text: &[u8],
    term: &mut T,
) -> Result<(), ReplayFault>
    ensures told { OnOk result (history_of session.new ≡ after_event (history_of session.old) (ran steps text.now)) }
    ensures possible { Happens (history_of session.old) (ran steps text.now)
        → IsErrOf result ReplayFault.Wrong → ⊥ }
{
    meaning_laws();
    let answer = session.run(text, steps, term);
    match fault_of(answer, steps) {
        None => Ok(()),
        Some(fault) => Err(fault),
    }
}

/// Does again what one record tells.
fn do_again<T: Terminal>(
    session: &mut Session,
    told: &Record,
    term: &mut T,
) -> Result<(), ReplayFault>
    ensures told { OnOk result (history_of session.new ≡ after_event (history_of session.old) (event_of told.now)) }
    ensures possible { Happens (history_of session.old) (event_of told.now)
        → IsErrOf result ReplayFault.Wrong → ⊥ }
{
    match told {
        Record::Run { steps, text } => run_again(session, *steps, text.as_slice(), term),
        Record::Undo => match session.undo() {
            Ok(()) => Ok(()),
            Err(_) => Err(ReplayFault::Wrong),
        },
        Record::Redo => match session.redo() {
            Ok(()) => Ok(()),
            Err(_) => Err(ReplayFault::Wrong),
        },
        Record::Rewind(steps) => match session.rewind(*steps) {
            Ok(()) => Ok(()),
            Err(_) => Err(ReplayFault::Wrong),
        },
        Record::Forget => {
            session.forget();
            Ok(())
        }
    }
}

/// Does again what some records tell, one after another. What the strings type goes to this terminal. After a fault the session has the
/// records before it, and what the string that failed did.
pub fn replay<T: Terminal>(
    session: &mut Session,
    records: &[Record],
    term: &mut T,
) -> Result<(), ReplayFault>
    ensures told { OnOk result (history_of session.new ≡ after_events (history_of session.old) (events_of records.now)) }
    // Records of what can happen fail for want of memory or by the terminal, and for nothing else.
    ensures possible { AllHappen (history_of session.old) (events_of records.now)
        → IsErrOf result ReplayFault.Wrong → ⊥ }
{
    for told in records {
        if let Err(fault) = do_again(session, told, term) {
            return Err(fault);
        }
    }
    Ok(())
}

/// A session again: in this profile, over this input, with pages of so many lines and this depth, after all that its records tell.
///
/// The strings are run again, each under a limit of just the steps that it took. So each ends where it ended, however it ended then.
pub fn resume<T: Terminal>(
    profile: Profile,
    input: Vec<u8>,
    lines: usize,
    depth: Option<usize>,
    records: &[Record],
    term: &mut T,
) -> Result<Session, ReplayFault>
    requires input { vec_len input ≤ FILE_LIMIT }
    requires depth { ForSome depth (λ depth. depth ≤ DEPTH_LIMIT) }
    // It has the history that the records tell.
    ensures told { IfOk result (λ session. history_of session
        ≡ after_events (begun_history profile lines depth input.items) (events_of records.now)) }
    // The records of what was done to a session give that session's history: its first state, its strings with their steps and states,
    // its cursor and its depth.
    ensures again { (deeds : List Deed) (lived : History)
        → Lived (begun_history profile lines depth input.items) deeds lived → events_of records.now ≡ journal_of deeds
        → IfOk result (λ session. history_of session ≡ lived) }
    // They are refused for want of memory or because the terminal failed, and for nothing else.
    ensures only { (deeds : List Deed) (lived : History)
        → Lived (begun_history profile lines depth input.items) deeds lived → events_of records.now ≡ journal_of deeds
        → IsErrOf result ReplayFault.Wrong → ⊥ }
{
    replay_laws();
    let Ok(mut session) = begun_session(profile, input, lines, depth) else {
        return Err(ReplayFault::Memory);
    };
    match replay(&mut session, records, term) {
        Ok(()) => Ok(session),
        Err(fault) => Err(fault),
    }
}
