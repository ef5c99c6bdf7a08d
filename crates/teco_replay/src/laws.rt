//! What the records of a session tell.
ghost use Rattle.teco_replay.specs.Laws.{JournalsHappen, JournalsTell};

use teco_exec::meaning_laws;

/// The laws of a replay, as its clauses. The events of a session tell its history, and all of them can happen again. The call does nothing.
pub fn replay_laws()
    ensures tell { JournalsTell }
    ensures happen { JournalsHappen }
{
    meaning_laws();
}
