//! The run of a command string whose changes are kept.
ghost use Rattle.std.specs.Prelude.{◌≡◌, ℕ, Bool, List, length, None, true, false};
ghost use Rattle.teco_store.specs.State.{IsSound, state_of};
ghost use Rattle.teco_undo.specs.Follows.{LeadsBack};
ghost use Rattle.teco_exec.specs.Options.{stop_left};
ghost use Rattle.teco_exec.specs.Places.{wanted_in};
ghost use Rattle.teco_exec.specs.Runs.{Runs, RunsWithin, StillSays, is_tty};
ghost use Rattle.teco_exec.specs.StringMeaning.{string_meaning};
ghost use Rattle.teco_exec.specs.Telling.{KnowsLast};
ghost use Rattle.teco_io.specs.Terminal.{Shows};
ghost use Rattle.teco_session.specs.Kept.{HasRun};

use teco_exec::{Options, Ran, Stop, Watch, meaning_laws, run_with};
use teco_io::Terminal;
use teco_undo::{ChangeList, Recorder, record_laws};

/// Runs a string as `run_with` of teco_exec does, and gives the changes that lead back.
pub(crate) fn record_run<S: Stop, T: Terminal, W: Watch>(
    recorder: &mut Recorder,
    text: &[u8],
    term: &mut T,
    options: Options<'_, S>,
    watch: W,
) -> (ChangeList, Ran<W>)
    requires { IsSound recorder.old.full.room (length recorder.old.full.stored) recorder.old.full.body }
    ensures run { RunsWithin (S.answered (stop_left options.exit)) options.entry.limit result.1.outcome
        (λ l. (typed : List ℕ)
        × Runs (state_of recorder.old.full) text.now l result.1.outcome typed (state_of recorder.new.full)
        × Shows (T.screen term.old) (T.screen term.new) typed (is_tty result.1.outcome)) }
    ensures still { StillSays (S.answered options.entry.stop.now) (S.answered (stop_left options.exit)) }
    ensures again { state_of recorder.new.full
        ≡ (string_meaning (state_of recorder.old.full) text.now result.1.outcome.steps).state }
    ensures exit { (state_of recorder.old.full).is_done ≡ false → (state_of recorder.new.full).is_done ≡ true
        → result.1.outcome.code ≡ None }
    ensures leads { LeadsBack recorder.old.full recorder.new.full result.0.items }
    ensures ran { HasRun recorder.new.full (record {
      text = text.now;
      steps = result.1.outcome.steps;
      changes = result.0.items;
    }) }
    ensures told { W.knows watch None
        → KnowsLast (W.knows result.1.watch) (state_of recorder.old.full) text.now result.1.outcome }
    ensures visits { (wanted : ℕ → ℕ → Bool) (from : ℕ)
        → W.follows watch (wanted_in (state_of recorder.old.full) text.now wanted from) 0
        → W.follows result.1.watch (wanted_in (state_of recorder.old.full) text.now wanted from) result.1.outcome.steps }
{
    meaning_laws();
    record_laws();
    recorder.begin();
    let ran = run_with(recorder, text, term, options, watch);
    let changes = recorder.take();
    (changes, ran)
}
