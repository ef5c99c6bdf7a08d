//! The run of a command string.
ghost use Rattle.std.specs.Prelude.{Bool, None, ℕ};
ghost use Rattle.teco_exec.specs.Options.{stop_left};
ghost use Rattle.teco_exec.specs.Runs.{RunsWithin, StillSays};
ghost use Rattle.teco_exec.specs.RunsOn.{RunsOn};
ghost use Rattle.teco_exec.specs.Telling.{KnowsLast};
ghost use Rattle.teco_exec.specs.Places.{wanted_in};

use crate::called::Spare;
use crate::flow::Steps;
use crate::laws::{machine_laws, meaning_laws};
use crate::options::{Options, Ran};
use crate::outcome::Outcome;
use crate::stop::{Never, Stop};
use crate::texts::{EMPTY_ROOM, ROOMS, Running, run_in};
use crate::watch::{Unwatched, Watch};
use teco_core::Args;
use teco_io::Terminal;
use teco_scan::Text;
use teco_store::Desk;

/// Runs a command string on a desk and a terminal, for at most `limit` steps.
///
/// It ends as the recursive meaning of the string says, with its state, its typed bytes, its code and its steps; or by [`Code::Mem`]
/// or [`Code::Tty`] after some whole steps, with the state and the typed bytes of just these. By [`Code::Tty`] it ends only where a
/// put failed, and then the terminal may show a beginning of what the next step types. A step that is reached when `limit` steps are
/// taken isn't begun, and the string ends by [`Code::Lim`]. After each step that counts, a failing one too, the desk is told so.
/// It takes memory for the copy of a text that is called and is not short, and its other steps may take some: a string of values and arithmetic alone never ends by [`Code::Mem`].
pub fn run<D: Desk, T: Terminal>(desk: &mut D, text: &[u8], limit: u64, term: &mut T) -> Outcome
    ensures { RunsOn D.Desk T.Terminal (desk.old, term.old) (desk.new, term.new) text.now result limit }
{
    let options = Options {
        limit,
        stop: &mut Never,
    };
    run_with(desk, text, term, options, Unwatched).outcome
}

/// Runs a command string as [`run`] does, by these options. Before each step that counts, and before one that would be past the limit,
/// it asks whether it is to stop. After a step that lacked memory it asks too, since a search may have been given up. Asked so, it ends as
/// under a limit of just the steps that are done.
///
/// The watch is told where the run last stood. Where it stops before a step, for want of steps or memory or because the terminal
/// failed, that is the token whose step comes. Where it stops at a fault of a text, which uses no step, it is the fault. Where a step
/// failed, it is the token of that step: the run stood there one step before. So a place is told exactly where the string ends by a
/// code. [`crate::Watched`] takes memory for it, for at most 33 texts with at most 64 iterations each.
pub fn run_with<D: Desk, S: Stop, T: Terminal, W: Watch>(
    desk: &mut D,
    text: &[u8],
    term: &mut T,
    options: Options<'_, S>,
    watch: W,
) -> Ran<W>
    ensures run { RunsWithin (S.answered (stop_left options.exit)) options.entry.limit result.outcome
        (RunsOn D.Desk T.Terminal (desk.old, term.old) (desk.new, term.new) text.now result.outcome) }
    ensures still { StillSays (S.answered options.entry.stop.now) (S.answered (stop_left options.exit)) }
    ensures told { W.knows watch None
        → KnowsLast (W.knows result.watch) (D.state desk.old) text.now result.outcome }
    ensures visits { (wanted : ℕ → ℕ → Bool) (from : ℕ)
        → W.follows watch (wanted_in (D.state desk.old) text.now wanted from) 0
        → W.follows result.watch (wanted_in (D.state desk.old) text.now wanted from) result.outcome.steps }
{
    let Options { limit, stop } = options;
    run_watched(desk, text, limit, stop, term, watch)
}

/// Runs a command string as [`run_with`] does.
fn run_watched<D: Desk, S: Stop, T: Terminal, W: Watch>(
    desk: &mut D,
    text: &[u8],
    limit: u64,
    stop: &mut S,
    term: &mut T,
    watch: W,
) -> Ran<W>
    ensures run { RunsWithin (S.answered stop.new) limit result.outcome
        (RunsOn D.Desk T.Terminal (desk.old, term.old) (desk.new, term.new) text.now result.outcome) }
    ensures still { StillSays (S.answered stop.old) (S.answered stop.new) }
    ensures told { W.knows watch None
        → KnowsLast (W.knows result.watch) (D.state desk.old) text.now result.outcome }
    ensures visits { (wanted : ℕ → ℕ → Bool) (from : ℕ)
        → W.follows watch (wanted_in (D.state desk.old) text.now wanted from) 0
        → W.follows result.watch (wanted_in (D.state desk.old) text.now wanted from) result.outcome.steps }
{
    machine_laws();
    meaning_laws();
    let mut args = Args::new();
    let mut rooms = [EMPTY_ROOM; ROOMS];
    let mut running = Running {
        steps: Steps { done: 0, limit },
        depth: 0,
        spare: Spare::new(),
        watch,
    };
    let text = Text {
        profile: desk.profile(),
        bytes: text,
    };
    let exit = run_in(desk, text, &mut args, &mut rooms, &mut running, stop, term);
    let Running { steps, watch, .. } = running;
    let outcome = Outcome {
        code: exit.code(),
        steps: steps.done,
    };
    Ran { outcome, watch }
}
