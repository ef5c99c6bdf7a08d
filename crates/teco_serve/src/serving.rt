//! Serving a stream of commands.
ghost use Rattle.std.specs.Prelude.{List};
ghost use Rattle.teco_session.specs.Kept.{history_of};
ghost use Rattle.teco_serve.specs.Exchange.{Exchange, HasRung, allowance};
ghost use Rattle.teco_serve.specs.Hearing.{HearsAllDone};
ghost use Rattle.teco_serve.specs.Held.{CutsOff, Emptied, HeldEnds};
ghost use Rattle.teco_serve.specs.Serving.{Exchanges, Serves};
ghost use Rattle.teco_io.specs.Source.{Gives, HasEnded};
ghost use Rattle.teco_io.specs.Terminal.{Shows};

use crate::alarm::{Alarm, Settings};
use crate::exchange::{do_exchange, show_prompt};
use crate::listener::Listens;
use crate::served::Served;
use crate::splitter::Splitter;
use std::alloc::Global;
use teco_io::{Source, Terminal, TerminalFault};
use teco_session::Session;

/// The most bytes of a piece.
const PIECE: usize = 4096;

/// Does what each held text asks, unless that ends the serving; says how the serving ends, if it does. The held bytes are the last of as
/// many as were fed.
fn serve_held<A: Alarm, T: Terminal, L: Listens>(
    splitter: &mut Splitter,
    fed: u64,
    session: &mut Session,
    settings: Settings,
    alarm: &mut A,
    term: &mut T,
    listener: &mut L,
) -> Option<Served>
    ensures does { (exchanges : List Exchange)
        × Exchanges (allowance settings.bounds (HasRung A.answered)) (history_of session.old) exchanges (history_of session.new)
        × CutsOff splitter.old exchanges splitter.new
        × Emptied result splitter.new
        × HeldEnds (Shows (T.screen term.old) (T.screen term.new)) settings.manner exchanges result }
    ensures heard { HearsAllDone L.hears listener.old listener.new (history_of session.old) (history_of session.new) }
{
    'held: loop {
        let begins = fed.saturating_sub(splitter.held().len() as u64);
        let Ok(next) = splitter.next() else {
            return Some(Served::NoMemory);
        };
        let Some(asked) = next else {
            return None;
        };
        let ended = do_exchange(&asked, begins, session, settings, alarm, term, listener);
        if let Some(served) = ended {
            return Some(served);
        }
    }
}

/// Reads pieces of the stream, cuts them into texts, and does what each asks before it reads again. Each command string may run as far
/// as the settings say, and the alarm is set for each anew. The listener hears what is done for each text. Before an answer is shown, it hears
/// of what the request did to the session.
///
/// However the source cuts its bytes, what is done is a beginning of what they ask, and all of it at the end of the stream and where
/// a read fails. It ends where a run makes the session done, and at the first put that fails; nothing is done after that.
pub fn serve<S: Source, A: Alarm, T: Terminal, L: Listens>(
    alloc: Global,
    source: &mut S,
    session: &mut Session,
    settings: Settings,
    alarm: &mut A,
    term: &mut T,
    listener: &mut L,
) -> Served
    ensures serves { Serves (allowance settings.bounds (HasRung A.answered)) settings.manner
        (Gives S.coming S.bound S.failures source.old source.new)
        (HasEnded (S.coming source.new) (S.ended source.new))
        (Shows (T.screen term.old) (T.screen term.new))
        (history_of session.old) (history_of session.new) result }
    // The listener has heard of just what was done to the session: of each request that did something, once, in order.
    ensures heard { HearsAllDone L.hears listener.old listener.new (history_of session.old) (history_of session.new) }
{
    if let Err(TerminalFault) = show_prompt(settings.manner.prompt, term) {
        return Served::ShowFault;
    }
    let mut splitter = Splitter::new(alloc);
    let mut piece = [0; PIECE];
    let mut fed: u64 = 0;
    'pieces: loop {
        let Ok(n) = source.read(&mut piece) else {
            return Served::ReadFault;
        };
        if n == 0 {
            listener.left(splitter.held(), false);
            return Served::EndOfCommands;
        }
        if splitter.feed(&piece[..n]).is_err() {
            return Served::NoMemory;
        }
        fed = fed.saturating_add(n as u64);
        let ended = serve_held(&mut splitter, fed, session, settings, alarm, term, listener);
        if let Some(served) = ended {
            listener.left(splitter.held(), true);
            return served;
        }
    }
}
