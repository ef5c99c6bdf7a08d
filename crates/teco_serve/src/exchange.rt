//! One text of the stream: what it asks is done, and the answers are shown.
ghost use Rattle.std.specs.Prelude.{◌≡◌, ◌≢◌, ℕ, List, [], ◌&&◌, not, Some, None, true, false, OnErr, OnOk};
ghost use Rattle.teco_serve.specs.Cut.{value_of};
ghost use Rattle.teco_serve.specs.Exchange.{Does, Exchange, HasRung, MovesInHistory, Repeats, RunsAllowed, allowance, is_exit};
ghost use Rattle.teco_serve.specs.Heard.Heard.{Moved, Ran};
ghost use Rattle.teco_serve.specs.Hearing.{HearsAll, HearsAllDone, told_alone};
ghost use Rattle.teco_serve.specs.Held.{ExchangeEnds, IsExchange};
ghost use Rattle.teco_serve.specs.Message.{code_line, is_shown, line_of, message, replies_shown, star};
ghost use Rattle.teco_scan.specs.Stream.{is_run};
ghost use Rattle.teco_scan.specs.Stream.Asks.{Run};
ghost use Rattle.teco_session.specs.Answers.{answer_code, string_outcome};
ghost use Rattle.teco_session.specs.History.{present};
ghost use Rattle.teco_session.specs.Kept.{history_of};
ghost use Rattle.teco_session.specs.RunsIn.{RunsIn};
ghost use Rattle.teco_exec.specs.Runs.{RunsWithin, StillSays};
ghost use Rattle.teco_session.specs.Step.{Reply, RunStep, is_terminal_failure};
ghost use Rattle.teco_replay.specs.Told.{event_of_request, event_of_run};
ghost use Rattle.teco_io.specs.Terminal.{Puts, Shows};

use crate::alarm::{Alarm, Manner, Settings};
use crate::listener::Listens;
use crate::served::Served;
use crate::splitter::Asked;
use teco_core::Code;
use teco_exec::{Never, Options, Stop, Watched, meaning_laws};
use teco_io::{Terminal, TerminalFault};
use teco_journal::Entry;
use teco_replay::replay_laws;
use teco_session::{Answer, Answered, Request, Session};
use teco_store::Desk;

/// The line that is shown of a code.
fn code_line(code: Code) -> [u8; 6]
    ensures { result ≡ code_line code }
{
    let [first, second, third] = code.letters();
    [b'?', first, second, third, b'\r', b'\n']
}

/// Whether a code is shown: where codes are; and that of a terminal that failed, which none sees.
fn is_shown(manner: Manner, code: Code) -> bool
    ensures { result ≡ is_shown manner code }
{
    manner.shows_codes || matches!(code, Code::Tty)
}

/// Shows the line of a code, if codes are shown.
fn show_code<T: Terminal>(code: Code, manner: Manner, term: &mut T) -> Result<(), TerminalFault>
    ensures puts { Puts (T.screen term.old) (T.screen term.new) (line_of manner (Some code)) result }
    ensures some { OnErr result (line_of manner (Some code) ≢ []) }
{
    if is_shown(manner, code) {
        term.put(&code_line(code))
    } else {
        Ok(())
    }
}

/// Shows the message of an answer, if it has one.
#[tactic(auto, unfolding(crate::specs::Message::message))]
fn show_message<T: Terminal>(
    answer: Answer,
    manner: Manner,
    term: &mut T,
) -> Result<(), TerminalFault>
    ensures puts { Puts (T.screen term.old) (T.screen term.new) (message manner answer) result }
    ensures some { OnErr result (message manner answer ≢ []) }
{
    match answer.code() {
        None => Ok(()),
        Some(code) => show_code(code, manner, term),
    }
}

/// Shows the message of what a string was answered, and lets the listener hear of the string.
fn show_ending<T: Terminal, L: Listens>(
    text: &[u8],
    begins: u64,
    answered: &Answered,
    session: &Session,
    settings: Settings,
    term: &mut T,
    listener: &mut L,
) -> Result<(), TerminalFault>
    ensures heard { OnOk result (L.hears listener.old listener.new
        (Ran text.now begins answered.now settings.bounds session.now)) }
    ensures unheard { OnErr result (listener.new ≡ listener.old) }
    ensures puts { Puts (T.screen term.old) (T.screen term.new) (message settings.manner answered.now.answer) result }
    ensures some { OnErr result (message settings.manner answered.now.answer ≢ []) }
{
    if let Err(TerminalFault) = show_message(answered.answer, settings.manner, term) {
        return Err(TerminalFault);
    }
    listener.ran(text, begins, answered, settings.bounds, session);
    Ok(())
}

/// Shows the message of a refusal, and lets the listener hear of it.
fn show_refusal<T: Terminal, L: Listens>(
    answer: Answer,
    begins: u64,
    session: &Session,
    manner: Manner,
    term: &mut T,
    listener: &mut L,
) -> Result<(), TerminalFault>
    ensures heard { OnOk result (L.hears listener.old listener.new (Moved begins (answer_code answer) session.now)) }
    ensures unheard { OnErr result (listener.new ≡ listener.old) }
    ensures puts { Puts (T.screen term.old) (T.screen term.new) (message manner answer) result }
    ensures some { OnErr result (message manner answer ≢ []) }
{
    if let Err(TerminalFault) = show_message(answer, manner, term) {
        return Err(TerminalFault);
    }
    listener.moved(begins, answer.code(), session);
    Ok(())
}

/// Shows a star, if one is wanted.
pub fn show_prompt<T: Terminal>(prompt: bool, term: &mut T) -> Result<(), TerminalFault>
    ensures puts { Puts (T.screen term.old) (T.screen term.new) (star prompt) result }
    ensures some { OnErr result (star prompt ≢ []) }
{
    if prompt { term.put(b"*") } else { Ok(()) }
}

/// Lets the listener hear of a string that was run, unless it was not begun.
fn tell_run<L: Listens>(text: &[u8], answer: Answer, listener: &mut L)
    ensures { HearsAll L.hears listener.old (told_alone (event_of_run text.now answer)) listener.new }
{
    if let Answer::Ended(outcome) = answer {
        let steps = outcome.steps;
        listener.did(Entry::Run { steps, text });
    }
}

/// Lets the listener hear of what a request with this answer did to the session, if it did something.
fn tell_request<L: Listens>(request: &Request, answer: Answer, listener: &mut L)
    ensures { HearsAll L.hears listener.old (told_alone (event_of_request request.now answer)) listener.new }
{
    match (request, answer) {
        (Request::Run(text), _) => tell_run(text.as_slice(), answer, listener),
        (Request::Undo, Answer::Undone) => listener.did(Entry::Undo),
        (Request::Redo, Answer::Redone) => listener.did(Entry::Redo),
        (Request::Rewind(steps), Answer::Rewound) => listener.did(Entry::Rewind(*steps)),
        _ => {}
    }
}

/// Asks for an undo, a redo or a rewind `n` times. It stops after the first that is refused, and shows its message. The listener hears of
/// each that is not refused.
fn repeat<T: Terminal, L: Listens>(
    request: &Request,
    n: u32,
    begins: u64,
    session: &mut Session,
    settings: Settings,
    term: &mut T,
    listener: &mut L,
) -> Result<(), TerminalFault>
    requires { MovesInHistory request.now }
    ensures done { (replies : List Reply)
        × Repeats settings.bounds.steps request.now n (history_of session.old) replies (history_of session.new)
        × Puts (T.screen term.old) (T.screen term.new) (replies_shown settings.manner replies) result
        × OnErr result (replies_shown settings.manner replies ≢ []) }
    ensures heard { HearsAllDone L.hears listener.old listener.new (history_of session.old) (history_of session.new) }
{
    replay_laws();
    'moves: for _i in 0..n {
        let answer = session.answer(request, settings.bounds.steps, term);
        tell_request(request, answer, listener);
        if answer.is_refused() {
            return show_refusal(answer, begins, session, settings.manner, term, listener);
        }
    }
    listener.moved(begins, None, session);
    Ok(())
}

/// Runs a text until it is asked to stop, and tells where its run last stood.
fn run_placed<S: Stop, T: Terminal>(
    text: &[u8],
    session: &mut Session,
    limit: u64,
    stop: &mut S,
    term: &mut T,
) -> Answered
    ensures run { RunsWithin (S.answered stop.new) limit (string_outcome result.answer)
        (RunsIn T.Terminal (session.old, term.old) (session.new, term.new) text.now result.answer) }
    ensures still { StillSays (S.answered stop.old) (S.answered stop.new) }
{
    let watch = Watched::new(session.alloc());
    let options = Options { limit, stop };
    let (answer, watch) = session.run_with(text, term, options, watch);
    Answered {
        answer,
        place: watch.into_place(),
    }
}

/// Runs a text, lets the listener hear of that, and shows the message of the answer. With seconds the alarm is set, and may break it off.
fn run_text<A: Alarm, T: Terminal, L: Listens>(
    text: &[u8],
    begins: u64,
    session: &mut Session,
    settings: Settings,
    alarm: &mut A,
    term: &mut T,
    listener: &mut L,
) -> Result<(), TerminalFault>
    ensures done { (replies : List Reply)
        × Does (allowance settings.bounds (HasRung A.answered)) (Run text.now) (history_of session.old) replies (history_of session.new)
        × Puts (T.screen term.old) (T.screen term.new) (replies_shown settings.manner replies) result
        × OnErr result (replies_shown settings.manner replies ≢ []) }
    ensures err { OnErr result
        (is_exit (Run text.now) (history_of session.old) (history_of session.new) ≡ false) }
    ensures heard { HearsAllDone L.hears listener.old listener.new (history_of session.old) (history_of session.new) }
{
    meaning_laws();
    let bounds = settings.bounds;
    let answered = if let Some(seconds) = bounds.seconds {
        alarm.set(seconds);
        run_placed(text, session, bounds.steps, alarm, term)
    } else if listener.wants_place() {
        run_placed(text, session, bounds.steps, &mut Never, term)
    } else {
        Answered {
            answer: session.run(text, bounds.steps, term),
            place: Ok(None),
        }
    };
    tell_run(text, answered.answer, listener);
    if answered.answer.is_terminal_failure() {
        return Err(TerminalFault);
    }
    show_ending(text, begins, &answered, session, settings, term, listener)
}

/// Whether it was a run that made the session done.
fn exits(asked: &Asked, was_done: bool, is_done: bool) -> bool
    ensures { result ≡ (is_run (value_of asked.now) && (not was_done && is_done)) }
{
    matches!(asked, Asked::Run(_)) && !was_done && is_done
}

/// Does what a text asks and shows its answers, and then a star unless a run has made the session done. Says how the serving ends,
/// if it does. The text begins after so many bytes of the stream.
pub fn do_exchange<A: Alarm, T: Terminal, L: Listens>(
    asked: &Asked,
    begins: u64,
    session: &mut Session,
    settings: Settings,
    alarm: &mut A,
    term: &mut T,
    listener: &mut L,
) -> Option<Served>
    ensures does { (exchange : Exchange)
        × IsExchange (allowance settings.bounds (HasRung A.answered)) (value_of asked.now) (history_of session.old)
        (history_of session.new) exchange
        × ExchangeEnds (Shows (T.screen term.old) (T.screen term.new)) settings.manner exchange result }
    // The listener has heard of just what was done to the session.
    ensures heard { HearsAllDone L.hears listener.old listener.new (history_of session.old) (history_of session.new) }
{
    let was_done = session.editor().done();
    let shown = match asked {
        Asked::Run(text) => {
            run_text(
                text.as_slice(),
                begins,
                session,
                settings,
                alarm,
                term,
                listener,
            )
        }
        Asked::Undo(n) => repeat(
            &Request::Undo,
            *n,
            begins,
            session,
            settings,
            term,
            listener,
        ),
        Asked::Redo(n) => repeat(
            &Request::Redo,
            *n,
            begins,
            session,
            settings,
            term,
            listener,
        ),
        Asked::Rewind(n) => {
            let rewind = Request::Rewind(u64::from(*n));
            repeat(&rewind, 1, begins, session, settings, term, listener)
        }
    };
    if let Err(TerminalFault) = shown {
        return Some(Served::ShowFault);
    }
    if exits(asked, was_done, session.editor().done()) {
        return Some(Served::Exit);
    }
    if let Err(TerminalFault) = show_prompt(settings.manner.prompt, term) {
        return Some(Served::ShowFault);
    }
    None
}
