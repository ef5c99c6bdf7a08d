//! Requests of a session, one after another.
use super::{breaks, exits, failing_terminals, pages, records};
use crate::tests::assert_of;
use crate::tests::bytes::{Screen, are_both, is, is_typed, joined, screen_of, wide_screen};
use crate::tests::exec::breaks::Asking;
use crate::tests::exec::strings::is_code;
use crate::tests::rows::{Cells, LINE, cells_of, halves_at, is_row, number_or, text_of};
use std::alloc::Global;
use std::fmt::Write;
use teco_core::{Code, DEPTH_LIMIT, FILE_LIMIT};
use teco_exec::{Options, Stop, Unwatched, Watched};
use teco_session::{Answer, Answered, Session};
use teco_store::{ChangeKind, Desk, Editor};

/// Runs a string under a limit of steps. The tests run one here alone, since each call of the interpreter costs the proof seconds.
pub(crate) fn ran(session: &mut Session, text: &[u8], limit: u64, term: &mut Screen) -> Answer {
    session.run(text, limit, term)
}

/// Runs a string, at once or after a refusal.
pub(crate) fn ran_at_last(
    session: &mut Session,
    text: &[u8],
    limit: u64,
    term: &mut Screen,
) -> Answer {
    match ran(session, text, limit, term) {
        Answer::NotBegun => ran(session, text, limit, term),
        answer => answer,
    }
}

/// The code by which a redo or an undo is refused, if it is.
pub(crate) fn turned(session: &mut Session, forth: bool) -> Option<Code> {
    if forth {
        match session.redo() {
            Ok(()) => None,
            Err(refused) => Some(Code::from(refused)),
        }
    } else {
        match session.undo() {
            Ok(()) => None,
            Err(refused) => Some(Code::from(refused)),
        }
    }
}

/// Runs a string that may be broken off, and tells its place where that is wanted.
pub(crate) fn broken_off(
    session: &mut Session,
    text: &[u8],
    limit: u64,
    mut asking: Asking,
    tells: bool,
    term: &mut Screen,
) -> Answered {
    if tells {
        return placed(session, text, limit, &mut asking, term);
    }
    let options = Options {
        limit,
        stop: &mut asking,
    };
    Answered {
        answer: session.run_with(text, term, options, Unwatched).0,
        place: Ok(None),
    }
}

/// Runs a string until it is asked to stop, and tells where its run last stood.
pub(crate) fn placed<S: Stop>(
    session: &mut Session,
    text: &[u8],
    limit: u64,
    stop: &mut S,
    term: &mut Screen,
) -> Answered {
    let watch = Watched::new(session.alloc());
    let options = Options { limit, stop };
    let (answer, watch) = session.run_with(text, term, options, watch);
    Answered {
        answer,
        place: watch.into_place(),
    }
}

/// The code of a string that was broken off after two steps, if it tells that it stood after two bytes, where it is to tell that.
fn code_there(answered: &Answered, tells: bool) -> Option<Code> {
    let stood = match &answered.place {
        Ok(Some(place)) => place.at == 2 && place.steps == 2,
        _ => false,
    };
    if stood == tells {
        answered.answer.code()
    } else {
        None
    }
}

/// The code of the answer to a request: `{` undoes a string, `}` redoes one, `~` goes back to before the first step and `~1` to after
/// it, `2!` runs `CCC` and breaks it off after two steps, `2?` does so where the place is told, and any other request is run.
fn code_of(session: &mut Session, request: &str, term: &mut Screen) -> Option<Code> {
    match request.as_bytes() {
        [b'{'] => turned(session, false),
        [b'}'] => turned(session, true),
        [b'~', step @ ..] => match session.rewind(step.len() as u64) {
            Ok(()) => None,
            Err(refused) => Some(Code::from(refused)),
        },
        [b'2', mark] => {
            let (two, tells) = (Asking::Steps(2), *mark == b'?');
            code_there(&broken_off(session, b"CCC", 1000, two, tells, term), tells)
        }
        text => ran(session, text, 1000, term).code(),
    }
}

/// Whether the last string has at most six changes for each of its steps, and they hold at most so many bytes.
fn is_within(session: &Session, most: u64) -> bool {
    let strings = session.strings();
    if strings == 0 {
        return false;
    }
    let changes = session.entry(strings - 1);
    let mut held: usize = 0;
    for k in 0..changes.len() {
        held = held.saturating_add(changes.held(k));
    }
    changes.len() as u64 <= session.steps(strings - 1).saturating_mul(6) && held as u64 <= most
}

/// Whether what is told of a session begins so: how many strings it has, the pointer, the steps of the last string, and the kinds of its
/// changes, where a splice tells its place, how many bytes go, and how many come.
fn is_told(alloc: Global, session: &Session, told: &str) -> bool {
    let strings = session.strings();
    if strings == 0 {
        return false;
    }
    let (steps, pointer) = (session.steps(strings - 1), session.editor().pointer());
    let mut out = String::new(alloc);
    let mut held = write!(out, "{strings} {pointer} {steps}:").is_ok();
    let changes = session.entry(strings - 1);
    for k in 0..changes.len() {
        let (name, numbers) = match changes.kind(k) {
            ChangeKind::Splice { at, gone, came } => ("splice", [at, gone, came]),
            ChangeKind::Point => ("point", [0; 3]),
            _ => ("another", [0; 3]),
        };
        held = write!(out, " {name} {numbers:?}").is_ok() && held;
    }
    held && out.push_str(" end").is_ok() && out.as_str().starts_with(told)
}

/// Whether a session is left as cells of a row say.
fn is_left(alloc: Global, session: &Session, cells: &Cells) -> bool {
    let editor = session.editor();
    editor.output().are(cells[2].as_bytes())
        && (cells[3].is_empty() || are_both(editor.halves(), text_of(cells[3]).as_bytes()))
        && (cells[4].is_empty() || is_within(session, number_or(cells[4], 0)))
        && (cells[6].is_empty() || is_told(alloc, session, cells[6]))
}

/// Whether a string is answered as its row says on a terminal that takes so many bytes, and shows no more than these after their number.
fn is_shown(alloc: Global, session: &mut Session, cells: &Cells) -> bool {
    let (room, shown) = halves_at(cells[7], " ");
    let mut term = screen_of(alloc, number_or(room, 0) as usize);
    let answer = ran(session, cells[0].as_bytes(), 1000, &mut term);
    is_code(answer.code(), cells[1]) && is_typed(&term, shown)
}

/// Whether a request is answered as its row says: by the letters of a code, if it is answered by one, with this output after it, and this
/// text, where a hyphen is an empty one; how many bytes the changes of the last string hold at most, how often it is asked, if not once,
/// what is told of the session then, and what its terminal takes, if it fails. What is empty after the output is not said.
fn is_answered(alloc: Global, session: &mut Session, row: &str, term: &mut Screen) -> bool {
    let cells = cells_of(row);
    let mut held = cells[7].is_empty() || is_shown(alloc, session, &cells);
    for _ in 0..number_or(cells[5], u64::from(cells[7].is_empty())).min(100) {
        held = is_code(code_of(session, cells[0], term), cells[1]) && held;
    }
    held && is_left(alloc, session, &cells)
}

/// What is tried in a session. It does not own it, since what owns a session has the drop of each of its parts.
pub(crate) trait Trial {
    fn holds(&self, alloc: Global, session: &mut Session, term: &mut Screen) -> bool;
}

/// Requests, a row each, what they type in all, and how many strings are noted then, if that is said.
#[derive(Clone, Copy)]
struct Script<'a> {
    rows: &'a str,
    typed: &'a str,
    noted: &'a str,
}

impl Trial for Script<'_> {
    fn holds(&self, alloc: Global, session: &mut Session, term: &mut Screen) -> bool {
        let mut held = true;
        for row in self.rows.split(LINE) {
            held = held && (!is_row(row) || is_answered(alloc, session, row, term));
        }
        let strings = session.strings() as u64;
        held && is_typed(term, self.typed) && number_or(self.noted, strings) == strings
    }
}

/// What a session is over, and how many strings it keeps, if that is said.
#[derive(Clone, Copy)]
pub(crate) struct Over<'a> {
    pub(crate) input: &'a [u8],
    /// The lines of a page; 0 for any number.
    pub(crate) page_lines: usize,
    pub(crate) depth: Option<usize>,
}

impl<'a> Over<'a> {
    /// Over an input, of which all strings are kept.
    pub(crate) fn new(input: &'a [u8]) -> Over<'a> {
        Over {
            input,
            page_lines: 0,
            depth: None,
        }
    }
}

/// A new session, at once or after a refusal.
fn session_of(alloc: Global, over: &Over) -> Option<Session> {
    let depth = match over.depth {
        Some(depth) => Some(depth.min(DEPTH_LIMIT)),
        None => None,
    };
    for _ in 0..2 {
        let mut input = joined(alloc, &[over.input]);
        input.truncate(FILE_LIMIT);
        if let Ok(session) = Session::with_pages(input, over.page_lines, depth) {
            return Some(session);
        }
    }
    None
}

/// Whether a trial holds in a new session.
pub(crate) fn holds_once<T: Trial>(alloc: Global, over: &Over, trial: &T) -> bool {
    match session_of(alloc, over) {
        Some(mut session) => trial.holds(alloc, &mut session, &mut wide_screen(alloc)),
        None => false,
    }
}

/// Whether a trial holds in a new session; where memory was refused, at the second time.
pub(crate) fn holds_in<T: Trial>(alloc: Global, over: &Over, trial: &T) -> bool {
    holds_once(alloc, over, trial) || holds_once(alloc, over, trial)
}

/// Whether the requests of a script are answered. Its first line has the input, what is typed in all, how many strings are noted at the
/// end, the lines of a page, and how many strings are kept; what is empty after the typed text is not said.
fn plays(alloc: Global, script: &str) -> bool {
    let (head, rows) = halves_at(script, LINE);
    let [input, typed, noted, lines, depth, ..] = cells_of(head);
    let over = Over {
        input: input.as_bytes(),
        page_lines: number_or(lines, 0) as usize,
        depth: if depth.is_empty() {
            None
        } else {
            Some(number_or(depth, 0) as usize)
        },
    };
    holds_in(alloc, &over, &Script { rows, typed, noted })
}

static TABLES: [&str; 5] = [
    records::SCRIPTS,
    pages::SCRIPTS,
    breaks::SCRIPTS,
    exits::SCRIPTS,
    failing_terminals::SCRIPTS,
];

/// Tries each script of a table, which begins with `over`.
#[test]
fn requests_are_answered(rt: HostRuntime) {
    for table in &TABLES {
        for script in table.split("\n    over") {
            assert_of(&rt, script, script.is_empty() || plays(rt.alloc(), script));
        }
    }
}
