//! Where a run last stood: before the step that comes, at a fault, or before the step that failed.
use super::breaks::Asking;
use super::strings::is_code;
use super::{breaks, faults};
use crate::tests::bytes::{Screen, is, is_typed};
use crate::tests::rows::{Cells, Rule, all_hold, cells_of, number_or};
use crate::tests::session::requests::{Over, Trial, broken_off, holds_once, placed};
use std::alloc::Global;
use std::test::*;
use teco_exec::{Never, Patience, Stop};
use teco_session::{Answer, Answered, Session};

const ROWS: &str = "
    // A token after fillers, and the end.
    1+2= => 0 => LIM => 0 => 0 0 [] [] None
    1+2= => 2 => LIM => 2 => 2 2 [] [] None
    1\r\n +2= => 1 => LIM => 1 => 1 4 [] [] None
    1+2= => 9 => => 4
    1+2= => 4 => => 4
    1+2=EX => 9 => => 5
    // Iterations, and their turns.
    3<1=> => 1 => LIM => 1 => 1 1 [] [] None
    3<1=> => 2 => LIM => 2 => 2 2 [Some(2)] [] None
    3<1=> => 4 => LIM => 4 => 4 4 [Some(2)] [] None
    3<1=> => 5 => LIM => 5 => 5 2 [Some(1)] [] None
    3<1=> => 11 => => 11
    <1=> => 3 => LIM => 3 => 3 3 [None] [] None
    2<3<1=>> => 4 => LIM => 4 => 4 4 [Some(2), Some(1)] [] None
    1\"G2<1=>' => 4 => LIM => 4 => 4 5 [Some(1)] [] None
    // Calls. A step that fails counts, and its token is told.
    @^UA/1+5J/2<MA> => 3 => LIM => 3 => 3 12 [Some(1)] [] None
    @^UA/1+5J/2<MA> => 4 => LIM => 4 => 4 0 [] [Call { register: Reg { index: 0 }, at: 12, turns: [Some(1)] }] None
    @^UA/1+5J/2<MA> => 7 => LIM => 7 => 7 3 [] [Call { register: Reg { index: 0 }, at: 12, turns: [Some(1)] }] None
    @^UA/1+5J/2<MA> => 8 => POP => 8 => 7 3 [] [Call { register: Reg { index: 0 }, at: 12, turns: [Some(1)] }] None
    @^UA/1+5J/2<MA> => 99 => POP => 8 => 7 3 [] [Call { register: Reg { index: 0 }, at: 12, turns: [Some(1)] }] None
    // A fault uses no step.
    @^UA/1===/2<MA> => 5 => ILL => 5 => 5 1 [] [Call { register: Reg { index: 0 }, at: 12, turns: [Some(1)] }] Some(ListFault { at: 1, opened: None, code: Ill })
    @^UA/1===/2<MA> => 99 => ILL => 5 => 5 1 [] [Call { register: Reg { index: 0 }, at: 12, turns: [Some(1)] }] Some(ListFault { at: 1, opened: None, code: Ill })
    7=Iab => 99 => UTC => 2 => 2 2 [] [] Some(ListFault { at: 2, opened: None, code: Utc })
    2<1\"G'|> => 99 => ILL => 4 => 4 6 [Some(1)] [] Some(ListFault { at: 6, opened: None, code: Ill })
    // A step that fails in an iteration, in a conditional, and in its second part.
    @S/x/ => 99 => SRH => 1 => 0 0 [] [] None
    <@S/x/1=> => 99 => SRH => 2 => 1 1 [None] [] None
    1,2J => 99 => ARG => 4 => 3 3 [] [] None
    @I/x/J2<C> => 99 => POP => 7 => 6 8 [Some(0)] [] None
    1\"G5J' => 99 => POP => 4 => 3 4 [] [] None
    0\"G1|5J' => 99 => POP => 4 => 3 6 [] [] None
    2<1\"G5J'> => 99 => POP => 6 => 5 6 [Some(1)] [] None
    // A step of a block that fails.
    1,2<=> => 99 => ARG => 4 => 3 3 [] [] None
    \"G' => 99 => NAQ => 1 => 0 0 [] [] None
    3<\"G'> => 99 => NAQ => 3 => 2 2 [Some(2)] [] None
    0<?> => 99 => ILL => 2 => 1 1 [] [] Some(ListFault { at: 2, opened: None, code: Ill })
    // A jump that finds no tag, and `;` where it can't leave: the blocks around are told.
    2<1\"G@O/x/'> => 99 => TAG => 5 => 4 5 [Some(1)] [] None
    @^UB;@O/x/;@^UA/3<MB>/MA => 99 => TAG => 7 => 6 0 [] [Call { register: Reg { index: 1 }, at: 2, turns: [Some(2)] }, Call { register: Reg { index: 0 }, at: 22, turns: [] }] None
    @^UA/;/<MA> => 3 => LIM => 3 => 3 0 [] [Call { register: Reg { index: 0 }, at: 8, turns: [None] }] None
    @^UA/;/<MA> => 99 => SNI => 4 => 3 0 [] [Call { register: Reg { index: 0 }, at: 8, turns: [None] }] None
    1\"G;' => 99 => SNI => 3 => 2 3 [] [] None
    3<1; => 99 => UTC => 4 => 3 3 [Some(2)] [] Some(ListFault { at: 4, opened: Some(1), code: Utc })
    3<1\"G1;' => 99 => UTC => 6 => 5 6 [Some(2)] [] Some(ListFault { at: 8, opened: Some(1), code: Utc })
    // One block or call too many, and further steps of a token.
    <<<<<<<<<<<<<<<<<<<<<<<<<<<<<<<<<<<<<<<<<<<<<<<<<<<<<<<<<<<<<<<<< => 99 => PDO => 64 => 64 64 [None, None, None, None, None, None, None, None, None, None, None, None, None, None, None, None, None, None, None, None, None, None, None, None, None, None, None, None, None, None, None, None, None, None, None, None, None, None, None, None, None, None, None, None, None, None, None, None, None, None, None, None, None, None, None, None, None, None, None, None, None, None, None, None] [] Some(ListFault { at: 64, opened: None, code: Pdo })
    @^UA/MA/MA => 99 => PDO => 34 => 33 0 [] [Call { register: Reg { index: 0 }, at: 0, turns: [] }, Call { register: Reg { index: 0 }, at: 0, turns: [] }, Call { register: Reg { index: 0 }, at: 0, turns: [] }, Call { register: Reg { index: 0 }, at: 0, turns: [] }, Call { register: Reg { index: 0 }, at: 0, turns: [] }, Call { register: Reg { index: 0 }, at: 0, turns: [] }, Call { register: Reg { index: 0 }, at: 0, turns: [] }, Call { register: Reg { index: 0 }, at: 0, turns: [] }, Call { register: Reg { index: 0 }, at: 0, turns: [] }, Call { register: Reg { index: 0 }, at: 0, turns: [] }, Call { register: Reg { index: 0 }, at: 0, turns: [] }, Call { register: Reg { index: 0 }, at: 0, turns: [] }, Call { register: Reg { index: 0 }, at: 0, turns: [] }, Call { register: Reg { index: 0 }, at: 0, turns: [] }, Call { register: Reg { index: 0 }, at: 0, turns: [] }, Call { register: Reg { index: 0 }, at: 0, turns: [] }, Call { register: Reg { index: 0 }, at: 0, turns: [] }, Call { register: Reg { index: 0 }, at: 0, turns: [] }, Call { register: Reg { index: 0 }, at: 0, turns: [] }, Call { register: Reg { index: 0 }, at: 0, turns: [] }, Call { register: Reg { index: 0 }, at: 0, turns: [] }, Call { register: Reg { index: 0 }, at: 0, turns: [] }, Call { register: Reg { index: 0 }, at: 0, turns: [] }, Call { register: Reg { index: 0 }, at: 0, turns: [] }, Call { register: Reg { index: 0 }, at: 0, turns: [] }, Call { register: Reg { index: 0 }, at: 0, turns: [] }, Call { register: Reg { index: 0 }, at: 0, turns: [] }, Call { register: Reg { index: 0 }, at: 0, turns: [] }, Call { register: Reg { index: 0 }, at: 0, turns: [] }, Call { register: Reg { index: 0 }, at: 0, turns: [] }, Call { register: Reg { index: 0 }, at: 0, turns: [] }, Call { register: Reg { index: 0 }, at: 8, turns: [] }] None
    3P => 2 => LIM => 2 => 2 1 [] [] None
    3P => 3 => LIM => 3 => 3 1 [] [] None
    3P => 99 => => 4
    0P => 99 => IPA => 2 => 1 1 [] [] None
    // Calls of calls, the latest first.
    @^UB/1J/@^UA/2<MB>/MA => 2 => LIM => 2 => 2 19 [] [] None
    @^UB/1J/@^UA/2<MB>/MA => 5 => LIM => 5 => 5 2 [Some(1)] [Call { register: Reg { index: 0 }, at: 19, turns: [] }] None
    @^UB/1J/@^UA/2<MB>/MA => 7 => LIM => 7 => 7 1 [] [Call { register: Reg { index: 1 }, at: 2, turns: [Some(1)] }, Call { register: Reg { index: 0 }, at: 19, turns: [] }] None
    @^UB/1J/@^UA/2<MB>/MA => 99 => POP => 8 => 7 1 [] [Call { register: Reg { index: 1 }, at: 2, turns: [Some(1)] }, Call { register: Reg { index: 0 }, at: 19, turns: [] }] None
    ";

/// Whether a place is told so, where it is.
pub(super) fn is_told(alloc: Global, answered: &Answered, told: &str) -> bool {
    let place = match &answered.place {
        Ok(Some(place)) => place,
        Ok(None) => return told.is_empty(),
        Err(_) => return false,
    };
    let (turns, calls) = (&place.turns, &place.calls);
    match format!(in alloc;
        "{} {} {turns:?} {calls:?} {:?}",
        place.steps, place.at, place.fault
    ) {
        Ok(text) => is(&text, told),
        Err(_) => false,
    }
}

/// A row, whose text is run; what it is asked, if it may be broken off; and whether it tells its place then.
#[derive(Clone, Copy)]
struct By<'a>(Cells<'a>, Option<Asking>, bool);

impl Trial for By<'_> {
    fn holds(&self, alloc: Global, session: &mut Session, term: &mut Screen) -> bool {
        let By(cells, asking, tells) = self;
        let (text, limit) = (cells[0].as_bytes(), number_or(cells[1], 1000));
        let answered = match asking {
            None => placed(session, text, limit, &mut Never, term),
            Some(asking) => broken_off(session, text, limit, *asking, *tells, term),
        };
        match answered.answer {
            Answer::Ended(outcome) => {
                is_code(outcome.code, cells[2])
                    && number_or(cells[3], u64::MAX) == outcome.steps
                    && (asking.is_none() || is_typed(term, cells[6]))
                    && is_told(alloc, &answered, if *tells { cells[4] } else { "" })
            }
            _ => false,
        }
    }
}

/// A session that keeps no string, so the text is run on its editor.
const NO_STRING: Over = Over {
    input: b"",
    page_lines: 0,
    depth: Some(0),
};

/// A row is a text and its limit of steps, if it isn't 1000; the code by which it ends, if it ends by one, and its steps; and where its run
/// last stood, if it is told: the steps by then, the place, the turns left of open iterations, the innermost first, its callers, the
/// latest first, and the first fault of the text. Then may come after how many steps it is broken off, and what it has typed.
#[derive(Clone, Copy)]
struct Stands;

impl Rule for Stands {
    fn holds(&self, alloc: Global, row: &str) -> bool {
        let cells = cells_of(row);
        let after = number_or(cells[5], 0);
        if cells[5].is_empty() {
            return holds_once(alloc, &NO_STRING, &By(cells, None, true));
        }
        let (steps, answers) = (Asking::Steps(after), Asking::Answers(after));
        let mut held = true;
        for (asking, tells) in [(steps, false), (answers, false), (steps, true)] {
            held = holds_once(alloc, &NO_STRING, &By(cells, Some(asking), tells)) && held;
        }
        held
    }
}

static TABLES: [&str; 3] = [ROWS, faults::ROWS, breaks::ROWS];

#[test]
fn runs_tell_where_they_last_stood(rt: HostRuntime) {
    for table in &TABLES {
        all_hold(&rt, rt.alloc(), &Stands, table);
    }
    // Who never stops a run.
    assert!(rt; !Never.asks(0) && !Never.asks_now(0) && !Never.has_ended());
}
