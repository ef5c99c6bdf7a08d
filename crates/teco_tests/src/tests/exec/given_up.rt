//! Searches that are given up within their step: the string ends before it, and what it had done by then stays.
use super::breaks::Asking;
use super::places::is_told;
use super::strings::is_code;
use crate::tests::bytes::{Screen, is, is_typed, joined};
use crate::tests::rows::{Cells, Rule, all_hold, cells_of, number_or};
use crate::tests::session::requests::{Over, Trial, holds_once, placed, ran};
use std::alloc::Global;
use std::test::*;
use teco_session::{Answer, Session};

/// What comes before and after the search text in the register C, between which 1,024 bytes of any kind are looked for; whether the string
/// ends by LIM or by MEM, its steps, and where it last stood; and what it, a look at the pointer and the length, and the same string with
/// no one who stops it type.
const ROWS: &str = "
    :Sq => e\x1b= => LIM => 3 => 3 0 [] [Call { register: Reg { index: 2 }, at: 2, turns: [] }] None => 1\r\n2000\r\n4096\r\n1\r\n0\r\n0\r\n
    :Nq => e\x1b= => LIM => 3 => 3 0 [] [Call { register: Reg { index: 2 }, at: 2, turns: [] }] None => 1\r\n2000\r\n4096\r\n1\r\n0\r\n0\r\n
    3<Sq => e\x1b;>7= => LIM => 5 => 5 2 [Some(2)] [Call { register: Reg { index: 2 }, at: 2, turns: [] }] None => 1\r\n2000\r\n4096\r\n1\r\n7\r\n0\r\n
    // Nobody stops the run then: it ends as where memory is refused.
    :Sq => e\x1b= => MEM => 3 => 3 0 [] [Call { register: Reg { index: 2 }, at: 2, turns: [] }] None => 1\r\n2000\r\n4096\r\n1\r\n0\r\n0\r\n
    ";

/// The string that searches.
const SEARCHES: &[u8] = b"1=MC.=";

/// A session that keeps no string, so the text is run on its editor.
const NO_STRING: Over = Over {
    input: b"",
    page_lines: 0,
    depth: Some(0),
};

/// A row, whose search is made and then given up.
#[derive(Clone, Copy)]
struct GivesUp<'a>(Cells<'a>);

impl Trial for GivesUp<'_> {
    fn holds(&self, alloc: Global, session: &mut Session, term: &mut Screen) -> bool {
        let cells = self.0;
        let parts: [&[u8]; 5] = [
            b"@I/\x18/10<HXBGB>J@I/",
            cells[0].as_bytes(),
            b"/ZJ@I/",
            cells[1].as_bytes(),
            b"/HXCHK@I/q/12<HXAGA>2000J",
        ];
        let made = ran(session, &joined(alloc, &parts), 1000, term);
        let mut within = Asking::Within(is(cells[2], "LIM"));
        let given_up = placed(session, SEARCHES, 1000, &mut within, term);
        let looked = ran(session, b".=Z=", 1000, term);
        let searched = ran(session, SEARCHES, 1000, term);
        match given_up.answer {
            Answer::Ended(outcome) => {
                made.code().is_none()
                    && looked.code().is_none()
                    && searched.code().is_none()
                    && is_code(outcome.code, cells[2])
                    && outcome.steps == number_or(cells[3], 0)
                    && is_told(alloc, &given_up, cells[4])
                    && is_typed(term, cells[5])
            }
            _ => false,
        }
    }
}

#[derive(Clone, Copy)]
struct IsGivenUp;

impl Rule for IsGivenUp {
    fn holds(&self, alloc: Global, row: &str) -> bool {
        holds_once(alloc, &NO_STRING, &GivesUp(cells_of(row)))
    }
}

#[test]
fn searches_are_given_up(rt: HostRuntime) {
    all_hold(&rt, rt.alloc(), &IsGivenUp, ROWS);
}
