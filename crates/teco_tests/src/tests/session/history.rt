//! Sessions: strings that are undone and redone, and requests that are refused only where memory is.
use super::requests::{Over, Trial, holds_once, ran, turned};
use crate::tests::bytes::{Screen, first_of, is, is_typed, joined};
use crate::tests::rows::{Cells, Rule, all_hold, cells_of};
use crate::tests::store::states::{is_seen, seen};
use std::alloc::Global;
use std::test::*;
use teco_core::NoMemory;
use teco_session::{Answer, Request, Session};

/// The requests of a text, with blanks between them: an undo, a redo, or a string.
fn requests_of(alloc: Global, text: &str) -> Vec<Request> {
    let mut requests = Vec::new(alloc);
    for word in text.split(' ') {
        let request = match first_of(word) {
            b'{' => Request::Undo,
            b'}' => Request::Redo,
            _ => Request::Run(joined(alloc, &[word.as_bytes()])),
        };
        let _ = requests.push(request).is_ok();
    }
    requests
}

/// An input, requests over it, what they type in all, and their answers.
const PLAYS: &str = "
     => } 1=\x1b { { } } => 1\r\n => [NothingToRedo, Ended(Outcome { code: None, steps: 2 }), Undone, NothingToUndo, Redone, NothingToRedo]
    // After an exit no string is begun, until the exit is undone; and a string that is begun then drops what was undone.
    a => YEX 1= { 1= } => 1\r\n => [Ended(Outcome { code: None, steps: 2 }), AfterExit, Undone, Ended(Outcome { code: None, steps: 2 }), NothingToRedo]
    ";

/// A row of them.
#[derive(Clone, Copy)]
struct Play<'a>(Cells<'a>);

impl Trial for Play<'_> {
    /// One answer a request.
    fn holds(&self, alloc: Global, session: &mut Session, term: &mut Screen) -> bool {
        let [_, requests, typed, answers, ..] = self.0;
        let told = match session.play(alloc, &requests_of(alloc, requests), 100, term) {
            Ok(given) => format!(in alloc; "{given:?}"),
            Err(NoMemory) => Err(NoMemory),
        };
        match told {
            Ok(told) => is(&told, answers) && is_typed(term, typed),
            Err(NoMemory) => false,
        }
    }
}

#[derive(Clone, Copy)]
struct Plays;

impl Rule for Plays {
    fn holds(&self, alloc: Global, row: &str) -> bool {
        let cells = cells_of(row);
        holds_once(alloc, &Over::new(cells[0].as_bytes()), &Play(cells))
    }
}

/// Whether a string is undone to the first state, redone to what it left, and undone again.
pub(crate) fn comes_back(
    alloc: Global,
    session: &mut Session,
    first: &[u8],
    text: &[u8],
    term: &mut Screen,
) -> bool {
    let answer = ran(session, text, 1000, term);
    let left = seen(alloc, session.editor());
    !matches!(answer, Answer::NotBegun)
        && turned(session, false).is_none()
        && is_seen(alloc, session.editor(), first)
        && turned(session, true).is_none()
        && is_seen(alloc, session.editor(), &left)
        && turned(session, false).is_none()
}

/// A string that is cut at each of its bytes.
#[derive(Clone, Copy)]
struct Cut<'a>(&'a [u8]);

impl Trial for Cut<'_> {
    /// However it ends it can be undone and redone; where memory was refused, a second time.
    fn holds(&self, alloc: Global, session: &mut Session, term: &mut Screen) -> bool {
        let first = seen(alloc, session.editor());
        let mut held = true;
        for bytes in 0..=self.0.len() {
            let cut = &self.0[..bytes];
            held = (comes_back(alloc, session, &first, cut, term)
                || comes_back(alloc, session, &first, cut, term))
                && held;
        }
        held
    }
}

/// A string and its input, a row each.
#[derive(Clone, Copy)]
struct Cuts;

impl Rule for Cuts {
    fn holds(&self, alloc: Global, row: &str) -> bool {
        let [text, input, ..] = cells_of(row);
        holds_once(alloc, &Over::new(input.as_bytes()), &Cut(text.as_bytes()))
    }
}

const TEXTS: &str = "
    // edits, numbers and blocks
    5J\x1b
    Ihello\x1b0J3C.=\x1b
    2+3*4=\x1b
    2147483647+1=\x1b
    Iab\x1b3D\x1b
    3<Ix\x1b
    (2+3)*(4-1):=\x1b
    -1==\x1b
    Ione\ntwo\n\x1b-LK\x1b
    Ox\x1b0<!x!>\x1b
    Iq7\x1b0J0A\"V^Alower\x01'1A\"D^A digit\x01'\x1b
    Iab-12c\x1b2J\\:=.=\x1b
    Iabcd\x1b3,1K.=\x1b
    0<Ia>b\x1b>Iok\x1b
    1\"G2=|3='4=Ia\x1b5J
    3<Ix\x1b>!x!Ox\x1b
    // registers
    @^UA/^UAy\x1bIx\x1b/MA\x1b
    0UA<!x!%A-3\"LOx\x1b'1;>QA=\x1b
    @^UA/MA/MA\x1b
    65<[A>]A\x1b
    3UA%A=5%A=\x1b
    2147483647UA%A\x1b
    1UA[A2UA]BQA=QB=
    Ione\ntwo\n\x1b-LKHXAGA
    Iab-12c\x1b2J\\UA42\\
    // searches
    Iaaaa\x1b0J<Saa\x1b;%A\x1b>\x1b
    Ixabxab\x1b-2Sab\x1b.=\x1b
    Iab\x1b0J::Sa\x1b=.=\x1b
    Ia1  b\x1b0JS\x05D\x05Sb\x1b.=\x1b
    Icat\x1b0J@FS/a/oa/HT\x1b
    :Sx\x1b=\x1b
    Iab\x1b<Sx\x1b0;>\x1b
    S\x1b
    Iaaa\x1b-2Saa\x1b
    Iabc\x1b0J@S/\x05[c,b]/.=\x1b
    Iab\x1b0JS\x0ea\x1b.=\x1b
    0^XIaBc\x1b0JSbC\x1b.=\x1b
    Iab\x1bJ:SB\x1b=0^X:SB\x1b=\x1b
    1^X\x1b
    0^XIab\x1b0JS\x0eA\x1b.=\x1b
    // over three pages
    YNc\x1bHT\x1b => a\x0cb\x0cc
    Y2P1,0PWEX\x1b => a\x0cb\x0cc
    _a\x1b_b\x1b => a\x0cb\x0cc
    YPEX\x1b => a\x0cb\x0cc
    YY\x1b => a\x0cb\x0cc
    2P\x1b => a\x0cb\x0cc
    Y_b\x1b => a\x0cb\x0cc
    YZ=EX\x1b => a\x0cb\x0cc
    ";

#[test]
fn strings_are_begun_undone_and_redone(rt: HostRuntime) {
    let alloc = rt.alloc();
    all_hold(&rt, alloc, &Plays, PLAYS);
    all_hold(&rt, alloc, &Cuts, TEXTS);
}
