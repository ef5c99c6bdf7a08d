//! Strings made at random, with undo and redo between them: each state that comes back is the one that was seen there before. So it is
//! where the last strings alone are kept, and then no state before them comes back.
use super::requests::{Over, Trial, holds_once, ran_at_last, turned};
use crate::tests::bytes::{Screen, joined, put, wide_screen};
use crate::tests::rows::LINE;
use crate::tests::store::states::{is_seen, seen};
use std::alloc::Global;
use std::test::*;
use teco_session::{Answer, Session};

/// What strings are made of: edits, searches, pages and registers, a row each.
const PARTS: &str = "
    Ia\x1b
    Iab c\x1b
    I\nx\x1b
    \tq\x1b
    10I
    @I/yz/
    -12\\
    2<Ix\x1b>
    J
    ZJ
    C
    2R
    L
    -L
    .=
    0TT
    D
    -2D
    K
    0K
    1,3K
    ZJGC
    1A=
    Z\"GD|Ie\x1b'
    Sa\x1b
    :Sb\x1b
    -Sc\x1b
    ::Sx\x1b
    S\x1b
    2Sa\x1b
    S\x0ea\x1b
    <Sx\x1b;D>
    FSa\x1bxy\x1b
    :FSb\x1b\x1b
    @FS/c/dd/
    ::FSa\x1bb\x1b
    0^X
    -1^X
    :S\x1b=
    SA\x1b
    A
    Y
    HKY
    P
    PW
    0,1PW
    Nb\x1b
    :Nq\x1b
    _c\x1b
    HK_b\x1b
    EX
    XC
    0,4XA
    GA
    GB
    ^UBabc\x1b
    @^UA/Ix\x1b2%D/
    MA
    7UA
    -5%DUB
    [A
    [B
    ]A
    3<]C>
    ";

/// What was seen of a session before and after each string that it keeps, how many states those are at most, and what the next string is
/// made by.
#[derive(Drop)]
struct Course {
    states: Vec<Vec<u8>>,
    most: usize,
    seed: u32,
}

/// The next number that is made.
pub(crate) fn roll(seed: &mut u32) -> usize {
    *seed = seed.wrapping_mul(1664525).wrapping_add(1013904223);
    (*seed >> 16) as usize
}

/// A string of one to four parts, each in a row from 0 to 63.
pub(crate) fn made(alloc: Global, seed: &mut u32) -> Vec<u8> {
    let mut text = Vec::new(alloc);
    for _ in 0..=roll(seed) % 4 {
        let row = roll(seed) % 64;
        if let Some(part) = PARTS.split(LINE).nth(row + 1) {
            put(&mut text, part.as_bytes());
        }
    }
    text
}

/// Keeps the state that is seen, after so many that stay, and drops the first one where it would be one too many. Where memory was
/// refused for that, it is asked for a second time.
fn keep(alloc: Global, session: &Session, course: &mut Course, stay: usize) -> bool {
    course.states.truncate(stay);
    let _ = course.states.reserve(1).is_ok() || course.states.reserve(1).is_ok();
    let is_kept = course.states.push(seen(alloc, session.editor())).is_ok();
    if course.states.len() > course.most {
        course.states.remove(0);
    }
    is_kept
}

fn is_as_before(alloc: Global, session: &Session, course: &Course) -> bool {
    match course.states.get(session.cursor()) {
        Some(before) => is_seen(alloc, session.editor(), before),
        None => false,
    }
}

/// Runs a string that is made. The state after it is kept; where it is not begun, the state stays.
fn runs(alloc: Global, session: &mut Session, course: &mut Course) -> bool {
    let stay = session.cursor().saturating_add(1);
    let text = made(alloc, &mut course.seed);
    let mut term = wide_screen(alloc);
    let answer = ran_at_last(session, &text, 200, &mut term);
    let is_kept = !matches!(answer, Answer::Ended(_)) || keep(alloc, session, course, stay);
    is_kept && is_as_before(alloc, session, course)
}

/// A redo or an undo, which is done or refused as is wanted, and leaves a state that was seen before.
fn turns(alloc: Global, session: &mut Session, course: &Course, forth: bool, wanted: bool) -> bool {
    turned(session, forth).is_none() == wanted && is_as_before(alloc, session, course)
}

/// Up to three of them.
fn turns_some(alloc: Global, session: &mut Session, course: &mut Course) -> bool {
    let mut held = true;
    for _ in 0..roll(&mut course.seed) % 4 {
        let forth = roll(&mut course.seed) % 2 == 1;
        let end = if forth { session.strings() } else { 0 };
        let wanted = session.cursor() != end;
        held = turns(alloc, session, course, forth, wanted) && held;
    }
    held
}

/// All are undone, and then redone, and one redo more is refused.
fn turns_all(alloc: Global, session: &mut Session, course: &Course) -> bool {
    let mut held = true;
    for _ in 0..session.cursor() {
        held = turns(alloc, session, course, false, true) && held;
    }
    held = session.cursor() == 0 && held;
    for _ in 0..session.strings() {
        held = turns(alloc, session, course, true, true) && held;
    }
    held && turned(session, true).is_some()
}

/// Each state comes back, where a thousand strings are run and at most so many states are kept.
#[derive(Clone, Copy)]
struct Thousand {
    most: usize,
}

impl Trial for Thousand {
    fn holds(&self, alloc: Global, session: &mut Session, _term: &mut Screen) -> bool {
        let mut course = Course {
            states: Vec::new(alloc),
            most: self.most,
            seed: 1,
        };
        let mut held = keep(alloc, session, &mut course, 0);
        for _ in 0..1000 {
            held = runs(alloc, session, &mut course)
                && turns_some(alloc, session, &mut course)
                && held;
        }
        held && turns_all(alloc, session, &course)
    }
}

/// Whether they come back over pages, where so many strings are kept, if that is said.
fn come_back(alloc: Global, depth: Option<usize>, most: usize) -> bool {
    let page: &[u8] = b"one a\ntwo b c\n\nthree\nfour a b\n\x0c";
    let pages = joined(alloc, &[page; 80]);
    let over = Over {
        input: &pages,
        page_lines: 0,
        depth,
    };
    holds_once(alloc, &over, &Thousand { most })
}

/// Also where the last three strings are kept.
#[test]
fn random_strings_come_back(rt: HostRuntime) {
    assert!(rt; come_back(rt.alloc(), None, usize::MAX) && come_back(rt.alloc(), Some(3), 4));
}
