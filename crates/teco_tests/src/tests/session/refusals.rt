//! Strings of which a growth is refused, and strings that ask for none. Nothing here is tried a second time but what is made ready: where
//! `rt try --test --fail-alloc N` refuses a growth, a string ends as a limit of its steps would end it, and one that asks for none as ever.
use super::requests::{Over, Trial, holds_once, ran, ran_at_last, turned};
use crate::tests::assert_of;
use crate::tests::bytes::{Screen, are, shown_on, wide_screen};
use crate::tests::exec::strings::is_code;
use crate::tests::rows::{Cells, LINE, cells_of, is_row};
use crate::tests::store::states::{is_seen, seen};
use std::alloc::Global;
use std::process::Abort;
use std::test::*;
use teco_core::Code;
use teco_exec::Outcome;
use teco_session::{Answer, Session};

/// The limit of steps.
const LIMIT: u64 = 1000;

/// A string, its input, the letters of the code by which it ends, if it ends by one, and a string that is run before it.
const ROWS: &str = "
    // Texts are put in: a byte, few bytes, many, and so many that the text has to grow at each.
    Ia\x1b
    Iab\x1b-D
    Iabcdefghijklmnopqrstuvwxyz0123456789abcdefghijklmnopqrstuvwxyz\x1bJ30D
    8<Iabcdefghijklmnopqrstuvwxyz0123456789abcdefghijklmnopqrstuvwxyz\x1b>J3KHK
    65I\x1b-12\\\tx\x1b
    // Changes of 12 bytes, many of them, and one that is held apart between them.
    1UA%A\x1b%A\x1bQA=2JIx\x1bJD0^X-1^X => => => Iabc\x1b
    J40<%A\x1bCIx\x1bJ-1%A> => => => Iabc\x1b
    40<%A>@^UA/xy/40<%A>
    // Searches: as they stand, by a pattern, in either case, backward, more than once, and one that finds nothing.
    JSdog\x1bSdog\x1b => => => Ia dog, a dog\x1b
    J<Sa\x1b;%A>=.= => => NAE => Ia dog, a cat\x1b
    J<Sa\x1b;%A>.= => => => Ia dog, a cat\x1b
    JS\x05D\x1b.= => => => Ia1b2\x1b
    J2Sdog\x1b-Sdog\x1b.= => => => Ia dog, a dog\x1b
    0^XJSDOG\x1bJS1-2\x1b => => => Ia dog 1-2\x1b
    J:Scow\x1b=Scow\x1b => => SRH => Ia dog\x1b
    J::Sa\x1b=::S\x1b=S\x1b => => SRH => Iaa\x1b
    // Replacements: of as many bytes, of more, of fewer, and of a pattern.
    JFSdog\x1bcat\x1b@FS//elephant/ => => => Ia dog, a dog\x1b
    J<FSa\x1babcdefghijklmnopqrstuvwxyz\x1b;> => => => Iaaaa\x1b
    JFS\x05D\x1b\x1bHT => => => Ia1b2\x1b
    // Registers: a text, a part of the text, what is got, what is pushed and popped, and what calls.
    @^UA/abcdefghijklmnopqrstuvwxyz/GA
    HXAJGAHXB => => => Ione\ntwo\x1b
    @^UA/abc/[A^UAde\x1b]A]B => => CPQ
    20<[A>20<]A> => => => @^UA/abcdefghijklmnop/
    @^UA/Ix\x1b/MAMA
    @^UA/^UAy\x1bIx\x1b/MA
    @^UA/QB-9\"L%B\x1bMA'/MA
    // Blocks, tags and jumps.
    3<2<1\"G%A|%B'>>
    !a!%A-9\"LOa\x1b'Ob\x1bIx\x1b!b!
    1<1<1<1<1<1<1<1<1<Ob\x1b!b!>>>>>>>>>
    // Pages and the output.
    YHTPIx\x1bP => a\x0cb\x0cc
    YAAZJ-2D => a\x0cb\x0cc
    YIx\x1bPW2P => a\x0cb\x0cc
    YNc\x1b_a\x1b => a\x0cb\x0cc => SRH
    Y0,1PWEX => a\x0cb\x0cc => EX
    ";

/// Strings that ask for no growth in a session that keeps none: a string, its input, the letters of its code, and a string before it.
const FREE: &str = "
    // The pointer, lines, numbers and tests.
    JCRL-L0L2L.=Z= => => => Ione\ntwo\nthree\nfour\x1b
    JC99C => => POP => Ione\ntwo\x1b
    1+2*3=(4-1)*2==-5:=
    3UA%A\x1b5%A\x1b-1%A\x1bQA=
    // Searches as they stand, whose text is the last one already, which stays.
    JSdog\x1b.=Sdog\x1b.= => => => Ia dog, a dog\x1bJSdog\x1b
    JS\x1b.=S\x1b.= => => => Ia dog, a dog\x1bJSdog\x1b
    J:Scow\x1b=:S\x1b= => => => Ia dog\x1b:Scow\x1b
    JSdog\x1bSdog\x1bSdog\x1b => => SRH => Ia dog, a dog\x1bJSdog\x1b
    J1Sdog\x1b1:S\x1b= => => => Ia dog, a dog\x1bJSdog\x1b
    JS1-2\x1b.=:S\x1b=.= => => => 0^XI1-2 1-2\x1bJS1-2\x1b
    JSé-1\x1b.= => => => 0^XIé-1\x1bJSé-1\x1b
    // What takes bytes out, and types.
    JD2DHTK => => => Ione\ntwo\nthree\x1b
    ";

/// Runs what is before a string, and tells whether that found its memory: a growth that is refused there is refused nowhere else.
fn is_ready(alloc: Global, session: &mut Session, before: &str) -> bool {
    let mut term = wide_screen(alloc);
    ran_at_last(session, before.as_bytes(), LIMIT, &mut term).code() != Some(Code::Mem)
}

/// A session that was run as far as its string is done, and what its terminal shows.
#[derive(Clone, Copy)]
struct AsLimited<'a> {
    tried: &'a Session,
    term: &'a Screen,
    cells: &'a Cells<'a>,
    steps: u64,
}

impl Trial for AsLimited<'_> {
    /// The same string is run under a limit of those steps, and leaves the same.
    fn holds(&self, alloc: Global, session: &mut Session, term: &mut Screen) -> bool {
        let ready = is_ready(alloc, session, self.cells[3]);
        let code = ran_at_last(session, self.cells[0].as_bytes(), self.steps, term).code();
        ready
            && is_code(code, "LIM")
            && is_seen(alloc, session.editor(), &seen(alloc, self.tried.editor()))
            && are(shown_on(term), shown_on(self.term))
    }
}

/// Whether a string is answered as its row says, or has done nothing, or just its whole steps.
fn is_answered(
    alloc: Global,
    cells: &Cells,
    session: &Session,
    answer: Answer,
    first: &[u8],
    term: &Screen,
) -> bool {
    match answer {
        Answer::NotBegun => is_seen(alloc, session.editor(), first),
        Answer::Ended(
            Outcome {
                code: Some(Code::Mem),
                steps,
            },
        ) => {
            let limited = AsLimited {
                tried: session,
                term,
                cells,
                steps,
            };
            holds_once(alloc, &Over::new(cells[1].as_bytes()), &limited)
        }
        answer => is_code(answer.code(), cells[2]),
    }
}

/// Whether the last string is undone, redone and undone: each state is as it was.
fn turns(alloc: Global, session: &mut Session, first: &[u8]) -> bool {
    let left = seen(alloc, session.editor());
    turned(session, false).is_none()
        && is_seen(alloc, session.editor(), first)
        && turned(session, true).is_none()
        && is_seen(alloc, session.editor(), &left)
        && turned(session, false).is_none()
        && is_seen(alloc, session.editor(), first)
}

/// A row, whose string is run once, and if it asks for no growth.
#[derive(Clone, Copy)]
struct Once<'a> {
    cells: Cells<'a>,
    is_free: bool,
}

impl Trial for Once<'_> {
    fn holds(&self, alloc: Global, session: &mut Session, term: &mut Screen) -> bool {
        let cells = &self.cells;
        if !is_ready(alloc, session, cells[3]) {
            return true;
        }
        if self.is_free {
            return is_code(
                ran(session, cells[0].as_bytes(), LIMIT, term).code(),
                cells[2],
            );
        }
        let first = seen(alloc, session.editor());
        let answer = ran(session, cells[0].as_bytes(), LIMIT, term);
        is_answered(alloc, cells, session, answer, &first, term)
            && (matches!(answer, Answer::NotBegun) || turns(alloc, session, &first))
    }
}

/// Each row of a table holds at once, in a session that keeps so many strings, if that is said; with none it asks for no growth.
fn each_holds(rt: &impl Abort, alloc: Global, table: &str, depth: Option<usize>) {
    for row in table.split(LINE) {
        let cells = cells_of(row);
        let over = Over {
            input: cells[1].as_bytes(),
            page_lines: 0,
            depth,
        };
        let is_free = depth.is_some();
        let held = !is_row(row) || holds_once(alloc, &over, &Once { cells, is_free });
        assert_of(rt, row, held);
    }
}

#[test]
fn refused_strings_leave_whole_steps(rt: HostRuntime) {
    each_holds(&rt, rt.alloc(), ROWS, None);
}

#[test]
fn strings_without_growths_are_not_refused(rt: HostRuntime) {
    each_holds(&rt, rt.alloc(), FREE, Some(0));
}
