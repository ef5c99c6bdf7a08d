//! Streams on a terminal that fails after so many bytes, and from a source that does.
use super::{Counting, served_by, source_of};
use crate::tests::bytes::{Screen, are, put, screen_of, shown_on};
use crate::tests::rows::{Rule, all_hold, cells_of};
use crate::tests::session::requests::{Over, Trial, holds_in, holds_once, ran, turned};
use crate::tests::store::states::{is_seen, seen};
use std::alloc::Global;
use std::test::*;
use teco_io::{MemorySource, Source};
use teco_serve::Served;
use teco_session::Session;

/// Three pages.
const INPUT: &[u8] = b"a\x0cb\x0cc";

/// Streams over the three pages, where `$` is ESC, and what they type.
const ROWS: &str = "
    1=2=$$ => 1\r\n2\r\n
    Ihello$0J3C.=$${$$.=Z=$$ => 3\r\n0\r\n0\r\n
    Iab$3D$${$$}$$HT.=$$ => ?DTB\r\nab2\r\n
    Icat$0J@FS/a/oa/HT$$HT.=$$ => coatcoat3\r\n
    YNc$$HT.=$${$$.=Z=$$ => c1\r\n1\r\n1\r\n
    Iaaaa$0J<Saa$;%A$>$$12~$$QA=.=$$ => 2\r\n4\r\n
    3{$$2}$$1=$$~$$}$$ => ?NTU\r\n?NTR\r\n1\r\n?NTR\r\n
    ";

fn undo_strings(session: &mut Session, count: usize) {
    for _ in 0..count {
        let _ = turned(session, false);
    }
}

/// The strings of a session, each run under the limit of the steps that it took, give its state in another once those that are undone are
/// undone there.
#[derive(Clone, Copy)]
struct WholeSteps<'a>(&'a Session);

impl Trial for WholeSteps<'_> {
    fn holds(&self, alloc: Global, other: &mut Session, term: &mut Screen) -> bool {
        let session = self.0;
        for at in 0..session.strings() {
            let _ = ran(other, session.string(at), session.steps(at), term);
        }
        undo_strings(other, session.strings() - session.cursor());
        is_seen(alloc, other.editor(), &seen(alloc, session.editor()))
    }
}

/// Whether a serving on a terminal that takes so many bytes shows those of what is to be typed, and ends so. All that was done is heard,
/// also where its answer can't be shown.
fn is_shown(
    alloc: Global,
    source: &mut MemorySource,
    session: &mut Session,
    typed: &[u8],
    room: usize,
) -> bool {
    let wanted = if room < typed.len() {
        Served::ShowFault
    } else {
        Served::EndOfCommands
    };
    let mut term = screen_of(alloc, room);
    let mut listener = Counting { strings: 0 };
    let served = served_by(
        alloc,
        source,
        session,
        1000,
        false,
        &mut term,
        &mut listener,
    );
    served == wanted
        && are(shown_on(&term), &typed[..room.min(typed.len())])
        && listener.strings == session.cursor() as u64
}

/// A stream and what it types, on a terminal that takes so many bytes.
#[derive(Clone, Copy)]
struct Shown<'a>(&'a [u8], &'a [u8], usize);

impl Trial for Shown<'_> {
    /// The session then has the state of its whole steps, and the first one once all is undone.
    fn holds(&self, alloc: Global, session: &mut Session, _term: &mut Screen) -> bool {
        let Shown(stream, typed, room) = *self;
        let first = seen(alloc, session.editor());
        let mut source = source_of(alloc, stream, false, false);
        let is_so = is_shown(alloc, &mut source, session, typed, room)
            && holds_once(alloc, &Over::new(INPUT), &WholeSteps(session));
        undo_strings(session, session.cursor());
        is_so && is_seen(alloc, session.editor(), &first)
    }
}

/// The state that is left by these bytes in single bytes, or as one piece before a failed read, and what is typed behind it. It is empty
/// where serving them ends in another way.
fn left_by(
    alloc: Global,
    session: &mut Session,
    stream: &[u8],
    single: bool,
    term: &mut Screen,
) -> Vec<u8> {
    let wanted = if single {
        Served::EndOfCommands
    } else {
        Served::ReadFault
    };
    let mut source = source_of(alloc, stream, single, !single);
    let mut listener = Counting { strings: 0 };
    let served = served_by(
        alloc,
        &mut source,
        session,
        1000,
        false,
        term,
        &mut listener,
    );
    let mut left = seen(alloc, session.editor());
    put(&mut left, shown_on(term));
    if served != wanted {
        left.truncate(0);
    }
    left
}

/// A source that ends after these bytes leaves this.
#[derive(Clone, Copy)]
struct Ended<'a>(&'a [u8], &'a [u8]);

impl Trial for Ended<'_> {
    fn holds(&self, alloc: Global, session: &mut Session, term: &mut Screen) -> bool {
        are(&left_by(alloc, session, self.0, true, term), self.1)
    }
}

/// A source that fails after these bytes is served as one that ends after them.
#[derive(Clone, Copy)]
struct Failed<'a>(&'a [u8]);

impl Trial for Failed<'_> {
    fn holds(&self, alloc: Global, session: &mut Session, term: &mut Screen) -> bool {
        let left = left_by(alloc, session, self.0, false, term);
        !left.is_empty() && holds_once(alloc, &Over::new(INPUT), &Ended(self.0, &left))
    }
}

#[derive(Clone, Copy)]
struct Failures;

impl Rule for Failures {
    /// A beginning is shown where a put fails, and what comes before a failed read is served, wherever that is.
    fn holds(&self, alloc: Global, row: &str) -> bool {
        let [stream, typed, ..] = cells_of(row);
        let (stream, typed) = (stream.as_bytes(), typed.as_bytes());
        let over = Over::new(INPUT);
        let mut held = true;
        for room in 0..=typed.len() {
            held = holds_once(alloc, &over, &Shown(stream, typed, room)) && held;
        }
        for read in 0..=stream.len() {
            held = holds_once(alloc, &over, &Failed(&stream[..read])) && held;
        }
        held
    }
}

/// Each request is done before the next read: where the first cannot be shown, the byte after it is still to come.
#[derive(Clone, Copy)]
struct Unread;

impl Trial for Unread {
    fn holds(&self, alloc: Global, session: &mut Session, _term: &mut Screen) -> bool {
        let mut next = [0];
        let mut source = source_of(alloc, b"1=$$2=$$", true, false);
        is_shown(alloc, &mut source, session, b"1", 0)
            && session.strings() == 1
            && matches!(source.read(&mut next), Ok(1))
            && next[0] == b'2'
    }
}

/// And nothing is read further than is shown.
#[test]
fn serves_up_to_a_failure(rt: HostRuntime) {
    all_hold(&rt, rt.alloc(), &Failures, ROWS);
    assert!(rt; holds_in(rt.alloc(), &Over::new(b""), &Unread));
}
