//! Of teco_replay: what was done to a session is written as lines, which are read and done again over the same input.
use super::assert_of;
use super::bytes::{Screen, are, is, joined, screen_of, wide_screen};
use super::rows::{LINE, Rule, all_hold, cells_of, halves_at, is_row, number_or};
use super::session::random::{made, roll};
use super::session::requests::{Over, Trial, holds_in, ran_at_last, turned};
use super::store::states::{is_seen, seen};
use std::alloc::Global;
use std::test::*;
use teco_core::{DEPTH_LIMIT, FILE_LIMIT, Profile};
use teco_journal::{CHECK_LENGTH, Ending, Record, push_record, read_journal};
use teco_replay::{ReplayFault, records_of, resume};
use teco_session::{Answer, Session};
use teco_store::Desk;

/// The check before the first line.
const FIRST: [u8; CHECK_LENGTH] = *b"0123456789abcdef";

/// What a session is over, and what is done to it, a row each: `{` undoes a string, `}` redoes one, `~` goes back to before the first step
/// and `~1` to after it, and `!` drops what is undone. Any other row is a string, with its limit and the bytes that its terminal takes.
const LIVES: &str = "
    over one dog\nthree dogs\n\x0ctwo cats\n
    Y
    <FSdog\x1bcat\x1b;>
    // ends by SRH, by LIM, and by TTY
    Ia\x1bSnowhere\x1b
    <Ib\x1b> => 7
    1=Ic\x1b2=Id\x1b => => 4
    HXAHK
    {
    {
    }
    ~123
    {
    !
    }
    EX
    over one\ntwo\n
    // an exit that is undone, strings that are not begun, and strings that can be redone
    EX
    1=
    {
    Y
    {
    }
    Ia\x1b
    Ib\x1b
    ~
    Ic\x1b
    {
    {
    ";

/// What was done to a session, as lines.
#[derive(Drop)]
struct Lines {
    bytes: Vec<u8>,
    check: [u8; CHECK_LENGTH],
}

impl Lines {
    fn new(alloc: Global) -> Lines {
        Lines {
            bytes: Vec::new(alloc),
            check: FIRST,
        }
    }

    /// Puts a line, at once or after a refusal.
    fn put(&mut self, told: &Record) -> bool {
        push_record(&mut self.bytes, &mut self.check, told).is_ok()
            || push_record(&mut self.bytes, &mut self.check, told).is_ok()
    }
}

/// Does to a session what a row of the table says, and gives its record, if it did something.
fn done(
    alloc: Global,
    session: &mut Session,
    request: &[u8],
    limit: u64,
    term: &mut Screen,
) -> Option<Record> {
    match request {
        [b'{'] if turned(session, false).is_none() => Some(Record::Undo),
        [b'}'] if turned(session, true).is_none() => Some(Record::Redo),
        [b'{'] | [b'}'] => None,
        [b'~', steps @ ..] => match session.rewind(steps.len() as u64) {
            Ok(()) => Some(Record::Rewind(steps.len() as u64)),
            Err(_) => None,
        },
        [b'!'] => {
            session.forget();
            Some(Record::Forget)
        }
        text => match ran_at_last(session, text, limit, term) {
            Answer::Ended(outcome) => Some(Record::Run {
                steps: outcome.steps,
                text: joined(alloc, &[text]),
            }),
            _ => None,
        },
    }
}

/// The session that lines tell, over this, on a terminal that takes so many bytes.
fn resumed(alloc: Global, over: &Over, lines: &[u8], room: usize) -> Result<Session, ReplayFault> {
    let Ok(journal) = read_journal(alloc, FIRST, lines) else {
        return Err(ReplayFault::Memory);
    };
    if journal.ending != Ending::Whole {
        return Err(ReplayFault::Wrong);
    }
    let mut input = joined(alloc, &[over.input]);
    input.truncate(FILE_LIMIT);
    let depth = match over.depth {
        Some(depth) => Some(depth.min(DEPTH_LIMIT)),
        None => None,
    };
    let mut term = screen_of(alloc, room);
    resume(
        Profile::Named,
        input,
        over.page_lines,
        depth,
        &journal.records,
        &mut term,
    )
}

/// Whether two sessions are in the same state.
fn look_alike(alloc: Global, one: &Session, two: &Session) -> bool {
    is_seen(alloc, two.editor(), &seen(alloc, one.editor()))
}

/// Whether the other session has the same strings, with the same steps, of which as many are undone, behind so many older ones.
fn have_same_strings(one: &Session, two: &Session, older: usize) -> bool {
    let strings = one.strings();
    if two.strings() < older || two.cursor() < older {
        return false;
    }
    if strings != two.strings() - older || one.cursor() != two.cursor() - older {
        return false;
    }
    for i in 0..strings {
        let at = i + older;
        if one.steps(i) != two.steps(at) || !are(one.string(i), two.string(at)) {
            return false;
        }
    }
    true
}

/// Whether they are alike after each of so many undos or redos.
fn turn_alike(
    alloc: Global,
    one: &mut Session,
    two: &mut Session,
    forth: bool,
    times: usize,
) -> bool {
    let mut alike = true;
    for _ in 0..times {
        alike = turned(one, forth).is_none()
            && turned(two, forth).is_none()
            && look_alike(alloc, one, two)
            && alike;
    }
    alike
}

/// Whether all of them is alike: the strings, and each state that can be gone back to or forth. The other one has so many older strings.
/// Both are as before then.
fn are_alike(alloc: Global, one: &mut Session, two: &mut Session, older: usize) -> bool {
    let (back, forth) = (one.cursor(), one.strings());
    have_same_strings(one, two, older)
        && look_alike(alloc, one, two)
        && turn_alike(alloc, one, two, false, back)
        && turn_alike(alloc, one, two, true, forth)
        && turn_alike(alloc, one, two, false, forth - back)
}

/// Whether the session that lines tell is like this one.
fn is_resumed(alloc: Global, over: &Over, lines: &[u8], lived: &mut Session) -> bool {
    match resumed(alloc, over, lines, 10_000) {
        Ok(mut again) => are_alike(alloc, lived, &mut again, 0),
        Err(_) => false,
    }
}

/// What a session needs, as lines, if they are as many as its strings and undos.
fn needed(alloc: Global, session: &Session) -> Option<Lines> {
    let Ok(records) = records_of(alloc, session) else {
        return None;
    };
    let mut lines = Lines::new(alloc);
    let undone = session.strings() - session.cursor();
    let mut held = records.len() >= undone && records.len() - undone == session.strings();
    for told in records.as_slice() {
        held = lines.put(told) && held;
    }
    if held { Some(lines) } else { None }
}

/// Whether what is needed of these lines, of all strings and without a depth, tells a session like this one. With a depth it may have
/// older strings.
fn is_pruned(alloc: Global, over: &Over, lines: &[u8], lived: &mut Session) -> bool {
    let whole = Over {
        depth: None,
        ..*over
    };
    let Ok(all) = resumed(alloc, &whole, lines, 10_000) else {
        return false;
    };
    let Some(few) = needed(alloc, &all) else {
        return false;
    };
    let Ok(mut again) = resumed(alloc, over, &few.bytes, 10_000) else {
        return false;
    };
    if again.strings() < lived.strings() {
        return false;
    }
    let older = again.strings() - lived.strings();
    (older == 0 || over.depth.is_some())
        && few.bytes.len() <= lines.len()
        && are_alike(alloc, lived, &mut again, older)
}

/// What is done to a session over this: rows of the table.
#[derive(Clone, Copy)]
struct Life<'a> {
    over: Over<'a>,
    rows: &'a str,
}

impl Trial for Life<'_> {
    fn holds(&self, alloc: Global, session: &mut Session, _term: &mut Screen) -> bool {
        let mut lines = Lines::new(alloc);
        let mut held = true;
        for row in self.rows.split(LINE) {
            if is_row(row) {
                let [request, limit, room, ..] = cells_of(row);
                let mut term = screen_of(alloc, number_or(room, 100) as usize);
                let limit = number_or(limit, 1000);
                if let Some(told) = done(alloc, session, request.as_bytes(), limit, &mut term) {
                    held = lines.put(&told) && held;
                }
            }
        }
        held && is_resumed(alloc, &self.over, &lines.bytes, session)
            && is_pruned(alloc, &self.over, &lines.bytes, session)
    }
}

#[test]
fn sessions_are_resumed(rt: HostRuntime) {
    let alloc = rt.alloc();
    for life in LIVES.split("\n    over ") {
        let (input, rows) = halves_at(life, LINE);
        let over = Over::new(input.as_bytes());
        assert_of(&rt, life, holds_in(alloc, &over, &Life { over, rows }));
    }
}

/// Thirty requests that are made: most are strings under limits of 1 to 50. What they did is done again whole, or as it is needed.
#[derive(Clone, Copy)]
struct MadeLife<'a> {
    over: Over<'a>,
    seed: u32,
    pruned: bool,
}

impl Trial for MadeLife<'_> {
    fn holds(&self, alloc: Global, session: &mut Session, term: &mut Screen) -> bool {
        let mut lines = Lines::new(alloc);
        let mut seed = self.seed;
        let mut held = true;
        for _ in 0..30 {
            let limit = (roll(&mut seed) % 50) as u64 + 1;
            let request = match roll(&mut seed) % 12 {
                0 | 1 => joined(alloc, &[b"{"]),
                2 => joined(alloc, &[b"}"]),
                3 => joined(alloc, &[&b"~12345"[..1 + limit as usize % 6]]),
                4 => joined(alloc, &[b"!"]),
                _ => made(alloc, &mut seed),
            };
            if let Some(told) = done(alloc, session, &request, limit, term) {
                held = lines.put(&told) && held;
            }
        }
        let again = if self.pruned {
            is_pruned(alloc, &self.over, &lines.bytes, session)
        } else {
            is_resumed(alloc, &self.over, &lines.bytes, session)
        };
        held && again
    }
}

/// Whether a session that is made of a number is resumed: each third one keeps its last three strings, and each second one has pages of
/// two lines.
fn made_life_is_resumed(alloc: Global, seed: u32, pruned: bool) -> bool {
    let over = Over {
        input: b"one a\ntwo b c\n\nthree\nfour a b\n\x0cfive\nsix c a\n\x0cseven\n",
        page_lines: if seed % 2 == 0 { 0 } else { 2 },
        depth: if seed % 3 == 0 { Some(3) } else { None },
    };
    holds_in(alloc, &over, &MadeLife { over, seed, pruned })
}

#[test]
fn random_sessions_are_resumed(rt: HostRuntime) {
    for seed in 0..200 {
        assert!(rt; made_life_is_resumed(rt.alloc(), seed, false), "{seed}");
    }
}

#[test]
fn random_sessions_are_pruned(rt: HostRuntime) {
    for seed in 200..240 {
        assert!(rt; made_life_is_resumed(rt.alloc(), seed, true), "{seed}");
    }
}

/// Lines, what becomes of them over an input of one line, and what the terminal takes. The checks are those of another program.
const REFUSED: &str = "
    - // what happened
    - f69c09399be43839 run 1 Y\n86dfb1e815c046e1 undo\n76ee20d44a8b25fb redo\ncede196df5fe57d0 rewind 1\n => done
    - // one step more than the string takes
    - cf4aad5b2f5fdf4f run 2 Y\n => wrong
    - // an undo, a redo and a rewind of nothing
    - d4a5323164113ca6 undo\n => wrong
    - f69c09399be43839 run 1 Y\n86dfb1e815c046e1 undo\n6c5b648dd0110355 undo\n => wrong
    - adc2fe865ff76556 redo\n => wrong
    - 843c59a04d2ce81b rewind 0\n => wrong
    - // a string after an exit
    - 5460e9ac48931ddf run 1 EX\n6264acfc3ae04fee run 1 Y\n => wrong
    - // a terminal that fails
    - 6de414f26959448d run 2 1=\n => terminal => 2
    - 6de414f26959448d run 2 1=\n => done => 3";

struct Refuses;

impl Rule for Refuses {
    fn holds(&self, alloc: Global, row: &str) -> bool {
        let [lines, fate, room, ..] = cells_of(row);
        let over = Over::new(b"one\n");
        let found = match resumed(
            alloc,
            &over,
            lines.as_bytes(),
            number_or(room, 100) as usize,
        ) {
            Ok(_) => "done",
            Err(ReplayFault::Memory) => "memory",
            Err(ReplayFault::Terminal) => "terminal",
            Err(ReplayFault::Wrong) => "wrong",
        };
        is(found, fate)
    }
}

#[test]
fn wrong_records_are_refused(rt: HostRuntime) {
    all_hold(&rt, rt.alloc(), &Refuses, REFUSED);
}
