//! What is typed and written at streams of commands, and how serving them ends.
use super::Ticking;
use crate::tests::bytes::{Screen, has, is, joined, shown_on};
use crate::tests::rows::{Cells, Rule, all_hold, cells_of, number_or};
use crate::tests::session::requests::{Over, Trial, holds_once};
use crate::tests::step::failed_searches;
use std::alloc::Global;
use std::test::*;
use teco_cli::Line;
use teco_core::Code;
use teco_io::MemorySource;
use teco_journal::Entry;
use teco_serve::{Bounds, ClockAlarm, Fate, Listens, Manner, Served, Settings, serve};
use teco_session::{Answered, Session};
use teco_store::Desk;

/// The bytes of a stream, where `$` is ESC and a backquote the byte 5.
fn bytes_of(alloc: Global, stream: &[u8]) -> Vec<u8> {
    let mut bytes = joined(alloc, &[stream]);
    for byte in bytes.iter_mut() {
        match *byte {
            b'$' => *byte = 27,
            b'`' => *byte = 5,
            _ => {}
        }
    }
    bytes
}

/// A stream as one piece, or in single bytes. Where memory was refused, it is asked for a second time.
fn source_of(alloc: Global, stream: &[u8], single: bool, fails: bool) -> MemorySource {
    let mut cuts = Vec::new(alloc);
    let end = if single { stream.len() } else { 0 };
    for cut in 1..end {
        let _ = cuts.push(cut).is_ok() || cuts.push(cut).is_ok();
    }
    MemorySource::new(bytes_of(alloc, stream), cuts, fails)
}

/// Counts the strings that are not undone, by what it hears before an answer is shown.
#[derive(Clone, Copy)]
struct Counting {
    strings: u64,
}

impl Listens for Counting {
    ghost hears = { λ _ _ _. Unit {0} };

    fn wants_place(&self) -> bool {
        false
    }

    fn did(&mut self, entry: Entry<'_>) {
        self.strings = match entry {
            Entry::Run { .. } | Entry::Redo => self.strings.saturating_add(1),
            Entry::Undo => self.strings.saturating_sub(1),
            Entry::Rewind(_) => self.strings,
        };
    }

    fn ran(
        &mut self,
        _text: &[u8],
        _begins: u64,
        _answered: &Answered,
        _bounds: Bounds,
        _session: &Session,
    ) {}

    fn moved(&mut self, _begins: u64, _code: Option<Code>, _session: &Session) {}

    fn left(&mut self, _bytes: &[u8], _broken_off: bool) {}

    fn ended(&mut self, _line: &Line, _input: &str, _fate: Fate) {}
}

/// Serves a source, with so many steps for each string.
fn served_by(
    alloc: Global,
    source: &mut MemorySource,
    session: &mut Session,
    steps: u64,
    prompt: bool,
    term: &mut Screen,
    listener: &mut Counting,
) -> Served {
    let settings = Settings {
        bounds: Bounds {
            steps,
            seconds: None,
        },
        manner: Manner {
            prompt,
            shows_codes: true,
        },
    };
    let clock = Ticking::new();
    let alarm = &mut ClockAlarm::new(&clock);
    serve(alloc, source, session, settings, alarm, term, listener)
}

/// Whether the bytes are this text, but for those that it doesn't tell.
fn are_told(bytes: &[u8], text: &str, untold: &[u8]) -> bool {
    let mut left = text.as_bytes();
    for byte in bytes {
        if untold.contains(byte) {
            continue;
        }
        match left {
            [first, rest @ ..] if first == byte => left = rest,
            _ => return false,
        }
    }
    left.is_empty()
}

/// Whether a session has the row's output and notes so many strings, if that is said.
fn is_left(session: &Session, cells: &Cells) -> bool {
    let strings = session.strings() as u64;
    (is(cells[2], "?") || session.editor().output().are(cells[2].as_bytes()))
        && number_or(cells[7], strings) == strings
}

/// How serving a row's stream ends, by what is said of its end.
fn end_of(said: &str) -> Served {
    if has(said, "exit") {
        Served::Exit
    } else if has(said, "fails") {
        Served::ReadFault
    } else {
        Served::EndOfCommands
    }
}

/// A row that is served as one piece or in single bytes.
///
/// It is a stream, what it types, the output, where a question mark says nothing of it, and the input; words that say whether there is a
/// prompt, whether it ends by an exit, and whether the source fails in place of its end; the most steps of a string, if not a million; how
/// many strings the history keeps, if that is said, and how many are noted. What comes after `[THEN]` is served in the same session, to
/// the end of its stream.
#[derive(Clone, Copy)]
struct Serving<'a> {
    cells: &'a Cells<'a>,
    untold: &'a [u8],
    single: bool,
}

impl Trial for Serving<'_> {
    fn holds(&self, alloc: Global, session: &mut Session, term: &mut Screen) -> bool {
        let (cells, said) = (self.cells, self.cells[4]);
        let (fails, prompt) = (has(said, "fails"), has(said, "prompt"));
        let limit = number_or(cells[5], 1_000_000);
        let mut wanted = end_of(said);
        let mut listener = Counting { strings: 0 };
        let mut held = true;
        for stream in cells[0].split("[THEN]") {
            let mut source = source_of(alloc, stream.as_bytes(), self.single, fails);
            let served = served_by(
                alloc,
                &mut source,
                session,
                limit,
                prompt,
                term,
                &mut listener,
            );
            held = served == wanted && held;
            wanted = Served::EndOfCommands;
        }
        held && are_told(shown_on(term), cells[1], self.untold) && is_left(session, cells)
    }
}

/// Whether a row holds in a session whose history has this depth, if one is given.
fn holds_so(alloc: Global, cells: &Cells, untold: &[u8], single: bool, depth: u64) -> bool {
    let over = Over {
        input: cells[3].as_bytes(),
        page_lines: 0,
        depth: if depth == 0 {
            None
        } else {
            Some(depth as usize)
        },
    };
    let serving = Serving {
        cells,
        untold,
        single,
    };
    holds_once(alloc, &over, &serving)
}

/// Whether a row holds with its stream as one piece and in single bytes, and with a history that is deep enough for its strings.
fn holds(alloc: Global, cells: &Cells, untold: &[u8]) -> bool {
    holds_so(alloc, cells, untold, false, number_or(cells[6], 0))
        && holds_so(alloc, cells, untold, true, number_or(cells[6], 0))
        && holds_so(alloc, cells, untold, false, number_or(cells[6], 100))
}

/// Streams that type what their rows say, but for these bytes.
#[derive(Clone, Copy)]
struct Streams<'a>(&'a [u8]);

impl Rule for Streams<'_> {
    fn holds(&self, alloc: Global, row: &str) -> bool {
        holds(alloc, &cells_of(row), self.0)
    }
}

const REQUESTS: &str = "
    // Requests.
     =>
    Ia$ =>
    {$$ => ?NTU\r\n
    3}$$ 2{\r\n$$ => ?NTR\r\n?NTU\r\n
    Ia$${$$}$$}$$HT$$ => ?NTR\r\na
    Ia$$Ib$$3{$$Z=$$ => ?NTU\r\n0\r\n
    Ia$$Ib$$2{$$}$$HT$$ => a
    Ia$$Ib$$2{$$Ic$${$$2}$$HT$$ => ?NTR\r\nc
    1=$$$2=$$2{$${$$ => 1\r\n2\r\n?NTU\r\n
    // At a prompt.
     => * => => => prompt
    {$$0}$$}$ => *?NTU\r\n** => => => prompt
    1=$$ => *1\r\n* => => => prompt
    // To the limit.
    1=$${$${$$ => ?LIM\r\n?NTU\r\n => => => => 0
    !x!Ox$$ => ?LIM\r\n => => => => 5
    @^UA/MA/MA$$ => ?LIM\r\n => => => => 33
    @^UA/MA/MA$$ => ?PDO\r\n => => => => 34
    // To a failed read; an exit comes before it.
    1=$$ => 1\r\n => => => fails
    }$$Ia$ => *?NTR\r\n* => => => prompt fails
    EX$$1=$$ => => => => exit fails
    // An exit, and what is served after it in the same session, where two steps are enough for each string.
    YEX$$ => => a => a => exit => 2
    YEX$$[THEN]1=$$ => ?END\r\n => a => a => exit => 2
    YEX$$[THEN]1=$$[THEN]{$$1=$$}$$ => ?END\r\n1\r\n?NTR\r\n => => a => exit => 2
    // Beginnings of a stream that note no string. What a source gives before it fails is served as if it had ended there.
     => => => => => => => 0
    1 => => => => => => => 0
    1= => => => => => => => 0
    1=$ => => => => => => => 0
     => => => => fails => => => 0
    1 => => => => fails => => => 0
    1= => => => => fails => => => 0
    1=$ => => => => fails => => => 0
    // Its beginnings that note one string.
    1=$$ => 1\r\n => => => => => => 1
    1=$${ => 1\r\n => => => => => => 1
    1=$${$ => 1\r\n => => => => => => 1
    1=$${$$ => 1\r\n => => => => => => 1
    1=$${$$3 => 1\r\n => => => => => => 1
    1=$${$$3< => 1\r\n => => => => => => 1
    1=$${$$3<I => 1\r\n => => => => => => 1
    1=$${$$3<Ix => 1\r\n => => => => => => 1
    1=$${$$3<Ix$ => 1\r\n => => => => => => 1
    1=$${$$3<Ix$> => 1\r\n => => => => => => 1
    1=$${$$3<Ix$>$ => 1\r\n => => => => => => 1
    1=$${$$3<Ix$>$$ => 1\r\n => => => => => => 1
    1=$${$$3<Ix$>$$} => 1\r\n => => => => => => 1
    1=$${$$3<Ix$>$$}$ => 1\r\n => => => => => => 1
    1=$${$$3<Ix$>$$}$$ => 1\r\n?NTR\r\n => => => => => => 1
    1=$${$$3<Ix$>$$}$$. => 1\r\n?NTR\r\n => => => => => => 1
    1=$${$$3<Ix$>$$}$$.= => 1\r\n?NTR\r\n => => => => => => 1
    1=$${$$3<Ix$>$$}$$.=$ => 1\r\n?NTR\r\n => => => => => => 1
    1=$$ => 1\r\n => => => fails => => => 1
    1=$${ => 1\r\n => => => fails => => => 1
    1=$${$ => 1\r\n => => => fails => => => 1
    1=$${$$ => 1\r\n => => => fails => => => 1
    1=$${$$3 => 1\r\n => => => fails => => => 1
    1=$${$$3< => 1\r\n => => => fails => => => 1
    1=$${$$3<I => 1\r\n => => => fails => => => 1
    1=$${$$3<Ix => 1\r\n => => => fails => => => 1
    1=$${$$3<Ix$ => 1\r\n => => => fails => => => 1
    1=$${$$3<Ix$> => 1\r\n => => => fails => => => 1
    1=$${$$3<Ix$>$ => 1\r\n => => => fails => => => 1
    1=$${$$3<Ix$>$$ => 1\r\n => => => fails => => => 1
    1=$${$$3<Ix$>$$} => 1\r\n => => => fails => => => 1
    1=$${$$3<Ix$>$$}$ => 1\r\n => => => fails => => => 1
    1=$${$$3<Ix$>$$}$$ => 1\r\n?NTR\r\n => => => fails => => => 1
    1=$${$$3<Ix$>$$}$$. => 1\r\n?NTR\r\n => => => fails => => => 1
    1=$${$$3<Ix$>$$}$$.= => 1\r\n?NTR\r\n => => => fails => => => 1
    1=$${$$3<Ix$>$$}$$.=$ => 1\r\n?NTR\r\n => => => fails => => => 1
    // Its beginnings that note two strings.
    1=$${$$3<Ix$>$$}$$.=$$ => 1\r\n?NTR\r\n3\r\n => => => => => => 2
    1=$${$$3<Ix$>$$}$$.=$$2 => 1\r\n?NTR\r\n3\r\n => => => => => => 2
    1=$${$$3<Ix$>$$}$$.=$$2{ => 1\r\n?NTR\r\n3\r\n => => => => => => 2
    1=$${$$3<Ix$>$$}$$.=$$2{$ => 1\r\n?NTR\r\n3\r\n => => => => => => 2
    1=$${$$3<Ix$>$$}$$.=$$2{$$ => 1\r\n?NTR\r\n3\r\n => => => => => => 2
    1=$${$$3<Ix$>$$}$$.=$$ => 1\r\n?NTR\r\n3\r\n => => => fails => => => 2
    1=$${$$3<Ix$>$$}$$.=$$2 => 1\r\n?NTR\r\n3\r\n => => => fails => => => 2
    1=$${$$3<Ix$>$$}$$.=$$2{ => 1\r\n?NTR\r\n3\r\n => => => fails => => => 2
    1=$${$$3<Ix$>$$}$$.=$$2{$ => 1\r\n?NTR\r\n3\r\n => => => fails => => => 2
    1=$${$$3<Ix$>$$}$$.=$$2{$$ => 1\r\n?NTR\r\n3\r\n => => => fails => => => 2
    ";

/// The tables of streams. Past the last there are no rows. An array of them would cost the proof more.
fn table(at: usize) -> &'static str {
    match at {
        0 => REQUESTS,
        1 => rewinds::ROWS,
        2 => pages::ROWS,
        3 => commands::ROWS,
        4 => searches::ROWS,
        5 => failed_searches::ROWS,
        6 => depths::ROWS,
        7 => worked::ROWS,
        _ => "",
    }
}

#[test]
fn serves_streams(rt: HostRuntime) {
    for at in 0..32 {
        all_hold(&rt, rt.alloc(), &Streams(b""), table(at));
    }
}

mod commands;
mod depths;
mod documents;
mod examples;
mod failing;
mod pages;
mod programs;
mod rewinds;
mod searches;
mod worked;
