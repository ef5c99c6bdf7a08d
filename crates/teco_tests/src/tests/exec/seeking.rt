//! The first step of a run that comes at a place which is sought.
use crate::tests::bytes::Screen;
use crate::tests::rows::{Cells, Rule, all_hold, cells_of, number_or};
use crate::tests::session::requests::{Over, Trial, holds_in};
use std::alloc::Global;
use std::cell::Cell;
use std::test::*;
use teco_exec::{Options, Seeking, UntilFound, Wants};
use teco_session::{Answer, Session};

const ROWS: &str = "
    // A token in an iteration, from the beginning on and later.
    3<1=> => 0 => 0 => 3 => 3 => 4
    3<1=> => 3 => 0 => 3 => 3 => 4
    3<1=> => 4 => 0 => 3 => 6 => 7
    3<1=> => 10 => 0 => 3 => => 11
    // The end of a turn, fillers, and a place inside a token.
    3<1=> => 0 => 0 => 4 => 4 => 5
    1\r\n +2= => 0 => 0 => 4 => 1 => 2
    1\r\n +2= => 0 => 0 => 2 => => 4
    // A further step of a token, one that fails, and a fault, which uses no step.
    3P => 2 => 0 => 1 => 2 => 4
    1,2J => 0 => 0 => 3 => 3 => 4
    7=Iab => 0 => 0 => 2 => => 2
    // A call, the text that is called, one that calls, and a call too many.
    @^UB/1J/@^UA/2<MB>/MA => 0 => 0 => 19 => 2 => 3
    @^UB/1J/@^UA/2<MB>/MA => 0 => 1 => 2 => 5 => 6
    @^UB/1J/@^UA/2<MB>/MA => 0 => 2 => 1 => 7 => 8
    @^UA/MA/MA => 33 => 32 => 0 => 33 => 34
    ";

/// A place with so many calls open.
#[derive(Clone, Copy)]
struct At {
    calls: usize,
    at: usize,
}

impl Wants for At {
    ghost use Rattle.std.specs.Prelude.{◌==◌, ◌&&◌};

    ghost wanted = { λ here calls at. here.calls == calls && here.at == at };

    fn wants(&self, calls: usize, at: usize) -> bool {
        self.calls == calls && self.at == at
    }
}

/// A row, whose text is run until its place is found.
#[derive(Clone, Copy)]
struct Until<'a>(Cells<'a>);

impl Trial for Until<'_> {
    fn holds(&self, _alloc: Global, session: &mut Session, term: &mut Screen) -> bool {
        let [text, from, calls, at, found, steps, ..] = self.0;
        let has_found = Cell::new(false);
        let place = At {
            calls: number_or(calls, 0) as usize,
            at: number_or(at, 0) as usize,
        };
        let options = Options {
            limit: 1000,
            stop: &mut UntilFound::new(&has_found),
        };
        let watch = Seeking::new(place, number_or(from, 0), &has_found);
        let (answer, watch) = session.run_with(text.as_bytes(), term, options, watch);
        match answer {
            Answer::Ended(outcome) => {
                outcome.steps == number_or(steps, 0)
                    && watch.found().unwrap_or(u64::MAX) == number_or(found, u64::MAX)
            }
            _ => false,
        }
    }
}

/// A session that keeps no string, so the text is run on its editor.
const NO_STRING: Over = Over {
    input: b"",
    page_lines: 0,
    depth: Some(0),
};

/// A row is a text, the first step that is sought, the calls that are open at the place and the place; the step that is found, if one is;
/// and the steps after which the run ends or is broken off.
#[derive(Clone, Copy)]
struct IsFound;

impl Rule for IsFound {
    fn holds(&self, alloc: Global, row: &str) -> bool {
        holds_in(alloc, &NO_STRING, &Until(cells_of(row)))
    }
}

#[test]
fn the_first_step_at_a_place_is_found(rt: HostRuntime) {
    all_hold(&rt, rt.alloc(), &IsFound, ROWS);
}
