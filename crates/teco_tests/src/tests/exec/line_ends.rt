//! Commands of lines over a text of line ends alone: they go where a plain loop over its bytes goes.
use crate::tests::bytes::{Screen, are_both, joined, put};
use crate::tests::rows::{Cells, Rule, all_hold, cells_of, number_or};
use crate::tests::session::requests::{Over, Trial, holds_in, ran};
use std::alloc::Global;
use std::test::*;
use teco_session::Session;
use teco_store::{Desk, Editor};

/// The bytes of the text, each of which is a line feed.
const LINES: usize = 100_000;

/// The place of the gap; the pointer; and the number before the command, where none and a sign alone are left as they are.
const ROWS: &str = "
    // One line.
    0 => 0 =>
    0 => 99999 =>
    0 => 100000 =>
    50000 => 49999 =>
    50000 => 50000 =>
    100000 => 50000 =>
    0 => 0 => -
    0 => 1 => -
    0 => 100000 => -
    50000 => 50000 => -
    50000 => 50001 => -
    100000 => 50000 => -
    // Five, and none.
    0 => 0 => 5
    50000 => 49998 => 5
    50000 => 99995 => 5
    50000 => 99996 => 5
    0 => 4 => -5
    0 => 5 => -5
    50000 => 50002 => -5
    0 => 0 => 0
    0 => 100000 => 0
    50000 => 50000 => 0
    100000 => 49999 => 0
    // All, one less, one more, and the largest numbers.
    50000 => 0 => 99999
    50000 => 0 => 100000
    50000 => 0 => 100001
    50000 => 1 => 2147483647
    50000 => 100000 => -99999
    50000 => 100000 => -100000
    50000 => 100000 => -100001
    50000 => 99999 => -2147483647
    ";

/// Where the line after a place begins; the end of the text where there is none.
fn next_line(text: &[u8], place: usize) -> usize {
    for at in place..text.len() {
        if text[at] == b'\n' {
            return at + 1;
        }
    }
    text.len()
}

/// Where the line of a place begins.
fn line_start(text: &[u8], place: usize) -> usize {
    let end = place.min(text.len());
    for back in 0..end {
        let at = end - back;
        if text[at - 1] == b'\n' {
            return at;
        }
    }
    0
}

/// The place that so many lines after another are, or before the beginning of its line.
fn line_at(text: &[u8], place: usize, forth: bool, lines: u64) -> usize {
    let mut at = if forth {
        place
    } else {
        line_start(text, place)
    };
    for _line in 0..lines.min(LINES as u64 + 1) {
        at = if forth {
            next_line(text, at)
        } else {
            line_start(text, at.saturating_sub(1))
        };
    }
    at.min(text.len())
}

/// Where a command with this number before it goes from a place: one line without a number, and by a sign alone one before.
fn goal(text: &[u8], place: usize, number: &str) -> usize {
    match number.strip_prefix('-') {
        Some(lines) => line_at(text, place, false, number_or(lines, 1)),
        None => {
            let lines = number_or(number, 1);
            line_at(text, place, lines > 0, lines)
        }
    }
}

/// So many line feeds. Where memory was refused, it is asked for a second time.
fn line_feeds(alloc: Global) -> Vec<u8> {
    let mut text = Vec::new(alloc);
    let _ = text.resize(LINES, b'\n').is_ok() || text.resize(LINES, b'\n').is_ok();
    text
}

/// What is run before a command of a row: the page is read, the gap put in its place, and the pointer in its own.
fn before(alloc: Global, cells: &Cells) -> Vec<u8> {
    let [gap, place, ..] = *cells;
    joined(
        alloc,
        &[b"Y", gap.as_bytes(), b"JIx\x1b-D", place.as_bytes(), b"J"],
    )
}

/// A row, of which a letter is the command.
#[derive(Clone, Copy)]
struct Goes<'a> {
    cells: Cells<'a>,
    letter: u8,
}

/// Whether the pointer is where a command has to leave it, and the text is so much shorter.
fn is_at(editor: &Editor, pointer: usize, killed: usize, text: &[u8]) -> bool {
    editor.pointer() == pointer && are_both(editor.halves(), &text[killed.min(text.len())..])
}

impl Trial for Goes<'_> {
    /// The bytes are all alike, so what is left of them is as long as it has to be.
    fn holds(&self, alloc: Global, session: &mut Session, term: &mut Screen) -> bool {
        let text = line_feeds(alloc);
        let place = number_or(self.cells[1], 0) as usize;
        let goal = goal(&text, place, self.cells[2]);
        let mut string = before(alloc, &self.cells);
        put(&mut string, self.cells[2].as_bytes());
        put(&mut string, &[self.letter]);
        let code = ran(session, &string, 1000, term).code();
        let moved = match self.letter {
            b'K' => is_at(
                session.editor(),
                place.min(goal),
                place.abs_diff(goal),
                &text,
            ),
            _ => is_at(session.editor(), goal, 0, &text),
        };
        code.is_none() && moved
    }
}

/// A row for each of the two commands.
#[derive(Clone, Copy)]
struct LineEnds;

impl Rule for LineEnds {
    fn holds(&self, alloc: Global, row: &str) -> bool {
        let input = line_feeds(alloc);
        let cells = cells_of(row);
        let over = Over::new(&input);
        let moves = holds_in(
            alloc,
            &over,
            &Goes {
                cells,
                letter: b'L',
            },
        );
        let kills = holds_in(
            alloc,
            &over,
            &Goes {
                cells,
                letter: b'K',
            },
        );
        moves && kills
    }
}

#[test]
fn lines_of_a_byte_are_passed_one_by_one(rt: HostRuntime) {
    all_hold(&rt, rt.alloc(), &LineEnds, ROWS);
}
